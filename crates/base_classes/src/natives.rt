//! The numbers of the native methods: they are counted from 0, through the classes in their order and through the
//! methods of each in its order.

ghost use Rattle.std.specs.Prelude.{◌≡◌, ◌≢◌, ◌<◌, ◌+◌, ◌^◌, ℕ, Some, filter, length, map, slice_get, IfNone, IfSome};
ghost use Rattle.std.specs.List.{position_from};
ghost use Rattle.base_classes.specs.Natives.{is_native, is_member, native_methods, native_starts, method_named, native_number};
ghost use Rattle.base_classes.specs.RowViews.{member_view};

use crate::access::NATIVE;
use crate::names::position_of;
use crate::places::BUILT_IN_CLASSES;
use crate::rows::MemberRow;
use crate::tables::class_row;
use jf_bytes::Text16;

/// How many native methods stand before those of each class.
static STARTS: [u16; BUILT_IN_CLASSES as usize] = [
    0, 6, 6, 6, 6, 6, 6, 8, 32, 47, 62, 64, 78, 81, 82, 92, 101, 110, 116, 122, 130, 136, 140, 144,
    148, 152, 156, 160, 164, 168, 172, 176, 180, 184, 188, 192, 196, 200, 204, 208, 213, 217, 221,
    225, 229, 233, 237, 241, 245, 249, 253, 257, 261,
];

fn starts() -> &'static [u16]
    ensures { result.now ≡ native_starts }
{
    &STARTS
}

fn start_at(starts: &[u16], place: usize) -> Option<u16>
    ensures { result ≡ slice_get starts.now place }
{
    starts.get(place).copied()
}

fn is_native(method: &MemberRow) -> bool
    ensures { result ≡ is_native (member_view method.now) }
{
    method.access & NATIVE != 0
}

fn is_member(method: &MemberRow, name: &Text16, descriptor: &Text16) -> bool
    ensures { result ≡ is_member name.now descriptor.now (member_view method.now) }
{
    name.is_bytes(method.name.as_bytes()) && descriptor.is_bytes(method.descriptor.as_bytes())
}

/// The number of the native method among these, of which the first native one has this number.
fn number_among(
    methods: &[MemberRow],
    first: u16,
    name: &Text16,
    descriptor: &Text16,
) -> Option<u16>
    requires { first + length methods.now < 2 ^ 16 }
    ensures { result ≡ position_from (is_member name.now descriptor.now) first
        (filter is_native (map member_view methods.now)) }
{
    let mut number = first;
    for method in methods {
        if is_native(method) {
            if is_member(method, name, descriptor) {
                return Some(number);
            }
            number += 1;
        }
    }
    None
}

/// The number of a native method of the built-in classes; none where they have no such native method. It takes no
/// memory.
pub fn native_of(class: &Text16, name: &Text16, descriptor: &Text16) -> Option<u16>
    ensures found { IfSome result (λ n.
        slice_get native_methods n ≡ Some (method_named class.now name.now descriptor.now)) }
    ensures none { IfNone result ((n : ℕ) →
        slice_get native_methods n ≢ Some (method_named class.now name.now descriptor.now)) }
    ensures number { result ≡ native_number (method_named class.now name.now descriptor.now) }
{
    let place = position_of(class)?;
    let row = class_row(place)?;
    let first = start_at(starts(), place)?;
    number_among(row.methods, first, name, descriptor)
}
