//! The table of the built-in classes, in their order. A row of a member reads `[flags name descriptor]`, and one with
//! code has that behind. A method has the flag native, the flag abstract or a code.

ghost use Rattle.std.specs.Prelude.{◌≡◌, map, slice_get};
ghost use Rattle.std.specs.Option.{option_map};
ghost use Rattle.std.specs.List.{flat_map};
ghost use Rattle.base_classes.specs.BuiltInClasses.{built_in_classes};
ghost use Rattle.base_classes.specs.RowViews.{class_view};

use crate::access::{ABSTRACT, FINAL, INTERFACE, PUBLIC, SUPER};
use crate::rows::ClassRow;

/// The flags of a class to which nothing special goes.
const PLAIN_CLASS: u16 = PUBLIC | SUPER;

const FINAL_CLASS: u16 = PUBLIC | FINAL | SUPER;

const ABSTRACT_CLASS: u16 = PUBLIC | SUPER | ABSTRACT;

const INTERFACE_CLASS: u16 = PUBLIC | INTERFACE | ABSTRACT;

macro_rules! flag {
    (public) => { crate::access::PUBLIC };
    (private) => { crate::access::PRIVATE };
    (protected) => { crate::access::PROTECTED };
    (static) => { crate::access::STATIC };
    (native) => { crate::access::NATIVE };
    (abstract) => { crate::access::ABSTRACT };
}

macro_rules! member_row {
    ([$($flag:ident)* $name:literal $descriptor:literal]) => {
        MemberRow { access: 0 $(| flag!($flag))*, name: $name, descriptor: $descriptor, code: None }
    };
    ([$($flag:ident)* $name:literal $descriptor:literal $code:ident]) => {
        MemberRow {
            access: 0 $(| flag!($flag))*,
            name: $name,
            descriptor: $descriptor,
            code: Some(&$code),
        }
    };
}

macro_rules! member_rows {
    ($($row:tt)*) => {
        [$(member_row!($row)),*]
    };
}

/// A class with the four constructors of java/lang/Throwable and nothing else.
macro_rules! throwable_row {
    ($name:literal $superclass:literal) => {
        ClassRow {
            access: PLAIN_CLASS,
            name: $name,
            superclass: Some($superclass),
            interfaces: &[],
            fields: &[],
            methods: &CONSTRUCTORS,
        }
    };
}

mod objects;
mod streams;
mod texts;
mod throwables;
mod values;

use objects::objects;
use streams::streams;
use texts::texts;
use throwables::throwables;
use values::values;

/// The rows of all classes, in groups that follow one another.
pub(crate) fn groups() -> [&'static [ClassRow]; 5]
    ensures { flat_map (λ rows. map class_view rows.now) result ≡ built_in_classes }
{
    [objects(), texts(), streams(), values(), throwables()]
}

/// The row at a place of a group.
fn row_in(group: &'static [ClassRow], place: usize) -> Option<&'static ClassRow>
    ensures { option_map (λ row. class_view row.now) result
        ≡ slice_get (map class_view group.now) place }
{
    group.get(place)
}

/// The row at a place of these groups, counted through all of them.
fn row_among(groups: &[&'static [ClassRow]], place: usize) -> Option<&'static ClassRow>
    ensures { option_map (λ row. class_view row.now) result
        ≡ slice_get (flat_map (λ rows. map class_view rows.now) groups.now) place }
{
    let mut place = place;
    for group in groups {
        if let Some(row) = row_in(group, place) {
            return Some(row);
        }
        place -= group.len();
    }
    None
}

/// The row of the class at this place of the order.
pub(crate) fn class_row(place: usize) -> Option<&'static ClassRow>
    ensures { option_map (λ row. class_view row.now) result ≡ slice_get built_in_classes place }
{
    row_among(&groups(), place)
}
