//! The members of a class by name and descriptor.

ghost use Rattle.std.specs.Prelude.{◌≡◌};
ghost use Rattle.std.specs.Option.{option_map};
ghost use Rattle.class_index.specs.Buckets.{table_of};
ghost use Rattle.class_index.specs.Members.{wanted_view};
ghost use Rattle.jvm_model.specs.Classes.Lookup.{field_at, first_in, method_at};
ghost use Rattle.jvm_model.specs.Basis.Methods.{method_named};
ghost use Rattle.jvm_model.specs.Basis.SharedState.{field_named};
ghost use Rattle.class_index.specs.Members.{place_view};

use crate::index::Index;
use crate::table::{MemberBuckets, member_sought};
use crate::wanted::Wanted;
use const_pool::ClassFile;

/// The position of the first method with this name and this descriptor.
#[tactic(auto, using(crate::proofs::BucketLemmas::methods_some))]
fn method_named(file: &ClassFile, table: &MemberBuckets, wanted: &Wanted<'_>) -> Option<u16>
    requires { table.now ≡ table_of file.now }
    ensures { result ≡ method_named file.now (wanted_view wanted.now) }
{
    let members = file.methods.as_slice();
    member_sought(&file.pool, members, table.methods.as_slice(), wanted)
}

/// The position of the first field with this name and this descriptor.
#[tactic(auto, using(crate::proofs::BucketLemmas::fields_some))]
fn field_named(file: &ClassFile, table: &MemberBuckets, wanted: &Wanted<'_>) -> Option<u16>
    requires { table.now ≡ table_of file.now }
    ensures { result ≡ field_named (wanted_view wanted.now) file.now }
{
    let members = file.fields.as_slice();
    member_sought(&file.pool, members, table.fields.as_slice(), wanted)
}

/// The method of a class.
pub fn method_at(index: &Index, wanted: &Wanted<'_>, class: u32) -> Option<u16>
    ensures { result ≡ method_at index.now (wanted_view wanted.now) class }
{
    let file = index.file(class)?;
    let table = index.table(class)?;
    method_named(file, table, wanted)
}

/// The field of a class.
pub fn field_at(index: &Index, wanted: &Wanted<'_>, class: u32) -> Option<u16>
    ensures { result ≡ field_at index.now (wanted_view wanted.now) class }
{
    let file = index.file(class)?;
    let table = index.table(class)?;
    field_named(file, table, wanted)
}

/// The method of the first of these classes that has one.
pub fn first_method(index: &Index, wanted: &Wanted<'_>, classes: &[u32]) -> Option<(u32, u16)>
    ensures { option_map place_view result
        ≡ first_in (method_at index.now (wanted_view wanted.now)) classes.now }
{
    for class in classes {
        if let Some(position) = method_at(index, wanted, *class) {
            return Some((*class, position));
        }
    }
    None
}

/// The field of the first of these classes that has one.
pub fn first_field(index: &Index, wanted: &Wanted<'_>, classes: &[u32]) -> Option<(u32, u16)>
    ensures { option_map place_view result
        ≡ first_in (field_at index.now (wanted_view wanted.now)) classes.now }
{
    for class in classes {
        if let Some(position) = field_at(index, wanted, *class) {
            return Some((*class, position));
        }
    }
    None
}
