//! Fields and methods (JVM Specification 4.5, 4.6).

ghost use Rattle.std.specs.Prelude.{◌≡◌, ◌++◌, All, OnOk};
ghost use Rattle.const_pool.specs.ClassFile.{FitsCount, items_counted, member_bytes};
ghost use Rattle.class_writer.specs.Fits.{FitsMember};

use crate::attributes::push_attributes;
use crate::numbers::push_u16;
use const_pool::Member;
use jf_bytes::NoMemory;

/// Appends a field or a method.
fn push_member(out: &mut Vec<u8>, member: &Member) -> Result<(), NoMemory>
    requires { FitsMember member.now }
    ensures { OnOk result (out.new.items ≡ out.old.items ++ member_bytes member.now) }
{
    push_u16(out, member.access)?;
    push_u16(out, member.name)?;
    push_u16(out, member.descriptor)?;
    push_attributes(out, member.attributes.as_slice())
}

/// Appends the count of fields or methods, and then each.
pub(crate) fn push_members(out: &mut Vec<u8>, members: &[Member]) -> Result<(), NoMemory>
    requires count { FitsCount members.now }
    requires each { All FitsMember members.now }
    ensures { OnOk result
        (out.new.items ≡ out.old.items ++ items_counted member_bytes members.now) }
{
    push_u16(out, members.len() as u16)?;
    for member in members {
        push_member(out, member)?;
    }
    Ok(())
}
