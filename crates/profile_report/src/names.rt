//! Names of methods and classes.

ghost use Rattle.std.specs.Prelude.{◌≡◌, ◌++◌, OnOk};
ghost use Rattle.std.specs.Option.{option_copied};
ghost use Rattle.profile_report.specs.Reports.{class_text, member_text, method_text};
ghost use Rattle.profile_report.specs.Shown.{text_shown};

use const_pool::ClassFile;
use jf_bytes::{NoMemory, Text16};
use jvm_model::Program;
use std::alloc::Global;
use text_coding::to_utf8;

/// Adds a text that the pool may have, in UTF-8.
fn push_text(alloc: Global, out: &mut Vec<u8>, text: Option<&Text16>) -> Result<(), NoMemory>
    ensures { OnOk result (out.new.items ≡ out.old.items ++ text_shown (option_copied text.entry)) }
{
    let Some(text) = text else {
        return Ok(());
    };
    out.extend_from_slice(&to_utf8(alloc, text)?)?;
    Ok(())
}

/// Adds the method at a position of a class: the class, a dot, its name and its descriptor.
fn push_member(
    alloc: Global,
    out: &mut Vec<u8>,
    class: &ClassFile,
    position: u16,
) -> Result<(), NoMemory>
    ensures { OnOk result (out.new.items ≡ out.old.items ++ member_text class.now position) }
{
    push_text(alloc, out, class.pool.class_name(class.this_class).ok())?;
    out.push(b'.')?;
    let Some(method) = class.methods.get(position as usize) else {
        return Ok(());
    };
    push_text(alloc, out, class.pool.text(method.name).ok())?;
    push_text(alloc, out, class.pool.text(method.descriptor).ok())
}

/// Adds the method with this number.
pub fn push_method(
    alloc: Global,
    out: &mut Vec<u8>,
    program: &Program,
    method: u32,
) -> Result<(), NoMemory>
    ensures { OnOk result (out.new.items ≡ out.old.items ++ method_text program.now method) }
{
    let Some(place) = program.methods.get(method as usize) else {
        return Ok(());
    };
    let Some(class) = program.classes.get(place.class as usize) else {
        return Ok(());
    };
    push_member(alloc, out, class, place.position)
}

/// Adds the name of the class at this position.
pub fn push_class(
    alloc: Global,
    out: &mut Vec<u8>,
    program: &Program,
    position: u32,
) -> Result<(), NoMemory>
    ensures { OnOk result (out.new.items ≡ out.old.items ++ class_text program.now position) }
{
    let Some(class) = program.classes.get(position as usize) else {
        return Ok(());
    };
    push_text(alloc, out, class.pool.class_name(class.this_class).ok())
}
