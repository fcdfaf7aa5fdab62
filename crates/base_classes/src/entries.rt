//! Making entries of a constant pool (JVM Specification 4.4): each text, class and member that is named gets entries of
//! its own, at the pool's end.

ghost use Rattle.base_classes.specs.Making.{entry_added, text_added, string_added, class_added, name_type_added, reference_added};
ghost use Rattle.class_making.specs.Making.{GivesEntry};
ghost use Rattle.base_classes.specs.RowViews.{reference_view};

use crate::rows::MemberName;
use class_making::{member_entry, short_of, text_of};
use const_pool::Const;
use jf_bytes::NoMemory;
use std::alloc::Global;

/// Adds an entry, and gives its index.
#[tactic(auto, unfolding(crate::specs::Making::entry_added))]
fn add(pool: &mut Vec<Const>, entry: Const) -> Result<u16, NoMemory>
    ensures { GivesEntry result pool.new.items (entry_added pool.old.items entry) }
{
    let index = short_of(pool.len());
    pool.push(entry)?;
    Ok(index)
}

/// Adds an ASCII text (4.4.7).
#[tactic(auto, unfolding(crate::specs::Making::text_added))]
pub(crate) fn add_text(alloc: Global, pool: &mut Vec<Const>, text: &str) -> Result<u16, NoMemory>
    ensures { GivesEntry result pool.new.items (text_added pool.old.items text.now) }
{
    add(pool, Const::Utf8(text_of(alloc, text)?))
}

/// Adds a string that code loads (4.4.3).
#[tactic(auto, unfolding(crate::specs::Making::string_added))]
pub(crate) fn add_string(alloc: Global, pool: &mut Vec<Const>, text: &str) -> Result<u16, NoMemory>
    ensures { GivesEntry result pool.new.items (string_added pool.old.items text.now) }
{
    let text = add_text(alloc, pool, text)?;
    add(pool, Const::Text(text))
}

#[tactic(auto, unfolding(crate::specs::Making::class_added))]
pub(crate) fn add_class(alloc: Global, pool: &mut Vec<Const>, name: &str) -> Result<u16, NoMemory>
    ensures { GivesEntry result pool.new.items (class_added pool.old.items name.now) }
{
    let name = add_text(alloc, pool, name)?;
    add(pool, Const::Class(name))
}

#[tactic(auto, unfolding(crate::specs::Making::name_type_added))]
fn add_name_type(
    alloc: Global,
    pool: &mut Vec<Const>,
    name: &str,
    descriptor: &str,
) -> Result<u16, NoMemory>
    ensures { GivesEntry result pool.new.items
        (name_type_added pool.old.items name.now descriptor.now) }
{
    let name = add_text(alloc, pool, name)?;
    let descriptor = add_text(alloc, pool, descriptor)?;
    add(pool, Const::NameType(name, descriptor))
}

/// Adds the member that an instruction with this opcode names (4.4.2).
#[tactic(auto, unfolding(crate::specs::Making::reference_added))]
pub(crate) fn add_reference(
    alloc: Global,
    pool: &mut Vec<Const>,
    op: u8,
    member: &MemberName,
) -> Result<u16, NoMemory>
    ensures { GivesEntry result pool.new.items
        (reference_added pool.old.items op (reference_view member.now)) }
{
    let class = add_class(alloc, pool, member.class)?;
    let name_type = add_name_type(alloc, pool, member.name, member.descriptor)?;
    add(pool, member_entry(op, class, name_type))
}
