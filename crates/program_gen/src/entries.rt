//! Making entries of a constant pool (JVM Specification 4.4): each at its first need, behind its parts, and none twice.

ghost use Rattle.std.specs.Prelude.{◌≡◌};
ghost use Rattle.std.specs.List.{position_from};
ghost use Rattle.const_pool.specs.declared.pool.Const.TheVariants.{Utf8};
ghost use Rattle.program_gen.specs.Names.{class_text, member_text, member_descriptor};
ghost use Rattle.program_gen.specs.Making.{is_text, is_class, is_field, is_method, is_name_type, is_same, entry_shared, class_shared, name_type_shared, member_shared};
ghost use Rattle.class_making.specs.Making.{GivesEntry};

use crate::names::{class_text, member_descriptor, member_text};
use crate::rows::{ClassName, MemberName};
use class_making::{member_entry, short_of, text_of};
use const_pool::Const;
use jf_bytes::{NoMemory, Text16};
use std::alloc::Global;

fn is_text(text: &Text16, other: &Const) -> bool
    ensures { result ≡ is_text text.now other.now }
{
    match other {
        Const::Utf8(units) => text.same(units),
        _ => false,
    }
}

fn is_class(name: u16, other: &Const) -> bool
    ensures { result ≡ is_class name other.now }
{
    match other {
        Const::Class(index) => name == *index,
        _ => false,
    }
}

fn is_field(class: u16, member: u16, other: &Const) -> bool
    ensures { result ≡ is_field class member other.now }
{
    match other {
        Const::Field(c, m) => class == *c && member == *m,
        _ => false,
    }
}

fn is_method(class: u16, member: u16, other: &Const) -> bool
    ensures { result ≡ is_method class member other.now }
{
    match other {
        Const::Method(c, m) => class == *c && member == *m,
        _ => false,
    }
}

fn is_name_type(name: u16, descriptor: u16, other: &Const) -> bool
    ensures { result ≡ is_name_type name descriptor other.now }
{
    match other {
        Const::NameType(n, d) => name == *n && descriptor == *d,
        _ => false,
    }
}

/// Whether two entries are equal, as far as the kinds that are made here.
fn is_same(entry: &Const, other: &Const) -> bool
    ensures { result ≡ is_same entry.now other.now }
{
    match entry {
        Const::Utf8(text) => is_text(text, other),
        Const::Class(name) => is_class(*name, other),
        Const::Field(class, member) => is_field(*class, *member, other),
        Const::Method(class, member) => is_method(*class, *member, other),
        Const::NameType(name, descriptor) => is_name_type(*name, *descriptor, other),
        _ => false,
    }
}

/// The index of the first entry that is equal to this one.
fn place_of(pool: &[Const], entry: &Const) -> Option<usize>
    ensures { result ≡ position_from (is_same entry.now) 0 pool.now }
{
    let mut place = 0;
    for other in pool {
        if is_same(entry, other) {
            return Some(place);
        }
        place += 1;
    }
    None
}

/// The index of an entry, which is added where there is none that is equal.
#[tactic(auto, unfolding(crate::specs::Making::entry_shared))]
fn share(pool: &mut Vec<Const>, entry: Const) -> Result<u16, NoMemory>
    ensures { GivesEntry result pool.new.items (entry_shared pool.old.items entry) }
{
    match place_of(pool, &entry) {
        Some(place) => Ok(short_of(place)),
        None => {
            let index = short_of(pool.len());
            pool.push(entry)?;
            Ok(index)
        }
    }
}

/// The index of an ASCII text (4.4.7).
pub(crate) fn share_text(alloc: Global, pool: &mut Vec<Const>, text: &str) -> Result<u16, NoMemory>
    ensures { GivesEntry result pool.new.items (entry_shared pool.old.items (Utf8 text.now)) }
{
    share(pool, Const::Utf8(text_of(alloc, text)?))
}

/// The index of a class (4.4.1).
#[tactic(auto, unfolding(crate::specs::Making::class_shared))]
pub(crate) fn share_class(
    alloc: Global,
    pool: &mut Vec<Const>,
    name: ClassName,
) -> Result<u16, NoMemory>
    ensures { GivesEntry result pool.new.items (class_shared pool.old.items name) }
{
    let text = share(pool, Const::Utf8(class_text(alloc, name)?))?;
    share(pool, Const::Class(text))
}

#[tactic(auto, unfolding(crate::specs::Making::name_type_shared))]
fn share_name_type(
    alloc: Global,
    pool: &mut Vec<Const>,
    member: MemberName,
) -> Result<u16, NoMemory>
    ensures { GivesEntry result pool.new.items (name_type_shared pool.old.items member) }
{
    let name = share_text(alloc, pool, member_text(member))?;
    let descriptor = share_text(alloc, pool, member_descriptor(member))?;
    share(pool, Const::NameType(name, descriptor))
}

/// The index of the member that an instruction with this opcode names (4.4.2).
#[tactic(auto, unfolding(crate::specs::Making::member_shared))]
pub(crate) fn share_member(
    alloc: Global,
    pool: &mut Vec<Const>,
    op: u8,
    class: ClassName,
    member: MemberName,
) -> Result<u16, NoMemory>
    ensures { GivesEntry result pool.new.items (member_shared pool.old.items op class member) }
{
    let class = share_class(alloc, pool, class)?;
    let name_type = share_name_type(alloc, pool, member)?;
    share(pool, member_entry(op, class, name_type))
}
