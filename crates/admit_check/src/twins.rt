//! Members of a class that agree in name and descriptor (JVM Specification 4.5, 4.6): each is compared with those
//! before it where they are few, and found by hashing where they are many.

ghost use Rattle.std.specs.Prelude.{◌≡◌, OnOk, IfOk};
ghost use Rattle.std.specs.List.{list_any};
ghost use Rattle.const_pool.specs.References.{named_text};
ghost use Rattle.admit_check.specs.Shapes.{has_member_twice, has_twins, is_same_member, same_named};
ghost use Rattle.admit_check.specs.Twins.{has_key, key_text, member_key, with_key};

use crate::name_set::NameSet;
use const_pool::{ClassFile, Member, Pool};
use jf_bytes::{NoMemory, Text16};
use std::alloc::Global;

/// So many members are compared in less time than their names are hashed in.
const FEW: usize = 64;

/// A name and a descriptor as one text, which tells where the name ends.
fn key_text(alloc: Global, name: &Text16, descriptor: &Text16) -> Result<Text16, NoMemory>
    ensures { IfOk result (λ key. key ≡ key_text name.now descriptor.now) }
{
    let mut units = Vec::new(alloc);
    for unit in name.units() {
        units.push(0)?;
        units.push(*unit)?;
    }
    units.push(1)?;
    units.extend_from_slice(descriptor.units())?;
    Ok(Text16::new(units))
}

/// The name and the descriptor of a member as one text.
fn member_key(alloc: Global, pool: &Pool, member: &Member) -> Result<Option<Text16>, NoMemory>
    ensures { IfOk result (λ key. key ≡ member_key pool.now member.now) }
{
    let Ok(name) = pool.text(member.name) else {
        return Ok(None);
    };
    let Ok(descriptor) = pool.text(member.descriptor) else {
        return Ok(None);
    };
    Ok(Some(key_text(alloc, name, descriptor)?))
}

/// Whether the key is one of these.
fn has_key(keys: &NameSet, key: &Option<Text16>) -> bool
    ensures { result ≡ has_key keys.now key.now }
{
    match key {
        Some(key) => keys.has(key),
        None => false,
    }
}

/// Adds the key, if it is none of these.
fn add_key(alloc: Global, keys: &mut NameSet, key: &Option<Text16>) -> Result<(), NoMemory>
    ensures { OnOk result (keys.new ≡ with_key keys.old key.now) }
{
    match key {
        Some(key) => keys.add(alloc, key),
        None => Ok(()),
    }
}

/// Whether two of these members agree in name and descriptor, found by hashing.
fn has_twins_among_many(alloc: Global, pool: &Pool, members: &[Member]) -> Result<bool, NoMemory>
    ensures { IfOk result (λ twice. twice ≡ has_twins pool.now members.now) }
{
    let mut keys = NameSet::new(alloc);
    for member in members {
        let key = member_key(alloc, pool, member)?;
        if has_key(&keys, &key) {
            return Ok(true);
        }
        add_key(alloc, &mut keys, &key)?;
    }
    Ok(false)
}

/// Whether these entries of the pool are one text.
fn is_same_text(pool: &Pool, a: u16, b: u16) -> bool
    ensures { result ≡ same_named (named_text pool.now a) (named_text pool.now b) }
{
    let Ok(a) = pool.text(a) else {
        return false;
    };
    let Ok(b) = pool.text(b) else {
        return false;
    };
    a.same(b)
}

/// Whether two members agree in name and descriptor.
fn is_same_member(pool: &Pool, a: &Member, b: &Member) -> bool
    ensures { result ≡ is_same_member pool.now a.now b.now }
{
    is_same_text(pool, a.name, b.name) && is_same_text(pool, a.descriptor, b.descriptor)
}

/// Whether a member agrees with one of these.
fn has_twin(pool: &Pool, member: &Member, before: &[Member]) -> bool
    ensures { result ≡ list_any (is_same_member pool.now member.now) before.now }
{
    before
        .iter()
        .any(|earlier| is_same_member(pool, member, earlier))
}

/// Whether two of these members agree in name and descriptor, found by comparing each with those before it.
fn has_twins_among_few(pool: &Pool, members: &[Member]) -> bool
    ensures { result ≡ has_twins pool.now members.now }
{
    for (position, member) in members.iter().enumerate() {
        if has_twin(pool, member, &members[..position]) {
            return true;
        }
    }
    false
}

/// Whether two of these members agree in name and descriptor.
fn has_twins(alloc: Global, pool: &Pool, members: &[Member]) -> Result<bool, NoMemory>
    ensures { IfOk result (λ twice. twice ≡ has_twins pool.now members.now) }
{
    if members.len() <= FEW {
        Ok(has_twins_among_few(pool, members))
    } else {
        has_twins_among_many(alloc, pool, members)
    }
}

/// Whether two fields or two methods of a class agree in name and descriptor.
pub fn has_member_twice(alloc: Global, class: &ClassFile) -> Result<bool, NoMemory>
    ensures { IfOk result (λ twice. twice ≡ has_member_twice class.now) }
{
    if has_twins(alloc, &class.pool, class.fields.as_slice())? {
        return Ok(true);
    }
    has_twins(alloc, &class.pool, class.methods.as_slice())
}
