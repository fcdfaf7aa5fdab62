//! The pool tail: what a rewritten class has behind the entries of its own.

ghost use Rattle.std.specs.Prelude.{◌≡◌, ◌↔◌, ◌+◌, ◌<◌, ◌≤◌, ◌++◌, ◌∷◌, [], length, Err, IfOk, OnOk};
ghost use Rattle.const_pool.specs.declared.pool.Const.TheVariants.{Utf8};
ghost use Rattle.const_pool.specs.declared.tail.TailError.TheVariants.{Full};
ghost use Rattle.const_pool.specs.Tail.{probe_entries, tail_entries, with_tail, root_index, enter_index, leave_index, unwind_index, throwable_index, frames_index};

use crate::pool::{Const, Pool};
use jf_bytes::{NoMemory, Text16};
use std::alloc::{AllocError, AllocFailed, Global};
use thiserror::Error;

/// How many entries the tail has.
const TAIL_ENTRIES: usize = 18;

/// The greatest constant_pool_count (JVM Specification 4.1).
const MOST_ENTRIES: usize = 65_535;

/// A pool with its tail, and the indices that a rewritten class uses: the Methodrefs of the four probes, the class
/// java/lang/Throwable, and the name StackMapTable.
#[derive(Debug, Drop)]
pub struct Tail {
    pub pool: Pool,
    pub root: u16,
    pub enter: u16,
    pub leave: u16,
    pub unwind: u16,
    pub throwable: u16,
    pub frames: u16,
}

/// Why a pool gets no tail.
#[derive(Clone, Copy, Debug, PartialEq, Eq, Error)]
pub enum TailError {
    /// The pool has no room for the eighteen entries: a class file has at most 65,535.
    #[error("no room in the constant pool")]
    Full,
    #[error("no memory")]
    NoMemory,
}

impl From<NoMemory> for TailError {
    ghost use Rattle.const_pool.specs.declared.tail.TailError.TheVariants.{NoMemory as no_memory};

    ghost from_gives = { λ _ e. e ≡ no_memory };

    fn from(_error: NoMemory) -> TailError {
        TailError::NoMemory
    }
}

/// A text of its own with the same units.
pub fn text_copy(alloc: Global, text: &Text16) -> Result<Text16, NoMemory>
    ensures { IfOk result (λ t. t ≡ text.now) }
{
    Ok(Text16::new(Vec::from_slice(alloc, text.units())?))
}

/// An entry of its own with the same contents.
fn copy_of(alloc: Global, entry: &Const) -> Result<Const, NoMemory>
    ensures { IfOk result (λ c. c ≡ entry.now) }
{
    Ok(match entry {
        Const::Gap => Const::Gap,
        Const::Utf8(text) => Const::Utf8(text_copy(alloc, text)?),
        Const::Integer(n) => Const::Integer(*n),
        Const::Float(bits) => Const::Float(*bits),
        Const::Long(n) => Const::Long(*n),
        Const::Double(bits) => Const::Double(*bits),
        Const::Class(name) => Const::Class(*name),
        Const::Text(text) => Const::Text(*text),
        Const::Field(class, member) => Const::Field(*class, *member),
        Const::Method(class, member) => Const::Method(*class, *member),
        Const::InterfaceMethod(class, member) => Const::InterfaceMethod(*class, *member),
        Const::NameType(name, descriptor) => Const::NameType(*name, *descriptor),
    })
}

/// Entries of their own with the same contents.
fn copies_of(alloc: Global, entries: &[Const]) -> Result<Vec<Const>, NoMemory>
    ensures { IfOk result (λ copies. copies.items ≡ entries.now) }
{
    let mut copies = Vec::with_capacity(alloc, entries.len())?;
    for entry in entries {
        copies.push(copy_of(alloc, entry)?)?;
    }
    Ok(copies)
}

/// The pool, copied, for a class that is the original.
pub fn copy_pool(alloc: Global, pool: &Pool) -> Result<Pool, NoMemory>
    ensures { IfOk result (λ copy. copy ≡ pool.now) }
{
    Ok(Pool::new(copies_of(alloc, pool.entries())?))
}

/// The Utf8 entry of an ASCII text.
fn utf8(alloc: Global, text: &str) -> Result<Const, NoMemory>
    ensures { IfOk result (λ c. c ≡ Utf8 text.now) }
{
    let units = text
        .as_bytes()
        .iter()
        .map(|byte| u16::from(*byte))
        .collect(alloc)?;
    Ok(Const::Utf8(Text16::new(units)))
}

/// Adds the Utf8 entry of an ASCII text.
fn push_text(alloc: Global, tail: &mut Vec<Const>, text: &str) -> Result<(), NoMemory>
    ensures { OnOk result (tail.new.items ≡ tail.old.items ++ Utf8 text.now ∷ []) }
{
    tail.push(utf8(alloc, text)?)?;
    Ok(())
}

/// Adds the entries of a probe, the first of which is the tail's entry `at`: its name, that with the descriptor of all
/// probes, and the method. The tail begins with the name of the probes' class, the class and that descriptor.
fn push_probe(
    alloc: Global,
    tail: &mut Vec<Const>,
    count: u16,
    name: &str,
    at: u16,
) -> Result<(), NoMemory>
    requires fits { count + 18 ≤ 65535 }
    requires within { at < 17 }
    ensures { OnOk result (tail.new.items ≡ tail.old.items ++ probe_entries count name.now at) }
{
    push_text(alloc, tail, name)?;
    tail.push(Const::NameType(count + at, count + 2))?;
    tail.push(Const::Method(count + 1, count + (at + 1)))?;
    Ok(())
}

/// The tail behind so many entries.
fn tail_of(alloc: Global, count: u16) -> Result<Vec<Const>, NoMemory>
    requires { count + 18 ≤ 65535 }
    ensures { IfOk result (λ tail. tail.items ≡ tail_entries count) }
{
    let mut tail = Vec::with_capacity(alloc, TAIL_ENTRIES)?;
    push_text(alloc, &mut tail, "jfluid/Probe")?;
    tail.push(Const::Class(count))?;
    push_text(alloc, &mut tail, "(I)V")?;
    push_probe(alloc, &mut tail, count, "root", 3)?;
    push_probe(alloc, &mut tail, count, "enter", 6)?;
    push_probe(alloc, &mut tail, count, "leave", 9)?;
    push_probe(alloc, &mut tail, count, "unwind", 12)?;
    push_text(alloc, &mut tail, "java/lang/Throwable")?;
    tail.push(Const::Class(count + 15))?;
    push_text(alloc, &mut tail, "StackMapTable")?;
    Ok(tail)
}

/// The entries with their tail.
fn entries_with_tail(alloc: Global, entries: &[Const], count: u16) -> Result<Vec<Const>, NoMemory>
    requires fits { count + 18 ≤ 65535 }
    requires counted { count ≡ length entries.now }
    ensures { IfOk result (λ all. all.items ≡ with_tail entries.now) }
{
    let mut all = copies_of(alloc, entries)?;
    all.append(&mut tail_of(alloc, count)?)?;
    Ok(all)
}

/// The pool with the tail behind its entries, for a class whose methods get probes. The old entries keep their
/// indices.
pub fn append_tail(alloc: Global, pool: &Pool) -> Result<Tail, TailError>
    ensures entries { IfOk result (λ t. t.pool ≡ with_tail pool.now) }
    ensures root { IfOk result (λ t. t.root ≡ root_index (length pool.now)) }
    ensures enter { IfOk result (λ t. t.enter ≡ enter_index (length pool.now)) }
    ensures leave { IfOk result (λ t. t.leave ≡ leave_index (length pool.now)) }
    ensures unwind { IfOk result (λ t. t.unwind ≡ unwind_index (length pool.now)) }
    ensures throwable { IfOk result (λ t. t.throwable ≡ throwable_index (length pool.now)) }
    ensures frames { IfOk result (λ t. t.frames ≡ frames_index (length pool.now)) }
    ensures fits { IfOk result (λ t. length pool.now + 18 ≤ 65535) }
    ensures full { result ≡ Err Full ↔ 65535 < length pool.now + 18 }
{
    let entries = pool.entries();
    if entries.len() > MOST_ENTRIES - TAIL_ENTRIES {
        return Err(TailError::Full);
    }
    let count = entries.len() as u16;
    let pool = Pool::new(entries_with_tail(alloc, entries, count)?);
    Ok(Tail {
        pool,
        root: count + 5,
        enter: count + 8,
        leave: count + 11,
        unwind: count + 14,
        throwable: count + 16,
        frames: count + 17,
    })
}
