//! The constant pool (JVM Specification 4.4).

ghost use Rattle.std.specs.Prelude.{◌≡◌, ◌↔◌, ◌<◌, ◌^◌, length, IsTrue, IsNone};
ghost use Rattle.std.specs.Option.{option_copied};
ghost use Rattle.const_pool.specs.Pool.{entry_at, has_gaps, IsUnusable};
ghost use Rattle.const_pool.specs.Members.{reference_view};
ghost use Rattle.const_pool.specs.References.{Walks, name_type_of, entry_walk, text_walk, class_walk, name_type_walk, member_walk, reference_walk, same_text_at};

use jf_bytes::{Seq, Text16};
use std::marker::Model;
use thiserror::Error;

/// An entry of the constant pool (JVM Specification 4.4). The numbers of `Class` to `NameType` are indices.
#[derive(Debug, Drop)]
pub enum Const {
    /// What stands at index 0 and at the second index of a `Long` or `Double`: no entry.
    Gap,
    Utf8(Text16),
    Integer(i32),
    /// The bits of a float.
    Float(u32),
    Long(i64),
    /// The bits of a double.
    Double(u64),
    Class(u16),
    /// CONSTANT_String.
    Text(u16),
    Field(u16, u16),
    Method(u16, u16),
    InterfaceMethod(u16, u16),
    NameType(u16, u16),
}

/// Why a look-up gives nothing: an index that names no entry, or an entry of another tag.
#[derive(Clone, Copy, Debug, PartialEq, Eq, Error)]
pub enum PoolError {
    /// 0, the second index of a `Long` or `Double`, or past the end.
    #[error("no entry at this index")]
    BadIndex,
    #[error("an entry of another tag")]
    WrongKind,
}

/// A member as a class file names it (4.4.2): its class with slashes, its name, its descriptor.
#[derive(Clone, Copy, Debug)]
pub struct MemberRef<'a> {
    pub class: &'a Text16,
    pub name: &'a Text16,
    pub descriptor: &'a Text16,
}

/// A constant pool, from index 0 on: 1 to 65,535 entries, of which index 0 and the second index of each `Long` and
/// `Double` are gaps, and no others. A clause sees the list of its entries.
#[derive(Debug, Drop)]
pub struct Pool {
    entries: Seq<Const>,
}

impl Model for Pool {
    ghost use Rattle.std.specs.Prelude.{◌<◌, ◌^◌, List, length, IsTrue};
    ghost use Rattle.const_pool.specs.declared.pool.Const.{Const};
    ghost use Rattle.const_pool.specs.Pool.{has_gaps};

    ghost Value = { List Const };

    ghost view = { λ p. p.entries };

    ghost invariant = { λ p. IsTrue (has_gaps p.entries) × (length p.entries < 2 ^ 16) };
}

impl Pool {
    /// The pool of these entries. It takes no memory.
    pub fn new(entries: Vec<Const>) -> Pool
        requires gaps { IsTrue (has_gaps entries.items) }
        requires count { length entries.items < 2 ^ 16 }
        ensures { result ≡ entries.items }
    {
        Pool {
            entries: Seq::from_vec(entries),
        }
    }

    /// The constant_pool_count (4.1): how many entries there are, the gaps among them.
    pub fn count(&self) -> u16
        ensures count { result ≡ length self.now }
        ensures gaps { IsTrue (has_gaps self.now) }
    {
        self.entries.len() as u16
    }

    /// The entries from index 0 on, the gaps among them.
    pub(crate) fn entries(&self) -> &[Const]
        ensures all { result.now ≡ self.now }
        ensures gaps { IsTrue (has_gaps self.now) }
        ensures count { length self.now < 2 ^ 16 }
    {
        self.entries.as_slice()
    }

    fn find(&self, i: u16) -> Option<&Const>
        ensures entry { option_copied result ≡ entry_at self.now i }
        ensures gaps { IsTrue (has_gaps self.now) }
    {
        match self.entries.get(i as usize) {
            None => None,
            Some(Const::Gap) => None,
            Some(entry) => Some(entry),
        }
    }

    /// The entry at an index: none at 0, at a second index, and past the end.
    pub fn get(&self, i: u16) -> Option<&Const>
        ensures entry { option_copied result ≡ entry_at self.now i }
        ensures none { IsNone result ↔ IsUnusable self.now i }
    {
        self.find(i)
    }

    fn entry(&self, i: u16) -> Result<&Const, PoolError>
        ensures { Walks (λ c. c.now) result (entry_walk self.now i) }
    {
        self.get(i).ok_or(PoolError::BadIndex)
    }

    /// The text of a Utf8 entry (4.4.7).
    pub fn text(&self, i: u16) -> Result<&Text16, PoolError>
        ensures { Walks (λ t. t.now) result (text_walk self.now i) }
    {
        match self.entry(i)? {
            Const::Utf8(text) => Ok(text),
            _ => Err(PoolError::WrongKind),
        }
    }

    /// Whether an entry is this text.
    pub fn is_text(&self, i: u16, text: &Text16) -> bool
        ensures { result ≡ same_text_at self.now i text.now }
    {
        match self.text(i) {
            Ok(found) => found.same(text),
            Err(_) => false,
        }
    }

    /// Whether an entry is a text of these bytes, one unit each.
    pub fn is_bytes(&self, i: u16, bytes: &[u8]) -> bool
        ensures { result ≡ same_text_at self.now i bytes.now }
    {
        match self.text(i) {
            Ok(found) => found.is_bytes(bytes),
            Err(_) => false,
        }
    }

    /// The name of a class entry (4.4.1), with slashes.
    pub fn class_name(&self, i: u16) -> Result<&Text16, PoolError>
        ensures { Walks (λ t. t.now) result (class_walk self.now i) }
    {
        match self.entry(i)? {
            Const::Class(name) => self.text(*name),
            _ => Err(PoolError::WrongKind),
        }
    }

    fn name_type(&self, i: u16) -> Result<(&Text16, &Text16), PoolError>
        ensures { Walks (λ p. name_type_of p.0.now p.1.now) result (name_type_walk self.now i) }
    {
        match self.entry(i)? {
            Const::NameType(name, descriptor) => Ok((self.text(*name)?, self.text(*descriptor)?)),
            _ => Err(PoolError::WrongKind),
        }
    }

    fn reference(&self, class: u16, name_type: u16) -> Result<MemberRef<'_>, PoolError>
        ensures { Walks reference_view result (reference_walk self.now class name_type) }
    {
        let class = self.class_name(class)?;
        let (name, descriptor) = self.name_type(name_type)?;
        Ok(MemberRef {
            class,
            name,
            descriptor,
        })
    }

    /// What a Fieldref, a Methodref or an InterfaceMethodref names (4.4.2).
    pub fn member(&self, i: u16) -> Result<MemberRef<'_>, PoolError>
        ensures { Walks reference_view result (member_walk self.now i) }
    {
        match self.entry(i)? {
            Const::Field(class, member) => self.reference(*class, *member),
            Const::Method(class, member) => self.reference(*class, *member),
            Const::InterfaceMethod(class, member) => self.reference(*class, *member),
            _ => Err(PoolError::WrongKind),
        }
    }
}
