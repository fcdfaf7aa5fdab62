//! How long a class file is, so that its memory is taken in one piece.

ghost use Rattle.std.specs.Prelude.{◌≡◌, ◌<◌, ◌^◌, length, All};
ghost use Rattle.std.specs.List.{flat_map};
ghost use Rattle.std.specs.Option.{ForSome};
ghost use Rattle.jf_bytes.specs.ModifiedUtf8.{unit_bytes, modified_utf8};
ghost use Rattle.const_pool.specs.Pool.{entry_at, entry_bytes, pool_bytes};
ghost use Rattle.const_pool.specs.ClassFile.{items_counted, raw_bytes, code_bytes, attribute_bytes, member_bytes, class_bytes};
ghost use Rattle.class_writer.specs.Fits.{FitsAttribute, FitsMember, FitsEntry, FitsClass};
ghost use Rattle.class_writer.specs.Parts.{bytes_at};
ghost use Rattle.class_writer.specs.Room.{room};

use const_pool::{Attribute, ClassFile, CodeAttribute, Const, Member, Pool, Raw};
use jf_bytes::Text16;

/// How many bytes attributes that are kept as bytes have, the count aside.
fn raws_len(raws: &[Raw]) -> usize
    requires { length (flat_map raw_bytes raws.now) < 2 ^ 32 }
    ensures { result ≡ length (flat_map raw_bytes raws.now) }
{
    let mut len = 0;
    for raw in raws {
        len += 6 + raw.bytes.len();
    }
    len
}

/// How many bytes the contents of a Code attribute have.
#[tactic(auto, using(crate::proofs::Lengths::code_length))]
pub(crate) fn code_len(code: &CodeAttribute) -> usize
    requires { length (code_bytes code.now) < 2 ^ 32 }
    ensures { result ≡ length (code_bytes code.now) }
{
    let handlers = 8 * code.handlers.len();
    12 + code.code.len() + handlers + raws_len(code.attributes.as_slice())
}

/// How many bytes an attribute has.
fn attribute_len(attribute: &Attribute) -> usize
    requires { FitsAttribute attribute.now }
    ensures { result ≡ length (attribute_bytes attribute.now) }
{
    match attribute {
        Attribute::ConstantValue(_, _) => 8,
        Attribute::Code(_, code) => 6 + code_len(code),
        Attribute::Other(raw) => 6 + raw.bytes.len(),
    }
}

/// How many bytes attributes behind their count have.
fn attributes_len(attributes: &[Attribute]) -> usize
    requires { All FitsAttribute attributes.now }
    ensures { result ≡ room (items_counted attribute_bytes attributes.now) }
{
    let mut len: usize = 2;
    for attribute in attributes {
        len = len.saturating_add(attribute_len(attribute));
    }
    len
}

/// How many bytes fields or methods behind their count have.
fn members_len(members: &[Member]) -> usize
    requires { All FitsMember members.now }
    ensures { result ≡ room (items_counted member_bytes members.now) }
{
    let mut len: usize = 2;
    for member in members {
        let attributes = attributes_len(member.attributes.as_slice());
        len = len.saturating_add(6).saturating_add(attributes);
    }
    len
}

/// How many bytes a unit of a text has.
fn unit_len(unit: u16) -> usize
    ensures { result ≡ length (unit_bytes unit) }
{
    match unit {
        0 => 2,
        1..=127 => 1,
        128..=2047 => 2,
        _ => 3,
    }
}

/// How many bytes a text has.
fn text_len(text: &Text16) -> usize
    requires { length (modified_utf8 text.now) < 2 ^ 16 }
    ensures { result ≡ length (modified_utf8 text.now) }
{
    let mut len = 0;
    for unit in text.units() {
        len += unit_len(*unit);
    }
    len
}

/// How many bytes an entry has.
fn entry_len(entry: &Const) -> usize
    requires { FitsEntry entry.now }
    ensures { result ≡ length (entry_bytes entry.now) }
{
    match entry {
        Const::Gap => 0,
        Const::Utf8(text) => 3 + text_len(text),
        Const::Class(_) | Const::Text(_) => 3,
        Const::Long(_) | Const::Double(_) => 9,
        _ => 5,
    }
}

/// How many bytes the entry at an index has, where it names one.
fn entry_len_at(pool: &Pool, index: u16) -> usize
    requires { ForSome (entry_at pool.now index) FitsEntry }
    ensures { result ≡ length (bytes_at pool.now index) }
{
    match pool.get(index) {
        Some(entry) => entry_len(entry),
        None => 0,
    }
}

/// How many bytes the count and the entries have.
fn pool_len(pool: &Pool) -> usize
    requires { All FitsEntry pool.now }
    ensures { result ≡ room (pool_bytes pool.now) }
{
    let mut len: usize = 2;
    for index in 0..pool.count() {
        len = len.saturating_add(entry_len_at(pool, index));
    }
    len
}

/// How many bytes a class file has.
#[tactic(auto, using(crate::proofs::Lengths::class_length))]
pub(crate) fn class_len(class: &ClassFile) -> usize
    requires { FitsClass class.now }
    ensures { result ≡ room (class_bytes class.now) }
{
    let front = pool_len(&class.pool).saturating_add(16);
    let interfaces = class.interfaces.len().saturating_mul(2);
    let fields = members_len(class.fields.as_slice());
    let methods = members_len(class.methods.as_slice());
    let attributes = attributes_len(class.attributes.as_slice());
    let back = fields.saturating_add(methods).saturating_add(attributes);
    front.saturating_add(interfaces).saturating_add(back)
}
