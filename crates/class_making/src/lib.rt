//! What those who make class files have in common: indices, ASCII texts, the bytes of an instruction and a method's
//! Code attribute (JVM Specification 4.4, 4.7.3).
#![tactic(auto)]

ghost use Rattle.std.specs.Prelude.{◌≡◌, ◌++◌, ◌∷◌, OnOk, IfOk};
ghost use Rattle.std.specs.Int.{w16, to_be_bytes};
ghost use Rattle.class_making.specs.Making.{code_alone, member_entry, short_of};

use const_pool::{Attribute, CodeAttribute, Const};
use jf_bytes::{NoMemory, Seq, Text16};
use op_table::GETSTATIC;
use std::alloc::{AllocError, Global};

/// The major version of the class files that are made.
pub const MAJOR: u16 = 49;

/// A length as a number of two bytes. Nothing that is made is longer.
pub fn short_of(length: usize) -> u16
    ensures { result ≡ short_of length }
{
    u16::try_from(length).unwrap_or(u16::MAX)
}

/// The text of an ASCII string, whose bytes are the units.
pub fn text_of(alloc: Global, text: &str) -> Result<Text16, NoMemory>
    ensures { IfOk result (λ units. units ≡ text.now) }
{
    let mut units = Vec::with_capacity(alloc, text.len())?;
    for byte in text.as_bytes() {
        units.push(u16::from(*byte))?;
    }
    Ok(Text16::new(units))
}

/// The entry of a member that an instruction with this opcode names (4.4.2): getstatic alone names a field.
pub fn member_entry(op: u8, class: u16, member: u16) -> Const
    ensures { result ≡ member_entry op class member }
{
    if op == GETSTATIC {
        Const::Field(class, member)
    } else {
        Const::Method(class, member)
    }
}

/// Adds an opcode and two bytes of an operand.
pub fn add_short(code: &mut Vec<u8>, op: u8, operand: u16) -> Result<(), AllocError>
    ensures { OnOk result (code.new.items ≡ code.old.items ++ op ∷ to_be_bytes w16 operand) }
{
    let [high, low] = operand.to_be_bytes();
    code.extend_from_slice(&[op, high, low])
}

/// The attributes of a method that has this code and nothing else; the name is the index of the text Code.
pub fn code_alone(
    alloc: Global,
    name: u16,
    max_stack: u16,
    max_locals: u16,
    code: Vec<u8>,
) -> Result<Seq<Attribute>, NoMemory>
    ensures { IfOk result (λ attributes. attributes
        ≡ code_alone name max_stack max_locals code.items) }
{
    let mut attributes = Seq::new(alloc);
    attributes.push(Attribute::Code(
        name,
        CodeAttribute {
            max_stack,
            max_locals,
            code: Seq::from_vec(code),
            handlers: Seq::new(alloc),
            attributes: Seq::new(alloc),
        },
    ))?;
    Ok(attributes)
}
