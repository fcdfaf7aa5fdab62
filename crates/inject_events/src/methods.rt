//! The methods of a class in its image.

ghost use Rattle.std.specs.Prelude.{◌≡◌, ◌<◌, length, true, false, None, IfOk};
ghost use Rattle.jvm_model.specs.Basis.Methods.{code_of};
ghost use Rattle.jvm_model.specs.Rewriting.Images.{is_off, all_off, with_code, next_number};
ghost use Rattle.inject_events.specs.Answers.{MarkedHaveCode, can_be_marked, can_all_be_marked};
ghost use Rattle.inject_events.specs.Probing.{with_code_at, coded_at, is_code, refusal};

use crate::copying::{copy_attribute, copy_code, copy_member, copy_raw};
use crate::error::{InjectError, NoVersion};
use code_model::Homes;
use const_pool::{Attribute, CodeAttribute, Member};
use jf_bytes::{NoMemory, Seq};
use jvm_model::{Mark, code_of};
use std::alloc::Global;

/// Whether a method is the original.
pub fn is_off(mark: Mark) -> bool
    ensures { result ≡ is_off mark }
{
    match mark {
        Mark::Off => true,
        Mark::Plain | Mark::Root => false,
    }
}

/// Whether each method is the original.
pub fn all_off(marks: &[Mark]) -> bool
    ensures { result ≡ all_off marks.now }
{
    marks.iter().all(|mark| is_off(*mark))
}

/// Whether a method can have this mark.
fn can_be_marked(mark: Mark, member: &Member) -> bool
    ensures { result ≡ can_be_marked mark member.now }
{
    is_off(mark) || code_of(member).is_some()
}

/// Whether each method can have its mark.
fn can_all_be_marked(marks: &[Mark], methods: &[Member]) -> bool
    requires marks { length marks.now ≡ length methods.now }
    ensures { result ≡ can_all_be_marked marks.now methods.now }
{
    for (position, mark) in marks.iter().enumerate() {
        if !can_be_marked(*mark, &methods[position]) {
            return false;
        }
    }
    true
}

/// Whether each marked method has Code, as rewriting asks of the marks of a class's methods.
pub fn marked_have_code(marks: &[Mark], methods: &[Member]) -> bool
    requires marks { length marks.now ≡ length methods.now }
    ensures have { result ≡ true → MarkedHaveCode marks.now methods.now }
    ensures lack { result ≡ false → MarkedHaveCode marks.now methods.now → ⊥ }
{
    can_all_be_marked(marks, methods)
}

/// The number of the next method that has code, where this one would have this number.
pub(crate) fn next_number(number: u32, member: &Member) -> u32
    requires { number < 4294967295 }
    ensures { result ≡ next_number number member.now }
{
    match code_of(member) {
        Some(_code) => number + 1,
        None => number,
    }
}

/// An attribute of a method that gets this code.
fn with_code_at(
    alloc: Global,
    code: &CodeAttribute,
    attribute: &Attribute,
) -> Result<Attribute, NoMemory>
    ensures { IfOk result (λ new. new ≡ with_code_at code.now attribute.now) }
{
    match attribute {
        Attribute::Code(name, _old) => Ok(Attribute::Code(*name, copy_code(alloc, code)?)),
        Attribute::ConstantValue(name, index) => Ok(Attribute::ConstantValue(*name, *index)),
        Attribute::Other(raw) => Ok(Attribute::Other(copy_raw(alloc, raw)?)),
    }
}

/// The same where an attribute in front of it may have got the code.
fn coded_at(
    alloc: Global,
    placed: bool,
    code: &CodeAttribute,
    attribute: &Attribute,
) -> Result<Attribute, NoMemory>
    ensures { IfOk result (λ new. new ≡ coded_at placed code.now attribute.now) }
{
    if placed {
        copy_attribute(alloc, attribute)
    } else {
        with_code_at(alloc, code, attribute)
    }
}

fn is_code(attribute: &Attribute) -> bool
    ensures { result ≡ is_code attribute.now }
{
    match attribute {
        Attribute::Code(_name, _code) => true,
        Attribute::ConstantValue(_name, _index) => false,
        Attribute::Other(_raw) => false,
    }
}

/// A method with this code in place of its own.
#[tactic(auto, using(crate::proofs::Coding::coded_next))]
pub(crate) fn with_code(
    alloc: Global,
    code: &CodeAttribute,
    member: &Member,
) -> Result<Member, NoMemory>
    ensures { IfOk result (λ new. new ≡ with_code code.now member.now) }
{
    let mut attributes = Seq::with_capacity(alloc, member.attributes.len())?;
    let mut placed = false;
    for attribute in member.attributes.as_slice() {
        attributes.push(coded_at(alloc, placed, code, attribute)?)?;
        placed = placed || is_code(attribute);
    }
    Ok(Member {
        access: member.access,
        name: member.name,
        descriptor: member.descriptor,
        attributes,
    })
}

/// A method in the image, and where its original offsets come to stand, unless it is the original.
#[derive(Debug, Drop)]
pub struct MethodImage {
    pub member: Member,
    pub homes: Option<Homes>,
}

/// The original method.
pub(crate) fn original_image(alloc: Global, member: &Member) -> Result<MethodImage, NoMemory>
    ensures { IfOk result (λ image. image ≡ record { member = member.now; homes = None }) }
{
    Ok(MethodImage {
        member: copy_member(alloc, member)?,
        homes: None,
    })
}

/// What is told where the method at this position gets no version.
pub(crate) fn refusal(position: u16, reason: NoVersion) -> InjectError
    ensures { result ≡ refusal position reason }
{
    match reason {
        NoVersion::Limit(cause) => InjectError::NotProfilable(position, cause),
        NoVersion::NoMemory => InjectError::NoMemory,
    }
}

/// The methods of an image, and the homes of each.
#[derive(Debug, Drop)]
pub struct Methods {
    pub members: Seq<Member>,
    pub homes: Seq<Option<Homes>>,
}
