//! Field and method descriptors (JVM Specification 4.3).

ghost use Rattle.std.specs.Prelude.{◌≡◌, ◌≢◌, ℕ, Ok, Err, IfOk};
ghost use Rattle.const_pool.specs.declared.descriptor.Kind.{Kind as TheKind};
ghost use Rattle.const_pool.specs.declared.descriptor.Shape.{Shape as TheShape};
ghost use Rattle.const_pool.specs.declared.descriptor.DescriptorError.TheVariants.{BadDescriptor, NoMemory};
ghost use Rattle.const_pool.specs.Descriptors.{IsField, IsMethod, IsFieldText, IsMethodText, IsReadAs};
ghost use Rattle.const_pool.specs.Fronts.{IsStuckAt};
ghost use Rattle.const_pool.specs.Stages.{Answers, fault_told, field_answer, method_answer};

use crate::stages::{FieldStage, Front, Stage, field_step, method_step};
use jf_bytes::{Seq, Text16};
use std::alloc::{AllocError, AllocFailed, Global};
use thiserror::Error;

/// What a field, a parameter or a result holds. An array and a class are both `Ref`.
#[derive(Clone, Copy, Debug, PartialEq, Eq)]
pub enum Kind {
    Int,
    Long,
    Ref,
    Byte,
    Bool,
    Char,
    Short,
    Float,
    Double,
}

/// A method descriptor (4.3.3): the parameters in order, and the result where it is not void.
#[derive(Debug, Drop)]
pub struct Shape {
    pub params: Seq<Kind>,
    pub result: Option<Kind>,
}

/// Why a text gives no kind or shape.
#[derive(Clone, Copy, Debug, PartialEq, Eq, Error)]
pub enum DescriptorError {
    /// The place of the first unit with which no descriptor goes on. Where the text ends early it is the text's length.
    #[error("no descriptor at unit {0}")]
    BadDescriptor(usize),
    #[error("no memory")]
    NoMemory,
}

impl From<AllocError> for DescriptorError {
    ghost use Rattle.const_pool.specs.declared.descriptor.DescriptorError.TheVariants.{NoMemory};

    ghost from_gives = { λ _ e. e ≡ NoMemory };

    fn from(_error: AllocError) -> DescriptorError {
        DescriptorError::NoMemory
    }
}

impl<T: Drop> From<AllocFailed<T>> for DescriptorError {
    ghost use Rattle.const_pool.specs.declared.descriptor.DescriptorError.TheVariants.{NoMemory};

    ghost from_gives = { λ _ e. e ≡ NoMemory };

    fn from(_error: AllocFailed<T>) -> DescriptorError {
        DescriptorError::NoMemory
    }
}

/// What a field descriptor stands for, unit by unit.
fn read_field(units: &[u16]) -> Result<Kind, DescriptorError>
    ensures { result ≡ fault_told (field_answer units.now) }
{
    let mut stage = FieldStage::Within(Front::Dimensions(0));
    for i in 0..units.len() {
        let Some(next) = field_step(stage, units[i]) else {
            return Err(DescriptorError::BadDescriptor(i));
        };
        stage = next;
    }
    match stage {
        FieldStage::Whole(kind) => Ok(kind),
        FieldStage::Within(_) => Err(DescriptorError::BadDescriptor(units.len())),
    }
}

/// What a field of this descriptor holds (4.3.2).
///
/// `BadDescriptor` means that the text is no field descriptor. It takes no memory, so `NoMemory` does not come.
pub fn parse_field(text: &Text16) -> Result<Kind, DescriptorError>
    ensures found { IfOk result (λ kind. IsField text.now kind) }
    ensures only { (kind : TheKind) → IsField text.now kind → result ≡ Ok kind }
    ensures bad { (at : ℕ) → result ≡ Err (BadDescriptor at) → IsStuckAt IsFieldText text.now at }
    ensures no_memory { result ≢ Err NoMemory }
{
    read_field(text.units())
}

/// What a method descriptor stands for, unit by unit.
fn read_method(alloc: Global, units: &[u16]) -> Result<Shape, DescriptorError>
    ensures { Answers result (method_answer units.now) }
{
    let mut stage = Stage::Open;
    let mut params = Seq::new(alloc);
    for i in 0..units.len() {
        let Some(step) = method_step(stage, units[i]) else {
            return Err(DescriptorError::BadDescriptor(i));
        };
        stage = step.stage;
        if let Some(kind) = step.param {
            params.push(kind)?;
        }
    }
    match stage {
        Stage::Whole(result) => Ok(Shape { params, result }),
        _ => Err(DescriptorError::BadDescriptor(units.len())),
    }
}

/// What a method of this descriptor takes and gives (4.3.3).
///
/// `BadDescriptor` means that the text is no method descriptor. A parameter for which the 255 slots do not suffice is
/// bad from its first unit on.
pub fn parse_method(alloc: Global, text: &Text16) -> Result<Shape, DescriptorError>
    ensures found { IfOk result (λ shape. IsMethod text.now shape) }
    ensures only { (shape : TheShape) → IsMethod text.now shape → IsReadAs result shape }
    ensures bad { (at : ℕ) → result ≡ Err (BadDescriptor at) → IsStuckAt IsMethodText text.now at }
{
    read_method(alloc, text.units())
}
