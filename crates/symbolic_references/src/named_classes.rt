//! Classes of a program that the machine itself names, found by hashing (JVM Specification 5.3).

ghost use Rattle.std.specs.Prelude.{◌≡◌, ◌<◌, ◌≤◌, ◌^◌, length, unwrap_or, IfOk};
ghost use Rattle.jvm_model.specs.Basis.Programs.{class_named};
ghost use Rattle.jvm_model.specs.Basis.SharedState.{kind_for};

use class_index::Index;
use jf_bytes::NoMemory;
use native_effects::units_of;
use std::alloc::Global;

/// The position of the class of this name in ASCII, where the program has it.
pub fn class_for(alloc: Global, index: &Index, name: &[u8]) -> Result<Option<u32>, NoMemory>
    ensures { IfOk result (λ class. class ≡ class_named index.now name.now) }
{
    let name = units_of(alloc, name)?;
    Ok(index.class_named(name.as_slice()))
}

/// The position of the class of this name; 0 where there is none.
#[tactic(auto, using(crate::proofs::Positions::position_within))]
fn position_named(index: &Index, name: &[u16]) -> u32
    ensures class { result ≡ unwrap_or (class_named index.now name.now) 0 }
    ensures most { result ≤ length index.now.classes }
{
    match index.class_named(name) {
        Some(class) => class,
        None => 0,
    }
}

/// The kind of the instances of the class of this name.
pub fn instance_kind(index: &Index, name: &[u16]) -> u32
    ensures kind { result ≡ kind_for index.now name.now }
    ensures most { result < 2 ^ 25 }
{
    index.base_of_class(position_named(index, name))
}

/// The same of a name in ASCII.
pub fn kind_for(alloc: Global, index: &Index, name: &[u8]) -> Result<u32, NoMemory>
    ensures kind { IfOk result (λ kind. kind ≡ kind_for index.now name.now) }
    ensures most { IfOk result (λ kind. kind < 2 ^ 25) }
{
    let name = units_of(alloc, name)?;
    Ok(instance_kind(index, name.as_slice()))
}
