//! Lines as they are run: what an instruction does within its frame, with its operands and places taken out of it.

ghost use Rattle.std.specs.Prelude.{◌≡◌};
ghost use Rattle.jvm_basic.specs.Hot.{hot_branch, hot_by, hot_load, hot_store};

use code_model::Arg;
use const_pool::Kind;
use heap_objects::Datum;
use jvm_model::{Comparison, Family, IntOperator, Test};

/// What an instruction does, as it is run. The place behind it comes first and its operands are few, so that each takes
/// 16 bytes or fewer. An instruction of no such form is cold: it is done by its family.
#[derive(Clone, Copy)]
pub enum Hot {
    Cold,
    Push(u16, i32),
    LoadInt(u16, u16),
    LoadLong(u16, u16),
    LoadReference(u16, u16),
    StoreInt(u16, u16),
    StoreLong(u16, u16),
    StoreReference(u16, u16),
    Calculate(u16, IntOperator),
    Increment(u16, u16, i16),
    IfInts(u16, Comparison, u16),
    IfZero(u16, Comparison, u16),
    IfReferences(u16, bool, u16),
    IfNull(u16, bool, u16),
    Goto(u16),
    /// An element of an array, by instructions of a kind. More than the frame is needed for it.
    LoadElement(Kind),
    StoreElement(Kind),
}

/// A load of a kind from a slot.
fn hot_load(kind: Kind, slot: u16, next: u16) -> Hot
    ensures { result ≡ hot_load kind slot next }
{
    match kind {
        Kind::Int => Hot::LoadInt(next, slot),
        Kind::Long => Hot::LoadLong(next, slot),
        Kind::Ref => Hot::LoadReference(next, slot),
        _ => Hot::Cold,
    }
}

/// A store of a kind to a slot.
fn hot_store(kind: Kind, slot: u16, next: u16) -> Hot
    ensures { result ≡ hot_store kind slot next }
{
    match kind {
        Kind::Int => Hot::StoreInt(next, slot),
        Kind::Long => Hot::StoreLong(next, slot),
        Kind::Ref => Hot::StoreReference(next, slot),
        _ => Hot::Cold,
    }
}

/// A branch.
fn hot_branch(test: Test, target: u16, next: u16) -> Hot
    ensures { result ≡ hot_branch test target next }
{
    match test {
        Test::OfInts(comparison) => Hot::IfInts(next, comparison, target),
        Test::WithZero(comparison) => Hot::IfZero(next, comparison, target),
        Test::OfReferences(same) => Hot::IfReferences(next, same, target),
        Test::IsNull(null) => Hot::IfNull(next, null, target),
    }
}

/// An instruction of a family, as it is run.
#[tactic(auto, unfolding(crate::specs::Hot::hot_by))]
pub fn hot_by(family: Family, arg: &Arg, next: u16) -> Hot
    ensures { result ≡ hot_by family arg.now next }
{
    match (family, arg) {
        (Family::Constant(Datum::Int(n)), _) => Hot::Push(next, n),
        (Family::OperandConstant, Arg::Value(n)) => Hot::Push(next, *n),
        (Family::Load(kind), Arg::Local(slot)) => hot_load(kind, *slot, next),
        (Family::LoadFrom(kind, slot), _) => hot_load(kind, slot, next),
        (Family::Store(kind), Arg::Local(slot)) => hot_store(kind, *slot, next),
        (Family::StoreTo(kind, slot), _) => hot_store(kind, slot, next),
        (Family::BinaryOfInts(op), _) => Hot::Calculate(next, op),
        (Family::Iinc, Arg::Inc(slot, added)) => Hot::Increment(next, *slot, *added),
        (Family::Branch(test), Arg::Target(target)) => hot_branch(test, *target, next),
        (Family::Goto, Arg::Target(target)) => Hot::Goto(*target),
        _ => Hot::Cold,
    }
}
