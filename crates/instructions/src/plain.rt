//! Steps of instructions that the current frame does by itself, and of those that load or store an
//! element and raise nothing: nothing but the current frame and the heap changes, and nothing
//! follows.

ghost use Rattle.std.specs.Prelude.{Some, ◌≡◌, ◌≢◌, ◌≤◌, ◌<◌, true, false};
ghost use Rattle.std.specs.Option.{IfSome, option_and_then};
ghost use Rattle.const_pool.specs.declared.descriptor.Kind.{Kind};
ghost use Rattle.jvm_basic.specs.declared.effect.Effect.TheVariants.{Next};
ghost use Rattle.jvm_basic.specs.declared.hot.Hot.TheVariants.{Cold, LoadElement, StoreElement};
ghost use Rattle.jvm_basic.specs.Hot.{does_hot, is_alone};
ghost use Rattle.jvm_basic.specs.Outcomes.{effect_of, after};
ghost use Rattle.jvm_basic.specs.Rules.{rule_of};
ghost use Rattle.jvm_model.specs.Basis.Families.{family_of};
ghost use Rattle.instructions.specs.Elements.{IsLoaded, IsPassed, IsStored};
ghost use Rattle.prepared_code.specs.Ready.{CanRun};
ghost use Rattle.prepared_code.specs.Runs.{LeadsAlone, RunsVersion, IsLineIn, top_version};
ghost use Rattle.prepared_code.specs.Tables.{version_at};
ghost use Rattle.prepared_code.specs.Versions.{ArePrepared, IsPreparedLine, Setup};

use crate::elements::{pass_load, pass_store};
use const_pool::Kind;
use frame_stack::Frames;
use heap_objects::Value;
use jvm_basic::{
    Effect, Hot, basic_by, branch_to, calculate, go_to_place, increment_slot, load_from, put,
    store_int, store_to,
};
use jvm_model::{Operation, Test};
use prepared_code::{Originals, Parts, Version, line_in, where_now};
use prepared_lines::{Line, LocalAction};

/// The version that the current frame runs. None where there is no frame, or its lines are still to
/// be made.
#[inline(always)]
pub fn version_now<'a>(originals: &'a Originals, frames: &Frames) -> Option<&'a Version>
    ensures runs { let v = originals.now.versions in IfSome result
        (λ x. option_and_then (version_at v) (top_version frames.now.frames) ≡ Some x.now) }
    ensures prepared { IfSome result (λ x. ArePrepared x.now) }
{
    let Some(here) = where_now(frames) else {
        return None;
    };
    let Some(version) = originals.version(here.version) else {
        return None;
    };
    Some(version)
}

/// The line of a version at which the current frame stands.
#[inline(always)]
fn line_now<'a>(version: &'a Version, frames: &Frames) -> Option<&'a Line>
    requires { ArePrepared version.now }
    ensures line { IfSome result (λ l. IsLineIn version.now frames.now.frames l.now) }
    ensures prepared { IfSome result (λ l. IsPreparedLine l.now) }
{
    let place = frames.place()?;
    line_in(version, place)
}

// ---- lines that are done by their families

/// Does a line within the current frame. False, with nothing changed, where the frame does not
/// go on.
fn pass_alone(line: &Line, frames: &mut Frames) -> bool
    requires { line.now.family ≡ family_of line.now.instr.op }
    ensures gone { let line = line.now in
        result ≡ true
        → effect_of (rule_of line.instr line.constant line.next) frames.old ≡ Next }
    ensures frames { let line = line.now in
        frames.new ≡ after (rule_of line.instr line.constant line.next) frames.old }
    ensures kept { result ≡ false → frames.new ≡ frames.old }
{
    let effect = basic_by(line.family, &line.instr, line.constant, line.next, frames);
    matches!(effect, Effect::Next)
}

/// Does a line that the current frame does by itself, or that loads or stores an element and raises
/// nothing, by its operation. False, with nothing changed, where the frame does not go on. It is a
/// call of its own, so that the loop stays small.
#[inline(never)]
fn pass_by_operation(line: &Line, parts: &mut Parts) -> bool
    requires { line.now.family ≡ family_of line.now.instr.op }
    ensures gone { result ≡ true → IsPassed line.now parts.old parts.new }
    ensures kept { result ≡ false → parts.new ≡ parts.old }
{
    match line.operation {
        Operation::Within(action) => match action {
            LocalAction::Basic => pass_alone(line, &mut parts.frames),
            LocalAction::Return(_) => false,
        },
        Operation::LoadElement(kind) => pass_load(parts, line, kind),
        Operation::StoreElement(kind) => pass_store(parts, line, kind),
        _ => false,
    }
}

/// The same; where it is none, as mostly, it is a test.
#[inline(always)]
fn pass_cold(line: &Line, parts: &mut Parts) -> bool
    requires { line.now.family ≡ family_of line.now.instr.op }
    ensures gone { result ≡ true → IsPassed line.now parts.old parts.new }
    ensures kept { result ≡ false → parts.new ≡ parts.old }
{
    match line.operation {
        Operation::Within(LocalAction::Basic)
        | Operation::LoadElement(_)
        | Operation::StoreElement(_) => pass_by_operation(line, parts),
        _ => false,
    }
}

// ---- lines as they are run

/// Whether it was done, as an effect.
#[inline(always)]
fn effect_if(done: bool) -> Effect
    ensures next { result ≡ Next → done ≡ true }
    ensures other { result ≢ Next → done ≡ false }
{
    if done { Effect::Next } else { Effect::Other }
}

/// Does a line, by one match. What is cold is done by its family.
#[inline(always)]
fn do_line(line: &Line, parts: &mut Parts) -> Effect
    requires { line.now.family ≡ family_of line.now.instr.op }
    ensures effect { let hot = line.now.hot in
        is_alone hot ≡ true → result ≡ effect_of (does_hot hot) parts.old.frames }
    ensures frames { let hot = line.now.hot in
        is_alone hot ≡ true
        → parts.new ≡ record parts.old { frames = after (does_hot hot) parts.old.frames } }
    ensures loaded { (kind : Kind) → line.now.hot ≡ LoadElement kind
        → result ≡ Next → IsLoaded line.now kind parts.old parts.new }
    ensures stored { (kind : Kind) → line.now.hot ≡ StoreElement kind
        → result ≡ Next → IsStored line.now kind parts.old parts.new }
    ensures passed { line.now.hot ≡ Cold
        → result ≡ Next → IsPassed line.now parts.old parts.new }
    ensures kept { is_alone line.now.hot ≡ false → result ≢ Next → parts.new ≡ parts.old }
{
    match line.hot {
        Hot::Cold => effect_if(pass_cold(line, parts)),
        Hot::Push(next, n) => put(&mut parts.frames, Value::Int(n), next),
        Hot::LoadInt(next, slot) => load_from(&mut parts.frames, Kind::Int, slot, next),
        Hot::LoadLong(next, slot) => load_from(&mut parts.frames, Kind::Long, slot, next),
        Hot::LoadReference(next, slot) => load_from(&mut parts.frames, Kind::Ref, slot, next),
        Hot::StoreInt(next, slot) => store_int(&mut parts.frames, slot, next),
        Hot::StoreLong(next, slot) => store_to(&mut parts.frames, Kind::Long, slot, next),
        Hot::StoreReference(next, slot) => store_to(&mut parts.frames, Kind::Ref, slot, next),
        Hot::Calculate(next, op) => calculate(&mut parts.frames, op, next),
        Hot::Increment(next, slot, added) => increment_slot(&mut parts.frames, slot, added, next),
        Hot::IfInts(next, comparison, target) => {
            branch_to(&mut parts.frames, Test::OfInts(comparison), target, next)
        }
        Hot::IfZero(next, comparison, target) => {
            branch_to(&mut parts.frames, Test::WithZero(comparison), target, next)
        }
        Hot::IfReferences(next, same, target) => {
            branch_to(&mut parts.frames, Test::OfReferences(same), target, next)
        }
        Hot::IfNull(next, null, target) => {
            branch_to(&mut parts.frames, Test::IsNull(null), target, next)
        }
        Hot::Goto(target) => go_to_place(&mut parts.frames, target),
        Hot::LoadElement(kind) => effect_if(pass_load(parts, line, kind)),
        Hot::StoreElement(kind) => effect_if(pass_store(parts, line, kind)),
    }
}

/// Does a line where nothing is raised. False, with nothing changed, where the frame does not go
/// on.
#[inline(always)]
fn pass_line(line: &Line, parts: &mut Parts) -> bool
    requires { IsPreparedLine line.now }
    ensures gone { result ≡ true → IsPassed line.now parts.old parts.new }
    ensures kept { result ≡ false → parts.new ≡ parts.old }
{
    let effect = do_line(line, parts);
    matches!(effect, Effect::Next)
}

/// Steps in the version that the current frame runs, at most so many, by lines that its frame does
/// by itself, or that load or store an element and raise nothing; up to a line that is none: that
/// line, where it has come to one. How many were made is put beside it.
#[inline(never)]
pub fn plain_to<'a>(
    version: &'a Version,
    parts: &mut Parts,
    most: u64,
    count: &mut u64,
) -> Option<&'a Line>
    requires { ArePrepared version.now }
    ensures within { count.new ≤ most }
    ensures below { IfSome result (λ l. count.new < most) }
    ensures made { (w : Setup) → CanRun w → RunsVersion w version.now parts.old.frames.frames
        → LeadsAlone w parts.old count.new parts.new }
    ensures stands { IfSome result
        (λ l. IsLineIn version.now parts.new.frames.frames l.now) }
    ensures same { top_version parts.new.frames.frames ≡ top_version parts.old.frames.frames }
{
    for made in 0..most {
        let Some(line) = line_now(version, &parts.frames) else {
            *count = made;
            return None;
        };
        if !pass_line(line, parts) {
            *count = made;
            return Some(line);
        }
    }
    *count = most;
    None
}
