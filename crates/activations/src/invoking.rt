//! Invocation (JVM Specification 2.6, 2.6.1, 5.5, 6.5).

ghost use Rattle.std.specs.Prelude.{◌≡◌, ◌≤◌, false, true, IfOk, OnErr, OnOk};
ghost use Rattle.frame_stack.specs.FrameLists.{top_operands};
ghost use Rattle.frame_stack.specs.Widths.{width};
ghost use Rattle.jvm_model.specs.Basis.Programs.{name_at};
ghost use Rattle.jvm_model.specs.declared.exception.Exception.TheVariants.{NoClassDefinition};
ghost use Rattle.activations.specs.Applied.{raising};
ghost use Rattle.activations.specs.Arguments.{can_begin, with_begun};
ghost use Rattle.activations.specs.Arguments.{taken_slots};
ghost use Rattle.activations.specs.Invoking.{method_called, may_begin};
ghost use Rattle.prepared_code.specs.States.{state_in};
ghost use Rattle.prepared_code.specs.Originals.{setup_in};

use crate::asking::raise_named;
use crate::entering::enter;
use crate::raising::{break_at, break_off, raise};
use frame_stack::Frames;
use heap_objects::Value;
use jf_bytes::NoMemory;
use jvm_model::Exception;
use prepared_code::{Here, Originals, Parts};
use symbolic_references::Runtime;

/// How many activations are live at most.
const MOST_LIVE: u32 = 1024;

// ---- a method begins

/// Whether one more activation may be live.
pub fn may_begin(frames: &Frames) -> bool
    ensures { result ≡ may_begin frames.now.frames }
{
    frames.depth() < MOST_LIVE
}

/// Begins a frame of a method on the current one, which gives it so many arguments. False, with
/// nothing changed, where they are fewer or do not fit into the locals.
pub fn begin_frame(
    originals: &Originals,
    runtime: &Runtime,
    frames: &mut Frames,
    method: u32,
    args: u16,
) -> Result<bool, NoMemory>
    requires { may_begin frames.old.frames ≡ true }
    ensures answer { IfOk result (λ b.
        b ≡ can_begin runtime.now.world method args frames.old.frames) }
    ensures frames { IfOk result (λ b. frames.new.frames ≡
        with_begun b (setup_in runtime.now originals.now) method args frames.old.frames) }
    ensures err { OnErr result (frames.new.frames ≡ frames.old.frames) }
{
    let max_locals = runtime.max_locals(method);
    let max_stack = runtime.max_stack(method);
    frames.reserve(max_locals, max_stack)?;
    Ok(enter(originals, frames, method, max_locals, max_stack, args))
}

// ---- operands that are arguments

/// How many locals a value takes.
fn width(value: Value) -> u32
    ensures slots { result ≡ width value }
    ensures most { result ≤ 2 }
{
    match value {
        Value::Int(_) => 1,
        Value::Long(_) => 2,
        Value::Ref(_) => 1,
        Value::Addr(_) => 1,
    }
}

/// How many locals so many of the topmost operands take, where there are as many.
fn taken_slots(frames: &Frames, args: u16) -> Option<u32>
    ensures { result ≡ taken_slots args (top_operands frames.now.frames) }
{
    let mut slots = 0;
    for i in 0..args {
        slots += width(frames.peek(i)?);
    }
    Some(slots)
}

/// Whether so many of the topmost operands are there, and fit into a method's locals.
fn can_begin(runtime: &Runtime, frames: &Frames, method: u32, args: u16) -> bool
    ensures { result ≡ can_begin runtime.now.world method args frames.now.frames }
{
    match taken_slots(frames, args) {
        Some(slots) => slots <= u32::from(runtime.max_locals(method)),
        None => false,
    }
}

// ---- a method begins, or the run ends

/// Begins a method with so many arguments: its caller stays at the line without them.
fn begin(
    originals: &Originals,
    parts: &mut Parts,
    method: u32,
    own: u16,
    callee: u32,
    args: u16,
) -> Result<(), NoMemory>
    requires few { may_begin parts.old.frames.frames ≡ true }
    ensures state { let w = setup_in parts.old.runtime originals.now in
        let fs = parts.old.frames.frames in OnOk result (state_in parts.new
        ≡ method_called w method own callee args fs parts.old true
        (can_begin w.world callee args fs)) }
    ensures runtime { parts.new.runtime ≡ parts.old.runtime }
{
    if !begin_frame(originals, &parts.runtime, &mut parts.frames, callee, args)? {
        break_off(parts, method, own);
    }
    Ok(())
}

/// No more activation may be live: where the arguments fit, StackOverflowError is thrown at the
/// caller, whose operands stay.
fn overflow(
    originals: &Originals,
    parts: &mut Parts,
    method: u32,
    own: u16,
    callee: u32,
    args: u16,
) -> Result<(), NoMemory>
    ensures state { let w = setup_in parts.old.runtime originals.now in
        let fs = parts.old.frames.frames in OnOk result (state_in parts.new
        ≡ method_called w method own callee args fs parts.old false
        (can_begin w.world callee args fs)) }
    ensures world { parts.new.runtime.world ≡ parts.old.runtime.world }
    ensures same_loaded { parts.new.runtime.shared.loaded ≡ parts.old.runtime.shared.loaded }
{
    if can_begin(&parts.runtime, &parts.frames, callee, args) {
        return raise(parts, Exception::StackOverflow);
    }
    break_off(parts, method, own);
    Ok(())
}

/// Begins a method with so many arguments, unless that were one activation too many. Where they
/// don't fit the run ends at this offset of the caller's method.
pub fn call(
    originals: &Originals,
    parts: &mut Parts,
    method: u32,
    own: u16,
    callee: u32,
    args: u16,
) -> Result<(), NoMemory>
    ensures state { let w = setup_in parts.old.runtime originals.now in
        let fs = parts.old.frames.frames in OnOk result (state_in parts.new
        ≡ method_called w method own callee args fs parts.old (may_begin fs)
        (can_begin w.world callee args fs)) }
    ensures world { parts.new.runtime.world ≡ parts.old.runtime.world }
    ensures same_loaded { parts.new.runtime.shared.loaded ≡ parts.old.runtime.shared.loaded }
{
    if may_begin(&parts.frames) {
        begin(originals, parts, method, own, callee, args)
    } else {
        overflow(originals, parts, method, own, callee, args)
    }
}

// ---- a class that can not be used

/// NoClassDefFoundError, with the name of the class.
pub fn raise_unusable(parts: &mut Parts, class: u32) -> Result<(), NoMemory>
    ensures state { let w = parts.old.runtime.world in OnOk result
        (parts.new ≡ raising w NoClassDefinition (name_at w.program class) parts.old) }
    ensures world { parts.new.runtime.world ≡ parts.old.runtime.world }
    ensures same_loaded { parts.new.runtime.shared.loaded ≡ parts.old.runtime.shared.loaded }
{
    let message = parts.runtime.class_name(class)?;
    raise_named(parts, Exception::NoClassDefinition, message)
}
