//! A throw by which an activation ends and that its caller catches, where nothing is told of it
//! (JVM Specification 2.10).

ghost use Rattle.std.specs.Prelude.{◌≡◌, true, IfSome, Some};
ghost use Rattle.frame_stack.specs.FrameLists.{top_operands};
ghost use Rattle.jvm_model.specs.Basis.Data.{Throws};
ghost use Rattle.jvm_model.specs.Instructions.ObjectRules.{throws};
ghost use Rattle.jvm_model.specs.Basis.Values.{ref_of};
ghost use Rattle.jvm_model.specs.declared.event.Mark.TheVariants.{Off};
ghost use Rattle.activations.specs.Catching.{CatchesBelow, caught_if, fits_caught};
ghost use Rattle.prepared_code.specs.Originals.{setup_in};
ghost use Rattle.class_linker.specs.Linkers.{IsLoaded};
ghost use Rattle.symbolic_references.specs.Runtimes.{linker_in};

use crate::handlers::handler_for;
use crate::objects::is_throwable;
use crate::settling::put_alone;
use frame_stack::Frames;
use heap_objects::Value;
use jf_bytes::Stack;
use jvm_basic::{recall, ref_of};
use jvm_model::Mark;
use prepared_code::{Here, Initialization, Originals, initialization_on};
use symbolic_references::Runtime;

/// The object on top, where an athrow throws it.
pub fn thrown_object(runtime: &Runtime, frames: &Frames) -> Option<u32>
    ensures { let w = runtime.now.world in let o = top_operands frames.now.frames in
        IfSome result (λ object. throws w runtime.now.shared (ref_of o) ≡ Throws object) }
{
    let Some(object) = ref_of(frames) else {
        return None;
    };
    if object == 0 {
        return None;
    }
    if !is_throwable(runtime, object) {
        return None;
    }
    Some(object)
}

/// Whether a version has no probes.
#[inline(always)]
fn is_off(mark: Mark) -> bool
    ensures { result ≡ true → mark ≡ Off }
{
    match mark {
        Mark::Off => true,
        Mark::Plain => false,
        Mark::Root => false,
    }
}

/// Where the caller of the current frame goes on when an object of this class is thrown there. None
/// where the frame catches it itself or the caller does not, where an initialization stands on the
/// caller, or where the frame's version has probes, or is not its method's current one.
pub fn caught_below(
    originals: &Originals,
    runtime: &Runtime,
    frames: &Frames,
    initializing: &Stack<Initialization>,
    here: Here,
    class: u32,
) -> Option<u16>
    requires { IsLoaded (linker_in runtime.now) class }
    ensures { let w = setup_in runtime.now originals.now in IfSome result
        (λ target. CatchesBelow w initializing.now here frames.now.frames class target) }
{
    if !is_off(originals.mark(here.version)) {
        return None;
    }
    if !originals.is_current(here.version) {
        return None;
    }
    let depth = frames.depth();
    if depth < 2 {
        return None;
    }
    if initialization_on(initializing, depth - 1).is_some() {
        return None;
    }
    if handler_for(originals, runtime, here.version, class, here.place).is_some() {
        return None;
    }
    let Some((version, place)) = frames.caller() else {
        return None;
    };
    handler_for(originals, runtime, version, class, place)
}

/// The current frame is taken off, and its caller goes on at a handler with the object alone on its
/// operands. False, with nothing changed, where it has no room for the object on top of those that
/// it has.
pub fn catch_below(frames: &mut Frames, object: u32, target: u16) -> bool
    ensures fits { result ≡ true → fits_caught frames.old.frames ≡ true }
    ensures frames { frames.new.frames ≡ caught_if result object target frames.old.frames }
{
    recall(frames);
    if !frames.give_back(Some(Value::Ref(object)), target) {
        return false;
    }
    put_alone(frames, object);
    true
}
