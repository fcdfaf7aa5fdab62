//! A frame begins, in the current version of its method (JVM Specification 2.6.1).

ghost use Rattle.std.specs.Prelude.{◌≡◌, ◌+◌, ◌<◌, length};
ghost use Rattle.std.specs.Bool.{IsTrue};
ghost use Rattle.heap_objects.specs.Changes.{changed_if};
ghost use Rattle.frame_stack.specs.FrameLists.{can_enter, has_room};
ghost use Rattle.activations.specs.Arguments.{with_version_frame};

use frame_stack::Frames;
use prepared_code::Originals;

/// Begins a frame of a method's current version, at its first place, which takes so many of the
/// topmost operands. False, with nothing changed, where they are fewer or do not fit.
pub fn enter(
    originals: &Originals,
    frames: &mut Frames,
    method: u32,
    max_locals: u16,
    max_stack: u16,
    args: u16,
) -> bool
    requires room { IsTrue (has_room (max_locals + max_stack) frames.old.room) }
    requires few { length frames.old.frames < 4294967295 }
    ensures answer { result ≡ can_enter max_locals args frames.old.frames }
    ensures frames { frames.new ≡ changed_if result
        (with_version_frame originals.now.versions method max_locals max_stack args)
        frames.old }
{
    let version = originals.current(method);
    let first = originals.first(version);
    if !frames.enter(version, method, max_locals, max_stack, args) {
        return false;
    }
    frames.go(first);
    true
}
