//! A step in hand goes on to what is told next of it, where that is quickly done: to its end,
//! behind a call of which was told, or by a return of which its probe has told.

ghost use Rattle.std.specs.Prelude.{ℕ, List, ◌≡◌, true, false, length, IfNone, IfSome};
ghost use Rattle.jvm_model.specs.Basis.Data.{Turn};
ghost use Rattle.jvm_model.specs.Running.Run.{starts_with};
ghost use Rattle.jvm_model.specs.Turns.Told.{Held};
ghost use Rattle.jvm_model.specs.declared.due.Due.TheVariants as due;
ghost use Rattle.prepared_code.specs.Initializations.{state_of};
ghost use Rattle.prepared_code.specs.Ready.{CanRun, IsSoundIn};
ghost use Rattle.prepared_code.specs.Runs.{IsAtInstruction};
ghost use Rattle.prepared_code.specs.Standing.{HasVersions};
ghost use Rattle.interpreter.specs.Moves.Quickly.{GoesQuickly, TriesIf};
ghost use Rattle.interpreter.specs.Moves.Hands.{HasGoneOn, HasInHand};
ghost use Rattle.prepared_code.specs.Originals.{setup_in};

use crate::turns::hands::{Gone, Hand, gone_to};
use crate::turns::passing::leave;
use crate::turns::resting::is_at_rest;
use jf_bytes::Stack;
use jvm_model::{Due, Operation};
use prepared_code::{Initialization, Originals, Parts, line_in, where_now};
use prepared_lines::LocalAction;

/// A return of which its probe has told. False, with nothing of the run changed, where the line is
/// none, or the caller can't go on.
#[inline(always)]
fn end_told(originals: &Originals, parts: &mut Parts, initializing: &Stack<Initialization>) -> bool
    requires run { CanRun (setup_in parts.old.runtime originals.now) }
    requires at_instruction { IsAtInstruction
        (length parts.old.frames.frames) initializing.now parts.old }
    ensures tries { let w = setup_in parts.old.runtime originals.now in
        TriesIf result w initializing.now true parts.old due.Nothing parts.new }
    ensures at_instruction { result ≡ true → IsAtInstruction
        (length parts.new.frames.frames) initializing.now parts.new }
    ensures runtime { parts.new.runtime ≡ parts.old.runtime }
{
    let Some(here) = where_now(&parts.frames) else {
        return false;
    };
    let Some(version) = originals.version(here.version) else {
        return false;
    };
    let Some(line) = line_in(version, here.place) else {
        return false;
    };
    match line.operation {
        Operation::Within(action) => match action {
            LocalAction::Return(kind) => {
                leave(originals, parts, initializing, here, version, line, kind)
            }
            LocalAction::Basic => false,
        },
        _ => false,
    }
}

/// Goes on with a step in hand to its end, where that is quickly done. None, with nothing of the
/// run changed, where it is not, or where nothing of a step is in hand: `go` does it then.
#[inline(always)]
pub fn go_quickly(
    originals: &Originals,
    parts: &mut Parts,
    initializing: &Stack<Initialization>,
    hand: Hand,
) -> Option<Gone>
    requires fit { CanRun (setup_in parts.old.runtime originals.now) }
    requires at_instruction { IsAtInstruction
        (length parts.old.frames.frames) initializing.now parts.old }
    ensures goes { let w = setup_in parts.old.runtime originals.now in IfSome result (λ gone.
        GoesQuickly w initializing.now hand parts.old gone parts.new) }
    ensures done { IfSome result (λ gone. gone.due ≡ due.Nothing) }
    ensures at_instruction { IfSome result (λ gone. IsAtInstruction
        (length parts.new.frames.frames) initializing.now parts.new) }
    // The rest of the same step is in hand then, at the next of its changes that is told.
    ensures hands { let w = setup_in parts.old.runtime originals.now in
        let s = state_of initializing.now parts.old in
        IfSome result (λ gone. (homes : ℕ → ℕ → ℕ) (turn : Turn) (live : List Held)
        → HasVersions w homes → HasInHand w homes turn hand live s
        → HasGoneOn w homes turn hand live gone (state_of initializing.now parts.new)) }
    ensures sound { let w = setup_in parts.old.runtime originals.now in
        let s = state_of initializing.now parts.old in
        IfSome result (λ gone. IsSoundIn w s → IsSoundIn w (state_of initializing.now parts.new)) }
    // The moves of the start leave a sound state too.
    ensures starts { let w = setup_in parts.old.runtime originals.now in
        IfSome result (λ gone. hand.moves ≡ true
        → hand.delivered ≡ false → state_of initializing.now parts.old ≡ starts_with w.world
        → IsSoundIn w (state_of initializing.now parts.new)) }
    ensures none { IfNone result (state_of initializing.now parts.new
        ≡ state_of initializing.now parts.old) }
    ensures runtime { parts.new.runtime ≡ parts.old.runtime }
{
    if hand.moves {
        if hand.delivered || !is_at_rest(parts, initializing) {
            return None;
        }
        return Some(gone_to(Due::Nothing, hand.passed));
    }
    if !hand.delivered || hand.passed > 0 {
        return None;
    }
    if !end_told(originals, parts, initializing) {
        return None;
    }
    Some(gone_to(Due::Nothing, 1))
}
