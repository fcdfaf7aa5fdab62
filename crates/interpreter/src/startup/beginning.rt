//! The start (JVM Specification 5.2, 5.3, 5.5): the main class is loaded and initialized, and then
//! `main` begins.

ghost use Rattle.std.specs.Prelude.{◌≡◌, ◌++◌, true, OnOk};
ghost use Rattle.jvm_model.specs.Running.Run.{main_loads, starts_if, starts_with};
ghost use Rattle.jvm_model.specs.Basis.SharedState.{arguments_fit};
ghost use Rattle.jvm_model.specs.Soundness.Sound.{IsFit};
ghost use Rattle.member_selection.specs.Answers.{found_view};
ghost use Rattle.interpreter.specs.Machine.Before.{IsAtStart, begun_by};
ghost use Rattle.prepared_code.specs.Initializations.{state_of};
ghost use Rattle.prepared_code.specs.Originals.{AreNamesKnown};

use activations::{initialize, raise_named};
use jf_bytes::{NoMemory, Stack};
use member_selection::AbruptCompletion;
use prepared_code::{Initialization, Originals, Parts};
use prepared_lines::{arguments_fit, main_class};
use std::alloc::Global;
use symbolic_references::RESERVED;

// ---- the main class is loaded

/// The initialization of the main class begins, or what stopped its loading is raised.
fn begin_class(
    parts: &mut Parts,
    initializing: &mut Stack<Initialization>,
    class: u32,
    found: Result<u32, AbruptCompletion>,
) -> Result<(), NoMemory>
    ensures state { OnOk result (state_of initializing.new parts.new
        ≡ begun_by parts.old.runtime.world class (found_view found)
        (state_of initializing.old parts.old)) }
    ensures world { parts.new.runtime.world ≡ parts.old.runtime.world }
    ensures same_loaded { parts.new.runtime.shared.loaded ≡ parts.old.runtime.shared.loaded }
{
    match found {
        Ok(_) => initialize(parts, initializing, class),
        Err(AbruptCompletion::Raises(exception, message)) => raise_named(parts, exception, message),
        // These do not come.
        Err(AbruptCompletion::Throws(_)) => initialize(parts, initializing, class),
        Err(AbruptCompletion::Initializes(_)) => initialize(parts, initializing, class),
        Err(AbruptCompletion::Exits(_)) => initialize(parts, initializing, class),
        Err(AbruptCompletion::Breaks) => initialize(parts, initializing, class),
    }
}

/// The arguments are made, for which there is room, and the main class is loaded: its
/// initialization begins, or what stopped its loading is raised.
fn load_main(
    alloc: Global,
    originals: &mut Originals,
    parts: &mut Parts,
    initializing: &mut Stack<Initialization>,
) -> Result<(), NoMemory>
    requires at_start { IsAtStart parts.old.runtime.world (state_of initializing.old parts.old) }
    requires fits { arguments_fit parts.old.runtime.world.program ≡ true }
    requires known { AreNamesKnown originals.old parts.old.runtime }
    requires fit { IsFit parts.old.runtime.world.program }
    ensures program { originals.new.program ≡ originals.old.program }
    ensures versions { originals.new.versions ≡ originals.old.versions }
    ensures world { parts.new.runtime.world ≡ parts.old.runtime.world }
    ensures known { OnOk result (AreNamesKnown originals.new parts.new.runtime) }
    ensures state { OnOk result
        (state_of initializing.new parts.new ≡ starts_if parts.old.runtime.world true) }
{
    parts.runtime.make_arguments()?;
    let found = originals.load_main(alloc, &mut parts.runtime)?;
    let class = main_class(parts.runtime.program());
    begin_class(parts, initializing, class, found)
}

/// What the start does before its moves: the same, or, where there is no room for the arguments,
/// object 1 is thrown. The classes that it loads are the last ones then.
pub fn begin_start(
    alloc: Global,
    originals: &mut Originals,
    parts: &mut Parts,
    initializing: &mut Stack<Initialization>,
) -> Result<(), NoMemory>
    requires at_start { IsAtStart parts.old.runtime.world (state_of initializing.old parts.old) }
    requires known { AreNamesKnown originals.old parts.old.runtime }
    requires fit { IsFit parts.old.runtime.world.program }
    ensures program { originals.new.program ≡ originals.old.program }
    ensures versions { originals.new.versions ≡ originals.old.versions }
    ensures world { parts.new.runtime.world ≡ parts.old.runtime.world }
    ensures known { OnOk result (AreNamesKnown originals.new parts.new.runtime) }
    ensures state { OnOk result
        (state_of initializing.new parts.new ≡ starts_with parts.old.runtime.world) }
    ensures loads { let w = parts.old.runtime.world in OnOk result
        (parts.new.runtime.shared.loaded ≡ parts.old.runtime.shared.loaded ++ main_loads w) }
{
    if arguments_fit(parts.runtime.program()) {
        return load_main(alloc, originals, parts, initializing);
    }
    parts.thrown = Some(RESERVED);
    Ok(())
}
