//! The initialization of classes (JVM Specification 5.5), part by part.

ghost use Rattle.std.specs.Prelude.{◌≡◌, suc, [], true, None, length, IfOk, OnOk};
ghost use Rattle.jvm_model.specs.Running.Applies.{new_frame, with_frame};
ghost use Rattle.jvm_model.specs.Running.Constants.{sets_constants};
ghost use Rattle.jvm_model.specs.Running.Moves.{after_super, initializes, runs_initializer};
ghost use Rattle.jvm_model.specs.Running.Moves.{with_constants, with_super, throw_wrapped};
ghost use Rattle.jvm_model.specs.Basis.Programs.{initializer_of, super_of};
ghost use Rattle.jvm_model.specs.Basis.SharedState.{phase_of};
ghost use Rattle.activations.specs.Initializing.{begins_class, failing};
ghost use Rattle.activations.specs.Invoking.{may_begin};
ghost use Rattle.activations.specs.Turning.{begun_in};
ghost use Rattle.prepared_code.specs.Initializations.{initialization_on, state_of};
ghost use Rattle.prepared_code.specs.Versions.{listing_of};
ghost use Rattle.prepared_code.specs.Originals.{setup_in};
ghost use Rattle.symbolic_references.specs.Runtimes.{with_shared};

use crate::entering::enter;
use crate::invoking::{may_begin, raise_unusable};
use crate::objects::is_error;
use crate::raising::raise;
use jf_bytes::{NoMemory, Stack};
use jvm_model::{Exception, Part, Phase};
use prepared_code::{Initialization, Originals, Parts, put_initialization};
use prepared_lines::initializer_of;
use symbolic_references::Runtime;

/// The initialization of a class begins: its initialization stands on the current frame.
pub fn initialize(
    parts: &mut Parts,
    initializing: &mut Stack<Initialization>,
    class: u32,
) -> Result<(), NoMemory>
    ensures state { OnOk result (state_of initializing.new parts.new
        ≡ begins_class class (state_of initializing.old parts.old)) }
    ensures world { parts.new.runtime.world ≡ parts.old.runtime.world }
    ensures same_loaded { parts.new.runtime.shared.loaded ≡ parts.old.runtime.shared.loaded }
{
    parts.runtime.set_phase(class, Phase::Running);
    put_initialization(parts, initializing, class, Part::Constants)
}

// ---- a throw meets an initialization

/// What is thrown on: an Error itself, or an ExceptionInInitializerError with the object as its
/// cause.
fn wrap(runtime: &mut Runtime, object: u32) -> Result<u32, NoMemory>
    ensures runtime { OnOk result (runtime.new ≡ with_shared
        (throw_wrapped runtime.old.world runtime.old.shared object).shared runtime.old) }
    ensures object { IfOk result
        (λ r. r ≡ (throw_wrapped runtime.old.world runtime.old.shared object).reference) }
    ensures world { runtime.new.world ≡ runtime.old.world }
    ensures same_loaded { runtime.new.shared.loaded ≡ runtime.old.shared.loaded }
{
    if is_error(runtime, object) {
        return Ok(object);
    }
    runtime.make_exception(Exception::InInitializer, object)
}

/// The initialization of a class fails with an object: the class can not be used from now on.
pub fn fail(parts: &mut Parts, class: u32, object: u32) -> Result<(), NoMemory>
    ensures state { let w = parts.old.runtime.world in
        OnOk result (parts.new ≡ failing w class object parts.old) }
    ensures world { parts.new.runtime.world ≡ parts.old.runtime.world }
    ensures same_loaded { parts.new.runtime.shared.loaded ≡ parts.old.runtime.shared.loaded }
{
    let thrown = wrap(&mut parts.runtime, object)?;
    parts.runtime.set_phase(class, Phase::Erroneous);
    parts.thrown = Some(thrown);
    Ok(())
}

// ---- the superclass

/// The superclass of a class is initialized, where it is fresh; where it can not be used
/// NoClassDefFoundError is thrown.
fn initialize_above(
    parts: &mut Parts,
    initializing: &mut Stack<Initialization>,
    class: u32,
    above: u32,
) -> Result<(), NoMemory>
    ensures state { OnOk result (state_of initializing.new parts.new
        ≡ after_super parts.old.runtime.world (state_of initializing.old parts.old) class above
        (phase_of parts.old.runtime.shared above)) }
    ensures world { parts.new.runtime.world ≡ parts.old.runtime.world }
    ensures same_loaded { parts.new.runtime.shared.loaded ≡ parts.old.runtime.shared.loaded }
{
    put_initialization(parts, initializing, class, Part::Initializer)?;
    match parts.runtime.phase(above) {
        Some(Phase::Fresh) => initialize(parts, initializing, above),
        Some(Phase::Erroneous) => raise_unusable(parts, above),
        Some(Phase::Running) => Ok(()),
        Some(Phase::Ready) => Ok(()),
        None => Ok(()),
    }
}

/// The same, where it has one that is a class of the program.
fn initialize_super(
    parts: &mut Parts,
    initializing: &mut Stack<Initialization>,
    class: u32,
) -> Result<(), NoMemory>
    ensures state { let w = parts.old.runtime.world in
        OnOk result (state_of initializing.new parts.new
        ≡ with_super w (state_of initializing.old parts.old) class (super_of w.program class)) }
    ensures world { parts.new.runtime.world ≡ parts.old.runtime.world }
    ensures same_loaded { parts.new.runtime.shared.loaded ≡ parts.old.runtime.shared.loaded }
{
    match parts.runtime.linker().index().super_of(class) {
        Some(above) => initialize_above(parts, initializing, class, above),
        None => put_initialization(parts, initializing, class, Part::Initializer),
    }
}

// ---- the static initializer

/// Begins a static initializer, which has no arguments, on the current frame.
fn begin_initializer(
    originals: &Originals,
    parts: &mut Parts,
    initializing: &Stack<Initialization>,
    method: u32,
) -> Result<(), NoMemory>
    requires few { may_begin parts.old.frames.frames ≡ true }
    requires below { initialization_on (suc (length parts.old.frames.frames)) initializing.now
        ≡ None }
    ensures state { let w = setup_in parts.old.runtime originals.now in
        OnOk result (state_of initializing.now parts.new
        ≡ with_frame (state_of initializing.now parts.old)
        (new_frame w.world (listing_of w.versions) method [])) }
    ensures world { parts.new.runtime.world ≡ parts.old.runtime.world }
    ensures same_loaded { parts.new.runtime.shared.loaded ≡ parts.old.runtime.shared.loaded }
{
    let max_locals = parts.runtime.max_locals(method);
    let max_stack = parts.runtime.max_stack(method);
    parts.frames.reserve(max_locals, max_stack)?;
    enter(
        originals,
        &mut parts.frames,
        method,
        max_locals,
        max_stack,
        0,
    );
    Ok(())
}

/// The static initializer of a class begins, where it has one; where that were one activation too
/// many StackOverflowError is thrown. The answer is the method that has begun.
fn run_initializer(
    originals: &Originals,
    parts: &mut Parts,
    initializing: &mut Stack<Initialization>,
    class: u32,
) -> Result<Option<u32>, NoMemory>
    ensures begun { let w = setup_in parts.old.runtime originals.now in
        IfOk result (λ o. o ≡ begun_in
        (runs_initializer w.world (listing_of w.versions)
        (state_of initializing.old parts.old) class
        (initializer_of w.world.program class)).changes) }
    ensures state { let w = setup_in parts.old.runtime originals.now in
        OnOk result (state_of initializing.new parts.new
        ≡ (runs_initializer w.world (listing_of w.versions)
        (state_of initializing.old parts.old) class
        (initializer_of w.world.program class)).after) }
    ensures world { parts.new.runtime.world ≡ parts.old.runtime.world }
    ensures same_loaded { parts.new.runtime.shared.loaded ≡ parts.old.runtime.shared.loaded }
{
    put_initialization(parts, initializing, class, Part::Finish)?;
    let Some(method) = initializer_of(parts.runtime.program(), class) else {
        return Ok(None);
    };
    if !may_begin(&parts.frames) {
        raise(parts, Exception::StackOverflow)?;
        return Ok(None);
    }
    begin_initializer(originals, parts, initializing, method)?;
    Ok(Some(method))
}

// ---- the constants

/// The constants of a class are set; an object that is thrown meets its initialization.
fn run_constants(
    parts: &mut Parts,
    initializing: &mut Stack<Initialization>,
    class: u32,
) -> Result<(), NoMemory>
    ensures state { let p = parts.old.runtime.world.program in
        OnOk result (state_of initializing.new parts.new
        ≡ with_constants (state_of initializing.old parts.old) class
        (sets_constants p class parts.old.runtime.shared)) }
    ensures world { parts.new.runtime.world ≡ parts.old.runtime.world }
    ensures same_loaded { parts.new.runtime.shared.loaded ≡ parts.old.runtime.shared.loaded }
{
    put_initialization(parts, initializing, class, Part::Superclass)?;
    parts.thrown = parts.runtime.set_constants(class)?;
    Ok(())
}

// ---- every part

/// The initialization of a class goes on with this part, after its initialization was taken off.
/// The answer is the method that has begun.
pub fn go_on(
    originals: &Originals,
    parts: &mut Parts,
    initializing: &mut Stack<Initialization>,
    class: u32,
    part: Part,
) -> Result<Option<u32>, NoMemory>
    ensures begun { let w = setup_in parts.old.runtime originals.now in
        let s = state_of initializing.old parts.old in
        IfOk result (λ o. o ≡ begun_in
        (initializes w.world (listing_of w.versions) s class part).changes) }
    ensures state { let w = setup_in parts.old.runtime originals.now in
        let s = state_of initializing.old parts.old in
        OnOk result (state_of initializing.new parts.new
        ≡ (initializes w.world (listing_of w.versions) s class part).after) }
    ensures world { parts.new.runtime.world ≡ parts.old.runtime.world }
    ensures same_loaded { parts.new.runtime.shared.loaded ≡ parts.old.runtime.shared.loaded }
{
    match part {
        Part::Constants => {
            run_constants(parts, initializing, class)?;
            Ok(None)
        }
        Part::Superclass => {
            initialize_super(parts, initializing, class)?;
            Ok(None)
        }
        Part::Initializer => run_initializer(originals, parts, initializing, class),
        Part::Finish => {
            parts.runtime.set_phase(class, Phase::Ready);
            Ok(None)
        }
    }
}
