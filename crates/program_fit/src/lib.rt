//! What the machine asks of a program, and that an admitted program meets it.
#![tactic(auto)]

ghost use Rattle.program_fit.specs.Runnable.{AdmittedAreRunnable};

/// Whatever program was admitted can be prepared, started and rewritten. It does nothing: the law is what it promises.
pub fn admitted_are_runnable()
    ensures { AdmittedAreRunnable }
{}
