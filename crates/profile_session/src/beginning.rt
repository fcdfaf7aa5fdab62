//! A session's parts before anything was done.

ghost use Rattle.std.specs.Prelude.{◌≡◌, false, IfOk};
ghost use Rattle.jvm_machine.specs.View.{machine_made};
ghost use Rattle.profile_session.specs.Beginning.{CanBeProfiled, IsFirst};
ghost use Rattle.profile_session.specs.Sessions.{Stands, profiling_in, profiling_of};

use crate::parts::Parts;
use call_revelation::Reveal;
use context_tree::Tree;
use event_buffer::Events;
use jf_bytes::{NoMemory, Seq};
use jvm_machine::Vm;
use std::alloc::Global;

/// What is revealed of a program before its start: the built-in classes are loaded.
fn reveal_first(alloc: Global, vm: &Vm) -> Result<Reveal, NoMemory>
    requires whole { vm.now.broken ≡ false }
    requires before_the_run { vm.now.started ≡ false }
    requires profilable { CanBeProfiled vm.now.program }
    ensures { IfOk result (IsFirst vm.now) }
{
    let mut reveal = Reveal::new(alloc, vm.program())?;
    reveal.loaded(alloc, vm.linker())?;
    reveal.show(vm.program());
    Ok(reveal)
}

/// The parts of a session on a machine that was just made. Its buffer has 65,536 bytes.
pub fn begin(alloc: Global, vm: Box<Vm>) -> Result<Parts, NoMemory>
    requires fresh { vm.value ≡ machine_made vm.value.program vm.value.input }
    requires profilable { CanBeProfiled vm.value.program }
    ensures stands { IfOk result Stands }
    ensures seen { IfOk result (λ x. profiling_in false false x
        ≡ profiling_of vm.value.program vm.value.input) }
{
    let buffer = Events::new(alloc, 65536)?;
    let reveal = reveal_first(alloc, &vm)?;
    Ok(Parts {
        alloc,
        vm: Box::into_inner(vm),
        reveal,
        tree: Tree::new(alloc),
        buffer,
        depth: 0,
        swaps: Seq::new(alloc),
        acts: Seq::new(alloc),
    })
}
