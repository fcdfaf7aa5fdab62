//! Redefines a class of a machine while it runs.

ghost use Rattle.std.specs.Prelude.{◌≡◌, ◌≢◌, ◌<◌, false, length, Err, IfErr, IfOk, OnErr, OnOk};
ghost use Rattle.jf_bytes.specs.Results.{IsUnless};
ghost use Rattle.jvm_machine.specs.Installs.{IsFormed, with_class};
ghost use Rattle.class_shape.specs.declared.error.SwapError.{SwapError as Refusal};
ghost use Rattle.hotswap.specs.Redefining.{IsImageFor, IsRefused, Redefines, SpellsImage};

use class_shape::{SwapError, read_swap};
use code_model::Homes;
use const_pool::ClassFile;
use jvm_machine::Vm;
use jvm_model::Mark;
use std::alloc::Global;

/// The class of the bytes, by which the class at this position is redefined.
fn image_for(alloc: Global, vm: &Vm, class: u32, bytes: &[u8]) -> Result<ClassFile, SwapError>
    requires known { class < length vm.now.program.classes }
    ensures found { IfOk result (IsImageFor vm.now.program class bytes.now) }
    ensures refused { IfErr result (λ e.
        e ≢ SwapError.NoMemory → IsRefused vm.now.program class bytes.now e) }
    ensures first_fault { (refusal : Refusal) → IsRefused vm.now.program class bytes.now refusal
        → IsUnless result (Err refusal) SwapError.NoMemory }
{
    let Some(original) = vm.program().classes.get(class as usize) else {
        unreachable!()
    };
    match read_swap(alloc, original, bytes) {
        Ok(image) => Ok(image),
        Err(error) => Err(error),
    }
}

/// Makes the versions of the image that the bytes spell current, for all methods of the class that have Code: what
/// begins from then on begins in them, and what is live stays in the version in which it began. Where the bytes are no
/// class file, or of another shape than the class, that is told and nothing has changed; so it is where memory ran out.
pub fn redefine(
    alloc: Global,
    vm: &mut Vm,
    class: u32,
    bytes: &[u8],
    marks: &[Mark],
    homes: &[Option<Homes>],
) -> Result<(), SwapError>
    requires known { class < length vm.old.program.classes }
    requires whole { vm.old.broken ≡ false }
    requires formed { IsFormed vm.old.program }
    requires image { SpellsImage vm.old.program class bytes.now marks.now homes.now }
    ensures found { OnOk result (Redefines vm.old.program class bytes.now) }
    ensures refused { IfErr result (λ e.
        e ≢ SwapError.NoMemory → IsRefused vm.old.program class bytes.now e) }
    ensures first_fault { (refusal : Refusal) → IsRefused vm.old.program class bytes.now refusal
        → IsUnless result (Err refusal) SwapError.NoMemory }
    ensures ok { OnOk result (vm.new ≡ with_class class marks.now vm.old) }
    ensures err { OnErr result (vm.new ≡ vm.old) }
{
    let image = match image_for(alloc, vm, class, bytes) {
        Ok(image) => image,
        Err(error) => return Err(error),
    };
    match vm.install(class, image, marks, homes) {
        Ok(()) => Ok(()),
        Err(_) => Err(SwapError::NoMemory),
    }
}
