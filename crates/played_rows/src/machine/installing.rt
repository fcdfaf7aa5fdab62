//! Installs the image of a class, and tries bytes that redefine none.

ghost use Rattle.std.specs.Prelude.{◌≡◌, ◌≢◌, ◌<◌, None, Some, Ok, true, false, length};
ghost use Rattle.std.specs.Prelude.{IfNone, IfOk, IfSome};
ghost use Rattle.jvm_machine.specs.Installs.{with_class};
ghost use Rattle.std.specs.Option.{option_copied};
ghost use Rattle.jvm_model.specs.Basis.Programs.{class_at};
ghost use Rattle.played_rows.specs.declared.machine.line.Line.TheVariants.{Installed, Refused};
ghost use Rattle.played_rows.specs.Machine.Played.{FitsMarks, IsNotRedefined, IsNotUnfit, IsOtherwise};
ghost use Rattle.played_rows.specs.Machine.Ready.{IsImageFile, IsReady, IsUnfit};

use crate::machine::turns::Difference;
use class_shape::{SwapError, read_swap};
use class_writer::write_class;
use const_pool::ClassFile;
use hotswap::{first_number, redefine};
use inject_events::{Image, instrument, marked_have_code};
use jf_bytes::NoMemory;
use jvm_machine::Vm;
use jvm_model::Mark;
use std::alloc::Global;

/// The class at this position of the machine's program.
fn class_at(vm: &Vm, class: u32) -> Option<&ClassFile>
    ensures { option_copied result ≡ class_at vm.now.program class }
{
    vm.program().classes.get(class as usize)
}

/// The image of a class for these marks, where they are one for each method, and no method without Code is marked.
fn image_of(alloc: Global, vm: &Vm, class: u32, marks: &[Mark]) -> Result<Option<Image>, NoMemory>
    requires { IsReady vm.now }
    ensures image { IfOk result (λ found. IfSome found (λ image.
        IsImageFile vm.now.program class marks.now image.class image.homes)) }
    ensures unfit { IfOk result (λ found. IfNone found
        (FitsMarks vm.now.program class marks.now → ⊥)) }
{
    let Some(original) = class_at(vm, class) else {
        return Ok(None);
    };
    if marks.len() != original.methods.len() {
        return Ok(None);
    }
    if !marked_have_code(marks, original.methods.as_slice()) {
        return Ok(None);
    }
    let first = first_number(vm.program(), class);
    match instrument(alloc, original, first, marks) {
        Ok(image) => Ok(Some(image)),
        Err(_) => Err(NoMemory),
    }
}

/// Redefines a class by its image for these marks, which is read from its bytes.
pub fn install(
    alloc: Global,
    vm: &mut Vm,
    class: u32,
    marks: &[Mark],
) -> Result<Option<Difference>, NoMemory>
    requires { IsReady vm.old }
    ensures installed { result ≡ Ok None → vm.new ≡ with_class class marks.now vm.old }
    ensures ready { result ≡ Ok None → IsReady vm.new }
    ensures otherwise { IfOk result (λ told. IfSome told
        (IsOtherwise vm.old (Installed class marks.now))) }
{
    if !vm.linker().is_loaded(class) {
        return Ok(Some(Difference::NotMarked));
    }
    let Some(image) = image_of(alloc, vm, class, marks)? else {
        return Ok(Some(Difference::NotMarked));
    };
    let bytes = write_class(alloc, &image.class)?;
    match redefine(alloc, vm, class, &bytes, marks, image.homes.as_slice()) {
        Ok(()) => Ok(None),
        Err(SwapError::NoMemory) => Err(NoMemory),
        Err(refusal) => Ok(Some(Difference::Redefined(Some(refusal)))),
    }
}

/// Whether bytes redefine no class at this position.
fn is_unfit(alloc: Global, vm: &Vm, class: u32, bytes: &[u8]) -> Result<bool, NoMemory>
    ensures unfit { result ≡ Ok true → IsUnfit vm.now.program class bytes.now }
    ensures known { result ≡ Ok true → class < length vm.now.program.classes }
    ensures fit { result ≡ Ok false → IsNotUnfit vm.now.program class bytes.now }
{
    let Some(original) = class_at(vm, class) else {
        return Ok(false);
    };
    match read_swap(alloc, original, bytes) {
        Ok(_) => Ok(false),
        Err(SwapError::NoMemory) => Err(NoMemory),
        Err(_) => Ok(true),
    }
}

/// What came in place of the wanted refusal.
fn same_refusal(wanted: SwapError, came: SwapError) -> Result<Option<Difference>, NoMemory>
    ensures same { result ≡ Ok None → came ≡ wanted }
    ensures found { result ≡ Ok None → came ≢ SwapError.NoMemory }
    ensures other { IfOk result (λ told. IfSome told (λ d.
        (d ≡ Difference.Redefined (Some came)) × (came ≢ wanted) × (came ≢ SwapError.NoMemory))) }
{
    if let SwapError::NoMemory = came {
        return Err(NoMemory);
    }
    if came == wanted {
        return Ok(None);
    }
    Ok(Some(Difference::Redefined(Some(came))))
}

/// Tries to redefine a class by bytes that redefine none.
pub fn refuse(
    alloc: Global,
    vm: &mut Vm,
    class: u32,
    bytes: &[u8],
    wanted: SwapError,
) -> Result<Option<Difference>, NoMemory>
    requires { IsReady vm.old }
    ensures refused { result ≡ Ok None
        → IsNotRedefined vm.old class bytes.now wanted vm.new }
    ensures ready { result ≡ Ok None → IsReady vm.new }
    ensures otherwise { IfOk result (λ told. IfSome told
        (IsOtherwise vm.old (Refused class bytes.now wanted))) }
{
    if !vm.linker().is_loaded(class) {
        return Ok(Some(Difference::NotLoaded));
    }
    if !is_unfit(alloc, vm, class, bytes)? {
        return Ok(Some(Difference::NotRefused));
    }
    match redefine(alloc, vm, class, bytes, &[], &[]) {
        Ok(()) => Ok(Some(Difference::Redefined(None))),
        Err(came) => same_refusal(wanted, came),
    }
}
