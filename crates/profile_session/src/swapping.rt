//! The classes whose marks have changed are swapped.

ghost use Rattle.std.specs.Prelude.{◌≡◌, ◌≤◌, ◌<◌, false, length, map, IfOk, MatchResult};
ghost use Rattle.std.specs.List.{range_with_len};
ghost use Rattle.inject_events.specs.Answers.{MarkedHaveCode};
ghost use Rattle.jvm_machine.specs.Installs.{with_class};
ghost use Rattle.jvm_machine.specs.View.{world};
ghost use Rattle.call_revelation.specs.Reveals.{IsRevelation, now_of};
ghost use Rattle.profile_session.specs.Images.{AreImageable, class_in, marks_for};
ghost use Rattle.profile_session.specs.Keeping.{swap_now};
ghost use Rattle.profile_session.specs.Swapping.{AreKnown, HasSwapped, IsImaged, IsMade, mark_at_position};

use crate::swap::Swap;
use call_revelation::Reveal;
use class_writer::write_class;
use code_model::Homes;
use hotswap::{SwapError, first_number, redefine};
use inject_events::{Image, InjectError, instrument};
use jf_bytes::{NoMemory, Seq};
use jvm_machine::Vm;
use jvm_model::{Mark, Program};
use std::alloc::Global;

/// What redefines a class: the marks of its methods, and the bytes and homes of its image.
#[derive(Drop)]
pub struct Redefinition {
    pub marks: Vec<Mark>,
    pub bytes: Vec<u8>,
    pub homes: Seq<Option<Homes>>,
}

/// The mark of the method at a position of a class; one without Code has none but Off.
fn mark_at_position(reveal: &Reveal, program: &Program, class: u32, position: u16) -> Mark
    requires { IsRevelation program.now reveal.now }
    ensures { result ≡ mark_at_position program.now (now_of reveal.now) class position }
{
    match reveal.numbers.number(class, position) {
        Some(method) => reveal.mark(program, method),
        None => Mark::Off,
    }
}

/// The marks of so many methods of a class, in its order.
fn marks_of(
    alloc: Global,
    reveal: &Reveal,
    program: &Program,
    class: u32,
    count: usize,
) -> Result<Vec<Mark>, NoMemory>
    requires revelation { IsRevelation program.now reveal.now }
    requires few { count ≤ 65535 }
    ensures { let mark = mark_at_position program.now (now_of reveal.now) class in
        IfOk result (λ marks. marks.items ≡ map mark (range_with_len 0 count)) }
{
    let mut marks = Vec::with_capacity(alloc, count)?;
    for position in 0..count {
        marks.push(mark_at_position(reveal, program, class, position as u16))?;
    }
    Ok(marks)
}

/// The image of a class for these marks.
fn image_for(
    alloc: Global,
    program: &Program,
    class: u32,
    marks: &[Mark],
) -> Result<Image, NoMemory>
    requires known { class < length program.now.classes }
    requires imageable { AreImageable program.now }
    requires count { length marks.now ≡ length (class_in program.now class).methods }
    requires coded { MarkedHaveCode marks.now (class_in program.now class).methods }
    ensures { IfOk result (IsImaged program.now class marks.now) }
{
    let Some(original) = program.classes.get(class as usize) else {
        unreachable!()
    };
    match instrument(alloc, original, first_number(program, class), marks) {
        Ok(image) => Ok(image),
        Err(InjectError::NotProfilable(..)) => unreachable!(),
        Err(InjectError::NoMemory) => Err(NoMemory),
    }
}

/// How many methods a class has.
fn method_count(program: &Program, class: u32) -> usize
    ensures { result ≡ length (class_in program.now class).methods }
{
    match program.classes.get(class as usize) {
        Some(original) => original.methods.len(),
        None => 0,
    }
}

/// What redefines a class for the marks of now.
fn make(
    alloc: Global,
    reveal: &Reveal,
    program: &Program,
    class: u32,
) -> Result<Redefinition, NoMemory>
    requires revelation { IsRevelation program.now reveal.now }
    requires known { class < length program.now.classes }
    requires imageable { AreImageable program.now }
    ensures { IfOk result (IsMade program.now (now_of reveal.now) class) }
{
    let count = method_count(program, class);
    let marks = marks_of(alloc, reveal, program, class, count)?;
    let Image {
        class: image,
        homes,
    } = image_for(alloc, program, class, &marks)?;
    let bytes = write_class(alloc, &image)?;
    Ok(Redefinition {
        marks,
        bytes,
        homes,
    })
}

/// Makes the image of a class for the marks of now, and redefines the class by its bytes.
fn swap_class(alloc: Global, vm: &mut Vm, reveal: &Reveal, class: u32) -> Result<Swap, NoMemory>
    requires whole { vm.old.broken ≡ false }
    requires revelation { IsRevelation vm.old.program reveal.now }
    requires known { class < length vm.old.program.classes }
    requires imageable { AreImageable vm.old.program }
    ensures swap { let p = vm.old.program in
        IfOk result (λ swap. swap ≡ swap_now p vm.old.clock (now_of reveal.now) class) }
    ensures vm { let marks = marks_for vm.old.program (now_of reveal.now) class in
        MatchResult result (λ swap. vm.new ≡ with_class class marks vm.old)
        (λ e. world vm.new ≡ world vm.old) }
{
    let clock = vm.clock();
    let made = make(alloc, reveal, vm.program(), class)?;
    match redefine(
        alloc,
        vm,
        class,
        &made.bytes,
        &made.marks,
        made.homes.as_slice(),
    ) {
        Ok(()) => Ok(Swap {
            clock,
            class,
            image: Seq::from_vec(made.bytes),
        }),
        Err(SwapError::NoMemory) => Err(NoMemory),
        // Its bytes spell an image of the class.
        Err(SwapError::Unreadable(_)) => unreachable!(),
        Err(SwapError::NotSameShape(_)) => unreachable!(),
    }
}

/// Swaps these classes, one after another, and keeps each in the list.
pub fn swap_all(
    alloc: Global,
    vm: &mut Vm,
    reveal: &Reveal,
    swaps: &mut Seq<Swap>,
    classes: &[u32],
) -> Result<(), NoMemory>
    requires whole { vm.old.broken ≡ false }
    requires revelation { IsRevelation vm.old.program reveal.now }
    requires known { AreKnown vm.old.program classes.now }
    requires imageable { AreImageable vm.old.program }
    ensures { let now = now_of reveal.now in MatchResult result
        (λ ok. HasSwapped vm.old.program now classes.now vm.old vm.new swaps.old swaps.new)
        (λ e. world vm.new ≡ world vm.old) }
{
    for class in classes {
        let swap = swap_class(alloc, vm, reveal, *class)?;
        let Ok(()) = swaps.push(swap) else {
            return Err(NoMemory);
        };
    }
    Ok(())
}
