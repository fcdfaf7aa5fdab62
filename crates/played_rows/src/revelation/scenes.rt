//! A program whose classes are loaded and whose methods are entered and selected as a row says.

ghost use Rattle.std.specs.Prelude.{◌≡◌, true, false, IfOk, OnOk};
ghost use Rattle.jvm_model.specs.Basis.KindNumbers.{user_count};
ghost use Rattle.jvm_model.specs.Classes.Load.{is_among};
ghost use Rattle.jvm_model.specs.Profiling.Points.{has_class};
ghost use Rattle.class_linker.specs.Linkers.{linker_of};
ghost use Rattle.program_fit.specs.Runnable.{IsAdmitted};
ghost use Rattle.call_revelation.specs.Reveals.{now_of};
ghost use Rattle.played_rows.specs.declared.revelation.item.Happening.TheVariants.{Loaded as class_loaded, Entered, Selected, Deselected, Quiet, Shown};
ghost use Rattle.played_rows.specs.Revelation.Judging.{root_name};
ghost use Rattle.played_rows.specs.Revelation.Scenes.{HasHappened, IsBlank, IsFollowed, IsFresh, IsLinked, IsReady, loading};

use crate::revelation::spent::{Spent, nanoseconds};
use call_revelation::Reveal;
use class_linker::{Linker, Loaded};
use jf_bytes::{NoMemory, Text16};
use jvm_model::Program;
use std::alloc::Global;
use std::time::CpuClock;
use text_coding::from_utf8;

/// What is loaded, what is selected, entered and marked, and what was taken.
#[derive(Drop)]
pub struct Scene {
    pub linker: Linker,
    pub reveal: Reveal,
    pub spent: Spent,
}

// ---- classes are loaded

/// The linker loads the class of this name with what it needs.
fn link(linker: &mut Linker, name: &Text16) -> Result<(), NoMemory>
    ensures linked { IsLinked linker.old linker.new }
    ensures loaded { OnOk result (linker.new ≡ loading name.now linker.old) }
{
    match linker.load(name) {
        Loaded::New(..) => Ok(()),
        Loaded::Already(..) => Ok(()),
        Loaded::Throws(..) => Ok(()),
        Loaded::NoMemory => Err(NoMemory),
    }
}

/// The revelation takes what the linker has loaded more.
pub fn follow(alloc: Global, linker: &Linker, reveal: &mut Reveal) -> Result<(), NoMemory>
    requires { IsReady linker.now reveal.old }
    ensures { OnOk result (IsFollowed linker.now reveal.old reveal.new) }
{
    reveal.loaded(alloc, linker)
}

/// The class of this name is loaded with what it needs.
pub fn load<R: CpuClock>(
    rt: &R,
    alloc: Global,
    scene: &mut Scene,
    name: &Text16,
) -> Result<(), NoMemory>
    requires { IsReady scene.old.linker scene.old.reveal }
    ensures { OnOk result (HasHappened (class_loaded name.now) scene.old.linker scene.old.reveal
        scene.new.linker scene.new.reveal) }
{
    let start = nanoseconds(rt.thread_cpu_time());
    link(&mut scene.linker, name)?;
    let linked = nanoseconds(rt.thread_cpu_time());
    follow(alloc, &scene.linker, &mut scene.reveal)?;
    let end = nanoseconds(rt.thread_cpu_time());
    scene
        .spent
        .add(linked.saturating_sub(start), end.saturating_sub(linked));
    Ok(())
}

// ---- the start

/// Nothing is loaded.
fn blank_scene(alloc: Global, program: Program) -> Result<Scene, NoMemory>
    requires { IsAdmitted program }
    ensures blank { IfOk result (λ s. IsBlank s.linker s.reveal) }
    ensures linker { IfOk result (λ s. s.linker ≡ linker_of program) }
{
    let mut reveal = Reveal::new(alloc, &program)?;
    reveal.show(&program);
    let linker = Linker::new(alloc, program)?;
    Ok(Scene {
        linker,
        reveal,
        spent: Spent {
            linker: 0,
            revelation: 0,
        },
    })
}

/// The same, in a place of its own.
pub fn new_scene(alloc: Global, program: Program) -> Result<Box<Scene>, NoMemory>
    requires { IsAdmitted program }
    ensures blank { IfOk result (λ s. IsBlank s.value.linker s.value.reveal) }
    ensures linker { IfOk result (λ s. s.value.linker ≡ linker_of program) }
{
    let scene = blank_scene(alloc, program)?;
    let place = Box::new(alloc, scene)?;
    Ok(place)
}

/// Loads java/lang/Object. Whether it could be.
pub fn begin(alloc: Global, scene: &mut Scene) -> Result<bool, NoMemory>
    requires { IsBlank scene.old.linker scene.old.reveal }
    ensures fresh { IfOk result (λ began. began ≡ true →
        IsFresh scene.new.linker scene.new.reveal) }
    ensures loaded { IfOk result (λ began.
        scene.new.linker ≡ loading root_name scene.old.linker) }
    ensures rootless { IfOk result (λ began. began ≡ false →
        is_among (user_count scene.new.linker.program) scene.new.linker.loaded ≡ false) }
{
    let name = from_utf8(alloc, "java/lang/Object")?;
    link(&mut scene.linker, &name)?;
    if !scene.linker.is_loaded(scene.linker.index().user_count()) {
        return Ok(false);
    }
    follow(alloc, &scene.linker, &mut scene.reveal)?;
    Ok(true)
}

// ---- methods are entered and selected

/// Whether the class of a method is loaded.
pub fn has_class(linker: &Linker, method: u32) -> bool
    ensures { result ≡ has_class linker.now.program linker.now.loaded method }
{
    match linker.program().methods.at(method as usize) {
        Some(place) => linker.is_loaded(place.class),
        None => false,
    }
}

/// The method, whose class the revelation knows as loaded, is entered.
fn enter_once(
    alloc: Global,
    linker: &Linker,
    reveal: &mut Reveal,
    method: u32,
) -> Result<(), NoMemory>
    requires ready { IsReady linker.now reveal.old }
    requires class { has_class linker.now.program (now_of reveal.old).loaded method ≡ true }
    ensures entered { OnOk result (HasHappened (Entered method 1) linker.now reveal.old
        linker.now reveal.new) }
    ensures class { OnOk result
        (has_class linker.now.program (now_of reveal.new).loaded method ≡ true) }
{
    reveal.entered(alloc, linker, method)
}

/// The method, whose class is loaded, is entered so many times.
pub fn enter<R: CpuClock>(
    rt: &R,
    alloc: Global,
    scene: &mut Scene,
    method: u32,
    times: u32,
) -> Result<(), NoMemory>
    requires ready { IsReady scene.old.linker scene.old.reveal }
    requires class { has_class scene.old.linker.program scene.old.linker.loaded method ≡ true }
    ensures { OnOk result (HasHappened (Entered method times) scene.old.linker scene.old.reveal
        scene.new.linker scene.new.reveal) }
{
    let start = nanoseconds(rt.thread_cpu_time());
    follow(alloc, &scene.linker, &mut scene.reveal)?;
    for _ in 0..times {
        enter_once(alloc, &scene.linker, &mut scene.reveal, method)?;
    }
    let end = nanoseconds(rt.thread_cpu_time());
    scene.spent.add(0, end.saturating_sub(start));
    Ok(())
}

/// A method is selected: what begins in it is a root.
pub fn select(
    alloc: Global,
    linker: &Linker,
    reveal: &mut Reveal,
    method: u32,
) -> Result<(), NoMemory>
    requires { IsReady linker.now reveal.old }
    ensures { OnOk result (HasHappened (Selected method) linker.now reveal.old
        linker.now reveal.new) }
{
    reveal.selected(alloc, method)
}

/// A method is selected no more.
pub fn deselect(
    alloc: Global,
    linker: &Linker,
    reveal: &mut Reveal,
    method: u32,
) -> Result<(), NoMemory>
    requires { IsReady linker.now reveal.old }
    ensures { OnOk result (HasHappened (Deselected method) linker.now reveal.old
        linker.now reveal.new) }
{
    reveal.deselected(alloc, method)
}

/// No method is entered any more.
pub fn quiet(linker: &Linker, reveal: &mut Reveal) -> Result<(), NoMemory>
    requires { IsReady linker.now reveal.old }
    ensures { OnOk result (HasHappened Quiet linker.now reveal.old linker.now reveal.new) }
{
    reveal.quiet()
}

/// Shows the marks: later ones are compared with them.
pub fn show(alloc: Global, linker: &Linker, reveal: &mut Reveal) -> Result<(), NoMemory>
    requires { IsReady linker.now reveal.old }
    ensures { OnOk result (HasHappened Shown linker.now reveal.old linker.now reveal.new) }
{
    follow(alloc, linker, reveal)?;
    reveal.show(linker.program());
    Ok(())
}
