//! Plays what a row says.

ghost use Rattle.std.specs.Prelude.{IfOk};
ghost use Rattle.played_rows.specs.declared.revelation.item.Happening.TheVariants.{Entered};
ghost use Rattle.played_rows.specs.declared.revelation.item.Item.TheVariants.{Happens, Is};
ghost use Rattle.played_rows.specs.Revelation.Rows.{Comes, first};
ghost use Rattle.played_rows.specs.Revelation.Scenes.{ComesTo, IsFresh, IsReady};

use crate::revelation::item::{Difference, Fact, Happening, Item};
use crate::revelation::looking::{fact_told, is_same};
use crate::revelation::scenes::{Scene, deselect, enter, has_class, load, quiet, select, show};
use call_revelation::Reveal;
use class_linker::Linker;
use jf_bytes::NoMemory;
use std::alloc::Global;
use std::time::CpuClock;

/// A method is entered so many times, where its class is loaded.
fn enter_loaded<R: CpuClock>(
    rt: &R,
    alloc: Global,
    scene: &mut Scene,
    method: u32,
    times: u32,
) -> Result<Option<Difference>, NoMemory>
    requires { IsReady scene.old.linker scene.old.reveal }
    ensures { IfOk result (ComesTo (Happens (Entered method times))
        scene.old.linker scene.old.reveal scene.new.linker scene.new.reveal) }
{
    if !has_class(&scene.linker, method) {
        return Ok(Some(Difference::NotLoaded));
    }
    enter(rt, alloc, scene, method, times)?;
    Ok(None)
}

/// Something happens, where it can.
fn happen<R: CpuClock>(
    rt: &R,
    alloc: Global,
    scene: &mut Scene,
    happening: &Happening,
) -> Result<Option<Difference>, NoMemory>
    requires { IsReady scene.old.linker scene.old.reveal }
    ensures { IfOk result (ComesTo (Happens happening.now)
        scene.old.linker scene.old.reveal scene.new.linker scene.new.reveal) }
{
    match happening {
        Happening::Loaded(name) => {
            load(rt, alloc, scene, name)?;
            Ok(None)
        }
        Happening::Entered(method, times) => enter_loaded(rt, alloc, scene, *method, *times),
        Happening::Selected(method) => {
            select(alloc, &scene.linker, &mut scene.reveal, *method)?;
            Ok(None)
        }
        Happening::Deselected(method) => {
            deselect(alloc, &scene.linker, &mut scene.reveal, *method)?;
            Ok(None)
        }
        Happening::Quiet => {
            quiet(&scene.linker, &mut scene.reveal)?;
            Ok(None)
        }
        Happening::Shown => {
            show(alloc, &scene.linker, &mut scene.reveal)?;
            Ok(None)
        }
    }
}

/// What is the case in place of a fact, if it is not.
fn look(
    alloc: Global,
    linker: &Linker,
    reveal: &mut Reveal,
    fact: &Fact,
) -> Result<Option<Difference>, NoMemory>
    requires { IsReady linker.now reveal.old }
    ensures { IfOk result (ComesTo (Is fact.now)
        linker.now reveal.old linker.now reveal.new) }
{
    match fact_told(alloc, linker, reveal, fact)? {
        Some(came) => {
            if is_same(fact, &came) {
                return Ok(None);
            }
            Ok(Some(Difference::Came(came)))
        }
        None => Ok(Some(Difference::NotLoaded)),
    }
}

/// Plays what one item says.
fn play<R: CpuClock>(
    rt: &R,
    alloc: Global,
    scene: &mut Scene,
    item: &Item,
) -> Result<Option<Difference>, NoMemory>
    requires { IsReady scene.old.linker scene.old.reveal }
    ensures { IfOk result (ComesTo item.now
        scene.old.linker scene.old.reveal scene.new.linker scene.new.reveal) }
{
    match item {
        Item::Happens(happening) => happen(rt, alloc, scene, happening),
        Item::Is(fact) => look(alloc, &scene.linker, &mut scene.reveal, fact),
    }
}

/// Plays what a row says in order, up to the first item that does not come as it says, and tells what came in its
/// place.
pub fn play_all<R: CpuClock>(
    rt: &R,
    alloc: Global,
    scene: &mut Scene,
    items: &[Item],
) -> Result<Option<Difference>, NoMemory>
    requires { IsFresh scene.old.linker scene.old.reveal }
    ensures { IfOk result (Comes scene.old.linker.program items.now
        (first scene.old.linker.loaded)) }
{
    for item in items {
        if let Some(difference) = play(rt, alloc, scene, item)? {
            return Ok(Some(difference));
        }
    }
    Ok(None)
}
