//! Plays the lines of a row on a machine.

ghost use Rattle.std.specs.Prelude.{◌≡◌, ◌≢◌, None, Some, Ok, map, IfOk, IfSome};
ghost use Rattle.jvm_machine.specs.declared.turn.Turn.TheVariants.{NoMemory as of_memory};
ghost use Rattle.played_rows.specs.declared.machine.line.Line.TheVariants.{Ran, Turned};
ghost use Rattle.played_rows.specs.Machine.Played.{FailsAt, IsOtherwise, IsPlayed};
ghost use Rattle.played_rows.specs.Machine.Played.{IsRun, IsTurned, PlaysAll};
ghost use Rattle.played_rows.specs.Machine.Ready.{IsFresh, IsReady};

use crate::machine::installing::{install, refuse};
use crate::machine::line::{Line, Placed};
use crate::machine::turns::{Difference, is_same_turn};
use jf_bytes::NoMemory;
use jvm_machine::{Turn, Vm};
use jvm_model::Ending;
use std::alloc::Global;
use std::fmt;

/// The most steps of a row, and the most of one call.
const MOST_STEPS: u64 = 1_000_000_000_000;

/// A line of which another thing came.
#[derive(Drop)]
pub struct Failure {
    pub number: usize,
    pub difference: Difference,
}

impl fmt::Display for Failure {
    fn fmt<W: fmt::Write>(&self, f: &mut fmt::Formatter<W>) -> fmt::Result {
        write!(f, "line {}: {}", self.number, self.difference)
    }
}

/// What came in place of the wanted turn.
fn turn_compared(
    wanted: &Turn,
    clock: u64,
    came: Turn,
    now: u64,
) -> Result<Option<Difference>, NoMemory>
    ensures turn { result ≡ Ok None → came ≡ wanted.now }
    ensures clock { result ≡ Ok None → now ≡ clock }
    ensures found { result ≡ Ok None → came ≢ of_memory }
    ensures other { IfOk result (λ told. IfSome told (λ d.
        (d ≡ Difference.Turned came now) × (came ≡ wanted.now → now ≢ clock))) }
{
    if let Turn::NoMemory = came {
        return Err(NoMemory);
    }
    if is_same_turn(wanted, &came) && now == clock {
        return Ok(None);
    }
    Ok(Some(Difference::Turned(came, now)))
}

/// Asks for one turn.
fn turn(vm: &mut Vm, wanted: &Turn, clock: u64) -> Result<Option<Difference>, NoMemory>
    requires { IsReady vm.old }
    ensures turned { result ≡ Ok None → IsTurned vm.old wanted.now clock vm.new }
    ensures ready { result ≡ Ok None → IsReady vm.new }
    ensures otherwise { IfOk result (λ told. IfSome told
        (IsOtherwise vm.old (Turned wanted.now clock))) }
{
    if vm.clock() > MOST_STEPS {
        return Ok(Some(Difference::NotAsked));
    }
    let came = vm.step();
    turn_compared(wanted, clock, came, vm.clock())
}

/// Asks for several steps, where no step is in hand.
fn run(vm: &mut Vm, most: u64, wanted: &Turn, clock: u64) -> Result<Option<Difference>, NoMemory>
    requires { IsReady vm.old }
    ensures ran { result ≡ Ok None → IsRun vm.old most wanted.now clock vm.new }
    ensures ready { result ≡ Ok None → IsReady vm.new }
    ensures otherwise { IfOk result (λ told. IfSome told
        (IsOtherwise vm.old (Ran most wanted.now clock))) }
{
    if vm.clock() > MOST_STEPS || most > MOST_STEPS || most == 0 || !vm.is_resting() {
        return Ok(Some(Difference::NotAsked));
    }
    let came = vm.run_on(most);
    turn_compared(wanted, clock, came, vm.clock())
}

fn same_ending(wanted: Ending, came: Option<Ending>) -> Option<Difference>
    ensures same { result ≡ None → came ≡ Some wanted }
    ensures other { IfSome result (λ d. (d ≡ Difference.Ended came) × (came ≢ Some wanted)) }
{
    match came {
        Some(ending) if ending == wanted => None,
        other => Some(Difference::Ended(other)),
    }
}

fn same_output(wanted: &[u8], came: &[u8]) -> Option<Difference>
    ensures same { result ≡ None → came.now ≡ wanted.now }
    ensures other { IfSome result (λ d. (d ≡ Difference.Printed) × (came.now ≢ wanted.now)) }
{
    if came == wanted {
        return None;
    }
    Some(Difference::Printed)
}

fn same_count(wanted: u32, came: u32) -> Option<Difference>
    ensures same { result ≡ None → came ≡ wanted }
    ensures other { IfSome result (λ d. (d ≡ Difference.Lives came) × (came ≢ wanted)) }
{
    if came == wanted {
        return None;
    }
    Some(Difference::Lives(came))
}

/// Plays a line.
fn play(alloc: Global, vm: &mut Vm, line: &Line) -> Result<Option<Difference>, NoMemory>
    requires { IsReady vm.old }
    ensures played { result ≡ Ok None → IsPlayed line.now vm.old vm.new }
    ensures ready { result ≡ Ok None → IsReady vm.new }
    ensures otherwise { IfOk result (λ told. IfSome told (IsOtherwise vm.old line.now)) }
{
    match line {
        Line::Turned(wanted, clock) => turn(vm, wanted, *clock),
        Line::Ran(most, wanted, clock) => run(vm, *most, wanted, *clock),
        Line::Installed(class, marks) => install(alloc, vm, *class, marks.as_slice()),
        Line::Refused(class, bytes, refusal) => {
            refuse(alloc, vm, *class, bytes.as_slice(), *refusal)
        }
        Line::Ended(wanted) => Ok(same_ending(*wanted, vm.ending())),
        Line::Printed(wanted) => Ok(same_output(wanted.as_slice(), vm.output())),
        Line::Lives(wanted) => Ok(same_count(*wanted, vm.live())),
    }
}

/// Plays the lines of a row, up to the first of which another thing comes.
pub fn play_all(alloc: Global, vm: &mut Vm, lines: &[Placed]) -> Result<Option<Failure>, NoMemory>
    requires { IsFresh vm.old }
    ensures came { result ≡ Ok None → PlaysAll (map (λ l. l.line) lines.now) vm.old }
    ensures failed { IfOk result (λ told. IfSome told (λ f. FailsAt lines.now f vm.old)) }
{
    for placed in lines {
        if let Some(difference) = play(alloc, vm, &placed.line)? {
            return Ok(Some(Failure {
                number: placed.number,
                difference,
            }));
        }
    }
    Ok(None)
}
