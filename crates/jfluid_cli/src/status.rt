//! The top call where nothing of what was run is kept.

ghost use Rattle.std.specs.Prelude.{◌≡◌, Option};
ghost use Rattle.jfluid_cli.specs.Calls.{IsAnswered, call_of};
ghost use Rattle.jfluid_cli.specs.declared.kept.Kept.{Kept};

use crate::devices::Devices;
use crate::top::jfluid;
use byte_streams::{Files, Sink, Source};
use jf_bytes::{NoMemory, Seq};
use std::alloc::Global;

/// Does what the words say as `jfluid` does, and answers the exit status. What was run is dropped here: a program that
/// held it would prove the drops of all its parts once more.
pub fn exit_status<F: Files, I: Source, O: Sink, P: Sink, G: Sink>(
    alloc: Global,
    words: Result<Seq<Seq<u8>>, NoMemory>,
    devices: &mut Devices<F, I, O, P, G>,
) -> u8
    ensures stay { devices.new.told ≡ devices.old.told }
    ensures answered { (kept : Option Kept) ×
        IsAnswered (call_of words devices.old devices.new kept) result }
{
    jfluid(alloc, words, devices, &mut None)
}
