//! The bytes of the probes (JVM Specification 6.5, athrow, invokestatic and sipush).

ghost use Rattle.std.specs.Prelude.{◌≡◌, [], ◌∷◌, ◌++◌};
ghost use Rattle.jvm_model.specs.Rewriting.Versions.{probe_bytes};
ghost use Rattle.inject_events.specs.Settings.{entry_in, probes_in};

use const_pool::Tail;
use jvm_model::Mark;
use op_table::{ATHROW, INVOKESTATIC, SIPUSH};

/// What a version has beside the original instructions.
#[derive(Debug, Drop)]
pub struct Probes {
    /// At the entry.
    pub entry: [u8; 6],
    /// In front of each return.
    pub leave: [u8; 6],
    /// Behind the code: the unwind probe, and athrow.
    pub unwind: [u8; 7],
}

/// A probe pushes the low sixteen bits of the method's number and invokes the method at this index.
fn probe(number: u32, index: u16) -> [u8; 6]
    ensures { result ≡ probe_bytes number index }
{
    let [_, _, number_high, number_low] = number.to_be_bytes();
    let [index_high, index_low] = index.to_be_bytes();
    [
        SIPUSH,
        number_high,
        number_low,
        INVOKESTATIC,
        index_high,
        index_low,
    ]
}

/// The unwind probe at this index, and then the exception is thrown on.
fn unwind(number: u32, index: u16) -> [u8; 7]
    ensures { result ≡ probe_bytes number index ++ 191 ∷ [] }
{
    let [push, number_high, number_low, invoke, index_high, index_low] = probe(number, index);
    [
        push,
        number_high,
        number_low,
        invoke,
        index_high,
        index_low,
        ATHROW,
    ]
}

/// Which method of the probe class is told at the entry.
fn entry_in(tail: &Tail, mark: Mark) -> u16
    ensures { result ≡ entry_in tail.now mark }
{
    match mark {
        Mark::Root => tail.root,
        Mark::Plain | Mark::Off => tail.enter,
    }
}

/// The probes of the method with this number.
pub(crate) fn probes_in(tail: &Tail, number: u32, mark: Mark) -> Probes
    ensures { result ≡ probes_in tail.now number mark }
{
    Probes {
        entry: probe(number, entry_in(tail, mark)),
        leave: probe(number, tail.leave),
        unwind: unwind(number, tail.unwind),
    }
}
