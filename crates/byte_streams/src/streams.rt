//! Where bytes come from and where they go: sources, sinks and files, as their callers see them.
//!
//! Each object may tell what it has left, what it has taken or which files it holds; one that does not know tells
//! nothing. Each has a count of faults, a u64 that never falls. A call that answers `Ok` leaves the count as it was. A
//! call answers `Failed` only where the count rose in it, or where the count stands at the greatest u64, from which it
//! can't rise. Want of memory is no fault.

ghost use Rattle.std.specs.Prelude.{◌≡◌, ◌<◌, ◌≤◌, ◌↔◌, ℕ, List, [], length, IfOk, IfSome, OnOk, OnErr, IsErr};
ghost use Rattle.std.specs.declared.option.Option.{Option};
ghost use Rattle.byte_streams.specs.Streams.{HasCause, TakesPrefix, PutsAll, PutsPrefix, FetchCause, Told, IsFetched, IsAbsent, NamesLast};

use crate::error::{Failed, FetchError};
use std::alloc::Global;

/// Bytes that come one buffer at a time.
pub trait Source {
    /// The bytes that are left, where the source tells them.
    ghost left: { Self → Option (List ℕ) };

    /// How many faults there were.
    ghost faults: { Self → ℕ };

    /// Gives the next bytes at the front of the buffer, at least one, and answers how many. `Ok(0)` says that nothing
    /// is left. A take that fails leaves what is left as it was.
    fn take(&mut self, buf: &mut [u8]) -> Result<usize, Failed>
        requires { 0 < length buf.old }
        ensures within { IfOk result (λ n. n ≤ length buf.new) }
        ensures prefix { IfOk result (TakesPrefix (left self.old) (left self.new) buf.new) }
        ensures end { IfOk result (λ n. IfSome (left self.old) (λ old. (n ≡ 0) ↔ (old ≡ []))) }
        ensures stays { OnErr result (left self.new ≡ left self.old) }
        ensures cause { HasCause (faults self.old) (faults self.new) result };
}

/// Where bytes are put, one slice after the other.
pub trait Sink {
    /// The bytes that were put so far, where the sink tells them.
    ghost taken: { Self → Option (List ℕ) };

    /// How many faults there were.
    ghost faults: { Self → ℕ };

    /// Appends all bytes. A put that fails may have appended a prefix of them.
    fn put(&mut self, bytes: &[u8]) -> Result<(), Failed>
        ensures all { OnOk result (PutsAll (taken self.old) (taken self.new) bytes.now) }
        ensures prefix { PutsPrefix (taken self.old) (taken self.new) bytes.now }
        ensures cause { HasCause (faults self.old) (faults self.new) result };
}

/// Files that are fetched whole, by name.
pub trait Files {
    /// The names, as UTF-8, and the contents of the files, where the object tells them. The first of a name counts.
    ghost contents: { Self → Option Told };

    /// How many faults there were.
    ghost faults: { Self → ℕ };

    /// The name of the last fetch that failed, as UTF-8. It is empty before the first.
    ghost last_failed: { Self → List ℕ };

    /// The contents of a file, or the first `most` + 1 bytes of a longer one. An absent file is a fault. Memory for the
    /// name, which is kept where the fetch fails, is taken before the fetch.
    fn fetch(&mut self, alloc: Global, name: &str, most: usize) -> Result<Vec<u8>, FetchError>
        ensures found { IfOk result (λ bytes.
            IsFetched (contents self.old) name.now most bytes.items) }
        ensures absent { IsAbsent (contents self.old) name.now → IsErr result }
        ensures contents_stay { contents self.new ≡ contents self.old }
        ensures cause { FetchCause (faults self.old) (faults self.new) result }
        ensures last_failed { NamesLast (last_failed self.old)
            (last_failed self.new) name.now result };
}
