//! Sources, sinks and files in memory, which fail at the calls that they are told to fail at.

ghost use Rattle.std.specs.Prelude.{◌≡◌, ◌+◌, ◌≤◌, ◌<◌, ◌↔◌, [], Some, None, ◌++◌, length, take, drop, map, min, vec_items, vec_len, string_bytes, is_err, IfOk, IsErr, OnOk, OnErr, IsErrOf, IsTrue, IsFalse};
ghost use Rattle.std.specs.List.{zip};
ghost use Rattle.std.specs.Option.{option_copied};
ghost use Rattle.byte_streams.specs.Streams.{HasCause, TakesPrefix, PutsAll, PutsPrefix, FetchCause, contents_at, IsFetched, IsAbsent, NamesLast};
ghost use Rattle.byte_streams.specs.Calls.{first_calls, is_failing, after_call};
ghost use Rattle.byte_streams.specs.Memory.{empty_sink, take_count, after_take, put_fails, after_put, fetch_fails, is_fault, after_fetch};

use crate::error::{Failed, FetchError};
use crate::streams::{Files, Sink, Source};
use jf_bytes::{NoMemory, Seq};
use std::alloc::Global;
use std::marker::Model;

/// The calls of an object in memory, numbered from 1: how many there were, the numbers of those that are to fail,
/// and the faults so far. Both counts stay at the greatest u64.
#[derive(Debug, Drop)]
struct Calls {
    made: u64,
    failing: Seq<u64>,
    faults: u64,
}

impl Calls {
    fn new(failing: Vec<u64>) -> Calls
        ensures { result ≡ first_calls failing.items }
    {
        Calls {
            made: 0,
            failing: Seq::from_vec(failing),
            faults: 0,
        }
    }

    /// Whether the next call is to fail.
    fn is_failing(&self) -> bool
        ensures { result ≡ is_failing self.now }
    {
        let made = self.made;
        self.failing
            .as_slice()
            .iter()
            .any(|number| *number > made && *number - made == 1)
    }

    /// Counts a call, and the fault where it failed.
    fn count(&mut self, failed: bool) -> Result<(), Failed>
        ensures answer { is_err result ≡ failed }
        ensures after { self.new ≡ after_call self.old failed }
        ensures cause { HasCause self.old.faults self.new.faults result }
    {
        self.made = self.made.saturating_add(1);
        if failed {
            self.faults = self.faults.saturating_add(1);
            return Err(Failed);
        }
        Ok(())
    }
}

/// Copies as many bytes as fit to the front of a buffer, and answers how many.
fn fill(bytes: &[u8], buf: &mut [u8]) -> usize
    ensures count { result ≡ min (length buf.old) (length bytes.now) }
    ensures prefix { bytes.now ≡ take result buf.new ++ drop result bytes.now }
{
    let count = buf.len().min(bytes.len());
    buf[..count].copy_from_slice(&bytes[..count]);
    count
}

/// The bytes of a `Vec` as a source. A take fails exactly where its number is one of those that are to fail, and
/// otherwise fills the buffer as far as bytes are left.
#[derive(Debug, Drop)]
pub struct MemSource {
    bytes: Seq<u8>,
    at: usize,
    calls: Calls,
}

impl Model for MemSource {
    ghost use Rattle.std.specs.Prelude.{◌≤◌, length, drop};
    ghost use Rattle.byte_streams.specs.Memory.{SourceView};

    ghost Value = { SourceView };

    ghost view = { λ s. record { left = drop s.at s.bytes; calls = s.calls } };

    ghost invariant = { λ s. s.at ≤ length s.bytes };
}

impl MemSource {
    /// A source of these bytes. The takes whose numbers are in `failing`, counted from 1, fail.
    pub fn new(bytes: Vec<u8>, failing: Vec<u64>) -> MemSource
        ensures { result ≡ record { left = bytes.items; calls = first_calls failing.items } }
    {
        MemSource {
            bytes: Seq::from_vec(bytes),
            at: 0,
            calls: Calls::new(failing),
        }
    }
}

impl Source for MemSource {
    ghost left = { λ s. Some s.left };

    ghost faults = { λ s. s.calls.faults };

    fn take(&mut self, buf: &mut [u8]) -> Result<usize, Failed>
        requires { 0 < length buf.old }
        ensures within { IfOk result (λ n. n ≤ length buf.new) }
        ensures prefix { IfOk result
            (TakesPrefix (Some self.old.left) (Some self.new.left) buf.new) }
        ensures end { IfOk result (λ n. (n ≡ 0) ↔ (self.old.left ≡ [])) }
        ensures stays { OnErr result (Some self.new.left ≡ Some self.old.left) }
        ensures cause { HasCause self.old.calls.faults self.new.calls.faults result }
        ensures fails { is_err result ≡ is_failing self.old.calls }
        ensures count { IfOk result (λ n. n ≡ take_count self.old (length buf.old)) }
        ensures after { self.new ≡ after_take self.old (length buf.old) }
    {
        let failed = self.calls.is_failing();
        self.calls.count(failed)?;
        let count = fill(&self.bytes.as_slice()[self.at..], buf);
        self.at += count;
        Ok(count)
    }
}

/// A sink that keeps what it takes, up to its room. A put fails exactly where its number is one of those that are to
/// fail, and where its bytes do not fit. One of those that are to fail appends the first half of its bytes, rounded
/// down, as far as it fits. Another that fails appends what fits.
#[derive(Debug, Drop)]
pub struct MemSink {
    bytes: Vec<u8>,
    room: usize,
    calls: Calls,
}

impl Model for MemSink {
    ghost use Rattle.std.specs.Prelude.{◌≤◌, vec_len, vec_capacity};
    ghost use Rattle.byte_streams.specs.Memory.{SinkView};

    ghost Value = { SinkView };

    ghost view = { λ s. record { bytes = s.bytes.items; room = s.room; calls = s.calls } };

    ghost invariant = { λ s. (vec_len s.bytes ≤ s.room) × (s.room ≤ vec_capacity s.bytes) };
}

impl MemSink {
    /// A sink with room for that many bytes, which is taken at once. The puts whose numbers are in `failing`, counted
    /// from 1, fail.
    pub fn new(alloc: Global, room: usize, failing: Vec<u64>) -> Result<MemSink, NoMemory>
        ensures { IfOk result (λ s. s ≡ empty_sink room failing.items) }
    {
        Ok(MemSink {
            bytes: Vec::with_capacity(alloc, room)?,
            room,
            calls: Calls::new(failing),
        })
    }

    /// The bytes that it took so far.
    pub fn bytes(&self) -> &[u8]
        ensures { result.now ≡ self.now.bytes }
    {
        self.bytes.as_slice()
    }
}

impl Sink for MemSink {
    ghost taken = { λ s. Some s.bytes };

    ghost faults = { λ s. s.calls.faults };

    fn put(&mut self, bytes: &[u8]) -> Result<(), Failed>
        ensures all { OnOk result (PutsAll (Some self.old.bytes) (Some self.new.bytes) bytes.now) }
        ensures prefix { PutsPrefix (Some self.old.bytes) (Some self.new.bytes) bytes.now }
        ensures cause { HasCause self.old.calls.faults self.new.calls.faults result }
        ensures fails { is_err result ≡ put_fails self.old bytes.now }
        ensures after { self.new ≡ after_put self.old bytes.now }
    {
        let is_failing = self.calls.is_failing();
        let wanted = if is_failing {
            bytes.len() / 2
        } else {
            bytes.len()
        };
        let count = wanted.min(self.room - self.bytes.len());
        self.bytes.extend_from_slice(&bytes[..count]).unwrap();
        self.calls.count(is_failing || count < bytes.len())
    }
}

/// The contents beside the first name that equals this one.
fn find<'a>(names: &[String], contents: &'a [Vec<u8>], name: &str) -> Option<&'a [u8]>
    requires { length names.now ≡ length contents.now }
    ensures { let files = zip (map string_bytes names.now) (map vec_items contents.now) in
        option_copied result ≡ contents_at files name.now }
{
    for (at, known) in names.iter().enumerate() {
        if known.as_str() == name {
            return Some(contents[at].as_slice());
        }
    }
    None
}

/// Files in memory. A fetch fails exactly where its number is one of those that are to fail, and where no file has the
/// name, unless memory is wanting first.
#[derive(Debug, Drop)]
pub struct MemFiles {
    names: Vec<String>,
    contents: Vec<Vec<u8>>,
    calls: Calls,
    last_failed: String,
}

impl Model for MemFiles {
    ghost use Rattle.std.specs.Prelude.{◌≡◌, map, vec_items, vec_len, string_bytes};
    ghost use Rattle.std.specs.List.{zip};
    ghost use Rattle.byte_streams.specs.Memory.{FilesView};

    ghost Value = { FilesView };

    ghost view = { λ f. record {
      contents = zip (map string_bytes f.names.items) (map vec_items f.contents.items);
      calls = f.calls;
      last_failed = string_bytes f.last_failed;
    } };

    ghost invariant = { λ f. vec_len f.names ≡ vec_len f.contents };
}

impl MemFiles {
    /// Files of these names and contents; of a repeated name the first counts. The fetches whose numbers are in
    /// `failing`, counted from 1, fail.
    pub fn new(
        alloc: Global,
        names: Vec<String>,
        contents: Vec<Vec<u8>>,
        failing: Vec<u64>,
    ) -> MemFiles
        requires { vec_len names ≡ vec_len contents }
        ensures { result ≡ record {
          contents = zip (map string_bytes names.items) (map vec_items contents.items);
          calls = first_calls failing.items;
          last_failed = [];
        } }
    {
        MemFiles {
            names,
            contents,
            calls: Calls::new(failing),
            last_failed: String::new(alloc),
        }
    }

    /// The contents of the first file of a name.
    fn find(&self, name: &str) -> Option<&[u8]>
        ensures { option_copied result ≡ contents_at self.now.contents name.now }
    {
        find(self.names.as_slice(), self.contents.as_slice(), name)
    }

    /// What the next fetch answers, but for the want of memory for the name.
    fn answer(&self, alloc: Global, name: &str, most: usize) -> Result<Vec<u8>, FetchError>
        ensures found { IfOk result (λ bytes.
            IsFetched (Some self.now.contents) name.now most bytes.items) }
        ensures given { OnOk result (IsFalse (fetch_fails self.now name.now)) }
        ensures failed { IsErrOf result FetchError.Failed → IsTrue (fetch_fails self.now name.now) }
    {
        if self.calls.is_failing() {
            return Err(FetchError::Failed);
        }
        match self.find(name) {
            Some(bytes) => {
                let count = bytes.len().min(most.saturating_add(1));
                Ok(Vec::from_slice(alloc, &bytes[..count])?)
            }
            None => Err(FetchError::Failed),
        }
    }

    /// Counts a fetch, and keeps its name where it failed.
    fn settle(
        &mut self,
        name: String,
        answer: Result<Vec<u8>, FetchError>,
    ) -> Result<Vec<u8>, FetchError>
        ensures same { result ≡ answer }
        ensures after { self.new ≡ after_fetch self.old (string_bytes name) (is_fault answer) }
        ensures cause { FetchCause self.old.calls.faults self.new.calls.faults result }
    {
        let failed = matches!(answer, Err(FetchError::Failed));
        if failed {
            self.last_failed = name;
        }
        self.calls.count(failed)?;
        answer
    }
}

impl Files for MemFiles {
    ghost contents = { λ f. Some f.contents };

    ghost faults = { λ f. f.calls.faults };

    ghost last_failed = { λ f. f.last_failed };

    fn fetch(&mut self, alloc: Global, name: &str, most: usize) -> Result<Vec<u8>, FetchError>
        ensures found { IfOk result (λ bytes.
            IsFetched (Some self.old.contents) name.now most bytes.items) }
        ensures absent { IsAbsent (Some self.old.contents) name.now → IsErr result }
        ensures contents_stay { self.new.contents ≡ self.old.contents }
        ensures cause { FetchCause self.old.calls.faults self.new.calls.faults result }
        ensures last_failed { NamesLast self.old.last_failed self.new.last_failed name.now result }
        ensures given { OnOk result (IsFalse (fetch_fails self.old name.now)) }
        ensures failed { IsErrOf result FetchError.Failed → IsTrue (fetch_fails self.old name.now) }
        ensures after { self.new ≡ after_fetch self.old name.now (is_fault result) }
    {
        let Ok(kept) = String::from_str(alloc, name) else {
            self.calls.count(false)?;
            return Err(FetchError::NoMemory);
        };
        let answer = self.answer(alloc, name, most);
        self.settle(kept, answer)
    }
}
