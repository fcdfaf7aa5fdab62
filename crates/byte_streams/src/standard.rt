//! The library's readers and writers as sources and sinks, which count their faults.

ghost use Rattle.std.specs.Prelude.{◌≡◌, ◌≤◌, ◌<◌, [], None, length, take, IfOk, OnOk, OnErr, IsOk};
ghost use Rattle.std.specs.Io.KnownBytes.{Appends, IsAtEnd, Keeps};
ghost use Rattle.byte_streams.specs.Streams.{HasCause};
ghost use Rattle.byte_streams.specs.Adapters.{ReadsFirst, WritesFirst, WritesPrefix};

use crate::error::Failed;
use crate::streams::{Sink, Source};
use std::io::{ErrorKind, Read, Write};
use std::marker::Model;

/// One read, again where a signal cuts it short.
pub(crate) fn read_some<R: Read>(reader: &mut R, buf: &mut [u8]) -> Result<usize, Failed>
    ensures within { IfOk result (λ n. n ≤ length buf.new) }
    ensures prefix { IfOk result
        (ReadsFirst (R.remaining reader.old) (R.remaining reader.new) buf.new) }
    ensures end { IfOk result (λ n. n ≡ 0 → 0 < length buf.old → IsAtEnd (R.remaining reader.new)) }
    ensures err { OnErr result (Keeps (R.remaining reader.old) (R.remaining reader.new)) }
{
    for _ in 0..u64::MAX {
        match reader.read(buf) {
            Ok(count) => return Ok(count),
            Err(error) => {
                if error.kind() != ErrorKind::Interrupted {
                    return Err(Failed);
                }
            }
        }
    }
    Err(Failed)
}

/// One write, again where a signal cuts it short.
fn write_some<W: Write>(writer: &mut W, bytes: &[u8]) -> Result<usize, Failed>
    ensures within { IfOk result (λ n. n ≤ length bytes.now) }
    ensures prefix { IfOk result
        (WritesFirst (W.contents writer.old) (W.contents writer.new) bytes.now) }
    ensures err { OnErr result (Keeps (W.contents writer.old) (W.contents writer.new)) }
{
    for _ in 0..u64::MAX {
        match writer.write(bytes) {
            Ok(count) => return Ok(count),
            Err(error) => {
                if error.kind() != ErrorKind::Interrupted {
                    return Err(Failed);
                }
            }
        }
    }
    Err(Failed)
}

/// Writes all bytes. A write that takes nothing of what is left ends it, as an error does.
pub(crate) fn write_whole<W: Write>(writer: &mut W, bytes: &[u8]) -> Result<(), Failed>
    ensures all { OnOk result (Appends (W.contents writer.old) (W.contents writer.new) bytes.now) }
    ensures prefix { WritesPrefix (W.contents writer.old) (W.contents writer.new) bytes.now }
    ensures nothing { bytes.now ≡ [] → IsOk result }
{
    let mut written = 0;
    while written < bytes.len() {
        let count = write_some(writer, &bytes[written..])?;
        if count == 0 {
            return Err(Failed);
        }
        written += count;
    }
    Ok(())
}

/// A reader as a source. It tells nothing of the bytes.
#[derive(Drop)]
pub struct StdSource<R: Read> {
    reader: R,
    faults: u64,
}

impl<R: Read> Model for StdSource<R> {
    ghost use Rattle.byte_streams.specs.Adapters.{Counted};

    ghost Value = { Counted R };

    ghost view = { λ s. record { inner = s.reader; faults = s.faults } };
}

impl<R: Read> StdSource<R> {
    /// A source that reads from here, with no fault so far.
    pub fn new(reader: R) -> StdSource<R>
        ensures { result ≡ record { inner = reader; faults = 0 } }
    {
        StdSource { reader, faults: 0 }
    }
}

impl<R: Read> Source for StdSource<R> {
    ghost left = { λ _. None };

    ghost faults = { λ s. s.faults };

    /// Answers what one read gives. A read that a signal cuts short is no fault: it is done again.
    fn take(&mut self, buf: &mut [u8]) -> Result<usize, Failed>
        requires { 0 < length buf.old }
        ensures within { IfOk result (λ n. n ≤ length buf.new) }
        ensures cause { HasCause self.old.faults self.new.faults result }

        // What the reader gives, where it knows its bytes.
        ensures read { let old = R.remaining self.old.inner in
            IfOk result (ReadsFirst old (R.remaining self.new.inner) buf.new) }
        ensures read_end { IfOk result (λ n. n ≡ 0 → IsAtEnd (R.remaining self.new.inner)) }
        ensures read_nothing { OnErr result
            (Keeps (R.remaining self.old.inner) (R.remaining self.new.inner)) }
    {
        let answer = read_some(&mut self.reader, buf);
        if answer.is_err() {
            self.faults = self.faults.saturating_add(1);
        }
        answer
    }
}

/// A writer as a sink. It tells nothing of the bytes. It never flushes, so it is given a writer that keeps none back.
#[derive(Drop)]
pub struct StdSink<W: Write> {
    writer: W,
    faults: u64,
}

impl<W: Write> Model for StdSink<W> {
    ghost use Rattle.byte_streams.specs.Adapters.{Counted};

    ghost Value = { Counted W };

    ghost view = { λ s. record { inner = s.writer; faults = s.faults } };
}

impl<W: Write> StdSink<W> {
    /// A sink that writes to here, with no fault so far.
    pub fn new(writer: W) -> StdSink<W>
        ensures { result ≡ record { inner = writer; faults = 0 } }
    {
        StdSink { writer, faults: 0 }
    }
}

impl<W: Write> Sink for StdSink<W> {
    ghost taken = { λ _. None };

    ghost faults = { λ s. s.faults };

    /// Writes until nothing is left. A write that takes nothing of what is left is a fault. A write that a signal cuts
    /// short is none: it is done again.
    fn put(&mut self, bytes: &[u8]) -> Result<(), Failed>
        ensures cause { HasCause self.old.faults self.new.faults result }
        ensures nothing { bytes.now ≡ [] → IsOk result }

        // What the writer got, where it knows its bytes.
        ensures written { OnOk result
            (Appends (W.contents self.old.inner) (W.contents self.new.inner) bytes.now) }
        ensures written_prefix { WritesPrefix (W.contents self.old.inner)
            (W.contents self.new.inner) bytes.now }
    {
        let answer = write_whole(&mut self.writer, bytes);
        if answer.is_err() {
            self.faults = self.faults.saturating_add(1);
        }
        answer
    }
}
