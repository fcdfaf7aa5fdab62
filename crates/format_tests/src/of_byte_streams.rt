//! The adapters at their work, and at a fault. What is in memory is at work in each row of worked_rows.

use byte_streams::{
    DiskFiles, Failed, FetchError, Files, LateFile, Sink, Source, StdSink, StdSource,
};
use std::io::{ErrorKind, Read};
use std::test::Fail;
use std::{fs, io};

const MADE: &str = "byte_streams_made.tmp";

/// A reader that a signal stops, that gives one byte, and that fails.
#[derive(Drop)]
struct Stumbling {
    reads: u8,
}

impl Read for Stumbling {
    fn read(&mut self, buf: &mut [u8]) -> io::Result<usize> {
        self.reads = self.reads.saturating_add(1);
        if self.reads == 1 {
            return Err(io::Error::from(ErrorKind::Interrupted));
        }
        if self.reads == 2 && !buf.is_empty() {
            buf[0] = 7;
            return Ok(1);
        }
        Err(io::Error::from(ErrorKind::Other))
    }
}

#[test]
fn a_reader_is_a_source(rt: HostRuntime) {
    let mut source = StdSource::new(b"abc".as_slice());
    let mut buf = [0u8; 2];
    assert_eq!(rt; source.take(&mut buf), Ok(2));
    assert_eq!(rt; buf, *b"ab");
    assert_eq!(rt; source.take(&mut buf), Ok(1));
    assert_eq!(rt; source.take(&mut buf), Ok(0));
    let mut stumbling = StdSource::new(Stumbling { reads: 0 });
    assert_eq!(rt; stumbling.take(&mut buf), Ok(1));
    assert_eq!(rt; buf[0], 7);
    assert_eq!(rt; stumbling.take(&mut buf), Err(Failed));
}

#[test]
fn a_writer_is_a_sink(rt: HostRuntime) {
    let mut all = Vec::new(rt.alloc());
    let mut sink = StdSink::new(&mut all);
    assert_eq!(rt; sink.put(b"ab"), Ok(()));
    assert_eq!(rt; sink.put(b"cd"), Ok(()));
    assert_eq!(rt; all.as_slice(), b"abcd".as_slice());
    let mut short = [0u8; 3];
    let mut full = StdSink::new(short.as_mut_slice());
    assert_eq!(rt; full.put(b"ab"), Ok(()));
    assert_eq!(rt; full.put(b"cd"), Err(Failed));
    assert_eq!(rt; short, *b"abc");
}

#[test]
fn a_late_file_is_made_at_the_first_put(rt: HostRuntime) -> Result<(), Fail> {
    let alloc = rt.alloc();
    let _ = fs::remove_file(&rt, MADE);
    let mut late = LateFile::new(&rt, MADE.to_string(alloc)?);
    let mut files = DiskFiles::new(alloc, &rt);
    assert!(rt; matches!(files.fetch(alloc, MADE, 9), Err(FetchError::Failed)));
    assert_eq!(rt; late.put(b"abc"), Ok(()));
    assert_eq!(rt; late.put(b"de"), Ok(()));
    assert_eq!(rt;
        files.fetch(alloc, MADE, 9)?.as_slice(),
        b"abcde".as_slice()
    );
    assert_eq!(rt; files.fetch(alloc, MADE, 3)?.as_slice(), b"abcd".as_slice());
    fs::remove_file(&rt, MADE)?;
    let mut nowhere = LateFile::new(&rt, "absent/made.tmp".to_string(alloc)?);
    assert_eq!(rt; nowhere.put(b"abc"), Err(Failed));
    Ok(())
}
