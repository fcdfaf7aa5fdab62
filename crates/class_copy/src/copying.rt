//! One class file, from its bytes to its class and back.

ghost use Rattle.std.specs.Prelude.{◌≡◌, ◌≢◌, ◌⊎◌, Err, IfOk, IfErr, OnOk};
ghost use Rattle.byte_streams.specs.Streams.{Rose, PutsAll, PutsPrefix, IsFetched};
ghost use Rattle.class_reader.specs.declared.error.ReadError.{ReadError as Fault};
ghost use Rattle.class_reader.specs.Files.{IsFirstFault, most_bytes};
ghost use Rattle.class_copy.specs.Copies.{IsSomeFile, IsFileTold, PutsFile, IsAnswer};

use byte_streams::{FetchError, Files, Sink};
use class_reader::{MOST_BYTES, ReadError, read_class};
use class_writer::write_class;
use std::alloc::Global;

/// Why a file is not copied.
#[derive(Clone, Copy, Debug, PartialEq, Eq)]
pub enum CopyError {
    NotFetched,
    /// The bytes are no class file, and this is their first fault.
    NotRead(ReadError),
    NotPut,
    NoMemory,
}

/// The bytes of a class file as the writer makes them from what the reader made of them: the same bytes.
fn bytes_copied(alloc: Global, bytes: &[u8]) -> Result<Vec<u8>, CopyError>
    ensures same { IfOk result (λ copy. copy.items ≡ bytes.now) }
    ensures file { IfOk result (λ _. IsSomeFile bytes.now) }
    ensures not_read { (fault : Fault) → result ≡ Err (CopyError.NotRead fault)
        → IsFirstFault bytes.now fault }
    ensures not_fetched { result ≢ Err CopyError.NotFetched }
    ensures not_put { result ≢ Err CopyError.NotPut }
{
    let class = match read_class(alloc, bytes) {
        Ok(class) => class,
        Err(ReadError::NoMemory) => return Err(CopyError::NoMemory),
        Err(fault) => return Err(CopyError::NotRead(fault)),
    };
    match write_class(alloc, &class) {
        Ok(copy) => Ok(copy),
        Err(_) => Err(CopyError::NoMemory),
    }
}

/// Fetches a class file, or of a longer one enough to see that it is too long.
fn fetch<F: Files>(alloc: Global, name: &str, files: &mut F) -> Result<Vec<u8>, CopyError>
    ensures found { IfOk result (λ bytes.
        IsFetched (F.contents files.old) name.now most_bytes bytes.items) }
    ensures not_fetched { result ≡ Err CopyError.NotFetched
        → Rose (F.faults files.old) (F.faults files.new) }
    ensures fetched { result ≢ Err CopyError.NotFetched
        → F.faults files.new ≡ F.faults files.old }
    ensures errors { IfErr result (λ e. (e ≡ CopyError.NotFetched) ⊎ (e ≡ CopyError.NoMemory)) }
{
    match files.fetch(alloc, name, MOST_BYTES) {
        Ok(bytes) => Ok(bytes),
        Err(FetchError::Failed) => Err(CopyError::NotFetched),
        Err(FetchError::NoMemory) => Err(CopyError::NoMemory),
    }
}

/// A copy of the class file with this name.
fn copy_of<F: Files>(alloc: Global, name: &str, files: &mut F) -> Result<Vec<u8>, CopyError>
    ensures copied { IfOk result (λ copy.
        IsFileTold (F.contents files.old) name.now copy.items) }
    ensures answer { IsAnswer (F.contents files.old) name.now result }
    ensures not_fetched { result ≡ Err CopyError.NotFetched
        → Rose (F.faults files.old) (F.faults files.new) }
    ensures fetched { result ≢ Err CopyError.NotFetched
        → F.faults files.new ≡ F.faults files.old }
    ensures not_put { result ≢ Err CopyError.NotPut }
{
    let bytes = match fetch(alloc, name, files) {
        Ok(bytes) => bytes,
        Err(error) => return Err(error),
    };
    match bytes_copied(alloc, &bytes) {
        Ok(copy) => Ok(copy),
        Err(error) => Err(error),
    }
}

/// Puts a copy of the class file with this name to `out`. Nothing is put of any other file, nor where a call before the
/// put fails.
pub fn copy_file<F: Files, O: Sink>(
    alloc: Global,
    name: &str,
    files: &mut F,
    out: &mut O,
) -> Result<(), CopyError>
    ensures answer { IsAnswer (F.contents files.old) name.now result }
    ensures not_fetched { result ≡ Err CopyError.NotFetched
        → Rose (F.faults files.old) (F.faults files.new) }
    ensures fetched { result ≢ Err CopyError.NotFetched
        → F.faults files.new ≡ F.faults files.old }
    ensures not_put { result ≡ Err CopyError.NotPut
        → Rose (O.faults out.old) (O.faults out.new) }
    ensures put { result ≢ Err CopyError.NotPut → O.faults out.new ≡ O.faults out.old }

    // What was put: all of the class file, a front of it, or nothing.
    ensures copied { OnOk result
        (PutsFile PutsAll (F.contents files.old) name.now (O.taken out.old) (O.taken out.new)) }
    ensures in_part { result ≡ Err CopyError.NotPut
        → PutsFile PutsPrefix (F.contents files.old) name.now (O.taken out.old) (O.taken out.new) }
    ensures nothing { IfErr result (λ e.
        e ≢ CopyError.NotPut → O.taken out.new ≡ O.taken out.old) }
{
    let copy = match copy_of(alloc, name, files) {
        Ok(copy) => copy,
        Err(error) => return Err(error),
    };
    match out.put(&copy) {
        Ok(()) => Ok(()),
        Err(_) => Err(CopyError::NotPut),
    }
}
