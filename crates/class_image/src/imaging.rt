//! One class file, from its bytes to those of its image.

ghost use Rattle.std.specs.Prelude.{◌≡◌, ◌≢◌, ◌≤◌, ◌⊎◌, None, Err, IfOk, IfErr, OnOk};
ghost use Rattle.byte_streams.specs.Streams.{Rose, PutsAll, PutsPrefix, IsFetched};
ghost use Rattle.class_reader.specs.Files.{most_bytes};
ghost use Rattle.inject_events.specs.Answers.{IsProfilable, IsReadableClass};
ghost use Rattle.class_image.specs.Imaging.{IsAdmittedFile, IsImageOf, IsClassRefusal, IsRefusal, HasImage, IsFileRefusal, PutsImage, IsTold};

use crate::words::{first_of, marks_of};
use admit_check::admit_class;
use byte_streams::{FetchError, Files, Sink};
use class_reader::{MOST_BYTES, ReadError, read_class};
use class_writer::write_fitting;
use code_admission::AdmitError;
use const_pool::ClassFile;
use inject_events::{InjectError, instrument, marked_have_code};
use jvm_model::Mark;
use std::alloc::Global;

/// Why a file is not rewritten.
#[derive(Clone, Copy, Debug, PartialEq, Eq)]
pub enum ImageError {
    /// The word for the number of the first method with Code is none.
    NotNumbered,
    /// The letters are no marks, or not one for each method, or one marks a method without Code.
    NotMarked,
    NotFetched,
    NotRead,
    NotAdmitted,
    NotPut,
    NoMemory,
}

/// The class of a class file's bytes, which admission takes.
fn class_of(alloc: Global, bytes: &[u8]) -> Result<ClassFile, ImageError>
    ensures admitted { IfOk result (λ class. IsAdmittedFile bytes.now class) }
    ensures readable { IfOk result IsReadableClass }
    ensures profilable { IfOk result IsProfilable }
    ensures refused { IfErr result (IsClassRefusal bytes.now) }
{
    let class = match read_class(alloc, bytes) {
        Ok(class) => class,
        Err(ReadError::NoMemory) => return Err(ImageError::NoMemory),
        Err(_) => return Err(ImageError::NotRead),
    };
    match admit_class(alloc, &class) {
        Ok(()) => Ok(class),
        Err(AdmitError::NoMemory) => Err(ImageError::NoMemory),
        Err(_) => Err(ImageError::NotAdmitted),
    }
}

/// The only refusal of a class that was admitted.
fn want_of_memory(_error: InjectError) -> ImageError
    requires { _error ≡ InjectError.NoMemory }
    ensures { result ≡ ImageError.NoMemory }
{
    ImageError::NoMemory
}

/// The bytes of the image of a class file.
fn image_bytes(
    alloc: Global,
    bytes: &[u8],
    first: u32,
    marks: &[Mark],
) -> Result<Vec<u8>, ImageError>
    requires { first ≤ 2147418112 }
    ensures image { IfOk result (λ out. IsImageOf bytes.now first marks.now out.items) }
    ensures refused { IfErr result (IsRefusal bytes.now first marks.now) }
{
    let class = match class_of(alloc, bytes) {
        Ok(class) => class,
        Err(error) => return Err(error),
    };
    if marks.len() != class.methods.len() {
        return Err(ImageError::NotMarked);
    }
    if !marked_have_code(marks, class.methods.as_slice()) {
        return Err(ImageError::NotMarked);
    }
    let image = match instrument(alloc, &class, first, marks) {
        Ok(image) => image,
        Err(error) => return Err(want_of_memory(error)),
    };
    match write_fitting(alloc, &image.class) {
        Ok(bytes) => Ok(bytes),
        Err(_) => Err(ImageError::NoMemory),
    }
}

/// Fetches a class file, or of a longer one enough to see that it is too long.
fn fetch<F: Files>(alloc: Global, name: &str, files: &mut F) -> Result<Vec<u8>, ImageError>
    ensures found { IfOk result (λ bytes.
        IsFetched (F.contents files.old) name.now most_bytes bytes.items) }
    ensures not_fetched { result ≡ Err ImageError.NotFetched
        → Rose (F.faults files.old) (F.faults files.new) }
    ensures fetched { result ≢ Err ImageError.NotFetched
        → F.faults files.new ≡ F.faults files.old }
    ensures errors { IfErr result (λ e. (e ≡ ImageError.NotFetched) ⊎ (e ≡ ImageError.NoMemory)) }
{
    match files.fetch(alloc, name, MOST_BYTES) {
        Ok(bytes) => Ok(bytes),
        Err(FetchError::Failed) => Err(ImageError::NotFetched),
        Err(FetchError::NoMemory) => Err(ImageError::NoMemory),
    }
}

/// The bytes of the image of the class file with this name.
fn image_of_file<F: Files>(
    alloc: Global,
    name: &str,
    first: u32,
    marks: &[Mark],
    files: &mut F,
) -> Result<Vec<u8>, ImageError>
    requires { first ≤ 2147418112 }
    ensures image { IfOk result (λ out.
        HasImage (F.contents files.old) name.now first marks.now out.items) }
    ensures refused { IfErr result
        (IsFileRefusal (F.contents files.old) name.now first marks.now) }
    ensures not_fetched { result ≡ Err ImageError.NotFetched
        → Rose (F.faults files.old) (F.faults files.new) }
    ensures fetched { result ≢ Err ImageError.NotFetched
        → F.faults files.new ≡ F.faults files.old }
    ensures not_put { result ≢ Err ImageError.NotPut }
{
    let bytes = match fetch(alloc, name, files) {
        Ok(bytes) => bytes,
        Err(error) => return Err(error),
    };
    match image_bytes(alloc, &bytes, first, marks) {
        Ok(image) => Ok(image),
        Err(error) => Err(error),
    }
}

/// Puts an image.
fn put_image<O: Sink>(out: &mut O, image: &[u8]) -> Result<(), ImageError>
    ensures all { OnOk result (PutsAll (O.taken out.old) (O.taken out.new) image.now) }
    ensures prefix { PutsPrefix (O.taken out.old) (O.taken out.new) image.now }
    ensures only { IfErr result (λ e. e ≡ ImageError.NotPut) }
    ensures not_put { result ≡ Err ImageError.NotPut
        → Rose (O.faults out.old) (O.faults out.new) }
    ensures fine { result ≢ Err ImageError.NotPut → O.faults out.new ≡ O.faults out.old }
{
    match out.put(image) {
        Ok(()) => Ok(()),
        Err(_) => Err(ImageError::NotPut),
    }
}

/// Puts the image of the class file with this name to `out`, for the number of its first method with Code and the marks
/// that two words say. Nothing is put where a call before the put fails.
pub fn image_file<F: Files, O: Sink>(
    alloc: Global,
    name: &str,
    first: &str,
    marks: &str,
    files: &mut F,
    out: &mut O,
) -> Result<(), ImageError>
    ensures put { OnOk result (PutsImage PutsAll (F.contents files.old) name.now first.now marks.now
        (O.taken out.old) (O.taken out.new)) }
    ensures in_part { result ≡ Err ImageError.NotPut
        → PutsImage PutsPrefix (F.contents files.old) name.now first.now marks.now
        (O.taken out.old) (O.taken out.new) }
    ensures nothing { IfErr result (λ e.
        e ≢ ImageError.NotPut → O.taken out.new ≡ O.taken out.old) }
    ensures cause { IfErr result (IsTold (F.contents files.old) name.now first.now marks.now) }
    ensures not_fetched { result ≡ Err ImageError.NotFetched
        → Rose (F.faults files.old) (F.faults files.new) }
    ensures fetched { result ≢ Err ImageError.NotFetched
        → F.faults files.new ≡ F.faults files.old }
    ensures not_put { result ≡ Err ImageError.NotPut
        → Rose (O.faults out.old) (O.faults out.new) }
    ensures fine { result ≢ Err ImageError.NotPut → O.faults out.new ≡ O.faults out.old }
{
    let Some(number) = first_of(first) else {
        return Err(ImageError::NotNumbered);
    };
    let letters = match marks_of(alloc, marks) {
        Ok(Some(letters)) => letters,
        Ok(None) => return Err(ImageError::NotMarked),
        Err(_) => return Err(ImageError::NoMemory),
    };
    match image_of_file(alloc, name, number, letters.as_slice(), files) {
        Ok(image) => put_image(out, &image),
        Err(error) => Err(error),
    }
}
