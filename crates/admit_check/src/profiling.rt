//! Whether each method of a class can be rewritten with probes.

ghost use Rattle.std.specs.Prelude.{◌≡◌, IfOk};
ghost use Rattle.inject_events.specs.Answers.{IsReadableClass};
ghost use Rattle.inject_events.specs.Rewriting.{plain_mark, all_plain};
ghost use Rattle.admit_check.specs.Profiling.{profiling_fault};

use code_admission::AdmitError;
use const_pool::{ClassFile, Member};
use inject_events::{InjectError, instrument, is_surely_profilable};
use jf_bytes::{NoMemory, Seq};
use jvm_model::{Mark, code_of};
use std::alloc::Global;

/// The mark with which a method is tried.
fn plain_mark(method: &Member) -> Mark
    ensures { result ≡ plain_mark method.now }
{
    match code_of(method) {
        Some(_code) => Mark::Plain,
        None => Mark::Off,
    }
}

/// A mark for each method.
fn all_plain(alloc: Global, class: &ClassFile) -> Result<Seq<Mark>, NoMemory>
    ensures { IfOk result (λ marks. marks ≡ all_plain class.now) }
{
    let methods = class.methods.as_slice();
    let mut marks = Seq::with_capacity(alloc, methods.len())?;
    for method in methods {
        marks.push(plain_mark(method))?;
    }
    Ok(marks)
}

/// The fault of the first method that cannot be rewritten where all methods with Code are. Where one of them is long,
/// what they become is made and given up: the size of each table is known only then.
pub(crate) fn profiling_fault(
    alloc: Global,
    number: u32,
    class: &ClassFile,
) -> Result<Option<AdmitError>, NoMemory>
    requires { IsReadableClass class.now }
    ensures { IfOk result (λ fault. fault ≡ profiling_fault number class.now) }
{
    if is_surely_profilable(class) {
        return Ok(None);
    }
    let marks = all_plain(alloc, class)?;
    match instrument(alloc, class, 0, marks.as_slice()) {
        Ok(_image) => Ok(None),
        Err(InjectError::NotProfilable(method, cause)) => {
            Ok(Some(AdmitError::NotProfilable(number, method, cause)))
        }
        Err(InjectError::NoMemory) => Err(NoMemory),
    }
}
