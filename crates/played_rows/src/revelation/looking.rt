//! What is the case in a scene, beside what a row says of it.

ghost use Rattle.std.specs.Prelude.{◌≡◌, ◌≢◌, true, false, IfOk};
ghost use Rattle.jvm_model.specs.Basis.KindNumbers.{user_count};
ghost use Rattle.jvm_model.specs.Profiling.Points.{has_class};
ghost use Rattle.jvm_model.specs.Profiling.Revealed.{marks_of};
ghost use Rattle.class_linker.specs.Linkers.{IsLoaded};
ghost use Rattle.program_fit.specs.Runnable.{IsAdmitted};
ghost use Rattle.call_revelation.specs.Reveals.{now_of};
ghost use Rattle.played_rows.specs.Revelation.Rows.{AreTargets};
ghost use Rattle.played_rows.specs.Revelation.Scenes.{IsAnswered, IsFollowed, IsReady};

use crate::revelation::item::Fact;
use crate::revelation::scenes::{follow, has_class};
use call_revelation::Reveal;
use class_linker::Linker;
use jf_bytes::{NoMemory, Seq};
use jvm_model::Mark;
use possible_callees::targets;
use std::alloc::Global;

/// The marks of all methods, by their numbers.
fn marks(alloc: Global, linker: &Linker, reveal: &Reveal) -> Result<Seq<Mark>, NoMemory>
    requires { IsReady linker.now reveal.now }
    ensures { IfOk result (λ ms. ms ≡ marks_of linker.now.program (now_of reveal.now)) }
{
    let program = linker.program();
    let places = program.methods.as_slice();
    let mut marks = Seq::new(alloc);
    for (method, _place) in places.iter().enumerate() {
        marks.push(reveal.mark(program, method as u32))?;
    }
    Ok(marks)
}

/// The methods that this one, whose class is loaded, can begin.
fn methods_begun(alloc: Global, linker: &Linker, method: u32) -> Result<Seq<u32>, NoMemory>
    requires admitted { IsAdmitted linker.now.program }
    requires root { IsLoaded linker.now (user_count linker.now.program) }
    requires class { has_class linker.now.program linker.now.loaded method ≡ true }
    ensures { IfOk result (AreTargets linker.now.program linker.now.loaded method) }
{
    targets(alloc, method, linker)
}

/// The fact of the same kind that is the case, where it can be told. The revelation takes before what is loaded more.
pub fn fact_told(
    alloc: Global,
    linker: &Linker,
    reveal: &mut Reveal,
    fact: &Fact,
) -> Result<Option<Fact>, NoMemory>
    requires { IsReady linker.now reveal.old }
    ensures answered { IfOk result (IsAnswered linker.now reveal.old fact.now) }
    ensures followed { IfOk result (λ came. IsFollowed linker.now reveal.old reveal.new) }
{
    follow(alloc, linker, reveal)?;
    match fact {
        Fact::Marks(_) => Ok(Some(Fact::Marks(marks(alloc, linker, reveal)?))),
        Fact::Changed(_) => Ok(Some(Fact::Changed(reveal.changed(alloc, linker.program())?))),
        Fact::Begins(method, _) => {
            if has_class(linker, *method) {
                Ok(Some(Fact::Begins(*method, methods_begun(alloc, linker, *method)?)))
            } else {
                Ok(None)
            }
        }
        Fact::IsSelected(method, _) => Ok(Some(Fact::IsSelected(
            *method,
            reveal.is_selected(*method),
        ))),
        Fact::SelectsAny(_) => Ok(Some(Fact::SelectsAny(reveal.selects()))),
    }
}

/// Whether two facts are the same.
pub fn is_same(wanted: &Fact, came: &Fact) -> bool
    ensures same { result ≡ true → came.now ≡ wanted.now }
    ensures other { result ≡ false → came.now ≢ wanted.now }
{
    match (wanted, came) {
        (Fact::Marks(a), Fact::Marks(b)) => a.as_slice() == b.as_slice(),
        (Fact::Changed(a), Fact::Changed(b)) => a.as_slice() == b.as_slice(),
        (Fact::Begins(m, a), Fact::Begins(n, b)) => *m == *n && a.as_slice() == b.as_slice(),
        (Fact::IsSelected(m, a), Fact::IsSelected(n, b)) => *m == *n && *a == *b,
        (Fact::SelectsAny(a), Fact::SelectsAny(b)) => *a == *b,
        _ => false,
    }
}
