//! What is invoked of a method, by its number (JVM Specification 2.11.8, 4.6).

ghost use Rattle.std.specs.Prelude.{◌≡◌, false, None};
ghost use Rattle.jvm_model.specs.Basis.Programs.{number_of_method};
ghost use Rattle.jvm_model.specs.Classes.Selection.{is_abstract};
ghost use Rattle.member_selection.specs.Callees.{IsCallee};
ghost use Rattle.member_selection.specs.Members.{at_place};
ghost use Rattle.member_selection.specs.Numbers.{AreNumbers};

use crate::declared_member::DeclaredMember;
use crate::known::Callee;
use crate::native_methods::native_at;
use crate::numbers::MethodNumbers;
use class_linker::Linker;

/// The native method that stands there, if it is one of a built-in class.
fn native_callee(linker: &Linker, m: DeclaredMember) -> Callee
    requires concrete { is_abstract linker.now.program (at_place m) ≡ false }
    requires codeless { number_of_method linker.now.program m.class m.position ≡ None }
    ensures { IsCallee result linker.now.program (at_place m) }
{
    if m.class < linker.index().user_count() {
        return Callee::Other;
    }
    match native_at(linker.program(), m) {
        Some(number) => Callee::Native(number),
        None => Callee::Other,
    }
}

/// What is invoked of a method. One that raises is looked at again.
pub fn callee_of(linker: &Linker, numbers: &MethodNumbers, m: DeclaredMember) -> Callee
    requires { AreNumbers linker.now.program numbers.now }
    ensures { IsCallee result linker.now.program (at_place m) }
{
    if linker.is_abstract(m.class, m.position) {
        return Callee::Other;
    }
    match numbers.number(m.class, m.position) {
        Some(number) => Callee::Code(number),
        None => native_callee(linker, m),
    }
}
