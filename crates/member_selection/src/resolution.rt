//! Resolution of the class or array type that an instruction names (JVM Specification 5.4.3.1).

ghost use Rattle.std.specs.Prelude.{◌≡◌, IfOk, OnOk, drop, length};
ghost use Rattle.frame_stack.specs.FrameLists.{top_operands};
ghost use Rattle.class_linker.specs.Linkers.{IsLoaded};
ghost use Rattle.jvm_model.specs.Basis.KindNumbers.{user_count};
ghost use Rattle.jvm_model.specs.Classes.Load.{load_of};
ghost use Rattle.jvm_model.specs.Instructions.SymbolicReference.{is_null, resolved_kind, resolved_name, resolves};
ghost use Rattle.member_selection.specs.Answers.{exception_numbered, found_view};
ghost use Rattle.member_selection.specs.Attempts.{linker_with, with_more};
ghost use Rattle.member_selection.specs.Objects.{IsResolved};
ghost use Rattle.class_index.specs.Indices.{IsLinkable};

use crate::outcome::AbruptCompletion;
use base_classes::{
    CLASS_CIRCULARITY_ERROR, NO_CLASS_DEF_FOUND_ERROR, NO_SUCH_FIELD_ERROR, NO_SUCH_METHOD_ERROR,
};
use class_linker::{Linker, Loaded};
use frame_stack::Frames;
use jf_bytes::{NoMemory, Text16};
use jvm_basic::ref_of;
use jvm_model::{Exception, SymbolicReference};

// ---- what is resolved

/// Whether the null reference is on top.
fn is_null(frames: &Frames) -> bool
    ensures { result ≡ is_null (top_operands frames.now.frames) }
{
    match ref_of(frames) {
        Some(object) => object == 0,
        None => false,
    }
}

/// Whether the instruction resolves what it names: checkcast and instanceof of null do not.
pub fn resolves(frames: &Frames, reference: &SymbolicReference) -> bool
    ensures { result ≡ resolves reference.now (top_operands frames.now.frames) }
{
    match reference {
        SymbolicReference::Checkcast(_) => !is_null(frames),
        SymbolicReference::Instanceof(_) => !is_null(frames),
        _ => true,
    }
}

/// The name of the class, or of the array type, that is resolved: of a member its class's.
pub fn resolved_name(reference: &SymbolicReference) -> &Text16
    ensures { result.now ≡ resolved_name reference.now }
{
    match reference {
        SymbolicReference::New(name) => name,
        SymbolicReference::Getfield(member) => member.class(),
        SymbolicReference::Putfield(member) => member.class(),
        SymbolicReference::Getstatic(member) => member.class(),
        SymbolicReference::Putstatic(member) => member.class(),
        SymbolicReference::Invokevirtual(method) => method.class(),
        SymbolicReference::Invokespecial(_, method, _) => method.class(),
        SymbolicReference::Invokestatic(method) => method.class(),
        SymbolicReference::Invokeinterface(method) => method.class(),
        SymbolicReference::Checkcast(name) => name,
        SymbolicReference::Instanceof(name) => name,
        SymbolicReference::Anewarray(name) => name,
        SymbolicReference::Multianewarray(name, _) => name,
        SymbolicReference::LdcClass(name) => name,
    }
}

// ---- resolution

/// The exception of the built-in class at this place that a load or a resolution ends with.
pub fn exception_numbered(number: u16) -> Exception
    ensures { result ≡ exception_numbered number }
{
    match number {
        NO_CLASS_DEF_FOUND_ERROR => Exception::NoClassDefinition,
        CLASS_CIRCULARITY_ERROR => Exception::ClassCircularity,
        NO_SUCH_FIELD_ERROR => Exception::NoSuchField,
        NO_SUCH_METHOD_ERROR => Exception::NoSuchMethod,
        _ => Exception::IncompatibleClassChange,
    }
}

/// Recalls what the linker asked of its program.
fn recall(linker: &Linker)
    ensures { IsLinkable linker.now.program }
{
    let _ = linker.index().program();
}

/// Loads what the name stands for, and gives its kind, or what its fault raises. What was loaded
/// before a fault stays loaded.
pub fn resolve(
    linker: &mut Linker,
    name: &Text16,
) -> Result<Result<u32, AbruptCompletion>, NoMemory>
    requires { IsLoaded linker.old (user_count linker.old.program) }
    ensures found { IfOk result (λ r. found_view r
        ≡ resolved_kind linker.old.program linker.old.loaded name.now) }
    ensures linker { OnOk result (linker.new ≡ linker_with linker.old
        (load_of linker.old.program linker.old.loaded name.now).loaded) }
    ensures more { linker.new ≡ with_more linker.old
        (drop (length linker.old.loaded) linker.new.loaded) }
    ensures resolved { IfOk result (λ r. IfOk r (λ kind. IsResolved linker.new name.now kind)) }
{
    recall(linker);
    match linker.load(name) {
        Loaded::Already(kind) => Ok(Ok(kind)),
        Loaded::New(kind, _) => Ok(Ok(kind)),
        Loaded::Throws(number, _, message) => {
            Ok(Err(AbruptCompletion::Raises(exception_numbered(number), message)))
        }
        Loaded::NoMemory => Err(NoMemory),
    }
}
