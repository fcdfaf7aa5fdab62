//! Which method an invocation comes to (JVM Specification 5.4.3.3, 5.4.3.4, 6.5), before anything
//! is changed.

ghost use Rattle.std.specs.Prelude.{◌≡◌, ℕ, true, IfOk, IfSome, Some};
ghost use Rattle.std.specs.Bool.{beq};
ghost use Rattle.std.specs.Option.{option_and_then, option_map};
ghost use Rattle.const_pool.specs.References.{name_type_of};
ghost use Rattle.jvm_model.specs.Instructions.InvocationRules.{names_interface, not_of_class, selected_by};
ghost use Rattle.jvm_model.specs.Classes.Lookup.{resolved_method};
ghost use Rattle.jvm_model.specs.Instructions.SymbolicReference.{member_found, is_below_kind, where_fitting};
ghost use Rattle.jvm_model.specs.Basis.Programs.{class_named};
ghost use Rattle.jvm_model.specs.Classes.Selection.{is_static};
ghost use Rattle.jvm_model.specs.Basis.SharedState.{class_of_kind};
ghost use Rattle.jvm_model.specs.Classes.SuperCalls.{invoked_special};
ghost use Rattle.class_index.specs.Members.{place_view};
ghost use Rattle.class_linker.specs.Linkers.{IsLoaded};
ghost use Rattle.member_selection.specs.Answers.{place_found, abrupt_view};
ghost use Rattle.member_selection.specs.Members.{at_place};
ghost use Rattle.member_selection.specs.Objects.{AreLoaded, IsResolved, IsUsable};
ghost use Rattle.member_selection.specs.Resolved.{method_found};
ghost use Rattle.member_selection.specs.Targets.{HasCaller, selecting_view, found_as};
ghost use Rattle.member_selection.specs.Targets.{receiver_class};

use crate::declared_member::DeclaredMember;
use crate::instances::kind_of_object;
use crate::known::{Chosen, Found};
use crate::outcome::AbruptCompletion;
use crate::resolution::exception_numbered;
use class_linker::{Linker, Resolved};
use heap_objects::Heap;
use jf_bytes::Text16;
use jvm_model::{Exception, MemberName, MethodName};

/// Which invocation it is: invokespecial with the name of the class in which it stands, and whether
/// it names an interface's method.
#[derive(Clone, Copy)]
pub enum Selecting<'a> {
    Virtual,
    OfInterface,
    Special(&'a Text16, bool),
}

/// The method that was selected, if one was, and how many operands are its arguments.
#[derive(Clone, Copy)]
pub struct Target {
    pub selected: Option<Chosen>,
    pub count: u16,
}

// ---- resolution

/// The method of a class with this name and descriptor.
fn method_in(
    linker: &Linker,
    class: u32,
    interface: bool,
    name: &Text16,
    descriptor: &Text16,
) -> Result<DeclaredMember, AbruptCompletion>
    requires { IsLoaded linker.now class }
    ensures { place_found result ≡ member_found (resolved_method linker.now.program class interface
        (name_type_of name.now descriptor.now)) }
{
    match linker.resolve_method(class, interface, name, descriptor) {
        Resolved::Found(class, position) => Ok(DeclaredMember { class, position }),
        Resolved::Throws(number) => Err(AbruptCompletion::Raises(exception_numbered(number), None)),
    }
}

/// The method that a name stands for in a class.
fn found_in(
    linker: &Linker,
    class: u32,
    interface: bool,
    member: &MemberName,
) -> Result<DeclaredMember, AbruptCompletion>
    requires { IsLoaded linker.now class }
    ensures { place_found result
        ≡ member_found (resolved_method linker.now.program class interface member.now.member) }
{
    method_in(linker, class, interface, member.name(), member.descriptor())
}

/// The method, where it is static as it is asked for, or is not.
fn fitting(
    linker: &Linker,
    m: DeclaredMember,
    fixed: bool,
) -> Result<DeclaredMember, AbruptCompletion>
    ensures { place_found result
        ≡ where_fitting (beq (is_static linker.now.program (at_place m)) fixed) (at_place m) }
{
    if linker.is_static(m.class, m.position) == fixed {
        Ok(m)
    } else {
        Err(AbruptCompletion::Raises(Exception::IncompatibleClassChange, None))
    }
}

/// The method, static or not, that a name stands for whose class was resolved to this kind.
pub fn method_found(
    linker: &Linker,
    kind: u32,
    interface: bool,
    fixed: bool,
    method: &MethodName,
) -> Result<DeclaredMember, AbruptCompletion>
    requires { IsUsable linker.now kind }
    ensures { place_found result
        ≡ method_found linker.now.program kind interface fixed method.now }
{
    let class = linker.index().class_of_kind(kind);
    match found_in(linker, class, interface, method.member()) {
        Ok(m) => fitting(linker, m, fixed),
        Err(completion) => Err(completion),
    }
}

// ---- receivers

/// What a receiver asks for that is not of the named class.
pub fn not_of_class(by: Selecting<'_>) -> AbruptCompletion
    ensures { abrupt_view result ≡ not_of_class (selecting_view by.entry) }
{
    match by {
        Selecting::Virtual => AbruptCompletion::Breaks,
        Selecting::OfInterface => AbruptCompletion::Raises(
            Exception::IncompatibleClassChange,
            None,
        ),
        Selecting::Special(_, _) => AbruptCompletion::Breaks,
    }
}

/// Whether the method is referred to as one of an interface, and not of a class.
pub fn names_interface(by: Selecting<'_>) -> bool
    ensures { result ≡ names_interface (selecting_view by.entry) }
{
    match by {
        Selecting::Virtual => false,
        Selecting::OfInterface => true,
        Selecting::Special(_, interface) => interface,
    }
}

/// Whether objects of a kind are of the named one; those of the last kind are.
#[inline(always)]
fn is_of_named(linker: &Linker, lower: u32, kind: u32, last: Option<u32>) -> bool
    requires usable { IsUsable linker.now lower }
    requires below { IfSome last
        (λ last. is_below_kind linker.now.program (Some last) (Some kind) ≡ true) }
    ensures { result ≡ is_below_kind linker.now.program (Some lower) (Some kind) }
{
    if let Some(last) = last
        && last == lower
    {
        return true;
    }
    linker.subtype(lower, kind)
}

/// The kind of a receiver, where it is one that the instruction can take: the name's class was
/// resolved to this kind, and objects of the last kind are of it.
#[inline(always)]
pub fn receiver_kind(
    linker: &Linker,
    heap: &Heap,
    by: Selecting<'_>,
    method: &MethodName,
    kind: u32,
    last: Option<u32>,
    object: u32,
) -> Result<u32, AbruptCompletion>
    requires objects { AreLoaded linker.now heap.now }
    requires resolved { IsResolved linker.now method.now.class kind }
    requires last { IfSome last
        (λ last. is_below_kind linker.now.program (Some last) (Some kind) ≡ true) }
    ensures class { found_as (class_of_kind linker.now.program) result
        ≡ receiver_class linker.now.program (selecting_view by.entry) method.now heap.now object }
    ensures usable { IfOk result (λ lower. IsUsable linker.now lower) }
    ensures below { IfOk result
        (λ lower. is_below_kind linker.now.program (Some lower) (Some kind) ≡ true) }
{
    if object == 0 {
        return Err(AbruptCompletion::Raises(Exception::NullPointer, None));
    }
    let Some(lower) = kind_of_object(linker, heap, object) else {
        return Err(not_of_class(by));
    };
    if !is_of_named(linker, lower, kind, last) {
        return Err(not_of_class(by));
    }
    Ok(lower)
}

// ---- selection

/// A place as the linker gives it.
fn member_placed(found: Option<(u32, u16)>) -> Option<DeclaredMember>
    ensures { option_map at_place result ≡ option_map place_view found }
{
    let (class, position) = found?;
    Some(DeclaredMember { class, position })
}

/// What invokespecial takes in the class of this name.
fn selected_special(linker: &Linker, caller: &Text16, m: DeclaredMember) -> Option<DeclaredMember>
    requires { (class : ℕ) → class_named linker.now.program caller.now ≡ Some class →
        IsLoaded linker.now class }
    ensures { option_map at_place result ≡ option_and_then
        (λ current. invoked_special linker.now.program current (at_place m))
        (class_named linker.now.program caller.now) }
{
    let current = linker.index().class_named(caller.units())?;
    member_placed(linker.special(current, m.class, m.position))
}

/// What the receiver's class has for the resolved method, or what the caller's class takes.
pub fn selected_by(
    linker: &Linker,
    by: Selecting<'_>,
    m: DeclaredMember,
    class: u32,
) -> Option<DeclaredMember>
    requires loaded { IsLoaded linker.now class }
    requires caller { HasCaller linker.now (selecting_view by) }
    ensures { option_map at_place result
        ≡ selected_by linker.now.program (selecting_view by.entry) (at_place m) class }
{
    match by {
        Selecting::Virtual => member_placed(linker.select(class, m.class, m.position, false)),
        Selecting::OfInterface => member_placed(linker.select(class, m.class, m.position, true)),
        Selecting::Special(caller, _) => selected_special(linker, caller, m),
    }
}

// ---- a static method
