//! The members that instructions name, and the numbers of methods that have Code (JVM Specification 5.4.3, 2.9).

ghost use Rattle.std.specs.Prelude.{◌≡◌, true};
ghost use Rattle.std.specs.Option.{option_map};
ghost use Rattle.const_pool.specs.References.{name_type_of};
ghost use Rattle.jvm_model.specs.Instructions.FieldRules.{is_static_field};
ghost use Rattle.jvm_model.specs.Classes.Lookup.{Found, resolved_field, resolved_method};
ghost use Rattle.jvm_model.specs.Basis.Programs.{initializer_name, initializer_of};
ghost use Rattle.jvm_model.specs.Classes.Selection.{is_static, method_selected};
ghost use Rattle.class_index.specs.Members.{wanted_view};
ghost use Rattle.class_linker.specs.Linkers.{IsLoaded};
ghost use Rattle.member_selection.specs.Members.{at_place};
ghost use Rattle.member_selection.specs.Numbers.{AreNumbers};
ghost use Rattle.possible_callees.specs.Lineages.{initializer_in, number_of, selected_below, selection_of};
ghost use Rattle.jvm_model.specs.Profiling.Targets.{class_with_methods, found_where, loaded_class_named};
ghost use Rattle.possible_callees.specs.Lineages.{AreKnown};

use crate::lineage::Lineage;
use class_index::{Wanted, meaning_of, method_at};
use class_linker::{Linker, Resolved};
use jf_bytes::Text16;
use jvm_model::MemberName;
use member_selection::{DeclaredMember, MethodNumbers, is_static_field};

// ---- classes

/// The class of this name, where it is loaded.
pub fn loaded_class(linker: &Linker, lineage: &Lineage, name: &Text16) -> Option<u32>
    ensures { result ≡ loaded_class_named linker.now.program lineage.now.loaded name.now }
{
    let class = linker.index().class_named(name.units())?;
    if lineage.loaded.has(class) {
        Some(class)
    } else {
        None
    }
}

/// The class whose methods a type of this name has.
pub fn class_with_methods(linker: &Linker, lineage: &Lineage, name: &Text16) -> Option<u32>
    ensures { result ≡ class_with_methods linker.now.program lineage.now.loaded name.now }
{
    if meaning_of(name.units()).dimensions > 0 {
        Some(linker.index().user_count())
    } else {
        loaded_class(linker, lineage, name)
    }
}

// ---- methods

/// The method, where it is static as it is asked for, or is not.
fn method_kept(linker: &Linker, m: DeclaredMember, fixed: bool) -> Option<DeclaredMember>
    ensures { option_map at_place result
        ≡ found_where (is_static linker.now.program) fixed (Found (at_place m)) }
{
    if linker.is_static(m.class, m.position) == fixed {
        Some(m)
    } else {
        None
    }
}

/// The method, static or not, that a name and a descriptor stand for in a class.
fn method_in(
    linker: &Linker,
    class: u32,
    interface: bool,
    fixed: bool,
    name: &Text16,
    descriptor: &Text16,
) -> Option<DeclaredMember>
    requires { IsLoaded linker.now class }
    ensures { option_map at_place result
        ≡ found_where (is_static linker.now.program) fixed
        (resolved_method linker.now.program class interface
        (name_type_of name.now descriptor.now)) }
{
    match linker.resolve_method(class, interface, name, descriptor) {
        Resolved::Found(class, position) => {
            method_kept(linker, DeclaredMember { class, position }, fixed)
        }
        Resolved::Throws(_) => None,
    }
}

/// The method, static or not, that a reference stands for in a class.
pub fn method_found(
    linker: &Linker,
    class: u32,
    interface: bool,
    fixed: bool,
    member: &MemberName,
) -> Option<DeclaredMember>
    requires { IsLoaded linker.now class }
    ensures { option_map at_place result
        ≡ found_where (is_static linker.now.program) fixed
        (resolved_method linker.now.program class interface member.now.member) }
{
    method_in(
        linker,
        class,
        interface,
        fixed,
        member.name(),
        member.descriptor(),
    )
}

// ---- fields

/// The field, where it is static.
fn field_kept(linker: &Linker, m: DeclaredMember) -> Option<DeclaredMember>
    ensures { option_map at_place result
        ≡ found_where (is_static_field linker.now.program) true (Found (at_place m)) }
{
    if is_static_field(linker, m) {
        Some(m)
    } else {
        None
    }
}

/// The static field that a name and a descriptor stand for in a class.
fn static_field_in(
    linker: &Linker,
    class: u32,
    name: &Text16,
    descriptor: &Text16,
) -> Option<DeclaredMember>
    requires { IsLoaded linker.now class }
    ensures { option_map at_place result
        ≡ found_where (is_static_field linker.now.program) true
        (resolved_field linker.now.program class (name_type_of name.now descriptor.now)) }
{
    match linker.resolve_field(class, name, descriptor) {
        Resolved::Found(class, position) => field_kept(linker, DeclaredMember { class, position }),
        Resolved::Throws(_) => None,
    }
}

/// The static field that a reference stands for in a class.
pub fn static_field_found(
    linker: &Linker,
    class: u32,
    member: &MemberName,
) -> Option<DeclaredMember>
    requires { IsLoaded linker.now class }
    ensures { option_map at_place result
        ≡ found_where (is_static_field linker.now.program) true
        (resolved_field linker.now.program class member.now.member) }
{
    static_field_in(linker, class, member.name(), member.descriptor())
}

// ---- numbers

/// The number of a class's static initializer, where it has one.
fn initializer_of(
    linker: &Linker,
    numbers: &MethodNumbers,
    wanted: &Wanted<'_>,
    class: u32,
) -> Option<u32>
    requires numbers { AreNumbers linker.now.program numbers.now }
    requires wanted { wanted_view wanted.now ≡ initializer_name }
    ensures { result ≡ initializer_of linker.now.program class }
{
    let position = method_at(linker.index(), wanted, class)?;
    numbers.number(class, position)
}

/// The same of a class that is loaded.
pub fn initializer_in(
    linker: &Linker,
    numbers: &MethodNumbers,
    lineage: &Lineage,
    wanted: &Wanted<'_>,
    class: u32,
) -> Option<u32>
    requires numbers { AreNumbers linker.now.program numbers.now }
    requires wanted { wanted_view wanted.now ≡ initializer_name }
    ensures { result ≡ initializer_in linker.now.program lineage.now.loaded class }
{
    if lineage.loaded.has(class) {
        initializer_of(linker, numbers, wanted, class)
    } else {
        None
    }
}

/// The number of the method that a class has for a method.
pub fn selected_number(
    linker: &Linker,
    numbers: &MethodNumbers,
    interface: bool,
    m: DeclaredMember,
    receiver: u32,
) -> Option<u32>
    requires numbers { AreNumbers linker.now.program numbers.now }
    requires loaded { IsLoaded linker.now receiver }
    ensures { result ≡ number_of linker.now.program
        (method_selected linker.now.program receiver interface (at_place m)) }
{
    let (class, position) = linker.select(receiver, m.class, m.position, interface)?;
    numbers.number(class, position)
}

/// The same, where the receiver's class is at or below this one.
fn selected_below(
    linker: &Linker,
    numbers: &MethodNumbers,
    interface: bool,
    class: u32,
    m: DeclaredMember,
    lower: u32,
) -> Option<u32>
    requires numbers { AreNumbers linker.now.program numbers.now }
    requires loaded { IsLoaded linker.now lower }
    ensures { result ≡ selected_below linker.now.program interface class (at_place m) lower }
{
    if linker.is_subtype(lower, class) {
        selected_number(linker, numbers, interface, m, lower)
    } else {
        None
    }
}

/// The same, where that is loaded.
pub fn selection_of(
    linker: &Linker,
    numbers: &MethodNumbers,
    lineage: &Lineage,
    interface: bool,
    class: u32,
    m: DeclaredMember,
    lower: u32,
) -> Option<u32>
    requires { AreKnown linker.now numbers.now lineage.now }
    ensures { result ≡ selection_of linker.now.program lineage.now.loaded interface class
        (at_place m) lower }
{
    if lineage.loaded.has(lower) {
        selected_below(linker, numbers, interface, class, m, lower)
    } else {
        None
    }
}
