//! The program of classes that have no fault: its methods by numbers, its main method, and what the plan asks for (JVM
//! Specification 5.4.3.3, 12.1.4 of the Java language).

ghost use Rattle.std.specs.Prelude.{◌≡◌, ◌++◌, ◌<◌, ◌^◌, length, position, is_some, IfOk, OnOk};
ghost use Rattle.std.specs.List.{AllByRecursion};
ghost use Rattle.const_pool.specs.ClassFile.{IsClassFile};
ghost use Rattle.const_pool.specs.References.{name_type_of};
ghost use Rattle.jvm_model.specs.Basis.Methods.{code_of, is_member, method_named};
ghost use Rattle.jvm_model.specs.Basis.Programs.{coded_from, declared_method, has_name, number_from};
ghost use Rattle.jvm_model.specs.Basis.Programs.{methods_numbered, same_place};
ghost use Rattle.jvm_model.specs.Basis.MainMethod.{is_public_static, main_member, public_static};
ghost use Rattle.admit_check.specs.Admission.{act_of, acts_from};
ghost use Rattle.admit_check.specs.Stages.{Answers, HasNumbers};
ghost use Rattle.admit_check.specs.Admission.{root_in};
ghost use Rattle.jvm_model.specs.Soundness.SoundPrograms.{declared_main, main_in, main_of_class};

use base_classes::{PUBLIC, STATIC};
use code_admission::AdmitError;
use const_pool::{ClassFile, Member, Pool};
use jf_bytes::{NoMemory, Seq, Text16};
use jvm_model::{Act, MethodPlace, Program, code_of};
use plan_text::{Action, RootName};
use std::alloc::Global;

// ---- the methods, by numbers

/// Adds the places of a class's methods that have Code.
fn add_coded(places: &mut Seq<MethodPlace>, class: u32, methods: &[Member]) -> Result<(), NoMemory>
    requires { length methods.now < 2 ^ 16 }
    ensures { OnOk result (places.new ≡ places.old ++ coded_from class 0 methods.now) }
{
    for (at, method) in methods.iter().enumerate() {
        if code_of(method).is_some() {
            places.push(MethodPlace {
                class,
                position: at as u16,
            })?;
        }
    }
    Ok(())
}

/// The methods that have Code, class by class.
pub fn methods_numbered(alloc: Global, classes: &[ClassFile]) -> Result<Seq<MethodPlace>, NoMemory>
    requires formed { AllByRecursion IsClassFile classes.now }
    requires count { length classes.now < 2 ^ 32 }
    ensures { IfOk result (λ places. places ≡ methods_numbered classes.now) }
{
    let mut places = Seq::new(alloc);
    for (number, class) in classes.iter().enumerate() {
        add_coded(&mut places, number as u32, class.methods.as_slice())?;
    }
    Ok(places)
}

/// Whether this is where the method at a position of a class stands.
fn is_place(class: u32, at: u16, place: &MethodPlace) -> bool
    ensures { result ≡ same_place class at place.now }
{
    place.class == class && place.position == at
}

/// The number of the method at a position of a class.
fn number_of(places: &[MethodPlace], class: u32, at: u16) -> Option<u32>
    requires { length places.now < 2 ^ 32 }
    ensures { result ≡ number_from 0 class at places.now }
{
    for (number, place) in places.iter().enumerate() {
        if is_place(class, at, place) {
            return Some(number as u32);
        }
    }
    None
}

// ---- classes and methods by their names

/// Whether the class has this name.
fn has_name(name: &Text16, class: &ClassFile) -> bool
    ensures { result ≡ has_name name.now class.now }
{
    match class.pool.class_name(class.this_class) {
        Ok(found) => name.same(found),
        Err(_) => false,
    }
}

/// The position of the class with this name.
fn class_named(classes: &[ClassFile], name: &Text16) -> Option<usize>
    ensures { result ≡ position (has_name name.now) classes.now }
{
    classes.iter().position(|class| has_name(name, class))
}

/// Whether a method has this name and this descriptor.
fn is_member(pool: &Pool, name: &Text16, descriptor: &Text16, method: &Member) -> bool
    ensures { result ≡ is_member pool.now (name_type_of name.now descriptor.now) method.now }
{
    pool.is_text(method.name, name) && pool.is_text(method.descriptor, descriptor)
}

/// Whether a method has the name and the descriptor of `main`.
fn is_main(pool: &Pool, method: &Member) -> bool
    ensures { result ≡ is_member pool.now main_member method.now }
{
    pool.is_bytes(method.name, b"main")
        && pool.is_bytes(method.descriptor, b"([Ljava/lang/String;)V")
}

/// The position of the first method with this name and this descriptor.
fn method_named(class: &ClassFile, name: &Text16, descriptor: &Text16) -> Option<u16>
    requires { length class.now.methods < 2 ^ 16 }
    ensures { result ≡ method_named class.now (name_type_of name.now descriptor.now) }
{
    for (at, method) in class.methods.as_slice().iter().enumerate() {
        if is_member(&class.pool, name, descriptor, method) {
            return Some(at as u16);
        }
    }
    None
}

/// The position of the first method with the name and the descriptor of `main`.
fn main_named(class: &ClassFile) -> Option<u16>
    requires { length class.now.methods < 2 ^ 16 }
    ensures { result ≡ method_named class.now main_member }
{
    for (at, method) in class.methods.as_slice().iter().enumerate() {
        if is_main(&class.pool, method) {
            return Some(at as u16);
        }
    }
    None
}

// ---- the main method

/// Whether the flags say public and static.
fn is_public_static(access: u16) -> bool
    ensures { result ≡ is_public_static access }
{
    access & PUBLIC != 0 && access & STATIC != 0
}

/// The position, if the method there is public and static.
fn public_static(class: &ClassFile, at: u16) -> Option<u16>
    ensures { result ≡ public_static class.now at }
{
    let method = class.methods.get(at as usize)?;
    if is_public_static(method.access) {
        Some(at)
    } else {
        None
    }
}

/// The position of the class's public static `main`.
fn declared_main(class: &ClassFile) -> Option<u16>
    requires { length class.now.methods < 2 ^ 16 }
    ensures { result ≡ declared_main class.now }
{
    public_static(class, main_named(class)?)
}

/// The number of the public static `main` with Code of the class at a position.
fn main_of_class(program: &Program, class: usize) -> Option<u32>
    requires { HasNumbers program.now }
    ensures { result ≡ main_of_class program.now class }
{
    let found = program.classes.get(class)?;
    let at = declared_main(found)?;
    number_of(program.methods.as_slice(), class as u32, at)
}

/// The number of the main method, in the class of this name among the first `given`.
pub fn main_in(program: &Program, given: usize, name: &Text16) -> Option<u32>
    requires { HasNumbers program.now }
    ensures { result ≡ main_in program.now given name.now }
{
    let class = class_named(program.classes.as_slice(), name)?;
    if class < given {
        main_of_class(program, class)
    } else {
        None
    }
}

// ---- what the plan asks for

/// The number of the method of this name and descriptor in the class at a position.
fn declared_method(program: &Program, root: &RootName, class: usize) -> Option<u32>
    requires { HasNumbers program.now }
    ensures { result
        ≡ declared_method program.now (name_type_of root.now.name root.now.descriptor) class }
{
    let found = program.classes.get(class)?;
    let at = method_named(found, &root.name, &root.descriptor)?;
    number_of(program.methods.as_slice(), class as u32, at)
}

/// The number of the method that a root names.
fn root_in(program: &Program, root: &RootName) -> Option<u32>
    requires { HasNumbers program.now }
    ensures { result ≡ root_in program.now root.now }
{
    let class = class_named(program.classes.as_slice(), &root.class)?;
    declared_method(program, root, class)
}

/// The action, with the number of its method.
fn act_of(program: &Program, action: &Action) -> Option<Act>
    requires { HasNumbers program.now }
    ensures { result ≡ act_of program.now action.now }
{
    let method = root_in(program, &action.root)?;
    Some(Act {
        moment: action.moment,
        select: action.select,
        method,
    })
}

/// The actions in order, each with the number of its method.
pub fn acts_of(alloc: Global, program: &Program, actions: &[Action]) -> Result<Seq<Act>, AdmitError>
    requires numbers { HasNumbers program.now }
    requires count { length actions.now < 2 ^ 32 }
    ensures { Answers result (acts_from program.now 1 actions.now) }
{
    let mut acts = Seq::with_capacity(alloc, actions.len())?;
    for (at, action) in actions.iter().enumerate() {
        let Some(act) = act_of(program, action) else {
            return Err(AdmitError::NoSuchRoot(at as u32 + 1));
        };
        acts.push(act)?;
    }
    Ok(acts)
}
