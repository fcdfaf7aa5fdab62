//! Admission: a program's classes in order, then its methods, its main method and its acts.

ghost use Rattle.std.specs.Prelude.{◌≡◌, ◌++◌, [], ◌<◌, ◌≤◌, ◌^◌, length, IfOk, IfSome, OnOk};
ghost use Rattle.std.specs.List.{AllByRecursion};
ghost use Rattle.const_pool.specs.ClassFile.{IsClassFile};
ghost use Rattle.jvm_model.specs.Soundness.SoundPrograms.{IsHeapLimit};
ghost use Rattle.admit_check.specs.Admission.{admission_of, IsAdmittedProgram};
ghost use Rattle.admit_check.specs.Stages.{Answers, AreBuiltIn, HasNumbers, Passes};
ghost use Rattle.admit_check.specs.Admission.{class_fault, classes_fault};
ghost use Rattle.inject_events.specs.Answers.{IsReadableClass};
ghost use Rattle.inject_events.specs.Answers.{IsProfilable};
ghost use Rattle.admit_check.specs.Profiling.{HaveSoundTables};
ghost use Rattle.admit_check.specs.Stages.{code_fault_of, class_fault_among, with_name_of};
ghost use Rattle.admit_check.specs.Admission.{program_with, program_completed, admission};

use crate::name_set::{NameSet, name_fault};
use crate::profiling::profiling_fault;
use crate::program::{acts_of, main_in, methods_numbered};
use crate::shapes::shape_fault;
use base_classes::built_in;
use code_admission::{AdmitError, check_codes, floating_fault};
use const_pool::ClassFile;
use jf_bytes::{NoMemory, Seq, Text16};
use jvm_model::{Act, Program};
use plan_text::Plan;
use std::alloc::Global;

/// The most methods with Code that a program may have.
const MOST_METHODS: usize = 32_768;

/// The heap slots of a program whose plan names no number.
const USUAL_HEAP: u32 = 4_194_304;

// ---- the classes

/// The first fault of a class's codes, or of what they use and become.
fn check_code(alloc: Global, number: u32, class: &ClassFile) -> Result<(), AdmitError>
    requires { IsClassFile class.now }
    ensures passes { Passes result (code_fault_of number class.now) }
    ensures readable { OnOk result (IsReadableClass class.now) }
{
    let codes = match check_codes(alloc, number, class) {
        Ok(codes) => codes,
        Err(fault) => return Err(fault),
    };
    if let Some(fault) = floating_fault(alloc, number, class, codes.as_slice())? {
        return Err(fault);
    }
    pass(profiling_fault(alloc, number, class)?)
}

/// Err where there is a fault.
fn pass(fault: Option<AdmitError>) -> Result<(), AdmitError>
    ensures { Passes result fault }
{
    match fault {
        Some(fault) => Err(fault),
        None => Ok(()),
    }
}

/// The first fault of a class, with these names before it.
fn check_class(
    alloc: Global,
    number: u32,
    class: &ClassFile,
    names: &NameSet,
) -> Result<(), AdmitError>
    requires { IsClassFile class.now }
    ensures passes { Passes result (class_fault_among names.now number class.now) }
    ensures readable { OnOk result (IsReadableClass class.now) }
{
    if let Some(fault) = name_fault(number, class, names) {
        return Err(fault);
    }
    if let Some(fault) = shape_fault(alloc, number, class)? {
        return Err(fault);
    }
    check_code(alloc, number, class)
}

/// Whether admission takes a class where it is the first one, or its first fault: of its name, its shape, its codes,
/// its floating point, or of a method that can't be rewritten with probes. What rewrites classes takes each class that
/// is admitted, and refuses no method of it.
pub fn admit_class(alloc: Global, class: &ClassFile) -> Result<(), AdmitError>
    requires { IsClassFile class.now }
    ensures admitted { Passes result (class_fault [] 0 class.now) }
    ensures readable { OnOk result (IsReadableClass class.now) }
    ensures profilable { OnOk result (IsProfilable class.now) }
    ensures tables { OnOk result (HaveSoundTables class.now) }
{
    let names = NameSet::new(alloc);
    match check_class(alloc, 0, class, &names) {
        Ok(()) => Ok(()),
        Err(fault) => Err(fault),
    }
}

/// Adds the class's name.
fn add_name(alloc: Global, names: &mut NameSet, class: &ClassFile) -> Result<(), NoMemory>
    ensures { OnOk result (names.new ≡ with_name_of names.old class.now) }
{
    match class.pool.class_name(class.this_class) {
        Ok(name) => names.add(alloc, name),
        Err(_) => Ok(()),
    }
}

/// The first fault of the classes.
fn check_classes(alloc: Global, classes: &[ClassFile]) -> Result<(), AdmitError>
    requires formed { AllByRecursion IsClassFile classes.now }
    requires count { length classes.now < 2 ^ 32 }
    ensures { Passes result (classes_fault [] classes.now) }
{
    let mut names = NameSet::new(alloc);
    for (number, class) in classes.iter().enumerate() {
        match check_class(alloc, number as u32, class, &names) {
            Ok(()) => add_name(alloc, &mut names, class)?,
            Err(fault) => return Err(fault),
        }
    }
    Ok(())
}

// ---- the program

/// The classes, and the built-in ones behind them.
fn classes_joined(
    classes: Seq<ClassFile>,
    built_in: Vec<ClassFile>,
) -> Result<Seq<ClassFile>, NoMemory>
    ensures { IfOk result (λ all. all ≡ classes ++ built_in.items) }
{
    let mut all = classes.into_vec();
    let mut more = built_in;
    all.append(&mut more)?;
    Ok(Seq::from_vec(all))
}

/// A copy of the texts.
fn copies(alloc: Global, texts: &[Text16]) -> Result<Seq<Text16>, NoMemory>
    ensures { IfOk result (λ copies. copies ≡ texts.now) }
{
    let mut copies = Seq::with_capacity(alloc, texts.len())?;
    for text in texts {
        copies.push(Text16::new(Vec::from_slice(alloc, text.units())?))?;
    }
    Ok(copies)
}

/// The program, but for its main method and its acts.
fn program_with(
    alloc: Global,
    classes: Seq<ClassFile>,
    built_in: Vec<ClassFile>,
    plan: &Plan,
) -> Result<Program, NoMemory>
    requires formed { AllByRecursion IsClassFile (classes ++ built_in.items) }
    requires count { length (classes ++ built_in.items) < 2 ^ 32 }
    ensures { IfOk result (λ program. program ≡ program_with classes built_in.items plan.now) }
{
    let classes = classes_joined(classes, built_in)?;
    let methods = methods_numbered(alloc, classes.as_slice())?;
    let args = copies(alloc, plan.args.as_slice())?;
    Ok(Program {
        classes,
        methods,
        main: 0,
        acts: Seq::new(alloc),
        args,
        heap: plan.heap.unwrap_or(USUAL_HEAP),
    })
}

/// The program with its main method and its acts, or the fault behind the last class.
fn complete(
    alloc: Global,
    program: Program,
    given: usize,
    main: &Text16,
    plan: &Plan,
) -> Result<Program, AdmitError>
    requires numbers { HasNumbers program }
    requires count { length plan.now.actions < 2 ^ 32 }
    ensures { Answers result (program_completed program given main.now plan.now) }
{
    let count = program.methods.len();
    if MOST_METHODS < count {
        return Err(AdmitError::TooManyMethods(count as u32));
    }
    let Some(main) = main_in(&program, given, main) else {
        return Err(AdmitError::NoMain);
    };
    match acts_of(alloc, &program, plan.actions.as_slice()) {
        Ok(acts) => Ok(with_acts(program, main, acts)),
        Err(fault) => Err(fault),
    }
}

/// The program with this main method and these acts.
fn with_acts(program: Program, main: u32, acts: Seq<Act>) -> Program
    ensures { result ≡ record program { main = main; acts = acts } }
{
    let mut program = program;
    program.main = main;
    program.acts = acts;
    program
}

// ---- the answer

/// The program of the classes and the built-in ones behind them, or the first fault.
fn admit_over(
    alloc: Global,
    classes: Seq<ClassFile>,
    built_in: Vec<ClassFile>,
    main: &Text16,
    plan: &Plan,
) -> Result<Program, AdmitError>
    requires formed { AllByRecursion IsClassFile classes }
    requires count { length classes ≤ 4096 }
    requires built_in { AreBuiltIn built_in.items }
    requires actions { length plan.now.actions < 2 ^ 32 }
    ensures { Answers result (admission classes built_in.items main.now plan.now) }
{
    match check_classes(alloc, classes.as_slice()) {
        Ok(()) => {
            let given = classes.len();
            let program = program_with(alloc, classes, built_in, plan)?;
            complete(alloc, program, given, main, plan)
        }
        Err(fault) => Err(fault),
    }
}

/// The program of these classes, with the built-in ones behind them, or its first fault. The classes are taken in
/// order, and of each its name, its shape, its codes, its floating point and then what can't be rewritten with probes;
/// behind the last class come the number of methods, the main method in the class named `main`, with slashes, and the
/// roots of the plan's actions. Each class is read once, and rewritten once where a code of it is long; each action
/// looks through the classes and the methods. Neither the plan's main class nor its budget is looked at. What the
/// program has is all that the machine, the linker, the report and what rewrites classes ask of it.
pub fn admit(
    alloc: Global,
    classes: Seq<ClassFile>,
    main: &Text16,
    plan: &Plan,
) -> Result<Program, AdmitError>
    requires formed { AllByRecursion IsClassFile classes }
    requires count { length classes ≤ 4096 }
    requires actions { length plan.now.actions < 2 ^ 32 }
    requires heap { IfSome plan.now.heap IsHeapLimit }
    ensures admitted { Answers result (admission_of classes main.now plan.now) }
    ensures sound { IfOk result (IsAdmittedProgram classes main.now) }
{
    match built_in(alloc) {
        Ok(built_in) => admit_over(alloc, classes, built_in, main, plan),
        Err(NoMemory) => Err(AdmitError::NoMemory),
    }
}
