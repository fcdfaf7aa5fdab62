//! Reads the plan, and fetches, reads and admits the class files, or has the program generated.

ghost use Rattle.std.specs.Prelude.{◌≡◌, ◌≢◌, ◌≤◌, length, [], Some, None, ℕ, List, Option, IfOk, IfErr, IsOk};
ghost use Rattle.std.specs.List.{AllByRecursion};
ghost use Rattle.const_pool.specs.ClassFile.{IsClassFile};
ghost use Rattle.plan_text.specs.Bounds.{IsWithin};
ghost use Rattle.plan_text.specs.Numbers.{greatest_steps};
ghost use Rattle.command_line.specs.Words.{IsSound, most_files, read_in, texts};
ghost use Rattle.jfluid_cli.specs.Actions.{AlternateRoots, CanBeTaken};
ghost use Rattle.jfluid_cli.specs.Asking.{asked_for};
ghost use Rattle.jfluid_cli.specs.Causes.{CallInputs};
ghost use Rattle.jfluid_cli.specs.Contents.{AreFetched, IsFrontFor, SpellsAlone, SpellAlone, classes_for};
ghost use Rattle.jfluid_cli.specs.Refusals.{is_memory as of_memory, refusal_for as refusal_of_fault, status_of};
ghost use Rattle.jfluid_cli.specs.Sinks.{files_view};
ghost use Rattle.jfluid_cli.specs.Stages.{AreReadWith, IsFetchedFor, IsFetchFault, IsFetchRefusal, IsUnread};
ghost use Rattle.jfluid_cli.specs.Stages.{IsReadRefusal, IsPrepared, IsBeforeTheRun, HasFetchCause};
ghost use Rattle.jfluid_cli.specs.Top.{IsProgram};
ghost use Rattle.jfluid_cli.specs.Words.{words_accepted};
ghost use Rattle.program_fit.specs.Runnable.{IsAdmitted};

use crate::plans::plan_of;
use crate::refusal::{Refusal, word_at};
use admit_check::admit;
use byte_streams::{FetchError, Files};
use class_reader::{MOST_BYTES, ReadError, read_class};
use code_admission::AdmitError;
use command_line::{Generation, Words, command_of};
use const_pool::ClassFile;
use generated_programs::admit_generated;
use jf_bytes::{Seq, Text16};
use jvm_model::Program;
use plan_text::Plan;
use std::alloc::Global;

// ---- reading

/// Reads the contents of the class file at a position.
fn read_one(alloc: Global, at: u32, bytes: &[u8]) -> Result<ClassFile, Refusal>
    ensures found { IfOk result (SpellsAlone bytes.now) }
    ensures formed { IfOk result IsClassFile }
    ensures errors { IfErr result (IsUnread bytes.now at) }
{
    match read_class(alloc, bytes) {
        Ok(class) => Ok(class),
        Err(ReadError::NoMemory) => Err(Refusal::NoMemory),
        Err(fault) => Err(Refusal::NotRead(at, fault)),
    }
}

/// Reads the contents of class files in their order, up to the first fault.
fn read_all(alloc: Global, contents: &[Seq<u8>]) -> Result<Seq<ClassFile>, Refusal>
    requires few { length contents.now ≤ most_files }
    ensures found { IfOk result (SpellAlone contents.now) }
    ensures formed { IfOk result (AllByRecursion IsClassFile) }
    ensures errors { IfErr result (IsReadRefusal contents.now) }
{
    let mut classes = Seq::new(alloc);
    for (at, bytes) in contents.iter().enumerate() {
        let class = match read_one(alloc, at as u32, bytes.as_slice()) {
            Ok(class) => class,
            Err(refusal) => return Err(refusal),
        };
        let Ok(()) = classes.push(class) else {
            return Err(Refusal::NoMemory);
        };
    }
    Ok(classes)
}

/// Whether the fault is want of memory.
fn is_memory(fault: AdmitError) -> bool
    ensures { result ≡ of_memory fault }
{
    match fault {
        AdmitError::NoMemory => true,
        AdmitError::ReservedName(_)
        | AdmitError::Duplicate(_)
        | AdmitError::BadShape(..)
        | AdmitError::BadCode(..)
        | AdmitError::FloatingPoint(..)
        | AdmitError::NotProfilable(..)
        | AdmitError::TooManyMethods(_)
        | AdmitError::NoMain
        | AdmitError::NoSuchRoot(_) => false,
    }
}

/// Why classes are not admitted: for a fault of theirs, or for want of memory.
fn refusal_for(fault: AdmitError) -> Refusal
    ensures { result ≡ refusal_of_fault fault }
{
    if is_memory(fault) {
        Refusal::NoMemory
    } else {
        Refusal::NotAdmitted(fault)
    }
}

/// Reads class files and admits them, with this main class and plan.
fn read_program(
    alloc: Global,
    contents: &[Seq<u8>],
    main: &Text16,
    plan: &Plan,
) -> Result<Program, Refusal>
    requires few { length contents.now ≤ most_files }
    requires within { IsWithin plan.now }
    requires alternate { AlternateRoots [] plan.now.actions }
    ensures ok { IfOk result (λ p.
        IsProgram (asked_for main.now plan.now) contents.now p) }
    ensures alone { IfOk result (λ p. SpellAlone contents.now (classes_for contents.now p)) }
    ensures admitted { IfOk result IsAdmitted }
    ensures acts { IfOk result (λ p. CanBeTaken p.acts) }
    ensures before_the_run { (g : CallInputs)
        → IsFetchedFor g (asked_for main.now plan.now) contents.now
        →
        IfErr result (IsBeforeTheRun g) }
    ensures without_fault { IfErr result (λ e. status_of e ≢ 7) }
{
    let classes = match read_all(alloc, contents) {
        Ok(classes) => classes,
        Err(refusal) => return Err(refusal),
    };
    match admit(alloc, classes, main, plan) {
        Ok(program) => Ok(program),
        Err(fault) => Err(refusal_for(fault)),
    }
}

// ---- fetching

/// Fetches the class file at a position, or, of a longer one, enough to see that it is too long.
fn fetch<F: Files>(alloc: Global, at: u32, name: &str, files: &mut F) -> Result<Seq<u8>, Refusal>
    ensures found { IfOk result (IsFrontFor (F.contents files.old) name.now) }
    ensures stay { F.contents files.new ≡ F.contents files.old }
    ensures without_fault { let old = files_view (F.faults files.old) (F.last_failed files.old) in
        let new = files_view (F.faults files.new) (F.last_failed files.new) in
        IsOk result → new ≡ old }
    ensures failed { let old = files_view (F.faults files.old) (F.last_failed files.old) in
        let new = files_view (F.faults files.new) (F.last_failed files.new) in
        IfErr result (IsFetchFault name.now (Refusal.NotFetched at) old new) }
{
    match files.fetch(alloc, name, MOST_BYTES) {
        Ok(bytes) => Ok(Seq::from_vec(bytes)),
        Err(FetchError::Failed) => Err(Refusal::NotFetched(at)),
        Err(FetchError::NoMemory) => Err(Refusal::NoMemory),
    }
}

/// Fetches class files in the order of their names, up to the first fetch that fails.
fn fetch_all<F: Files>(
    alloc: Global,
    names: &[&str],
    files: &mut F,
) -> Result<Seq<Seq<u8>>, Refusal>
    requires few { length names.now ≤ most_files }
    ensures found { IfOk result (AreFetched (F.contents files.old) (texts names.now)) }
    ensures refused { IfErr result (IsFetchRefusal (F.contents files.old) (texts names.now)) }
    ensures cause { let old = files_view (F.faults files.old) (F.last_failed files.old) in
        let new = files_view (F.faults files.new) (F.last_failed files.new) in
        (named : Option (List ℕ)) →
        IfErr result (HasFetchCause named (texts names.now) old new) }
    ensures stay { F.contents files.new ≡ F.contents files.old }
    ensures without_fault { let old = files_view (F.faults files.old) (F.last_failed files.old) in
        let new = files_view (F.faults files.new) (F.last_failed files.new) in
        IsOk result → new ≡ old }
{
    let mut all = Seq::new(alloc);
    for at in 0..names.len() {
        let bytes = match fetch(alloc, at as u32, word_at(names, at as u32), files) {
            Ok(bytes) => bytes,
            Err(refusal) => return Err(refusal),
        };
        let Ok(()) = all.push(bytes) else {
            return Err(Refusal::NoMemory);
        };
    }
    Ok(all)
}

// ---- loading

/// The contents of class files, in their order, their program, and the most steps that it makes.
#[derive(Drop)]
struct LoadedProgram {
    contents: Seq<Seq<u8>>,
    program: Program,
    budget: u64,
}

/// What words and their plan ask for: the plan, the contents of the class files, in the order of
/// their words or of the generated classes, their program, and the most steps that it makes.
#[derive(Drop)]
pub struct LoadedCommand {
    pub plan: Plan,
    pub contents: Seq<Seq<u8>>,
    pub program: Program,
    pub budget: u64,
}

/// Fetches all class files of words and their plan, and then reads and admits them.
fn load_files<F: Files>(
    alloc: Global,
    words: &Words<'_>,
    plan: &Plan,
    files: &mut F,
) -> Result<LoadedProgram, Refusal>
    requires sound { IsSound (read_in words.now) }
    requires own { words.now.generated ≡ None }
    requires within { IsWithin plan.now }
    requires alternate { AlternateRoots [] plan.now.actions }
    ensures ok { (g : CallInputs) → AreReadWith g (read_in words.now) plan.now →
        g.told ≡ F.contents files.old → IfOk result (λ l.
        IsPrepared g plan.now l.budget l.contents l.program) }
    ensures small { IfOk result (λ l. l.budget ≤ greatest_steps) }
    ensures admitted { IfOk result (λ l. IsAdmitted l.program) }
    ensures acts { IfOk result (λ l. CanBeTaken l.program.acts) }
    ensures before_the_run { (g : CallInputs) → AreReadWith g (read_in words.now) plan.now →
        g.told ≡ F.contents files.old → IfErr result (IsBeforeTheRun g) }
    ensures stay { F.contents files.new ≡ F.contents files.old }
    ensures without_fault { let old = files_view (F.faults files.old) (F.last_failed files.old) in
        let new = files_view (F.faults files.new) (F.last_failed files.new) in
        IsOk result → new ≡ old }
    ensures cause { let old = files_view (F.faults files.old) (F.last_failed files.old) in
        let new = files_view (F.faults files.new) (F.last_failed files.new) in
        let r = read_in words.now in
        IfErr result (HasFetchCause r.plan r.files old new) }
{
    let Some(command) = command_of(words, plan) else {
        return Err(Refusal::Words);
    };
    let contents = match fetch_all(alloc, &words.files, files) {
        Ok(contents) => contents,
        Err(refusal) => return Err(refusal),
    };
    match read_program(alloc, contents.as_slice(), command.main, plan) {
        Ok(program) => Ok(LoadedProgram {
            contents,
            program,
            budget: command.budget,
        }),
        Err(refusal) => Err(refusal),
    }
}

/// Makes the program that words generate, with the acts of their plan, and the bytes of its classes.
fn load_generated(
    alloc: Global,
    words: &Words<'_>,
    generation: Generation,
    plan: &Plan,
) -> Result<LoadedProgram, Refusal>
    requires sound { IsSound (read_in words.now) }
    requires own { words.now.generated ≡ Some generation }
    requires within { IsWithin plan.now }
    requires alternate { AlternateRoots [] plan.now.actions }
    ensures ok { (g : CallInputs) → AreReadWith g (read_in words.now) plan.now →
        IfOk result (λ l. IsPrepared g plan.now l.budget l.contents l.program) }
    ensures small { IfOk result (λ l. l.budget ≤ greatest_steps) }
    ensures admitted { IfOk result (λ l. IsAdmitted l.program) }
    ensures acts { IfOk result (λ l. CanBeTaken l.program.acts) }
    ensures before_the_run { (g : CallInputs) → AreReadWith g (read_in words.now) plan.now →
        IfErr result (IsBeforeTheRun g) }
    ensures without_fault { IfErr result (λ e. status_of e ≢ 7) }
{
    let Some(command) = command_of(words, plan) else {
        unreachable!()
    };
    match admit_generated(alloc, generation.seed, generation.size, plan) {
        Ok(made) => Ok(LoadedProgram {
            contents: made.contents,
            program: made.program,
            budget: command.budget,
        }),
        Err(fault) => Err(refusal_for(fault)),
    }
}

/// Loads the class files of words and their plan, or makes the program that they generate.
fn load<F: Files>(
    alloc: Global,
    words: &Words<'_>,
    plan: &Plan,
    files: &mut F,
) -> Result<LoadedProgram, Refusal>
    requires sound { IsSound (read_in words.now) }
    requires within { IsWithin plan.now }
    requires alternate { AlternateRoots [] plan.now.actions }
    ensures ok { (g : CallInputs) → AreReadWith g (read_in words.now) plan.now →
        g.told ≡ F.contents files.old → IfOk result (λ l.
        IsPrepared g plan.now l.budget l.contents l.program) }
    ensures small { IfOk result (λ l. l.budget ≤ greatest_steps) }
    ensures admitted { IfOk result (λ l. IsAdmitted l.program) }
    ensures acts { IfOk result (λ l. CanBeTaken l.program.acts) }
    ensures before_the_run { (g : CallInputs) → AreReadWith g (read_in words.now) plan.now →
        g.told ≡ F.contents files.old → IfErr result (IsBeforeTheRun g) }
    ensures stay { F.contents files.new ≡ F.contents files.old }
    ensures without_fault { let old = files_view (F.faults files.old) (F.last_failed files.old) in
        let new = files_view (F.faults files.new) (F.last_failed files.new) in
        IsOk result → new ≡ old }
    ensures cause { let old = files_view (F.faults files.old) (F.last_failed files.old) in
        let new = files_view (F.faults files.new) (F.last_failed files.new) in
        let r = read_in words.now in
        IfErr result (HasFetchCause r.plan r.files old new) }
{
    match words.generated {
        Some(generation) => load_generated(alloc, words, generation, plan),
        None => load_files(alloc, words, plan, files),
    }
}

/// Reads the plan of the words, and loads the classes that they ask for with it.
pub fn prepare<F: Files>(
    alloc: Global,
    words: &Words<'_>,
    files: &mut F,
) -> Result<LoadedCommand, Refusal>
    requires sound { IsSound (read_in words.now) }
    ensures ok { (g : CallInputs) → words_accepted g.words ≡ Some (read_in words.now) →
        g.told ≡ F.contents files.old → IfOk result (λ l.
        IsPrepared g l.plan l.budget l.contents l.program) }
    ensures small { IfOk result (λ l. l.budget ≤ greatest_steps) }
    ensures admitted { IfOk result (λ l. IsAdmitted l.program) }
    ensures acts { IfOk result (λ l. CanBeTaken l.program.acts) }
    ensures before_the_run { (g : CallInputs) → words_accepted g.words ≡ Some (read_in words.now) →
        g.told ≡ F.contents files.old → IfErr result (IsBeforeTheRun g) }
    ensures stay { F.contents files.new ≡ F.contents files.old }
    ensures without_fault { let old = files_view (F.faults files.old) (F.last_failed files.old) in
        let new = files_view (F.faults files.new) (F.last_failed files.new) in
        IsOk result → new ≡ old }
    ensures cause { let old = files_view (F.faults files.old) (F.last_failed files.old) in
        let new = files_view (F.faults files.new) (F.last_failed files.new) in
        let r = read_in words.now in
        IfErr result (HasFetchCause r.plan r.files old new) }
{
    let plan = match plan_of(alloc, words, files) {
        Ok(plan) => plan,
        Err(refusal) => return Err(refusal),
    };
    match load(alloc, words, &plan, files) {
        Ok(found) => {
            let LoadedProgram {
                contents,
                program,
                budget,
            } = found;
            Ok(LoadedCommand {
                plan,
                contents,
                program,
                budget,
            })
        }
        Err(refusal) => Err(refusal),
    }
}
