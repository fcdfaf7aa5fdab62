//! Preparing the methods of a program: what is kept of each.

ghost use Rattle.std.specs.Prelude.{◌≡◌, ◌<◌, ◌^◌, length, map, IfOk};
ghost use Rattle.jvm_model.specs.Basis.SharedState.{kind_for, string};
ghost use Rattle.jvm_model.specs.declared.exception.Exception.{Exception as TheException};
ghost use Rattle.prepared_code.specs.Entries.{code_line, lines_of, params_of};
ghost use Rattle.std.specs.List.{range_with_len};
ghost use Rattle.prepared_code.specs.Entries.{entry_at, entry_of, no_method};
ghost use Rattle.prepared_code.specs.Entries.{catching_of, no_version, own_number, original_version};
ghost use Rattle.prepared_code.specs.Making.{bare, bare_versions, without_lines};
ghost use Rattle.prepared_code.specs.Entries.{version_entry, version_of};
ghost use Rattle.prepared_code.specs.Prepared.{FitsOriginals, HasShortCode};
ghost use Rattle.symbolic_references.specs.ProgramFacts.{AreTablesOf, exception_in, exception_kind};

use crate::versions::{Catching, PreparedCode, Version, Versions};
use class_index::Index;
use code_model::instr_at;
use const_pool::{ClassFile, Handler, Kind, Member};
use jf_bytes::{NoMemory, Seq, Text16};
use jvm_model::{Mark, MethodPlace, Program, code_of};
use member_selection::MethodNumbers;
use method_versions::Held;
use prepared_lines::{Line, class_in, line_of, shape_of};
use std::alloc::Global;
use symbolic_references::{Exceptions, Method, ProgramTables, class_for, kind_for};

/// The line at an offset of a code.
pub fn code_line(
    alloc: Global,
    class: &ClassFile,
    code: &[u8],
    at: u16,
) -> Result<Option<Line>, NoMemory>
    requires { length code.now < 2 ^ 16 }
    ensures { IfOk result (λ line. line ≡ code_line class.now code.now at) }
{
    let found = instr_at(alloc, code, at)?;
    match found {
        Some(instr) => line_of(alloc, class, instr),
        None => Ok(None),
    }
}

/// The line at each offset of a code.
fn lines_of(alloc: Global, class: &ClassFile, code: &[u8]) -> Result<Seq<Option<Line>>, NoMemory>
    requires { length code.now < 2 ^ 16 }
    ensures { IfOk result (λ lines. lines ≡ lines_of class.now code.now) }
{
    let mut lines = Seq::with_capacity(alloc, code.len())?;
    for at in 0..code.len() as u16 {
        let line = code_line(alloc, class, code, at)?;
        lines.push(line)?;
    }
    Ok(lines)
}

/// The kinds of a method's parameters, where it has a method descriptor.
fn params_of(
    alloc: Global,
    class: &ClassFile,
    member: &Member,
) -> Result<Option<Seq<Kind>>, NoMemory>
    ensures { IfOk result (λ params. params ≡ params_of class.now member.now) }
{
    let Ok(descriptor) = class.pool.text(member.descriptor) else {
        return Ok(None);
    };
    match shape_of(alloc, descriptor)? {
        Some(shape) => Ok(Some(shape.params)),
        None => Ok(None),
    }
}

/// Prepares a method.
fn prepare(alloc: Global, class: &ClassFile, member: &Member) -> Result<Method, NoMemory>
    requires { HasShortCode member.now }
    ensures { IfOk result (λ method. method ≡ entry_of class.now member.now) }
{
    let params = params_of(alloc, class, member)?;
    let Some(code) = code_of(member) else {
        return Ok(Method {
            params,
            max_stack: 0,
            max_locals: 0,
        });
    };
    Ok(Method {
        params,
        max_stack: code.max_stack,
        max_locals: code.max_locals,
    })
}

/// Nothing, where a program has no method.
fn no_method() -> Method
    ensures { result ≡ no_method }
{
    Method {
        params: None,
        max_stack: 0,
        max_locals: 0,
    }
}

/// Prepares the method at a place of a program.
fn prepare_at(alloc: Global, program: &Program, place: MethodPlace) -> Result<Method, NoMemory>
    requires { FitsOriginals program.now }
    ensures { IfOk result (λ method. method ≡ entry_at program.now place) }
{
    let Some(class) = program.classes.get(place.class as usize) else {
        return Ok(no_method());
    };
    match class.methods.get(place.position as usize) {
        Some(member) => prepare(alloc, class, member),
        None => Ok(no_method()),
    }
}

/// Prepares each method of a program, by its number.
pub fn prepare_methods(alloc: Global, program: &Program) -> Result<Seq<Method>, NoMemory>
    requires { FitsOriginals program.now }
    ensures { IfOk result (λ methods. methods ≡ map (entry_at program.now) program.now.methods) }
{
    let mut methods = Seq::with_capacity(alloc, program.methods.len())?;
    for place in program.methods.as_slice() {
        methods.push(prepare_at(alloc, program, *place)?)?;
    }
    Ok(methods)
}

// ---- versions

/// The name of the class that a handler catches.
fn catches_of(
    alloc: Global,
    class: &ClassFile,
    handler: &Handler,
) -> Result<Option<Text16>, NoMemory>
    ensures { IfOk result (λ name. name ≡ (catching_of class.now handler.now).catches) }
{
    if handler.catch_class == 0 {
        return Ok(None);
    }
    class_in(alloc, &class.pool, handler.catch_class)
}

/// A handler of a class's code, with the name of the class that it catches.
fn catching_of(alloc: Global, class: &ClassFile, handler: &Handler) -> Result<Catching, NoMemory>
    ensures { IfOk result (λ h. h ≡ catching_of class.now handler.now) }
{
    let catches = catches_of(alloc, class, handler)?;
    Ok(Catching {
        start: handler.start,
        end: handler.end,
        target: handler.handler,
        catches,
    })
}

/// The handlers of a class's code.
pub fn handlers_of(
    alloc: Global,
    class: &ClassFile,
    handlers: &[Handler],
) -> Result<Seq<Catching>, NoMemory>
    ensures { IfOk result (λ hs. hs ≡ map (catching_of class.now) handlers.now) }
{
    let mut all = Seq::with_capacity(alloc, handlers.len())?;
    for handler in handlers {
        all.push(catching_of(alloc, class, handler)?)?;
    }
    Ok(all)
}

/// No code.
fn no_version(alloc: Global, method: u32) -> Version
    ensures { result ≡ no_version method }
{
    Held {
        method,
        prepared: PreparedCode {
            has_lines: true,
            mark: Mark::Off,
            first: 0,
            lines: Seq::new(alloc),
            handlers: Seq::new(alloc),
        },
    }
}

/// The version that a method's original code is.
fn version_entry(
    alloc: Global,
    method: u32,
    class: &ClassFile,
    member: &Member,
) -> Result<Version, NoMemory>
    requires { HasShortCode member.now }
    ensures { IfOk result (λ version. version ≡ version_entry method class.now member.now) }
{
    let Some(code) = code_of(member) else {
        return Ok(no_version(alloc, method));
    };
    let lines = lines_of(alloc, class, code.code.as_slice())?;
    let handlers = handlers_of(alloc, class, code.handlers.as_slice())?;
    Ok(Held {
        method,
        prepared: PreparedCode {
            has_lines: true,
            mark: Mark::Off,
            first: 0,
            lines,
            handlers,
        },
    })
}

/// The same of the method at a place of a program.
fn version_of(
    alloc: Global,
    program: &Program,
    method: u32,
    place: MethodPlace,
) -> Result<Version, NoMemory>
    requires { FitsOriginals program.now }
    ensures { IfOk result (λ version. version ≡ version_of program.now method place) }
{
    let Some(class) = program.classes.get(place.class as usize) else {
        return Ok(no_version(alloc, method));
    };
    match class.methods.get(place.position as usize) {
        Some(member) => version_entry(alloc, method, class, member),
        None => Ok(no_version(alloc, method)),
    }
}

/// The same of the method with this number.
pub fn original_version(alloc: Global, program: &Program, method: u32) -> Result<Version, NoMemory>
    requires { FitsOriginals program.now }
    ensures { IfOk result (λ version. version ≡ original_version program.now method) }
{
    match program.methods.get(method as usize) {
        Some(place) => version_of(alloc, program, method, *place),
        None => Ok(no_version(alloc, method)),
    }
}

// ---- versions whose lines are still to be made

/// The version that a method's original code is, without its lines.
fn bare_entry(
    alloc: Global,
    method: u32,
    class: &ClassFile,
    member: &Member,
) -> Result<Version, NoMemory>
    ensures { IfOk result (λ version. version
        ≡ without_lines (version_entry method class.now member.now)) }
{
    let handlers = match code_of(member) {
        Some(code) => handlers_of(alloc, class, code.handlers.as_slice())?,
        None => Seq::new(alloc),
    };
    Ok(bare(alloc, method, handlers))
}

/// A version without lines.
fn bare(alloc: Global, method: u32, handlers: Seq<Catching>) -> Version
    ensures { result ≡ bare method handlers }
{
    Held {
        method,
        prepared: PreparedCode {
            has_lines: false,
            mark: Mark::Off,
            first: 0,
            lines: Seq::new(alloc),
            handlers,
        },
    }
}

/// The same of the method at a place of a program.
fn bare_of(
    alloc: Global,
    program: &Program,
    method: u32,
    place: MethodPlace,
) -> Result<Version, NoMemory>
    ensures { IfOk result (λ version. version
        ≡ without_lines (version_of program.now method place)) }
{
    let Some(class) = program.classes.get(place.class as usize) else {
        return Ok(bare(alloc, method, Seq::new(alloc)));
    };
    match class.methods.get(place.position as usize) {
        Some(member) => bare_entry(alloc, method, class, member),
        None => Ok(bare(alloc, method, Seq::new(alloc))),
    }
}

/// The same of the method with this number.
fn bare_version(alloc: Global, program: &Program, method: u32) -> Result<Version, NoMemory>
    ensures { IfOk result (λ version. version
        ≡ without_lines (original_version program.now method)) }
{
    match program.methods.get(method as usize) {
        Some(place) => bare_of(alloc, program, method, *place),
        None => Ok(bare(alloc, method, Seq::new(alloc))),
    }
}

/// The version of each method, by its number, without its lines.
fn all_versions(alloc: Global, program: &Program) -> Result<Seq<Option<Version>>, NoMemory>
    requires { FitsOriginals program.now }
    ensures { IfOk result (λ all. all ≡ (bare_versions program.now).slots) }
{
    let mut all = Seq::with_capacity(alloc, program.methods.len())?;
    for method in 0..program.methods.len() as u32 {
        let version = bare_version(alloc, program, method)?;
        all.push(Some(version))?;
    }
    Ok(all)
}

/// The numbers of so many methods.
fn numbers_to(alloc: Global, count: u32) -> Result<Seq<usize>, NoMemory>
    ensures { IfOk result (λ all. all ≡ map own_number (range_with_len 0 count)) }
{
    let mut all = Seq::with_capacity(alloc, count as usize)?;
    for method in 0..count {
        all.push(method as usize)?;
    }
    Ok(all)
}

/// The versions that the original code of a program is, each still without its lines.
pub fn bare_versions(alloc: Global, program: &Program) -> Result<Versions, NoMemory>
    requires { FitsOriginals program.now }
    ensures { IfOk result (λ versions. versions ≡ bare_versions program.now) }
{
    let all = all_versions(alloc, program)?;
    let current = numbers_to(alloc, program.methods.len() as u32)?;
    Ok(Versions::of(alloc, all, current))
}

/// The kinds of the exceptions that instructions raise, and of texts.
pub fn exceptions_of(alloc: Global, index: &Index) -> Result<Exceptions, NoMemory>
    ensures raised { IfOk result (λ x. (e : TheException) →
        exception_in index.now x e ≡ exception_kind index.now e) }
    ensures string { IfOk result (λ x. x.string ≡ kind_for index.now string) }
    ensures small { IfOk result (λ x. x.string < 2 ^ 25) }
{
    Ok(Exceptions {
        abstract_method: kind_for(alloc, index, b"java/lang/AbstractMethodError")?,
        arithmetic: kind_for(alloc, index, b"java/lang/ArithmeticException")?,
        array_store: kind_for(alloc, index, b"java/lang/ArrayStoreException")?,
        class_cast: kind_for(alloc, index, b"java/lang/ClassCastException")?,
        class_circularity: kind_for(alloc, index, b"java/lang/ClassCircularityError")?,
        incompatible_change: kind_for(alloc, index, b"java/lang/IncompatibleClassChangeError")?,
        in_initializer: kind_for(alloc, index, b"java/lang/ExceptionInInitializerError")?,
        index_outside: kind_for(alloc, index, b"java/lang/ArrayIndexOutOfBoundsException")?,
        instantiation: kind_for(alloc, index, b"java/lang/InstantiationError")?,
        negative_array_size: kind_for(alloc, index, b"java/lang/NegativeArraySizeException")?,
        no_class_definition: kind_for(alloc, index, b"java/lang/NoClassDefFoundError")?,
        no_such_field: kind_for(alloc, index, b"java/lang/NoSuchFieldError")?,
        no_such_method: kind_for(alloc, index, b"java/lang/NoSuchMethodError")?,
        null_pointer: kind_for(alloc, index, b"java/lang/NullPointerException")?,
        stack_overflow: kind_for(alloc, index, b"java/lang/StackOverflowError")?,
        unsatisfied_link: kind_for(alloc, index, b"java/lang/UnsatisfiedLinkError")?,
        string: kind_for(alloc, index, b"java/lang/String")?,
    })
}

/// What is asked of a program again and again, in tables.
pub fn tables_of(alloc: Global, index: &Index) -> Result<ProgramTables, NoMemory>
    requires { FitsOriginals index.now }
    ensures { IfOk result (AreTablesOf index.now) }
{
    let program = index.program();
    let numbers = MethodNumbers::new(alloc, program)?;
    let methods = prepare_methods(alloc, program)?;
    let exceptions = exceptions_of(alloc, index)?;
    let throwable = class_for(alloc, index, b"java/lang/Throwable")?;
    let error = class_for(alloc, index, b"java/lang/Error")?;
    Ok(ProgramTables {
        numbers,
        methods,
        exceptions,
        throwable,
        error,
    })
}
