//! What is told of the program that is run, without a look into its class files.

ghost use Rattle.std.specs.Prelude.{◌≡◌, ◌<◌, ◌^◌, length, IfOk};
ghost use Rattle.std.specs.Option.{option_copied};
ghost use Rattle.jvm_model.specs.Basis.Programs.{class_named, max_locals_of, max_stack_of, params_of_method};
ghost use Rattle.jvm_model.specs.Basis.SharedState.{error, kind_for, string, throwable};
ghost use Rattle.jvm_model.specs.Instructions.Exceptions.{exception_name};
ghost use Rattle.jvm_model.specs.declared.exception.Exception.TheVariants.{BuiltIn};
ghost use Rattle.member_selection.specs.Objects.{IsUsable};
ghost use Rattle.symbolic_references.specs.ProgramFacts.{exception_kind};
ghost use Rattle.symbolic_references.specs.Runtimes.{linker_in};

use crate::named_classes::instance_kind;
use crate::runtime::Runtime;
use base_classes::built_in_name;
use const_pool::Kind;
use jf_bytes::{NoMemory, Seq};
use jvm_model::{Exception, Program};
use native_effects::units_of;

/// The name of the built-in class at this place of their order, and Throwable's past the last one.
fn built_in_named(place: u16) -> &'static str
    ensures { result.now ≡ exception_name (BuiltIn place) }
{
    match built_in_name(place as usize) {
        Some(name) => name,
        None => "java/lang/Throwable",
    }
}

impl Runtime {
    /// The program.
    pub fn program(&self) -> &Program
        ensures program { result.now ≡ self.now.world.program }
        ensures few { length result.now.classes < 2 ^ 24 }
        ensures numbered { length result.now.methods < 2 ^ 32 }
    {
        let _ = &self.tables;
        self.linker.program()
    }

    /// The greatest depth of a method's operands; 0 where it has no code.
    pub fn max_stack(&self, method: u32) -> u16
        ensures { result ≡ max_stack_of self.now.world method }
    {
        match self.tables.methods.get(method as usize) {
            Some(method) => method.max_stack,
            None => 0,
        }
    }

    /// The number of a method's locals; 0 where it has no code.
    pub fn max_locals(&self, method: u32) -> u16
        ensures { result ≡ max_locals_of self.now.world method }
    {
        match self.tables.methods.get(method as usize) {
            Some(method) => method.max_locals,
            None => 0,
        }
    }

    /// What a method takes, where it has a method descriptor.
    pub fn params(&self, method: u32) -> Option<&Seq<Kind>>
        ensures { option_copied result ≡ params_of_method self.now.world.program method }
    {
        self.tables.methods.get(method as usize)?.params.as_ref()
    }

    /// The kind of the class of this built-in name, by its place.
    fn built_in_kind(&self, place: u16) -> Result<u32, NoMemory>
        ensures kind { IfOk result
            (λ kind. kind ≡ exception_kind self.now.world.program (BuiltIn place)) }
        ensures usable { IfOk result (IsUsable (linker_in self.now)) }
    {
        let _ = &self.tables;
        let name = units_of(self.alloc, built_in_named(place).as_bytes())?;
        Ok(instance_kind(self.linker.index(), name.as_slice()))
    }

    /// The kind of the instances of an exception's class. That of one that a native method throws
    /// is found by its name.
    pub fn kind_of(&self, exception: Exception) -> Result<u32, NoMemory>
        ensures kind { IfOk result
            (λ kind. kind ≡ exception_kind self.now.world.program exception) }
        ensures usable { IfOk result (IsUsable (linker_in self.now)) }
    {
        let kinds = &self.tables.exceptions;
        match exception {
            Exception::AbstractMethod => Ok(kinds.abstract_method),
            Exception::Arithmetic => Ok(kinds.arithmetic),
            Exception::ArrayStore => Ok(kinds.array_store),
            Exception::ClassCast => Ok(kinds.class_cast),
            Exception::ClassCircularity => Ok(kinds.class_circularity),
            Exception::IncompatibleClassChange => Ok(kinds.incompatible_change),
            Exception::InInitializer => Ok(kinds.in_initializer),
            Exception::IndexOutside => Ok(kinds.index_outside),
            Exception::Instantiation => Ok(kinds.instantiation),
            Exception::NegativeArraySize => Ok(kinds.negative_array_size),
            Exception::NoClassDefinition => Ok(kinds.no_class_definition),
            Exception::NoSuchField => Ok(kinds.no_such_field),
            Exception::NoSuchMethod => Ok(kinds.no_such_method),
            Exception::NullPointer => Ok(kinds.null_pointer),
            Exception::StackOverflow => Ok(kinds.stack_overflow),
            Exception::UnsatisfiedLink => Ok(kinds.unsatisfied_link),
            Exception::BuiltIn(place) => self.built_in_kind(place),
        }
    }

    /// The kind of texts.
    pub fn string_kind(&self) -> u32
        ensures kind { result ≡ kind_for self.now.world.program string }
        ensures usable { IsUsable (linker_in self.now) result }
        ensures most { result < 2 ^ 25 }
    {
        self.tables.exceptions.string
    }

    /// The position of java/lang/Throwable, where the program has it.
    pub fn throwable(&self) -> Option<u32>
        ensures { result ≡ class_named self.now.world.program throwable }
    {
        self.tables.throwable
    }

    /// The position of java/lang/Error, where the program has it.
    pub fn error(&self) -> Option<u32>
        ensures { result ≡ class_named self.now.world.program error }
    {
        self.tables.error
    }
}
