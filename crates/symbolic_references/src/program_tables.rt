//! What is asked of a program again and again, in tables that are made once.

use const_pool::Kind;
use jf_bytes::Seq;
use member_selection::MethodNumbers;

/// What is kept of a method: what it takes, and its limits.
#[derive(Drop)]
pub struct Method {
    pub params: Option<Seq<Kind>>,
    pub max_stack: u16,
    pub max_locals: u16,
}

/// The kinds of the classes of exceptions that instructions raise, and of the texts of their
/// messages.
#[derive(Clone, Copy, Debug, PartialEq, Eq)]
pub struct Exceptions {
    pub abstract_method: u32,
    pub arithmetic: u32,
    pub array_store: u32,
    pub class_cast: u32,
    pub class_circularity: u32,
    pub incompatible_change: u32,
    pub in_initializer: u32,
    pub index_outside: u32,
    pub instantiation: u32,
    pub negative_array_size: u32,
    pub no_class_definition: u32,
    pub no_such_field: u32,
    pub no_such_method: u32,
    pub null_pointer: u32,
    pub stack_overflow: u32,
    pub unsatisfied_link: u32,
    pub string: u32,
}

/// The numbers of a program's methods, what is kept of each by its number, the kinds of its
/// exceptions, and the positions of java/lang/Throwable and java/lang/Error, where it has them.
#[derive(Drop)]
pub struct ProgramTables {
    pub numbers: MethodNumbers,
    pub methods: Seq<Method>,
    pub exceptions: Exceptions,
    pub throwable: Option<u32>,
    pub error: Option<u32>,
}
