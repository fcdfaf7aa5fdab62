//! The state of a run.

use crate::ending::Ending;
use heap_objects::{Datum, Heap, Value};
use jf_bytes::{Seq, Stack};
use native_effects::Made;

/// A frame (JVM Specification 2.6): the number of its method, the version of it that the frame runs, the place in that
/// version of the instruction that is executed next (or, while a callee runs, of the invoking one), its locals, of
/// which each is unwritten at first, its operand stack, the top first, and the sizes of both, which come with the
/// method. Original code is the version whose number is the method's, and its places are offsets.
#[derive(Debug, Drop)]
pub struct Frame {
    pub method: u32,
    pub version: u32,
    pub place: u16,
    pub locals: Seq<Option<Value>>,
    pub operands: Stack<Value>,
    pub max_locals: u16,
    pub max_stack: u16,
}

/// Which part of a class's initialization is done next (5.5): its constants, its superclass, its static initializer, or
/// what makes it ready.
#[derive(Clone, Copy, Debug, PartialEq, Eq)]
pub enum Part {
    Constants,
    Superclass,
    Initializer,
    Finish,
}

/// What stands on the stack: the frame of an activation, or the initialization of the class at this position.
#[derive(Debug, Drop)]
pub enum Entry {
    Active(Frame),
    Initializing(u32, Part),
}

/// How far the initialization of a class has come (5.5).
#[derive(Clone, Copy, Debug, PartialEq, Eq)]
pub enum Phase {
    Fresh,
    Running,
    Ready,
    Erroneous,
}

/// What all activations share: the positions of the loaded classes in the order in which they were loaded; the phase
/// and the static fields of each class; the heap; the Class objects and boxes that are made once; and how many bytes of
/// the input were read.
#[derive(Drop)]
pub struct Shared {
    pub loaded: Seq<u32>,
    pub phases: Seq<Phase>,
    pub statics: Seq<Seq<Datum>>,
    pub heap: Heap,
    pub made: Made,
    pub read: usize,
}

/// The state of a run: the frames and initializations, the current one first; the object that is thrown, if one is;
/// whether `main` has begun; what is shared; what was written; and how the run ended, if it has.
#[derive(Drop)]
pub struct State {
    pub stack: Stack<Entry>,
    pub thrown: Option<u32>,
    pub begun: bool,
    pub shared: Shared,
    pub output: Seq<u8>,
    pub ending: Option<Ending>,
}
