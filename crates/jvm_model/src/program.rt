//! What is run.

use crate::event::Act;
use const_pool::ClassFile;
use jf_bytes::{Seq, Text16};

/// A method: the position of its class in the program, and its position in that class.
#[derive(Clone, Copy, Debug, PartialEq, Eq)]
pub struct MethodPlace {
    pub class: u32,
    pub position: u16,
}

/// A program: its classes; its methods that have Code, class by class, which numbers them; the number of its main
/// method; what the tool selects and when; the arguments of `main`; and the greatest number of heap slots.
#[derive(Debug, Drop)]
pub struct Program {
    pub classes: Seq<ClassFile>,
    pub methods: Seq<MethodPlace>,
    pub main: u32,
    pub acts: Seq<Act>,
    pub args: Seq<Text16>,
    pub heap: u32,
}
