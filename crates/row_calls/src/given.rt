//! What a row gives to the top call.

use jf_bytes::Seq;

/// An object that the top call is given.
#[derive(Clone, Copy, PartialEq, Eq)]
pub enum Device {
    Files,
    Input,
    Output,
    Report,
    Images,
}

/// A call of an object that fails.
#[derive(Clone, Copy)]
pub struct Failure {
    pub device: Device,
    /// The number of the call, counted from 1.
    pub call: u64,
}

/// A file that the top call can fetch.
#[derive(Drop)]
pub struct NamedFile {
    pub name: String,
    pub contents: Vec<u8>,
}

/// What a row gives: the words, the program's name among them, and what is in the objects.
#[derive(Drop)]
pub struct RowInput {
    pub words: Seq<Seq<u8>>,
    pub files: Vec<NamedFile>,
    pub input: Vec<u8>,
    pub failures: Vec<Failure>,
}
