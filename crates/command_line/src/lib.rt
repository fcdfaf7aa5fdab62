//! The words of the command, as clap takes them, what they and a plan ask for together, and the input of a run.
#![tactic(auto)]

mod chosen;
mod described;
mod input;
mod raw;
mod words;

pub use chosen::{Command, command_of, own_plan};
pub use input::{InputError, take_input};
pub use raw::{Process, RawError, SystemWords, raw_words, texts_of};
pub use words::{Generation, Words, WordsError, read_words};
