//! Reads of the input, and texts that are written.

ghost use Rattle.std.specs.Prelude.{◌≡◌, IfOk, None, is_ok};
ghost use Rattle.native_effects.specs.declared.effects.answer.Answer.TheVariants.{Value};
ghost use Rattle.heap_objects.specs.Changes.{changed_if};
ghost use Rattle.native_effects.specs.Effects.Ports.{answer_of_read, after_read, with_output};

use crate::effects::answer::Answer;
use heap_objects::Datum;
use jf_bytes::{NoMemory, Seq, Text16};
use std::alloc::Global;
use text_coding::to_utf8;

/// Reads the byte behind those that were read: 0 to 255, and -1 at the end.
#[tactic(auto, using(std::proofs::lemmas::Option::slice_get_within))]
pub fn read_byte(input: &[u8], read: &mut usize) -> Answer
    ensures answer { result ≡ answer_of_read input.now read.old }
    ensures read { read.new ≡ after_read input.now read.old }
{
    // Read so that it is known that the input's bytes can be counted, so there is a number behind the byte's.
    let _size = input.len();
    match input.get(*read) {
        Some(byte) => {
            *read += 1;
            Answer::Value(Some(Datum::Int(i32::from(*byte))))
        }
        None => Answer::Value(Some(Datum::Int(-1))),
    }
}

/// Writes a text in UTF-8.
pub fn print(alloc: Global, units: Seq<u16>, output: &mut Seq<u8>) -> Result<Answer, NoMemory>
    ensures answer { IfOk result (λ a. a ≡ Value None) }
    ensures output { output.new ≡ changed_if (is_ok result) (with_output units) output.old }
{
    let bytes = to_utf8(alloc, &Text16::new(units.into_vec()))?;
    output.extend_from_slice(bytes.as_slice())?;
    Ok(Answer::Value(None))
}
