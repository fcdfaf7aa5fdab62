//! What a native method does, as its rule tells it by what is there.

ghost use Rattle.std.specs.Prelude.{◌≡◌};
ghost use Rattle.native_effects.specs.Effects.Answers.{gives_nothing, gives_int, gives_long, gives_boolean, gives_reference, throws};

use crate::effects::answer::Answer;
use heap_objects::Datum;
use jf_bytes::Seq;

/// What is to be done, and answered.
#[derive(Drop)]
pub enum NativeEffect {
    /// Nothing but an answer.
    Answers(Answer),
    /// A new String of these units is made, and is the answer.
    MakesText(Seq<u16>),
    /// A new array of this kind with these values is made, and is the answer.
    MakesArray(u32, Seq<Datum>),
    /// A new instance of this kind with these fields is made, and is the answer.
    MakesInstance(u32, Seq<Datum>),
    /// Units are added to a text, which is the answer.
    Appends(u32, Seq<u16>),
    /// A text gets units in place of its own.
    Replaces(u32, Seq<u16>, Option<Datum>),
    /// A unit is put at a place of a text.
    PutsUnit(u32, u32, u16),
    /// A text is cut, or gets units of 0 at its end, until it has so many.
    Resizes(u32, u32),
    /// The text that units are interned as is the answer.
    Interns(Seq<u16>),
    /// A text is printed.
    Prints(Seq<u16>),
    /// The next byte of the input is the answer, and -1 at its end.
    Reads,
    /// Values are put into an array from a place on, and then this is the answer.
    Stores(u32, usize, Seq<Datum>, Answer),
    /// The first two fields of an object are set.
    SetsFields(u32, Datum, Datum),
    /// The Class object of a kind is the answer.
    GivesClass(u32),
    /// The object that is made once of this kind for this value, which has this place, is the answer.
    GivesBox(u32, u32, Datum),
}

/// The answer of a method that returns no value.
pub fn gives_nothing() -> NativeEffect
    ensures { result ≡ gives_nothing }
{
    NativeEffect::Answers(Answer::Value(None))
}

/// This int is the answer.
pub fn gives_int(n: i32) -> NativeEffect
    ensures { result ≡ gives_int n }
{
    NativeEffect::Answers(Answer::Value(Some(Datum::Int(n))))
}

/// This long is the answer.
pub fn gives_long(n: i64) -> NativeEffect
    ensures { result ≡ gives_long n }
{
    NativeEffect::Answers(Answer::Value(Some(Datum::Long(n))))
}

/// This boolean is the answer, as an int.
pub fn gives_boolean(b: bool) -> NativeEffect
    ensures { result ≡ gives_boolean b }
{
    gives_int(if b { 1 } else { 0 })
}

/// The object of this number is the answer, and null for 0.
pub fn gives_reference(r: u32) -> NativeEffect
    ensures { result ≡ gives_reference r }
{
    NativeEffect::Answers(Answer::Value(Some(Datum::Ref(r))))
}

/// An exception of the built-in class at this place.
pub fn throws(class: u16) -> NativeEffect
    ensures { result ≡ throws class }
{
    NativeEffect::Answers(Answer::Throws(class))
}
