//! java/io/InputStream and java/io/PrintStream.

ghost use Rattle.std.specs.Prelude.{◌≡◌, IfOk};
ghost use Rattle.native_ops.specs.Classes.Streams.{input_effect, prints, print_effect};

use crate::methods::method::{InputMethod, PrintMethod};
use base_classes::NULL_POINTER_EXCEPTION;
use heap_objects::{Datum, Heap};
use jf_bytes::NoMemory;
use native_effects::{
    NativeEffect, Printable, argument_shown, gives_nothing, is_null_array, throws, unit_alone,
};
use std::alloc::Global;

const LINE_FEED: u16 = 10;

/// What a method of the input does.
pub fn input_effect(method: InputMethod) -> NativeEffect
    ensures { result ≡ input_effect method }
{
    match method {
        InputMethod::Read => NativeEffect::Reads,
        InputMethod::Close => gives_nothing(),
    }
}

/// print and println of one argument, with these units behind it.
fn prints(
    alloc: Global,
    what: Printable,
    behind: &[u16],
    args: &[Datum],
    heap: &Heap,
) -> Result<NativeEffect, NoMemory>
    ensures { IfOk result (λ e. e ≡ prints what behind.now args.now heap.now) }
{
    if is_null_array(what, 1, args) {
        return Ok(throws(NULL_POINTER_EXCEPTION));
    }
    let mut units = argument_shown(alloc, what, 1, args, heap)?;
    units.extend_from_slice(behind)?;
    Ok(NativeEffect::Prints(units))
}

/// What a method of the output does.
pub fn print_effect(
    alloc: Global,
    method: PrintMethod,
    args: &[Datum],
    heap: &Heap,
) -> Result<NativeEffect, NoMemory>
    ensures { IfOk result (λ e. e ≡ print_effect method args.now heap.now) }
{
    match method {
        PrintMethod::Print(what) => prints(alloc, what, &[], args, heap),
        PrintMethod::Println(what) => prints(alloc, what, &[LINE_FEED], args, heap),
        PrintMethod::EndLine => Ok(NativeEffect::Prints(unit_alone(alloc, LINE_FEED)?)),
        PrintMethod::Flush => Ok(gives_nothing()),
    }
}
