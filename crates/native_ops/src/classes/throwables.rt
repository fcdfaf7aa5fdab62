//! java/lang/Throwable and the classes below it.

ghost use Rattle.std.specs.Prelude.{◌≡◌};
ghost use Rattle.native_ops.specs.Classes.Throwables.{sets_both, message_of_detail, throwable_effect};

use crate::methods::method::ThrowableMethod;
use heap_objects::{Datum, Heap};
use native_effects::{
    NativeEffect, STRING_KIND, gives_reference, has_kind, reference_field, reference_in,
};

fn sets_both(object: u32, message: u32, cause: u32) -> NativeEffect
    ensures { result ≡ sets_both object message cause }
{
    NativeEffect::SetsFields(object, Datum::Ref(message), Datum::Ref(cause))
}

/// The message of an AssertionError with this detail.
fn message_of_detail(detail: u32, heap: &Heap) -> u32
    ensures { result ≡ message_of_detail detail heap.now }
{
    if has_kind(STRING_KIND, detail, heap) {
        detail
    } else {
        0
    }
}

/// What a method does.
pub fn throwable_effect(method: ThrowableMethod, args: &[Datum], heap: &Heap) -> NativeEffect
    ensures { result ≡ throwable_effect method args.now heap.now }
{
    let this = reference_in(args, 0);
    match method {
        ThrowableMethod::Init => sets_both(this, 0, 0),
        ThrowableMethod::InitMessage => sets_both(this, reference_in(args, 1), 0),
        ThrowableMethod::InitMessageCause => {
            sets_both(this, reference_in(args, 1), reference_in(args, 2))
        }
        ThrowableMethod::InitCause => sets_both(this, 0, reference_in(args, 1)),
        ThrowableMethod::InitDetail => {
            sets_both(this, message_of_detail(reference_in(args, 1), heap), 0)
        }
        ThrowableMethod::GetMessage => gives_reference(reference_field(this, 0, heap)),
        ThrowableMethod::GetCause => gives_reference(reference_field(this, 1, heap)),
    }
}
