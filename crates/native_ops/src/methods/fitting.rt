//! Whether arguments fit.

ghost use Rattle.std.specs.Prelude.{◌≡◌};
ghost use Rattle.native_ops.specs.Methods.Signatures.{parameters_of, is_below, fits_reference, is_int, is_long, fits, fit_all};
ghost use Rattle.native_ops.specs.Methods.Signatures.{receives, fits_receiver, fit_behind, fit};

use crate::methods::signature::{Parameter, Parameters, Receiver};
use heap_objects::{Datum, Heap};
use native_effects::{
    CHARS_KIND, ENUM_KIND, Kinds, STRING_KIND, THROWABLE_KIND, has_kind, is_instance,
};

/// The types of the parameters, one by one.
fn parameters_of(parameters: Parameters) -> &'static [Parameter]
    ensures { result.now ≡ parameters_of parameters }
{
    match parameters {
        Parameters::Nothing => &[],
        Parameters::OneInt => &[Parameter::Int],
        Parameters::OneLong => &[Parameter::Long],
        Parameters::TwoInts => &[Parameter::Int, Parameter::Int],
        Parameters::TwoLongs => &[Parameter::Long, Parameter::Long],
        Parameters::OneObject => &[Parameter::Reference],
        Parameters::OneString => &[Parameter::Exactly(STRING_KIND)],
        Parameters::OneArray => &[Parameter::Exactly(CHARS_KIND)],
        Parameters::ArrayAndRange => {
            &[
                Parameter::Exactly(CHARS_KIND),
                Parameter::Int,
                Parameter::Int,
            ]
        }
        Parameters::TwoArrays => &[
            Parameter::Reference,
            Parameter::Int,
            Parameter::Reference,
            Parameter::Int,
            Parameter::Int,
        ],
        Parameters::StringAndInt => &[Parameter::Exactly(STRING_KIND), Parameter::Int],
        Parameters::OneConstant => &[Parameter::Extending(ENUM_KIND)],
        Parameters::StringAndThrowable => &[
            Parameter::Exactly(STRING_KIND),
            Parameter::Below(THROWABLE_KIND),
        ],
        Parameters::OneThrowable => &[Parameter::Below(THROWABLE_KIND)],
    }
}

/// Whether an object is of what has a kind.
fn is_below<K: Kinds>(kinds: &K, kind: u32, object: u32, heap: &Heap) -> bool
    ensures { result ≡ is_below (K.seen kinds.now) kind object heap.now }
{
    match heap.kind(object) {
        Some(own) => kinds.subtype(own, kind),
        None => false,
    }
}

fn fits_reference<K: Kinds>(parameter: Parameter, kinds: &K, reference: u32, heap: &Heap) -> bool
    ensures { result ≡ fits_reference parameter (K.seen kinds.now) reference heap.now }
{
    match parameter {
        Parameter::Int => false,
        Parameter::Long => false,
        Parameter::Reference => true,
        Parameter::Exactly(kind) => reference == 0 || has_kind(kind, reference, heap),
        Parameter::Below(kind) => reference == 0 || is_below(kinds, kind, reference, heap),
        Parameter::Extending(kind) => reference == 0 || is_instance(kinds, kind, reference, heap),
    }
}

fn is_int(parameter: Parameter) -> bool
    ensures { result ≡ is_int parameter }
{
    match parameter {
        Parameter::Int => true,
        Parameter::Long => false,
        Parameter::Reference => false,
        Parameter::Exactly(_) => false,
        Parameter::Below(_) => false,
        Parameter::Extending(_) => false,
    }
}

fn is_long(parameter: Parameter) -> bool
    ensures { result ≡ is_long parameter }
{
    match parameter {
        Parameter::Int => false,
        Parameter::Long => true,
        Parameter::Reference => false,
        Parameter::Exactly(_) => false,
        Parameter::Below(_) => false,
        Parameter::Extending(_) => false,
    }
}

/// Whether an argument fits a parameter.
fn fits<K: Kinds>(parameter: Parameter, kinds: &K, value: Datum, heap: &Heap) -> bool
    ensures { result ≡ fits parameter (K.seen kinds.now) value heap.now }
{
    match value {
        Datum::Int(_) => is_int(parameter),
        Datum::Long(_) => is_long(parameter),
        Datum::Ref(reference) => fits_reference(parameter, kinds, reference, heap),
    }
}

/// Whether each parameter has an argument that fits.
fn fit_all<K: Kinds>(parameters: &[Parameter], kinds: &K, args: &[Datum], heap: &Heap) -> bool
    ensures { result ≡ fit_all parameters.now (K.seen kinds.now) args.now heap.now }
{
    for i in 0..parameters.len() {
        if i >= args.len() {
            return false;
        }
        if !fits(parameters[i], kinds, args[i], heap) {
            return false;
        }
    }
    true
}

fn receives<K: Kinds>(receiver: Receiver, kinds: &K, reference: u32, heap: &Heap) -> bool
    ensures { result ≡ receives receiver (K.seen kinds.now) reference heap.now }
{
    match receiver {
        Receiver::Absent => false,
        Receiver::Any => heap.kind(reference).is_some(),
        Receiver::Exactly(kind) => has_kind(kind, reference, heap),
        Receiver::Extending(kind) => is_instance(kinds, kind, reference, heap),
    }
}

fn fits_receiver<K: Kinds>(receiver: Receiver, kinds: &K, value: Datum, heap: &Heap) -> bool
    ensures { result ≡ fits_receiver receiver (K.seen kinds.now) value heap.now }
{
    match value {
        Datum::Int(_) => false,
        Datum::Long(_) => false,
        Datum::Ref(reference) => receives(receiver, kinds, reference, heap),
    }
}

/// Whether the first argument is a receiver, and the others fit.
fn fit_behind<K: Kinds>(
    receiver: Receiver,
    parameters: &[Parameter],
    kinds: &K,
    args: &[Datum],
    heap: &Heap,
) -> bool
    ensures { result ≡ fit_behind receiver parameters.now (K.seen kinds.now) args.now heap.now }
{
    let Some(first) = args.first() else {
        return false;
    };
    fits_receiver(receiver, kinds, *first, heap) && fit_all(parameters, kinds, &args[1..], heap)
}

/// Whether arguments are what a method takes.
pub fn fit<K: Kinds>(
    receiver: Receiver,
    parameters: Parameters,
    kinds: &K,
    args: &[Datum],
    heap: &Heap,
) -> bool
    ensures { result
        ≡ fit receiver (parameters_of parameters) (K.seen kinds.now) args.now heap.now }
{
    let parameters = parameters_of(parameters);
    match receiver {
        Receiver::Absent => fit_all(parameters, kinds, args, heap),
        Receiver::Any => fit_behind(receiver, parameters, kinds, args, heap),
        Receiver::Exactly(_) => fit_behind(receiver, parameters, kinds, args, heap),
        Receiver::Extending(_) => fit_behind(receiver, parameters, kinds, args, heap),
    }
}
