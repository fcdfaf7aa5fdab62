//! What loading names gives one after another, and which classes are loaded in the end.

use super::classes::{CLASS, INTERFACE, OBJECT, Shape, are_named};
use base_classes::built_in_name;
use class_linker::{Linker, Loaded};
use jf_bytes::Text16;

/// Own is its own superclass. P extends Q, which implements J, of which P is a superinterface.
static SHAPES: [Shape; 14] = [
    (CLASS, "A", OBJECT, &[]),
    (INTERFACE, "Face", OBJECT, &[]),
    (CLASS, "K", OBJECT, &[]),
    (CLASS, "Low", "Gone", &[]),
    (CLASS, "Odd", OBJECT, &["[LA;"]),
    (CLASS, "OnFace", "Face", &[]),
    (CLASS, "Own", "Own", &[]),
    (CLASS, "P", "Q", &[]),
    (CLASS, "Q", OBJECT, &["Face", "J"]),
    (INTERFACE, "J", OBJECT, &["P"]),
    (CLASS, "Sub", "A", &["K"]),
    (CLASS, "Lost", "A", &["Face", "Gone"]),
    (CLASS, "B", "A", &["Face"]),
    (CLASS, "p/C", "B", &[]),
];

pub(super) fn shapes() -> &'static [Shape] {
    &SHAPES
}

/// An answer: the kind, or the name of the error's class; the classes that are loaded by it; and the name that is no
/// class.
pub(super) enum Wanted {
    New(u32, &'static [&'static str]),
    Already(u32),
    Throws(&'static str, &'static [&'static str], &'static str),
}

const CIRCULARITY: &str = "java/lang/ClassCircularityError";

const NO_DEFINITION: &str = "java/lang/NoClassDefFoundError";

const INCOMPATIBLE: &str = "java/lang/IncompatibleClassChangeError";

/// Names that are loaded in turn. A kind is 256 and the position of one of these classes, 16 and the place of a
/// built-in one, 10 for int, and 16,777,216 more for each dimension.
static LOADS: [(&str, Wanted); 20] = [
    ("[[I", Wanted::Already(33_554_442)),
    ("Own", Wanted::Throws(CIRCULARITY, &[], "")),
    ("P", Wanted::Throws(CIRCULARITY, &[OBJECT, "Face"], "")),
    ("J", Wanted::Throws(CIRCULARITY, &[], "")),
    ("Low", Wanted::Throws(NO_DEFINITION, &[], "Gone")),
    ("Gone", Wanted::Throws(NO_DEFINITION, &[], "Gone")),
    ("[LGone;", Wanted::Throws(NO_DEFINITION, &[], "Gone")),
    ("[V", Wanted::Throws(NO_DEFINITION, &[], "[V")),
    ("[LA", Wanted::Throws(NO_DEFINITION, &[], "[LA")),
    ("Sub", Wanted::Throws(INCOMPATIBLE, &["A", "K"], "")),
    ("Sub", Wanted::Throws(INCOMPATIBLE, &[], "")),
    ("OnFace", Wanted::Throws(INCOMPATIBLE, &[], "")),
    ("Odd", Wanted::Throws(INCOMPATIBLE, &[], "")),
    ("Lost", Wanted::Throws(NO_DEFINITION, &[], "Gone")),
    ("[[Lp/C;", Wanted::New(33_554_701, &["B", "p/C"])),
    ("[[Lp/C;", Wanted::Already(33_554_701)),
    ("p/C", Wanted::Already(269)),
    ("java/lang/Object", Wanted::Already(16)),
    (
        "java/lang/Integer",
        Wanted::New(
            30,
            &[
                "java/lang/Number",
                "java/lang/Comparable",
                "java/lang/Integer",
            ],
        ),
    ),
    ("[Z", Wanted::Already(16_777_220)),
];

pub(super) fn loads() -> &'static [(&'static str, Wanted)] {
    &LOADS
}

fn is_error(error: u16, name: &str) -> bool {
    built_in_name(error as usize) == Some(name)
}

/// Whether this is the name that is told, or none is told where it is empty.
fn is_absent(told: &Option<Text16>, name: &str) -> bool {
    match told {
        Some(absent) => !name.is_empty() && absent.is_bytes(name.as_bytes()),
        None => name.is_empty(),
    }
}

pub(super) fn is_wanted(linker: &Linker, given: &Loaded, wanted: &Wanted) -> bool {
    match given {
        Loaded::New(kind, classes) => match wanted {
            Wanted::New(due, names) => kind == due && are_named(linker, classes.as_slice(), names),
            _ => false,
        },
        Loaded::Already(kind) => match wanted {
            Wanted::Already(due) => kind == due,
            _ => false,
        },
        Loaded::Throws(error, classes, absent) => match wanted {
            Wanted::Throws(name, names, due) => {
                is_error(*error, name)
                    && are_named(linker, classes.as_slice(), names)
                    && is_absent(absent, due)
            }
            _ => false,
        },
        Loaded::NoMemory => false,
    }
}

/// Everything that was loaded by a load that failed stays loaded.
static IN_THE_END: [&str; 9] = [
    OBJECT,
    "Face",
    "A",
    "K",
    "B",
    "p/C",
    "java/lang/Number",
    "java/lang/Comparable",
    "java/lang/Integer",
];

pub(super) fn in_the_end() -> &'static [&'static str] {
    &IN_THE_END
}
