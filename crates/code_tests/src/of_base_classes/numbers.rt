//! Places of classes and numbers of native methods.

use base_classes::{built_in_name, is_built_in, native_of, position_of};
use jf_bytes::Text16;
use std::alloc::Global;
use text_coding::from_utf8;

/// A class, a name and a descriptor; the place of the class, and the number of the native method.
static ROWS: [(&str, &str, &str, Option<usize>, Option<u16>); 14] = [
    ("java/lang/Object", "<init>", "()V", Some(0), Some(0)),
    (
        "java/lang/Object",
        "clone",
        "()Ljava/lang/Object;",
        Some(0),
        Some(5),
    ),
    ("java/lang/Object", "clone", "()V", Some(0), None),
    (
        "java/lang/Comparable",
        "compareTo",
        "(Ljava/lang/Object;)I",
        Some(3),
        None,
    ),
    (
        "java/lang/String",
        "valueOf",
        "([C)Ljava/lang/String;",
        Some(7),
        Some(31),
    ),
    (
        "java/lang/String",
        "valueOf",
        "(Ljava/lang/Object;)Ljava/lang/String;",
        Some(7),
        None,
    ),
    ("java/io/PrintStream", "println", "(I)V", Some(11), Some(72)),
    ("java/io/PrintStream", "println", "()V", Some(11), Some(76)),
    (
        "java/lang/System",
        "arraycopy",
        "(Ljava/lang/Object;ILjava/lang/Object;II)V",
        Some(12),
        Some(79),
    ),
    ("java/lang/Math", "min", "(JJ)J", Some(18), Some(121)),
    (
        "java/io/IOException",
        "getMessage",
        "()Ljava/lang/String;",
        Some(26),
        None,
    ),
    (
        "java/lang/StackOverflowError",
        "<init>",
        "(Ljava/lang/Throwable;)V",
        Some(52),
        Some(264),
    ),
    ("java/lang/object", "<init>", "()V", None, None),
    ("", "length", "()I", None, None),
];

fn rows() -> &'static [(
    &'static str,
    &'static str,
    &'static str,
    Option<usize>,
    Option<u16>,
)] {
    &ROWS
}

/// The text, or an empty one where there is no memory.
fn text(alloc: Global, ascii: &str) -> Text16 {
    from_utf8(alloc, ascii).unwrap_or(Text16::new(Vec::new(alloc)))
}

#[test]
fn places_and_numbers(rt: HostRuntime) {
    let alloc = rt.alloc();
    for (class, name, descriptor, place, number) in rows() {
        let class = text(alloc, class);
        assert!(rt; position_of(&class) == *place);
        assert!(rt; is_built_in(&class) == place.is_some());
        let found = native_of(&class, &text(alloc, name), &text(alloc, descriptor));
        assert!(rt; found == *number);
    }
    assert!(rt; built_in_name(11) == Some("java/io/PrintStream"));
    assert!(rt; built_in_name(53).is_none());
}
