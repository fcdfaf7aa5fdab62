//! The root of all classes, the interfaces, and java/lang/Class.

ghost use Rattle.std.specs.Prelude.{◌≡◌, map};
ghost use Rattle.base_classes.specs.RowViews.{class_view};
ghost use Rattle.base_classes.specs.ObjectClasses.{object_classes};

use crate::rows::{ClassRow, MemberRow};
use crate::tables::{FINAL_CLASS, INTERFACE_CLASS, PLAIN_CLASS};

static OBJECTS: [ClassRow; 7] = [
    ClassRow {
        access: PLAIN_CLASS,
        name: "java/lang/Object",
        superclass: None,
        interfaces: &[],
        fields: &[],
        methods: &member_rows![
            [public native "<init>" "()V"]
            [public native "equals" "(Ljava/lang/Object;)Z"]
            [public native "hashCode" "()I"]
            [public native "toString" "()Ljava/lang/String;"]
            [public native "getClass" "()Ljava/lang/Class;"]
            [protected native "clone" "()Ljava/lang/Object;"]
        ],
    },
    ClassRow {
        access: INTERFACE_CLASS,
        name: "java/lang/Cloneable",
        superclass: Some("java/lang/Object"),
        interfaces: &[],
        fields: &[],
        methods: &[],
    },
    ClassRow {
        access: INTERFACE_CLASS,
        name: "java/io/Serializable",
        superclass: Some("java/lang/Object"),
        interfaces: &[],
        fields: &[],
        methods: &[],
    },
    ClassRow {
        access: INTERFACE_CLASS,
        name: "java/lang/Comparable",
        superclass: Some("java/lang/Object"),
        interfaces: &[],
        fields: &[],
        methods: &member_rows![
            [public abstract "compareTo" "(Ljava/lang/Object;)I"]
        ],
    },
    ClassRow {
        access: INTERFACE_CLASS,
        name: "java/lang/Runnable",
        superclass: Some("java/lang/Object"),
        interfaces: &[],
        fields: &[],
        methods: &member_rows![
            [public abstract "run" "()V"]
        ],
    },
    ClassRow {
        access: INTERFACE_CLASS,
        name: "java/lang/CharSequence",
        superclass: Some("java/lang/Object"),
        interfaces: &[],
        fields: &[],
        methods: &member_rows![
            [public abstract "length" "()I"]
            [public abstract "charAt" "(I)C"]
            [public abstract "toString" "()Ljava/lang/String;"]
        ],
    },
    ClassRow {
        access: FINAL_CLASS,
        name: "java/lang/Class",
        superclass: Some("java/lang/Object"),
        interfaces: &[],
        fields: &[],
        methods: &member_rows![
            [public native "getName" "()Ljava/lang/String;"]
            [public native "desiredAssertionStatus" "()Z"]
        ],
    },
];

pub(crate) fn objects() -> &'static [ClassRow]
    ensures { map class_view result.now ≡ object_classes }
{
    &OBJECTS
}
