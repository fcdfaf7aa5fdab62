//! The classes of numbers and other values, java/lang/Math, and java/lang/Enum.

ghost use Rattle.std.specs.Prelude.{◌≡◌, map};
ghost use Rattle.base_classes.specs.RowViews.{class_view};
ghost use Rattle.base_classes.specs.ValueClasses.{value_classes};

use crate::rows::{ClassRow, MemberRow};
use crate::tables::{ABSTRACT_CLASS, PLAIN_CLASS};

static VALUES: [ClassRow; 7] = [
    ClassRow {
        access: ABSTRACT_CLASS,
        name: "java/lang/Number",
        superclass: Some("java/lang/Object"),
        interfaces: &[],
        fields: &[],
        methods: &member_rows![
            [public native "<init>" "()V"]
            [public abstract "intValue" "()I"]
            [public abstract "longValue" "()J"]
        ],
    },
    ClassRow {
        access: PLAIN_CLASS,
        name: "java/lang/Integer",
        superclass: Some("java/lang/Number"),
        interfaces: &["java/lang/Comparable"],
        fields: &member_rows![
            [private "value" "I"]
        ],
        methods: &member_rows![
            [public static native "valueOf" "(I)Ljava/lang/Integer;"]
            [public static native "parseInt" "(Ljava/lang/String;)I"]
            [public static native "toString" "(I)Ljava/lang/String;"]
            [public static native "toHexString" "(I)Ljava/lang/String;"]
            [public native "intValue" "()I"]
            [public native "longValue" "()J"]
            [public native "equals" "(Ljava/lang/Object;)Z"]
            [public native "hashCode" "()I"]
            [public native "toString" "()Ljava/lang/String;"]
            [public native "compareTo" "(Ljava/lang/Object;)I"]
        ],
    },
    ClassRow {
        access: PLAIN_CLASS,
        name: "java/lang/Long",
        superclass: Some("java/lang/Number"),
        interfaces: &["java/lang/Comparable"],
        fields: &member_rows![
            [private "value" "J"]
        ],
        methods: &member_rows![
            [public static native "valueOf" "(J)Ljava/lang/Long;"]
            [public static native "parseLong" "(Ljava/lang/String;)J"]
            [public static native "toString" "(J)Ljava/lang/String;"]
            [public native "intValue" "()I"]
            [public native "longValue" "()J"]
            [public native "equals" "(Ljava/lang/Object;)Z"]
            [public native "hashCode" "()I"]
            [public native "toString" "()Ljava/lang/String;"]
            [public native "compareTo" "(Ljava/lang/Object;)I"]
        ],
    },
    ClassRow {
        access: PLAIN_CLASS,
        name: "java/lang/Character",
        superclass: Some("java/lang/Object"),
        interfaces: &[],
        fields: &member_rows![
            [private "value" "C"]
        ],
        methods: &member_rows![
            [public static native "valueOf" "(C)Ljava/lang/Character;"]
            [public static native "toString" "(C)Ljava/lang/String;"]
            [public static native "isDigit" "(C)Z"]
            [public static native "isLetter" "(C)Z"]
            [public static native "isWhitespace" "(C)Z"]
            [public native "charValue" "()C"]
            [public native "equals" "(Ljava/lang/Object;)Z"]
            [public native "hashCode" "()I"]
            [public native "toString" "()Ljava/lang/String;"]
        ],
    },
    ClassRow {
        access: PLAIN_CLASS,
        name: "java/lang/Boolean",
        superclass: Some("java/lang/Object"),
        interfaces: &[],
        fields: &member_rows![
            [private "value" "Z"]
        ],
        methods: &member_rows![
            [public static native "valueOf" "(Z)Ljava/lang/Boolean;"]
            [public static native "parseBoolean" "(Ljava/lang/String;)Z"]
            [public native "booleanValue" "()Z"]
            [public native "equals" "(Ljava/lang/Object;)Z"]
            [public native "hashCode" "()I"]
            [public native "toString" "()Ljava/lang/String;"]
        ],
    },
    ClassRow {
        access: PLAIN_CLASS,
        name: "java/lang/Math",
        superclass: Some("java/lang/Object"),
        interfaces: &[],
        fields: &[],
        methods: &member_rows![
            [public static native "abs" "(I)I"]
            [public static native "max" "(II)I"]
            [public static native "min" "(II)I"]
            [public static native "abs" "(J)J"]
            [public static native "max" "(JJ)J"]
            [public static native "min" "(JJ)J"]
        ],
    },
    ClassRow {
        access: ABSTRACT_CLASS,
        name: "java/lang/Enum",
        superclass: Some("java/lang/Object"),
        interfaces: &["java/lang/Comparable", "java/io/Serializable"],
        fields: &member_rows![
            [private "name" "Ljava/lang/String;"]
            [private "ordinal" "I"]
        ],
        methods: &member_rows![
            [protected native "<init>" "(Ljava/lang/String;I)V"]
            [public native "name" "()Ljava/lang/String;"]
            [public native "ordinal" "()I"]
            [public native "toString" "()Ljava/lang/String;"]
            [public native "equals" "(Ljava/lang/Object;)Z"]
            [public native "hashCode" "()I"]
            [public native "compareTo" "(Ljava/lang/Enum;)I"]
            [public native "compareTo" "(Ljava/lang/Object;)I"]
        ],
    },
];

pub(crate) fn values() -> &'static [ClassRow]
    ensures { map class_view result.now ≡ value_classes }
{
    &VALUES
}
