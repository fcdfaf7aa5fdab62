//! The streams, and java/lang/System, which has them.

ghost use Rattle.std.specs.Prelude.{◌≡◌, map};
ghost use Rattle.base_classes.specs.RowViews.{class_view};
ghost use Rattle.base_classes.specs.StreamClasses.{stream_classes};

use crate::rows::InstructionRow::{OnMember, Plain};
use crate::rows::{ClassRow, CodeRow, MemberName, MemberRow};
use crate::tables::PLAIN_CLASS;
use op_table::{ALOAD_0, ALOAD_1, INVOKESTATIC, INVOKEVIRTUAL, RETURN};

const STRING_VALUE_OF: MemberName = MemberName {
    class: "java/lang/String",
    name: "valueOf",
    descriptor: "(Ljava/lang/Object;)Ljava/lang/String;",
};

const PRINT_STRING: MemberName = MemberName {
    class: "java/io/PrintStream",
    name: "print",
    descriptor: "(Ljava/lang/String;)V",
};

const PRINTLN_STRING: MemberName = MemberName {
    class: "java/io/PrintStream",
    name: "println",
    descriptor: "(Ljava/lang/String;)V",
};

const PRINT: CodeRow = CodeRow {
    max_stack: 2,
    max_locals: 2,
    instructions: &[
        Plain(ALOAD_0),
        Plain(ALOAD_1),
        OnMember(INVOKESTATIC, STRING_VALUE_OF),
        OnMember(INVOKEVIRTUAL, PRINT_STRING),
        Plain(RETURN),
    ],
};

const PRINTLN: CodeRow = CodeRow {
    max_stack: 2,
    max_locals: 2,
    instructions: &[
        Plain(ALOAD_0),
        Plain(ALOAD_1),
        OnMember(INVOKESTATIC, STRING_VALUE_OF),
        OnMember(INVOKEVIRTUAL, PRINTLN_STRING),
        Plain(RETURN),
    ],
};

static STREAMS: [ClassRow; 3] = [
    ClassRow {
        access: PLAIN_CLASS,
        name: "java/io/InputStream",
        superclass: Some("java/lang/Object"),
        interfaces: &[],
        fields: &[],
        methods: &member_rows![
            [public native "read" "()I"]
            [public native "close" "()V"]
        ],
    },
    ClassRow {
        access: PLAIN_CLASS,
        name: "java/io/PrintStream",
        superclass: Some("java/lang/Object"),
        interfaces: &[],
        fields: &[],
        methods: &member_rows![
            [public native "print" "(Z)V"]
            [public native "print" "(C)V"]
            [public native "print" "(I)V"]
            [public native "print" "(J)V"]
            [public native "print" "(Ljava/lang/String;)V"]
            [public native "print" "([C)V"]
            [public "print" "(Ljava/lang/Object;)V" PRINT]
            [public native "println" "(Z)V"]
            [public native "println" "(C)V"]
            [public native "println" "(I)V"]
            [public native "println" "(J)V"]
            [public native "println" "(Ljava/lang/String;)V"]
            [public native "println" "([C)V"]
            [public "println" "(Ljava/lang/Object;)V" PRINTLN]
            [public native "println" "()V"]
            [public native "flush" "()V"]
        ],
    },
    ClassRow {
        access: PLAIN_CLASS,
        name: "java/lang/System",
        superclass: Some("java/lang/Object"),
        interfaces: &[],
        fields: &member_rows![
            [public static "in" "Ljava/io/InputStream;"]
            [public static "out" "Ljava/io/PrintStream;"]
            [public static "err" "Ljava/io/PrintStream;"]
        ],
        methods: &member_rows![
            [public static native "exit" "(I)V"]
            [public static native "arraycopy" "(Ljava/lang/Object;ILjava/lang/Object;II)V"]
            [public static native "identityHashCode" "(Ljava/lang/Object;)I"]
        ],
    },
];

pub(crate) fn streams() -> &'static [ClassRow]
    ensures { map class_view result.now ≡ stream_classes }
{
    &STREAMS
}
