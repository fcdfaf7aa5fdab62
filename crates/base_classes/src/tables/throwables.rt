//! java/lang/Throwable and the classes below it.

ghost use Rattle.std.specs.Prelude.{◌≡◌, map};
ghost use Rattle.base_classes.specs.RowViews.{class_view};
ghost use Rattle.base_classes.specs.ThrowableClasses.{throwable_classes};

use crate::rows::InstructionRow::{Jump, LoadText, OnMember, Plain};
use crate::rows::{ClassRow, CodeRow, MemberName, MemberRow};
use crate::tables::PLAIN_CLASS;
use op_table::{
    ALOAD_0, ALOAD_1, ALOAD_2, ARETURN, ASTORE_1, ASTORE_2, GETSTATIC, IFNONNULL, INVOKEVIRTUAL,
    RETURN,
};

const GET_CLASS: MemberName = MemberName {
    class: "java/lang/Object",
    name: "getClass",
    descriptor: "()Ljava/lang/Class;",
};

const GET_NAME: MemberName = MemberName {
    class: "java/lang/Class",
    name: "getName",
    descriptor: "()Ljava/lang/String;",
};

const GET_MESSAGE: MemberName = MemberName {
    class: "java/lang/Throwable",
    name: "getMessage",
    descriptor: "()Ljava/lang/String;",
};

const CONCAT: MemberName = MemberName {
    class: "java/lang/String",
    name: "concat",
    descriptor: "(Ljava/lang/String;)Ljava/lang/String;",
};

const SYSTEM_ERR: MemberName = MemberName {
    class: "java/lang/System",
    name: "err",
    descriptor: "Ljava/io/PrintStream;",
};

const PRINTLN_OBJECT: MemberName = MemberName {
    class: "java/io/PrintStream",
    name: "println",
    descriptor: "(Ljava/lang/Object;)V",
};

const THROWABLE_TO_STRING: CodeRow = CodeRow {
    max_stack: 2,
    max_locals: 3,
    instructions: &[
        Plain(ALOAD_0),
        OnMember(INVOKEVIRTUAL, GET_CLASS),
        OnMember(INVOKEVIRTUAL, GET_NAME),
        Plain(ASTORE_1),
        Plain(ALOAD_0),
        OnMember(INVOKEVIRTUAL, GET_MESSAGE),
        Plain(ASTORE_2),
        Plain(ALOAD_2),
        Jump(IFNONNULL, 19),
        Plain(ALOAD_1),
        Plain(ARETURN),
        Plain(ALOAD_1),
        LoadText(": "),
        OnMember(INVOKEVIRTUAL, CONCAT),
        Plain(ALOAD_2),
        OnMember(INVOKEVIRTUAL, CONCAT),
        Plain(ARETURN),
    ],
};

const PRINT_STACK_TRACE: CodeRow = CodeRow {
    max_stack: 2,
    max_locals: 1,
    instructions: &[
        OnMember(GETSTATIC, SYSTEM_ERR),
        Plain(ALOAD_0),
        OnMember(INVOKEVIRTUAL, PRINTLN_OBJECT),
        Plain(RETURN),
    ],
};

/// The constructors of java/lang/Throwable, which each class below it has too.
const CONSTRUCTORS: [MemberRow; 4] = member_rows![
    [public native "<init>" "()V"]
    [public native "<init>" "(Ljava/lang/String;)V"]
    [public native "<init>" "(Ljava/lang/String;Ljava/lang/Throwable;)V"]
    [public native "<init>" "(Ljava/lang/Throwable;)V"]
];

static THROWABLES: [ClassRow; 33] = [
    ClassRow {
        access: PLAIN_CLASS,
        name: "java/lang/Throwable",
        superclass: Some("java/lang/Object"),
        interfaces: &["java/io/Serializable"],
        fields: &member_rows![
            [private "message" "Ljava/lang/String;"]
            [private "cause" "Ljava/lang/Throwable;"]
        ],
        methods: &member_rows![
            [public native "<init>" "()V"]
            [public native "<init>" "(Ljava/lang/String;)V"]
            [public native "<init>" "(Ljava/lang/String;Ljava/lang/Throwable;)V"]
            [public native "<init>" "(Ljava/lang/Throwable;)V"]
            [public native "getMessage" "()Ljava/lang/String;"]
            [public native "getCause" "()Ljava/lang/Throwable;"]
            [public "toString" "()Ljava/lang/String;" THROWABLE_TO_STRING]
            [public "printStackTrace" "()V" PRINT_STACK_TRACE]
        ],
    },
    throwable_row!["java/lang/Exception" "java/lang/Throwable"],
    throwable_row!["java/lang/Error" "java/lang/Throwable"],
    throwable_row!["java/lang/RuntimeException" "java/lang/Exception"],
    throwable_row!["java/lang/CloneNotSupportedException" "java/lang/Exception"],
    throwable_row!["java/lang/ClassNotFoundException" "java/lang/Exception"],
    throwable_row!["java/io/IOException" "java/lang/Exception"],
    throwable_row!["java/lang/ArithmeticException" "java/lang/RuntimeException"],
    throwable_row!["java/lang/ArrayStoreException" "java/lang/RuntimeException"],
    throwable_row!["java/lang/ClassCastException" "java/lang/RuntimeException"],
    throwable_row!["java/lang/IllegalArgumentException" "java/lang/RuntimeException"],
    throwable_row!["java/lang/IllegalStateException" "java/lang/RuntimeException"],
    throwable_row!["java/lang/IndexOutOfBoundsException" "java/lang/RuntimeException"],
    throwable_row!["java/lang/NegativeArraySizeException" "java/lang/RuntimeException"],
    throwable_row!["java/lang/NullPointerException" "java/lang/RuntimeException"],
    throwable_row!["java/lang/UnsupportedOperationException" "java/lang/RuntimeException"],
    throwable_row!["java/lang/NumberFormatException" "java/lang/IllegalArgumentException"],
    throwable_row!["java/lang/ArrayIndexOutOfBoundsException" "java/lang/IndexOutOfBoundsException"],
    throwable_row!["java/lang/StringIndexOutOfBoundsException" "java/lang/IndexOutOfBoundsException"],
    ClassRow {
        access: PLAIN_CLASS,
        name: "java/lang/AssertionError",
        superclass: Some("java/lang/Error"),
        interfaces: &[],
        fields: &[],
        methods: &member_rows![
            [public native "<init>" "()V"]
            [public native "<init>" "(Ljava/lang/String;)V"]
            [public native "<init>" "(Ljava/lang/String;Ljava/lang/Throwable;)V"]
            [public native "<init>" "(Ljava/lang/Throwable;)V"]
            [public native "<init>" "(Ljava/lang/Object;)V"]
        ],
    },
    throwable_row!["java/lang/LinkageError" "java/lang/Error"],
    throwable_row!["java/lang/VirtualMachineError" "java/lang/Error"],
    throwable_row!["java/lang/NoClassDefFoundError" "java/lang/LinkageError"],
    throwable_row!["java/lang/ExceptionInInitializerError" "java/lang/LinkageError"],
    throwable_row!["java/lang/IncompatibleClassChangeError" "java/lang/LinkageError"],
    throwable_row!["java/lang/ClassCircularityError" "java/lang/LinkageError"],
    throwable_row!["java/lang/UnsatisfiedLinkError" "java/lang/LinkageError"],
    throwable_row!["java/lang/AbstractMethodError" "java/lang/IncompatibleClassChangeError"],
    throwable_row!["java/lang/InstantiationError" "java/lang/IncompatibleClassChangeError"],
    throwable_row!["java/lang/NoSuchFieldError" "java/lang/IncompatibleClassChangeError"],
    throwable_row!["java/lang/NoSuchMethodError" "java/lang/IncompatibleClassChangeError"],
    throwable_row!["java/lang/OutOfMemoryError" "java/lang/VirtualMachineError"],
    throwable_row!["java/lang/StackOverflowError" "java/lang/VirtualMachineError"],
];

pub(crate) fn throwables() -> &'static [ClassRow]
    ensures { map class_view result.now ≡ throwable_classes }
{
    &THROWABLES
}
