//! The classes of texts.

ghost use Rattle.std.specs.Prelude.{◌≡◌, map};
ghost use Rattle.base_classes.specs.RowViews.{class_view};
ghost use Rattle.base_classes.specs.TextClasses.{text_classes};

use crate::rows::InstructionRow::{Jump, LoadText, OnMember, Plain};
use crate::rows::{ClassRow, CodeRow, MemberName, MemberRow};
use crate::tables::FINAL_CLASS;
use op_table::{ALOAD_0, ALOAD_1, ARETURN, IFNONNULL, INVOKESTATIC, INVOKEVIRTUAL};

const OBJECT_TO_STRING: MemberName = MemberName {
    class: "java/lang/Object",
    name: "toString",
    descriptor: "()Ljava/lang/String;",
};

const STRING_VALUE_OF: MemberName = MemberName {
    class: "java/lang/String",
    name: "valueOf",
    descriptor: "(Ljava/lang/Object;)Ljava/lang/String;",
};

const BUILDER_APPEND_STRING: MemberName = MemberName {
    class: "java/lang/StringBuilder",
    name: "append",
    descriptor: "(Ljava/lang/String;)Ljava/lang/StringBuilder;",
};

const BUFFER_APPEND_STRING: MemberName = MemberName {
    class: "java/lang/StringBuffer",
    name: "append",
    descriptor: "(Ljava/lang/String;)Ljava/lang/StringBuffer;",
};

const STRING_OF: CodeRow = CodeRow {
    max_stack: 1,
    max_locals: 1,
    instructions: &[
        Plain(ALOAD_0),
        Jump(IFNONNULL, 7),
        LoadText("null"),
        Plain(ARETURN),
        Plain(ALOAD_0),
        OnMember(INVOKEVIRTUAL, OBJECT_TO_STRING),
        Plain(ARETURN),
    ],
};

const BUILDER_APPEND: CodeRow = CodeRow {
    max_stack: 2,
    max_locals: 2,
    instructions: &[
        Plain(ALOAD_0),
        Plain(ALOAD_1),
        OnMember(INVOKESTATIC, STRING_VALUE_OF),
        OnMember(INVOKEVIRTUAL, BUILDER_APPEND_STRING),
        Plain(ARETURN),
    ],
};

const BUFFER_APPEND: CodeRow = CodeRow {
    max_stack: 2,
    max_locals: 2,
    instructions: &[
        Plain(ALOAD_0),
        Plain(ALOAD_1),
        OnMember(INVOKESTATIC, STRING_VALUE_OF),
        OnMember(INVOKEVIRTUAL, BUFFER_APPEND_STRING),
        Plain(ARETURN),
    ],
};

static TEXTS: [ClassRow; 3] = [
    ClassRow {
        access: FINAL_CLASS,
        name: "java/lang/String",
        superclass: Some("java/lang/Object"),
        interfaces: &[
            "java/lang/Comparable",
            "java/lang/CharSequence",
            "java/io/Serializable",
        ],
        fields: &[],
        methods: &member_rows![
            [public native "<init>" "()V"]
            [public native "<init>" "(Ljava/lang/String;)V"]
            [public native "<init>" "([C)V"]
            [public native "<init>" "([CII)V"]
            [public native "length" "()I"]
            [public native "charAt" "(I)C"]
            [public native "isEmpty" "()Z"]
            [public native "equals" "(Ljava/lang/Object;)Z"]
            [public native "hashCode" "()I"]
            [public native "toString" "()Ljava/lang/String;"]
            [public native "compareTo" "(Ljava/lang/String;)I"]
            [public native "compareTo" "(Ljava/lang/Object;)I"]
            [public native "concat" "(Ljava/lang/String;)Ljava/lang/String;"]
            [public native "substring" "(I)Ljava/lang/String;"]
            [public native "substring" "(II)Ljava/lang/String;"]
            [public native "indexOf" "(I)I"]
            [public native "startsWith" "(Ljava/lang/String;)Z"]
            [public native "intern" "()Ljava/lang/String;"]
            [public native "toCharArray" "()[C"]
            [public static native "valueOf" "(I)Ljava/lang/String;"]
            [public static native "valueOf" "(J)Ljava/lang/String;"]
            [public static native "valueOf" "(C)Ljava/lang/String;"]
            [public static native "valueOf" "(Z)Ljava/lang/String;"]
            [public static native "valueOf" "([C)Ljava/lang/String;"]
            [public static "valueOf" "(Ljava/lang/Object;)Ljava/lang/String;" STRING_OF]
        ],
    },
    ClassRow {
        access: FINAL_CLASS,
        name: "java/lang/StringBuilder",
        superclass: Some("java/lang/Object"),
        interfaces: &["java/lang/CharSequence"],
        fields: &[],
        methods: &member_rows![
            [public native "<init>" "()V"]
            [public native "<init>" "(I)V"]
            [public native "<init>" "(Ljava/lang/String;)V"]
            [public native "append" "(Ljava/lang/String;)Ljava/lang/StringBuilder;"]
            [public native "append" "(I)Ljava/lang/StringBuilder;"]
            [public native "append" "(J)Ljava/lang/StringBuilder;"]
            [public native "append" "(C)Ljava/lang/StringBuilder;"]
            [public native "append" "(Z)Ljava/lang/StringBuilder;"]
            [public native "append" "([C)Ljava/lang/StringBuilder;"]
            [public "append" "(Ljava/lang/Object;)Ljava/lang/StringBuilder;" BUILDER_APPEND]
            [public native "length" "()I"]
            [public native "charAt" "(I)C"]
            [public native "setCharAt" "(IC)V"]
            [public native "setLength" "(I)V"]
            [public native "deleteCharAt" "(I)Ljava/lang/StringBuilder;"]
            [public native "toString" "()Ljava/lang/String;"]
        ],
    },
    ClassRow {
        access: FINAL_CLASS,
        name: "java/lang/StringBuffer",
        superclass: Some("java/lang/Object"),
        interfaces: &["java/lang/CharSequence"],
        fields: &[],
        methods: &member_rows![
            [public native "<init>" "()V"]
            [public native "<init>" "(I)V"]
            [public native "<init>" "(Ljava/lang/String;)V"]
            [public native "append" "(Ljava/lang/String;)Ljava/lang/StringBuffer;"]
            [public native "append" "(I)Ljava/lang/StringBuffer;"]
            [public native "append" "(J)Ljava/lang/StringBuffer;"]
            [public native "append" "(C)Ljava/lang/StringBuffer;"]
            [public native "append" "(Z)Ljava/lang/StringBuffer;"]
            [public native "append" "([C)Ljava/lang/StringBuffer;"]
            [public "append" "(Ljava/lang/Object;)Ljava/lang/StringBuffer;" BUFFER_APPEND]
            [public native "length" "()I"]
            [public native "charAt" "(I)C"]
            [public native "setCharAt" "(IC)V"]
            [public native "setLength" "(I)V"]
            [public native "deleteCharAt" "(I)Ljava/lang/StringBuffer;"]
            [public native "toString" "()Ljava/lang/String;"]
        ],
    },
];

pub(crate) fn texts() -> &'static [ClassRow]
    ensures { map class_view result.now ≡ text_classes }
{
    &TEXTS
}
