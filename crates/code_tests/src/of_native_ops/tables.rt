//! Calls of native methods, a row each: the method, its arguments, what is answered, and the text that is answered or
//! written.

use heap_objects::Datum;
use native_effects::Native;

pub struct Row {
    pub class: &'static str,
    pub name: &'static str,
    pub descriptor: &'static str,
    pub args: &'static [Datum],
    pub answer: Native,
    pub text: &'static str,
}

macro_rules! rows {
    ($([$class:literal $name:literal $descriptor:literal $args:expr, $answer:expr, $text:literal])*) => {
        [$(Row {
            class: $class,
            name: $name,
            descriptor: $descriptor,
            args: &$args,
            answer: $answer,
            text: $text,
        }),*]
    };
}

static STRINGS: [Row; 30] = rows![
    ["java/lang/String" "<init>" "()V" [Datum::Ref(1)], Native::Value(None), ""]
    ["java/lang/String" "<init>" "(Ljava/lang/String;)V" [Datum::Ref(1), Datum::Ref(0)], Native::Throws(34), ""]
    ["java/lang/String" "<init>" "([C)V" [Datum::Ref(1), Datum::Ref(6)], Native::Value(None), ""]
    ["java/lang/String" "<init>" "([CII)V" [Datum::Ref(1), Datum::Ref(6), Datum::Int(1), Datum::Int(2)], Native::Throws(38), ""]
    ["java/lang/String" "<init>" "([CII)V" [Datum::Ref(1), Datum::Ref(6), Datum::Int(1), Datum::Int(1)], Native::Value(None), ""]
    ["java/lang/String" "length" "()I" [Datum::Ref(1)], Native::Value(Some(Datum::Int(3))), ""]
    ["java/lang/String" "charAt" "(I)C" [Datum::Ref(1), Datum::Int(2)], Native::Value(Some(Datum::Int(99))), ""]
    ["java/lang/String" "charAt" "(I)C" [Datum::Ref(1), Datum::Int(3)], Native::Throws(38), ""]
    ["java/lang/String" "isEmpty" "()Z" [Datum::Ref(1)], Native::Value(Some(Datum::Int(0))), ""]
    ["java/lang/String" "equals" "(Ljava/lang/Object;)Z" [Datum::Ref(1), Datum::Ref(4)], Native::Value(Some(Datum::Int(0))), ""]
    ["java/lang/String" "hashCode" "()I" [Datum::Ref(1)], Native::Value(Some(Datum::Int(96354))), ""]
    ["java/lang/String" "toString" "()Ljava/lang/String;" [Datum::Ref(1)], Native::Value(Some(Datum::Ref(1))), "abc"]
    ["java/lang/String" "compareTo" "(Ljava/lang/String;)I" [Datum::Ref(1), Datum::Ref(2)], Native::Value(Some(Datum::Int(52))), ""]
    ["java/lang/String" "compareTo" "(Ljava/lang/Object;)I" [Datum::Ref(1), Datum::Ref(4)], Native::Throws(29), ""]
    ["java/lang/String" "concat" "(Ljava/lang/String;)Ljava/lang/String;" [Datum::Ref(1), Datum::Ref(2)], Native::Value(Some(Datum::Ref(14))), "abc-12"]
    ["java/lang/String" "substring" "(I)Ljava/lang/String;" [Datum::Ref(1), Datum::Int(1)], Native::Value(Some(Datum::Ref(14))), "bc"]
    ["java/lang/String" "substring" "(I)Ljava/lang/String;" [Datum::Ref(1), Datum::Int(0)], Native::Value(Some(Datum::Ref(1))), "abc"]
    ["java/lang/String" "substring" "(II)Ljava/lang/String;" [Datum::Ref(1), Datum::Int(1), Datum::Int(2)], Native::Value(Some(Datum::Ref(14))), "b"]
    ["java/lang/String" "substring" "(II)Ljava/lang/String;" [Datum::Ref(1), Datum::Int(2), Datum::Int(1)], Native::Throws(38), ""]
    ["java/lang/String" "indexOf" "(I)I" [Datum::Ref(1), Datum::Int(99)], Native::Value(Some(Datum::Int(2))), ""]
    ["java/lang/String" "indexOf" "(I)I" [Datum::Ref(1), Datum::Int(-1)], Native::Value(Some(Datum::Int(-1))), ""]
    ["java/lang/String" "startsWith" "(Ljava/lang/String;)Z" [Datum::Ref(1), Datum::Ref(2)], Native::Value(Some(Datum::Int(0))), ""]
    ["java/lang/String" "intern" "()Ljava/lang/String;" [Datum::Ref(1)], Native::Value(Some(Datum::Ref(14))), "abc"]
    ["java/lang/String" "toCharArray" "()[C" [Datum::Ref(1)], Native::Value(Some(Datum::Ref(14))), ""]
    ["java/lang/String" "valueOf" "(I)Ljava/lang/String;" [Datum::Int(-2147483648)], Native::Value(Some(Datum::Ref(14))), "-2147483648"]
    ["java/lang/String" "valueOf" "(J)Ljava/lang/String;" [Datum::Long(-9223372036854775808)], Native::Value(Some(Datum::Ref(14))), "-9223372036854775808"]
    ["java/lang/String" "valueOf" "(C)Ljava/lang/String;" [Datum::Int(65601)], Native::Value(Some(Datum::Ref(14))), "A"]
    ["java/lang/String" "valueOf" "(Z)Ljava/lang/String;" [Datum::Int(2)], Native::Value(Some(Datum::Ref(14))), "false"]
    ["java/lang/String" "valueOf" "([C)Ljava/lang/String;" [Datum::Ref(6)], Native::Value(Some(Datum::Ref(14))), "xx"]
    ["java/lang/String" "valueOf" "([C)Ljava/lang/String;" [Datum::Ref(0)], Native::Throws(34), ""]
];

pub fn strings() -> &'static [Row] {
    &STRINGS
}

static BUILDERS: [Row; 18] = rows![
    ["java/lang/StringBuilder" "<init>" "(I)V" [Datum::Ref(4), Datum::Int(-1)], Native::Throws(33), ""]
    ["java/lang/StringBuilder" "<init>" "(Ljava/lang/String;)V" [Datum::Ref(4), Datum::Ref(1)], Native::Value(None), ""]
    ["java/lang/StringBuilder" "append" "(Ljava/lang/String;)Ljava/lang/StringBuilder;" [Datum::Ref(4), Datum::Ref(0)], Native::Value(Some(Datum::Ref(4))), "abnull"]
    ["java/lang/StringBuilder" "append" "(I)Ljava/lang/StringBuilder;" [Datum::Ref(4), Datum::Int(-7)], Native::Value(Some(Datum::Ref(4))), "ab-7"]
    ["java/lang/StringBuilder" "append" "(J)Ljava/lang/StringBuilder;" [Datum::Ref(4), Datum::Long(4294967296)], Native::Value(Some(Datum::Ref(4))), "ab4294967296"]
    ["java/lang/StringBuilder" "append" "(C)Ljava/lang/StringBuilder;" [Datum::Ref(4), Datum::Int(99)], Native::Value(Some(Datum::Ref(4))), "abc"]
    ["java/lang/StringBuilder" "append" "(Z)Ljava/lang/StringBuilder;" [Datum::Ref(4), Datum::Int(1)], Native::Value(Some(Datum::Ref(4))), "abtrue"]
    ["java/lang/StringBuilder" "append" "([C)Ljava/lang/StringBuilder;" [Datum::Ref(4), Datum::Ref(6)], Native::Value(Some(Datum::Ref(4))), "abxx"]
    ["java/lang/StringBuilder" "append" "([C)Ljava/lang/StringBuilder;" [Datum::Ref(4), Datum::Ref(0)], Native::Throws(34), ""]
    ["java/lang/StringBuilder" "length" "()I" [Datum::Ref(4)], Native::Value(Some(Datum::Int(2))), ""]
    ["java/lang/StringBuilder" "charAt" "(I)C" [Datum::Ref(4), Datum::Int(-1)], Native::Throws(38), ""]
    ["java/lang/StringBuilder" "setCharAt" "(IC)V" [Datum::Ref(4), Datum::Int(2), Datum::Int(99)], Native::Throws(38), ""]
    ["java/lang/StringBuilder" "setCharAt" "(IC)V" [Datum::Ref(4), Datum::Int(1), Datum::Int(99)], Native::Value(None), ""]
    ["java/lang/StringBuilder" "setLength" "(I)V" [Datum::Ref(4), Datum::Int(5)], Native::Value(None), ""]
    ["java/lang/StringBuilder" "setLength" "(I)V" [Datum::Ref(4), Datum::Int(2147483647)], Native::Throws(51), ""]
    ["java/lang/StringBuilder" "deleteCharAt" "(I)Ljava/lang/StringBuilder;" [Datum::Ref(4), Datum::Int(0)], Native::Value(Some(Datum::Ref(4))), "b"]
    ["java/lang/StringBuilder" "toString" "()Ljava/lang/String;" [Datum::Ref(4)], Native::Value(Some(Datum::Ref(14))), "ab"]
    ["java/lang/StringBuilder" "toString" "()Ljava/lang/String;" [Datum::Ref(1)], Native::Bad, ""]
];

pub fn builders() -> &'static [Row] {
    &BUILDERS
}

static BOXES: [Row; 23] = rows![
    ["java/lang/Integer" "valueOf" "(I)Ljava/lang/Integer;" [Datum::Int(127)], Native::Value(Some(Datum::Ref(14))), ""]
    ["java/lang/Integer" "parseInt" "(Ljava/lang/String;)I" [Datum::Ref(2)], Native::Value(Some(Datum::Int(-12))), ""]
    ["java/lang/Integer" "parseInt" "(Ljava/lang/String;)I" [Datum::Ref(1)], Native::Throws(36), ""]
    ["java/lang/Integer" "toString" "(I)Ljava/lang/String;" [Datum::Int(0)], Native::Value(Some(Datum::Ref(14))), "0"]
    ["java/lang/Integer" "toHexString" "(I)Ljava/lang/String;" [Datum::Int(-1)], Native::Value(Some(Datum::Ref(14))), "ffffffff"]
    ["java/lang/Integer" "intValue" "()I" [Datum::Ref(7)], Native::Value(Some(Datum::Int(5))), ""]
    ["java/lang/Integer" "longValue" "()J" [Datum::Ref(7)], Native::Value(Some(Datum::Long(5))), ""]
    ["java/lang/Integer" "equals" "(Ljava/lang/Object;)Z" [Datum::Ref(7), Datum::Ref(8)], Native::Value(Some(Datum::Int(0))), ""]
    ["java/lang/Integer" "compareTo" "(Ljava/lang/Object;)I" [Datum::Ref(7), Datum::Ref(8)], Native::Throws(29), ""]
    ["java/lang/Integer" "toString" "()Ljava/lang/String;" [Datum::Ref(7)], Native::Value(Some(Datum::Ref(14))), "5"]
    ["java/lang/Long" "parseLong" "(Ljava/lang/String;)J" [Datum::Ref(2)], Native::Value(Some(Datum::Long(-12))), ""]
    ["java/lang/Long" "intValue" "()I" [Datum::Ref(8)], Native::Value(Some(Datum::Int(-1))), ""]
    ["java/lang/Long" "hashCode" "()I" [Datum::Ref(8)], Native::Value(Some(Datum::Int(0))), ""]
    ["java/lang/Long" "compareTo" "(Ljava/lang/Object;)I" [Datum::Ref(8), Datum::Ref(8)], Native::Value(Some(Datum::Int(0))), ""]
    ["java/lang/Character" "isLetter" "(C)Z" [Datum::Int(196)], Native::Value(Some(Datum::Int(0))), ""]
    ["java/lang/Character" "isWhitespace" "(C)Z" [Datum::Int(28)], Native::Value(Some(Datum::Int(1))), ""]
    ["java/lang/Character" "toString" "()Ljava/lang/String;" [Datum::Ref(9)], Native::Value(Some(Datum::Ref(14))), "a"]
    ["java/lang/Boolean" "parseBoolean" "(Ljava/lang/String;)Z" [Datum::Ref(3)], Native::Value(Some(Datum::Int(1))), ""]
    ["java/lang/Boolean" "parseBoolean" "(Ljava/lang/String;)Z" [Datum::Ref(0)], Native::Value(Some(Datum::Int(0))), ""]
    ["java/lang/Boolean" "hashCode" "()I" [Datum::Ref(10)], Native::Value(Some(Datum::Int(1231))), ""]
    ["java/lang/Math" "abs" "(I)I" [Datum::Int(-2147483648)], Native::Value(Some(Datum::Int(-2147483648))), ""]
    ["java/lang/Math" "max" "(JJ)J" [Datum::Long(-1), Datum::Long(1)], Native::Value(Some(Datum::Long(1))), ""]
    ["java/lang/Math" "min" "(II)I" [Datum::Int(-1), Datum::Int(1)], Native::Value(Some(Datum::Int(-1))), ""]
];

pub fn boxes() -> &'static [Row] {
    &BOXES
}

static OTHERS: [Row; 20] = rows![
    ["java/io/PrintStream" "print" "(Z)V" [Datum::Ref(13), Datum::Int(1)], Native::Value(None), "true"]
    ["java/io/PrintStream" "print" "(C)V" [Datum::Ref(13), Datum::Int(55357)], Native::Value(None), "?"]
    ["java/io/PrintStream" "println" "(I)V" [Datum::Ref(13), Datum::Int(-5)], Native::Value(None), "-5\n"]
    ["java/io/PrintStream" "println" "(Ljava/lang/String;)V" [Datum::Ref(13), Datum::Ref(0)], Native::Value(None), "null\n"]
    ["java/io/PrintStream" "println" "([C)V" [Datum::Ref(13), Datum::Ref(0)], Native::Throws(34), ""]
    ["java/io/PrintStream" "println" "()V" [Datum::Ref(13)], Native::Value(None), "\n"]
    ["java/io/InputStream" "read" "()I" [Datum::Ref(12)], Native::Value(Some(Datum::Int(255))), ""]
    ["java/lang/System" "exit" "(I)V" [Datum::Int(3)], Native::Exit(3), ""]
    ["java/lang/System" "arraycopy" "(Ljava/lang/Object;ILjava/lang/Object;II)V" [Datum::Ref(5), Datum::Int(0), Datum::Ref(5), Datum::Int(1), Datum::Int(2)], Native::Value(None), ""]
    ["java/lang/System" "arraycopy" "(Ljava/lang/Object;ILjava/lang/Object;II)V" [Datum::Ref(5), Datum::Int(0), Datum::Ref(5), Datum::Int(2), Datum::Int(2)], Native::Throws(37), ""]
    ["java/lang/System" "arraycopy" "(Ljava/lang/Object;ILjava/lang/Object;II)V" [Datum::Ref(5), Datum::Int(0), Datum::Ref(6), Datum::Int(0), Datum::Int(1)], Native::Throws(28), ""]
    ["java/lang/System" "identityHashCode" "(Ljava/lang/Object;)I" [Datum::Ref(0)], Native::Value(Some(Datum::Int(0))), ""]
    ["java/lang/Throwable" "getMessage" "()Ljava/lang/String;" [Datum::Ref(11)], Native::Value(Some(Datum::Ref(1))), "abc"]
    ["java/lang/Throwable" "getCause" "()Ljava/lang/Throwable;" [Datum::Ref(11)], Native::Value(Some(Datum::Ref(0))), ""]
    ["java/lang/Throwable" "<init>" "(Ljava/lang/Throwable;)V" [Datum::Ref(11), Datum::Ref(11)], Native::Bad, ""]
    ["java/lang/Object" "hashCode" "()I" [Datum::Ref(11)], Native::Value(Some(Datum::Int(11))), ""]
    ["java/lang/Object" "getClass" "()Ljava/lang/Class;" [Datum::Ref(11)], Native::Value(Some(Datum::Ref(14))), ""]
    ["java/lang/Object" "toString" "()Ljava/lang/String;" [Datum::Ref(5)], Native::Value(Some(Datum::Ref(14))), "[I@5"]
    ["java/lang/Object" "clone" "()Ljava/lang/Object;" [Datum::Ref(11)], Native::Throws(24), ""]
    ["java/lang/Object" "equals" "(Ljava/lang/Object;)Z" [Datum::Int(11), Datum::Ref(11)], Native::Bad, ""]
];

pub fn others() -> &'static [Row] {
    &OTHERS
}
