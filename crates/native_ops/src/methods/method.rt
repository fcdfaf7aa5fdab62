//! The native methods, as the table of them names them.

use native_effects::Printable;

/// Those of java/lang/String.
#[derive(Clone, Copy)]
pub enum StringMethod {
    Init,
    InitText,
    InitChars,
    InitPart,
    Length,
    CharAt,
    IsEmpty,
    Equals,
    HashCode,
    /// toString, which gives the receiver.
    Same,
    CompareTo,
    CompareToObject,
    Concat,
    SubstringFrom,
    Substring,
    IndexOf,
    StartsWith,
    Intern,
    ToCharArray,
    ValueOf(Printable),
}

/// Those of java/lang/StringBuilder and java/lang/StringBuffer.
#[derive(Clone, Copy)]
pub enum BuilderMethod {
    Init,
    InitCapacity,
    InitText,
    Append(Printable),
    Length,
    CharAt,
    SetCharAt,
    SetLength,
    DeleteCharAt,
    /// toString.
    ToText,
}

/// Those of java/lang/Object.
#[derive(Clone, Copy)]
pub enum ObjectMethod {
    Init,
    Equals,
    HashCode,
    /// toString.
    ToText,
    GetClass,
    Clone,
}

/// Those of java/lang/Class.
#[derive(Clone, Copy)]
pub enum ClassMethod {
    GetName,
    DesiredAssertionStatus,
}

/// Those of java/io/InputStream.
#[derive(Clone, Copy)]
pub enum InputMethod {
    Read,
    Close,
}

/// Those of java/io/PrintStream.
#[derive(Clone, Copy)]
pub enum PrintMethod {
    Print(Printable),
    Println(Printable),
    /// println without an argument.
    EndLine,
    Flush,
}

/// Those of java/lang/System.
#[derive(Clone, Copy)]
pub enum SystemMethod {
    Exit,
    Arraycopy,
    IdentityHashCode,
}

/// Those of java/lang/Integer.
#[derive(Clone, Copy)]
pub enum IntegerMethod {
    ValueOf,
    Parse,
    /// The static toString.
    TextOf,
    HexOf,
    IntValue,
    LongValue,
    Equals,
    HashCode,
    /// toString.
    ToText,
    CompareTo,
}

/// Those of java/lang/Long.
#[derive(Clone, Copy)]
pub enum LongMethod {
    ValueOf,
    Parse,
    /// The static toString.
    TextOf,
    IntValue,
    LongValue,
    Equals,
    HashCode,
    /// toString.
    ToText,
    CompareTo,
}

/// Those of java/lang/Character.
#[derive(Clone, Copy)]
pub enum CharacterMethod {
    ValueOf,
    /// The static toString.
    TextOf,
    IsDigit,
    IsLetter,
    IsWhitespace,
    CharValue,
    Equals,
    HashCode,
    /// toString.
    ToText,
}

/// Those of java/lang/Boolean.
#[derive(Clone, Copy)]
pub enum BooleanMethod {
    ValueOf,
    Parse,
    BooleanValue,
    Equals,
    HashCode,
    /// toString.
    ToText,
}

/// Those of java/lang/Math.
#[derive(Clone, Copy)]
pub enum MathMethod {
    AbsInt,
    MaxInt,
    MinInt,
    AbsLong,
    MaxLong,
    MinLong,
}

/// Those of java/lang/Enum.
#[derive(Clone, Copy)]
pub enum EnumMethod {
    Init,
    Name,
    Ordinal,
    /// toString, which gives the name.
    TextOf,
    Equals,
    HashCode,
    CompareTo,
    CompareToObject,
}

/// Those of java/lang/Throwable and the classes below it.
#[derive(Clone, Copy)]
pub enum ThrowableMethod {
    Init,
    InitMessage,
    InitMessageCause,
    InitCause,
    /// The constructor of java/lang/AssertionError that takes an Object.
    InitDetail,
    GetMessage,
    GetCause,
}

/// A native method.
#[derive(Clone, Copy)]
pub enum Method {
    Object(ObjectMethod),
    Class(ClassMethod),
    Text(StringMethod),
    Builder(BuilderMethod),
    Input(InputMethod),
    Output(PrintMethod),
    System(SystemMethod),
    Integer(IntegerMethod),
    Long(LongMethod),
    Character(CharacterMethod),
    Boolean(BooleanMethod),
    Math(MathMethod),
    Enum(EnumMethod),
    Throwable(ThrowableMethod),
}
