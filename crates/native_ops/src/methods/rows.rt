//! The native methods by number.

ghost use Rattle.std.specs.Prelude.{◌≡◌, ◌<◌, Some, slice_get};
ghost use Rattle.base_classes.specs.declared.places.TheConstants.{NATIVE_METHODS};
ghost use Rattle.native_ops.specs.Methods.Rows.{rows};

use crate::methods::method::{
    BooleanMethod, BuilderMethod, CharacterMethod, ClassMethod, EnumMethod, InputMethod,
    IntegerMethod, LongMethod, MathMethod, Method, ObjectMethod, PrintMethod, StringMethod,
    SystemMethod, ThrowableMethod,
};
use crate::methods::signature::{Parameters, Receiver};
use base_classes::NATIVE_METHODS;
use native_effects::Printable;

/// What a native method does, and what it takes.
#[derive(Clone, Copy)]
pub struct Row {
    pub method: Method,
    pub receiver: Receiver,
    pub parameters: Parameters,
}

macro_rules! rows {
    ($([$receiver:expr; $([$group:ident $method:expr, $parameters:ident])*])*
        throwables $([$kind:literal $([$more:ident, $given:ident])*])*) => {
        [
            $($(Row {
                method: Method::$group($method),
                receiver: $receiver,
                parameters: Parameters::$parameters,
            },)*)*
            $(
                Row {
                    method: Method::Throwable(ThrowableMethod::Init),
                    receiver: Receiver::Extending($kind),
                    parameters: Parameters::Nothing,
                },
                Row {
                    method: Method::Throwable(ThrowableMethod::InitMessage),
                    receiver: Receiver::Extending($kind),
                    parameters: Parameters::OneString,
                },
                Row {
                    method: Method::Throwable(ThrowableMethod::InitMessageCause),
                    receiver: Receiver::Extending($kind),
                    parameters: Parameters::StringAndThrowable,
                },
                Row {
                    method: Method::Throwable(ThrowableMethod::InitCause),
                    receiver: Receiver::Extending($kind),
                    parameters: Parameters::OneThrowable,
                },
                $(Row {
                    method: Method::Throwable(ThrowableMethod::$more),
                    receiver: Receiver::Extending($kind),
                    parameters: Parameters::$given,
                },)*
            )*
        ]
    };
}

/// The native methods, in the order of the classes and of each class's methods.
const ROWS: [Row; NATIVE_METHODS as usize] = rows![
    [Receiver::Any;
        [Object ObjectMethod::Init, Nothing]
        [Object ObjectMethod::Equals, OneObject]
        [Object ObjectMethod::HashCode, Nothing]
        [Object ObjectMethod::ToText, Nothing]
        [Object ObjectMethod::GetClass, Nothing]
        [Object ObjectMethod::Clone, Nothing]
    ]
    [Receiver::Exactly(22);
        [Class ClassMethod::GetName, Nothing]
        [Class ClassMethod::DesiredAssertionStatus, Nothing]
    ]
    [Receiver::Exactly(23);
        [Text StringMethod::Init, Nothing]
        [Text StringMethod::InitText, OneString]
        [Text StringMethod::InitChars, OneArray]
        [Text StringMethod::InitPart, ArrayAndRange]
        [Text StringMethod::Length, Nothing]
        [Text StringMethod::CharAt, OneInt]
        [Text StringMethod::IsEmpty, Nothing]
        [Text StringMethod::Equals, OneObject]
        [Text StringMethod::HashCode, Nothing]
        [Text StringMethod::Same, Nothing]
        [Text StringMethod::CompareTo, OneString]
        [Text StringMethod::CompareToObject, OneObject]
        [Text StringMethod::Concat, OneString]
        [Text StringMethod::SubstringFrom, OneInt]
        [Text StringMethod::Substring, TwoInts]
        [Text StringMethod::IndexOf, OneInt]
        [Text StringMethod::StartsWith, OneString]
        [Text StringMethod::Intern, Nothing]
        [Text StringMethod::ToCharArray, Nothing]
    ]
    [Receiver::Absent;
        [Text StringMethod::ValueOf(Printable::Int), OneInt]
        [Text StringMethod::ValueOf(Printable::Long), OneLong]
        [Text StringMethod::ValueOf(Printable::Char), OneInt]
        [Text StringMethod::ValueOf(Printable::Boolean), OneInt]
        [Text StringMethod::ValueOf(Printable::Chars), OneArray]
    ]
    [Receiver::Exactly(24);
        [Builder BuilderMethod::Init, Nothing]
        [Builder BuilderMethod::InitCapacity, OneInt]
        [Builder BuilderMethod::InitText, OneString]
        [Builder BuilderMethod::Append(Printable::Text), OneString]
        [Builder BuilderMethod::Append(Printable::Int), OneInt]
        [Builder BuilderMethod::Append(Printable::Long), OneLong]
        [Builder BuilderMethod::Append(Printable::Char), OneInt]
        [Builder BuilderMethod::Append(Printable::Boolean), OneInt]
        [Builder BuilderMethod::Append(Printable::Chars), OneArray]
        [Builder BuilderMethod::Length, Nothing]
        [Builder BuilderMethod::CharAt, OneInt]
        [Builder BuilderMethod::SetCharAt, TwoInts]
        [Builder BuilderMethod::SetLength, OneInt]
        [Builder BuilderMethod::DeleteCharAt, OneInt]
        [Builder BuilderMethod::ToText, Nothing]
    ]
    [Receiver::Exactly(25);
        [Builder BuilderMethod::Init, Nothing]
        [Builder BuilderMethod::InitCapacity, OneInt]
        [Builder BuilderMethod::InitText, OneString]
        [Builder BuilderMethod::Append(Printable::Text), OneString]
        [Builder BuilderMethod::Append(Printable::Int), OneInt]
        [Builder BuilderMethod::Append(Printable::Long), OneLong]
        [Builder BuilderMethod::Append(Printable::Char), OneInt]
        [Builder BuilderMethod::Append(Printable::Boolean), OneInt]
        [Builder BuilderMethod::Append(Printable::Chars), OneArray]
        [Builder BuilderMethod::Length, Nothing]
        [Builder BuilderMethod::CharAt, OneInt]
        [Builder BuilderMethod::SetCharAt, TwoInts]
        [Builder BuilderMethod::SetLength, OneInt]
        [Builder BuilderMethod::DeleteCharAt, OneInt]
        [Builder BuilderMethod::ToText, Nothing]
    ]
    [Receiver::Extending(26);
        [Input InputMethod::Read, Nothing]
        [Input InputMethod::Close, Nothing]
    ]
    [Receiver::Extending(27);
        [Output PrintMethod::Print(Printable::Boolean), OneInt]
        [Output PrintMethod::Print(Printable::Char), OneInt]
        [Output PrintMethod::Print(Printable::Int), OneInt]
        [Output PrintMethod::Print(Printable::Long), OneLong]
        [Output PrintMethod::Print(Printable::Text), OneString]
        [Output PrintMethod::Print(Printable::Chars), OneArray]
        [Output PrintMethod::Println(Printable::Boolean), OneInt]
        [Output PrintMethod::Println(Printable::Char), OneInt]
        [Output PrintMethod::Println(Printable::Int), OneInt]
        [Output PrintMethod::Println(Printable::Long), OneLong]
        [Output PrintMethod::Println(Printable::Text), OneString]
        [Output PrintMethod::Println(Printable::Chars), OneArray]
        [Output PrintMethod::EndLine, Nothing]
        [Output PrintMethod::Flush, Nothing]
    ]
    [Receiver::Absent;
        [System SystemMethod::Exit, OneInt]
        [System SystemMethod::Arraycopy, TwoArrays]
        [System SystemMethod::IdentityHashCode, OneObject]
    ]
    [Receiver::Extending(29);
        [Object ObjectMethod::Init, Nothing]
    ]
    [Receiver::Absent;
        [Integer IntegerMethod::ValueOf, OneInt]
        [Integer IntegerMethod::Parse, OneString]
        [Integer IntegerMethod::TextOf, OneInt]
        [Integer IntegerMethod::HexOf, OneInt]
    ]
    [Receiver::Extending(30);
        [Integer IntegerMethod::IntValue, Nothing]
        [Integer IntegerMethod::LongValue, Nothing]
        [Integer IntegerMethod::Equals, OneObject]
        [Integer IntegerMethod::HashCode, Nothing]
        [Integer IntegerMethod::ToText, Nothing]
        [Integer IntegerMethod::CompareTo, OneObject]
    ]
    [Receiver::Absent;
        [Long LongMethod::ValueOf, OneLong]
        [Long LongMethod::Parse, OneString]
        [Long LongMethod::TextOf, OneLong]
    ]
    [Receiver::Extending(31);
        [Long LongMethod::IntValue, Nothing]
        [Long LongMethod::LongValue, Nothing]
        [Long LongMethod::Equals, OneObject]
        [Long LongMethod::HashCode, Nothing]
        [Long LongMethod::ToText, Nothing]
        [Long LongMethod::CompareTo, OneObject]
    ]
    [Receiver::Absent;
        [Character CharacterMethod::ValueOf, OneInt]
        [Character CharacterMethod::TextOf, OneInt]
        [Character CharacterMethod::IsDigit, OneInt]
        [Character CharacterMethod::IsLetter, OneInt]
        [Character CharacterMethod::IsWhitespace, OneInt]
    ]
    [Receiver::Extending(32);
        [Character CharacterMethod::CharValue, Nothing]
        [Character CharacterMethod::Equals, OneObject]
        [Character CharacterMethod::HashCode, Nothing]
        [Character CharacterMethod::ToText, Nothing]
    ]
    [Receiver::Absent;
        [Boolean BooleanMethod::ValueOf, OneInt]
        [Boolean BooleanMethod::Parse, OneString]
    ]
    [Receiver::Extending(33);
        [Boolean BooleanMethod::BooleanValue, Nothing]
        [Boolean BooleanMethod::Equals, OneObject]
        [Boolean BooleanMethod::HashCode, Nothing]
        [Boolean BooleanMethod::ToText, Nothing]
    ]
    [Receiver::Absent;
        [Math MathMethod::AbsInt, OneInt]
        [Math MathMethod::MaxInt, TwoInts]
        [Math MathMethod::MinInt, TwoInts]
        [Math MathMethod::AbsLong, OneLong]
        [Math MathMethod::MaxLong, TwoLongs]
        [Math MathMethod::MinLong, TwoLongs]
    ]
    [Receiver::Extending(35);
        [Enum EnumMethod::Init, StringAndInt]
        [Enum EnumMethod::Name, Nothing]
        [Enum EnumMethod::Ordinal, Nothing]
        [Enum EnumMethod::TextOf, Nothing]
        [Enum EnumMethod::Equals, OneObject]
        [Enum EnumMethod::HashCode, Nothing]
        [Enum EnumMethod::CompareTo, OneConstant]
        [Enum EnumMethod::CompareToObject, OneObject]
    ]
    throwables
    [36 [GetMessage, Nothing] [GetCause, Nothing]]
    [37] [38] [39] [40] [41] [42] [43] [44] [45] [46] [47] [48] [49] [50] [51] [52] [53] [54]
    [55 [InitDetail, OneObject]] [56] [57] [58] [59] [60] [61] [62] [63] [64] [65] [66] [67]
    [68]
];

/// The row of a native method.
pub fn row_of(number: u16) -> Row
    requires { number < NATIVE_METHODS }
    ensures { slice_get rows number ≡ Some result }
{
    at(&ROWS, number as usize)
}

/// One row of a table.
fn at<const N: usize>(table: &[Row; N], place: usize) -> Row
    requires { place < N }
    ensures { slice_get table.now place ≡ Some result }
{
    table[place]
}
