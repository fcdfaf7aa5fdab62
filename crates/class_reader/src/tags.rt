//! The tags of constant pool entries (JVM Specification 4.4, table 4.4-A).

ghost use Rattle.std.specs.Prelude.{◌≡◌};
ghost use Rattle.class_reader.specs.ClassFormat.{tag_of};

/// What an entry of the constant pool is.
#[derive(Clone, Copy, Debug)]
pub(crate) enum Tag {
    Utf8,
    Integer,
    Float,
    Long,
    Double,
    Class,
    Text,
    Field,
    Method,
    InterfaceMethod,
    NameType,
}

/// The tag with this number, where there is one in the versions that are read.
pub(crate) fn find_tag(number: u8) -> Option<Tag>
    ensures { result ≡ tag_of number }
{
    match number {
        1 => Some(Tag::Utf8),
        3 => Some(Tag::Integer),
        4 => Some(Tag::Float),
        5 => Some(Tag::Long),
        6 => Some(Tag::Double),
        7 => Some(Tag::Class),
        8 => Some(Tag::Text),
        9 => Some(Tag::Field),
        10 => Some(Tag::Method),
        11 => Some(Tag::InterfaceMethod),
        12 => Some(Tag::NameType),
        _ => None,
    }
}
