//! What an array of a kind holds.

ghost use Rattle.std.specs.Prelude.{◌≡◌};
ghost use Rattle.heap_objects.specs.Kinds.{element_of};

/// What the elements of an array are: the element types of newarray (JVM Specification chapter 6) that hold whole
/// numbers, references, and anything for every other kind.
#[derive(Clone, Copy, Debug, PartialEq, Eq)]
pub enum ElementType {
    Boolean,
    Char,
    Byte,
    Short,
    Int,
    Long,
    Reference,
    Any,
}

/// What an array of this kind holds.
pub fn element_of(kind: u32) -> ElementType
    ensures { result ≡ element_of kind }
{
    match kind {
        16_777_220 => ElementType::Boolean,
        16_777_221 => ElementType::Char,
        16_777_224 => ElementType::Byte,
        16_777_225 => ElementType::Short,
        16_777_226 => ElementType::Int,
        16_777_227 => ElementType::Long,
        16_777_232.. => ElementType::Reference,
        _ => ElementType::Any,
    }
}
