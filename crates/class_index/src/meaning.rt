//! What a class's name stands for: a class or an array (JVM Specification 4.4.1).

ghost use Rattle.std.specs.Prelude.{◌≡◌, ◌==◌, position};
ghost use Rattle.std.specs.Option.{option_map};
ghost use Rattle.jvm_model.specs.Classes.Kinds.{array_from, before_semicolon, is_array_name, meaning_of};
ghost use Rattle.jvm_model.specs.Classes.Kinds.{element_of, primitive_code};
ghost use Rattle.class_index.specs.Meanings.{array_behind, element_view, meaning_view};

/// What is no array, or an array's element: a code of newarray, or the name of a class.
#[derive(Clone, Copy)]
pub enum Element<'a> {
    Primitive(u8),
    Named(&'a [u16]),
}

/// A class, of no dimensions, or an array.
#[derive(Clone, Copy)]
pub struct Meaning<'a> {
    pub dimensions: u8,
    pub element: Element<'a>,
}

/// `[`, `L` and `;`.
const BRACKET: u16 = 91;

const CLASS: u16 = 76;

const SEMICOLON: u16 = 59;

/// The code of newarray for the letter of a descriptor.
fn primitive_code(unit: u16) -> Option<u8>
    ensures { result ≡ primitive_code unit }
{
    match unit {
        90 => Some(4),
        67 => Some(5),
        70 => Some(6),
        68 => Some(7),
        66 => Some(8),
        83 => Some(9),
        73 => Some(10),
        74 => Some(11),
        _ => None,
    }
}

/// Where the first semicolon stands.
fn semicolon_at(units: &[u16]) -> Option<usize>
    ensures { result ≡ position (λ unit. unit == 59) units.now }
{
    units.iter().position(|unit| *unit == SEMICOLON)
}

/// What stands before the one semicolon at the end.
fn before_semicolon(units: &[u16]) -> Option<&[u16]>
    ensures { option_map (λ name. name.now) result ≡ before_semicolon units.now }
{
    let at = semicolon_at(units)?;
    if at + 1 == units.len() {
        Some(&units[..at])
    } else {
        None
    }
}

/// What stands behind an array's dimensions.
fn element_of(units: &[u16]) -> Option<Element<'_>>
    ensures { option_map element_view result ≡ element_of units.now }
{
    if units.len() == 1 {
        return Some(Element::Primitive(primitive_code(units[0])?));
    }
    if units.len() < 2 || units[0] != CLASS || units[1] == SEMICOLON {
        return None;
    }
    Some(Element::Named(before_semicolon(&units[1..])?))
}

/// The array of so many dimensions with the element that is left.
fn array_behind(dimensions: usize, units: &[u16]) -> Option<Meaning<'_>>
    ensures { option_map meaning_view result ≡ array_behind dimensions units.now }
{
    if dimensions > 255 {
        return None;
    }
    Some(Meaning {
        dimensions: dimensions as u8,
        element: element_of(units)?,
    })
}

/// The array of this name, if it is one's.
fn array_of(name: &[u16]) -> Option<Meaning<'_>>
    ensures { option_map meaning_view result ≡ array_from 0 name.now }
{
    for (at, unit) in name.iter().enumerate() {
        if *unit != BRACKET {
            return array_behind(at, &name[at..]);
        }
    }
    None
}

/// Whether a name begins as an array's.
pub fn is_array_name(name: &[u16]) -> bool
    ensures { result ≡ is_array_name name.now }
{
    match name.first() {
        Some(unit) => *unit == BRACKET,
        None => false,
    }
}

/// What a name stands for.
pub fn meaning_of(name: &[u16]) -> Meaning<'_>
    ensures { meaning_view result ≡ meaning_of name.now }
{
    if is_array_name(name)
        && let Some(array) = array_of(name)
    {
        return array;
    }
    Meaning {
        dimensions: 0,
        element: Element::Named(name),
    }
}
