//! The kinds of the built-in classes that rules speak of.

use base_classes::{
    BOOLEAN, CHARACTER, CLASS, CLONEABLE, ENUM, FIRST_ARRAY, FIRST_CLASS_KIND, INTEGER, LONG,
    STRING, THROWABLE,
};

pub const CLONEABLE_KIND: u32 = FIRST_CLASS_KIND + CLONEABLE as u32;

pub const CLASS_KIND: u32 = FIRST_CLASS_KIND + CLASS as u32;

pub const STRING_KIND: u32 = FIRST_CLASS_KIND + STRING as u32;
/// One dimension of char, which is primitive kind 5.
pub const CHARS_KIND: u32 = FIRST_ARRAY + 5;

pub const INTEGER_KIND: u32 = FIRST_CLASS_KIND + INTEGER as u32;

pub const LONG_KIND: u32 = FIRST_CLASS_KIND + LONG as u32;

pub const CHARACTER_KIND: u32 = FIRST_CLASS_KIND + CHARACTER as u32;

pub const BOOLEAN_KIND: u32 = FIRST_CLASS_KIND + BOOLEAN as u32;

pub const ENUM_KIND: u32 = FIRST_CLASS_KIND + ENUM as u32;

pub const THROWABLE_KIND: u32 = FIRST_CLASS_KIND + THROWABLE as u32;

/// Arrays of references have the kinds from here on.
pub const FIRST_REFERENCE_ARRAY_KIND: u32 = FIRST_ARRAY + FIRST_CLASS_KIND;
