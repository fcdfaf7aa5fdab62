//! Kinds of classes and arrays.

ghost use Rattle.std.specs.Prelude.{◌≡◌, ◌<◌, ℕ, IfSome, Some, true};
ghost use Rattle.std.specs.Prelude.{◌*◌, ◌+◌, unwrap_or};
ghost use Rattle.jvm_model.specs.Basis.KindNumbers.{class_of_base};
ghost use Rattle.jvm_model.specs.Classes.Kinds.{base_of_element, is_above_arrays, kind_named};
ghost use Rattle.jvm_model.specs.Classes.Kinds.{is_subbase, is_subkind};
ghost use Rattle.class_linker.specs.Linkers.{parts_of};
ghost use Rattle.class_index.specs.Meanings.{element_view};
ghost use Rattle.class_linker.specs.LoadedClasses.{holds_class};

use crate::loaded_classes::LoadedClasses;
use base_classes::FIRST_ARRAY;
use class_index::{Element, Index, meaning_of};

/// The base of what is no array.
fn base_of_element(index: &Index, element: Element<'_>) -> Option<u32>
    ensures base { result ≡ base_of_element index.now (element_view element.entry) }
    ensures most { IfSome result (λ base. base < 16777216) }
{
    match element {
        Element::Primitive(code) => Some(u32::from(code)),
        Element::Named(name) => {
            let class = index.class_named(name)?;
            Some(index.base_of_class(class))
        }
    }
}

/// The number of a kind.
fn kind_number(dimensions: u8, base: u32) -> u32
    requires { base < 16777216 }
    ensures { result ≡ dimensions * 16777216 + base }
{
    u32::from(dimensions) * FIRST_ARRAY + base
}

/// The kind that a name stands for; 0 where it stands for none.
pub fn kind_named(index: &Index, name: &[u16]) -> u32
    ensures { result ≡ unwrap_or (kind_named index.now name.now) 0 }
{
    let meaning = meaning_of(name);
    match base_of_element(index, meaning.element) {
        Some(base) => kind_number(meaning.dimensions, base),
        None => 0,
    }
}

/// Whether every array is of this class.
fn is_above_arrays(base: u32) -> bool
    ensures { result ≡ is_above_arrays base }
{
    base == 16 || base == 17 || base == 18
}

impl LoadedClasses<'_> {
    /// Whether elements of one kind are of another.
    fn is_subbase(self, lower: u32, upper: u32) -> bool
        requires has { (class : ℕ) → class_of_base self.index.now lower ≡ Some class
            → holds_class self.rows.now class ≡ true }
        requires lower { lower < 16777216 }
        requires upper { upper < 16777216 }
        ensures { result ≡ is_subbase self.entry.index.now lower upper }
    {
        match self.index.class_of_base(lower) {
            Some(a) => match self.index.class_of_base(upper) {
                Some(b) => self.is_subtype(a, b),
                None => false,
            },
            None => match self.index.class_of_base(upper) {
                Some(_) => false,
                None => lower == upper,
            },
        }
    }

    /// Whether what has one kind also has another.
    pub fn is_subkind(self, lower: u32, upper: u32) -> bool
        requires { (class : ℕ) → class_of_base self.index.now (parts_of lower).base ≡ Some class
            → holds_class self.rows.now class ≡ true }
        ensures { result ≡ is_subkind self.entry.index.now (parts_of lower) (parts_of upper) }
    {
        let deep = lower / FIRST_ARRAY;
        let flat = upper / FIRST_ARRAY;
        if deep == flat {
            self.is_subbase(lower % FIRST_ARRAY, upper % FIRST_ARRAY)
        } else {
            flat < deep && is_above_arrays(upper % FIRST_ARRAY)
        }
    }
}
