//! Texts as the class file has them: lists of UTF-16 units.

ghost use Rattle.std.specs.Prelude.{◌≡◌};
ghost use Rattle.std.specs.Str.{bytes_eq};

use crate::seq::Seq;
use std::marker::Model;

/// A text of UTF-16 units, as the JVM specification's strings and names are. A clause sees the list of its units.
#[derive(Debug, Drop)]
pub struct Text16 {
    units: Seq<u16>,
}

impl Model for Text16 {
    ghost use Rattle.std.specs.Prelude.{List, ℕ};

    ghost Value = { List ℕ };

    ghost view = { λ t. t.units };
}

impl Text16 {
    /// The text of these units. It takes no memory.
    pub fn new(units: Vec<u16>) -> Text16
        ensures { result ≡ units.items }
    {
        Text16 {
            units: Seq::from_vec(units),
        }
    }

    /// The units, in order. It takes no memory.
    pub fn units(&self) -> &[u16]
        ensures { result.now ≡ self.now }
    {
        self.units.as_slice()
    }
}

impl Text16 {
    /// Whether the two texts have the same units.
    pub fn same(&self, other: &Text16) -> bool
        ensures { result ≡ bytes_eq self.now other.now }
    {
        self.units() == other.units()
    }

    /// Whether the units are these bytes, one by one.
    pub fn is_bytes(&self, bytes: &[u8]) -> bool
        ensures { result ≡ bytes_eq self.now bytes.now }
    {
        let units = self.units();
        if units.len() != bytes.len() {
            return false;
        }
        for i in 0..units.len() {
            if units[i] != u16::from(bytes[i]) {
                return false;
            }
        }
        true
    }
}
