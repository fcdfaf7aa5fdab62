//! What a row says, in order.

use jf_bytes::{Seq, Text16};
use jvm_model::Mark;

/// What happens to what is selected, entered and loaded.
#[derive(Drop)]
pub enum Happening {
    /// The class of this name is loaded with what it needs.
    Loaded(Text16),
    /// This method is entered so many times.
    Entered(u32, u32),
    Selected(u32),
    Deselected(u32),
    /// No method is entered any more.
    Quiet,
    /// The marks are shown.
    Shown,
}

/// What is the case.
#[derive(Drop)]
pub enum Fact {
    /// The methods have these marks, each by its number.
    Marks(Seq<Mark>),
    /// These classes have other marks than those that were shown, in load order.
    Changed(Seq<u32>),
    /// The code of this method can begin these, in order.
    Begins(u32, Seq<u32>),
    /// Whether this method is selected.
    IsSelected(u32, bool),
    /// Whether any method is selected.
    SelectsAny(bool),
}

/// Something that happens, or what must be the case behind all that happened.
#[derive(Drop)]
pub enum Item {
    Happens(Happening),
    Is(Fact),
}

/// What came of an item, where it is not as it says.
#[derive(Drop)]
pub enum Difference {
    /// The class of its method is not loaded.
    NotLoaded,
    /// Another fact of its kind.
    Came(Fact),
}
