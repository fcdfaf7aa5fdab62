//! What a rewritten method tells: its marks, and the events of its probes.

/// How a method is rewritten.
#[derive(Clone, Copy, Debug, PartialEq, Eq)]
pub enum Mark {
    /// It is the original.
    Off,
    /// It tells that it is entered, left and unwound.
    Plain,
    /// The same, and it tells at its entry that it is a root.
    Root,
}

/// Which probe tells.
#[derive(Clone, Copy, Debug, PartialEq, Eq)]
pub enum EventKind {
    /// The entry of a method whose mark is Root.
    Root,
    /// The entry of a method whose mark is Plain.
    Enter,
    /// Before a return.
    Leave,
    /// An exception leaves the method.
    Unwind,
}

/// What a probe tells: its kind, the number of the method that it stands in, and the number of the step.
#[derive(Clone, Copy, Debug, PartialEq, Eq)]
pub struct Event {
    pub kind: EventKind,
    pub method: u32,
    pub clock: u64,
}

/// What the tool does to the selection, after the step `moment`, or before the start where that is 0.
#[derive(Clone, Copy, Debug, PartialEq, Eq)]
pub struct Act {
    pub moment: u64,
    /// Whether the method is selected; else it is deselected.
    pub select: bool,
    pub method: u32,
}
