//! Laws of the tree's definitions.

ghost use Rattle.context_tree.specs.Laws.{FoldsToCounts, SessionSees, TreeIsProjection};

/// One event after another, and then the steps up to a clock, come to the contexts that are counted from the whole list
/// of events.
pub fn folds_to_counts()
    ensures { FoldsToCounts }
{}

/// The tree of the events that versions tell is the projection of the run, where each activation begins in the version
/// of the mark that its method has at the last point before.
pub fn tree_is_projection()
    ensures { TreeIsProjection }
{}

/// What is seen of a run by its own actions, by loads and by these events is what stands at its points: the selection,
/// the entered methods and the loaded classes; and the open path is the current activation's.
pub fn session_sees()
    ensures { SessionSees }
{}
