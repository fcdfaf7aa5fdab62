//! How many paths are open.

ghost use Rattle.std.specs.Prelude.{List, ℕ, ◌≡◌, ◌≤◌, ◌+◌, ◌^◌, length};
ghost use Rattle.jvm_model.specs.declared.event.Event.{Event as TheEvent};
ghost use Rattle.jvm_model.specs.Profiling.EventLists.{entries_by};
ghost use Rattle.context_tree.specs.Counts.{opens, path_after};

use jvm_model::EventKind;

/// Whether an event opens a path, where so many are open.
pub fn is_opening(kind: EventKind, depth: u64) -> bool
    ensures { (path : List ℕ) → depth ≡ length path → result ≡ opens path kind }
{
    match kind {
        EventKind::Root => true,
        EventKind::Enter => depth > 0,
        EventKind::Leave | EventKind::Unwind => false,
    }
}

/// How many paths are open behind an event.
#[tactic(auto, using(crate::proofs::Sessions::OpenPaths::parent_length))]
pub fn depth_after(kind: EventKind, depth: u64) -> u64
    requires { depth ≤ 2 ^ 63 }
    ensures path { (path : List ℕ) (e : TheEvent) → depth ≡ length path → e.kind ≡ kind
        → result ≡ length (path_after path e) }
    ensures deeper { result ≤ depth + entries_by kind }
{
    match kind {
        EventKind::Enter if depth == 0 => 0,
        EventKind::Root | EventKind::Enter => depth + 1,
        EventKind::Leave => depth.saturating_sub(1),
        EventKind::Unwind => depth.saturating_sub(1),
    }
}
