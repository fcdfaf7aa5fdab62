//! The classes of a run, as native methods see them.

ghost use Rattle.std.specs.Prelude.{◌≡◌, ◌-◌, Some, None};
ghost use Rattle.std.specs.Option.{option_map};
ghost use Rattle.native_effects.specs.Inputs.KindsViews.{KindsView, is_among, extends, is_instance};

use base_classes::FIRST_ARRAY;
use heap_objects::Heap;
use jf_bytes::Text16;

/// The classes of a program, by their kinds: a class's kind is 16 and its place among the built-in classes, or 256 and
/// its place among the program's.
pub trait Kinds {
    /// What it tells.
    ghost seen: { Self → KindsView };

    /// The name of a class. None exactly where no such class is loaded.
    fn name(&self, kind: u32) -> Option<&Text16>
        ensures { option_map (λ t. t.now) result ≡ (seen self.now).name kind };

    /// The direct superclass of a class. None where no such class is loaded, or where it has none.
    fn above(&self, kind: u32) -> Option<u32>
        ensures { result ≡ (seen self.now).above kind };

    /// Whether what has one kind also has another (JVM Specification 4.10.1). False where a kind is of nothing that is
    /// loaded.
    fn subtype(&self, lower: u32, upper: u32) -> bool
        ensures { result ≡ (seen self.now).subtype lower upper };
}

/// Whether a class is another one, its direct superclass, and so on.
#[tactic(auto, using(crate::proofs::KindLemmas::among_step))]
fn is_among<K: Kinds>(kinds: &K, lower: u32, upper: u32) -> bool
    ensures { result ≡ is_among (K.seen kinds.now).above 16777216 lower upper }
{
    let mut current = lower;
    for _ in 0..16777216_u32 {
        if current == upper {
            return true;
        }
        match kinds.above(current) {
            Some(above) => current = above,
            None => return false,
        }
    }
    false
}

/// Whether a class is another one or extends it.
pub fn extends<K: Kinds>(kinds: &K, lower: u32, upper: u32) -> bool
    ensures { result ≡ extends (K.seen kinds.now) lower upper }
{
    lower < FIRST_ARRAY && is_among(kinds, lower, upper)
}

/// Whether an object's class is this class or extends it.
pub fn is_instance<K: Kinds>(kinds: &K, kind: u32, object: u32, heap: &Heap) -> bool
    ensures { result ≡ is_instance (K.seen kinds.now) kind object heap.now }
{
    match heap.kind(object) {
        Some(own) => extends(kinds, own, kind),
        None => false,
    }
}
