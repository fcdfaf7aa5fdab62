//! What is found for each of several words.

ghost use Rattle.std.specs.Prelude.{◌≡◌, ℕ, List, map, IfOk};
ghost use Rattle.std.specs.declared.option.Option.{Option};
ghost use Rattle.played_rows.specs.Words.{all_found};

use jf_bytes::{NoMemory, Seq};
use std::alloc::Global;

/// What finds something for a word, or nothing.
pub trait LookUp {
    type Found: Drop;

    /// What is found for a word.
    ghost found: { Self → List ℕ → Option Self.Found };

    fn find(&self, alloc: Global, word: &str) -> Result<Option<Self::Found>, NoMemory>
        ensures { IfOk result (λ o. o ≡ found self.now word.now) };
}

/// What is found for each of these words, if something is found for each.
pub fn find_all<L: LookUp>(
    alloc: Global,
    by: &L,
    words: &[&str],
) -> Result<Option<Seq<L::Found>>, NoMemory>
    ensures { IfOk result (λ all.
        all ≡ all_found (L.found by.now) (map (λ w. w.now) words.now)) }
{
    let mut all = Seq::new(alloc);
    for word in words {
        match by.find(alloc, word)? {
            Some(found) => all.push(found)?,
            None => return Ok(None),
        }
    }
    Ok(Some(all))
}
