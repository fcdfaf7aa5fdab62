//! Counters by the versions' numbers: how many of the frames below the top one run each.

ghost use Rattle.std.specs.Prelude.{◌≡◌, ◌+◌, ◌<◌, ◌≤◌, ℕ, get_or, OnOk, OnErr};
ghost use Rattle.frame_stack.specs.Pins.{HasCounter, pins_of_top};

use crate::entry::Entry;
use jf_bytes::NoMemory;

/// Makes a counter for the top frame's version, where it has none. An Err says that memory ran out.
pub fn make_counter(counters: &mut Vec<u32>, top: &Option<Entry>) -> Result<(), NoMemory>
    ensures counts { (version : ℕ) →
        get_or counters.new.items version 0 ≡ get_or counters.old.items version 0 }
    ensures ok { OnOk result (HasCounter counters.new.items top.now) }
    ensures err { OnErr result (counters.new.items ≡ counters.old.items) }
{
    let Some(entry) = top else {
        return Ok(());
    };
    let Some(count) = entry.version.checked_add(1) else {
        return Err(NoMemory);
    };
    if count <= counters.len() {
        return Ok(());
    }
    counters.resize(count, 0)?;
    Ok(())
}

/// Counts the top frame, above which another begins.
pub fn count_up(counters: &mut Vec<u32>, top: &Option<Entry>)
    requires counter { HasCounter counters.old.items top.now }
    requires few { (version : ℕ) → get_or counters.old.items version 0 < 4294967295 }
    ensures { (version : ℕ) → get_or counters.new.items version 0
        ≡ get_or counters.old.items version 0 + pins_of_top version top.now }
{
    if let Some(entry) = top {
        counters[entry.version] += 1;
    }
}

/// Counts the top frame no longer, above which another ended.
pub fn count_down(counters: &mut Vec<u32>, top: &Option<Entry>)
    requires counter { HasCounter counters.old.items top.now }
    requires counted { (version : ℕ) →
        pins_of_top version top.now ≤ get_or counters.old.items version 0 }
    ensures { (version : ℕ) → get_or counters.new.items version 0 + pins_of_top version top.now
        ≡ get_or counters.old.items version 0 }
{
    if let Some(entry) = top {
        counters[entry.version] -= 1;
    }
}

/// How many frames run a version.
pub fn count(counters: &[u32], top: &Option<Entry>, version: usize) -> u32
    requires { get_or counters.now version 0 < 4294967295 }
    ensures { result ≡ pins_of_top version top.now + get_or counters.now version 0 }
{
    let below = match counters.get(version) {
        Some(count) => *count,
        None => 0,
    };
    match top {
        Some(entry) if entry.version == version => below + 1,
        _ => below,
    }
}
