//! The operands of tableswitch and lookupswitch (JVM Specification 6.5).

ghost use Rattle.std.specs.Prelude.{◌≡◌, ◌<◌};
ghost use Rattle.std.specs.Int.{w32};
ghost use Rattle.code_model.specs.Operands.{padding_len, case_count, rise_above, keys_rise};
ghost use Rattle.code_model.specs.Reading.{Gives, target_at, pair_at, many_at, high_at, table_at};
ghost use Rattle.code_model.specs.Reading.{count_at, columns_at, lookup_at};

use crate::error::CodeError;
use crate::instr::Arg;
use crate::numbers::{far_target_of, i32_of, run_of, u32_of};
use jf_bytes::Seq;
use std::alloc::Global;

/// How many bytes stand between the opcode and the default.
fn padding_len(at: u16) -> usize
    ensures { result ≡ padding_len at }
{
    3 - usize::from(at) % 4
}

/// The greatest key of a tableswitch with this least key.
#[tactic(auto, unfolding(crate::specs::Reading::high_at))]
fn high_of(low: i32, at: u16, bytes: &[u8]) -> Result<(i32, &[u8]), CodeError>
    ensures { Gives (λ x. (x.0, x.1.now)) result (high_at at low bytes.now) }
{
    let (high, rest) = i32_of(at, bytes)?;
    if high < low {
        return Err(CodeError::BadSwitch(at));
    }
    Ok((high, rest))
}

/// How many cases a tableswitch has.
fn case_count(low: i32, high: i32) -> u64
    ensures { result ≡ case_count low high }
{
    let most = i64::from(high) - i64::from(low);
    if most < 0 { 0 } else { most as u64 + 1 }
}

/// So many targets.
fn targets_of(
    alloc: Global,
    count: u64,
    at: u16,
    bytes: &[u8],
) -> Result<(Seq<u16>, &[u8]), CodeError>
    ensures { Gives (λ x. (x.0, x.1.now)) result (many_at (target_at at w32) count bytes.now) }
{
    let mut targets = Seq::new(alloc);
    let mut rest = bytes;
    for _ in 0..count {
        let (target, after) = far_target_of(at, rest)?;
        targets.push(target)?;
        rest = after;
    }
    Ok((targets, rest))
}

/// The operands of a tableswitch.
#[tactic(auto, unfolding(crate::specs::Reading::table_at))]
pub(crate) fn table_of(alloc: Global, at: u16, bytes: &[u8]) -> Result<(Arg, &[u8]), CodeError>
    ensures { Gives (λ x. (x.0, x.1.now)) result (table_at at bytes.now) }
{
    let (_, rest) = run_of(at, padding_len(at), bytes)?;
    let (default, rest) = far_target_of(at, rest)?;
    let (low, rest) = i32_of(at, rest)?;
    let (high, rest) = high_of(low, at, rest)?;
    let (targets, rest) = targets_of(alloc, case_count(low, high), at, rest)?;
    Ok((Arg::Table(default, low, targets), rest))
}

/// How many pairs a lookupswitch has.
#[tactic(auto, unfolding(crate::specs::Reading::count_at))]
fn count_of(at: u16, bytes: &[u8]) -> Result<(u32, &[u8]), CodeError>
    ensures { Gives (λ x. (x.0, x.1.now)) result (count_at at bytes.now) }
{
    let (count, rest) = u32_of(at, bytes)?;
    if count >= 2_147_483_648 {
        return Err(CodeError::BadSwitch(at));
    }
    Ok((count, rest))
}

/// The keys of a lookupswitch and, one for each, their targets.
#[derive(Debug, Drop)]
struct Columns {
    keys: Seq<i32>,
    targets: Seq<u16>,
}

/// A key and its target.
#[tactic(auto, unfolding(crate::specs::Reading::pair_at))]
fn pair_of(at: u16, bytes: &[u8]) -> Result<((i32, u16), &[u8]), CodeError>
    ensures { Gives (λ x. (x.0, x.1.now)) result (pair_at at bytes.now) }
{
    let (key, rest) = i32_of(at, bytes)?;
    let (target, rest) = far_target_of(at, rest)?;
    Ok(((key, target), rest))
}

/// So many pairs.
#[tactic(auto, unfolding(crate::specs::Reading::columns_at))]
fn columns_of(
    alloc: Global,
    count: u32,
    at: u16,
    bytes: &[u8],
) -> Result<(Columns, &[u8]), CodeError>
    ensures { Gives (λ x. ((x.0.keys, x.0.targets), x.1.now)) result
        (columns_at at count bytes.now) }
{
    let mut keys = Seq::new(alloc);
    let mut targets = Seq::new(alloc);
    let mut rest = bytes;
    for _ in 0..count {
        let (pair, after) = pair_of(at, rest)?;
        keys.push(pair.0)?;
        targets.push(pair.1)?;
        rest = after;
    }
    Ok((Columns { keys, targets }, rest))
}

/// Whether each key is above the one before it, the first above this one.
fn rise_above(low: i32, keys: &[i32]) -> bool
    ensures { result ≡ rise_above low keys.now }
{
    let mut below = low;
    for key in keys {
        if *key <= below {
            return false;
        }
        below = *key;
    }
    true
}

/// Whether each key is above the one before it.
fn keys_rise(keys: &[i32]) -> bool
    ensures { result ≡ keys_rise keys.now }
{
    match keys {
        [] => true,
        [first, others @ ..] => rise_above(*first, others),
    }
}

/// The operands of a lookupswitch.
#[tactic(auto, unfolding(crate::specs::Reading::lookup_at))]
pub(crate) fn lookup_of(alloc: Global, at: u16, bytes: &[u8]) -> Result<(Arg, &[u8]), CodeError>
    ensures { Gives (λ x. (x.0, x.1.now)) result (lookup_at at bytes.now) }
{
    let (_, rest) = run_of(at, padding_len(at), bytes)?;
    let (default, rest) = far_target_of(at, rest)?;
    let (count, rest) = count_of(at, rest)?;
    let (columns, rest) = columns_of(alloc, count, at, rest)?;
    let Columns { keys, targets } = columns;
    if !keys_rise(keys.as_slice()) {
        return Err(CodeError::BadSwitch(at));
    }
    Ok((Arg::Lookup(default, keys, targets), rest))
}
