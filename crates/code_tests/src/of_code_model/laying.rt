//! The limits of branches and of lengths.

ghost use Rattle.std.specs.Prelude.{◌≡◌, IfOk, All};
ghost use Rattle.code_model.specs.Groups.{instrs_of, IsShort};

use code_model::{Group, Instr, Laid, LayError, decode, lay_out};
use jf_bytes::{NoMemory, Seq};
use std::alloc::Global;
use std::test::*;

/// What a root's version has in front and behind, and in front of each return.
const ENTRY: [u8; 6] = [0x11, 0, 0, 0xB8, 0, 0x1D];

const LEAVING: [u8; 6] = [0x11, 0, 0, 0xB8, 0, 0x23];

const UNWINDING: [u8; 7] = [0x11, 0, 0, 0xB8, 0, 0x26, 0xBF];

const ICONST_0: u8 = 0x03;

const RETURN: u8 = 0xB1;

const GOTO: u8 = 0xA7;

/// What goes in front of an instruction: these bytes, if it has this opcode.
fn front_of(alloc: Global, instr: &Instr, op: u8, before: &[u8]) -> Result<Seq<u8>, NoMemory>
    requires { IsShort before.now }
    ensures { IfOk result (λ front. IsShort front) }
{
    if instr.op != op {
        return Ok(Seq::new(alloc));
    }
    Ok(Seq::from_slice(alloc, before)?)
}

/// The groups of instructions, with these bytes in front of each that has this opcode.
fn groups_of(
    alloc: Global,
    instrs: Seq<Instr>,
    op: u8,
    before: &[u8],
) -> Result<Seq<Group>, NoMemory>
    requires { IsShort before.now }
    ensures instrs { IfOk result (λ groups. instrs_of groups ≡ instrs) }
    ensures fronts { IfOk result (λ groups. All (λ g. IsShort g.before) groups) }
{
    let mut groups = Seq::with_capacity(alloc, instrs.len())?;
    for instr in instrs.into_vec() {
        let before = front_of(alloc, &instr, op, before)?;
        groups.push(Group { before, instr })?;
    }
    Ok(groups)
}

/// Lays out a code, with these bytes in front of each instruction that has this opcode. No memory is what is told where
/// it is no code, too.
fn lay(
    alloc: Global,
    bytes: &[u8],
    front: &[u8],
    op: u8,
    before: &[u8],
    back: &[u8],
) -> Result<Laid, LayError>
    requires prefix { IsShort front.now }
    requires before { IsShort before.now }
    requires back { IsShort back.now }
{
    if bytes.is_empty() || bytes.len() > 65535 {
        return Err(LayError::NoMemory);
    }
    let Ok(code) = decode(alloc, bytes) else {
        return Err(LayError::NoMemory);
    };
    let groups = groups_of(alloc, code.instrs, op, before)?;
    lay_out(alloc, front, groups.as_slice(), back)
}

/// A code of nop with a goto and with one iconst_0, which gets six bytes in front.
struct Branch {
    goto: u16,
    target: u16,
    iconst_0: u16,
    len: u16,
}

/// What becomes of it: the goto comes to stand at a place, with an offset, or it is not laid out.
enum Reach {
    Reached(u16, [u8; 2]),
    Far(u16),
    TooLong(u32),
}

/// The bytes of it.
fn branch_code(alloc: Global, branch: &Branch) -> Option<Vec<u8>> {
    let goto = usize::from(branch.goto);
    let iconst_0 = usize::from(branch.iconst_0);
    let len = usize::from(branch.len);
    if len < goto + 3 || len <= iconst_0 {
        return None;
    }
    let [high, low] = branch.target.wrapping_sub(branch.goto).to_be_bytes();
    let mut code = vec![in alloc; 0; len].ok()?;
    code[goto] = GOTO;
    code[goto + 1] = high;
    code[goto + 2] = low;
    code[iconst_0] = ICONST_0;
    Some(code)
}

/// The layout of it.
fn lay_branch(alloc: Global, branch: &Branch) -> Result<Laid, LayError> {
    let Some(code) = branch_code(alloc, branch) else {
        return Err(LayError::NoMemory);
    };
    lay(alloc, code.as_slice(), &[], ICONST_0, &LEAVING, &[])
}

/// Whether a layout is this.
fn is_reached(laid: Result<Laid, LayError>, reach: &Reach) -> bool {
    match (laid, reach) {
        (Ok(laid), Reach::Reached(place, [high, low])) => {
            let goto = usize::from(*place);
            laid.code.at(goto + 1) == Some(*high) && laid.code.at(goto + 2) == Some(*low)
        }
        (Err(LayError::Far(at)), Reach::Far(goto)) => at == *goto,
        (Err(LayError::TooLong(len)), Reach::TooLong(whole)) => len == *whole,
        _ => false,
    }
}

/// Branches that just reach and that just don't, forward and backward; the last three in codes of 65,535 bytes and of
/// one more.
const BRANCHES: [(Branch, Reach); 7] = [
    (
        Branch {
            goto: 0,
            target: 32761,
            iconst_0: 3,
            len: 32762,
        },
        Reach::Reached(0, [0x7F, 0xFF]),
    ),
    (
        Branch {
            goto: 0,
            target: 32762,
            iconst_0: 3,
            len: 32763,
        },
        Reach::Far(0),
    ),
    (
        Branch {
            goto: 32762,
            target: 0,
            iconst_0: 0,
            len: 32765,
        },
        Reach::Reached(32768, [0x80, 0]),
    ),
    (
        Branch {
            goto: 32763,
            target: 0,
            iconst_0: 0,
            len: 32766,
        },
        Reach::Far(32763),
    ),
    (
        Branch {
            goto: 0,
            target: 32761,
            iconst_0: 3,
            len: 65529,
        },
        Reach::Reached(0, [0x7F, 0xFF]),
    ),
    (
        Branch {
            goto: 0,
            target: 32762,
            iconst_0: 3,
            len: 65529,
        },
        Reach::Far(0),
    ),
    (
        Branch {
            goto: 0,
            target: 32762,
            iconst_0: 3,
            len: 65530,
        },
        Reach::TooLong(65536),
    ),
];

#[test]
fn reaches_as_far_as_two_bytes(rt: HostRuntime) {
    for (branch, reach) in &BRANCHES {
        assert!(rt; is_reached(lay_branch(rt.alloc(), branch), reach));
    }
}

/// So many nop, and a return.
fn nops_and_return(alloc: Global, nops: usize) -> Result<Vec<u8>, NoMemory> {
    let mut code = vec![in alloc; 0; nops]?;
    code.push(RETURN)?;
    Ok(code)
}

/// The layout of a code of so many nop and a return, with a probe before the return.
fn lay_nops(alloc: Global, nops: usize) -> Result<Laid, LayError> {
    let source = nops_and_return(alloc, nops)?;
    lay(
        alloc,
        source.as_slice(),
        &ENTRY,
        RETURN,
        &LEAVING,
        &UNWINDING,
    )
}

#[test]
fn refuses_more_than_65535_bytes(rt: HostRuntime) -> Result<(), Fail> {
    let longest = lay_nops(rt.alloc(), 65_515);
    let longest = longest.ok().ok_or("not laid")?;
    assert_eq!(rt; longest.code.len(), 65_535);
    assert_eq!(rt; longest.homes.place.at(65_515), Some(65_527));
    let too_long = lay_nops(rt.alloc(), 65_516);
    assert!(rt; matches!(too_long, Err(LayError::TooLong(65_536))));
    Ok(())
}

/// The layout of 65,535 nop with this behind.
fn lay_whole(alloc: Global, back: &[u8]) -> Result<Laid, LayError>
    requires { IsShort back.now }
{
    lay(alloc, &[0; 65535], &[], RETURN, &[], back)
}

#[test]
fn lays_out_65535_bytes(rt: HostRuntime) -> Result<(), Fail> {
    let whole = lay_whole(rt.alloc(), &[]);
    let whole = whole.ok().ok_or("not laid")?;
    assert_eq!(rt; whole.code.len(), 65_535);
    assert_eq!(rt; whole.homes.home.at(65_535), Some(65_535));
    let more = lay_whole(rt.alloc(), &[RETURN]);
    assert!(rt; matches!(more, Err(LayError::TooLong(65_536))));
    Ok(())
}

/// So many goto, each to the one behind it.
fn gotos(alloc: Global, count: usize) -> Result<Vec<u8>, NoMemory> {
    let mut code = Vec::new(alloc);
    for _ in 0..count {
        code.extend_from_slice(&[GOTO, 0, 3])?;
    }
    Ok(code)
}

#[test]
fn lays_out_16000_branches(rt: HostRuntime) -> Result<(), Fail> {
    let source = gotos(rt.alloc(), 16_000).ok().ok_or("no memory")?;
    let laid = lay(rt.alloc(), source.as_slice(), &[], RETURN, &[], &[]);
    let laid = laid.ok().ok_or("not laid")?;
    assert!(rt; laid.code.as_slice() == source.as_slice());
    Ok(())
}
