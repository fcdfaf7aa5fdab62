//! Where the instructions of a code start.

ghost use Rattle.std.specs.Prelude.{◌≡◌, false, replicate, IfOk};
ghost use Rattle.std.specs.List.{list_all};
ghost use Rattle.code_model.specs.Groups.{targets_of, is_start};
ghost use Rattle.code_admission.specs.Uses.{AreWithin, TellsStarts};

use code_model::{Arg, Instr};
use jf_bytes::{NoMemory, Seq};
use std::alloc::Global;
use std::marker::Model;

/// The instructions of a code, with a table of their starts, by offset. A clause sees the list of the instructions.
#[derive(Drop)]
pub struct Body {
    instrs: Seq<Instr>,
    starts: Seq<bool>,
}

impl Model for Body {
    ghost use Rattle.std.specs.Prelude.{List};
    ghost use Rattle.code_model.specs.declared.instr.Instr.{Instr};
    ghost use Rattle.code_admission.specs.Uses.{TellsStarts};

    ghost Value = { List Instr };

    ghost view = { λ b. b.instrs };

    ghost invariant = { λ b. TellsStarts b.instrs b.starts };
}

/// A table of so many offsets at which nothing starts.
fn no_starts(alloc: Global, len: u16) -> Result<Seq<bool>, NoMemory>
    ensures { IfOk result (λ starts. starts ≡ replicate len false) }
{
    let mut starts = Vec::with_capacity(alloc, len as usize)?;
    starts.resize(len as usize, false)?;
    Ok(Seq::from_vec(starts))
}

/// The table of these instructions, which stand within so many bytes.
fn starts_of(alloc: Global, len: u16, instrs: &[Instr]) -> Result<Seq<bool>, NoMemory>
    requires { AreWithin len instrs.now }
    ensures { IfOk result (TellsStarts instrs.now) }
{
    let mut starts = no_starts(alloc, len)?;
    for instr in instrs {
        starts.set(instr.at as usize, true);
    }
    Ok(starts)
}

impl Body {
    /// The body of these instructions, which stand within so many bytes.
    pub fn new(alloc: Global, len: u16, instrs: Seq<Instr>) -> Result<Body, NoMemory>
        requires { AreWithin len instrs }
        ensures { IfOk result (λ body. body ≡ instrs) }
    {
        let starts = starts_of(alloc, len, instrs.as_slice())?;
        Ok(Body { instrs, starts })
    }

    /// The instructions, in order.
    pub fn instrs(&self) -> &[Instr]
        ensures { result.now ≡ self.now }
    {
        self.instrs.as_slice()
    }

    /// Gives the instructions back.
    pub fn into_instrs(self) -> Seq<Instr>
        ensures { result ≡ self }
    {
        let Body { instrs, starts: _ } = self;
        instrs
    }

    /// Whether an instruction starts at an offset.
    pub fn is_start(&self, at: u16) -> bool
        ensures { result ≡ is_start self.now at }
    {
        self.starts.at(at as usize).unwrap_or(false)
    }

    /// Whether an instruction starts at each of the offsets.
    fn are_starts(&self, offsets: &[u16]) -> bool
        ensures { result ≡ list_all (is_start self.now) offsets.now }
    {
        offsets.iter().all(|at| self.is_start(*at))
    }

    /// Whether an instruction starts at each target of an operand.
    pub fn fits_targets(&self, arg: &Arg) -> bool
        ensures { result ≡ list_all (is_start self.now) (targets_of arg.now) }
    {
        match arg {
            Arg::Target(target) => self.is_start(*target),
            Arg::Table(default, _, targets) => {
                self.is_start(*default) && self.are_starts(targets.as_slice())
            }
            Arg::Lookup(default, _, targets) => {
                self.is_start(*default) && self.are_starts(targets.as_slice())
            }
            _ => true,
        }
    }
}
