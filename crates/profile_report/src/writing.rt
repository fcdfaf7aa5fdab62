//! The whole report.

ghost use Rattle.std.specs.Prelude.{◌≡◌, ◌++◌, IfOk, OnOk};
ghost use Rattle.profile_report.specs.Reports.{facts_text, report_of};

use crate::ending::push_ending;
use crate::facts::Facts;
use crate::numbers::push_number;
use crate::summary::push_summary;
use crate::tree_lines::push_tree;
use context_tree::Tree;
use jf_bytes::NoMemory;
use jvm_model::Program;
use std::alloc::Global;

/// Adds the lines of the ending, of the steps and of the swaps.
fn push_facts(
    alloc: Global,
    out: &mut Vec<u8>,
    facts: &Facts,
    program: &Program,
) -> Result<(), NoMemory>
    ensures { OnOk result (out.new.items ≡ out.old.items ++ facts_text program.now facts.now) }
{
    out.extend_from_slice(b"ending ")?;
    push_ending(alloc, out, program, facts.ending)?;
    out.extend_from_slice(b"\nsteps ")?;
    push_number(out, facts.steps)?;
    out.extend_from_slice(b"\nswaps ")?;
    push_number(out, facts.swaps)?;
    out.push(b'\n')?;
    Ok(())
}

/// The report's text: a line each for the ending, the steps and the swaps, and then the tree or, for a summary, its
/// sums. The numbers in the ending and in the tree are those of the program; for any other a line has no name.
pub fn report(
    alloc: Global,
    facts: &Facts,
    tree: &Tree,
    program: &Program,
) -> Result<Vec<u8>, NoMemory>
    ensures { IfOk result (λ text. text.items ≡ report_of program.now facts.now tree.now) }
{
    let mut out = Vec::new(alloc);
    push_facts(alloc, &mut out, facts, program)?;
    if facts.summary {
        push_summary(&mut out, tree)?;
    } else {
        push_tree(alloc, &mut out, program, tree)?;
    }
    Ok(out)
}
