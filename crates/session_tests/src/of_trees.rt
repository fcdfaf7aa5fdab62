//! The tree of a session that is asked for it once or often.

use crate::kept::session_kept;
use context_tree::Node;
use profile_session::{Run, Session};
use std::alloc::Global;
use std::test::Fail;

/// A session of which no step was made behind the start, with a root.
const WORDS: [&str; 8] = [
    "jfluid",
    "--main",
    "P1",
    "--root",
    "P1.main([Ljava/lang/String;)V",
    "--budget",
    "0",
    "P1.class",
];

/// Makes a step of a session that is not far yet.
fn step(session: &mut Session) -> Option<Run> {
    if session.clock() > 1000 {
        return None;
    }
    Some(session.advance(1))
}

/// The nodes of a session's tree.
fn nodes_of(alloc: Global, session: &mut Session) -> Result<Vec<Node>, Fail> {
    match session.tree() {
        Ok(shown) => Ok(Vec::from_slice(alloc, shown.tree.nodes())?),
        Err(_) => Err("no tree".into()),
    }
}

/// The nodes behind the nine steps of the run, where the tree is asked for behind each, or at the end alone.
fn nodes_in_the_end(alloc: Global, often: bool) -> Result<Vec<Node>, Fail> {
    let mut session = session_kept(alloc, &WORDS)?;
    for clock in 1..=9u64 {
        let came = step(&mut session);
        if came != Some(if clock == 9 { Run::Ended } else { Run::Still }) {
            return Err("another run".into());
        }
        if often && nodes_of(alloc, &mut session)?.len() != (if clock < 3 { 1 } else { 2 }) {
            return Err("another tree".into());
        }
    }
    nodes_of(alloc, &mut session)
}

#[test]
fn a_tree_that_is_asked_for_often_is_the_same(rt: HostRuntime) -> Result<(), Fail> {
    let once = nodes_in_the_end(rt.alloc(), false)?;
    let often = nodes_in_the_end(rt.alloc(), true)?;
    assert_eq!(rt; once.as_slice(), often.as_slice());
    let counts = [(None, 1, 5), (Some(0), 1, 4)];
    assert_eq!(rt; once.len(), counts.len());
    for (node, (parent, calls, own)) in once.iter().zip(counts) {
        assert_eq!(rt; (node.parent, node.calls, node.own), (parent, calls, own));
    }
    Ok(())
}
