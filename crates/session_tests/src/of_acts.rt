//! Which actions a session refuses, and when. What becomes of those that it accepts, and the trees, are rows of
//! worked_rows (images, plans and roots).

use crate::kept::session_kept;
use jvm_model::Mark;
use profile_session::{ActError, Run, Session};
use std::test::Fail;

/// Selects or deselects a method of a session that has made a step.
fn act(session: &mut Session, select: bool, method: u32) -> Result<Result<(), ActError>, Fail> {
    if session.clock() == 0 {
        return Err("no step was made".into());
    }
    if select {
        return Ok(session.select(method));
    }
    Ok(session.deselect(method))
}

/// Whether the run ends within 100 steps.
fn ends(session: &mut Session) -> bool {
    session.clock() <= 1000 && session.advance(100) == Run::Ended
}

#[test]
fn what_is_so_already_and_what_comes_behind_the_end(rt: HostRuntime) -> Result<(), Fail> {
    let words = [
        "jfluid", "--main", "P1", "--root", "P1.f(I)I", "--budget", "3", "P1.class",
    ];
    let mut session = session_kept(rt.alloc(), &words)?;
    let session = &mut *session;
    let Some(root) = session.program().acts.get(0).copied() else {
        return Err("no root".into());
    };
    let (f, main) = (root.method, session.program().main);
    // Each action, what is answered, the mark of f behind it, and how many swaps there are then.
    let acts = [
        (true, f, Err(ActError::AlreadySelected), Mark::Root, 1),
        (false, main, Err(ActError::NotSelected), Mark::Root, 1),
        (false, f, Ok(()), Mark::Off, 2),
        (false, f, Err(ActError::NotSelected), Mark::Off, 2),
        (true, f, Ok(()), Mark::Root, 3),
    ];
    for (select, method, answer, mark, swaps) in acts {
        assert_eq!(rt; act(session, select, method)?, answer);
        assert_eq!(rt; (session.mark(f), session.swaps().len()), (mark, swaps));
    }
    assert_eq!(rt; (session.clock(), session.mark(main)), (3, Mark::Off));
    assert!(rt; ends(session));
    for (select, method) in [(true, f), (false, f), (true, main)] {
        assert_eq!(rt; act(session, select, method)?, Err(ActError::Ended));
    }
    assert_eq!(rt; (session.clock(), session.swaps().len()), (9, 3));
    assert_eq!(rt; session.output(), b"42\n".as_slice());
    Ok(())
}
