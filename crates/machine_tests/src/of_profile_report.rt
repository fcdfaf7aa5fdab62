//! A report of as many levels as a run can have live activations below `main`. What a report says is worked in
//! proofs/WorkedReports, and stands in each row of worked_rows.

use base_classes::built_in;
use class_reader::read_class;
use context_tree::Tree;
use jf_bytes::Seq;
use jvm_model::{Ending, Event, EventKind, MethodPlace, Program};
use profile_report::{Facts, report};
use std::alloc::Global;
use std::test::Fail;

/// A class Z of version 50.0, without a superclass, with the method z, which is ()V.
const Z: &[u8] =
    b"\xCA\xFE\xBA\xBE\0\0\0\x32\0\x05\x01\0\x01Z\x07\0\x01\x01\0\x01z\x01\0\x03()V\0\x21\0\x02\0\0\0\0\0\0\0\x01\0\x09\0\x03\0\x04\0\0\0\0";

/// The program of that class and the built-in ones.
fn program_of_z(alloc: Global) -> Result<Program, Fail> {
    let mut classes = Seq::new(alloc);
    classes.push(read_class(alloc, Z)?)?;
    for class in built_in(alloc)? {
        classes.push(class)?;
    }
    let mut methods = Seq::new(alloc);
    methods.push(MethodPlace {
        class: 0,
        position: 0,
    })?;
    Ok(Program {
        classes,
        methods,
        main: 0,
        acts: Seq::new(alloc),
        args: Seq::new(alloc),
        heap: 4_194_304,
    })
}

/// A tree that took these events, with the steps up to the last clock.
fn tree_of(alloc: Global, events: &[Event], last: u64) -> Result<Tree, Fail> {
    let mut tree = Tree::new(alloc);
    let mut clock = 0;
    for event in events {
        if event.clock < clock {
            return Err("clocks must not fall".into());
        }
        clock = event.clock;
        if tree.take(event).is_err() {
            return Err("memory".into());
        }
    }
    if last < clock {
        return Err("clocks must not fall".into());
    }
    tree.credit(last);
    Ok(tree)
}

/// The tree in which z calls itself at each clock from 1 to 1,023.
fn deep_tree(alloc: Global) -> Result<Tree, Fail> {
    let mut events = Vec::new(alloc);
    for clock in 1..1_024u64 {
        events.push(Event {
            kind: EventKind::Root,
            method: 0,
            clock,
        })?;
    }
    tree_of(alloc, events.as_slice(), 1_024)
}

#[test]
fn reports_a_thousand_levels(rt: HostRuntime) -> Result<(), Fail> {
    let alloc = rt.alloc();
    let facts = Facts {
        ending: Some(Ending::Uncaught(53)),
        steps: 1_024,
        swaps: 1,
        summary: false,
    };
    let text = report(alloc, &facts, &deep_tree(alloc)?, &program_of_z(alloc)?);
    let text = text.ok().ok_or("no report")?;
    let front =
        "ending uncaught java/lang/StackOverflowError\nsteps 1024\nswaps 1\ntree\n1 1 1023 Z.z()V\n  1 1 1022 Z.z()V\n    1 1 1021 Z.z()V\n";
    assert!(rt; text.starts_with(front.as_bytes()));
    assert!(rt; text.ends_with("  1 1 1 Z.z()V\n".as_bytes()));
    assert_eq!(rt; text.len(), 1_060_836);
    Ok(())
}
