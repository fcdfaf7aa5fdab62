//! Many events through a small ring. The bytes of records, and so how many of them fit, are computed in
//! proofs/WorkedRecords.

use event_buffer::Events;
use jvm_model::{Event, EventKind};
use std::test::Fail;

fn event(kind: EventKind, method: u32, clock: u64) -> Event {
    Event {
        kind,
        method,
        clock,
    }
}

fn event_numbered(number: u32) -> Event {
    let kind = match number % 4 {
        0 => EventKind::Root,
        1 => EventKind::Enter,
        2 => EventKind::Leave,
        _ => EventKind::Unwind,
    };
    let clock = number as u64;
    event(
        kind,
        number.wrapping_mul(4_294_967),
        clock.wrapping_mul(clock),
    )
}

#[test]
fn first_in_first_out(rt: HostRuntime) -> Result<(), Fail> {
    let Ok(mut buffer) = Events::new(rt.alloc(), 48) else {
        return Err("memory".into());
    };
    let mut last = 0;
    for number in 0..1000 {
        let event = event_numbered(number);
        if event.clock < last || buffer.push(event).is_err() {
            return Err("the event does not fit".into());
        }
        last = event.clock;
        if 2 <= number {
            assert_eq!(rt; buffer.pop(), Some(event_numbered(number - 2)));
        }
    }
    assert_eq!(rt; buffer.pop(), Some(event_numbered(998)));
    assert_eq!(rt; buffer.pop(), Some(event_numbered(999)));
    assert_eq!(rt; buffer.pop(), None);
    assert_eq!(rt; buffer.used(), 0);
    Ok(())
}
