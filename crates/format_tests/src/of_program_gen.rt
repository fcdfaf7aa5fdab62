//! The bytes of whole programs beside those that another program wrote. The first draws, which no public call shows,
//! are computed in proofs/WorkedDraws.

mod vectors;

use class_writer::write_class;
use program_gen::generate;
use std::alloc::Global;
use std::test::Fail;
use vectors::{seed_1_size_1, seed_1_size_3, seed_7_size_12};

fn digit(number: u8) -> Option<&'static u8> {
    b"0123456789abcdef".get(number as usize)
}

/// Whether these are the bytes, two digits each.
fn is_spelled(bytes: &[u8], digits: &[u8]) -> bool {
    let mut rest = digits;
    for byte in bytes {
        let [high, low, more @ ..] = rest else {
            return false;
        };
        if Some(high) != digit(byte / 16) || Some(low) != digit(byte % 16) {
            return false;
        }
        rest = more;
    }
    rest.is_empty()
}

/// Whether the program of this seed and size is written so.
fn is_written(alloc: Global, seed: u32, size: u32, expected: &[&str]) -> Result<bool, Fail> {
    if size < 1 || 200 < size {
        return Ok(false);
    }
    let Ok(classes) = generate(alloc, seed, size) else {
        return Err("memory".into());
    };
    if classes.len() != expected.len() {
        return Ok(false);
    }
    for (class, digits) in classes.iter().zip(expected.iter()) {
        let Ok(bytes) = write_class(alloc, class) else {
            return Err("memory".into());
        };
        if !is_spelled(bytes.as_slice(), digits.as_bytes()) {
            return Ok(false);
        }
    }
    Ok(true)
}

#[test]
fn bytes_of_programs(rt: HostRuntime) -> Result<(), Fail> {
    let alloc = rt.alloc();
    assert!(rt; is_written(alloc, 1, 1, &seed_1_size_1())?);
    assert!(rt; is_written(alloc, 1, 3, &seed_1_size_3())?);
    assert!(rt; is_written(alloc, 7, 12, &seed_7_size_12())?);
    assert!(rt; !is_written(alloc, 2, 3, &seed_1_size_3())?);
    Ok(())
}
