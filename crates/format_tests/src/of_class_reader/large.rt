//! Files of the greatest counts. Each is read in proportion to its bytes.

use class_reader::{ReadError, read_class};
use std::alloc::{AllocError, Global};
use std::test::Fail;

/// Some bytes, so many times others, and then further ones.
fn byte_repeated(
    alloc: Global,
    front: &[u8],
    item: &[u8],
    count: usize,
    back: &[u8],
) -> Result<Vec<u8>, AllocError> {
    let mut made = Vec::from_slice(alloc, front)?;
    for _ in 0..count {
        made.extend_from_slice(item)?;
    }
    made.extend_from_slice(back)?;
    Ok(made)
}

/// How many entries its pool has, and how many methods it has.
fn counts_of(alloc: Global, bytes: &[u8]) -> Result<(u16, usize), ReadError> {
    let class = read_class(alloc, bytes)?;
    Ok((class.pool.count(), class.methods.len()))
}

/// The heading of a file with this many indices in its pool, a text and a class of that name.
const FULL_POOL: [u8; 17] = [
    0xca, 0xfe, 0xba, 0xbe, 0, 0, 0, 50, 0xff, 0xff, 1, 0, 1, 75, 7, 0, 1,
];

/// A class without members behind its pool.
const NO_MEMBERS: [u8; 14] = [0, 0x21, 0, 2, 0, 0, 0, 0, 0, 0, 0, 0, 0, 0];

/// A class up to a count of 65,535 methods.
const MANY_METHODS: [u8; 29] = [
    0xca, 0xfe, 0xba, 0xbe, 0, 0, 0, 50, 0, 3, 1, 0, 1, 75, 7, 0, 1, 0, 0x21, 0, 2, 0, 0, 0, 0, 0,
    0, 0xff, 0xff,
];

const METHOD: [u8; 8] = [0, 1, 0, 1, 0, 1, 0, 0];

#[test]
fn greatest_counts(rt: HostRuntime) -> Result<(), Fail> {
    // Strings, each of the first text
    let pool = byte_repeated(rt.alloc(), &FULL_POOL, &[8, 0, 1], 65_532, &NO_MEMBERS)?;
    assert_eq!(rt; counts_of(rt.alloc(), &pool), Ok((65_535, 0)));
    let methods = byte_repeated(rt.alloc(), &MANY_METHODS, &METHOD, 65_535, &[0, 0])?;
    assert_eq!(rt; counts_of(rt.alloc(), &methods), Ok((3, 65_535)));
    Ok(())
}
