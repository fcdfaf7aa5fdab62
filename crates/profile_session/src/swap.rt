//! An entry of the swap list.

use jf_bytes::Seq;

/// A class was given the versions of an image, after so many steps.
#[derive(Debug, Drop)]
pub struct Swap {
    pub clock: u64,
    pub class: u32,
    pub image: Seq<u8>,
}
