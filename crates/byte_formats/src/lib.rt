//! Formats of bytes, and how they are read from left to right: what the class file, instructions
//! and a method's tables have in common. Which faults there are is left to those who use it.
#![tactic(auto)]

ghost use Rattle.std.specs.Prelude.{◌≡◌};
ghost use Rattle.byte_formats.specs.Formats.{place};

/// The offset of bytes that end at this one.
pub fn place_of(limit: usize, bytes: &[u8]) -> usize
    ensures { result ≡ place limit bytes.now }
{
    limit.saturating_sub(bytes.len())
}
