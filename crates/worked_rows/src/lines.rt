//! Texts of bytes by their lines.

ghost use Rattle.std.specs.Prelude.{◌≡◌, map, IfOk};
ghost use Rattle.worked_rows.specs.Lines.{parts_of, without_last_feed, lines_in};

use std::alloc::{AllocError, Global};

/// The parts of a text, where each line feed parts two.
fn parts_of<'a>(alloc: Global, text: &'a [u8]) -> Result<Vec<&'a [u8]>, AllocError>
    ensures { IfOk result (λ parts. map (λ p. p.now) parts.items ≡ parts_of text.now) }
{
    text.split(|byte| *byte == b'\n').collect(alloc)
}

/// A text without the line feed at its end.
fn without_last_feed(text: &[u8]) -> &[u8]
    ensures { result.now ≡ without_last_feed text.now }
{
    match text {
        [front @ .., b'\n'] => front,
        _ => text,
    }
}

/// The lines of a text, where the last one need not end with a line feed.
pub fn lines_in<'a>(alloc: Global, text: &'a [u8]) -> Result<Vec<&'a [u8]>, AllocError>
    ensures { IfOk result (λ lines. map (λ l. l.now) lines.items ≡ lines_in text.now) }
{
    if text.is_empty() {
        return Ok(Vec::new(alloc));
    }
    parts_of(alloc, without_last_feed(text))
}
