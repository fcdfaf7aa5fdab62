//! Lists of rows.

ghost use Rattle.std.specs.Prelude.{◌≡◌, map, IfOk};
ghost use Rattle.std.specs.Str.Lines.{lines};
ghost use Rattle.worked_rows.specs.Lists.{is_row, row_name, names_in, row_names};

use std::alloc::{AllocError, Global};

/// Whether a line of a list is a row, and neither empty nor a comment.
fn is_row(line: &str) -> bool
    ensures { result ≡ is_row line.now }
{
    match line.as_bytes() {
        [] => false,
        [first, ..] => *first != b'#',
    }
}

/// The name on a line of a list: what stands before the colon.
fn row_name(line: &str) -> &str
    ensures { result.now ≡ row_name line.now }
{
    match line.split_once(':') {
        Some((name, _)) => name,
        None => line,
    }
}

/// The lines of a text.
pub fn lines_of<'a>(alloc: Global, text: &'a str) -> Result<Vec<&'a str>, AllocError>
    ensures { IfOk result (λ all. map (λ line. line.now) all.items ≡ lines text.now) }
{
    text.lines().collect(alloc)
}

/// The names on those of the lines that are rows.
fn names_in<'a>(alloc: Global, lines: &[&'a str]) -> Result<Vec<&'a str>, AllocError>
    ensures { let all = map (λ line. line.now) lines.now in
        IfOk result (λ names. map (λ name. name.now) names.items ≡ names_in all) }
{
    let mut names = Vec::new(alloc);
    for line in lines {
        if is_row(line) {
            names.push(row_name(line))?;
        }
    }
    Ok(names)
}

/// The names of the rows of a list, in its order. A line is a row's name, a colon and what the row shows; an empty line
/// and one that begins with `#` is none.
pub fn row_names<'a>(alloc: Global, text: &'a str) -> Result<Vec<&'a str>, AllocError>
    ensures { IfOk result (λ names. map (λ name. name.now) names.items ≡ row_names text.now) }
{
    let lines = lines_of(alloc, text)?;
    names_in(alloc, &lines)
}
