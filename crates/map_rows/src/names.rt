//! The names of files on a page, and whether they are in a list.

ghost use Rattle.std.specs.Prelude.{◌≡◌, ◌==◌, ◌++◌, ◌∷◌, [], codes, false, map, string_bytes, IfOk, OnOk};
ghost use Rattle.std.specs.List.{filter, list_all, slice_split};
ghost use Rattle.map_rows.specs.Names.{every_second, has_ending, is_missing as missing_in, is_name, is_path_byte, is_there, missing as missing_of, stands};

use std::alloc::{AllocError, Global};

/// Letters, digits, and `_` `.` `-` `+` `/`.
fn is_path_byte(byte: u8) -> bool
    ensures { result ≡ is_path_byte byte }
{
    byte.is_ascii_alphanumeric() || b"_.-+/".contains(&byte)
}

/// Whether a name ends as sources, proofs, pages and scripts do.
fn has_ending(name: &[u8]) -> bool
    ensures { result ≡ has_ending name.now }
{
    name.ends_with(b".rt")
        || name.ends_with(b".antt")
        || name.ends_with(b".md")
        || name.ends_with(b".py")
}

/// Whether each byte may stand in a path.
fn is_path(bytes: &[u8]) -> bool
    ensures { result ≡ list_all is_path_byte bytes.now }
{
    bytes.iter().all(|byte| is_path_byte(*byte))
}

/// Whether a span names a file or a folder.
fn is_name(span: &str) -> bool
    ensures { result ≡ is_name span.now }
{
    let bytes = span.as_bytes();
    is_path(bytes) && (bytes.contains(&b'/') || has_ending(bytes))
}

/// A name with this end, behind a `/`.
fn path_of(alloc: Global, name: &str, end: &str) -> Result<String, AllocError>
    ensures { IfOk result (λ path. string_bytes path ≡ codes "/" ++ (name.now ++ end.now)) }
{
    format!(in alloc; "/{name}{end}")
}

/// Whether whole parts of a path of the list, behind a `/`, are the name with this end.
fn stands(alloc: Global, list: &str, name: &str, end: &str) -> Result<bool, AllocError>
    ensures { IfOk result (λ it. it ≡ stands list.now name.now end.now) }
{
    let path = path_of(alloc, name, end)?;
    Ok(list.contains(path.as_str()))
}

/// Whether a name is in the list.
fn is_there(alloc: Global, list: &str, name: &str) -> Result<bool, AllocError>
    ensures { IfOk result (λ it. it ≡ is_there list.now name.now) }
{
    if name.as_bytes().ends_with(b"/") {
        return Ok(stands(alloc, list, name, "")?);
    }
    Ok(
        stands(alloc, list, name, "/")?
            || stands(alloc, list, name, ".")?
            || stands(alloc, list, name, "\n")?,
    )
}

/// Whether a span is a name that is not in the list.
fn is_missing(alloc: Global, list: &str, span: &str) -> Result<bool, AllocError>
    ensures { IfOk result (λ it. it ≡ missing_in list.now span.now) }
{
    Ok(is_name(span) && !is_there(alloc, list, span)?)
}

/// What stands between backquotes, before them and behind them.
fn pieces<'a>(alloc: Global, page: &'a str) -> Result<Vec<&'a str>, AllocError>
    ensures { IfOk result (λ all. map (λ piece. piece.now) all.items
        ≡ slice_split (λ b. b == 96) page.now) }
{
    page.split('`').collect(alloc)
}

/// Adds a piece where it is a span that is missing.
fn add<'a>(
    alloc: Global,
    list: &str,
    names: &mut Vec<&'a str>,
    piece: &'a str,
    is_span: bool,
) -> Result<(), AllocError>
    ensures { OnOk result (map (λ name. name.now) names.new.items
        ≡ map (λ name. name.now) names.old.items
        ++ filter (missing_in list.now) (every_second is_span (piece.entry.now ∷ []))) }
{
    if is_span && is_missing(alloc, list, piece)? {
        names.push(piece)?;
    }
    Ok(())
}

/// The names of files among pieces of which every second one is a span.
fn missing_among<'a>(
    alloc: Global,
    list: &str,
    pieces: &[&'a str],
) -> Result<Vec<&'a str>, AllocError>
    ensures { IfOk result (λ names. map (λ name. name.now) names.items
        ≡ filter (missing_in list.now) (every_second false (map (λ p. p.now) pieces.now))) }
{
    let mut names = Vec::new(alloc);
    let mut is_span = false;
    for piece in pieces {
        add(alloc, list, &mut names, piece, is_span)?;
        is_span = !is_span;
    }
    Ok(names)
}

/// The names of files on a page that are not in the list, in order.
pub fn missing<'a>(alloc: Global, list: &str, page: &'a str) -> Result<Vec<&'a str>, AllocError>
    ensures { IfOk result (λ names. map (λ name. name.now) names.items
        ≡ missing_of list.now page.now) }
{
    let pieces = pieces(alloc, page)?;
    missing_among(alloc, list, &pieces)
}
