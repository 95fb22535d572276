//! The lines of a source.
ghost use Rattle.std.specs.Prelude.{◌≡◌, ◌==◌, IfOk, map};
ghost use Rattle.std.specs.List.{slice_split};
ghost use Rattle.script_text.specs.Lines.{lines_of};
ghost use Rattle.script_text.specs.Pieces.{ends_empty};

use std::alloc::{AllocError, Global};

/// The lines of a source, each without its line feed.
pub(crate) fn lines<'s>(alloc: Global, source: &'s [u8]) -> Result<Vec<&'s [u8]>, AllocError>
    ensures { IfOk result (λ lines. map (λ line. line.now) lines.items ≡ lines_of source.now) }
{
    let mut lines = line_pieces(alloc, source)?;
    if ends_empty(&lines) {
        lines.pop();
    }
    Ok(lines)
}

/// The pieces of a source between its line feeds.
fn line_pieces<'s>(alloc: Global, source: &'s [u8]) -> Result<Vec<&'s [u8]>, AllocError>
    ensures { IfOk result (λ pieces.
        map (λ piece. piece.now) pieces.items ≡ slice_split (λ b. b == 10) source.now) }
{
    source.split(|b| *b == b'\n').collect(alloc)
}

/// Whether the last piece is empty.
fn ends_empty(pieces: &[&[u8]]) -> bool
    ensures { result ≡ ends_empty (map (λ piece. piece.now) pieces.now) }
{
    match pieces {
        [.., last] => last.is_empty(),
        [] => false,
    }
}
