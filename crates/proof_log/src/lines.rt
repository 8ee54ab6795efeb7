ghost use Rattle.std.specs.Prelude.{◌≡◌, ◌++◌, ℕ, List, map, flat_map, IfOk, OnOk};
ghost use Rattle.proof_log.specs.Lines.{lines_left, lines_in};

use crate::line_reader::{LineReader, LineStep};
use sched_base::NoMemory;
use std::alloc::Global;

/// Adds the lines that end in the piece.
fn push_lines(
    alloc: Global,
    reader: &mut LineReader,
    lines: &mut Vec<Vec<u8>>,
    piece: &[u8],
) -> Result<(), NoMemory>
    ensures { OnOk result ((more : List ℕ)
        → map (λ line. line.items) lines.new.items ++ lines_left reader.new more
        ≡ map (λ line. line.items) lines.old.items ++ lines_left reader.old (piece.now ++ more)) }
{
    let mut at = 0;
    loop {
        let (taken, step) = reader.feed(&piece[at..]);
        at += taken;
        match step {
            LineStep::Line => lines.push(Vec::from_slice(alloc, reader.line())?)?,
            LineStep::More | LineStep::TooLong => return Ok(()),
        }
    }
}

/// The lines that an LF ends in a text that comes in these pieces, up to the first that is too long. They depend on
/// the bytes of the text alone, and not on how it was cut into pieces.
pub fn lines_of(alloc: Global, pieces: &[Vec<u8>]) -> Result<Vec<Vec<u8>>, NoMemory>
    ensures { IfOk result (λ lines. map (λ line. line.items) lines.items
        ≡ lines_in (flat_map (λ piece. piece.items) pieces.now)) }
{
    let mut reader = LineReader::new(alloc);
    let mut lines = Vec::new(alloc);
    for piece in pieces {
        push_lines(alloc, &mut reader, &mut lines, piece.as_slice())?;
    }
    Ok(lines)
}
