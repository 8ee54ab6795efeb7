ghost use Rattle.std.specs.Prelude.{◌≡◌, ◌≤◌, ◌++◌, ◌==◌, [], length, position};
ghost use Rattle.smallvec.specs.SmallVec.{small_vec_len, HasRoomFor};
ghost use Rattle.proof_log.specs.Lines.{ReaderState, line_len, fed_line};

use smallvec::SmallVec;
use std::alloc::Global;
use std::marker::Model;

/// A line of a report may have so many bytes before its LF.
pub const LONGEST_LINE: usize = 64;

/// What a piece of a text brought.
#[derive(Clone, Copy, Debug, PartialEq, Eq)]
pub enum LineStep {
    /// The piece ended, and the line goes on.
    More,
    /// A line ended.
    Line,
    /// The line has more than [`LONGEST_LINE`] bytes.
    TooLong,
}

/// Cuts a text that comes in pieces into its lines. It holds one line, in itself, and takes no memory.
#[derive(Drop)]
pub struct LineReader {
    line: SmallVec<u8, 64>,
    last: LineStep,
}

impl Model for LineReader {
    ghost use Rattle.std.specs.Prelude.{◌≡◌, ◌≤◌};
    ghost use Rattle.smallvec.specs.SmallVec.{small_vec_len};
    ghost use Rattle.proof_log.specs.Lines.{ReaderState};

    ghost Value = { ReaderState };

    ghost view = { λ r. record { line = r.line.items; last = r.last } };

    ghost invariant = { λ r. (r.line.capacity ≡ 64) × (small_vec_len r.line ≤ 64) };
}

fn line_end_in(piece: &[u8]) -> Option<usize>
    ensures { result ≡ position (λ byte. byte == 0x0A) piece.now }
{
    piece.iter().position(|byte| *byte == b'\n')
}

/// How many bytes stand before the first LF, or all.
fn line_len(piece: &[u8]) -> usize
    ensures value { result ≡ line_len piece.now }
    ensures within { result ≤ length piece.now }
{
    line_end_in(piece).unwrap_or(piece.len())
}

fn push_bytes(line: &mut SmallVec<u8, 64>, bytes: &[u8])
    requires inline { line.old.capacity ≡ 64 }
    requires room { HasRoomFor line.old (length bytes.now) }
    ensures items { line.new.items ≡ line.old.items ++ bytes.now }
    ensures inline { line.new.capacity ≡ 64 }
{
    let _ = line.extend_from_slice(bytes);
}

/// Goes on with a line: takes bytes up to and with the next LF, but none past the longest line.
#[tactic(auto, unfolding(crate::specs::Lines::fed_line))]
fn take_line(line: &mut SmallVec<u8, 64>, piece: &[u8]) -> (usize, LineStep)
    requires inline { line.old.capacity ≡ 64 }
    requires short { small_vec_len line.old ≤ 64 }
    ensures taken { result.0 ≡ (fed_line line.old.items piece.now).taken }
    ensures within { result.0 ≤ length piece.now }
    ensures step { result.1 ≡ (fed_line line.old.items piece.now).step }
    ensures line { line.new.items ≡ (fed_line line.old.items piece.now).line }
    ensures inline { line.new.capacity ≡ 64 }
    ensures short { small_vec_len line.new ≤ 64 }
{
    let room = LONGEST_LINE - line.len();
    let before = line_len(piece);
    if before > room {
        push_bytes(line, &piece[..room]);
        return (room, LineStep::TooLong);
    }
    push_bytes(line, &piece[..before]);
    if before == piece.len() {
        return (before, LineStep::More);
    }
    (before + 1, LineStep::Line)
}

impl LineReader {
    ghost use Rattle.proof_log.specs.Lines.{fed, after_piece};

    /// A reader at the start of a text.
    pub fn new(alloc: Global) -> LineReader
        ensures { result ≡ record { line = []; last = LineStep.More } }
    {
        LineReader {
            line: SmallVec::new(alloc),
            last: LineStep::More,
        }
    }

    /// Takes bytes up to and with the next LF, and says how many. After [`LineStep::Line`] the next call begins the
    /// next line; after [`LineStep::TooLong`] no byte is taken, now and ever after.
    pub fn feed(&mut self, piece: &[u8]) -> (usize, LineStep)
        ensures taken { result.0 ≡ (fed self.old piece.now).taken }
        ensures within { result.0 ≤ length piece.now }
        ensures step { result.1 ≡ (fed self.old piece.now).step }
        ensures after { self.new ≡ after_piece self.old piece.now }
        ensures short { length self.old.line ≤ LONGEST_LINE }
    {
        match self.last {
            LineStep::TooLong => return (0, LineStep::TooLong),
            LineStep::Line => self.line.clear(),
            LineStep::More => {}
        }
        let (taken, step) = take_line(&mut self.line, piece);
        self.last = step;
        (taken, step)
    }

    /// The line that ended, without its LF. The last call of [`LineReader::feed`] answered [`LineStep::Line`].
    pub fn line(&self) -> &[u8]
        requires { self.now.last ≡ LineStep.Line }
        ensures { result.now ≡ self.now.line }
    {
        self.line.as_slice()
    }
}
