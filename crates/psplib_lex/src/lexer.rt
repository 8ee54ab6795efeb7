ghost use Rattle.std.specs.Prelude.{◌≡◌, ◌+◌, ◌<◌, ◌≤◌, ◌↔◌, true, false, ◌++◌, length, filter, IfOk, OnOk, Err, slice_index};
ghost use Rattle.psplib_lex.specs.Line.{is_blank, is_line_end, is_kept, all_lines, without_mark, lines_of};
ghost use Rattle.psplib_lex.specs.View.{word_between};
ghost use Rattle.psplib_lex.specs.Lexing.{IsLexing, HasLexed};

use crate::words::{KeptLine, Span, Words};
use sched_base::NoMemory;
use std::alloc::Global;

/// A text may have so many bytes.
pub const MOST_BYTES: usize = 4_194_304;

/// Why a text has no words.
#[derive(Clone, Copy, Debug, PartialEq, Eq)]
pub enum LexFault {
    /// It has more than [`MOST_BYTES`] bytes.
    TextTooLong,
    /// Memory was refused.
    NoMemory,
}

impl From<NoMemory> for LexFault {
    ghost use Rattle.std.specs.Prelude.{◌≡◌};
    ghost use Rattle.psplib_lex.specs.declared.lexer.LexFault.TheVariants as faults;

    ghost from_gives = { λ _ fault. fault ≡ faults.NoMemory };

    fn from(_refused: NoMemory) -> LexFault {
        LexFault::NoMemory
    }
}

/// The lines and words before a place of a text.
#[derive(Drop)]
struct Lexer<'a> {
    text: &'a [u8],
    /// How many bytes were read.
    at: usize,
    /// The kept lines that have ended.
    lines: Vec<KeptLine>,
    /// The words that have ended: those of the kept lines, then those of the open line.
    words: Vec<Span>,
    /// The number of the open line, from 1.
    number: u32,
    /// Where the words of the open line begin among all words.
    first_word: usize,
    /// Where the bytes after the last blank begin.
    word_begin: usize,
    /// Whether the open line has only blanks and stars so far.
    only_stars: bool,
    /// Whether it has only blanks and hyphens so far.
    only_hyphens: bool,
}

fn is_blank(byte: u8) -> bool
    ensures { result ≡ is_blank byte }
{
    matches!(byte, b' ' | b'\t' | b'\r' | 0x0B | 0x0C)
}

/// Ends a word, where it has a byte.
fn push_word(words: &mut Vec<Span>, begin: usize, end: usize) -> Result<(), NoMemory>
    ensures { OnOk result (words.new.items ≡ words.old.items ++ word_between begin end) }
{
    if begin < end {
        words.push(Span { begin, end })?;
    }
    Ok(())
}

impl<'a> Lexer<'a> {
    fn new(alloc: Global, text: &'a [u8]) -> Lexer<'a>
        requires { length text.now ≤ MOST_BYTES }
        ensures begun { IsLexing result }
        ensures text { result.text.now ≡ text.now }
    {
        Lexer {
            text,
            at: 0,
            lines: Vec::new(alloc),
            words: Vec::new(alloc),
            number: 1,
            first_word: 0,
            word_begin: 0,
            only_stars: true,
            only_hyphens: true,
        }
    }

    /// Ends the open line: its words are kept, or dropped where it is a rule.
    fn end_line(&mut self) -> Result<(), NoMemory>
        requires { IsLexing self.old }
        ensures ended { OnOk result (HasLexed self.new) }
        ensures place { self.new.at ≡ self.old.at }
        ensures text { self.new.text ≡ self.old.text }
    {
        push_word(&mut self.words, self.word_begin, self.at)?;
        if self.only_stars || self.only_hyphens {
            self.words.truncate(self.first_word);
        } else {
            let words = Span {
                begin: self.first_word,
                end: self.words.len(),
            };
            self.lines.push(KeptLine {
                number: self.number,
                words,
            })?;
        }
        Ok(())
    }

    fn read_line_end(&mut self) -> Result<(), NoMemory>
        requires lexing { IsLexing self.old }
        requires within { self.old.at < length self.old.text.now }
        requires line_end { slice_index self.old.text.now self.old.at ≡ 0x0A }
        ensures lexing { OnOk result (IsLexing self.new) }
        ensures next { OnOk result (self.new.at ≡ self.old.at + 1) }
        ensures text { self.new.text ≡ self.old.text }
    {
        self.end_line()?;
        self.number += 1;
        self.first_word = self.words.len();
        self.at += 1;
        self.word_begin = self.at;
        self.only_stars = true;
        self.only_hyphens = true;
        Ok(())
    }

    fn read_blank(&mut self) -> Result<(), NoMemory>
        requires lexing { IsLexing self.old }
        requires within { self.old.at < length self.old.text.now }
        requires blank { is_blank (slice_index self.old.text.now self.old.at) ≡ true }
        ensures lexing { OnOk result (IsLexing self.new) }
        ensures next { OnOk result (self.new.at ≡ self.old.at + 1) }
        ensures text { self.new.text ≡ self.old.text }
    {
        push_word(&mut self.words, self.word_begin, self.at)?;
        self.at += 1;
        self.word_begin = self.at;
        Ok(())
    }

    fn read_other(&mut self, byte: u8)
        requires lexing { IsLexing self.old }
        requires within { self.old.at < length self.old.text.now }
        requires read { slice_index self.old.text.now self.old.at ≡ byte }
        requires no_line_end { is_line_end byte ≡ false }
        requires no_blank { is_blank byte ≡ false }
        ensures lexing { IsLexing self.new }
        ensures next { self.new.at ≡ self.old.at + 1 }
        ensures text { self.new.text ≡ self.old.text }
    {
        self.only_stars = self.only_stars && byte == b'*';
        self.only_hyphens = self.only_hyphens && byte == b'-';
        self.at += 1;
    }

    /// Reads the next byte.
    fn read(&mut self) -> Result<(), NoMemory>
        requires lexing { IsLexing self.old }
        requires within { self.old.at < length self.old.text.now }
        ensures lexing { OnOk result (IsLexing self.new) }
        ensures next { OnOk result (self.new.at ≡ self.old.at + 1) }
        ensures text { self.new.text ≡ self.old.text }
    {
        let byte = self.text[self.at];
        if byte == b'\n' {
            return self.read_line_end();
        }
        if is_blank(byte) {
            return self.read_blank();
        }
        self.read_other(byte);
        Ok(())
    }
}

fn without_mark(text: &[u8]) -> &[u8]
    ensures { result.now ≡ without_mark text.now }
{
    match text {
        [front @ .., 0x1A] => front,
        _ => text,
    }
}

/// The lines and words of a text that has no mark at its end.
fn lex_whole(alloc: Global, text: &[u8]) -> Result<Words<'_>, NoMemory>
    requires { length text.now ≤ MOST_BYTES }
    ensures { IfOk result (λ words. words ≡ filter is_kept (all_lines text.now)) }
{
    let mut lexer = Lexer::new(alloc, text);
    while lexer.at < text.len() {
        lexer.read()?;
    }
    lexer.end_line()?;
    Ok(Words {
        text,
        lines: lexer.lines,
        words: lexer.words,
    })
}

/// The kept lines of a text and their words, in one pass over its bytes.
///
/// The text is cut at each LF into lines, numbered from 1. Space, tab, CR, vertical tab and form feed are blanks, and
/// words are the longest runs of other bytes. A byte 0x1A at the very end isn't read. Lines that have only blanks, only
/// blanks and `*`, or only blanks and `-`, are dropped.
///
/// # Errors
///
/// [`LexFault::TextTooLong`] exactly where the text has more than [`MOST_BYTES`] bytes; [`LexFault::NoMemory`] where
/// memory was refused.
#[tactic(auto, unfolding(crate::specs::Line::lines_of))]
pub fn lex(alloc: Global, text: &[u8]) -> Result<Words<'_>, LexFault>
    ensures lines { IfOk result (λ words. words ≡ lines_of text.now) }
    ensures short { OnOk result (length text.now ≤ MOST_BYTES) }
    ensures long { (result ≡ Err LexFault.TextTooLong) ↔ (MOST_BYTES < length text.now) }
{
    if text.len() > MOST_BYTES {
        return Err(LexFault::TextTooLong);
    }
    Ok(lex_whole(alloc, without_mark(text))?)
}
