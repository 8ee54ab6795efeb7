ghost use Rattle.std.specs.Prelude.{◌≡◌, ◌<◌, length};
ghost use Rattle.psplib_lex.specs.Line.{line_at, word_at};

use std::marker::Model;

/// From a place up to another.
#[derive(Clone, Copy)]
pub(crate) struct Span {
    pub(crate) begin: usize,
    pub(crate) end: usize,
}

/// A line that isn't dropped.
#[derive(Clone, Copy)]
pub(crate) struct KeptLine {
    /// Its number in the text, from 1.
    pub(crate) number: u32,
    /// Its words among all words.
    pub(crate) words: Span,
}

/// The kept lines of a text, each with its number and its words.
///
/// Lines and words count from 0; a word is a part of the text.
#[derive(Drop)]
pub struct Words<'a> {
    pub(crate) text: &'a [u8],
    pub(crate) lines: Vec<KeptLine>,
    pub(crate) words: Vec<Span>,
}

impl<'a> Model for Words<'a> {
    ghost use Rattle.std.specs.Prelude.{List, length};
    ghost use Rattle.psplib_lex.specs.Line.{Line};

    ghost Value = { List Line };

    ghost use Rattle.psplib_lex.specs.View.{lines_seen, AreLinesWithin, AreWordsWithin};

    ghost view = { λ a. lines_seen a.text.now a.words.items a.lines.items };

    ghost invariant = { λ a. AreLinesWithin (length a.words.items) a.lines.items × AreWordsWithin (length a.text.now) a.words.items };
}

impl<'a> Words<'a> {
    /// How many lines are kept.
    pub fn lines(&self) -> usize
        ensures { result ≡ length self.now }
    {
        self.lines.len()
    }

    /// The number of a kept line among all lines of the text, from 1.
    pub fn line_number(&self, line: usize) -> u32
        requires { line < length self.now }
        ensures { result ≡ (line_at self.now line).number }
    {
        self.lines[line].number
    }

    /// How many words a kept line has.
    pub fn words_of(&self, line: usize) -> usize
        requires { line < length self.now }
        ensures { result ≡ length (line_at self.now line).words }
    {
        let words = self.lines[line].words;
        words.end - words.begin
    }

    /// A word of a kept line.
    pub fn word(&self, line: usize, place: usize) -> &[u8]
        requires line_in { line < length self.now }
        requires place_in { place < length (line_at self.now line).words }
        ensures { result.now ≡ word_at (line_at self.now line) place }
    {
        let word = self.words[self.lines[line].words.begin + place];
        &self.text[word.begin..word.end]
    }
}
