ghost use Rattle.std.specs.Prelude.{◌<◌, Ok};
ghost use Rattle.psplib_lex.specs.Number.{word_value};
ghost use Rattle.psplib_layout.specs.Place.{Gives, rest_at};
ghost use Rattle.psplib_layout.specs.Reading.{next_word, judged, number_in, read_wanted, line_end};
ghost use Rattle.psplib_layout.specs.Wanted.{times};

use crate::fault::{Fault, ReadError, refused};
use crate::numbers::{CAP, number};
use crate::place::Place;
use crate::rule::Rule;
use psplib_lex::Words;
use std::alloc::Global;

/// A text that is read: its kept lines, and the number of the line on which it ends.
#[derive(Drop)]
pub struct Source<'t> {
    /// The kept lines.
    pub words: Words<'t>,
    /// The line that a text's end counts as: one more than it has LF bytes.
    pub end: u32,
}

/// The number that a word on this line stands for, under a rule.
pub fn judge(rule: Rule, line: u32, word: &[u8]) -> Result<u32, ReadError>
    requires least { rule.least < CAP }
    requires most { rule.most < CAP }
    ensures { Gives (λ n. n) result (judged rule line (word_value word.now)) }
{
    match number(word) {
        None => Err(refused(Fault::NotANumber, line)),
        Some(n) => {
            if n < rule.least {
                return Err(refused(rule.lesser(n), line));
            }
            if rule.most < n {
                return Err(refused(rule.above, line));
            }
            Ok(n)
        }
    }
}

impl Source<'_> {
    /// The next word from a place on, with the number of its line and the place behind it.
    fn word_from(&self, at: Place) -> Result<(u32, &[u8], Place), ReadError>
        ensures { Gives (λ x. (record { line = x.0; bytes = x.1.now }, rest_at self.now.words x.2)) result
            (next_word self.now.end (rest_at self.now.words at)) }
    {
        let mut taken = at.word;
        for line in at.line..self.words.lines() {
            if taken < self.words.words_of(line) {
                let behind = Place {
                    line,
                    word: taken + 1,
                };
                return Ok((
                    self.words.line_number(line),
                    self.words.word(line, taken),
                    behind,
                ));
            }
            taken = 0;
        }
        Err(refused(Fault::TextEnds, self.end))
    }

    /// The next word as a number under a rule, and the place behind it.
    #[tactic(auto, unfolding(crate::specs::Reading::number_in))]
    pub fn number_at(&self, at: Place, rule: Rule) -> Result<(u32, Place), ReadError>
        requires least { rule.least < CAP }
        requires most { rule.most < CAP }
        ensures { Gives (λ x. (x.0, rest_at self.now.words x.1)) result
            (number_in self.now.end rule (rest_at self.now.words at)) }
    {
        let (line, word, behind) = self.word_from(at)?;
        let n = judge(rule, line, word)?;
        Ok((n, behind))
    }

    /// So many numbers under one rule, from a place on, and the place behind them.
    pub fn numbers_at(
        &self,
        alloc: Global,
        at: Place,
        count: u32,
        rule: Rule,
    ) -> Result<(Vec<u32>, Place), ReadError>
        requires least { rule.least < CAP }
        requires most { rule.most < CAP }
        ensures { Gives (λ x. (x.0.items, rest_at self.now.words x.1)) result
            (read_wanted self.now.end (times count rule) (rest_at self.now.words at)) }
    {
        let mut numbers = Vec::with_capacity(alloc, count as usize)?;
        let mut at = at;
        for _ in 0..count {
            let (n, behind) = self.number_at(at, rule)?;
            numbers.push(n)?;
            at = behind;
        }
        Ok((numbers, at))
    }

    /// The place behind a line all of whose words are taken.
    pub fn line_end_at(&self, at: Place) -> Result<Place, ReadError>
        ensures { Gives (λ x. rest_at self.now.words x) result (line_end (rest_at self.now.words at)) }
    {
        if at.line >= self.words.lines() {
            return Ok(at);
        }
        if at.word < self.words.words_of(at.line) {
            return Err(refused(Fault::WordsLeft, self.words.line_number(at.line)));
        }
        Ok(Place {
            line: at.line + 1,
            word: 0,
        })
    }
}
