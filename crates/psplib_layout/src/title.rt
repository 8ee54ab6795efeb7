ghost use Rattle.std.specs.Prelude.{◌≡◌, ◌<◌, length, drop, Ok};
ghost use Rattle.std.specs.Option.{option_map};
ghost use Rattle.psplib_lex.specs.Line.{line_at};
ghost use Rattle.psplib_layout.specs.Place.{Gives, line_left, rest_at};
ghost use Rattle.psplib_layout.specs.Title.{has_title, key_left, behind_colon, first_of, header_value, valued, titled, keyed, colon_line, skipped_to, any_line, no_more};

use crate::fault::{Fault, ReadError, refused};
use crate::numbers::CAP;
use crate::place::Place;
use crate::rule::Rule;
use crate::source::{Source, judge};

fn left_of_key<'k>(key: &'k [u8], word: &[u8]) -> Option<&'k [u8]>
    ensures { option_map (λ k. k.now) result ≡ key_left key.now word.now }
{
    let mut key = key;
    for byte in word {
        match key {
            [] => return Some(key),
            [first, rest @ ..] => {
                if *first != *byte {
                    return None;
                }
                key = rest;
            }
        }
    }
    Some(key)
}

fn behind_colon(word: &[u8]) -> Option<&[u8]>
    ensures { option_map (λ rest. rest.now) result ≡ behind_colon word.now }
{
    for (i, byte) in word.iter().enumerate() {
        if *byte == b':' {
            return Some(&word[i + 1..]);
        }
    }
    None
}

impl Source<'_> {
    /// Whether what is left of the line begins with the key, blanks apart.
    pub(crate) fn has_title(&self, at: Place, key: &[u8]) -> bool
        requires { at.line < length self.now.words }
        ensures { result ≡ has_title key.now (line_left self.now.words at) }
    {
        let mut left = key;
        for word in at.word..self.words.words_of(at.line) {
            match left_of_key(left, self.words.word(at.line, word)) {
                None => return false,
                Some(rest) => left = rest,
            }
        }
        left.is_empty()
    }

    /// The place behind a line that begins with the key, blanks apart.
    pub fn title_at(&self, at: Place, key: &[u8]) -> Result<Place, ReadError>
        ensures { Gives (λ x. (line_left self.now.words at, rest_at self.now.words x)) result
            (titled self.now.end key.now (rest_at self.now.words at)) }
    {
        if at.line >= self.words.lines() {
            return Err(refused(Fault::TextEnds, self.end));
        }
        if !self.has_title(at, key) {
            return Err(refused(Fault::MissingPart, self.words.line_number(at.line)));
        }
        Ok(Place {
            line: at.line + 1,
            word: 0,
        })
    }

    /// The first line from a place on that begins with the key, blanks apart.
    pub fn first_with(&self, at: Place, key: &[u8]) -> Result<Place, ReadError>
        ensures { Gives (λ x. rest_at self.now.words x) result
            (skipped_to self.now.end key.now (rest_at self.now.words at)) }
    {
        let mut word = at.word;
        for line in at.line..self.words.lines() {
            let here = Place { line, word };
            if self.has_title(here, key) {
                return Ok(here);
            }
            word = 0;
        }
        Err(refused(Fault::TextEnds, self.end))
    }

    /// The place behind a line that isn't read.
    pub fn any_line_at(&self, at: Place) -> Result<Place, ReadError>
        ensures { Gives (λ x. rest_at self.now.words x) result
            (any_line self.now.end (rest_at self.now.words at)) }
    {
        if at.line >= self.words.lines() {
            return Err(refused(Fault::TextEnds, self.end));
        }
        Ok(Place {
            line: at.line + 1,
            word: 0,
        })
    }

    /// The end of the text: no line is left.
    pub fn no_more_at(&self, at: Place) -> Result<Place, ReadError>
        ensures { Gives (λ x. rest_at self.now.words x) result (no_more (rest_at self.now.words at)) }
    {
        if at.line < self.words.lines() {
            return Err(refused(Fault::WordsLeft, self.words.line_number(at.line)));
        }
        Ok(at)
    }

    fn first_of<'w>(&'w self, bytes: &'w [u8], at: Place) -> Option<&'w [u8]>
        requires { at.line < length self.now.words }
        ensures { option_map (λ w. w.now) result ≡ first_of bytes.now (line_left self.now.words at).words }
    {
        if !bytes.is_empty() {
            return Some(bytes);
        }
        if at.word < self.words.words_of(at.line) {
            return Some(self.words.word(at.line, at.word));
        }
        None
    }

    fn value_at(&self, at: Place) -> Option<Option<&[u8]>>
        requires { at.line < length self.now.words }
        ensures { option_map (λ o. option_map (λ w. w.now) o) result
            ≡ header_value (line_left self.now.words at).words }
    {
        for word in at.word..self.words.words_of(at.line) {
            if let Some(bytes) = behind_colon(self.words.word(at.line, word)) {
                let next = Place {
                    line: at.line,
                    word: word + 1,
                };
                return Some(self.first_of(bytes, next));
            }
        }
        None
    }

    fn value_under(&self, at: Place, rule: Rule) -> Result<u32, ReadError>
        requires line { at.line < length self.now.words }
        requires least { rule.least < CAP }
        requires most { rule.most < CAP }
        ensures { Gives (λ n. n) result
            (valued rule (line_at self.now.words at.line).number (header_value (line_left self.now.words at).words)) }
    {
        let line = self.words.line_number(at.line);
        match self.value_at(at) {
            None => Err(refused(Fault::MissingPart, line)),
            Some(None) => Err(refused(Fault::NotANumber, line)),
            Some(Some(word)) => judge(rule, line, word),
        }
    }

    /// The value of a line that begins with the key, blanks apart, and the place behind the line.
    #[tactic(auto, unfolding(crate::specs::Title::keyed))]
    pub fn keyed_at(&self, at: Place, key: &[u8], rule: Rule) -> Result<(u32, Place), ReadError>
        requires least { rule.least < CAP }
        requires most { rule.most < CAP }
        ensures { Gives (λ x. (x.0, rest_at self.now.words x.1)) result
            (keyed self.now.end key.now rule (rest_at self.now.words at)) }
    {
        let behind = self.title_at(at, key)?;
        let value = self.value_under(at, rule)?;
        Ok((value, behind))
    }

    /// The place behind a line that begins with the key, blanks apart, and has a colon.
    #[tactic(auto, unfolding(crate::specs::Title::colon_line))]
    pub fn colon_line_at(&self, at: Place, key: &[u8]) -> Result<Place, ReadError>
        ensures { Gives (λ x. rest_at self.now.words x) result
            (colon_line self.now.end key.now (rest_at self.now.words at)) }
    {
        let behind = self.title_at(at, key)?;
        match self.value_at(at) {
            None => Err(refused(Fault::MissingPart, self.words.line_number(at.line))),
            Some(_) => Ok(behind),
        }
    }
}
