ghost use Rattle.std.specs.Prelude.{◌≡◌, ◌≤◌, length, Ok, IfOk, OnOk, IfErr};
ghost use Rattle.psplib_lex.specs.Line.{lines_of};
ghost use Rattle.psplib_layout.specs.Layout.{IsWithinContentLimits, layout_in};
ghost use Rattle.psplib_layout.specs.Place.{Gives};
ghost use Rattle.psplib_layout.specs.Text.{HasContent, end_line, content_in, IsRefusedAsLong};

use crate::content::Content;
use crate::fault::{Fault, ReadError, refused};
use crate::place::Place;
use crate::source::Source;
use psplib_lex::{LexFault, MOST_BYTES, lex};
use std::alloc::Global;

fn end_line(text: &[u8]) -> u32
    requires { length text.now ≤ MOST_BYTES }
    ensures { result ≡ end_line text.now }
{
    let ends = text.iter().filter(|byte| **byte == b'\n').count();
    ends as u32 + 1
}

impl Source<'_> {
    #[tactic(auto, unfolding(crate::specs::Layout::layout_in))]
    fn parts(&self, alloc: Global) -> Result<Content, ReadError>
        ensures { Gives (λ content. content) result (layout_in self.now.end self.now.words) }
    {
        let (header, at) = self.header_at(Place::BEGIN)?;
        let (rows, at) = self.precedence_at(alloc, at, header)?;
        let (modes, at) = self.requests_at(alloc, at, header, rows.as_slice())?;
        let (amounts, at) = self.availabilities_at(alloc, at, header)?;
        let calendar = self.calendar_at(alloc, at, amounts.capacities.as_slice())?;
        Ok(Content {
            header,
            rows,
            modes,
            amounts,
            calendar,
        })
    }

    /// What the text says, or the first rule of the layout that it breaks; whether the jobs have a cycle isn't judged.
    ///
    /// # Errors
    ///
    /// [`ReadError::Refused`] with the first fault and its line, exactly where the text has no content;
    /// [`ReadError::NoMemory`] where memory was refused.
    pub fn content(&self, alloc: Global) -> Result<Content, ReadError>
        ensures limits { IfOk result IsWithinContentLimits }
        ensures exact { Gives (λ content. content) result (layout_in self.now.end self.now.words) }
    {
        self.parts(alloc)
    }
}

impl<'t> Source<'t> {
    /// The kept lines of a text and the line on which it ends.
    ///
    /// # Errors
    ///
    /// [`Fault::TextTooLong`] where the text has more than 4,194,304 bytes; [`ReadError::NoMemory`] where memory was
    /// refused.
    pub fn new(alloc: Global, text: &'t [u8]) -> Result<Source<'t>, ReadError>
        ensures lines { IfOk result (λ source. source.words ≡ lines_of text.now) }
        ensures end { IfOk result (λ source. source.end ≡ end_line text.now) }
        ensures short { OnOk result (length text.now ≤ MOST_BYTES) }
        ensures long { IfErr result (IsRefusedAsLong text.now) }
    {
        match lex(alloc, text) {
            Err(LexFault::TextTooLong) => Err(refused(Fault::TextTooLong, 0)),
            Err(LexFault::NoMemory) => Err(ReadError::NoMemory),
            Ok(words) => Ok(Source {
                words,
                end: end_line(text),
            }),
        }
    }
}

/// What a text says, or the first rule of the layout that it breaks; whether the jobs have a cycle isn't judged.
///
/// # Errors
///
/// [`ReadError::Refused`] with the first fault and its line, exactly where the text has no content;
/// [`ReadError::NoMemory`] where memory was refused.
pub fn read_content(alloc: Global, text: &[u8]) -> Result<Content, ReadError>
    ensures content { IfOk result (HasContent text.now) }
    ensures limits { IfOk result IsWithinContentLimits }
    ensures exact { Gives (λ content. content) result (content_in text.now) }
{
    read_whole(alloc, text)
}

fn read_whole(alloc: Global, text: &[u8]) -> Result<Content, ReadError>
    ensures { Gives (λ content. content) result (content_in text.now) }
{
    let source = Source::new(alloc, text)?;
    source.content(alloc)
}
