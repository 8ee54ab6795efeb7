ghost use Rattle.std.specs.Prelude.{◌≡◌, ◌≤◌, ◌-◌, take, length, All, Ok};
ghost use Rattle.psplib_layout.specs.Layout.{IsWithinContentLimits};
ghost use Rattle.psplib_layout.specs.Place.{Gives, rest_at};
ghost use Rattle.psplib_layout.specs.Precedence.{rows_numbers};
ghost use Rattle.psplib_layout.specs.Text.{line_of_word, job_line_in};

use crate::content::{Content, JobRow};
use crate::fault::ReadError;
use crate::place::Place;
use crate::source::Source;

fn count_of_numbers(rows: &[JobRow]) -> usize
    requires few { length rows.now ≤ 128 }
    requires successors { All (λ row. length row.successors ≤ 128) rows.now }
    ensures { result ≡ length (rows_numbers 1 rows.now) }
{
    let mut count = 0;
    for row in rows {
        count += 3 + row.successors.len();
    }
    count
}

impl Source<'_> {
    /// The line of a word from a place on, counted from 0; 0 where there is none.
    fn line_of_word(&self, at: Place, index: usize) -> u32
        ensures { result ≡ line_of_word (rest_at self.now.words at) index }
    {
        let mut left = index;
        let mut taken = at.word;
        for line in at.line..self.words.lines() {
            let words = self.words.words_of(line).saturating_sub(taken);
            if left < words {
                return self.words.line_number(line);
            }
            left -= words;
            taken = 0;
        }
        0
    }

    /// The line of a job's number in the precedence part of the text whose content this is.
    #[tactic(auto, unfolding(crate::specs::Text::job_line_in))]
    pub fn job_line(&self, content: &Content, job: u32) -> Result<u32, ReadError>
        requires limits { IsWithinContentLimits content.now }
        requires some { 1 ≤ job }
        requires within { job ≤ content.now.header.jobs }
        ensures { Gives (λ line. line) result
            (job_line_in self.now.end self.now.words content.now.rows job) }
    {
        let (_, at) = self.header_at(Place::BEGIN)?;
        let begin = self.rows_begin_at(at)?;
        let before = &content.rows.as_slice()[..job as usize - 1];
        Ok(self.line_of_word(begin, count_of_numbers(before)))
    }
}
