ghost use Rattle.std.specs.Prelude.{◌≤◌, IfOk};
ghost use Rattle.psplib_layout.specs.Layout.{layout_in};
ghost use Rattle.psplib_layout.specs.Place.{Gives};
ghost use Rattle.psplib_reader.specs.Line.{line_in};

use psplib_layout::{ReadError, Source};
use std::alloc::Global;

/// The line of a job's number in the precedence part. The text is read once more: its content went into the draft.
#[tactic(auto, unfolding(crate::specs::Line::line_in))]
pub fn line_of_job(alloc: Global, source: &Source, job: u8) -> Result<u32, ReadError>
    requires some { 1 ≤ job }
    requires within { IfOk (layout_in source.now.end source.now.words) (λ content. job ≤ content.header.jobs) }
    ensures { Gives (λ line. line) result (line_in source.now.end source.now.words job) }
{
    let content = source.content(alloc)?;
    source.job_line(&content, u32::from(job))
}
