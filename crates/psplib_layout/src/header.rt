ghost use Rattle.std.specs.Prelude.{◌≡◌, Ok};
ghost use Rattle.psplib_layout.specs.Header.{job_count_in, counts_in, resources_in, header_in};
ghost use Rattle.psplib_layout.specs.Place.{Gives, rest_at};

use crate::content::Header;
use crate::fault::{Fault, ReadError};
use crate::place::Place;
use crate::rule::Rule;
use crate::source::Source;

impl Source<'_> {
    #[tactic(auto, unfolding(crate::specs::Header::job_count_in))]
    fn job_count_at(&self, at: Place) -> Result<(u32, Place), ReadError>
        ensures { Gives (λ x. (x.0, rest_at self.now.words x.1)) result
            (job_count_in self.now.end (rest_at self.now.words at)) }
    {
        let at = self.first_with(at, b"projects")?;
        let one = Rule::exactly(1, Fault::NotOneProject);
        let (_, at) = self.keyed_at(at, b"projects", one)?;
        let (jobs, at) = self.keyed_at(at, b"jobs", Rule::between(1, 128))?;
        let at = self.colon_line_at(at, b"horizon")?;
        Ok((jobs, at))
    }

    #[tactic(auto, unfolding(crate::specs::Header::counts_in))]
    fn counts_at(&self, at: Place) -> Result<((u32, u32), Place), ReadError>
        ensures { Gives (λ x. (x.0, rest_at self.now.words x.1)) result
            (counts_in self.now.end (rest_at self.now.words at)) }
    {
        let at = self.title_at(at, b"RESOURCES")?;
        let (renewables, at) = self.keyed_at(at, b"-renewable", Rule::between(0, 16))?;
        let (nonrenewables, at) = self.keyed_at(at, b"-nonrenewable", Rule::between(0, 16))?;
        Ok(((renewables, nonrenewables), at))
    }

    #[tactic(auto, unfolding(crate::specs::Header::resources_in))]
    fn resources_at(&self, at: Place) -> Result<((u32, u32), Place), ReadError>
        ensures { Gives (λ x. (x.0, rest_at self.now.words x.1)) result
            (resources_in self.now.end (rest_at self.now.words at)) }
    {
        let (counts, at) = self.counts_at(at)?;
        let none = Rule::exactly(0, Fault::DoublyConstrained);
        let (_, at) = self.keyed_at(at, b"-doublyconstrained", none)?;
        let at = self.title_at(at, b"PROJECTINFORMATION:")?;
        Ok((counts, at))
    }

    /// The header, from the first line that begins with `projects`, and the place behind it.
    #[tactic(auto, unfolding(crate::specs::Header::header_in))]
    pub fn header_at(&self, at: Place) -> Result<(Header, Place), ReadError>
        ensures { Gives (λ x. (x.0, rest_at self.now.words x.1)) result
            (header_in self.now.end (rest_at self.now.words at)) }
    {
        let (jobs, at) = self.job_count_at(at)?;
        let ((renewables, nonrenewables), at) = self.resources_at(at)?;
        let header = Header {
            jobs,
            renewables,
            nonrenewables,
        };
        Ok((header, at))
    }
}
