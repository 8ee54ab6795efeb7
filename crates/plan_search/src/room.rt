//! What is left of the renewable resources, as spans of periods between breakpoints: where a job starts or is done, and where
//! a stretch of a calendar begins.

ghost use Rattle.std.specs.Prelude.{◌+◌, ◌*◌, ◌<◌, ◌≤◌, vec_len, vec_capacity, IfOk};
ghost use Rattle.rcpsp_model.specs.Project.{job_count};

use project_net::Project;
use sched_base::NoMemory;
use std::alloc::Global;

/// Periods in which the same is left of each renewable resource, of which a project has at most 16.
#[derive(Clone, Copy)]
struct Span {
    /// The first of the periods.
    begin: u32,
    /// The first period after them; that of the last span is the greatest number.
    end: u32,
    /// What is left of each resource.
    left: [u32; 16],
}

/// Whether there is as much of each resource as is asked for.
fn has_room(span: &Span, requests: &[u32]) -> bool {
    requests
        .iter()
        .zip(span.left.iter())
        .all(|(request, left)| request <= left)
}

/// Takes from each resource what is asked for.
fn take_from(span: &mut Span, requests: &[u32]) {
    for (left, request) in span.left.iter_mut().zip(requests) {
        *left = left.saturating_sub(*request);
    }
}

/// What is left of the renewable resources, in spans one after another from period 0 on.
#[derive(Drop)]
pub struct Room {
    spans: Vec<Span>,
}

impl Room {
    /// All that there is.
    pub fn whole(alloc: Global, project: &Project) -> Result<Self, NoMemory> {
        let mut room = Room::constant(alloc, project)?;
        for done in 0..project.renewables() {
            for stretch in project.stretches(done + 1) {
                room.spans.reserve_exact(1)?;
                room.split(stretch.begin);
                room.set(done, stretch.begin, stretch.capacity);
            }
        }
        Ok(room)
    }

    /// The capacities, in all periods.
    fn constant(alloc: Global, project: &Project) -> Result<Self, NoMemory> {
        let mut span = Span {
            begin: 0,
            end: u32::MAX,
            left: [0; 16],
        };
        for (left, capacity) in span.left.iter_mut().zip(project.capacities()) {
            *left = *capacity;
        }
        let spans = vec![in alloc; span]?;
        Ok(Room { spans })
    }

    /// Nothing yet, with room for the spans of another one and those that the jobs of the project add.
    pub fn empty(alloc: Global, project: &Project, whole: &Room) -> Result<Self, NoMemory>
        ensures { IfOk result (λ room. vec_len whole.now.spans + 2 * job_count project.now ≤ vec_capacity room.spans) }
    {
        let mut spans = Vec::new(alloc);
        let jobs = usize::from(project.jobs());
        spans.reserve_exact(whole.spans.len().saturating_add(2 * jobs))?;
        Ok(Room { spans })
    }

    /// Becomes the same as another one.
    pub fn reset(&mut self, whole: &Room)
        requires { vec_len whole.now.spans ≤ vec_capacity self.old.spans }
        ensures length { vec_len self.new.spans ≤ vec_len whole.now.spans }
        ensures capacity { vec_capacity self.old.spans ≤ vec_capacity self.new.spans }
    {
        self.spans.clear();
        let _ = self.spans.extend_from_slice(whole.spans.as_slice());
    }

    /// Makes the period one in which a span begins; it takes no memory.
    fn split(&mut self, period: u32)
        requires { vec_len self.old.spans + 1 ≤ vec_capacity self.old.spans }
        ensures length { vec_len self.new.spans ≤ vec_len self.old.spans + 1 }
        ensures capacity { vec_capacity self.old.spans ≤ vec_capacity self.new.spans }
    {
        let inside = self
            .spans
            .iter()
            .position(|span| span.begin < period && period < span.end);
        let Some(place) = inside else {
            return;
        };
        let mut later = self.spans[place];
        later.begin = period;
        let _ = self.spans.insert(place + 1, later);
        self.spans[place].end = period;
    }

    /// Sets what there is of a resource, counted from 0, in the spans that begin at the period or later.
    fn set(&mut self, resource: u8, begin: u32, capacity: u32)
        requires { resource < 16 }
    {
        for span in self.spans.iter_mut() {
            if begin <= span.begin {
                span.left[resource as usize] = capacity;
            }
        }
    }

    /// Takes what is asked for in each period from the start up to the finish, and no memory.
    pub fn take(&mut self, start: u32, finish: u32, requests: &[u32])
        requires { vec_len self.old.spans + 2 ≤ vec_capacity self.old.spans }
        ensures length { vec_len self.new.spans ≤ vec_len self.old.spans + 2 }
        ensures capacity { vec_capacity self.old.spans ≤ vec_capacity self.new.spans }
    {
        self.split(start);
        self.split(finish);
        for span in self.spans.iter_mut() {
            if start <= span.begin && span.end <= finish {
                take_from(span, requests);
            }
        }
    }

    /// The least start at or after a period at which there is room for so many periods.
    pub fn first_fit(&self, requests: &[u32], duration: u32, from: u32) -> Option<u32> {
        if duration == 0 {
            return Some(from);
        }
        let mut start = from;
        for span in &self.spans {
            if span.end <= start {
                continue;
            }
            if !has_room(span, requests) {
                start = span.end;
            } else if start.saturating_add(duration) <= span.end {
                return Some(start);
            }
        }
        None
    }

    /// The greatest start at which there is room for so many periods, all of them before a period.
    pub fn last_fit(&self, requests: &[u32], duration: u32, until: u32) -> Option<u32> {
        if duration == 0 {
            return Some(until);
        }
        let mut finish = until;
        for span in self.spans.iter().rev() {
            if finish <= span.begin {
                continue;
            }
            if !has_room(span, requests) {
                finish = span.begin;
            } else if span.begin.saturating_add(duration) <= finish {
                return Some(finish.saturating_sub(duration));
            }
        }
        None
    }
}
