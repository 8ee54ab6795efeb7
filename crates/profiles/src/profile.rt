ghost use Rattle.std.specs.Prelude.{◌≡◌, ◌+◌, ◌<◌, ◌≤◌, ◌↔◌, [], ◌∷◌, ◌++◌, IsOk, IfOk, OnOk, OnErr, IsTrue, IsSome, IfSome, IfNone, All};
ghost use Rattle.rcpsp_model.specs.Project.{Project as ProjectValue, IsJob, IsMode, IsRenewable};
ghost use Rattle.rcpsp_model.specs.Schedule.{usage, IsOf};
ghost use Rattle.rcpsp_model.specs.Chain.{IsLeast};
ghost use Rattle.rcpsp_model.specs.Modes.{IsExecutable};
ghost use Rattle.rcpsp_model.specs.Tree.{Fits, entry_at};
ghost use Rattle.profiles.specs.Placed.{AreTimes, IsProfileOf};
ghost use Rattle.profiles.specs.Steps.{IsSpan};
ghost use Rattle.profiles.specs.Room.{HasRoom, Lacks, FitsFrom, IsGap};

use crate::adding::add;
use crate::shortage::{cut_from, short_up_to};
use crate::steps::{Steps, level_at, reserve_rows};
use project_net::{Project, place_at};
use rcpsp_model::Entry;
use sched_base::NoMemory;
use std::alloc::Global;
use std::marker::Model;

/// What was placed: jobs in modes from first periods on, the oldest first.
///
/// Beside the entries stand the times at which one starts or is finished, in ascending order, each with what is in use of each
/// renewable resource from then on. What is asked of a profile is answered from these alone.
#[derive(Drop)]
pub struct Profile {
    entries: Vec<Entry>,
    steps: Steps,
    spare: usize,
}

impl Model for Profile {
    ghost use Rattle.profiles.specs.Placed.{Placed};

    ghost Value = { Placed };

    ghost use Rattle.profiles.specs.Spare.{HasSpare};

    ghost view = { λ p. record { entries = p.entries.items; spare = p.spare; times = p.steps.times.items; levels = p.steps.levels.items; width = p.steps.width } };

    ghost invariant = { HasSpare };
}

impl Profile {
    /// The profile of a project without an entry; it takes no memory.
    pub fn empty(alloc: Global, project: &Project) -> Self
        ensures empty { result.entries ≡ [] }
        ensures profile { IsProfileOf project.now result }
    {
        project.known();
        Profile {
            entries: Vec::new(alloc),
            steps: Steps {
                times: Vec::new(alloc),
                levels: Vec::new(alloc),
                width: usize::from(project.renewables()),
            },
            spare: 0,
        }
    }

    /// Makes room for so many more entries.
    pub fn reserve(&mut self, more: usize) -> Result<(), NoMemory>
        ensures same { self.new.entries ≡ self.old.entries }
        ensures profile { (P : ProjectValue) → IsProfileOf P self.old → IsProfileOf P self.new }
        ensures spare { OnOk result (more ≤ self.new.spare) }
        ensures err { OnErr result (self.new ≡ self.old) }
    {
        if more <= self.spare {
            return Ok(());
        }
        let Some(times) = more.checked_mul(2) else {
            return Err(NoMemory);
        };
        self.entries.reserve_exact(more)?;
        reserve_rows(&mut self.steps, times)?;
        self.spare = more;
        Ok(())
    }

    /// Appends an entry that fits beside the others.
    pub fn place(
        &mut self,
        project: &Project,
        job: u8,
        mode: u8,
        start: u32,
    ) -> Result<(), NoMemory>
        requires profile { IsProfileOf project.now self.old }
        requires entry { IsOf project.now (entry_at job mode start) }
        requires fits { Fits project.now self.old.entries job mode start }
        ensures ok { OnOk result (self.new.entries ≡ self.old.entries ++ entry_at job mode start ∷ []) }
        ensures spare { 0 < self.old.spare → IsOk result × (self.new.spare + 1 ≡ self.old.spare) }
        ensures err { OnErr result (self.new ≡ self.old) }
        ensures profile { IsProfileOf project.now self.new }
    {
        if self.spare == 0 {
            let more = self.entries.len() + 1;
            self.reserve(more)?;
        }
        self.place_reserved(project, job, mode, start);
        Ok(())
    }

    /// Appends an entry that fits beside the others, where there is room for it.
    fn place_reserved(&mut self, project: &Project, job: u8, mode: u8, start: u32)
        requires profile { IsProfileOf project.now self.old }
        requires entry { IsOf project.now (entry_at job mode start) }
        requires fits { Fits project.now self.old.entries job mode start }
        requires spare { 0 < self.old.spare }
        ensures entries { self.new.entries ≡ self.old.entries ++ entry_at job mode start ∷ [] }
        ensures spare { self.new.spare + 1 ≡ self.old.spare }
        ensures profile { IsProfileOf project.now self.new }
    {
        project.known();
        let finish = start + project.duration(job, mode);
        let requests = project.requests(job, mode);
        add(&mut self.steps, start, finish, requests);
        self.entries.push_reserved(Entry { job, mode, start });
        self.spare -= 1;
    }

    /// The entries in the order of placing.
    pub fn entries(&self) -> &[Entry]
        ensures { result.now ≡ self.now.entries }
    {
        self.entries.as_slice()
    }

    /// The starts and finishes of the entries, each once, in ascending order; it takes no memory.
    pub fn times(&self, project: &Project) -> &[u32]
        requires { IsProfileOf project.now self.now }
        ensures { AreTimes project.now self.now.entries result.now }
    {
        let _ = project;
        self.steps.times.as_slice()
    }

    /// What the entries take of the resource in the period, 0 to 1,000,000.
    pub fn usage(&self, project: &Project, resource: u8, period: u32) -> u64
        requires profile { IsProfileOf project.now self.now }
        requires resource { IsRenewable project.now resource }
        ensures { result ≡ usage project.now self.now.entries resource period }
    {
        let _ = project;
        u64::from(level_at(&self.steps, usize::from(resource) - 1, period))
    }

    /// The end of the first span within some periods in which the resource lacks room for the request, as far as both the
    /// usage and what there is stay the same.
    fn short(
        &self,
        project: &Project,
        resource: u8,
        request: u32,
        from: u32,
        until: u64,
    ) -> Option<u64>
        requires profile { IsProfileOf project.now self.now }
        requires resource { IsRenewable project.now resource }
        requires some { from < until }
        ensures none { IfNone result (HasRoom project.now self.now.entries resource request from until) }
        ensures some { IfSome result (IsSpan (Lacks project.now self.now.entries resource request) from until) }
    {
        short_up_to(project, &self.steps, resource, request, from, until)
    }

    /// The end of starts from the period on at which the job in the mode doesn't fit, or `None` where it fits at the period.
    fn gap(&self, project: &Project, job: u8, mode: u8, at: u32) -> Option<u64>
        requires profile { IsProfileOf project.now self.now }
        requires job { IsJob project.now job }
        requires mode { IsMode project.now job mode }
        ensures none { IfNone result (Fits project.now self.now.entries job mode at) }
        ensures some { IfSome result (IsGap project.now self.now.entries job mode at) }
    {
        let duration = project.duration(job, mode);
        if duration == 0 {
            return None;
        }
        let until = u64::from(at) + u64::from(duration);
        for done in 0..project.renewables() {
            let request = project.request(job, mode, done + 1);
            match self.short(project, done + 1, request, at, until) {
                Some(end) => return Some(end),
                None => (),
            }
        }
        None
    }

    /// Whether the job in the mode, from the period on, exceeds no capacity together with the entries.
    pub fn fits(&self, project: &Project, job: u8, mode: u8, at: u32) -> bool
        requires profile { IsProfileOf project.now self.now }
        requires job { IsJob project.now job }
        requires mode { IsMode project.now job mode }
        ensures { IsTrue result ↔ Fits project.now self.now.entries job mode at }
    {
        self.gap(project, job, mode, at).is_none()
    }

    /// Whether the request fits beside the entries in each of the periods, where no entry starts after the first of them.
    fn has_room_from_last(
        &self,
        project: &Project,
        resource: u8,
        request: u32,
        from: u32,
        until: u64,
    ) -> bool
        requires profile { IsProfileOf project.now self.now }
        requires resource { IsRenewable project.now resource }
        requires last { All (λ e. e.start ≤ from) self.now.entries }
        ensures { IsTrue result ↔ HasRoom project.now self.now.entries resource request from until }
    {
        let stretches = project.stretches(resource);
        let first = place_at(stretches, from);
        for place in first..stretches.len() {
            let stretch = cut_from(stretches, place, from);
            if until <= u64::from(stretch.begin) {
                return true;
            }
            let usage = self.usage(project, resource, stretch.begin);
            if u64::from(stretch.capacity) < usage + u64::from(request) {
                return false;
            }
        }
        true
    }

    /// Whether the job in the mode fits at a period that is no earlier than the start of each entry.
    ///
    /// From there on usage only falls, so it looks at this period, and at each later one of the mode in which a stretch of the
    /// calendar begins. It takes no memory.
    pub fn fits_from_last(&self, project: &Project, job: u8, mode: u8, at: u32) -> bool
        requires profile { IsProfileOf project.now self.now }
        requires job { IsJob project.now job }
        requires mode { IsMode project.now job mode }
        requires last { All (λ e. e.start ≤ at) self.now.entries }
        ensures { IsTrue result ↔ Fits project.now self.now.entries job mode at }
    {
        let until = u64::from(at) + u64::from(project.duration(job, mode));
        for done in 0..project.renewables() {
            let request = project.request(job, mode, done + 1);
            if !self.has_room_from_last(project, done + 1, request, at, until) {
                return false;
            }
        }
        true
    }

    /// The least start at or after the floor at which the job in the mode fits, or `None` where its mode takes time and
    /// asks for more than a capacity.
    ///
    /// Where a start doesn't fit, the next one is where the resource that was short may have room again.
    pub fn earliest(&self, project: &Project, job: u8, mode: u8, floor: u32) -> Option<u32>
        requires profile { IsProfileOf project.now self.now }
        requires job { IsJob project.now job }
        requires mode { IsMode project.now job mode }
        ensures least { IfSome result (IsLeast (FitsFrom project.now self.now.entries job mode floor)) }
        ensures some { IsSome result ↔ IsExecutable project.now job mode }
    {
        project.known();
        match project.lacking(job, mode) {
            Some(_) => return None,
            None => (),
        }
        let mut start = floor;
        'starts: while let Some(end) = self.gap(project, job, mode, start) {
            start = end as u32;
        }
        Some(start)
    }
}
