ghost use Rattle.std.specs.Prelude.{◌≡◌, ◌≢◌, ℕ, ◌<◌, ◌↔◌, Some, IsTrue, nat_eq, unwrap_or, OnOk, OnErr, IfOk};
ghost use Rattle.std.specs.HashMap.{get};
ghost use Rattle.sched_base.specs.declared.job_set.JobSet.{JobSet as SetOfJobs};
ghost use Rattle.cutset_store.specs.Line.{empty_line};
ghost use Rattle.cutset_store.specs.Table.{IsTable, HasLineAt, line_at, Enters};

use crate::line::Line;
use crate::row::Row;
use precedence_tree::Active;
use sched_base::{JobSet, NoMemory};
use std::alloc::Global;
use std::collections::HashMap;

/// Where an index has the rows of a set of jobs, by which a record is added without looking its set up again.
///
/// It only says where to look first: whatever it says, a record is added to the rows of its own set.
#[derive(Clone, Copy)]
pub enum SetPlace {
    /// In this place.
    At(usize),
    /// The index had none, or wasn't asked.
    Unknown,
}

/// Places of lines, by the bits of sets of jobs.
pub type Places = HashMap<u128, usize>;

/// The lines of the sets of jobs, each found by its set.
#[derive(Drop)]
pub struct Table {
    pub places: Places,
    pub lines: Vec<Line>,
}

/// The place of the set, which gets the next one if it has none.
fn place_or_next(places: &mut Places, set: JobSet, next: usize) -> Result<usize, NoMemory>
    ensures ok { IfOk result (λ place. place ≡ unwrap_or (get nat_eq places.old set.0) next) }
    ensures here { IfOk result (λ place. get nat_eq places.new set.0 ≡ Some place) }
    ensures others { (bits : ℕ) → bits ≢ set.0 → get nat_eq places.new bits ≡ get nat_eq places.old bits }
    ensures err { OnErr result (get nat_eq places.new set.0 ≡ get nat_eq places.old set.0) }
{
    let place = *places.entry(set.0)?.or_insert(next);
    Ok(place)
}

impl Table {
    /// The table without a line; it takes no memory.
    pub fn new(alloc: Global) -> Self
        ensures table { IsTable result }
        ensures lines { (s : SetOfJobs) → line_at result s ≡ empty_line s }
    {
        Table {
            places: HashMap::new(alloc),
            lines: Vec::new(alloc),
        }
    }

    /// The place of the set's line, if it has one.
    pub fn place_of(&self, set: JobSet) -> Option<usize>
        ensures { result ≡ get nat_eq self.now.places set.0 }
    {
        self.places.get(&set.0).copied()
    }

    /// Whether the set's line is in the place.
    fn has_line_at(&self, place: usize, set: JobSet) -> bool
        ensures { IsTrue result ↔ HasLineAt self.now.lines.items set.0 place }
    {
        place < self.lines.len() && self.lines[place].jobs() == set
    }

    /// The place of the set's line, which is made if there is none.
    fn place_for(&mut self, alloc: Global, at: SetPlace, set: JobSet) -> Result<usize, NoMemory>
        requires { IsTable self.old }
        ensures table { IsTable self.new }
        ensures lines { (s : SetOfJobs) → line_at self.new s ≡ line_at self.old s }
        ensures found { IfOk result (λ place. get nat_eq self.new.places set.0 ≡ Some place) }
    {
        if let SetPlace::At(place) = at {
            if self.has_line_at(place, set) {
                return Ok(place);
            }
        }
        self.lines.reserve(1)?;
        let next = self.lines.len();
        let place = place_or_next(&mut self.places, set, next)?;
        if place < next {
            return Ok(place);
        }
        self.lines.push_reserved(Line::new(alloc, set));
        Ok(place)
    }

    /// Adds a row to the line of a set, with what stands beside it; for want of memory each set keeps its line.
    pub fn enter(
        &mut self,
        alloc: Global,
        at: SetPlace,
        set: JobSet,
        row: Row,
        needs: &[u32],
        active: &[Active],
    ) -> Result<(), NoMemory>
        requires { IsTable self.old }
        ensures table { IsTable self.new }
        ensures ok { OnOk result (Enters self.old self.new set row needs.now active.now) }
        ensures err { OnErr result ((s : SetOfJobs) → line_at self.new s ≡ line_at self.old s) }
    {
        let place = self.place_for(alloc, at, set)?;
        self.lines[place].push(row, needs, active)
    }
}
