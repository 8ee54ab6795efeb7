// The end of a search.
ghost use Rattle.std.specs.Prelude.{◌≡◌, ℕ, ◌≤◌, ◌⊎◌, [], IfOk, IfSome, Option};
ghost use Rattle.rcpsp_model.specs.Project.{Project as ProjectValue};
ghost use Rattle.rcpsp_model.specs.Bounds.{IsBudgetGap};
ghost use Rattle.rcpsp_model.specs.Claim.{HasDuration};
ghost use Rattle.search_rounds.specs.Going.{Goes};
ghost use Rattle.search_rounds.specs.Found.{IsEnded, HasEnded, IsFoundBy, IsUntold};

use crate::best::Best;
use crate::closing::{closes, lowered};
use crate::going::Search;
use project_net::{Project, Schedule};
use proof_log::{Log, Report, Verdict};
use rcpsp_model::Shut;
use sched_base::{List, NoMemory};
use search_log::{Origin, Row, RowFate, Table, fill, least_left, log_of, verdict};
use std::alloc::Global;

/// What a search found: what its report says, and of each line of the log who visited it and when.
#[derive(Drop)]
pub struct Found {
    pub verdict: Verdict,
    /// The schedule that has the duration.
    pub best: Option<Schedule>,
    pub log: Log,
    /// The origin of each line. What was closed after the last round has the round after it, the worker 0, and the number of
    /// its line as the turn.
    pub origins: List<Origin>,
    /// The best at the start of each round, in periods; 4,294,967,295 where there was none.
    pub starts: List<u32>,
}

/// A search in which no node waits. Its log isn't told yet: [`Ended::tell`] gives what it found with the log, and
/// [`Ended::without_log`] its report alone.
#[derive(Drop)]
pub struct Ended {
    /// The rows of all rounds, each closed.
    pub table: Table,
    /// The best at the start of each round, in periods; 4,294,967,295 where there was none.
    pub starts: List<u32>,
    /// The least end, and a schedule that ends at it.
    pub best: Best,
}

impl Search {
    /// The end of a search that runs no more rounds: what waits is closed.
    ///
    /// # Errors
    ///
    /// [`NoMemory`] where the fates of what waits can't be had.
    pub fn finish(self, alloc: Global, project: &Project, nodes: u32) -> Result<Ended, NoMemory>
        requires few { nodes ≤ 100000 }
        requires goes { (workers : ℕ) × Goes project.now workers nodes self }
        requires ended { (self.frontier ≡ []) ⊎ (nodes ≤ self.used) }
        ensures { (workers : ℕ) → Goes project.now workers nodes self → IfOk result (IsEnded project.now workers nodes self.first) }
    {
        let Search {
            mut table,
            frontier,
            records: _,
            first: _,
            starts,
            best,
            used: _,
        } = self;
        project.known();
        let number = starts.len() as u32 + 1;
        let left = frontier.as_slice();
        let best = lowered(alloc, project, left, best)?;
        let fills = closes(alloc, project, left, best.end, number)?;
        fill(&mut table, fills.as_slice());
        Ok(Ended {
            table,
            starts,
            best,
        })
    }
}

/// The search of a project whose root has a gap in this budget: a table of one row.
///
/// # Errors
///
/// [`NoMemory`] where the row can't be had.
pub fn found_gap(
    alloc: Global,
    project: &Project,
    resource: u8,
    best: Best,
) -> Result<Ended, NoMemory>
    requires gap { IsBudgetGap project.now [] resource }
    requires best { HasDuration project.now best.end best.plan }
    requires soon { IfSome best.end (λ end. end ≤ 1290000) }
    ensures { (workers nodes : ℕ) → IfOk result (IsEnded project.now workers nodes best.end) }
{
    let mut table = Table::new(alloc);
    table.push(
        Row {
            start: None,
            fate: RowFate::Shut(Shut::NoBudget(resource)),
            job: 0,
            mode: 0,
        },
        Origin {
            round: 1,
            worker: 0,
            turn: 0,
        },
    )?;
    Ok(Ended {
        table,
        starts: List::new(alloc),
        best,
    })
}

impl Ended {
    /// What was found, with its log and the origin of each line.
    ///
    /// # Errors
    ///
    /// [`NoMemory`] where the log can't be had.
    pub fn tell(self, alloc: Global) -> Result<Found, NoMemory>
        requires { HasEnded self }
        ensures { IfOk result (IsFoundBy self) }
    {
        let Ended {
            table,
            starts,
            best,
        } = self;
        let lower = least_left(&table.rows);
        let told = log_of(alloc, table)?;
        Ok(Found {
            verdict: verdict(best.end, lower),
            best: best.plan,
            log: told.log,
            origins: told.origins,
            starts,
        })
    }

    /// The report of what was found, without its log. It takes no memory.
    pub fn without_log(self) -> Report
        ensures { (P : ProjectValue) (workers nodes : ℕ) (first : Option ℕ) → nodes ≤ 100000 → IsEnded P workers nodes first self → IsUntold P workers first nodes result }
    {
        let Ended {
            table,
            starts: _,
            best,
        } = self;
        let Best { end, plan } = best;
        let lower = least_left(&table.rows);
        Report {
            verdict: verdict(end, lower),
            best: plan,
            log: None,
        }
    }
}
