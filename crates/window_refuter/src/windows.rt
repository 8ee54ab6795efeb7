ghost use Rattle.std.specs.Prelude.{◌≡◌, ◌≤◌, ◌↔◌, true, false, length, replicate, IfOk, IfSome, IfNone};
ghost use Rattle.rcpsp_model.specs.Project.{job_count};

use crate::judging::judge;
use crate::refuting::refute_windows;
use crate::step::{BoundStep, Judged};
use crate::window::Window;
use project_net::Project;
use sched_base::{List, NoMemory};
use std::alloc::Global;
use std::marker::Model;

/// The most jobs that a project has.
const MOST_JOBS: usize = 128;

/// When each job of a project may run, where the project is to be over by some period.
#[derive(Drop)]
pub struct Windows {
    end: u32,
    jobs: u8,
    windows: [Window; MOST_JOBS],
}

impl Model for Windows {
    ghost use Rattle.std.specs.Prelude.{◌≤◌, take};
    ghost use Rattle.window_refuter.specs.Windows.{TimeWindows, AreWithin};

    ghost Value = { TimeWindows };

    ghost view = { λ w. record { end = w.end; windows = take w.jobs w.windows } };

    ghost invariant = { λ w. (w.end ≤ 1290000) × (w.jobs ≤ 128) × AreWithin w.end (take w.jobs w.windows) };
}

/// One window for all jobs that there may be.
fn same_windows(window: Window) -> [Window; MOST_JOBS]
    ensures { result ≡ replicate MOST_JOBS window }
{
    [window; MOST_JOBS]
}

impl Windows {
    ghost use Rattle.window_refuter.specs.Windows.{AreWithin, first_windows};
    ghost use Rattle.window_refuter.specs.Steps.{IsJudged, IsAllowed, is_contradiction, RefutesFrom};
    ghost use Rattle.window_refuter.specs.Candidates.{AreNarrowingSteps};
    ghost use Rattle.window_refuter.specs.Refuted.{NoneRefutesFrom};

    /// The first windows for an end of the project, 0 to 1,290,000: each job may run in all periods before it.
    pub fn new(project: &Project, end: u32) -> Windows
        requires { end ≤ 1290000 }
        ensures windows { result ≡ record { end = end; windows = first_windows project.now end } }
        ensures size { length result.windows ≡ job_count project.now }
    {
        Windows {
            end,
            jobs: project.jobs(),
            windows: same_windows(Window {
                earliest_start: 0,
                latest_finish: end,
            }),
        }
    }

    /// A caller's own windows, one for each of up to 128 jobs: none begins after period 1,290,000 or reaches beyond the end,
    /// which is 0 to 1,290,000.
    pub fn of(windows: &[Window], end: u32) -> Windows
        requires soon { end ≤ 1290000 }
        requires few { length windows.now ≤ 128 }
        requires within { AreWithin end windows.now }
        ensures { result ≡ record { end = end; windows = windows.now } }
    {
        let mut own = same_windows(Window {
            earliest_start: 0,
            latest_finish: end,
        });
        own[..windows.len()].copy_from_slice(windows);
        Windows {
            end,
            jobs: windows.len() as u8,
            windows: own,
        }
    }

    /// What is known of all windows; it does nothing.
    pub fn known(&self)
        ensures end { self.now.end ≤ 1290000 }
        ensures few { length self.now.windows ≤ 128 }
        ensures within { AreWithin self.now.end self.now.windows }
    {
        let _ = &self.windows;
    }

    /// The period by which the project is to be over.
    pub fn end(&self) -> u32
        ensures { result ≡ self.now.end }
    {
        self.end
    }

    /// The windows, in the order of the jobs.
    pub fn as_slice(&self) -> &[Window]
        ensures { result.now ≡ self.now.windows }
    {
        &self.windows[..self.jobs as usize]
    }

    /// Judges a step in the windows, and takes it where it narrows one; else they stay as they are. It takes no memory.
    #[tactic(auto, using(crate::proofs::Judgements::not_allowed_exact, crate::proofs::Judgements::further_exact, crate::proofs::Judgements::contradiction_exact))]
    pub fn take(&mut self, project: &Project, step: BoundStep) -> Judged
        requires { length self.old.windows ≡ job_count project.now }
        ensures judged { IsJudged project.now self.old step result self.new }
        ensures not_allowed { (result ≡ Judged.NotAllowed) ↔ (IsAllowed project.now self.old.end self.old.windows step → ⊥) }
        ensures further { (result ≡ Judged.Further) ↔ (IsAllowed project.now self.old.end self.old.windows step × (is_contradiction step ≡ false)) }
        ensures contradiction { (result ≡ Judged.Contradiction) ↔ (IsAllowed project.now self.old.end self.old.windows step × (is_contradiction step ≡ true)) }
        ensures size { length self.new.windows ≡ length self.old.windows }
    {
        judge(
            project,
            self.end,
            &mut self.windows[..self.jobs as usize],
            step,
        )
    }

    /// Steps that refute the windows, or `None` where no steps do. The narrowing steps of the project are found once and
    /// serve any of its windows.
    ///
    /// # Errors
    ///
    /// [`NoMemory`] where memory was refused.
    pub fn refute(
        self,
        alloc: Global,
        project: &Project,
        narrowing: &[BoundStep],
    ) -> Result<Option<List<BoundStep>>, NoMemory>
        requires size { length self.windows ≡ job_count project.now }
        requires narrowing { AreNarrowingSteps project.now narrowing.now }
        ensures some { IfOk result (λ o. IfSome o (RefutesFrom project.now self.end self.windows)) }
        ensures none { IfOk result (λ o. IfNone o (NoneRefutesFrom project.now self.end self.windows)) }
    {
        let mut own = self;
        let end = own.end;
        let jobs = own.jobs as usize;
        refute_windows(alloc, project, end, &mut own.windows[..jobs], narrowing)
    }
}
