//! What is kept of the whole lines of a report, and how the next one is judged.

ghost use Rattle.std.specs.Prelude.{◌≡◌, ◌+◌, ◌≤◌, ◌↔◌, [], Ok, Err, Some, None, All, IsTrue, IfOk, length};
ghost use Rattle.rcpsp_model.specs.Project.{Project as ProjectValue, job_count, IsMode};
ghost use Rattle.rcpsp_model.specs.Claim.{HasDuration};
ghost use Rattle.proof_log.specs.Report.{duration_of};
ghost use Rattle.proof_log.specs.Line.{IsLine};
ghost use Rattle.log_checker.specs.declared.stage.Stage.TheVariants as stages;
ghost use Rattle.log_checker.specs.Progress.{Progress as Said, start, IsJobStep, IsLogStep, IsLineStep, IsWholeStep};
ghost use Rattle.log_checker.specs.Walk.{wanted_of};
ghost use Rattle.log_checker.specs.Course.{IsReady, Holds, Comes};

use crate::allowing::duration;
use crate::heading::next_stage;
use crate::reason::Reason;
use crate::said::said;
use crate::stage::Stage;
use crate::walk::Walk;
use project_net::{Project, Schedule};
use proof_log::{ReportLine, parse_line};
use rcpsp_model::{Placing, Verdict};
use sched_base::{List, NoMemory};
use std::alloc::Global;

/// What is kept of the whole lines of a report.
#[derive(Drop)]
pub struct Course {
    /// Which line is wanted next.
    pub stage: Stage,
    /// The placings of the job lines, in the order of the jobs.
    pub places: List<Placing>,
    /// What is kept of the lines of the log.
    pub walk: Walk,
}

/// Whether the job is the next after so many.
fn is_next(job: u32, places: usize) -> bool
    ensures { IsTrue result ↔ (job ≡ places + 1) }
{
    1 <= job && job as usize - 1 == places
}

/// Whether the job has the mode.
fn has_mode(project: &Project, job: u32, mode: u32) -> bool
    requires { 1 ≤ job }
    ensures mode { IsTrue result ↔ IsMode project.now job mode }
    ensures few { IsTrue result → mode ≤ 16 }
{
    project.known();
    if u32::from(project.jobs()) < job {
        return false;
    }
    1 <= mode && mode <= u32::from(project.modes(job as u8))
}

/// Whether the placings of all jobs are a feasible schedule that ends at the verdict's duration.
fn is_right_plan(
    alloc: Global,
    project: &Project,
    verdict: Verdict,
    places: &[Placing],
) -> Result<bool, NoMemory>
    requires whole { length places.now ≡ job_count project.now }
    requires starts { All (λ place. place.start ≤ 999999999) places.now }
    ensures { IfOk result (λ b. IsTrue b ↔ HasDuration project.now (duration_of verdict) (Some places.now)) }
{
    let Some(duration) = duration(verdict) else {
        return Ok(false);
    };
    let copy = Vec::from_slice(alloc, places)?;
    let schedule = Schedule::new(List::from_vec(copy));
    if !project.is_feasible(&schedule) {
        return Ok(false);
    }
    Ok(project.end(&schedule) == duration)
}

impl Course {
    /// What is kept before the first line; it takes no memory.
    pub fn new(alloc: Global) -> Self
        ensures ready { (P : ProjectValue) → IsReady P result }
        ensures holds { (P : ProjectValue) → Holds P result start }
    {
        Course {
            stage: Stage::Title,
            places: List::new(alloc),
            walk: Walk::new(alloc),
        }
    }

    /// Judges the line of the next job.
    fn take_job(
        &mut self,
        alloc: Global,
        project: &Project,
        verdict: Verdict,
        line: ReportLine,
    ) -> Result<Option<Reason>, NoMemory>
        requires ready { IsReady project.now self.old }
        requires stage { self.old.stage ≡ stages.Job verdict }
        requires line { IsLine line }
        ensures ready { result ≡ Ok None → IsReady project.now self.new }
        ensures line { IfOk result (λ reason. (p : Said) → Holds project.now self.old p → Comes project.now (IsJobStep project.now p verdict (Some line)) reason self.new) }
    {
        let ReportLine::Job(job, mode, start) = line else {
            return Ok(Some(Reason::BadLine));
        };
        if !is_next(job, self.places.len()) {
            return Ok(Some(Reason::BadLine));
        }
        if !has_mode(project, job, mode) {
            return Ok(Some(Reason::BadSchedule));
        }
        let place = Placing {
            mode: mode as u8,
            start,
        };
        match self.places.push(place) {
            Ok(()) => {}
            Err(_) => return Err(NoMemory),
        }
        if self.places.len() != project.jobs() as usize {
            return Ok(None);
        }
        if !is_right_plan(alloc, project, verdict, self.places.as_slice())? {
            return Ok(Some(Reason::BadSchedule));
        }
        self.stage = Stage::Flag(verdict);
        Ok(None)
    }

    /// Judges the last line, which is wanted.
    fn take_end(&mut self, verdict: Verdict, line: ReportLine) -> Option<Reason>
        requires stage { self.old.stage ≡ stages.Line verdict }
        ensures line { (P : ProjectValue) (p : Said) → Holds P self.old p → wanted_of P self.old.walk ≡ [] → Comes P (IsLogStep P p verdict (Some line)) result self.new }
        ensures same { self.new.walk ≡ self.old.walk }
        ensures places { self.new.places ≡ self.old.places }
    {
        match line {
            ReportLine::End => {
                self.stage = Stage::Ended(verdict);
                None
            }
            _ => Some(Reason::LinesLeft),
        }
    }

    /// Judges the next line of the log, or the last line.
    fn take_log_line(
        &mut self,
        alloc: Global,
        project: &Project,
        verdict: Verdict,
        line: ReportLine,
    ) -> Result<Option<Reason>, NoMemory>
        requires ready { IsReady project.now self.old }
        requires stage { self.old.stage ≡ stages.Line verdict }
        requires line { IsLine line }
        ensures ready { result ≡ Ok None → IsReady project.now self.new }
        ensures line { IfOk result (λ reason. (p : Said) → Holds project.now self.old p → Comes project.now (IsLogStep project.now p verdict (Some line)) reason self.new) }
    {
        if self.walk.is_complete() {
            return Ok(self.take_end(verdict, line));
        }
        match line {
            ReportLine::Log(words) => match said(words) {
                Some(line) => self.walk.take(alloc, project, verdict, line),
                None => Ok(Some(Reason::WrongChild)),
            },
            ReportLine::End => Ok(Some(Reason::WrongChild)),
            _ => Ok(Some(Reason::BadLine)),
        }
    }

    /// Why bytes that are no line can't stand here.
    fn unread(&self, project: &Project) -> Reason
        requires { IsReady project.now self.now }
        ensures { (p : Said) → Holds project.now self.now p → IsLineStep project.now p p.stage None (Err result) }
    {
        match self.stage {
            Stage::Line(_) => {
                if self.walk.is_complete() {
                    Reason::LinesLeft
                } else {
                    Reason::BadLine
                }
            }
            Stage::Ended(_) => Reason::LinesLeft,
            _ => Reason::BadLine,
        }
    }

    /// Judges a line that was read.
    fn take_read(
        &mut self,
        alloc: Global,
        project: &Project,
        line: ReportLine,
    ) -> Result<Option<Reason>, NoMemory>
        requires ready { IsReady project.now self.old }
        requires line { IsLine line }
        ensures ready { result ≡ Ok None → IsReady project.now self.new }
        ensures line { IfOk result (λ reason. (p : Said) → Holds project.now self.old p → Comes project.now (IsLineStep project.now p p.stage (Some line)) reason self.new) }
    {
        match self.stage {
            Stage::Job(verdict) => self.take_job(alloc, project, verdict, line),
            Stage::Line(verdict) => self.take_log_line(alloc, project, verdict, line),
            Stage::Ended(_) => Ok(Some(Reason::LinesLeft)),
            stage => match next_stage(stage, Some(line)) {
                Ok(next) => {
                    self.stage = next;
                    Ok(None)
                }
                Err(reason) => Ok(Some(reason)),
            },
        }
    }

    /// Judges the next whole line, of at most 64 bytes, where the last line hasn't come.
    pub fn take(
        &mut self,
        alloc: Global,
        project: &Project,
        bytes: &[u8],
    ) -> Result<Option<Reason>, NoMemory>
        requires { IsReady project.now self.old }
        ensures ready { result ≡ Ok None → IsReady project.now self.new }
        ensures line { IfOk result (λ reason. (p : Said) → Holds project.now self.old p → Comes project.now (IsWholeStep project.now p bytes.now) reason self.new) }
    {
        match parse_line(bytes) {
            Some(line) => self.take_read(alloc, project, line),
            None => Ok(Some(self.unread(project))),
        }
    }
}
