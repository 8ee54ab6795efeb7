//! A report that is judged.

ghost use Rattle.std.specs.Prelude.{◌≡◌, ◌≤◌, ℕ, List as Items, Err, IfOk};
ghost use Rattle.sched_base.specs.Outside.{Rose};
ghost use Rattle.scheduler.specs.declared.stop.Stop.TheVariants.{ReadFault};
ghost use Rattle.scheduler.specs.Judging.{IsJudgementOf};
ghost use Rattle.scheduler.specs.Answer.{IsAnswerTo, IsTellable};
ghost use Rattle.plan_words.specs.Words.{IsCheck, project_name, report_name};

use crate::answer::{Answer, Judgement, Outcome};
use crate::feeding::feed_text;
use crate::reading::read_text;
use crate::stop::Stop;
use log_checker::{Checker, Refused};
use project_net::Project;
use psplib_layout::ReadError;
use psplib_reader::read_project;
use sched_base::Shelf;
use std::alloc::Global;

/// The judgement of the text under a name, as a report on the project. It is read until the first line that breaks a rule.
fn judgement_of<S: Shelf>(
    alloc: Global,
    shelf: &mut S,
    project: &Project,
    name: &str,
) -> Result<Judgement, Stop>
    ensures judged { IfOk result (IsJudgementOf project.now (S.texts shelf.old) name.now) }
    ensures fault { result ≡ Err ReadFault → Rose (S.faults shelf.old) (S.faults shelf.new) }
    ensures later { S.faults shelf.old ≤ S.faults shelf.new }
    ensures texts { S.texts shelf.new ≡ S.texts shelf.old }
{
    project.known();
    let mut checker = Checker::new(alloc, project);
    feed_text(alloc, shelf, name, &mut checker)?;
    match checker.finish() {
        Ok(verdict) => Ok(Judgement::Accepted(verdict)),
        Err(Refused::Report { line, reason }) => Ok(Judgement::Refused { line, reason }),
        Err(Refused::NoMemory) => Err(Stop::NoMemory),
    }
}

/// The answer where the report under a name is to be judged, as one on the project under a name.
pub fn checked<S: Shelf>(
    alloc: Global,
    shelf: &mut S,
    project: &str,
    report: &str,
) -> Result<Answer, Stop>
    ensures answer { IfOk result (λ answer. (words : Items (Items ℕ)) → IsCheck words → project.now ≡ project_name words → report.now ≡ report_name words → IsAnswerTo words (S.texts shelf.old) answer) }
    ensures text { IfOk result IsTellable }
    ensures fault { result ≡ Err ReadFault → Rose (S.faults shelf.old) (S.faults shelf.new) }
    ensures later { S.faults shelf.old ≤ S.faults shelf.new }
    ensures texts { S.texts shelf.new ≡ S.texts shelf.old }
{
    let text = read_text(alloc, shelf, project)?;
    match read_project(alloc, &text) {
        Ok(project) => Ok(Answer::Judged(judgement_of(alloc, shelf, &project, report)?)),
        Err(ReadError::Refused(refusal)) => Ok(Answer::Read(Outcome::BadProject(refusal))),
        Err(ReadError::NoMemory) => Err(Stop::NoMemory),
    }
}
