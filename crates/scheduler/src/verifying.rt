//! The text of a bound that is judged.

ghost use Rattle.std.specs.Prelude.{◌≡◌, ◌≤◌, ℕ, List as Items, Err, IfOk};
ghost use Rattle.sched_base.specs.Outside.{Rose};
ghost use Rattle.plan_words.specs.Words.{IsVerify, project_name, bound_name};
ghost use Rattle.scheduler.specs.declared.stop.Stop.TheVariants.{ReadFault};
ghost use Rattle.scheduler.specs.Verifying.{IsBoundJudgementOf};
ghost use Rattle.scheduler.specs.Answer.{IsAnswerTo, IsTellable};

use crate::answer::{Answer, BoundJudgement, Outcome};
use crate::feeding::feed_text;
use crate::reading::read_text;
use crate::stop::Stop;
use bound_checker::BoundChecker;
use project_net::Project;
use psplib_layout::ReadError;
use psplib_reader::read_project;
use sched_base::Shelf;
use std::alloc::Global;

/// What the text under a name comes to, as that of a bound of the project. It is read until the first line that may not stand
/// there.
fn bound_judgement_of<S: Shelf>(
    alloc: Global,
    shelf: &mut S,
    project: &Project,
    name: &str,
) -> Result<BoundJudgement, Stop>
    ensures judged { IfOk result (IsBoundJudgementOf project.now (S.texts shelf.old) name.now) }
    ensures fault { result ≡ Err ReadFault → Rose (S.faults shelf.old) (S.faults shelf.new) }
    ensures later { S.faults shelf.old ≤ S.faults shelf.new }
    ensures texts { S.texts shelf.new ≡ S.texts shelf.old }
{
    project.known();
    let mut checker = BoundChecker::new(alloc, project);
    feed_text(alloc, shelf, name, &mut checker)?;
    Ok(checker.finish())
}

/// The answer where the text under a name is to be judged, as that of a bound of the project under a name.
pub fn verified<S: Shelf>(
    alloc: Global,
    shelf: &mut S,
    project: &str,
    bound: &str,
) -> Result<Answer, Stop>
    ensures answer { IfOk result (λ answer. (words : Items (Items ℕ)) → IsVerify words → project.now ≡ project_name words → bound.now ≡ bound_name words → IsAnswerTo words (S.texts shelf.old) answer) }
    ensures text { IfOk result IsTellable }
    ensures fault { result ≡ Err ReadFault → Rose (S.faults shelf.old) (S.faults shelf.new) }
    ensures later { S.faults shelf.old ≤ S.faults shelf.new }
    ensures texts { S.texts shelf.new ≡ S.texts shelf.old }
{
    let text = read_text(alloc, shelf, project)?;
    match read_project(alloc, &text) {
        Ok(project) => Ok(Answer::Verified(bound_judgement_of(alloc, shelf, &project, bound)?)),
        Err(ReadError::Refused(refusal)) => Ok(Answer::Read(Outcome::BadProject(refusal))),
        Err(ReadError::NoMemory) => Err(Stop::NoMemory),
    }
}
