//! The answer to the words.

ghost use Rattle.std.specs.Prelude.{◌≡◌, ◌≤◌, ℕ, List, Err, IfOk, map, string_bytes};
ghost use Rattle.sched_base.specs.Outside.{Rose};
ghost use Rattle.scheduler.specs.declared.answer.Answer.TheVariants as answers;
ghost use Rattle.scheduler.specs.declared.stop.Stop.TheVariants as stops;
ghost use Rattle.project_net.specs.Canonical.{canonical};
ghost use Rattle.project_gen.specs.Made.{made};
ghost use Rattle.plan_words.specs.Words.{CanBeMade, IsMake, IsTrial, IsOnProject, project_name};
ghost use Rattle.psplib_layout.specs.Text.{Reads};
ghost use Rattle.scheduler.specs.Solve.{IsSearchedTo};
ghost use Rattle.scheduler.specs.Task.{IsTaskOf, CanBeDone};
ghost use Rattle.scheduler.specs.Answer.{IsOutcomeOf, IsTrialOf, IsAnswerTo, IsTellable};

use crate::answer::{Answer, Outcome, Trial};
use crate::bounding::bound_text_of;
use crate::judging::checked;
use crate::planning::planned;
use crate::reading::read_text;
use crate::solving::{report_on, verdict_on};
use crate::stop::Stop;
use crate::task::Task;
use crate::verifying::verified;
use plan_words::{Command, Recipe, parse_words};
use project_gen::make;
use project_net::{Project, print_project};
use psplib_layout::ReadError;
use psplib_reader::read_project;
use rcpsp_model::Verdict;
use sched_base::{Gate, NoMemory, Shelf};
use std::alloc::Global;
use std::thread::Threads;

/// What the task comes to on a project.
fn outcome_on<R: Threads + Sync, G: Gate + Sync>(
    rt: &R,
    alloc: Global,
    gate: &G,
    project: &Project,
    task: Task,
) -> Result<Outcome, NoMemory>
    requires { CanBeDone task }
    ensures outcome { IfOk result (λ outcome. (words : List (List ℕ)) (bytes : List ℕ) → IsTaskOf words task → Reads bytes project.now → IsOutcomeOf words bytes outcome) }
    ensures text { IfOk result (λ outcome. IsTellable (answers.Read outcome)) }
{
    match task {
        Task::Solve(request) => {
            let report = report_on(rt, alloc, gate, project, request)?;
            Ok(Outcome::Solved(report))
        }
        Task::Plan { tries } => Ok(Outcome::Planned(planned(alloc, project, tries)?)),
        Task::Bound => Ok(Outcome::Bounded(bound_text_of(alloc, project)?)),
        Task::Show => Ok(Outcome::Shown(print_project(alloc, project)?)),
    }
}

/// What the task comes to on a project text.
fn outcome_of<R: Threads + Sync, G: Gate + Sync>(
    rt: &R,
    alloc: Global,
    gate: &G,
    text: &[u8],
    task: Task,
) -> Result<Outcome, NoMemory>
    requires { CanBeDone task }
    ensures outcome { IfOk result (λ outcome. (words : List (List ℕ)) → IsTaskOf words task → IsOutcomeOf words text.now outcome) }
    ensures text { IfOk result (λ outcome. IsTellable (answers.Read outcome)) }
{
    match read_project(alloc, text) {
        Ok(project) => outcome_on(rt, alloc, gate, &project, task),
        Err(ReadError::Refused(refusal)) => Ok(Outcome::BadProject(refusal)),
        Err(ReadError::NoMemory) => Err(NoMemory),
    }
}

/// The answer where the task is set on the project under a name.
fn answer_on<R: Threads + Sync, S: Shelf, G: Gate + Sync>(
    rt: &R,
    alloc: Global,
    shelf: &mut S,
    gate: &G,
    project: &str,
    task: Task,
) -> Result<Answer, Stop>
    requires { CanBeDone task }
    ensures answer { IfOk result (λ answer. (words : List (List ℕ)) → IsTaskOf words task → project.now ≡ project_name words → IsAnswerTo words (S.texts shelf.old) answer) }
    ensures text { IfOk result IsTellable }
    ensures fault { result ≡ Err stops.ReadFault → Rose (S.faults shelf.old) (S.faults shelf.new) }
    ensures later { S.faults shelf.old ≤ S.faults shelf.new }
    ensures texts { S.texts shelf.new ≡ S.texts shelf.old }
{
    let text = read_text(alloc, shelf, project)?;
    Ok(Answer::Read(outcome_of(rt, alloc, gate, &text, task)?))
}

/// The canonical text of a made project.
fn made_text(alloc: Global, recipe: Recipe) -> Result<Vec<u8>, NoMemory>
    requires { CanBeMade recipe }
    ensures { IfOk result (λ text. text.items ≡ canonical (made recipe.seed recipe.jobs recipe.modes)) }
{
    let project = make(alloc, u64::from(recipe.seed), recipe.jobs, recipe.modes)?;
    print_project(alloc, &project)
}

/// The verdict of the report on a made project.
fn made_verdict<R: Threads + Sync, G: Gate + Sync>(
    rt: &R,
    alloc: Global,
    gate: &G,
    recipe: Recipe,
    workers: u32,
    nodes: u32,
) -> Result<Verdict, NoMemory>
    requires recipe { CanBeMade recipe }
    requires some { 1 ≤ workers }
    requires few { workers ≤ 32 }
    requires nodes { nodes ≤ 100000 }
    ensures { IfOk result (IsSearchedTo (made recipe.seed recipe.jobs recipe.modes) workers nodes) }
{
    let project = make(alloc, u64::from(recipe.seed), recipe.jobs, recipe.modes)?;
    verdict_on(rt, alloc, gate, &project, workers, nodes)
}

/// What a made project comes to where it is solved.
fn trial_of<R: Threads + Sync, G: Gate + Sync>(
    rt: &R,
    alloc: Global,
    gate: &G,
    recipe: Recipe,
    workers: u32,
    nodes: u32,
) -> Result<Trial, NoMemory>
    requires recipe { CanBeMade recipe }
    requires some { 1 ≤ workers }
    requires few { workers ≤ 32 }
    requires nodes { nodes ≤ 100000 }
    ensures { IfOk result (IsTrialOf recipe.seed recipe.jobs recipe.modes workers nodes) }
{
    let verdict = made_verdict(rt, alloc, gate, recipe, workers, nodes)?;
    let Recipe { jobs, modes, .. } = recipe;
    Ok(Trial {
        jobs,
        modes,
        verdict,
    })
}

/// The answer to the words.
pub fn answer_to<R: Threads + Sync, S: Shelf, G: Gate + Sync>(
    rt: &R,
    alloc: Global,
    words: &[String],
    shelf: &mut S,
    gate: &G,
) -> Result<Answer, Stop>
    ensures answer { IfOk result (λ answer. IsAnswerTo (map string_bytes words.now) (S.texts shelf.old) answer) }
    ensures text { IfOk result IsTellable }
    ensures fault { result ≡ Err stops.ReadFault → IsOnProject (map string_bytes words.now) × Rose (S.faults shelf.old) (S.faults shelf.new) }
    ensures texts { S.texts shelf.new ≡ S.texts shelf.old }
    ensures later { S.faults shelf.old ≤ S.faults shelf.new }
    ensures unread { IsMake (map string_bytes words.now) → shelf.new ≡ shelf.old }
    ensures untouched { IsTrial (map string_bytes words.now) → shelf.new ≡ shelf.old }
{
    match parse_words(words) {
        Ok(Command::Solve { project, request }) => {
            answer_on(rt, alloc, shelf, gate, project, Task::Solve(request))
        }
        Ok(Command::Check { project, report }) => checked(alloc, shelf, project, report),
        Ok(Command::Plan { project, tries }) => {
            answer_on(rt, alloc, shelf, gate, project, Task::Plan { tries })
        }
        Ok(Command::Bound { project }) => {
            answer_on(rt, alloc, shelf, gate, project, Task::Bound)
        }
        Ok(Command::Verify { project, bound }) => verified(alloc, shelf, project, bound),
        Ok(Command::Show { project }) => { answer_on(rt, alloc, shelf, gate, project, Task::Show) },
        Ok(
            Command::Trial {
                recipe,
                workers,
                nodes,
            },
        ) => Ok(Answer::Tried(trial_of(rt, alloc, gate, recipe, workers, nodes)?)),
        Ok(Command::Make(recipe)) => Ok(Answer::Made(made_text(alloc, recipe)?)),
        Err(bad) => Ok(Answer::BadWords(bad)),
    }
}
