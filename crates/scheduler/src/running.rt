ghost use Rattle.std.specs.Prelude.{◌≡◌, ◌≤◌, ◌⊎◌, ◌↔◌, IsSome, IfSome, true, [], map, string_bytes};
ghost use Rattle.sched_base.specs.Outside.{Gains, GainsFront, Rose};
ghost use Rattle.scheduler.specs.declared.answer.Answer.{Answer as Told};
ghost use Rattle.plan_words.specs.Words.{bad_word, IsSolve, IsCheck, IsPlan, IsBound, IsVerify, IsMake, IsTrial, IsOnProject, IsPrint, workers_in, nodes_in, tries_in, prints_log};
ghost use Rattle.scheduler.specs.Solve.{IsSolution, IsNoLaterThanFirst, ExpandsNoTwins, HasAtMostFronts};
ghost use Rattle.scheduler.specs.Status.{IsSolved, IsServed, IsTold, IsFaultless};
ghost use Rattle.scheduler.specs.Answer.{IsAnswerTo, HasProject, NamesNoProject, Runs, WhereSolved, TellsAccepted, TellsPlan, TellsBound, Judges, Verifies, Tries, text_of};

use crate::answering::answer_to;
use crate::status::Status;
use crate::stop::Stop;
use crate::tell::{Untold, tell};
use sched_base::{Gate, Shelf, Sink};
use std::alloc::Global;
use std::thread::Threads;

/// Runs the program on these words: reads the project from the shelf, and writes what there is to tell to the sink.
///
/// The words are `solve PROJECT` and then any of `workers=W`, `nodes=L`, `log=yes` or `log=no`, `tries=N`; `check PROJECT REPORT`;
/// `show PROJECT`; `plan PROJECT` and then `tries=N` or nothing; `bound PROJECT`; `verify PROJECT BOUND`; `make SEED JOBS` and
/// then `modes=M` or nothing; or `trial SEED JOBS` and then any of `modes=M`, `workers=W`, `nodes=L`. All memory is taken before
/// the first byte is written. Each worker of a search passes the gate at the start of its part in a round, and after each node
/// that it expanded.
pub fn run<R: Threads + Sync, S: Shelf, K: Sink, G: Gate + Sync>(
    rt: &R,
    alloc: Global,
    words: &[String],
    shelf: &mut S,
    out: &mut K,
    gate: &G,
) -> Status
    // What is told is the answer to the words, whole, with its status.
    ensures told { IsTold result → Runs (map string_bytes words.now) (S.texts shelf.old) result (K.held out.old) (K.held out.new) }

    // `solve` tells a report on the project under the name, with its log or without. It holds, and what it claims of all
    // schedules is true; its text is accepted; at the limit as many nodes were expanded as the words allow, and one was left;
    // and no expansion was wasted.
    ensures report { WhereSolved (map string_bytes words.now) (S.texts shelf.old) result (K.held out.old) (K.held out.new)
        (λ P report. IsSolution P (workers_in (map string_bytes words.now)) (nodes_in (map string_bytes words.now)) (tries_in (map string_bytes words.now)) report) }

    // With its log, what is written is accepted.
    ensures accepted { IsSolve (map string_bytes words.now) → IsSolved result → prints_log (map string_bytes words.now) ≡ true
        → TellsAccepted (map string_bytes words.now) (S.texts shelf.old) (K.held out.old) (K.held out.new) }

    // The schedule ends no later than the first plan, where there is one.
    ensures no_later { WhereSolved (map string_bytes words.now) (S.texts shelf.old) result (K.held out.old) (K.held out.new)
        (λ P report. IsNoLaterThanFirst P report.verdict) }

    // One worker expands no two nodes of which each dominates the other.
    ensures no_twins { workers_in (map string_bytes words.now) ≡ 1 → WhereSolved (map string_bytes words.now) (S.texts shelf.old) result (K.held out.old) (K.held out.new)
        ExpandsNoTwins }

    // Where as many expansions are allowed as the project has fronts, the search ends before the limit.
    ensures ends { WhereSolved (map string_bytes words.now) (S.texts shelf.old) result (K.held out.old) (K.held out.new)
        (λ P report. HasAtMostFronts P (nodes_in (map string_bytes words.now)) → result ≡ Status.Limit → ⊥) }

    // `plan` tells the plan from as many tries as the words say, which is feasible and ends no later than the first plan; or that
    // there is none. With no tries it is exactly the first plan, justified.
    ensures planned { IsPlan (map string_bytes words.now) → IsSolved result → TellsPlan (map string_bytes words.now) (S.texts shelf.old) result (K.held out.old) (K.held out.new) }

    // `check` judges the text under the report's name, whatever its origin, as a report on the project under the other: 0 exactly
    // where it is accepted, with its verdict, and then what it claims, with the schedule in it, is true; and 3 exactly where it
    // isn't, with the first line that breaks a rule and the reason.
    ensures judged { IsCheck (map string_bytes words.now) → IsServed result → Judges (map string_bytes words.now) (S.texts shelf.old) result (K.held out.old) (K.held out.new) }
    ensures refused { result ≡ Status.ReportRefused → IsCheck (map string_bytes words.now) ⊎ IsVerify (map string_bytes words.now) }

    // `bound` tells the text of the project's window bound: its steps refute the period before it, or it is 0 and has none, so
    // that the text is accepted, and no feasible schedule ends before it.
    ensures bounded { IsBound (map string_bytes words.now) → IsServed result → TellsBound (map string_bytes words.now) (S.texts shelf.old) result (K.held out.old) (K.held out.new) }

    // `verify` judges the text under the bound's name, whatever its origin, as that of a bound of the project: 0 exactly where it
    // is accepted, with its bound, and then no feasible schedule ends before it; and 3 exactly where it isn't, with the first line
    // that may not stand there.
    ensures verified { IsVerify (map string_bytes words.now) → IsServed result → Verifies (map string_bytes words.now) (S.texts shelf.old) result (K.held out.old) (K.held out.new) }

    // `trial` tells the verdict of such a report on the made project, with its duration and its lower bound.
    ensures tried { IsTrial (map string_bytes words.now) → IsSolved result → Tries (map string_bytes words.now) result (K.held out.old) (K.held out.new) }

    // A fault of the sink leaves a front of that text.
    ensures cut_off { result ≡ Status.WriteFault → (answer : Told) × IsAnswerTo (map string_bytes words.now) (S.texts shelf.old) answer
        × GainsFront (K.held out.old) (K.held out.new) (text_of answer) }
    ensures write_fault { result ≡ Status.WriteFault → Rose (K.faults out.old) (K.faults out.new) }

    // A fault of the shelf, or want of memory, leaves nothing; the words of a faulty shelf speak of a project.
    ensures read_fault { result ≡ Status.ReadFault → IsOnProject (map string_bytes words.now) × Rose (S.faults shelf.old) (S.faults shelf.new) }
    ensures silent { (result ≡ Status.ReadFault) ⊎ (result ≡ Status.NoMemory) → Gains (K.held out.old) (K.held out.new) [] }

    // The shelf has its texts as before, and no count of faults falls; `make` and `trial` leave the whole shelf alone.
    ensures texts { S.texts shelf.new ≡ S.texts shelf.old }
    ensures shelf_count { S.faults shelf.old ≤ S.faults shelf.new }
    ensures sink_count { K.faults out.old ≤ K.faults out.new }
    ensures unread { IsMake (map string_bytes words.now) → shelf.new ≡ shelf.old }
    ensures untouched { IsTrial (map string_bytes words.now) → shelf.new ≡ shelf.old }

    // Unless the status is 7 or 8, it is 4 exactly where some word can't stand.
    ensures bad_words { (result ≡ Status.WriteFault → ⊥) → (result ≡ Status.NoMemory → ⊥) → (result ≡ Status.BadWords) ↔ IsSome (bad_word (map string_bytes words.now)) }

    // Where an answer is told, the status is 5 exactly where the words speak of a project and the text is none, and 0, 1, 2 or 3
    // exactly where it is one, or where the words are `make` or `trial`; of these, `show` and `make` have 0 alone.
    ensures bad_project { IsTold result → IfSome (S.texts shelf.old) (λ texts. (result ≡ Status.BadProject) ↔ NamesNoProject (map string_bytes words.now) texts) }
    ensures served { IsTold result → IfSome (S.texts shelf.old) (λ texts. IsServed result ↔ HasProject (map string_bytes words.now) texts) }
    ensures printed { IsServed result → IsPrint (map string_bytes words.now) → result ≡ Status.Done }

    // Where no fault was counted in the call and memory wasn't refused, an answer is told, and a project is solved, planned or
    // bounded, a report on it or a bound of it judged, or its text printed; `make` and `trial` need no shelf for it.
    ensures answers { IsFaultless (S.faults shelf.old) (S.faults shelf.new) → IsFaultless (K.faults out.old) (K.faults out.new) → (result ≡ Status.NoMemory → ⊥) → IsTold result }
    ensures complete { IfSome (S.texts shelf.old) (λ texts. HasProject (map string_bytes words.now) texts
        → IsFaultless (S.faults shelf.old) (S.faults shelf.new) → IsFaultless (K.faults out.old) (K.faults out.new) → (result ≡ Status.NoMemory → ⊥) → IsServed result) }
    ensures tries { IsTrial (map string_bytes words.now) → IsFaultless (K.faults out.old) (K.faults out.new) → (result ≡ Status.NoMemory → ⊥) → IsSolved result }
    ensures makes { IsMake (map string_bytes words.now) → IsFaultless (K.faults out.old) (K.faults out.new) → (result ≡ Status.NoMemory → ⊥) → result ≡ Status.Done }
{
    match answer_to(rt, alloc, words, shelf, gate) {
        Ok(answer) => match tell(alloc, out, &answer) {
            Ok(status) => status,
            Err(Untold::WriteFault) => Status::WriteFault,
            Err(Untold::NoMemory) => Status::NoMemory,
        },
        Err(Stop::ReadFault) => Status::ReadFault,
        Err(Stop::NoMemory) => Status::NoMemory,
    }
}
