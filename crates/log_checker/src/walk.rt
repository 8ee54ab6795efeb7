//! What is kept of a log as its lines come: the path of open fronts, each with its next choice, and what the end needs of the
//! lines that were expanded, that cite, and that were left.

ghost use Rattle.std.specs.Prelude.{◌≡◌, ◌<◌, ◌↔◌, true, [], ◌++◌, List as Items, Ok, None, vec_len, IsTrue, IfOk, OnOk};
ghost use Rattle.rcpsp_model.specs.declared.parts.Verdict.{Verdict as Claimed};
ghost use Rattle.rcpsp_model.specs.Project.{Project as ProjectValue};
ghost use Rattle.precedence_tree.specs.Base.{IsBaseOf};
ghost use Rattle.precedence_tree.specs.Node.{StandsFor};
ghost use Rattle.proof_log.specs.declared.report.LogLine.{LogLine as Line};
ghost use Rattle.log_checker.specs.Said.{fate_said, line_said};
ghost use Rattle.log_truth.specs.Fates.{saying, expands};
ghost use Rattle.log_checker.specs.Choices.{IsTurnOf};
ghost use Rattle.log_checker.specs.Citations.{IsFirstOf};
ghost use Rattle.log_checker.specs.Walk.{opened, wanted_of, next_number, lesser_of, citing_by, root_by, IsSound, IsOpenFront, Stands, IsTaken, IsTakenChild, IsTakenRoot, Changes, Advances, Grows, KeepsLine};

use crate::choices::{Turn, first_above, next_after};
use crate::citations::first_unserved;
use crate::judging::{Judged, judge_child, judge_root};
use crate::reason::Reason;
use crate::said::{SaidFate, SaidLine};
use precedence_tree::{Expansion, Node, expand};
use project_net::Project;
use rcpsp_model::Verdict;
use sched_base::NoMemory;
use std::alloc::Global;

/// Whether the root's line has come.
#[derive(Clone, Copy, Debug, PartialEq, Eq)]
pub enum Root {
    /// It is wanted.
    Wanted,
    /// It has come.
    Came,
    /// It has come, and cites a line.
    Cites,
}

/// An expanded line.
#[derive(Drop)]
pub struct Grown {
    /// The number of the line in the log, from 1.
    pub line: u32,
    /// Its front, which its children share.
    pub front: Expansion,
}

/// A front whose children come.
#[derive(Drop)]
pub struct OpenFront {
    /// What is known of the front.
    pub front: Expansion,
    /// The place of its line among the expanded lines, from 0.
    pub place: u32,
    /// The next child.
    pub next: Turn,
}

/// A line that cites another, as a child of an expanded line.
#[derive(Clone, Copy, Debug, PartialEq, Eq)]
pub struct Citing {
    /// The number of the line in the log, from 1.
    pub line: u32,
    /// The number that it cites.
    pub cited: u32,
    /// The place of its parent's line among the expanded lines, from 0.
    pub parent: u32,
    /// Which child it is.
    pub turn: Turn,
}

const _: () = prove!(std::mem::size_of::<Citing>() <= 16);

/// What is kept of the lines of a log.
#[derive(Drop)]
pub struct Walk {
    /// Whether the root's line has come.
    pub root: Root,
    /// How many lines have come.
    pub lines: u32,
    /// The open fronts, the root's first.
    pub path: Vec<OpenFront>,
    /// The expanded lines.
    pub grown: Vec<Grown>,
    /// The lines that cite, but for the root's.
    pub citing: Vec<Citing>,
    /// The least number of a line that was left.
    pub least: Option<u32>,
}

/// Appends an expanded front with its next choice, if it has one.
fn open_at(
    path: &mut Vec<OpenFront>,
    front: Expansion,
    place: u32,
    next: Option<Turn>,
) -> Result<(), NoMemory>
    ensures { OnOk result (path.new.items ≡ path.old.items ++ opened front place next) }
{
    match next {
        Some(next) => {
            path.push(OpenFront { front, place, next })?;
            Ok(())
        }
        None => Ok(()),
    }
}

/// The lesser of two numbers, of which the first may be missing.
fn lesser(least: Option<u32>, bound: u32) -> u32
    ensures { result ≡ lesser_of least bound }
{
    match least {
        Some(other) if other <= bound => other,
        _ => bound,
    }
}

impl Walk {
    /// What is kept before the first line; it takes no memory.
    pub fn new(alloc: Global) -> Self
        ensures sound { (P : ProjectValue) → IsSound P result }
        ensures stands { (P : ProjectValue) (verdict : Claimed) → Stands P verdict result [] }
    {
        Walk {
            root: Root::Wanted,
            lines: 0,
            path: Vec::new(alloc),
            grown: Vec::new(alloc),
            citing: Vec::new(alloc),
            least: None,
        }
    }

    /// Whether no more lines are wanted.
    pub fn is_complete(&self) -> bool
        ensures { (P : ProjectValue) → IsSound P self.now → IsTrue result ↔ (wanted_of P self.now ≡ []) }
    {
        self.path.is_empty() && self.root != Root::Wanted
    }

    /// Counts a line, and puts the front back whose child it was, with the next one.
    fn advance(&mut self, project: &Project, parent: OpenFront) -> Result<(), NoMemory>
        requires base { IsBaseOf project.now parent.front }
        requires turn { IsTurnOf project.now parent.front.front parent.next }
        ensures { OnOk result (Advances project.now self.old self.new parent) }
    {
        self.lines = self.lines.saturating_add(1);
        let next = next_after(project, &parent.front, parent.next);
        let OpenFront { front, place, .. } = parent;
        open_at(&mut self.path, front, place, next)
    }

    /// Expands a node, whose children are wanted next.
    fn grow(&mut self, alloc: Global, project: &Project, node: &Node) -> Result<(), NoMemory>
        requires node { StandsFor project.now node.now }
        requires few { vec_len self.old.grown < 100000 }
        ensures { OnOk result (Grows project.now self.old self.new node.now.front) }
    {
        let front = expand(alloc, project, node)?;
        let kept = front.share()?;
        let next = first_above(project, &front, 0);
        let place = self.grown.len() as u32;
        self.grown.push(Grown {
            line: self.lines,
            front: kept,
        })?;
        open_at(&mut self.path, front, place, next)
    }

    /// Keeps what the end needs of a line with this front, whom it cites apart.
    fn keep(
        &mut self,
        alloc: Global,
        project: &Project,
        node: &Node,
        fate: SaidFate,
    ) -> Result<(), NoMemory>
        requires node { StandsFor project.now node.now }
        requires few { expands (saying (fate_said fate)) ≡ true → vec_len self.old.grown < 100000 }
        ensures { OnOk result (KeepsLine project.now self.old self.new node.now.front fate) }
    {
        match fate {
            SaidFate::Expanded => self.grow(alloc, project, node),
            SaidFate::Left(bound) => {
                self.least = Some(lesser(self.least, bound));
                Ok(())
            }
            _ => Ok(()),
        }
    }

    /// Keeps whom a child cites.
    fn cite(&mut self, parent: u32, turn: Turn, fate: SaidFate) -> Result<(), NoMemory>
        ensures { OnOk result (Changes self.old self.new self.old.root self.old.lines [] [] (citing_by self.old.lines parent turn fate) self.old.least) }
    {
        match fate {
            SaidFate::Cutset(cited) => {
                self.citing.push(Citing {
                    line: self.lines,
                    cited,
                    parent,
                    turn,
                })?;
                Ok(())
            }
            _ => Ok(()),
        }
    }

    /// Counts the line of the root.
    fn begin(&mut self, fate: SaidFate)
        ensures { Changes self.old self.new (root_by fate) (next_number self.old.lines) [] [] [] self.old.least }
    {
        self.lines = self.lines.saturating_add(1);
        self.root = match fate {
            SaidFate::Cutset(_) => Root::Cites,
            _ => Root::Came,
        };
    }

    /// Judges the line of the next child of a front that was taken off the path.
    fn take_child(
        &mut self,
        alloc: Global,
        project: &Project,
        verdict: Verdict,
        parent: OpenFront,
        line: SaidLine,
    ) -> Result<Option<Reason>, NoMemory>
        requires sound { IsSound project.now self.old }
        requires parent { IsOpenFront project.now self.old.grown.items parent }
        ensures { IfOk result (λ reason. IsTakenChild project.now verdict self.old parent (line_said line) line.fate reason self.new) }
    {
        let expanded = self.grown.len();
        let turn = parent.next;
        let place = parent.place;
        match judge_child(
            project,
            verdict,
            expanded,
            &parent.front,
            turn.job,
            turn.mode,
            line,
        )? {
            Judged::Broken(reason) => Ok(Some(reason)),
            Judged::Shut => {
                self.advance(project, parent)?;
                Ok(None)
            }
            Judged::Open(node) => {
                self.advance(project, parent)?;
                self.cite(place, turn, line.fate)?;
                self.keep(alloc, project, &node, line.fate)?;
                Ok(None)
            }
        }
    }

    /// Judges the line of the root.
    fn take_root(
        &mut self,
        alloc: Global,
        project: &Project,
        verdict: Verdict,
        line: SaidLine,
    ) -> Result<Option<Reason>, NoMemory>
        ensures { IfOk result (λ reason. IsTakenRoot project.now verdict self.old (line_said line) line.fate reason self.new) }
    {
        let expanded = self.grown.len();
        match judge_root(project, verdict, expanded, line) {
            Judged::Broken(reason) => Ok(Some(reason)),
            Judged::Shut => {
                self.begin(line.fate);
                Ok(None)
            }
            Judged::Open(node) => {
                self.begin(line.fate);
                self.keep(alloc, project, &node, line.fate)?;
                Ok(None)
            }
        }
    }

    /// Judges the next line of a log, and keeps what is needed of it where it breaks no rule.
    pub fn take(
        &mut self,
        alloc: Global,
        project: &Project,
        verdict: Verdict,
        line: SaidLine,
    ) -> Result<Option<Reason>, NoMemory>
        requires { IsSound project.now self.old }
        ensures sound { result ≡ Ok None → IsSound project.now self.new }
        ensures line { IfOk result (λ reason. (lines : Items Line) → Stands project.now verdict self.old lines → IsTaken project.now verdict lines (wanted_of project.now self.old) (line_said line) reason self.new) }
    {
        project.known();
        match self.path.pop() {
            Some(parent) => self.take_child(alloc, project, verdict, parent, line),
            None => match self.root {
                Root::Wanted => self.take_root(alloc, project, verdict, line),
                Root::Came | Root::Cites => Ok(Some(Reason::LinesLeft)),
            },
        }
    }

    /// The number of the first line, from 1, whose citation doesn't serve it, where all lines have come.
    pub fn first_unserved(&self, project: &Project) -> Result<Option<u32>, NoMemory>
        requires { IsSound project.now self.now }
        ensures { IfOk result (λ n. (verdict : Claimed) (lines : Items Line) → Stands project.now verdict self.now lines → IsFirstOf project.now lines n) }
    {
        match self.root {
            Root::Cites => Ok(Some(1)),
            Root::Wanted | Root::Came => {
                first_unserved(project, self.grown.as_slice(), self.citing.as_slice())
            }
        }
    }
}
