//! One line of a log, judged on its branch of the tree.

ghost use Rattle.std.specs.Prelude.{◌≡◌, ℕ, ◌<◌, ◌↔◌, true, [], List as Items, IsTrue, IfOk};
ghost use Rattle.rcpsp_model.specs.declared.parts.Entry.{Entry as Placed};
ghost use Rattle.rcpsp_model.specs.declared.parts.Shut.{Shut as Why};
ghost use Rattle.rcpsp_model.specs.declared.parts.Verdict.{Verdict as Claimed};
ghost use Rattle.rcpsp_model.specs.Bounds.{IsBudgetGap};
ghost use Rattle.rcpsp_model.specs.Project.{Project as ProjectValue, IsMode};
ghost use Rattle.rcpsp_model.specs.Tree.{Choice, IsEligible, IsShut, LeavesBudgets};
ghost use Rattle.precedence_tree.specs.Base.{IsBaseOf};
ghost use Rattle.precedence_tree.specs.Node.{StandsFor};
ghost use Rattle.log_truth.specs.Fates.{says_shut, saying, expands, shuts};
ghost use Rattle.log_truth.specs.Log.{at_root, by_choice};
ghost use Rattle.log_truth.specs.Holds.{most_expanded};
ghost use Rattle.log_truth.specs.Refusal.{IsNamed};
ghost use Rattle.log_checker.specs.Said.{fate_said, line_said};
ghost use Rattle.log_checker.specs.Judged.{IsJudged, IsPlacedNode, choice_at};

use crate::allowing::allows;
use crate::reason::Reason;
use crate::said::{SaidFate, SaidLine};
use plan_bounds::budget_gap;
use precedence_tree::{Child, Expansion, Node, Shut, child_of};
use project_net::Project;
use rcpsp_model::Verdict;
use sched_base::NoMemory;

/// At most so many lines may be expanded.
pub const MOST_EXPANDED: usize = 100_000;

/// What a line turned out to be.
#[derive(Drop)]
pub enum Judged {
    /// It breaks a rule.
    Broken(Reason),
    /// It is right, and has no front.
    Shut,
    /// It is right, and has the front of this node.
    Open(Node),
}

/// Whether the fate says that the child is shut.
fn is_shut(fate: SaidFate) -> bool
    ensures { result ≡ shuts (saying (fate_said fate)) }
{
    matches!(
        fate,
        SaidFate::Budget(_) | SaidFate::Capacity(_) | SaidFate::Worse(_)
    )
}

/// Whether the fate is exactly this cause.
fn is_cause(fate: SaidFate, why: Shut) -> bool
    ensures { IsTrue result ↔ (saying (fate_said fate) ≡ says_shut why) }
{
    match (fate, why) {
        (SaidFate::Capacity(said), Shut::NoCapacity(resource)) => said == u32::from(resource),
        (SaidFate::Budget(said), Shut::NoBudget(resource)) => said == u32::from(resource),
        (SaidFate::Worse(said), Shut::Inefficient(mode)) => said == u32::from(mode),
        _ => false,
    }
}

/// Whether a line of this fate may stand after so many expanded lines.
fn is_few(expanded: usize, fate: SaidFate) -> bool
    ensures { IsTrue result ↔ (expands (saying (fate_said fate)) ≡ true → expanded < most_expanded) }
{
    match fate {
        SaidFate::Expanded => expanded < MOST_EXPANDED,
        _ => true,
    }
}

/// Whether the line has the job and the mode.
fn is_of_choice(job: u8, mode: u8, line: SaidLine) -> bool
    ensures { (F : Items Placed) → IsTrue result ↔ IsNamed (by_choice F (choice_at job mode)) (line_said line) }
{
    line.job == u32::from(job) && line.mode == u32::from(mode)
}

/// Whether the line has neither job, mode nor start.
fn is_of_root(line: SaidLine) -> bool
    ensures { IsTrue result ↔ IsNamed at_root (line_said line) }
{
    line.job == 0 && line.mode == 0 && line.start.is_none()
}

/// Judges the line of a child that is shut.
fn judge_shut(why: Shut, line: SaidLine) -> Judged
    ensures { (P : ProjectValue) (k : ℕ) (F : Items Placed) (c : Choice) → IsShut P F c.job c.mode why → IsNamed (by_choice F c) (line_said line)
        → (verdict : Claimed) → IsJudged P verdict k (by_choice F c) (line_said line) result }
{
    if !is_cause(line.fate, why) {
        return Judged::Broken(Reason::WrongFate);
    }
    if line.start.is_some() {
        return Judged::Broken(Reason::WrongChild);
    }
    Judged::Shut
}

/// Judges the line of a child that is placed, after so many expanded lines.
fn judge_placed(
    project: &Project,
    verdict: Verdict,
    expanded: usize,
    node: Node,
    line: SaidLine,
) -> Judged
    requires { StandsFor project.now node }
    ensures { (F : Items Placed) (c : Choice) → IsPlacedNode project.now F c node → IsNamed (by_choice F c) (line_said line) → IsJudged project.now verdict expanded (by_choice F c) (line_said line) result }
{
    if is_shut(line.fate) {
        return Judged::Broken(Reason::WrongFate);
    }
    if line.start != Some(node.last()) {
        return Judged::Broken(Reason::WrongChild);
    }
    if !allows(project, verdict, &node, line.fate) {
        return Judged::Broken(Reason::WrongFate);
    }
    if !is_few(expanded, line.fate) {
        return Judged::Broken(Reason::TooManyExpanded);
    }
    Judged::Open(node)
}

/// Judges the line of the child of a front by an eligible job in one of its modes, after so many expanded lines. A line that
/// isn't expanded takes no memory.
pub fn judge_child(
    project: &Project,
    verdict: Verdict,
    expanded: usize,
    front: &Expansion,
    job: u8,
    mode: u8,
    line: SaidLine,
) -> Result<Judged, NoMemory>
    requires base { IsBaseOf project.now front.now }
    requires eligible { IsEligible project.now front.now.front job }
    requires mode { IsMode project.now job mode }
    ensures { IfOk result (IsJudged project.now verdict expanded (by_choice front.now.front (choice_at job mode)) (line_said line)) }
{
    if !is_of_choice(job, mode, line) {
        return Ok(Judged::Broken(Reason::WrongChild));
    }
    match child_of(project, front, job, mode)? {
        Child::Shut { why, .. } => Ok(judge_shut(why, line)),
        Child::Placed(node) => Ok(judge_placed(project, verdict, expanded, node, line)),
    }
}

/// Judges the line of a root that has the budget gap of this resource.
fn judge_gap(resource: u8, line: SaidLine) -> Judged
    ensures { (P : ProjectValue) (k : ℕ) → IsBudgetGap P [] resource → IsNamed at_root (line_said line)
        → (verdict : Claimed) → IsJudged P verdict k at_root (line_said line) result }
{
    if !is_cause(line.fate, Shut::NoBudget(resource)) {
        return Judged::Broken(Reason::WrongFate);
    }
    Judged::Shut
}

/// Judges the line of a root that has no budget gap.
fn judge_open_root(
    project: &Project,
    verdict: Verdict,
    expanded: usize,
    node: Node,
    line: SaidLine,
) -> Judged
    requires node { StandsFor project.now node }
    requires root { node.front ≡ [] }
    requires open { LeavesBudgets project.now [] }
    ensures { IsNamed at_root (line_said line) → IsJudged project.now verdict expanded at_root (line_said line) result }
{
    if is_shut(line.fate) {
        return Judged::Broken(Reason::WrongFate);
    }
    if !allows(project, verdict, &node, line.fate) {
        return Judged::Broken(Reason::WrongFate);
    }
    if !is_few(expanded, line.fate) {
        return Judged::Broken(Reason::TooManyExpanded);
    }
    Judged::Open(node)
}

/// Judges the line of the root, after so many expanded lines.
pub fn judge_root(project: &Project, verdict: Verdict, expanded: usize, line: SaidLine) -> Judged
    ensures { IsJudged project.now verdict expanded at_root (line_said line) result }
{
    if !is_of_root(line) {
        return Judged::Broken(Reason::WrongChild);
    }
    let root = Node::root();
    match budget_gap(project, &root) {
        Some(resource) => judge_gap(resource, line),
        None => judge_open_root(project, verdict, expanded, root, line),
    }
}
