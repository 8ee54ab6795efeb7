ghost use Rattle.std.specs.Prelude.{All};
ghost use Rattle.precedence_tree.specs.Base.{IsBaseOf};
ghost use Rattle.precedence_tree.specs.Node.{StandsFor};

use crate::bounds::{plain_budget_gap, plain_lower, plain_tail_bound, plain_work_bound};
use crate::children::{Outcome, PlainChild, is_eligible, plain_children};
use crate::dominance::{have_same_jobs, plainly_dominates};
use crate::subjects::{Subject, eighteen_jobs, most_jobs, with_breaks};
use crate::walks::{newest, node_of};
use cutset_store::{CutRecord, Index, SetPlace, dominates};
use plan_bounds::{budget_gap, lower, tail_bound, work_bound};
use precedence_tree::{Child, Entry, Node, Shut, children_of, eligible, expand};
use project_net::Project;
use sched_base::{Job, List, NoMemory};
use std::alloc::Global;
use std::process::Abort;
use std::test::Fail;

/// How many children came of each case.
#[derive(Clone, Copy)]
struct Cases {
    no_capacity: u32,
    no_budget: u32,
    inefficient: u32,
    placed: u32,
}

impl Cases {
    fn none() -> Cases {
        Cases {
            no_capacity: 0,
            no_budget: 0,
            inefficient: 0,
            placed: 0,
        }
    }

    /// Whether there are some of each.
    fn are_all(self) -> bool {
        0 < self.no_capacity && 0 < self.no_budget && 0 < self.inefficient && 0 < self.placed
    }

    fn count(&mut self, outcome: Outcome) {
        let case = match outcome {
            Outcome::Shut(Shut::NoCapacity(_)) => &mut self.no_capacity,
            Outcome::Shut(Shut::NoBudget(_)) => &mut self.no_budget,
            Outcome::Shut(Shut::Inefficient(_)) => &mut self.inefficient,
            Outcome::Placed(_) => &mut self.placed,
        };
        *case = case.saturating_add(1);
    }
}

/// The child of a node, told as that of a front is.
fn told(child: &Child<Node>) -> Option<PlainChild> {
    match child {
        Child::Placed(node) => {
            let entry = newest(node)?;
            Some(PlainChild {
                job: entry.job,
                mode: entry.mode,
                outcome: Outcome::Placed(entry.start),
            })
        }
        Child::Shut { job, mode, why } => Some(PlainChild {
            job: *job,
            mode: *mode,
            outcome: Outcome::Shut(*why),
        }),
    }
}

/// Compares the eligible jobs of a node with those of its front.
fn compare_eligible(rt: &impl Abort, project: &Project, node: &Node, front: &[Entry])
    requires { StandsFor project.now node.now }
{
    let set = eligible(project, node);
    for done in 0..project.jobs() {
        let plain = is_eligible(project, front, done + 1);
        assert_eq!(rt; set.has(Job(done + 1)), plain, "{done} after {front:?}");
    }
}

/// Compares the children of a node with those of its front.
fn compare_children(
    rt: &impl Abort,
    alloc: Global,
    project: &Project,
    node: &Node,
    front: &[Entry],
    cases: &mut Cases,
) -> Result<(), NoMemory>
    requires { StandsFor project.now node.now }
{
    let expansion = expand(alloc, project, node)?;
    let children = children_of(alloc, project, &expansion)?;
    let plain = plain_children(alloc, project, front)?;
    let children = children.as_slice();
    assert_eq!(rt; children.len(), plain.len(), "after {front:?}");
    for place in 0..plain.len() {
        assert_eq!(rt;
            told(&children[place]),
            Some(plain[place]),
            "after {front:?}"
        );
        cases.count(plain[place].outcome);
    }
    Ok(())
}

/// Compares the eligible jobs and the children of all fronts.
fn same_children(rt: &impl Abort, alloc: Global, subject: &Subject) -> Result<Cases, NoMemory> {
    let mut cases = Cases::none();
    for front in subject.fronts.as_slice() {
        let front = front.as_slice();
        let node = node_of(rt, alloc, &subject.project, front)?;
        compare_eligible(rt, &subject.project, &node, front);
        compare_children(rt, alloc, &subject.project, &node, front, &mut cases)?;
    }
    Ok(cases)
}

/// Compares the work bounds of a node with those of its front.
fn compare_works(rt: &impl Abort, project: &Project, node: &Node, front: &[Entry])
    requires { StandsFor project.now node.now }
{
    for done in 0..project.renewables() {
        let plain = plain_work_bound(project, front, done + 1);
        assert_eq!(rt;
            work_bound(project, node, done + 1),
            plain,
            "after {front:?}"
        );
    }
}

/// Compares the bounds of a node and its gap with those of its front, and says whether there is a gap.
fn compare_bounds(
    rt: &impl Abort,
    alloc: Global,
    project: &Project,
    node: &Node,
    front: &[Entry],
) -> Result<bool, NoMemory>
    requires { StandsFor project.now node.now }
{
    let tail = plain_tail_bound(alloc, project, front)?;
    assert_eq!(rt;
        u64::from(tail_bound(project, node)),
        tail,
        "after {front:?}"
    );
    compare_works(rt, project, node, front);
    let greatest = plain_lower(project, front, tail);
    assert_eq!(rt;
        u64::from(lower(project, node)),
        greatest,
        "after {front:?}"
    );
    let gap = plain_budget_gap(project, front);
    assert_eq!(rt; budget_gap(project, node), gap, "after {front:?}");
    Ok(gap.is_some())
}

/// Compares the bounds of all fronts, and says how many of these have a gap.
fn same_bounds(rt: &impl Abort, alloc: Global, subject: &Subject) -> Result<u32, NoMemory> {
    let mut gaps = 0u32;
    for front in subject.fronts.as_slice() {
        let front = front.as_slice();
        let node = node_of(rt, alloc, &subject.project, front)?;
        if compare_bounds(rt, alloc, &subject.project, &node, front)? {
            gaps = gaps.saturating_add(1);
        }
    }
    Ok(gaps)
}

/// How many pairs of different fronts there are that have the same jobs.
#[derive(Clone, Copy)]
struct Pairs {
    /// The first dominates the second.
    dominating: u32,
    /// It doesn't.
    other: u32,
}

impl Pairs {
    fn none() -> Pairs {
        Pairs {
            dominating: 0,
            other: 0,
        }
    }

    /// Whether there are some of either.
    fn are_both(self) -> bool {
        0 < self.dominating && 0 < self.other
    }

    fn count(&mut self, dominates: bool) {
        if dominates {
            self.dominating = self.dominating.saturating_add(1);
        } else {
            self.other = self.other.saturating_add(1);
        }
    }
}

/// Compares whether a record of the first front dominates the node of the second.
fn compare_pair(
    rt: &impl Abort,
    alloc: Global,
    project: &Project,
    a: &[Entry],
    node: &Node,
    b: &[Entry],
    pairs: &mut Pairs,
) -> Result<(), NoMemory>
    requires { StandsFor project.now node.now }
{
    let first = node_of(rt, alloc, project, a)?;
    let record = CutRecord::of(alloc, project, &first)?;
    let plain = plainly_dominates(project, a, b);
    assert_eq!(rt; dominates(project, &record, node), plain, "{a:?} and {b:?}");
    if a != b && have_same_jobs(project, a, b) {
        pairs.count(plain);
    }
    Ok(())
}

/// Compares all fronts with one.
fn compare_with(
    rt: &impl Abort,
    alloc: Global,
    subject: &Subject,
    b: &[Entry],
    pairs: &mut Pairs,
) -> Result<(), NoMemory> {
    let node = node_of(rt, alloc, &subject.project, b)?;
    for a in subject.fronts.as_slice() {
        compare_pair(rt, alloc, &subject.project, a.as_slice(), &node, b, pairs)?;
    }
    Ok(())
}

/// Compares all pairs of fronts.
fn same_dominance(rt: &impl Abort, alloc: Global, subject: &Subject) -> Result<Pairs, NoMemory> {
    let mut pairs = Pairs::none();
    for b in subject.fronts.as_slice() {
        compare_with(rt, alloc, subject, b.as_slice(), &mut pairs)?;
    }
    Ok(pairs)
}

/// The place of the first of these fronts that dominates the other.
fn first_dominating(project: &Project, fronts: &[List<Entry>], b: &[Entry]) -> Option<u32> {
    for (place, a) in fronts.iter().enumerate() {
        if plainly_dominates(project, a.as_slice(), b) {
            return u32::try_from(place).ok();
        }
    }
    None
}

/// A record of the node's front is added in the next place.
fn add(
    rt: &impl Abort,
    alloc: Global,
    project: &Project,
    node: &Node,
    set: SetPlace,
    index: &mut Index,
) -> Result<(), NoMemory>
    requires node { StandsFor project.now node.now }
    requires index { All (IsBaseOf project.now) index.old }
    ensures { All (IsBaseOf project.now) index.new }
{
    let record = CutRecord::of(alloc, project, node)?;
    let places = index.len();
    assert!(rt; places < u32::MAX);
    match index.add(record, set) {
        Ok(place) => {
            assert_eq!(rt; place, places);
            Ok(())
        }
        Err(_) => Err(NoMemory),
    }
}

/// Looks a front up among those that were entered before it, and enters it.
fn enter(
    rt: &impl Abort,
    alloc: Global,
    project: &Project,
    before: &[List<Entry>],
    front: &[Entry],
    index: &mut Index,
) -> Result<(), NoMemory>
    requires { All (IsBaseOf project.now) index.old }
    ensures { All (IsBaseOf project.now) index.new }
{
    let node = node_of(rt, alloc, project, front)?;
    let found = index.find(project, &node);
    let plain = first_dominating(project, before, front);
    assert_eq!(rt; found.first, plain, "{front:?}");
    add(rt, alloc, project, &node, found.set, index)
}

/// Enters all fronts.
fn same_found(rt: &impl Abort, alloc: Global, subject: &Subject) -> Result<(), NoMemory> {
    let project: &Project = &subject.project;
    let fronts = subject.fronts.as_slice();
    let mut index = Index::new(alloc, project);
    for place in 0..fronts.len() {
        let front = fronts[place].as_slice();
        enter(rt, alloc, project, &fronts[..place], front, &mut index)?;
    }
    Ok(())
}

/// What the fronts of a subject show.
#[derive(Clone, Copy)]
struct Shown {
    cases: Cases,
    /// How many fronts have a gap.
    gaps: u32,
    pairs: Pairs,
}

/// Compares children, bounds, dominance and what an index finds.
fn compare_all(rt: &impl Abort, alloc: Global, subject: &Subject) -> Result<Shown, NoMemory> {
    let cases = same_children(rt, alloc, subject)?;
    let gaps = same_bounds(rt, alloc, subject)?;
    let pairs = same_dominance(rt, alloc, subject)?;
    same_found(rt, alloc, subject)?;
    Ok(Shown { cases, gaps, pairs })
}

#[test]
fn fronts_of_eighteen_jobs(rt: HostRuntime) -> Result<(), Fail> {
    let subject = eighteen_jobs(&rt, rt.alloc())?;
    let shown = compare_all(&rt, rt.alloc(), &subject)?;
    assert!(rt; shown.pairs.are_both());
    Ok(())
}

#[test]
fn fronts_with_breaks(rt: HostRuntime) -> Result<(), Fail> {
    let subject = with_breaks(&rt, rt.alloc())?;
    let shown = compare_all(&rt, rt.alloc(), &subject)?;
    assert!(rt; 0 < shown.gaps && shown.pairs.are_both());
    Ok(())
}

#[test]
fn fronts_of_most_jobs(rt: HostRuntime) -> Result<(), Fail> {
    let subject = most_jobs(&rt, rt.alloc())?;
    let shown = compare_all(&rt, rt.alloc(), &subject)?;
    assert!(rt; 0 < shown.gaps && shown.cases.are_all() && shown.pairs.are_both());
    Ok(())
}
