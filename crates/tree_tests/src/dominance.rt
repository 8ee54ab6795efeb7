//! Which front makes another needless, by records of fronts and by an index of them.

ghost use Rattle.std.specs.Prelude.{All, IfOk};
ghost use Rattle.precedence_tree.specs.Base.{IsBaseOf};
ghost use Rattle.precedence_tree.specs.Node.{StandsFor};

use crate::nodes::walk;
use cutset_store::{CutRecord, Index, dominates};
use precedence_tree::Node;
use project_net::Project;
use sched_base::NoMemory;
use std::alloc::Global;
use std::process::Abort;
use std::test::Fail;
use worked_projects::{
    EntryRow, NEEDS_DIFFER, NO_LENGTH, TWINS, TWO_IN_TURN, WorkedProject, build,
};

/// Whether the first of two fronts of a project dominates the second.
struct PairRow {
    name: &'static str,
    project: WorkedProject,
    front: &'static [EntryRow],
    other: &'static [EntryRow],
    dominates: bool,
}

static PAIRS: [PairRow; 8] = [
    PairRow {
        name: "no job",
        project: TWINS,
        front: &[],
        other: &[],
        dominates: true,
    },
    PairRow {
        name: "twins in another order",
        project: TWINS,
        front: THIRD_FIRST,
        other: SECOND_FIRST,
        dominates: true,
    },
    PairRow {
        name: "other jobs",
        project: TWINS,
        front: &[(1, 1, 0), (2, 1, 0)],
        other: &[(1, 1, 0), (3, 1, 0)],
        dominates: false,
    },
    PairRow {
        name: "a later last start",
        project: TWINS,
        front: FOURTH_FIRST,
        other: FIFTH_FIRST,
        dominates: false,
    },
    PairRow {
        name: "a job that is done later, for which another waits",
        project: TWINS,
        front: FIFTH_FIRST,
        other: FOURTH_FIRST,
        dominates: false,
    },
    PairRow {
        name: "the same modes",
        project: NEEDS_DIFFER,
        front: &[(1, 1, 0), (2, 2, 0), (3, 1, 0)],
        other: &[(1, 1, 0), (3, 1, 0), (2, 2, 0)],
        dominates: true,
    },
    PairRow {
        name: "a greater need",
        project: NEEDS_DIFFER,
        front: &[(1, 1, 0), (2, 1, 0), (3, 1, 0)],
        other: &[(1, 1, 0), (3, 1, 0), (2, 2, 0)],
        dominates: false,
    },
    PairRow {
        name: "a greater usage",
        project: NEEDS_DIFFER,
        front: &[(1, 1, 0), (2, 2, 0), (3, 1, 0)],
        other: &[(1, 1, 0), (3, 1, 0), (2, 1, 0)],
        dominates: false,
    },
];

const SECOND_FIRST: &[EntryRow] = &[(1, 1, 0), (2, 1, 0), (3, 1, 0)];

const THIRD_FIRST: &[EntryRow] = &[(1, 1, 0), (3, 1, 0), (2, 1, 0)];

const FOURTH_FIRST: &[EntryRow] = &[(1, 1, 0), (2, 1, 0), (3, 1, 0), (4, 1, 1), (5, 1, 4)];

const FIFTH_FIRST: &[EntryRow] = &[(1, 1, 0), (2, 1, 0), (3, 1, 0), (5, 1, 1), (4, 1, 3)];

/// Whether a record of the one node makes the other needless.
fn is_needless(
    alloc: Global,
    project: &Project,
    node: &Node,
    other: &Node,
) -> Result<bool, NoMemory>
    requires node { StandsFor project.now node.now }
    requires other { StandsFor project.now other.now }
{
    let record = CutRecord::of(alloc, project, node)?;
    Ok(dominates(project, &record, other))
}

/// Compares the fronts of a row, in its project.
fn compare_fronts(
    rt: &impl Abort,
    alloc: Global,
    project: &Project,
    row: &PairRow,
) -> Result<(), Fail> {
    let front = walk(rt, alloc, project, row.front)?;
    let other = walk(rt, alloc, project, row.other)?;
    let found = is_needless(alloc, project, &front, &other)?;
    assert_eq!(rt; found, row.dominates, "{}", row.name);
    Ok(())
}

fn compare(rt: &impl Abort, alloc: Global, row: &PairRow) -> Result<(), Fail> {
    let project = build(alloc, &row.project)?;
    compare_fronts(rt, alloc, &project, row)
}

#[test]
fn pairs(rt: HostRuntime) -> Result<(), Fail> {
    for row in &PAIRS {
        compare(&rt, rt.alloc(), row)?;
    }
    Ok(())
}

/// A record of the front, which is one of its own project alone.
fn tell_apart(
    rt: &impl Abort,
    alloc: Global,
    own: &Project,
    other: &Project,
    node: &Node,
) -> Result<(), NoMemory>
    requires { StandsFor own.now node.now }
{
    let record = CutRecord::of(alloc, own, node)?;
    let is_own = record.is_of(alloc, own)?;
    let keeps_own = record.keeps_of(alloc, own)?;
    let is_other = record.is_of(alloc, other)?;
    let keeps_other = record.keeps_of(alloc, other)?;
    assert!(rt; is_own && keeps_own && !is_other && !keeps_other);
    Ok(())
}

fn walk_and_tell_apart(
    rt: &impl Abort,
    alloc: Global,
    own: &Project,
    other: &Project,
) -> Result<(), Fail> {
    let node = walk(rt, alloc, own, &[(3, 1, 0), (2, 1, 0), (1, 1, 0)])?;
    tell_apart(rt, alloc, own, other, &node)?;
    Ok(())
}

#[test]
fn record_of_one_project_alone(rt: HostRuntime) -> Result<(), Fail> {
    let own = build(rt.alloc(), &NO_LENGTH)?;
    let other = build(rt.alloc(), &TWO_IN_TURN)?;
    walk_and_tell_apart(&rt, rt.alloc(), &own, &other)
}

/// The node is found in the index, or else its record is added; gives the place of the record that dominates.
fn find_or_add(
    rt: &impl Abort,
    alloc: Global,
    project: &Project,
    index: &mut Index,
    node: &Node,
) -> Result<Option<u32>, NoMemory>
    requires node { StandsFor project.now node.now }
    requires index { All (IsBaseOf project.now) index.old }
    ensures { IfOk result (λ _. All (IsBaseOf project.now) index.new) }
{
    let found = index.find(project, node);
    if found.first.is_some() {
        return Ok(found.first);
    }
    let record = CutRecord::of(alloc, project, node)?;
    assert!(rt; index.len() < u32::MAX);
    assert!(rt; index.add(record, found.set).is_ok());
    Ok(None)
}

/// The first node is added, and then the second one is found.
fn find_in_turn(
    rt: &impl Abort,
    alloc: Global,
    project: &Project,
    first: &Node,
    second: &Node,
) -> Result<(), NoMemory>
    requires first { StandsFor project.now first.now }
    requires second { StandsFor project.now second.now }
{
    let mut index = Index::new(alloc, project);
    let none = find_or_add(rt, alloc, project, &mut index, first)?;
    let one = find_or_add(rt, alloc, project, &mut index, second)?;
    assert_eq!(rt; (none, one), (None, Some(0)));
    Ok(())
}

fn find_twins(rt: &impl Abort, alloc: Global, project: &Project) -> Result<(), Fail> {
    let first = walk(rt, alloc, project, THIRD_FIRST)?;
    let second = walk(rt, alloc, project, SECOND_FIRST)?;
    find_in_turn(rt, alloc, project, &first, &second)?;
    Ok(())
}

#[test]
fn found_in_an_index(rt: HostRuntime) -> Result<(), Fail> {
    let project = build(rt.alloc(), &TWINS)?;
    find_twins(&rt, rt.alloc(), &project)
}

/// That threads may share the value.
fn is_shared<T: Sync>(_value: &T) {}

/// Records and indexes are shared by the workers of a round.
fn share(alloc: Global, project: &Project) -> Result<(), Fail> {
    let record = CutRecord::of(alloc, project, &Node::root())?;
    is_shared(&record);
    is_shared(&Index::new(alloc, project));
    Ok(())
}

#[test]
fn shared(rt: HostRuntime) -> Result<(), Fail> {
    let project = build(rt.alloc(), &TWINS)?;
    share(rt.alloc(), &project)
}
