// A node that was expanded joins a part: the rows of its children, its placed children, its record and its fill.
ghost use Rattle.std.specs.Prelude.{◌≡◌, ◌+◌, ◌≤◌, ◌<◌, ◌++◌, length, map, All, OnOk};
ghost use Rattle.rcpsp_model.specs.Project.{Project as ProjectValue};
ghost use Rattle.precedence_tree.specs.Children.{StandsWherePlaced};
ghost use Rattle.round_shares.specs.Share.{first_place};
ghost use Rattle.node_sources.specs.Places.{IsOwnPlace};
ghost use Rattle.node_sources.specs.Source.{IsSourceOf};
ghost use Rattle.node_sources.specs.Seats.{Stays};
ghost use Rattle.steal_rounds.specs.Children.{last_placed, row_of_child, new_row, waiting_child, placed_from};
ghost use Rattle.steal_rounds.specs.Lists.{part_state};
ghost use Rattle.steal_rounds.specs.Sources.{Gains};
ghost use Rattle.steal_rounds.specs.Turns.{ExpandsAs};

use crate::part::Part;
use cutset_store::CutRecord;
use node_sources::NodeSource;
use precedence_tree::{Child, Children, Entry, Node};
use sched_base::NoMemory;
use search_log::{Fill, Origin, Row, RowFate};
use search_rounds::{NewRow, PlacedRecord};

// The entry that was placed last; zeros at the root.
fn last_entry(node: &Node) -> Entry
    ensures { result ≡ last_placed node.now.front }
{
    let depth = node.depth();
    if depth == 0 {
        return Entry {
            job: 0,
            mode: 0,
            start: 0,
        };
    }
    node.entry(depth)
}

// The row of a child: a placed one waits, and a shut one has its cause.
fn child_row(child: &Child<Node>) -> Row
    ensures { result ≡ row_of_child child.now }
{
    match child {
        Child::Placed(node) => {
            let entry = last_entry(node);
            Row {
                start: Some(entry.start),
                fate: RowFate::Open,
                job: entry.job,
                mode: entry.mode,
            }
        }
        Child::Shut { job, mode, why } => Row {
            start: None,
            fate: RowFate::Shut(*why),
            job: *job,
            mode: *mode,
        },
    }
}

// Appends the rows of children, in order.
fn push_rows(
    grown: &mut Vec<NewRow>,
    children: &[Child<Node>],
    origin: Origin,
) -> Result<(), NoMemory>
    ensures { OnOk result (grown.new.items ≡ grown.old.items ++ map (new_row origin) children.now) }
{
    for child in children {
        grown.push(NewRow {
            row: child_row(child),
            origin,
        })?;
    }
    Ok(())
}

// Puts a child to the nodes that wait, if it is placed.
fn put_child(source: &mut NodeSource, place: u32, child: Child<Node>) -> Result<(), NoMemory>
    requires child { (P : ProjectValue) × IsSourceOf P source.old × StandsWherePlaced P child }
    requires place { IsOwnPlace source.old.number place }
    ensures stays { Stays source.old source.new }
    ensures gains { OnOk result (Gains (waiting_child place child) source.old source.new) }
{
    match child {
        Child::Placed(node) => {
            source.put(place, node)?;
            Ok(())
        }
        Child::Shut { .. } => Ok(()),
    }
}

// Puts the placed children to the nodes that wait, so that the first of them is the next one. Their rows begin at a place.
fn put_children(source: &mut NodeSource, first: u32, children: Children) -> Result<(), NoMemory>
    requires children { (P : ProjectValue) × IsSourceOf P source.old × All (StandsWherePlaced P) children }
    requires low { first_place source.old.number ≤ first }
    requires high { first + length children ≤ first_place (source.old.number + 1) }
    requires room { first + length children ≤ 4294967295 }
    ensures stays { Stays source.old source.new }
    ensures gains { OnOk result (Gains (placed_from first children) source.old source.new) }
{
    let mut rest = children.into_vec();
    'rest: while let Some(child) = rest.pop() {
        let place = first + rest.as_slice().len() as u32;
        put_child(source, place, child)?;
    }
    Ok(())
}

/// A node at a place was expanded, whose record this is, and whose children's rows begin at `first`.
pub(crate) fn expanded(
    part: &mut Part,
    place: u32,
    known: CutRecord,
    children: Children,
    first: u32,
    origin: Origin,
) -> Result<(), NoMemory>
    requires few { length children ≤ 512 }
    requires children { (P : ProjectValue) × IsSourceOf P part.old.source × All (StandsWherePlaced P) children }
    requires low { first_place part.old.source.number ≤ first }
    requires high { first + length children ≤ first_place (part.old.source.number + 1) }
    requires room { first + length children ≤ 4294967295 }
    ensures stays { Stays part.old.source part.new.source }
    ensures gains { OnOk result (Gains (placed_from first children) part.old.source part.new.source) }
    ensures expands { OnOk result (ExpandsAs place known children first origin (part_state part.old) (part_state part.new)) }
{
    let count = children.len() as u16;
    push_rows(&mut part.grown, children.as_slice(), origin)?;
    put_children(&mut part.source, first, children)?;
    part.made.push(PlacedRecord { place, known })?;
    part.fills.push(Fill {
        place,
        fate: RowFate::Expanded { count, first },
        origin,
    })?;
    Ok(())
}
