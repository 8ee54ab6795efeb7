// The walk from the root through the rows.
ghost use Rattle.std.specs.Prelude.{◌≡◌, ◌+◌, ◌-◌, ◌<◌, ◌≤◌, [], ◌∷◌, ◌++◌, length, IfOk, OnOk};
ghost use Rattle.rcpsp_model.specs.Project.{numbers_from};
ghost use Rattle.search_log.specs.Weights.{Each};
ghost use Rattle.search_log.specs.Table.{says_at, children_of, IsWhole, IsPreorder};
ghost use Rattle.search_log.specs.Walk.{places_of, HasSome};

use crate::blocks::Blocks;
use crate::row::{Row, RowFate};
use crate::table::row_of;
use sched_base::NoMemory;
use std::alloc::Global;

/// Places that follow each other and wait: from the next on, so many.
#[derive(Clone, Copy, Debug)]
pub struct Span {
    pub next: u32,
    pub count: u32,
}

// Lets places wait, before the others.
fn push_span(stack: &mut Vec<Span>, next: u32, count: u32) -> Result<(), NoMemory>
    requires { Each HasSome stack.old.items }
    ensures places { OnOk result (places_of stack.new.items ≡ numbers_from next count ++ places_of stack.old.items) }
    ensures some { OnOk result (Each HasSome stack.new.items) }
{
    if 0 < count {
        stack.push(Span { next, count })?;
    }
    Ok(())
}

// Passes the next place of a span: its children wait before the others.
fn pass(rows: &Blocks<Row>, stack: &mut Vec<Span>, span: Span) -> Result<(), NoMemory>
    requires within { span.next < length rows.now }
    requires short { length rows.now ≤ 4294967295 }
    requires one { 0 < span.count }
    requires some { Each HasSome stack.old.items }
    ensures places { OnOk result (places_of stack.new.items ≡ children_of (says_at rows.now span.next) ++ (numbers_from (span.next + 1) (span.count - 1) ++ places_of stack.old.items)) }
    ensures some { OnOk result (Each HasSome stack.new.items) }
{
    push_span(stack, span.next + 1, span.count - 1)?;
    match row_of(rows, span.next).fate {
        RowFate::Expanded { count, first } => push_span(stack, first, count as u32),
        _ => Ok(()),
    }
}

/// The places of all rows in preorder from the root.
pub fn preorder(alloc: Global, rows: &Blocks<Row>) -> Result<Vec<u32>, NoMemory>
    requires { IsWhole rows.now }
    ensures { IfOk result (λ order. IsPreorder rows.now order.items) }
{
    let size = rows.len();
    let mut order = Vec::with_capacity(alloc, size as usize)?;
    let mut stack = Vec::new(alloc);
    stack.push(Span { next: 0, count: 1 })?;
    while let Some(span) = stack.pop() {
        order.push(span.next)?;
        pass(rows, &mut stack, span)?;
    }
    Ok(order)
}
