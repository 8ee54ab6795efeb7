ghost use Rattle.std.specs.Prelude.{◌≡◌, [], ◌∷◌};
ghost use Rattle.crossbeam_deque.specs.Handles.{view, IsPassOf};
ghost use Rattle.crossbeam_deque.specs.Steals.{MatchSteal};
ghost use Rattle.node_deques.specs.Passes.{IsLive};
ghost use Rattle.node_deques.specs.Steps.{Takes};

use crate::node::DequeNode;
use crate::rule::{DequeRule, TakeFirst};
use crate::view::DequeView;
use crossbeam_deque::{Pass, Steal, Stealer};
use std::alloc::Global;
use std::marker::Model;

/// A worker's right to take nodes from another's deque, with what it took.
#[derive(Drop)]
pub struct Thief {
    pub(crate) handle: Stealer<DequeNode, Global, DequeView, DequeRule>,
    pub(crate) pass: Pass<DequeNode, DequeView>,
}

impl Model for Thief {
    ghost use Rattle.crossbeam_deque.specs.Handles.{view as pass_view, stealer_deque};
    ghost use Rattle.node_deques.specs.Handles.{HandleState, IsThiefsEnd};

    ghost Value = { HandleState };

    ghost view = { λ t. record { deque = stealer_deque t.handle; view = pass_view t.pass } };

    ghost invariant = { λ t. IsThiefsEnd (stealer_deque t.handle) t.pass };
}

impl Thief {
    /// One try to take the node that was accepted first of those that nobody took: the node, or none there, or another's step
    /// came between.
    pub fn steal(&mut self) -> Steal<DequeNode>
        ensures deque { self.new.deque ≡ self.old.deque }
        ensures stolen { MatchSteal result (self.new.view ≡ self.old.view) (self.new.view ≡ self.old.view) (λ x. Takes self.old.view (x ∷ []) self.new.view) }
    {
        self.handle.steal_as::<TakeFirst>(&mut self.pass)
    }

    /// The pass by itself.
    pub(crate) fn into_pass(self) -> Pass<DequeNode, DequeView>
        ensures pass { IsPassOf self.deque result }
        ensures view { view result ≡ self.view }
        ensures live { IsLive self.view }
    {
        let Thief { handle: _, pass } = self;
        pass
    }
}
