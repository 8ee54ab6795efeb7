ghost use Rattle.std.specs.Prelude.{[]};
ghost use Rattle.node_deques.specs.declared.view.NodeTerms.{NodeTerms};
ghost use Rattle.node_deques.specs.Rule.{HoldsBetweenSteps};
ghost use Rattle.node_deques.specs.Steps.{Accepts, Pops, Takes, HasAllTaken};
ghost use Rattle.node_deques.specs.Views.{new_view, spent_view, with_terms, with_thief, thief_view, joint_view};

use crate::node::DequeNode;
use crate::view::DequeView;
use crossbeam_deque::protocol::{Join, Outcome, Protocol, Split};
use std::marker::{Brand, PhantomData};

/// The rule of a deque, which every kind of step keeps.
pub struct DequeRule;

impl Protocol<DequeNode, DequeView> for DequeRule {
    ghost holds = { HoldsBetweenSteps };

    ghost first = { new_view [] };

    ghost guest = { spent_view };
}

/// A push.
pub(crate) struct Push;

impl Outcome<DequeNode, DequeView> for Push {
    ghost then = { Accepts };
}

/// A pop. Where there is nothing to take, the owner learns of all that was taken.
pub(crate) struct Pop;

impl Outcome<DequeNode, DequeView> for Pop {
    ghost then = { Pops };

    ghost empty = { HasAllTaken };
}

/// A steal.
pub(crate) struct TakeFirst;

impl Outcome<DequeNode, DequeView> for TakeFirst {
    ghost then = { Takes };
}

/// The terms that are added, which the caller of the step picks.
pub(crate) trait Agreed {
    ghost terms: { NodeTerms };
}

impl Agreed for Brand {
    ghost terms = { record { project = record { activities = []; capacities = []; budgets = []; calendar = [] }; from = 0; to = 0 } };
}

/// New terms of a deque that has accepted nothing. What is split off the owner's pass counts for nothing.
pub(crate) struct AgreeOn<A> {
    terms: PhantomData<A>,
}

impl<A: Agreed> Split<DequeView> for AgreeOn<A> {
    ghost left = { λ v. with_terms A.terms v };

    ghost right = { λ _. spent_view };
}

/// A split of a thief's pass.
pub(crate) struct SplitThief;

impl Split<DequeView> for SplitThief {
    ghost left = { with_thief };

    ghost right = { thief_view };
}

/// A join of a thief's pass into the owner's.
pub(crate) struct JoinThief;

impl Join<DequeView> for JoinThief {
    ghost both = { joint_view };

    ghost spent = { spent_view };
}
