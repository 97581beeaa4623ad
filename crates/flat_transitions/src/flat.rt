//! The flat transitions of a specification, by where they stand in its text.

ghost use Rattle.std.specs.Prelude.{◌≡◌, IfOk};
ghost use Rattle.std.specs.Option.{option_copied};
ghost use Rattle.flat_transitions.specs.FromStates.{states_of};

use crate::states::States;
use estelle_tree::{Items, Span, Word};
use std::alloc::{AllocError, Global};
use std::marker::Model;

/// The flat transitions of each body, numbered from 0 (the specification) in text order.
pub struct Flat {
    pub bodies: Items<Items<FlatTrans>>,
}

impl Drop for Flat {
    fn drop(self) {
        let Flat { bodies: _ } = self;
    }
}

/// A transition without nested clauses and without `any` (ISO/IEC 9074): the clauses on the way to a
/// block, for one choice of values. Spans are those of the nodes.
#[derive(Drop)]
pub struct FlatTrans {
    /// Its number in its body, from 1.
    pub number: u32,
    pub from: FromStates,
    /// None: the state stays.
    pub to: Option<u32>,
    /// The ip's number as in `IpAddr`, and the interaction's name.
    pub when: Option<(u32, Word)>,
    pub provided: Option<Span>,
    pub priority: Option<i64>,
    pub delay: Option<(Span, Limit)>,
    /// The ordinals of the chosen values, in the order of their names.
    pub any: Items<i64>,
    pub block: Span,
}

/// The second value of a `delay` clause.
#[derive(Clone, Copy, Debug, PartialEq, Eq)]
pub enum Limit {
    /// None is written: the first value again.
    Same,
    At(Span),
    /// `*`
    Never,
}

/// States numbered from 0 in declaration order, as the list of a `from` clause; empty where there is no such clause, for
/// every state. All transitions under one clause share it.
#[derive(Drop)]
pub struct FromStates {
    states: Option<States>,
}

impl Model for FromStates {
    ghost use Rattle.std.specs.Prelude.{ℕ, List};
    ghost use Rattle.flat_transitions.specs.FromStates.{states_of};

    ghost Value = { List ℕ };

    ghost view = { λ f. states_of f.states };
}

impl FromStates {
    /// One owner more of the list under the clause; fails where no further owner can be counted.
    pub fn of(states: Option<&States>) -> Result<FromStates, AllocError>
        ensures { IfOk result (λ from. from ≡ states_of (option_copied states.entry)) }
    {
        match states {
            None => Ok(FromStates { states: None }),
            Some(states) => Ok(FromStates {
                states: Some(states.share()?),
            }),
        }
    }

    /// As a list of its own.
    pub fn listed(&self, alloc: Global) -> Result<Items<u32>, AllocError>
        ensures { IfOk result (λ states. states ≡ self.now) }
    {
        match &self.states {
            None => Ok(Items::new(alloc)),
            Some(states) => states.listed(alloc),
        }
    }
}
