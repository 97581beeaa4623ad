//! A flat transition, and a list of them.

ghost use Rattle.std.specs.Prelude.{◌≡◌, ◌++◌, ◌∷◌, [], OnOk, length, slice_get};
ghost use Rattle.std.specs.Option.{option_copied};
ghost use Rattle.flat_transitions.specs.Flat.{with_chosen};
ghost use Rattle.flat_transitions.specs.Walks.{variant};

use crate::choice::Choice;
use crate::clauses::{Delay, When};
use crate::in_force::ClausesInForce;
use crate::priority::priority_by;
use crate::shared::Shared;
use crate::states::States;
use estelle_model::Type;
use estelle_tree::{Block, Expr, Items, Sequence};
use meaning_table::Table;
use std::alloc::{AllocError, Global};
use std::marker::Model;

/// A flat transition.
#[derive(Drop)]
pub struct Transition<'a> {
    said: ClausesInForce<'a>,
    chosen: Shared<Choice>,
    priority: Option<i64>,
    block: &'a Block,
}

impl<'a> Model for Transition<'a> {
    ghost use Rattle.estelle_model.specs.Transitions as model;
    ghost use Rattle.pascal_values.specs.contracts.value.Value as of_values;
    ghost use Rattle.estelle_model.specs.contracts.denoter.Denoter as of_denoters;
    ghost use Rattle.estelle_tree.specs.contracts.tree.expression.Expr as of_expressions;
    ghost use Rattle.estelle_tree.specs.contracts.tree.clause.Block as of_blocks;
    ghost use Rattle.std.specs.Coded.{codes};

    ghost Value = { model.Transition };

    ghost coded = { Prim.hlevel (codes, of_values.the_row.coded, of_denoters.the_row.coded, of_expressions.the_row.coded, of_blocks.the_row.coded) };

    ghost view = { λ t. record { from = t.said.from; to = t.said.to; when = t.said.when; received = t.said.received; provided = t.said.provided; priority = t.priority; delay = t.said.delay; chosen = t.chosen; block = t.block.now } };
}

impl<'a> Transition<'a> {
    /// The transition of a block of which this is said, for a choice of values.
    pub fn of(
        table: &Table,
        said: ClausesInForce<'a>,
        chosen: Shared<Choice>,
        block: &'a Block,
    ) -> Transition<'a>
        ensures { result ≡ variant (with_chosen table.now) said.entry block.now chosen }
    {
        let priority = priority_by(table, chosen.items(), &said.priority);
        Transition {
            said,
            chosen,
            priority,
            block,
        }
    }

    /// The states in which it is enabled; none stands for every state.
    pub fn from(&self) -> Option<&States>
        ensures { option_copied result ≡ self.now.from }
    {
        self.said.from.as_ref()
    }

    /// The state after it; none keeps the state.
    pub fn to(&self) -> Option<u32>
        ensures { result ≡ self.now.to }
    {
        self.said.to
    }

    /// What it receives.
    pub fn when(&self) -> Option<&When<'a>>
        ensures { option_copied result ≡ self.now.when }
    {
        self.said.when.as_ref()
    }

    /// The types of the parameters of what it receives.
    pub fn received(&self) -> &[Type]
        ensures { result.now ≡ self.now.received }
    {
        self.said.received.items()
    }

    pub fn provided(&self) -> Option<&'a Expr>
        ensures { option_copied result ≡ self.now.provided }
    {
        match &self.said.provided {
            None => None,
            Some(condition) => Some(condition.get()),
        }
    }

    /// A smaller number is a higher priority.
    pub fn priority(&self) -> Option<i64>
        ensures { result ≡ self.now.priority }
    {
        self.priority
    }

    pub fn delay(&self) -> Option<&Delay<'a>>
        ensures { option_copied result ≡ self.now.delay }
    {
        self.said.delay.as_ref()
    }

    /// The values that are chosen for the names of `any`, in the order of the names.
    pub fn chosen(&self) -> &[Choice]
        ensures { result.now ≡ self.now.chosen }
    {
        self.chosen.items()
    }

    pub fn block(&self) -> &'a Block
        ensures { result.now ≡ self.now.block }
    {
        self.block
    }
}

/// Flat transitions in text order, no more than `u32` has numbers for, from 1 on.
pub struct Transitions<'a> {
    items: Items<Transition<'a>>,
}

impl Drop for Transitions<'_> {
    fn drop(self) {
        let Transitions { items: _ } = self;
    }
}

impl<'a> Model for Transitions<'a> {
    ghost use Rattle.std.specs.Prelude.{List, length, ◌≤◌, ◌^◌, ◌-◌};
    ghost use Rattle.estelle_model.specs.Transitions as model;
    ghost use Rattle.pascal_values.specs.contracts.value.Value as of_values;
    ghost use Rattle.estelle_model.specs.contracts.denoter.Denoter as of_denoters;
    ghost use Rattle.estelle_tree.specs.contracts.tree.expression.Expr as of_expressions;
    ghost use Rattle.estelle_tree.specs.contracts.tree.clause.Block as of_blocks;
    ghost use Rattle.std.specs.Coded.{codes};

    ghost Value = { List model.Transition };

    ghost coded = { Prim.hlevel (codes, of_values.the_row.coded, of_denoters.the_row.coded, of_expressions.the_row.coded, of_blocks.the_row.coded) };

    ghost view = { λ t. t.items };

    ghost invariant = { λ t. length t.items ≤ 2 ^ 32 - 1 };
}

impl<'a> Transitions<'a> {
    pub fn new(alloc: Global) -> Transitions<'a>
        ensures { result ≡ [] }
    {
        Transitions {
            items: Items::new(alloc),
        }
    }

    pub fn push(&mut self, transition: Transition<'a>) -> Result<(), AllocError>
        ensures { OnOk result (self.new ≡ self.old ++ transition.entry ∷ []) }
    {
        if self.items.len() >= u32::MAX as usize {
            return Err(AllocError);
        }
        self.items.push(transition)
    }

    pub fn len(&self) -> u32
        ensures { result ≡ length self.now }
    {
        self.items.len() as u32
    }

    pub fn items(&self) -> &[Transition<'a>]
        ensures { result.now ≡ self.now }
    {
        self.items.items()
    }

    /// The transition with a number, counted from 0.
    pub fn get(&self, number: u32) -> Option<&Transition<'a>>
        ensures { option_copied result ≡ slice_get self.now number }
    {
        self.items.get(number as usize)
    }
}
