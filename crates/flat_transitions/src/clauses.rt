//! What clauses say, where it stands in the tree.

ghost use Rattle.std.specs.Prelude.{◌≡◌};

use estelle_tree::{Const, DelayHigh, Expr, Name};
use std::marker::Model;

/// An interaction at an interaction point of the instance.
#[derive(Drop)]
pub struct When<'a> {
    ip: u32,
    name: &'a Name,
}

impl<'a> Model for When<'a> {
    ghost use Rattle.estelle_model.specs.Transitions as model;

    ghost Value = { model.When };

    ghost view = { λ w. record { ip = w.ip; name = w.name.now.word } };
}

impl<'a> When<'a> {
    pub fn of(ip: u32, name: &'a Name) -> When<'a>
        ensures { result ≡ record { ip = ip; name = name.now.word } }
    {
        When { ip, name }
    }

    pub fn share(&self) -> When<'a>
        ensures { result ≡ self.now }
    {
        When {
            ip: self.ip,
            name: self.name,
        }
    }

    /// The number of the interaction point.
    pub fn ip(&self) -> u32
        ensures { result ≡ self.now.ip }
    {
        self.ip
    }

    /// The name of the interaction.
    pub fn name(&self) -> &'a Name
        ensures { result.now.word ≡ self.now.name }
    {
        self.name
    }
}

/// What stands behind `provided`.
#[derive(Drop)]
pub struct Condition<'a> {
    expr: &'a Expr,
}

impl<'a> Model for Condition<'a> {
    ghost use Rattle.estelle_tree.specs.declared.tree.expression.Expr.{Expr};
    ghost use Rattle.estelle_tree.specs.contracts.tree.expression.Expr as codes_of;
    ghost use Rattle.std.specs.Coded.{codes};

    ghost Value = { Expr };

    ghost coded = { Prim.hlevel (codes, codes_of.the_row.coded) };

    ghost view = { λ c. c.expr.now };
}

impl<'a> Condition<'a> {
    pub fn of(expr: &'a Expr) -> Condition<'a>
        ensures { result ≡ expr.now }
    {
        Condition { expr }
    }

    pub fn get(&self) -> &'a Expr
        ensures { result.now ≡ self.now }
    {
        self.expr
    }
}

/// What stands behind `priority`.
#[derive(Drop)]
pub struct Priority<'a> {
    value: &'a Const,
}

impl<'a> Model for Priority<'a> {
    ghost use Rattle.estelle_tree.specs.declared.tree.type_expr.Const.{Const};

    ghost Value = { Const };

    ghost view = { λ p. p.value.now };
}

impl<'a> Priority<'a> {
    pub fn of(value: &'a Const) -> Priority<'a>
        ensures { result ≡ value.now }
    {
        Priority { value }
    }

    pub fn get(&self) -> &'a Const
        ensures { result.now ≡ self.now }
    {
        self.value
    }
}

/// What stands behind `delay`.
#[derive(Drop)]
pub struct Delay<'a> {
    low: &'a Expr,
    high: &'a Option<DelayHigh>,
}

impl<'a> Model for Delay<'a> {
    ghost use Rattle.estelle_model.specs.Transitions as model;
    ghost use Rattle.estelle_tree.specs.contracts.tree.expression.Expr as of_expressions;
    ghost use Rattle.std.specs.Coded.{codes};

    ghost Value = { model.Delay };

    ghost coded = { Prim.hlevel (codes, of_expressions.the_row.coded) };

    ghost view = { λ d. record { low = d.low.now; high = d.high.now } };
}

impl<'a> Delay<'a> {
    pub fn of(low: &'a Expr, high: &'a Option<DelayHigh>) -> Delay<'a>
        ensures { result ≡ record { low = low.now; high = high.now } }
    {
        Delay { low, high }
    }

    pub fn low(&self) -> &'a Expr
        ensures { result.now ≡ self.now.low }
    {
        self.low
    }

    pub fn high(&self) -> &'a Option<DelayHigh>
        ensures { result.now ≡ self.now.high }
    {
        self.high
    }
}
