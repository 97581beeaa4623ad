//! A value that is chosen for a name of `any`.

ghost use Rattle.std.specs.Prelude.{◌≡◌};
ghost use Rattle.flat_transitions.specs.Choices as spec;

use estelle_model::{Host, has_value, value_at};
use pascal_values::Value;
use std::marker::Model;

/// A chosen value by its ordinal, and the place of the name. It is unset where the host type has no such ordinal.
#[derive(Drop)]
pub struct Choice {
    at: u32,
    host: Host,
    ordinal: i64,
}

impl Model for Choice {
    ghost use Rattle.estelle_model.specs.Transitions as model;
    ghost use Rattle.flat_transitions.specs.Choices.{chosen_value};
    ghost use Rattle.pascal_values.specs.contracts.value.Value as of_values;
    ghost use Rattle.std.specs.Coded.{codes};

    ghost Value = { model.Choice };

    ghost coded = { Prim.hlevel (codes, of_values.the_row.coded) };

    ghost view = { λ c. record { at = c.at; value = chosen_value c.host c.ordinal; host = c.host } };
}

impl Choice {
    pub fn of(at: u32, host: Host, ordinal: i64) -> Choice
        ensures { result ≡ record { at = at; value = spec.chosen_value host ordinal; host = host } }
    {
        Choice { at, host, ordinal }
    }

    pub fn again(&self) -> Choice
        ensures { result ≡ self.now }
    {
        Choice {
            at: self.at,
            host: self.host,
            ordinal: self.ordinal,
        }
    }

    /// The place of the name.
    pub fn at(&self) -> u32
        ensures { result ≡ self.now.at }
    {
        self.at
    }

    /// The host type of the name's domain.
    pub fn host(&self) -> Host
        ensures { result ≡ self.now.host }
    {
        self.host
    }

    pub fn value(&self) -> Value
        ensures { result ≡ self.now.value }
    {
        if has_value(self.host, self.ordinal) {
            value_at(self.host, self.ordinal)
        } else {
            Value::Unset
        }
    }
}
