//! Programs: specifications with what is known of them before any instance runs.

ghost use Rattle.std.specs.Prelude.{◌≡◌, option_map, option_and_then, slice_get, length, IfOk};
ghost use Rattle.std.specs.Option.{option_copied};
ghost use Rattle.estelle_model.specs.Subject.{body, ips_of, transitions, transition};
ghost use Rattle.estelle_model.specs.Attributes.{attribute};
ghost use Rattle.estelle_model.specs.InteractionPoints.{internal_at};
ghost use Rattle.estelle_model.specs.Queues.{common_at};
ghost use Rattle.body_program.specs.Told.{flat_at};
ghost use Rattle.body_program.specs.Programs.{known_of, block_in};

use crate::flat::BodyTransitions;
use crate::standings::{Standings, all_standings};
use body_state::ModuleBodies;
use body_table::meanings;
use estelle_model::{Attribute, Routine};
use estelle_tree::{Items, Names, Sequence, Spec};
use flat_transitions::Transition;
use meaning_table::Table;
use std::alloc::{AllocError, Global};
use std::marker::Model;

/// A specification, seen with what its names mean.
pub struct Program<'a> {
    table: Table<'a>,
    bodies: ModuleBodies<'a>,
    /// Of each body.
    transitions: Items<BodyTransitions<'a>>,
}

impl Drop for Program<'_> {
    fn drop(self) {
        let Program {
            table: _,
            bodies: _,
            transitions: _,
        } = self;
    }
}

impl<'a> Model for Program<'a> {
    ghost use Rattle.std.specs.Coded.{codes};
    ghost use Rattle.estelle_tree.specs.contracts.tree.specification.Spec as of_specs;
    ghost use Rattle.estelle_model.specs.Subject.{Subject};

    ghost Value = { Subject };

    ghost coded = { Prim.hlevel (codes, of_specs.the_row.coded) };

    ghost use Rattle.body_program.specs.Programs.{HoldsAll};

    ghost view = { λ p. p.bodies };

    ghost invariant = { HoldsAll };
}

impl<'a> Program<'a> {
    pub fn new(alloc: Global, spec: &'a Spec, names: &'a Names) -> Result<Program<'a>, AllocError>
        ensures { IfOk result (λ program. program ≡ record { specification = spec.now; names = names.now.uses }) }
    {
        let table = meanings(alloc, spec, names)?;
        let all = all_standings(&table, spec)?;
        let Standings {
            bodies,
            transitions,
        } = all;
        Ok(Program {
            table,
            bodies: ModuleBodies::new(spec, names, bodies),
            transitions,
        })
    }

    /// What its names mean.
    pub fn table(&self) -> &Table<'a>
        ensures { result.now ≡ known_of self.now }
    {
        &self.table
    }

    /// Its bodies.
    pub fn bodies(&self) -> &ModuleBodies<'a>
        ensures { result.now ≡ self.now }
    {
        &self.bodies
    }

    /// The transitions of the body with a number.
    fn of_body(&self, number: u32) -> Option<&BodyTransitions<'a>>
        ensures { option_copied result ≡ option_map (flat_at (known_of self.now)) (body self.now number) }
    {
        self.transitions.get(number as usize)
    }

    /// How many transitions the body with a number has.
    pub fn transitions(&self, number: u32) -> u32
        ensures { result ≡ length (transitions self.now number) }
    {
        match self.of_body(number) {
            None => 0,
            Some(flat) => flat.transitions.len(),
        }
    }

    /// The transition of a body, both by their numbers; transitions are counted from 1.
    pub fn transition(&self, number: u32, trans: u32) -> Option<&Transition<'a>>
        ensures { option_copied result ≡ transition self.now number trans }
    {
        match self.of_body(number) {
            None => None,
            Some(flat) => flat.transition(trans),
        }
    }

    /// The block of that transition.
    pub fn block(&self, number: u32, trans: u32) -> Option<&Routine<'a>>
        ensures { option_copied result ≡ option_map (block_in self.now) (transition self.now number trans) }
    {
        match self.of_body(number) {
            None => None,
            Some(flat) => flat.block(trans),
        }
    }

    /// Whether an interaction point of a body shares the common queue of its instance, both by their numbers.
    pub fn is_common(&self, number: u32, ip: u32) -> bool
        ensures { result ≡ common_at (slice_get (ips_of self.now number) ip) }
    {
        match self.bodies.get(number) {
            None => false,
            Some(body) => match body.ips.get(ip as usize) {
                None => false,
                Some(point) => point.common,
            },
        }
    }

    /// How many interaction points the body with a number has.
    pub fn points(&self, number: u32) -> usize
        ensures { result ≡ length (ips_of self.now number) }
    {
        self.bodies.ips(number).len()
    }

    /// The attribute of the body with a number.
    pub fn attribute(&self, number: u32) -> Option<Attribute>
        ensures { result ≡ option_and_then (λ b. attribute self.now number) (body self.now number) }
    {
        match self.bodies.get(number) {
            None => None,
            Some(body) => body.attribute,
        }
    }

    /// Whether a body declares an interaction point for itself, and not in its header, both by their numbers.
    pub fn is_internal(&self, number: u32, ip: u32) -> bool
        ensures { result ≡ internal_at (slice_get (ips_of self.now number) ip) }
    {
        match self.bodies.ips(number).get(ip as usize) {
            None => false,
            Some(point) => !point.external,
        }
    }

    /// The interaction point at which a transition receives, if it has a `when`.
    pub fn received_at(&self, number: u32, trans: u32) -> Option<u32>
        ensures { result ≡ option_and_then (λ t. option_map (λ w. w.ip) t.when) (transition self.now number trans) }
    {
        match self.transition(number, trans) {
            None => None,
            Some(transition) => match transition.when() {
                None => None,
                Some(when) => Some(when.ip()),
            },
        }
    }
}
