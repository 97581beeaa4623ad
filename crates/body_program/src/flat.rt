//! The flat transitions of a body, with their blocks.

ghost use Rattle.std.specs.Prelude.{◌≡◌, map, IfOk};
ghost use Rattle.std.specs.Option.{option_copied};
ghost use Rattle.estelle_model.specs.Attributes.{is_empty};
ghost use Rattle.estelle_model.specs.Subject.{numbered_one};
ghost use Rattle.body_program.specs.Chosen.{block_by, block_numbered, transitions_by};

use crate::choices::with_choices;
use crate::routines::routine_of;
use estelle_model::Routine;
use estelle_tree::{Items, Sequence, Trans};
use flat_transitions::{Transition, Transitions, transitions};
use meaning_table::Table;
use std::alloc::AllocError;

/// The flat transitions of a body, and the block of each.
pub struct BodyTransitions<'a> {
    pub transitions: Transitions<'a>,
    pub blocks: Items<Routine<'a>>,
}

impl Drop for BodyTransitions<'_> {
    fn drop(self) {
        let BodyTransitions {
            transitions: _,
            blocks: _,
        } = self;
    }
}

impl<'a> BodyTransitions<'a> {
    pub fn is_empty(&self) -> bool
        ensures { result ≡ is_empty self.now.transitions }
    {
        match self.transitions.items() {
            [] => true,
            _ => false,
        }
    }

    /// The transition with a number, counted from 1.
    pub fn transition(&self, number: u32) -> Option<&Transition<'a>>
        ensures { option_copied result ≡ numbered_one self.now.transitions number }
    {
        if number == 0 {
            return None;
        }
        self.transitions.get(number - 1)
    }

    /// The block of that transition.
    pub fn block(&self, number: u32) -> Option<&Routine<'a>>
        ensures { option_copied result ≡ block_numbered self.now.blocks number }
    {
        if number == 0 {
            return None;
        }
        self.blocks.get((number - 1) as usize)
    }
}

/// The block of a transition, where the names of `any` have its values.
fn block_of<'a>(table: &Table, transition: &Transition<'a>) -> Result<Routine<'a>, AllocError>
    ensures { IfOk result (λ routine. routine ≡ block_by table.now transition.now) }
{
    let over = with_choices(table, transition.chosen())?;
    routine_of(&over, transition.received(), transition.block())
}

fn blocks_of<'a>(
    table: &Table,
    transitions: &[Transition<'a>],
) -> Result<Items<Routine<'a>>, AllocError>
    ensures { IfOk result (λ blocks. blocks ≡ map (block_by table.now) transitions.now) }
{
    let mut blocks = Items::new(table.alloc);
    for transition in transitions {
        blocks.push(block_of(table, transition)?)?;
    }
    Ok(blocks)
}

/// The flat transitions behind each `trans` of a body, with their blocks.
pub fn body_transitions<'a>(
    table: &Table,
    trans: &'a [Trans],
) -> Result<BodyTransitions<'a>, AllocError>
    ensures { IfOk result (λ flat. flat ≡ transitions_by table.now trans.now) }
{
    let transitions = transitions(table, trans)?;
    let blocks = blocks_of(table, transitions.items())?;
    Ok(BodyTransitions {
        transitions,
        blocks,
    })
}
