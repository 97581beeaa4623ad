//! From `trans` down to the blocks.

ghost use Rattle.std.specs.Prelude.{◌≡◌, ◌++◌, IfOk, OnOk};
ghost use Rattle.std.specs.List.{flat_map};
ghost use Rattle.flat_transitions.specs.Flat as flat;
ghost use Rattle.flat_transitions.specs.Walks.{reached, below, below_group};

use crate::in_force::ClausesInForce;
use crate::naming::Naming;
use crate::transition::{Transition, Transitions};
use estelle_tree::{Block, Group, Sequence, Trans, TransBody};
use meaning_table::Table;
use std::alloc::AllocError;

/// The transitions of one block, for each choice of values.
fn push_variants<'a>(
    table: &Table,
    said: &ClausesInForce<'a>,
    block: &'a Block,
    out: &mut Transitions<'a>,
) -> Result<(), AllocError>
    ensures { OnOk result (out.new ≡ out.old ++ reached (flat.with_chosen table.now) said.now block.now) }
{
    for chosen in said.choices.items() {
        out.push(Transition::of(table, said.share()?, chosen.share()?, block))?;
    }
    Ok(())
}

#[cycle(groups)]
fn trans_body<'a>(
    naming: &mut Naming,
    said: &ClausesInForce<'a>,
    body: &'a TransBody,
    out: &mut Transitions<'a>,
) -> Result<(), AllocError>
    ensures stays { naming.new ≡ naming.old }
    ensures found { OnOk result (out.new ≡ out.old ++ below (flat.with_chosen naming.old) said.now body.now) }
{
    match body {
        TransBody::Block(block) => push_variants(naming.table(), said, block, out),
        TransBody::Groups { groups: inner, .. } => groups(naming, said, inner.items(), out),
    }
}

#[cycle(groups)]
fn groups<'a>(
    naming: &mut Naming,
    said: &ClausesInForce<'a>,
    groups: &'a [Group],
    out: &mut Transitions<'a>,
) -> Result<(), AllocError>
    ensures stays { naming.new ≡ naming.old }
    ensures found { OnOk result (out.new ≡ out.old ++ flat_map (below_group (flat.with_chosen naming.old) said.now) groups.now) }
{
    for inner in groups {
        group(naming, said, inner, out)?;
    }
    Ok(())
}

#[cycle(groups)]
fn group<'a>(
    naming: &mut Naming,
    said: &ClausesInForce<'a>,
    group: &'a Group,
    out: &mut Transitions<'a>,
) -> Result<(), AllocError>
    ensures stays { naming.new ≡ naming.old }
    ensures found { OnOk result (out.new ≡ out.old ++ below_group (flat.with_chosen naming.old) said.now group.now) }
{
    let said = said.with(naming, &group.clause)?;
    trans_body(naming, &said, &group.body, out)
}

/// The flat transitions behind each `trans`, in text order, and for one block in the order of the chosen values, the last
/// name fastest.
#[tactic(auto, using(crate::proofs::Flattened::all_flattened))]
pub fn transitions<'a>(
    table: &Table,
    transitions: &'a [Trans],
) -> Result<Transitions<'a>, AllocError>
    ensures { IfOk result (λ found. found ≡ flat.transitions_in (flat.with_chosen table.now) transitions.now) }
{
    let said = ClausesInForce::nothing(table.alloc)?;
    let mut naming = Naming::new(table);
    let mut found = Transitions::new(table.alloc);
    for trans in transitions {
        trans_body(&mut naming, &said, &trans.body, &mut found)?;
    }
    Ok(found)
}
