//! The bodies of a specification in text order.

ghost use Rattle.std.specs.Prelude.{◌≡◌, ◌++◌, IfOk, OnOk, map};
ghost use Rattle.std.specs.List.{flat_map};
ghost use Rattle.flat_transitions.specs.Flat.{with_chosen};
ghost use Rattle.flat_transitions.specs.FlatList as flat;
ghost use Rattle.flat_transitions.specs.BodyWalks.{trans_list, decl_trans, parts_trans};

use crate::entries::numbered;
use crate::flat::{Flat, FlatTrans};
use crate::walk::transitions;
use estelle_tree::{Decl, Items, Parts, Sequence, Spec, Trans};
use meaning_table::Table;
use std::alloc::AllocError;

fn body_list(table: &Table, trans: &[Trans]) -> Result<Items<FlatTrans>, AllocError>
    ensures { IfOk result (λ shown. shown ≡ trans_list (with_chosen table.now) trans.now) }
{
    let found = transitions(table, trans)?;
    numbered(table.alloc, &found)
}

#[cycle(lists)]
fn parts_list(
    table: &Table,
    parts: &Parts,
    out: &mut Items<Items<FlatTrans>>,
) -> Result<(), AllocError>
    ensures { OnOk result (out.new ≡ out.old ++ map (trans_list (with_chosen table.now)) (parts_trans parts.now)) }
{
    out.push(body_list(table, parts.trans.items())?)?;
    decls_list(table, parts.decls.items(), out)
}

#[cycle(lists)]
fn decls_list(
    table: &Table,
    decls: &[Decl],
    out: &mut Items<Items<FlatTrans>>,
) -> Result<(), AllocError>
    ensures { OnOk result (out.new ≡ out.old ++ flat_map (λ d. map (trans_list (with_chosen table.now)) (decl_trans d)) decls.now) }
{
    for decl in decls {
        decl_list(table, decl, out)?;
    }
    Ok(())
}

#[cycle(lists)]
fn decl_list(
    table: &Table,
    decl: &Decl,
    out: &mut Items<Items<FlatTrans>>,
) -> Result<(), AllocError>
    ensures { OnOk result (out.new ≡ out.old ++ map (trans_list (with_chosen table.now)) (decl_trans decl.now)) }
{
    match decl {
        Decl::Body(body) => parts_list(table, &body.parts, out),
        _ => Ok(()),
    }
}

/// The list by what names mean.
#[tactic(auto, using(crate::proofs::Standings::all_listed))]
pub fn listed(table: &Table, spec: &Spec) -> Result<Flat, AllocError>
    ensures { IfOk result (λ list. list ≡ flat.listed (with_chosen table.now) spec.now) }
{
    let mut bodies = Items::new(table.alloc);
    parts_list(table, &spec.parts, &mut bodies)?;
    Ok(Flat { bodies })
}
