//! Bodies and specifications.

ghost use Rattle.std.specs.Prelude.{◌≡◌, ◌++◌, IfOk, OnOk};
ghost use Rattle.std.specs.List.{flat_map};
ghost use Rattle.type_rules.specs.SpecificationSites as spec;

use crate::node::{place_chain, place_node};
use declaration_table::Table;
use estelle_tree::{Decl, Init, Items, Parts, Routine, RoutineForm, Sequence, Spec, Trans};
use std::alloc::{AllocError, Global};
use type_rules::{Place, PlacedSite, RoutineAt};

/// In this body and in no routine.
fn in_body(body: u32) -> Place
    ensures { result ≡ spec.in_body body }
{
    Place {
        body,
        routine: None,
    }
}

fn is_function(form: &RoutineForm) -> bool
    ensures { result ≡ spec.is_function form.now }
{
    match form {
        RoutineForm::Procedure => false,
        RoutineForm::Function { .. } => true,
    }
}

/// In a routine of this body.
fn in_routine(body: u32, routine: &Routine) -> Place
    ensures { result ≡ spec.in_routine body routine.now }
{
    Place {
        body,
        routine: Some(RoutineAt {
            span: routine.span,
            name: routine.name.span,
            is_function: is_function(&routine.form),
        }),
    }
}

fn init_sites(
    table: &Table,
    init: &Option<Init>,
    at: u32,
    out: &mut Items<PlacedSite>,
) -> Result<(), AllocError>
    ensures { OnOk result (out.new ≡ out.old ++ spec.placed (spec.in_body at) ((spec.init_part init.now).sites table.now)) }
{
    match init {
        None => Ok(()),
        Some(init) => place_node(&init.block, in_body(at), table, out),
    }
}

fn trans_sites(
    table: &Table,
    transitions: &[Trans],
    at: u32,
    out: &mut Items<PlacedSite>,
) -> Result<(), AllocError>
    ensures { OnOk result (out.new ≡ out.old ++ flat_map (λ x. spec.placed (spec.in_body at) ((spec.trans_body x.body).sites table.now)) transitions.now) }
{
    for trans in transitions {
        place_node(trans, in_body(at), table, out)?;
    }
    Ok(())
}

#[cycle(bodies)]
fn parts(
    table: &Table,
    parts: &Parts,
    at: u32,
    out: &mut Items<PlacedSite>,
) -> Result<(), AllocError>
    ensures { OnOk result (out.new ≡ out.old ++ (spec.parts parts.now).sites table.now at) }
{
    decls(table, parts.decls.items(), at, out)?;
    init_sites(table, &parts.init, at, out)?;
    trans_sites(table, parts.trans.items(), at, out)
}

#[cycle(bodies)]
fn decls(
    table: &Table,
    decls: &[Decl],
    at: u32,
    out: &mut Items<PlacedSite>,
) -> Result<(), AllocError>
    ensures { OnOk result (out.new ≡ out.old ++ flat_map (λ d. (spec.decl d).sites table.now at) decls.now) }
{
    for inner in decls {
        decl(table, inner, at, out)?;
    }
    Ok(())
}

#[cycle(bodies)]
fn decl(table: &Table, decl: &Decl, at: u32, out: &mut Items<PlacedSite>) -> Result<(), AllocError>
    ensures { OnOk result (out.new ≡ out.old ++ (spec.decl decl.now).sites table.now at) }
{
    match decl {
        Decl::Const { defs, .. } => place_chain(defs.items(), in_body(at), table, out),
        Decl::Types { defs, .. } => place_chain(defs.items(), in_body(at), table, out),
        Decl::Header(header) => place_chain(header.exports.items(), in_body(at), table, out),
        // What stands in a body stands in it alone.
        Decl::Body(body) => parts(table, &body.parts, body.span.start, out),
        Decl::Var { vars, .. } => place_chain(vars.items(), in_body(at), table, out),
        Decl::Routine(routine) => place_node(routine, in_routine(at, routine), table, out),
        Decl::Channel(_)
        | Decl::Ip { .. }
        | Decl::Modvar { .. }
        | Decl::State { .. }
        | Decl::Stateset { .. } => Ok(()),
    }
}

/// Where rules on types and routines speak of a specification whose names mean what the table says.
pub fn sites(alloc: Global, tree: &Spec, table: &Table) -> Result<Items<PlacedSite>, AllocError>
    ensures { IfOk result (λ found. found ≡ (spec.parts tree.now.parts).sites table.now tree.now.span.start) }
{
    let mut out = Items::new(alloc);
    parts(table, &tree.parts, tree.span.start, &mut out)?;
    Ok(out)
}
