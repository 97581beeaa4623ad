//! The bodies of a specification where they stand in its tree, an outer one before those in it.

ghost use Rattle.std.specs.Prelude.{◌≡◌, ◌++◌, ◌∷◌, [], map, IfOk, OnOk};
ghost use Rattle.std.specs.List.{flat_map};
ghost use Rattle.estelle_tree.specs.declared.tree.specification.Parts.{out-Parts};
ghost use Rattle.body_table.specs.Standings as stand;
ghost use Rattle.body_program.specs.Chosen.{transitions_by};
ghost use Rattle.body_program.specs.Told.{has_some, told, inner_body, bodies_in, flat_at, flats_in, root_part, all_told, all_flat};

use crate::flat::{BodyTransitions, body_transitions};
use crate::headings::{HeaderPart, header_part, no_part};
use crate::own::{module_headers, push_points};
use crate::routines::initialization;
use body_state::ModuleBody;
use body_table::{default_of, push_variable_types, system_attribute};
use estelle_tree::{Body, Decl, Items, Parts, Sequence, Spec};
use meaning_table::{Table, behind};
use std::alloc::{AllocError, Global};

/// Bodies, and the transitions of each.
#[derive(Drop)]
pub struct Standings<'a> {
    pub bodies: Items<ModuleBody<'a>>,
    pub transitions: Items<BodyTransitions<'a>>,
}

/// A body by what it has of its header and by what stands in it.
fn module_body<'a>(
    table: &Table,
    by_default: bool,
    part: HeaderPart,
    has_transitions: bool,
    parts: &'a Parts,
) -> Result<ModuleBody<'a>, AllocError>
    ensures { IfOk result (λ body. body ≡ told table.now by_default part has_transitions parts.now) }
{
    let decls = parts.decls.items();
    let HeaderPart {
        at,
        attribute,
        parameters,
        variables,
        ips,
    } = part;
    let mut variables = variables;
    let mut ips = ips;
    let external = behind(0, ips.len())?;
    push_variable_types(table, decls, &mut variables)?;
    push_points(table, by_default, decls, &mut ips)?;
    let module_headers = module_headers(table, decls)?;
    Ok(ModuleBody {
        header: at,
        attribute,
        has_transitions,
        parameters,
        variables,
        module_variables: module_headers.len(),
        module_headers,
        ips,
        external,
        initialization: initialization(table, &parts.init)?,
    })
}

/// A body without those in it.
fn push_standing<'a>(
    table: &Table,
    by_default: bool,
    part: HeaderPart,
    parts: &'a Parts,
    out: &mut Standings<'a>,
) -> Result<(), AllocError>
    ensures { OnOk result (let flat = transitions_by table.now (out-Parts parts.now).trans in (out.new.bodies ≡ out.old.bodies ++ told table.now by_default part (has_some flat) parts.now ∷ []) × (out.new.transitions ≡ out.old.transitions ++ flat ∷ [])) }
{
    let transitions = body_transitions(table, parts.trans.items())?;
    let body = module_body(table, by_default, part, !transitions.is_empty(), parts)?;
    out.bodies.push(body)?;
    out.transitions.push(transitions)
}

#[cycle(standings)]
fn push_body<'a>(
    table: &Table,
    by_default: bool,
    body: &'a Body,
    out: &mut Standings<'a>,
) -> Result<(), AllocError>
    ensures { OnOk result ((out.new.bodies ≡ out.old.bodies ++ map (inner_body table.now by_default) (stand.body by_default body.now)) × (out.new.transitions ≡ out.old.transitions ++ map (flat_at table.now) (stand.body by_default body.now))) }
{
    let part = header_part(table, &body.header)?;
    push_standing(table, by_default, part, &body.parts, out)?;
    push_inner(table, by_default, body.parts.decls.items(), out)
}

#[cycle(standings)]
fn push_inner<'a>(
    table: &Table,
    by_default: bool,
    decls: &'a [Decl],
    out: &mut Standings<'a>,
) -> Result<(), AllocError>
    ensures { OnOk result ((out.new.bodies ≡ out.old.bodies ++ flat_map (bodies_in table.now by_default) decls.now) × (out.new.transitions ≡ out.old.transitions ++ flat_map (flats_in table.now by_default) decls.now)) }
{
    for decl in decls {
        push_bodies_of(table, by_default, decl, out)?;
    }
    Ok(())
}

#[cycle(standings)]
fn push_bodies_of<'a>(
    table: &Table,
    by_default: bool,
    decl: &'a Decl,
    out: &mut Standings<'a>,
) -> Result<(), AllocError>
    ensures { OnOk result ((out.new.bodies ≡ out.old.bodies ++ bodies_in table.now by_default decl.now) × (out.new.transitions ≡ out.old.transitions ++ flats_in table.now by_default decl.now)) }
{
    match decl {
        Decl::Body(body) => push_body(table, by_default, body, out),
        _ => Ok(()),
    }
}

/// The specification has no header, and an attribute of its own.
fn root_part(alloc: Global, tree: &Spec) -> HeaderPart
    ensures { result ≡ root_part tree.now }
{
    let mut part = no_part(alloc);
    if let Some(attr) = tree.attr {
        part.attribute = Some(system_attribute(attr));
    }
    part
}

/// All bodies of a specification in the order of their numbers.
pub fn all_standings<'a>(table: &Table, tree: &'a Spec) -> Result<Standings<'a>, AllocError>
    ensures { IfOk result (λ all. (all.bodies ≡ all_told table.now tree.now) × (all.transitions ≡ all_flat table.now tree.now)) }
{
    let by_default = default_of(tree.heads.items());
    let mut all = Standings {
        bodies: Items::new(table.alloc),
        transitions: Items::new(table.alloc),
    };
    let part = root_part(table.alloc, tree);
    push_standing(table, by_default, part, &tree.parts, &mut all)?;
    push_inner(table, by_default, tree.parts.decls.items(), &mut all)?;
    Ok(all)
}
