//! Bodies, an outer one before those in it, and whole specifications.

ghost use Rattle.std.specs.Prelude.{◌≡◌, ◌+◌, ◌∷◌, length, IfOk, OnOk};
ghost use Rattle.std.specs.List.{flat_map};
ghost use Rattle.std.specs.Option.{option_copied};
ghost use Rattle.estelle_model.specs.Bodies as spec;
ghost use Rattle.estelle_model.specs.Subject.{declared_in};
ghost use Rattle.meaning_table.specs.Known.{declare_all};
ghost use Rattle.body_table.specs.Contributions.{bodies_of};
ghost use Rattle.body_table.specs.Standings as standings;

use crate::brought::declare_decls;
use crate::headers::default_of;
use crate::ways::declare_blocks;
use estelle_model::Meaning;
use estelle_tree::{Body, Decl, Name, Names, Parts, Sequence, Spec};
use meaning_table::{Table, behind};
use std::alloc::{AllocError, Global};

fn declare_name(table: &mut Table, number: u32, name: Option<&Name>) -> Result<(), AllocError>
    ensures { OnOk result (table.new ≡ declare_all table.old (spec.name_declares number (option_copied name.entry))) }
{
    match name {
        None => Ok(()),
        Some(name) => table.declare(name.span.start, Meaning::Body(number)),
    }
}

/// A body without those in it.
fn declare_standing<'a>(
    table: &mut Table<'a>,
    by_default: bool,
    number: u32,
    name: Option<&Name>,
    header: Option<&Name>,
    parts: &'a Parts,
) -> Result<(), AllocError>
    ensures { OnOk result (table.new ≡ declare_all table.old (spec.body_declares number (standings.standing by_default (option_copied name.entry) (option_copied header.entry) parts.now))) }
{
    declare_decls(table, by_default, header, parts.decls.items())?;
    declare_blocks(table, &parts.init, parts.trans.items())?;
    declare_name(table, number, name)
}

/// A body and then those in it, numbered from there. It answers the number behind them.
#[cycle(bodies)]
fn declare_parts<'a>(
    table: &mut Table<'a>,
    by_default: bool,
    number: u32,
    name: Option<&Name>,
    header: Option<&Name>,
    parts: &'a Parts,
) -> Result<u32, AllocError>
    ensures { IfOk result (λ next. let bodies = standings.standing by_default (option_copied name.entry) (option_copied header.entry) parts.now ∷ standings.inner_of by_default parts.now in (table.new ≡ declare_all table.old (spec.bodies_declare number bodies)) × (next ≡ number + length bodies)) }
{
    declare_standing(table, by_default, number, name, header, parts)?;
    let next = behind(number, 1)?;
    declare_inner(table, by_default, next, parts.decls.items())
}

#[cycle(bodies)]
fn declare_inner<'a>(
    table: &mut Table<'a>,
    by_default: bool,
    first: u32,
    decls: &'a [Decl],
) -> Result<u32, AllocError>
    ensures { IfOk result (λ next. (table.new ≡ declare_all table.old (spec.bodies_declare first (standings.inner by_default decls.now))) × (next ≡ first + length (standings.inner by_default decls.now))) }
{
    let mut number = first;
    for decl in decls {
        number = declare_bodies_of(table, by_default, number, decl)?;
    }
    Ok(number)
}

#[cycle(bodies)]
fn declare_bodies_of<'a>(
    table: &mut Table<'a>,
    by_default: bool,
    first: u32,
    decl: &'a Decl,
) -> Result<u32, AllocError>
    ensures { IfOk result (λ next. (table.new ≡ declare_all table.old (spec.bodies_declare first (flat_map (standings.body by_default) (bodies_of decl.now)))) × (next ≡ first + length (flat_map (standings.body by_default) (bodies_of decl.now)))) }
{
    match decl {
        Decl::Body(body) => declare_body(table, by_default, first, body),
        _ => Ok(first),
    }
}

#[cycle(bodies)]
fn declare_body<'a>(
    table: &mut Table<'a>,
    by_default: bool,
    number: u32,
    body: &'a Body,
) -> Result<u32, AllocError>
    ensures { IfOk result (λ next. (table.new ≡ declare_all table.old (spec.bodies_declare number (standings.body by_default body.now))) × (next ≡ number + length (standings.body by_default body.now))) }
{
    declare_parts(
        table,
        by_default,
        number,
        Some(&body.name),
        Some(&body.header),
        &body.parts,
    )
}

/// What each name of a specification means.
pub fn meanings<'a>(alloc: Global, tree: &'a Spec, names: &Names) -> Result<Table<'a>, AllocError>
    ensures { IfOk result (λ table. table ≡ record { names = names.now.uses; declared = declared_in (record { specification = tree.now; names = names.now.uses }) }) }
{
    let mut table = Table::new(alloc, names)?;
    let by_default = default_of(tree.heads.items());
    declare_parts(&mut table, by_default, 0, None, None, &tree.parts)?;
    Ok(table)
}
