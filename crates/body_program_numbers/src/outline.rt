//! What is declared in a specification and in its bodies, in text order.

ghost use Rattle.std.specs.Prelude.{◌≡◌, ◌∷◌, [], ◌++◌, map, IfOk, OnOk};
ghost use Rattle.std.specs.List.{flat_map};
ghost use Rattle.std.specs.Option.{option_copied};
ghost use Rattle.estelle_model.specs.Bodies.{bodies};
ghost use Rattle.body_table.specs.Contributions.{bodies_of};
ghost use Rattle.body_table.specs.Standings as stand;
ghost use Rattle.body_program_numbers.specs.Outline as spec;
ghost use Rattle.body_program_numbers.specs.Found as found;

use body_table::default_of;
use estelle_tree::{Body, Channel, Decl, Header, Items, Name, Parts, Routine, Sequence, Spec};
use std::alloc::{AllocError, Global};

/// A body where it stands.
#[derive(Drop)]
pub struct Standing<'a> {
    /// Whether interaction points share the common queue where they name none.
    pub by_default: bool,
    /// None for the specification.
    pub name: Option<&'a Name>,
    pub header: Option<&'a Name>,
    pub parts: &'a Parts,
    pub routines: Items<&'a Routine>,
}

/// What is declared, in text order.
#[derive(Drop)]
pub struct Outline<'a> {
    pub channels: Items<&'a Channel>,
    pub headers: Items<&'a Header>,
    pub bodies: Items<Standing<'a>>,
}

fn push_routine<'a>(decl: &'a Decl, out: &mut Items<&'a Routine>) -> Result<(), AllocError>
    ensures { OnOk result (found.routines out.new ≡ found.routines out.old ++ (spec.decl decl.now).routines) }
{
    match decl {
        Decl::Routine(routine) => out.push(routine),
        _ => Ok(()),
    }
}

fn routines_of<'a>(alloc: Global, decls: &'a [Decl]) -> Result<Items<&'a Routine>, AllocError>
    ensures { IfOk result (λ routines. found.routines routines ≡ flat_map (λ d. (spec.decl d).routines) decls.now) }
{
    let mut routines = Items::new(alloc);
    for decl in decls {
        push_routine(decl, &mut routines)?;
    }
    Ok(routines)
}

/// A body without those in it.
fn push_standing<'a>(
    alloc: Global,
    by_default: bool,
    name: Option<&'a Name>,
    header: Option<&'a Name>,
    parts: &'a Parts,
    out: &mut Items<Standing<'a>>,
) -> Result<(), AllocError>
    ensures { OnOk result ((found.standings out.new ≡ found.standings out.old ++ stand.standing by_default (option_copied name.entry) (option_copied header.entry) parts.now ∷ []) × (found.routine_lists out.new ≡ found.routine_lists out.old ++ found.own_routines parts.now ∷ [])) }
{
    let routines = routines_of(alloc, parts.decls.items())?;
    out.push(Standing {
        by_default,
        name,
        header,
        parts,
        routines,
    })
}

#[cycle(outline)]
fn push_parts<'a>(
    alloc: Global,
    by_default: bool,
    name: Option<&'a Name>,
    header: Option<&'a Name>,
    parts: &'a Parts,
    out: &mut Outline<'a>,
) -> Result<(), AllocError>
    ensures channels { OnOk result (found.channels out.new.channels ≡ found.channels out.old.channels ++ (spec.parts parts.now).channels) }
    ensures headers { OnOk result (found.headers out.new.headers ≡ found.headers out.old.headers ++ (spec.parts parts.now).headers) }
    ensures standings { OnOk result (found.standings out.new.bodies ≡ found.standings out.old.bodies ++ (stand.standing by_default (option_copied name.entry) (option_copied header.entry) parts.now ∷ stand.inner_of by_default parts.now)) }
    ensures routines { OnOk result (found.routine_lists out.new.bodies ≡ found.routine_lists out.old.bodies ++ (spec.parts parts.now).bodies) }
{
    push_standing(alloc, by_default, name, header, parts, &mut out.bodies)?;
    push_decls(alloc, by_default, parts.decls.items(), out)
}

#[cycle(outline)]
fn push_decls<'a>(
    alloc: Global,
    by_default: bool,
    decls: &'a [Decl],
    out: &mut Outline<'a>,
) -> Result<(), AllocError>
    ensures channels { OnOk result (found.channels out.new.channels ≡ found.channels out.old.channels ++ flat_map (λ d. (spec.decl d).channels) decls.now) }
    ensures headers { OnOk result (found.headers out.new.headers ≡ found.headers out.old.headers ++ flat_map (λ d. (spec.decl d).headers) decls.now) }
    ensures standings { OnOk result (found.standings out.new.bodies ≡ found.standings out.old.bodies ++ stand.inner by_default decls.now) }
    ensures routines { OnOk result (found.routine_lists out.new.bodies ≡ found.routine_lists out.old.bodies ++ flat_map (λ d. (spec.decl d).bodies) decls.now) }
{
    for decl in decls {
        push_decl(alloc, by_default, decl, out)?;
    }
    Ok(())
}

#[cycle(outline)]
fn push_decl<'a>(
    alloc: Global,
    by_default: bool,
    decl: &'a Decl,
    out: &mut Outline<'a>,
) -> Result<(), AllocError>
    ensures channels { OnOk result (found.channels out.new.channels ≡ found.channels out.old.channels ++ (spec.decl decl.now).channels) }
    ensures headers { OnOk result (found.headers out.new.headers ≡ found.headers out.old.headers ++ (spec.decl decl.now).headers) }
    ensures standings { OnOk result (found.standings out.new.bodies ≡ found.standings out.old.bodies ++ flat_map (stand.body by_default) (bodies_of decl.now)) }
    ensures routines { OnOk result (found.routine_lists out.new.bodies ≡ found.routine_lists out.old.bodies ++ (spec.decl decl.now).bodies) }
{
    match decl {
        Decl::Channel(channel) => out.channels.push(channel),
        Decl::Header(header) => out.headers.push(header),
        Decl::Body(body) => push_body(alloc, by_default, body, out),
        _ => Ok(()),
    }
}

#[cycle(outline)]
fn push_body<'a>(
    alloc: Global,
    by_default: bool,
    body: &'a Body,
    out: &mut Outline<'a>,
) -> Result<(), AllocError>
    ensures channels { OnOk result (found.channels out.new.channels ≡ found.channels out.old.channels ++ (spec.body body.now).channels) }
    ensures headers { OnOk result (found.headers out.new.headers ≡ found.headers out.old.headers ++ (spec.body body.now).headers) }
    ensures standings { OnOk result (found.standings out.new.bodies ≡ found.standings out.old.bodies ++ stand.body by_default body.now) }
    ensures routines { OnOk result (found.routine_lists out.new.bodies ≡ found.routine_lists out.old.bodies ++ (spec.body body.now).bodies) }
{
    push_parts(
        alloc,
        by_default,
        Some(&body.name),
        Some(&body.header),
        &body.parts,
        out,
    )
}

/// What is declared in a specification and in its bodies.
pub fn outline_of(alloc: Global, tree: &Spec) -> Result<Outline<'_>, AllocError>
    ensures channels { IfOk result (λ all. found.channels all.channels ≡ spec.channels_in tree.now) }
    ensures headers { IfOk result (λ all. found.headers all.headers ≡ spec.headers_in tree.now) }
    ensures standings { IfOk result (λ all. found.standings all.bodies ≡ bodies tree.now) }
    ensures routines { IfOk result (λ all. found.routine_lists all.bodies ≡ spec.routine_lists tree.now) }
{
    let by_default = default_of(tree.heads.items());
    let mut all = Outline {
        channels: Items::new(alloc),
        headers: Items::new(alloc),
        bodies: Items::new(alloc),
    };
    push_parts(alloc, by_default, None, None, &tree.parts, &mut all)?;
    Ok(all)
}
