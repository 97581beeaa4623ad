//! What a body itself declares of its instances.

ghost use Rattle.std.specs.Prelude.{◌≡◌, ◌++◌, false, replicate, IfOk, OnOk};
ghost use Rattle.std.specs.List.{flat_map};
ghost use Rattle.estelle_model.specs.Bodies as spec;
ghost use Rattle.meaning_table.specs.Known.{meanings_of};
ghost use Rattle.body_table.specs.Contributions.{ips_of};
ghost use Rattle.body_program.specs.Own.{headers_at, headers_in};

use body_table::push_interaction_points;
use estelle_model::{InteractionPoint, Meaning};
use estelle_tree::{Decl, Items, ModvarDecl, Sequence};
use meaning_table::Table;
use std::alloc::AllocError;

fn push_points_of(
    table: &Table,
    by_default: bool,
    decl: &Decl,
    out: &mut Items<InteractionPoint>,
) -> Result<(), AllocError>
    ensures { OnOk result (out.new ≡ out.old ++ spec.interaction_points (meanings_of table.now) by_default false (ips_of decl.now)) }
{
    match decl {
        Decl::Ip { ips, .. } => push_interaction_points(table, by_default, false, ips.items(), out),
        _ => Ok(()),
    }
}

/// The interaction points that a body itself declares.
pub fn push_points(
    table: &Table,
    by_default: bool,
    decls: &[Decl],
    out: &mut Items<InteractionPoint>,
) -> Result<(), AllocError>
    ensures { OnOk result (out.new ≡ out.old ++ flat_map (λ d. spec.interaction_points (meanings_of table.now) by_default false (ips_of d)) decls.now) }
{
    for decl in decls {
        push_points_of(table, by_default, decl, out)?;
    }
    Ok(())
}

/// The place where the header that a name means is declared.
fn header_place(meaning: &Meaning) -> u32
    ensures { result ≡ (spec.heading_of meaning.now).at }
{
    match meaning {
        Meaning::Header(heading) => heading.at,
        _ => 0,
    }
}

fn push_times(out: &mut Items<u32>, place: u32, count: usize) -> Result<(), AllocError>
    ensures { OnOk result (out.new ≡ out.old ++ replicate count place) }
{
    for _ in 0..count {
        out.push(place)?;
    }
    Ok(())
}

fn push_headers(
    table: &Table,
    modvars: &[ModvarDecl],
    out: &mut Items<u32>,
) -> Result<(), AllocError>
    ensures { OnOk result (out.new ≡ out.old ++ flat_map (headers_at (meanings_of table.now)) modvars.now) }
{
    for modvar in modvars {
        let place = header_place(table.meaning(&modvar.header));
        push_times(out, place, modvar.names.names.items().len())?;
    }
    Ok(())
}

fn push_headers_of(table: &Table, decl: &Decl, out: &mut Items<u32>) -> Result<(), AllocError>
    ensures { OnOk result (out.new ≡ out.old ++ headers_in (meanings_of table.now) decl.now) }
{
    match decl {
        Decl::Modvar { modvars, .. } => push_headers(table, modvars.items(), out),
        _ => Ok(()),
    }
}

/// The header of each module variable of a body, by the place where it is declared.
pub fn module_headers(table: &Table, decls: &[Decl]) -> Result<Items<u32>, AllocError>
    ensures { IfOk result (λ headers. headers ≡ flat_map (headers_in (meanings_of table.now)) decls.now) }
{
    let mut headers = Items::new(table.alloc);
    for decl in decls {
        push_headers_of(table, decl, &mut headers)?;
    }
    Ok(headers)
}
