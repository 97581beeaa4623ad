//! What numbers of bodies stand for.

ghost use Rattle.std.specs.Prelude.{◌≡◌, ◌++◌, map, IfOk, OnOk};
ghost use Rattle.std.specs.List.{flat_map};
ghost use Rattle.estelle_model.specs.Bodies.{bodies};
ghost use Rattle.meaning_table.specs.Known.{meanings_of};
ghost use Rattle.body_table.specs.Contributions.{ips_of};
ghost use Rattle.body_program_numbers.specs.Found.{standings};
ghost use Rattle.body_program_numbers.specs.Places.{number_in};
ghost use Rattle.body_program_numbers.specs.Numbering as spec;

use crate::outline::Standing;
use crate::places::PlaceNumbers;
use crate::points::{push_copies, push_own_points};
use body_numbers::{BodyNumbers, IpNumbers};
use body_program::Program;
use body_state::ModuleBody;
use estelle_tree::{Decl, Items, Sequence};
use meaning_table::{Table, behind};
use std::alloc::{AllocError, Global};

/// The interaction points of the header at a place.
fn points_at<'t>(
    headers: &PlaceNumbers,
    points: &'t [Items<IpNumbers>],
    place: u32,
) -> &'t [IpNumbers]
    ensures { result.now ≡ spec.external_points headers.now points.now place }
{
    match points.get(headers.number(place) as usize) {
        Some(points) => points.items(),
        None => &[],
    }
}

fn numbers_at(
    alloc: Global,
    headers: &PlaceNumbers,
    places: &[u32],
) -> Result<Items<u32>, AllocError>
    ensures { IfOk result (λ numbers. numbers ≡ map (number_in headers.now) places.now) }
{
    let mut numbers = Items::new(alloc);
    for place in places {
        numbers.push(headers.number(*place))?;
    }
    Ok(numbers)
}

/// Of a body by what is known of it, and by what it declares.
fn body_numbers(
    table: &Table,
    channels: &PlaceNumbers,
    headers: &PlaceNumbers,
    points: &[Items<IpNumbers>],
    body: &ModuleBody,
    decls: &[Decl],
) -> Result<BodyNumbers, AllocError>
    ensures { IfOk result (λ numbers. numbers ≡ spec.numbers_by (meanings_of table.now) channels.now headers.now points.now body.now.module_headers body.now.header (flat_map ips_of decls.now)) }
{
    let alloc = table.alloc;
    let mut ips = Items::new(alloc);
    push_copies(alloc, points_at(headers, points, body.header), &mut ips)?;
    push_own_points(table, channels, decls, &mut ips)?;
    Ok(BodyNumbers {
        module_variables: numbers_at(alloc, headers, body.module_headers.items())?,
        ips,
    })
}

/// Of all bodies.
pub fn all_bodies(
    program: &Program,
    channels: &PlaceNumbers,
    headers: &PlaceNumbers,
    points: &[Items<IpNumbers>],
    found: &[Standing],
) -> Result<Items<BodyNumbers>, AllocError>
    requires { standings found.now ≡ bodies program.now.specification }
    ensures { IfOk result (λ numbers. numbers ≡ map (spec.numbers_over program.now channels.now headers.now points.now) (bodies program.now.specification)) }
{
    let table = program.table();
    let mut all = Items::new(table.alloc);
    let mut number = 0;
    for standing in found {
        let Some(body) = program.bodies().get(number) else {
            return Err(AllocError);
        };
        let decls = standing.parts.decls.items();
        all.push(body_numbers(table, channels, headers, points, body, decls)?)?;
        number = behind(number, 1)?;
    }
    Ok(all)
}
