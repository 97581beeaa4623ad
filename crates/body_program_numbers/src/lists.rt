//! What is numbered, as lists: the places of channels, headers and routines, and exports.

ghost use Rattle.std.specs.Prelude.{◌≡◌, map, IfOk};
ghost use Rattle.estelle_model.specs.Bodies.{heading_of};
ghost use Rattle.body_program_numbers.specs.Places as places;
ghost use Rattle.body_program_numbers.specs.Found as found;
ghost use Rattle.body_program_numbers.specs.Numbering as spec;

use crate::outline::Standing;
use crate::places::PlaceNumbers;
use estelle_model::Meaning;
use estelle_tree::{Channel, Header, Items, Routine, Sequence};
use meaning_table::{Table, behind};
use std::alloc::{AllocError, Global};

fn channel_places(alloc: Global, channels: &[&Channel]) -> Result<Items<u32>, AllocError>
    ensures { IfOk result (λ places. places ≡ map spec.place_of_channel (found.channels channels.now)) }
{
    let mut places = Items::new(alloc);
    for channel in channels {
        places.push(channel.name.span.start)?;
    }
    Ok(places)
}

fn header_places(alloc: Global, headers: &[&Header]) -> Result<Items<u32>, AllocError>
    ensures { IfOk result (λ places. places ≡ map spec.place_of_header (found.headers headers.now)) }
{
    let mut places = Items::new(alloc);
    for header in headers {
        places.push(header.name.span.start)?;
    }
    Ok(places)
}

/// The numbers of channels.
pub fn channel_numbers(alloc: Global, channels: &[&Channel]) -> Result<PlaceNumbers, AllocError>
    ensures { IfOk result (λ numbers. numbers ≡ map spec.place_of_channel (found.channels channels.now)) }
{
    let places = channel_places(alloc, channels)?;
    PlaceNumbers::of(alloc, places.items())
}

/// The numbers of headers.
pub fn header_numbers(alloc: Global, headers: &[&Header]) -> Result<PlaceNumbers, AllocError>
    ensures { IfOk result (λ numbers. numbers ≡ map spec.place_of_header (found.headers headers.now)) }
{
    let places = header_places(alloc, headers)?;
    PlaceNumbers::of(alloc, places.items())
}

fn routine_places(alloc: Global, routines: &[&Routine]) -> Result<Items<u32>, AllocError>
    ensures { IfOk result (λ places. places ≡ map spec.place_of_routine (found.routines routines.now)) }
{
    let mut places = Items::new(alloc);
    for routine in routines {
        places.push(routine.name.span.start)?;
    }
    Ok(places)
}

/// The places of the routines of each body.
pub fn all_routine_places(
    alloc: Global,
    bodies: &[Standing],
) -> Result<Items<Items<u32>>, AllocError>
    ensures { IfOk result (λ places. places ≡ map (map spec.place_of_routine) (found.routine_lists bodies.now)) }
{
    let mut places = Items::new(alloc);
    for body in bodies {
        places.push(routine_places(alloc, body.routines.items())?)?;
    }
    Ok(places)
}

fn rising(alloc: Global, first: u32, count: usize) -> Result<Items<u32>, AllocError>
    ensures { IfOk result (λ numbers. numbers ≡ places.rising first count) }
{
    let mut numbers = Items::new(alloc);
    let mut number = first;
    for _ in 0..count {
        numbers.push(number)?;
        number = behind(number, 1)?;
    }
    Ok(numbers)
}

fn exports_of(alloc: Global, meaning: &Meaning) -> Result<Items<u32>, AllocError>
    ensures { IfOk result (λ exports. exports ≡ spec.exports_by (heading_of meaning.now)) }
{
    match meaning {
        Meaning::Header(heading) => {
            let first = behind(0, heading.parameters.len())?;
            rising(alloc, first, heading.exports.len())
        }
        _ => Ok(Items::new(alloc)),
    }
}

/// For each header the variables of an instance that its exports are.
pub fn all_exports(table: &Table, headers: &[&Header]) -> Result<Items<Items<u32>>, AllocError>
    ensures { IfOk result (λ exports. exports ≡ map (spec.exports_in table.now.declared) (found.headers headers.now)) }
{
    let mut exports = Items::new(table.alloc);
    for header in headers {
        let meaning = table.meaning_at(header.name.span.start);
        exports.push(exports_of(table.alloc, meaning)?)?;
    }
    Ok(exports)
}
