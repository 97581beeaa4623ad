//! Places made from others.

ghost use Rattle.std.specs.Prelude.{◌≡◌, [], ◌∷◌, ◌++◌, IfOk};
ghost use Rattle.estelle_model.specs.Places.{deeper};

use estelle_model::Place;
use estelle_tree::Items;
use std::alloc::{AllocError, Global};

/// The part of a place with a number.
pub fn deeper(place: Place, number: u32) -> Result<Place, AllocError>
    ensures { IfOk result (λ part. part ≡ deeper place number) }
{
    match place {
        Place::Of {
            path,
            variable,
            way,
        } => Ok(Place::Of {
            path,
            variable,
            way: longer(way, number)?,
        }),
        Place::In {
            frame,
            variable,
            way,
        } => Ok(Place::In {
            frame,
            variable,
            way: longer(way, number)?,
        }),
    }
}

fn longer(way: Items<u32>, number: u32) -> Result<Items<u32>, AllocError>
    ensures { IfOk result (λ longer. longer ≡ way ++ number ∷ []) }
{
    let mut way = way;
    way.push(number)?;
    Ok(way)
}

/// A copy, which equals what it copies.
pub fn copy_place(alloc: Global, place: &Place) -> Result<Place, AllocError>
    ensures { IfOk result (λ copy. copy ≡ place.now) }
{
    match place {
        Place::Of {
            path,
            variable,
            way,
        } => Ok(Place::Of {
            path: path.copy(alloc)?,
            variable: *variable,
            way: Items::from_slice(alloc, way.as_slice())?,
        }),
        Place::In {
            frame,
            variable,
            way,
        } => Ok(Place::In {
            frame: *frame,
            variable: *variable,
            way: Items::from_slice(alloc, way.as_slice())?,
        }),
    }
}
