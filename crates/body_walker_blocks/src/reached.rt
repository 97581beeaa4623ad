use estelle_model::{Denoter, Place};
use std::marker::Model;

/// A place, with the type of what is kept there.
#[derive(Drop)]
pub struct Reached<'t> {
    pub place: Place,
    pub denoter: &'t Denoter,
}

impl<'t> Model for Reached<'t> {
    ghost use Rattle.body_walker_blocks.specs.Located.{Located};
    ghost use Rattle.estelle_model.specs.contracts.denoter.Denoter as codes_of;
    ghost use Rattle.std.specs.Coded.{codes};

    ghost Value = { Located };

    ghost coded = { Prim.hlevel (codes, codes_of.the_row.coded) };

    ghost view = { λ r. record { place = r.place; denoter = r.denoter.now } };
}
