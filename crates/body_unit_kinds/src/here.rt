//! The unit that is checked, and what is known around it.

use crate::claims::{Claim, Claims};
use body_code::{Code, CodeUnit};
use body_numbers::Numbers;
use body_state::ModuleBodies;
use estelle_tree::Items;
use pascal_values::Shape;

/// A unit of a body, with what is claimed of it and of all others.
pub struct Here<'a, 's> {
    pub bodies: &'a ModuleBodies<'s>,
    pub numbers: &'a Numbers,
    pub code: &'a Code,
    /// The shapes of the variables of each body.
    pub variables: &'a [Items<Shape>],
    pub claims: &'a Claims<'a>,
    pub body: u32,
    pub unit: &'a CodeUnit,
    pub claim: &'a Claim<'a>,
}

impl Drop for Here<'_, '_> {
    fn drop(self) {
        let Here {
            bodies: _,
            numbers: _,
            code: _,
            variables: _,
            claims: _,
            body: _,
            unit: _,
            claim: _,
        } = self;
    }
}
