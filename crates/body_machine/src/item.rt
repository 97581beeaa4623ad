//! What stands on a stack.

use estelle_model::Place;
use pascal_values::Value;

/// A value, or the place of a variable or of a part of one.
#[derive(Drop)]
pub enum Item {
    Datum(Value),
    Spot(Place),
}
