//! What a type denoter says of its values and its components (ISO 7185, 6.4).

ghost use Rattle.std.specs.Prelude.{◌≡◌};
ghost use Rattle.estelle_model.specs.Types.{item_of, field_of, item_place};
ghost use Rattle.body_values.specs.Gives.{Gives};

use crate::stop::Stop;
use estelle_model::Denoter;
use pascal_values::position;

/// The component type of an array type.
pub fn item_of(denoter: &Denoter) -> &Denoter
    ensures { result.now ≡ item_of denoter.now }
{
    match denoter {
        Denoter::Array { item, .. } => item.get(),
        _ => denoter,
    }
}

/// The type of a record's field.
pub fn field_of(denoter: &Denoter, number: u32) -> &Denoter
    ensures { result.now ≡ field_of denoter.now number }
{
    match denoter {
        Denoter::Fields(fields) => match fields.get(number as usize) {
            Some(field) => field,
            None => denoter,
        },
        _ => denoter,
    }
}

/// The place of an index among the items of an array type; another type has none.
pub fn item_place(denoter: &Denoter, index: i64) -> Result<u32, Stop>
    ensures { Gives (item_place denoter.now index) result }
{
    match denoter {
        Denoter::Array { low, high, .. } => match position(*low, *high, index) {
            Ok(place) => Ok(place),
            Err(fault) => Err(Stop::Fault(fault)),
        },
        _ => Err(Stop::Broken),
    }
}
