//! The shapes of the variables of all bodies.

ghost use Rattle.std.specs.Prelude.{◌≡◌, ◌<◌, ℕ, IsTrue, is_some, map, IfOk};
ghost use Rattle.estelle_model.specs.Types as types;
ghost use Rattle.estelle_model.specs.Subject.{body};
ghost use Rattle.body_unit_kinds.specs.Effects.{AreVariables};

use body_state::ModuleBodies;
use estelle_model::Type;
use estelle_tree::Items;
use pascal_values::Shape;
use std::alloc::{AllocError, Global};
use type_shapes::shape_of;

fn shapes_of(alloc: Global, denoters: &[Type]) -> Result<Items<Shape>, AllocError>
    ensures { IfOk result (λ shapes. shapes ≡ map types.shape_of denoters.now) }
{
    let mut shapes = Items::new(alloc);
    for denoter in denoters {
        shapes.push(shape_of(alloc, denoter.denoter())?)?;
    }
    Ok(shapes)
}

/// Of each of so many bodies.
pub fn variables_of(
    alloc: Global,
    bodies: &ModuleBodies,
    count: u32,
) -> Result<Items<Items<Shape>>, AllocError>
    requires { (k : ℕ) → IsTrue (is_some (body bodies.now k)) → k < count }
    ensures { IfOk result (λ variables. AreVariables bodies.now variables) }
{
    let mut variables = Items::new(alloc);
    for number in 0..count {
        variables.push(shapes_of(alloc, bodies.types(number))?)?;
    }
    Ok(variables)
}
