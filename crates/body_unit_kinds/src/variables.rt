//! The shapes of variables, of a body's own instances and of those that its module variables hold.

ghost use Rattle.std.specs.Prelude.{◌≡◌, true, slice_get, IfSome, Some};
ghost use Rattle.estelle_model.specs.Subject.{headers_of};
ghost use Rattle.body_kinds.specs.Kinded.{variable_shape, HasHeader, IsExport};
ghost use Rattle.body_unit_kinds.specs.Effects.{AreVariables};

use crate::here::Here;
use crate::shapes::same_shape;
use body_state::ModuleBodies;
use pascal_values::Shape;

/// The shape of a variable of a body.
pub fn variable<'a>(here: &Here<'a, '_>, body: u32, number: u32) -> Option<&'a Shape>
    requires { AreVariables here.now.bodies.now here.now.variables.now }
    ensures { IfSome result (λ shape. variable_shape here.now.bodies.now body number ≡ Some shape.now) }
{
    let shapes = here.variables.get(body as usize)?;
    shapes.get(number as usize)
}

/// Whether a module variable of a body has this header.
fn is_header(bodies: &ModuleBodies, number: u32, modvar: u32, header: u32) -> bool
    ensures { slice_get (headers_of bodies.now number) modvar ≡ Some header → result ≡ true }
{
    match bodies.get(number) {
        None => false,
        Some(body) => body.module_headers.get(modvar as usize).copied() == Some(header),
    }
}

fn has_header(bodies: &ModuleBodies, number: u32, modvar: u32, other: u32) -> bool
    ensures { HasHeader bodies.now number modvar other → result ≡ true }
{
    match bodies.get(other) {
        None => false,
        Some(body) => is_header(bodies, number, modvar, body.header),
    }
}

fn is_found(found: Option<&Shape>, shape: &Shape) -> bool
    ensures { result ≡ true → IfSome found.entry (λ f. f.now ≡ shape.now) }
{
    match found {
        None => true,
        Some(other) => same_shape(other, shape),
    }
}

/// The shape that an export has in each child that a module variable may hold.
pub fn export<'a>(here: &Here<'a, '_>, modvar: u32, number: u32) -> Option<&'a Shape>
    requires { AreVariables here.now.bodies.now here.now.variables.now }
    ensures { IfSome result (λ shape. IsExport here.now.bodies.now here.now.numbers.now here.now.body modvar number shape.now) }
{
    let own = here.numbers.export(here.body, modvar, number)?;
    let count = u32::try_from(here.variables.len()).ok()?;
    let mut found = None;
    for body in 0..count {
        if has_header(here.bodies, here.body, modvar, body) {
            let shape = variable(here, body, own)?;
            if !is_found(found, shape) {
                return None;
            }
            found = Some(shape);
        }
    }
    found
}
