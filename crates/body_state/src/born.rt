//! New instances.

ghost use Rattle.std.specs.Prelude.{◌≡◌, ◌++◌, drop, length, map, replicate, None, IfOk};
ghost use Rattle.pascal_values.specs.Shapes.{blank_of};
ghost use Rattle.estelle_model.specs.Types.{shape_of};

use crate::bodies::ModuleBody;
use body_values::add_blanks;
use estelle_model::{Part, Type};
use estelle_tree::{Items, Path};
use pascal_values::Values;
use std::alloc::{AllocError, Global};

/// So many module variables that are empty.
fn empty(alloc: Global, count: usize) -> Result<Items<Option<Path>>, AllocError>
    ensures { IfOk result (λ held. held ≡ replicate count None) }
{
    let mut held = Items::new(alloc);
    for _ in 0..count {
        held.push(None)?;
    }
    Ok(held)
}

/// The types behind so many.
fn behind(types: &[Type], count: usize) -> &[Type]
    ensures { result.now ≡ drop count types.now }
{
    if count < types.len() {
        &types[count..]
    } else {
        &[]
    }
}

/// An instance of a body as it is made, with the values of its parameters.
pub fn new_part(
    alloc: Global,
    path: Path,
    number: u32,
    body: &ModuleBody,
    parameters: Values,
) -> Result<Part, AllocError>
    ensures { IfOk result (λ part. part ≡ record { path = path; body = number; state = None; vars = parameters ++ map blank_of (map shape_of (drop (length parameters) body.now.variables)); modvars = replicate body.now.module_variables None; births = 0 }) }
{
    let count = parameters.len();
    let mut vars = parameters;
    add_blanks(alloc, &mut vars, behind(body.variables.as_slice(), count))?;
    Ok(Part {
        path,
        body: number,
        state: None,
        vars,
        modvars: empty(alloc, body.module_variables)?,
        births: 0,
    })
}
