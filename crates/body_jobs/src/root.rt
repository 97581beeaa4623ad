//! The specification's own instance as it is made.

ghost use Rattle.std.specs.Prelude.{◌≡◌, None, replicate, option_map, IfOk};
ghost use Rattle.estelle_model.specs.Subject.{body};
ghost use Rattle.estelle_model.specs.Firing.{bare};
ghost use Rattle.estelle_model_legality.specs.Jobs.{image_of};
ghost use Rattle.body_state.specs.Bodies.{module_body};
ghost use Rattle.body_jobs.specs.Roots.{root_part, root_image};

use body_state::{ModuleBodies, ModuleBody};
use body_values::add_blanks;
use estelle_model::{Image, Part};
use estelle_tree::{Items, Path, SequenceMut};
use pascal_values::Values;
use std::alloc::{AllocError, Global};

fn no_children(alloc: Global, count: usize) -> Result<Items<Option<Path>>, AllocError>
    ensures { IfOk result (λ held. held ≡ replicate count None) }
{
    let mut held = Items::new(alloc);
    for _ in 0..count {
        held.push(None)?;
    }
    Ok(held)
}

/// Its part, in which nothing is set.
pub fn root_part(alloc: Global, body: &ModuleBody) -> Result<Part, AllocError>
    ensures { IfOk result (λ part. part ≡ root_part body.now) }
{
    let mut vars = Values::none(alloc);
    add_blanks(alloc, &mut vars, body.variables.as_slice())?;
    Ok(Part {
        path: Path::root(alloc),
        body: 0,
        state: None,
        vars,
        modvars: no_children(alloc, body.module_variables)?,
        births: 0,
    })
}

/// An image of that instance alone.
pub fn root_image(alloc: Global, bodies: &ModuleBodies) -> Result<Image, AllocError>
    ensures { IfOk result (λ image. image ≡ image_of (bare bodies.now).core) }
{
    let image = image_of_body(alloc, bodies)?;
    Ok(image)
}

/// The same, by its body.
fn image_of_body(alloc: Global, bodies: &ModuleBodies) -> Result<Image, AllocError>
    ensures { IfOk result (λ image. image ≡ root_image (option_map (module_body bodies.now 0) (body bodies.now 0))) }
{
    let mut parts = Items::new(alloc);
    if let Some(body) = bodies.get(0) {
        parts.push(root_part(alloc, body)?)?;
    }
    Ok(Image {
        parts,
        links: Items::new(alloc),
    })
}
