//! The shared state before the initialization.

ghost use Rattle.std.specs.Prelude.{◌≡◌, ◌<◌, ◌≤◌, ◌+◌, [], IfOk, OnOk};
ghost use Rattle.estelle_model.specs.Actions.{at, count_from};
ghost use Rattle.estelle_model.specs.Firing.{bare};
ghost use Rattle.module_tree.specs.Trees.{lone};
ghost use Rattle.effect_log.specs.Standing.{Stands};
ghost use Rattle.effect_log.specs.Underway.{declared_all};
ghost use Rattle.body_jobs.specs.Roots.{root_part};
ghost use Rattle.situation_images.specs.Instances.{IsTreeOf};
ghost use Rattle.situation_images.specs.Starts.{root_points};

use body_jobs::root_part;
use body_program::Program;
use effect_log::Shared;
use estelle_model::{Interaction, Part};
use estelle_tree::{IpAddr, Path};
use link_ops::Links;
use module_tree::Tree;
use queue_store::Queues;
use std::alloc::{AllocError, Global};

fn single(alloc: Global, part: Part) -> Result<Tree<Part>, AllocError>
    ensures { IfOk result (λ tree. tree.instances ≡ lone part) }
{
    match Tree::single(alloc, part) {
        Ok(tree) => Ok(tree),
        Err(_) => Err(AllocError),
    }
}

/// The tree of the specification's own instance as it is made.
fn root_tree(alloc: Global, program: &Program) -> Result<Tree<Part>, AllocError>
    ensures { IfOk result (λ tree. IsTreeOf tree (bare program.now)) }
{
    match program.bodies().get(0) {
        None => unreachable!(),
        Some(body) => single(alloc, root_part(alloc, body)?),
    }
}

/// The queues of its interaction points, which are empty.
fn root_queues(alloc: Global, program: &Program) -> Result<Queues<Interaction>, AllocError>
    ensures { IfOk result (λ queues. queues.queues ≡ declared_all program.now 0 (root_points program.now) []) }
{
    let mut queues = Queues::none(alloc);
    let count = program.points(0);
    queues.reserve(0, count)?;
    for number in 0..count {
        let Ok(ip) = u32::try_from(number) else {
            return Err(AllocError);
        };
        let at = IpAddr {
            path: Path::root(alloc),
            ip,
        };
        queues.declare(at, program.is_common(0, ip));
    }
    Ok(queues)
}

/// The shared state before the initialization: the specification's own instance alone, without a state, and its queues.
pub fn bare_shared(alloc: Global, program: &Program) -> Result<Shared, AllocError>
    ensures { IfOk result (λ shared. Stands program.now shared (bare program.now)) }
{
    Ok(Shared {
        tree: root_tree(alloc, program)?,
        queues: root_queues(alloc, program)?,
        links: Links::none(alloc),
        outputs: 0,
    })
}
