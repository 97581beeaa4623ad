//! What transitions find at their queues.

ghost use Rattle.std.specs.Prelude.{◌≡◌, IfOk};
ghost use Rattle.std.specs.Option.{option_copied};
ghost use Rattle.std.specs.FinMap as map;
ghost use Rattle.estelle_tree.specs.Links.{same_ip};
ghost use Rattle.estelle_model.specs.Subject.{Subject};
ghost use Rattle.estelle_model.specs.Situation.{Situation};
ghost use Rattle.estelle_model.specs.Firing.{transition_at};
ghost use Rattle.estelle_model.specs.Jobs.{found_by};
ghost use Rattle.estelle_model.specs.Asked.{head_of};
ghost use Rattle.estelle_model.specs.Queues.{head_at, queue};
ghost use Rattle.estelle_model_legality.specs.Situations.{IsLegal};
ghost use Rattle.effect_log.specs.Standing.{Stands};
ghost use Rattle.situation_images.specs.Instances.{IsOfBody};

use body_program::Program;
use body_values::copy_values;
use effect_log::Shared;
use estelle_model::Interaction;
use estelle_tree::{IpAddr, Path};
use std::alloc::{AllocError, Global};

/// Whether two addresses are of one interaction point.
fn is_same(a: &IpAddr, b: &IpAddr) -> bool
    ensures { result ≡ same_ip b.now a.now }
{
    a.ip == b.ip && a.path.items() == b.path.items()
}

/// The first interaction in the queue of a point, where it waits at that point.
fn waiting_head<'s>(shared: &'s Shared, at: &IpAddr) -> Option<&'s Interaction>
    ensures { (s : Subject) (g : Situation) → Stands s shared.now g → IsLegal s g → option_copied result ≡ head_of (head_at at.now (queue s g at.now)) }
{
    if !shared.queues.declares(at) {
        return None;
    }
    match shared.queues.head(at) {
        None => None,
        Some((where_it_waits, item)) => {
            if is_same(where_it_waits, at) {
                Some(item)
            } else {
                None
            }
        }
    }
}

/// The head that a transition of an instance finds, where it has a `when`, whatever the head's name.
pub fn found_head<'s>(
    alloc: Global,
    program: &Program,
    shared: &'s Shared,
    path: &Path,
    body: u32,
    trans: u32,
) -> Result<Option<&'s Interaction>, AllocError>
    ensures { (g : Situation) → Stands program.now shared.now g → IsLegal program.now g → IsOfBody g path.now body → IfOk result (λ head. option_copied head ≡ head_of (found_by program.now g path.now (transition_at program.now trans (map.get g.core.instances path.now)))) }
{
    match program.received_at(body, trans) {
        None => Ok(None),
        Some(ip) => {
            let at = IpAddr {
                path: path.copy(alloc)?,
                ip,
            };
            Ok(waiting_head(shared, &at))
        }
    }
}

fn copy_interaction(alloc: Global, item: &Interaction) -> Result<Interaction, AllocError>
    ensures { IfOk result (λ copy. copy ≡ item.now) }
{
    Ok(Interaction {
        number: item.number,
        name: item.name.copy(alloc)?,
        values: copy_values(alloc, &item.values)?,
    })
}

/// The same, as a copy.
pub fn copied_head(
    alloc: Global,
    program: &Program,
    shared: &Shared,
    path: &Path,
    body: u32,
    trans: u32,
) -> Result<Option<Interaction>, AllocError>
    ensures { (g : Situation) → Stands program.now shared.now g → IsLegal program.now g → IsOfBody g path.now body → IfOk result (λ head. head ≡ head_of (found_by program.now g path.now (transition_at program.now trans (map.get g.core.instances path.now)))) }
{
    match found_head(alloc, program, shared, path, body, trans)? {
        None => Ok(None),
        Some(item) => Ok(Some(copy_interaction(alloc, item)?)),
    }
}
