//! The systems of a run.

ghost use Rattle.std.specs.Prelude.{◌≡◌, ◌++◌, map as each, IfOk, OnOk, MatchOption};
ghost use Rattle.std.specs.List.{list_any};
ghost use Rattle.estelle_tree.specs.Paths.{is_inside};
ghost use Rattle.estelle_model.specs.Situation.{Situation};
ghost use Rattle.estelle_model_legality.specs.Situations.{IsLegal};
ghost use Rattle.effect_log.specs.Standing.{Stands};
ghost use Rattle.situation_steps.specs.Systems.{systems_of, first_kept, after_firing, after_wait, NoneIsDue};
ghost use Rattle.situation.specs.Systems.{kept_part, IsFirstOne};

use body_program::Program;
use estelle_model::Part;
use estelle_tree::Path;
use situation_state::{State, is_system_body};
use situation_steps::System;
use std::alloc::{AllocError, Global};

/// Adds the system that an instance is, if it is one.
fn add_system(
    alloc: Global,
    program: &Program,
    part: &Part,
    systems: &mut Vec<System>,
) -> Result<(), AllocError>
    ensures { OnOk result (systems.new.items ≡ systems.old.items ++ kept_part program.now part.now) }
{
    if is_system_body(program, part.body) {
        let path = part.path.copy(alloc)?;
        systems.push(System {
            path,
            awaits: true,
            pending: 0,
        })?;
    }
    Ok(())
}

/// All systems, before their first selection.
pub(crate) fn all_systems(alloc: Global, state: &State) -> Result<Vec<System>, AllocError>
    ensures { (g : Situation) → Stands state.now.program.now state.now.shared g → IsLegal state.now.program.now g → IfOk result (λ systems. systems.items ≡ each first_kept (systems_of state.now.program.now g)) }
{
    let mut systems = Vec::new(alloc);
    let root = Path::root(alloc);
    // The root is always there.
    let Ok(parts) = state.shared.tree.below(alloc, &root) else {
        return Err(AllocError);
    };
    for part in &parts {
        add_system(alloc, state.program, part, &mut systems)?;
    }
    Ok(systems)
}

/// The first system that is due, by its number.
pub(crate) fn first_due(systems: &[System]) -> Option<usize>
    ensures { MatchOption result (NoneIsDue systems.now) (λ at. IsFirstOne systems.now at) }
{
    for (at, system) in systems.iter().enumerate() {
        if system.awaits && system.pending == 0 {
            return Some(at);
        }
    }
    None
}

/// Whether one of these paths is at or below another.
fn lies_in(system: &Path, paths: &[Path]) -> bool
    ensures { result ≡ list_any (is_inside system.now) paths.now }
{
    for path in paths {
        if system.is_at_or_above(path) {
            return true;
        }
    }
    false
}

/// A firing of an instance, of which outputs arrived at instances with these paths.
fn note_firing(system: &mut System, path: &Path, arrivals: &[Path])
    ensures { system.new ≡ after_firing path.now arrivals.now system.old }
{
    if system.path.is_at_or_above(path) {
        system.awaits = true;
        system.pending = system.pending.saturating_sub(1);
    } else if lies_in(&system.path, arrivals) {
        system.awaits = true;
    }
}

/// The same for all systems. It takes their time.
pub(crate) fn note_in_all(systems: &mut [System], path: &Path, arrivals: &[Path])
    ensures { systems.new ≡ each (after_firing path.now arrivals.now) systems.old }
{
    for system in systems.iter_mut() {
        note_firing(system, path, arrivals);
    }
}

/// The clock was waited for.
pub(crate) fn wake_all(systems: &mut [System])
    ensures { systems.new ≡ each after_wait systems.old }
{
    for system in systems.iter_mut() {
        system.awaits = true;
    }
}
