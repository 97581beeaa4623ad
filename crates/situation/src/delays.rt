//! Whether time matters to a specification.

ghost use Rattle.std.specs.Prelude.{◌≡◌, is_some, IfOk};
ghost use Rattle.std.specs.List.{list_any};
ghost use Rattle.estelle_model.specs.Subject.{transitions, transition};
ghost use Rattle.estelle_model.specs.Delays as delays;

use body_program::Program;
use std::alloc::AllocError;

/// Whether a transition of a body has a delay.
fn has_delay(program: &Program, body: u32, trans: u32) -> bool
    ensures { result ≡ delays.is_delayed (transition program.now body trans) }
{
    match program.transition(body, trans) {
        None => false,
        Some(transition) => transition.delay().is_some(),
    }
}

/// Whether some transition of a body has one.
fn body_has_delays(program: &Program, body: u32) -> bool
    ensures { result ≡ list_any (λ t. is_some t.delay) (transitions program.now body) }
{
    for index in 0..program.transitions(body) {
        if has_delay(program, body, index + 1) {
            return true;
        }
    }
    false
}

/// Whether some transition of a program has one. It is refused where there are more bodies than numbers of bodies, which no text
/// has.
pub(crate) fn has_delays(program: &Program) -> Result<bool, AllocError>
    ensures { IfOk result (λ found. found ≡ delays.has_delays program.now) }
{
    let mut body: u32 = 0;
    while program.bodies().get(body).is_some() {
        if body_has_delays(program, body) {
            return Ok(true);
        }
        let Some(next) = body.checked_add(1) else {
            return Err(AllocError);
        };
        body = next;
    }
    Ok(false)
}
