//! Whether the units that a specification asks for are there.

ghost use Rattle.std.specs.Prelude.{◌≡◌, ◌<◌, ℕ, IsTrue, is_some, true, Some};
ghost use Rattle.estelle_model.specs.Subject as subject;
ghost use Rattle.estelle_model.specs.Transitions as flat;
ghost use Rattle.body_kinds.specs.Good.{HasClauses, HasUnits};

use body_code::{Code, Entry};
use body_program::Program;
use flat_transitions::Transition;

/// Whether those of a body's transition are.
fn has_clauses(code: &Code, body: u32, number: u32, transition: &Transition) -> bool
    ensures { result ≡ true → HasClauses code.now body number transition.now }
{
    if code.unit(body, Entry::Guard(number)).is_none() {
        return false;
    }
    if code.unit(body, Entry::Block(number)).is_none() {
        return false;
    }
    transition.delay().is_none() || code.unit(body, Entry::Delay(number)).is_some()
}

/// Whether those of the one with a number are, if there is one.
fn has_numbered(program: &Program, code: &Code, body: u32, number: u32) -> bool
    ensures { result ≡ true → (t : flat.Transition) → subject.transition program.now body number ≡ Some t → HasClauses code.now body number t }
{
    match program.transition(body, number) {
        None => true,
        Some(transition) => has_clauses(code, body, number, transition),
    }
}

/// Whether those of each transition of a body are.
fn has_transitions(program: &Program, code: &Code, body: u32) -> bool
    ensures { result ≡ true → (k : ℕ) (t : flat.Transition) → subject.transition program.now body k ≡ Some t → HasClauses code.now body k t }
{
    for before in 0..program.transitions(body) {
        if !has_numbered(program, code, body, before + 1) {
            return false;
        }
    }
    true
}

/// Whether those of so many bodies are.
pub fn has_units(program: &Program, code: &Code, count: u32) -> bool
    requires { (k : ℕ) → IsTrue (is_some (subject.body program.now k)) → k < count }
    ensures { result ≡ true → HasUnits program.now code.now }
{
    for body in 0..count {
        if !has_transitions(program, code, body) {
            return false;
        }
    }
    code.unit(0, Entry::Initialize).is_some()
}
