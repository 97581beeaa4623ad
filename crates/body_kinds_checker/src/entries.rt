//! Whether a unit begins and ends as what it is for.

ghost use Rattle.std.specs.Prelude.{◌≡◌, true, [], ◌∷◌, length, map, take, None, Some};
ghost use Rattle.std.specs.Option.{option_copied};
ghost use Rattle.pascal_values.specs.declared.value.Value.TheVariants as pascal;
ghost use Rattle.body_code.specs.declared.instr.Instr.TheVariants as op;
ghost use Rattle.estelle_model.specs.Types.{shape_of};
ghost use Rattle.body_kinds.specs.Kinds as spec;
ghost use Rattle.body_kinds.specs.Kinded as kinded;
ghost use Rattle.body_unit_kinds.specs.Seen.{stack_of};

use body_code::{CodeUnit, Entry, Instr, Local};
use body_program::Program;
use body_unit_kinds::{Kind, are_values, is_shape_of, same_kinds};
use estelle_model::Type;
use estelle_tree::{DelayHigh, Sequence};
use flat_transitions::Transition;
use pascal_values::Value;

/// Whether the first locals are of these types.
fn begin_with(types: &[Type], locals: &[Local]) -> bool
    ensures { result ≡ true → map (λ l. l.shape) (take (length types.now) locals.now) ≡ map shape_of types.now }
{
    if locals.len() < types.len() {
        return false;
    }
    for i in 0..types.len() {
        if !is_shape_of(&locals[i].shape, types[i].denoter()) {
            return false;
        }
    }
    true
}

/// Whether no local is by reference, and the first are of these types.
fn is_given(types: &[Type], unit: &CodeUnit) -> bool
    ensures { result ≡ true → kinded.IsGiven types.now unit.now }
{
    let locals = unit.locals.items();
    are_values(locals) && begin_with(types, locals)
}

fn pushes_true(instr: Option<&Instr>) -> bool
    ensures { result ≡ true → option_copied instr.entry ≡ Some (op.Push (pascal.Bool true)) }
{
    match instr {
        Some(Instr::Push(Value::Bool(true))) => true,
        _ => false,
    }
}

fn returns(instr: Option<&Instr>) -> bool
    ensures { result ≡ true → option_copied instr.entry ≡ Some op.Ret }
{
    match instr {
        Some(Instr::Ret) => true,
        _ => false,
    }
}

/// Whether a unit leaves true, whatever it is given.
#[tactic(auto, using(crate::proofs::Placing::two_are))]
fn says_true(unit: &CodeUnit) -> bool
    ensures { result ≡ true → kinded.SaysTrue unit.now }
{
    let instrs = &unit.instrs;
    instrs.len() == 2 && pushes_true(instrs.get(0)) && returns(instrs.get(1))
}

/// Whether a unit is a guard of the transition.
fn is_guard(transition: &Transition, unit: &CodeUnit, left: &[Kind]) -> bool
    ensures { result ≡ true → kinded.IsGiven transition.now.received unit.now × (stack_of left.now ≡ spec.Boolean ∷ []) × (transition.now.provided ≡ None → kinded.SaysTrue unit.now) }
{
    is_given(transition.received(), unit)
        && same_kinds(left, &[Kind::Boolean])
        && (transition.provided().is_some() || says_true(unit))
}

/// Whether a delay leaves these kinds, the topmost first.
fn is_of_delay(left: &[Kind], high: &Option<DelayHigh>) -> bool
    ensures { result ≡ true → stack_of left.now ≡ kinded.delay_kinds high.now }
{
    match high {
        Some(DelayHigh::Expr(_)) => same_kinds(left, &[Kind::Integer, Kind::Integer]),
        Some(DelayHigh::Star) => same_kinds(left, &[Kind::Integer]),
        None => same_kinds(left, &[Kind::Integer]),
    }
}

/// Whether a unit of a body begins with what it is given, and leaves what is asked.
pub fn is_for(program: &Program, body: u32, entry: Entry, unit: &CodeUnit, left: &[Kind]) -> bool
    ensures { result ≡ true → kinded.IsFor program.now body entry unit.now (stack_of left.now) }
{
    match entry {
        Entry::Routine(_) => true,
        Entry::Initialize => is_given(&[], unit) && left.is_empty(),
        Entry::Guard(trans) => match program.transition(body, trans) {
            None => true,
            Some(transition) => is_guard(transition, unit, left),
        },
        Entry::Delay(trans) => match program.transition(body, trans) {
            None => true,
            Some(transition) => match transition.delay() {
                None => true,
                Some(delay) => {
                    is_given(transition.received(), unit) && is_of_delay(left, delay.high())
                }
            },
        },
        Entry::Block(trans) => match program.transition(body, trans) {
            None => true,
            Some(transition) => is_given(transition.received(), unit) && left.is_empty(),
        },
    }
}
