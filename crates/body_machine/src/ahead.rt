//! Instructions at once: a value that they make is held apart from the stack until one of them takes it.

ghost use Rattle.std.specs.Prelude.{◌≡◌, suc, [], ◌∷◌, List, slice_get, Some, IfSome};
ghost use Rattle.std.specs.Option.{option_copied};
ghost use Rattle.body_code.specs.declared.instr.Instr.TheVariants as op;
ghost use Rattle.body_code.specs.declared.unit.CodeUnit as code_units;
ghost use Rattle.estelle_model.specs.States.{Logged, on_log};
ghost use Rattle.estelle_model.specs.Places.{load};
ghost use Rattle.estelle_model.specs.Subject.{Subject};
ghost use Rattle.estelle_model.specs.declared.place.Place.TheVariants.{Of};
ghost use Rattle.body_state.specs.Follows.{Follows};
ghost use Rattle.body_numbers.specs.declared.numbers.Numbers as numbers;
ghost use Rattle.body_machine.specs.Machine as machines;
ghost use Rattle.body_machine.specs.Machine.{Datum, Next, Goes};
ghost use Rattle.body_machine.specs.Operations.{binary_value};
ghost use Rattle.body_machine.specs.Rows.{combining, computing, fitting};
ghost use Rattle.body_machine.specs.Steps.{by_row, next};
ghost use Rattle.body_machine.specs.Seen.{seen, seen_unit, IsNext, IsStep};
ghost use Rattle.body_machine.specs.Ahead.{pushed_by, place_in, holding, IsLoad, IsLoadOf, Computes, IsOperator, Loads, joined_to, IsMade, HasMade, HasGone, HasStepped};

use crate::activation::Activation;
use crate::item::Item;
use crate::jumps::jump_with;
use crate::machine::Machine;
use crate::operators::{Binary, Unary, binary_value, unary_value};
use crate::places::slot_of;
use crate::step::step;
use crate::values::{fit_as, store_with, stuck};
use body_code::{Code, Instr, Instrs};
use body_numbers::Numbers;
use body_state::{ModuleBodies, Walk};
use body_values::{Stop, below, loaded};
use estelle_model::Place;
use estelle_tree::{Items, Path, Relation, Sequence};
use pascal_values::{Fault, Shape, Value};
use std::alloc::Global;

/// A variable that an instruction names.
#[derive(Clone, Copy)]
pub enum Variable {
    /// Of the instance.
    Own(u32),
    /// Of the unit.
    Local(u32),
}

/// The variable whose value an instruction and the one behind it load.
fn loaded_ahead(instrs: &Instrs, address: usize) -> Option<Variable>
    ensures { IfSome result (λ x. IsLoad instrs.now address x) }
{
    let Some(behind) = address.checked_add(1) else {
        return None;
    };
    match instrs.get(address) {
        Some(Instr::Var(number)) => match instrs.get(behind) {
            Some(Instr::Load) => Some(Variable::Own(*number)),
            _ => None,
        },
        Some(Instr::Loc(number)) => match instrs.get(behind) {
            Some(Instr::Load) => Some(Variable::Local(*number)),
            _ => None,
        },
        _ => None,
    }
}

/// The value of a variable of an instance.
fn value_of(alloc: Global, walk: &Walk, path: &Path, variable: u32) -> Result<Value, Stop>
    ensures { Follows (load Logged on_log (Of path.now variable [])) walk.now result walk.now }
{
    match walk.instance(path) {
        Some(part) => loaded(alloc, below(part.vars.items(), variable, &[])),
        None => Err(Stop::Fault(Fault::NoModule)),
    }
}

/// The value of a variable. No place is made of one of the instance.
fn value_in(alloc: Global, walk: &Walk, active: &Activation, x: Variable) -> Result<Value, Stop>
    ensures { Follows (load Logged on_log (place_in (seen_unit active.now) x)) walk.now result walk.now }
{
    match x {
        Variable::Own(number) => value_of(alloc, walk, &active.here.path, number),
        Variable::Local(number) => {
            let variable = slot_of(active.unit.locals.items(), number)?;
            let place = Place::In {
                frame: active.here.frame,
                variable,
                way: Items::new(alloc),
            };
            walk.load(alloc, &place)
        }
    }
}

/// What is computed of two values, where an instruction computes it.
fn operator_of(instr: &Instr) -> Option<Binary>
    ensures { IfSome result (λ o. Computes instr.now o) }
{
    match instr {
        Instr::Add => Some(Binary::Plus),
        Instr::Sub => Some(Binary::Minus),
        Instr::Mul => Some(Binary::Times),
        Instr::Div => Some(Binary::Div),
        Instr::Mod => Some(Binary::Mod),
        Instr::Eq => Some(Binary::Compare(Relation::Equal)),
        Instr::Ne => Some(Binary::Compare(Relation::NotEqual)),
        Instr::Lt => Some(Binary::Compare(Relation::Less)),
        Instr::Le => Some(Binary::Compare(Relation::AtMost)),
        Instr::Gt => Some(Binary::Compare(Relation::Greater)),
        Instr::Ge => Some(Binary::Compare(Relation::AtLeast)),
        _ => None,
    }
}

/// What the instruction at an address computes of two values.
#[tactic(auto, using(crate::proofs::Holding::operates))]
fn operator_ahead(instrs: &Instrs, address: usize) -> Option<Binary>
    ensures { IfSome result (λ o. IsOperator instrs.now address o) }
{
    match instrs.get(address) {
        Some(instr) => operator_of(instr),
        None => None,
    }
}

/// The constant that an instruction pushes, and what the one behind it computes with it.
fn constant_ahead(instrs: &Instrs, address: usize) -> Option<(&Value, Binary)>
    ensures { IfSome result (λ x. (slice_get instrs.now address ≡ Some (op.Push x.0.now)) × IsOperator instrs.now (suc address) x.1) }
{
    match instrs.get(address) {
        Some(Instr::Push(value)) => match address.checked_add(1) {
            Some(behind) => match operator_ahead(instrs, behind) {
                Some(operator) => Some((value, operator)),
                None => None,
            },
            None => None,
        },
        _ => None,
    }
}

/// Loads the value of a variable, by two instructions.
fn load_both(alloc: Global, machine: &mut Machine, x: Variable) -> Result<Value, Stop>
    ensures { Loads (seen machine.old) x result (seen machine.new) }
{
    match value_in(alloc, &machine.walk, &machine.active, x) {
        Err(stop) => Err(stop),
        Ok(value) => {
            machine.advance()?;
            machine.advance()?;
            Ok(value)
        }
    }
}

/// What is computed of a value and the constant that an instruction pushes, by this instruction and the one behind it.
fn join(
    alloc: Global,
    machine: &mut Machine,
    right: &Value,
    operator: Binary,
    value: Value,
) -> Result<Value, Stop>
    ensures { IsMade (joined_to (binary_value operator value right.now) (seen machine.old)) result (seen machine.new) }
{
    let made = binary_value(alloc, operator, &value, right)?;
    machine.advance()?;
    machine.advance()?;
    Ok(made)
}

/// A value, or what is computed of it and a constant that comes next.
fn joined(alloc: Global, machine: &mut Machine, value: Value) -> Result<Value, Stop>
    ensures { (s : Subject) (n : numbers.Numbers) (code : List code_units.CodeUnit) → HasMade s n code (Goes (holding value (seen machine.old))) result (seen machine.new) }
{
    let unit = machine.active.unit;
    match constant_ahead(&unit.instrs, machine.active.address) {
        None => Ok(value),
        Some(ahead) => join(alloc, machine, ahead.0, ahead.1, value),
    }
}

/// What is computed of the value below a value, and of it.
fn meet(alloc: Global, machine: &mut Machine, operator: Binary, value: Value) -> Result<Value, Stop>
    ensures { (s : Subject) (n : numbers.Numbers) (code : List code_units.CodeUnit) → IsMade (by_row s n code (combining operator) (Datum value ∷ (seen machine.old).active.stack) (holding value (seen machine.old))) result (seen machine.new) }
{
    match machine.active.stack.pop() {
        Some(Item::Datum(left)) => {
            let made = binary_value(alloc, operator, &left, &value)?;
            machine.advance()?;
            Ok(made)
        }
        _ => Err(stuck()),
    }
}

/// A value, or what an operator that comes next computes of the one below it and of it.
fn met(alloc: Global, machine: &mut Machine, value: Value) -> Result<Value, Stop>
    ensures { (s : Subject) (n : numbers.Numbers) (code : List code_units.CodeUnit) → HasMade s n code (Goes (holding value (seen machine.old))) result (seen machine.new) }
{
    let unit = machine.active.unit;
    match operator_ahead(&unit.instrs, machine.active.address) {
        None => Ok(value),
        Some(operator) => meet(alloc, machine, operator, value),
    }
}

/// A value goes on top.
fn put_on_top(machine: &mut Machine, value: Value) -> Result<(), Stop>
    ensures { IsNext (Goes (holding value (seen machine.old))) result (seen machine.new) }
{
    machine.active.stack.push(Item::Datum(value))?;
    Ok(())
}

/// What the instruction at the address computes of a value.
fn compute_with(
    alloc: Global,
    machine: &mut Machine,
    operator: Unary,
    value: Value,
) -> Result<Value, Stop>
    ensures { (s : Subject) (n : numbers.Numbers) (code : List code_units.CodeUnit) → IsMade (by_row s n code (computing operator) (Datum value ∷ (seen machine.old).active.stack) (holding value (seen machine.old))) result (seen machine.new) }
{
    let made = unary_value(alloc, operator, &value)?;
    machine.advance()?;
    Ok(made)
}

/// A value that the instruction at the address tests.
fn fit_with(machine: &mut Machine, shape: Option<&Shape>, value: Value) -> Result<Value, Stop>
    ensures { (s : Subject) (n : numbers.Numbers) (code : List code_units.CodeUnit) → IsMade (by_row s n code (fitting (option_copied shape.entry)) (Datum value ∷ (seen machine.old).active.stack) (holding value (seen machine.old))) result (seen machine.new) }
{
    fit_as(shape, &value)?;
    machine.advance()?;
    Ok(value)
}

/// The shape by which an instruction stores.
fn shape_ahead(instrs: &Instrs, address: usize) -> Option<u32>
    ensures { IfSome result (λ shape. slice_get instrs.now address ≡ Some (op.Store shape)) }
{
    match instrs.get(address) {
        Some(Instr::Store(shape)) => Some(*shape),
        _ => None,
    }
}

/// A value is stored by the instruction at the address, or goes on top.
fn stored(alloc: Global, numbers: &Numbers, machine: &mut Machine, value: Value) -> Result<(), Stop>
    ensures { (s : Subject) (code : List code_units.CodeUnit) → HasGone s numbers.now code (Goes (holding value (seen machine.old))) result (seen machine.new) }
{
    let unit = machine.active.unit;
    match shape_ahead(&unit.instrs, machine.active.address) {
        Some(shape) => store_with(alloc, machine, numbers.shape(shape), value),
        None => put_on_top(machine, value),
    }
}

/// What was made of a value is stored, or goes on top.
fn made_stored(
    alloc: Global,
    numbers: &Numbers,
    machine: &mut Machine,
    made: Result<Value, Stop>,
) -> Result<(), Stop>
    ensures { (s : Subject) (code : List code_units.CodeUnit) (x : Next) → HasMade s numbers.now code x made (seen machine.old) → HasGone s numbers.now code x result (seen machine.new) }
{
    match made {
        Err(stop) => Err(stop),
        Ok(value) => stored(alloc, numbers, machine, value),
    }
}

/// A value is taken or changed by an instruction, or goes on top.
fn taken(
    alloc: Global,
    numbers: &Numbers,
    machine: &mut Machine,
    instr: &Instr,
    value: Value,
) -> Result<(), Stop>
    ensures { (s : Subject) (code : List code_units.CodeUnit) → slice_get (seen machine.old).active.unit.instrs (seen machine.old).active.address ≡ Some instr.now → HasGone s numbers.now code (Goes (holding value (seen machine.old))) result (seen machine.new) }
{
    match instr {
        Instr::Jfalse(to) => jump_with(machine, value, false, *to),
        Instr::Jtrue(to) => jump_with(machine, value, true, *to),
        Instr::Store(shape) => store_with(alloc, machine, numbers.shape(*shape), value),
        Instr::Succ => {
            let made = compute_with(alloc, machine, Unary::Succ, value);
            made_stored(alloc, numbers, machine, made)
        }
        Instr::Pred => {
            let made = compute_with(alloc, machine, Unary::Pred, value);
            made_stored(alloc, numbers, machine, made)
        }
        Instr::Fit(shape) => {
            let made = fit_with(machine, numbers.shape(*shape), value);
            made_stored(alloc, numbers, machine, made)
        }
        _ => put_on_top(machine, value),
    }
}

/// A value is taken by the instruction at the address, or goes on top.
fn settled(
    alloc: Global,
    numbers: &Numbers,
    machine: &mut Machine,
    value: Value,
) -> Result<(), Stop>
    ensures { (s : Subject) (code : List code_units.CodeUnit) → HasGone s numbers.now code (Goes (holding value (seen machine.old))) result (seen machine.new) }
{
    let unit = machine.active.unit;
    match unit.instrs.get(machine.active.address) {
        Some(instr) => taken(alloc, numbers, machine, instr, value),
        None => put_on_top(machine, value),
    }
}

/// A value that was joined with what came next is met by an operator, and settled.
fn use_joined(
    alloc: Global,
    numbers: &Numbers,
    machine: &mut Machine,
    value: Value,
) -> Result<(), Stop>
    ensures { (s : Subject) (code : List code_units.CodeUnit) → HasGone s numbers.now code (Goes (holding value (seen machine.old))) result (seen machine.new) }
{
    match met(alloc, machine, value) {
        Err(stop) => Err(stop),
        Ok(made) => settled(alloc, numbers, machine, made),
    }
}

/// A value is used by the instructions that come next.
fn use_value(
    alloc: Global,
    numbers: &Numbers,
    machine: &mut Machine,
    value: Value,
) -> Result<(), Stop>
    ensures { (s : Subject) (code : List code_units.CodeUnit) → HasGone s numbers.now code (Goes (holding value (seen machine.old))) result (seen machine.new) }
{
    match joined(alloc, machine, value) {
        Err(stop) => Err(stop),
        Ok(made) => use_joined(alloc, numbers, machine, made),
    }
}

/// The value of a variable is loaded, by two instructions, and used by those that come next.
fn use_variable(
    alloc: Global,
    numbers: &Numbers,
    machine: &mut Machine,
    x: Variable,
) -> Result<(), Stop>
    ensures { (s : Subject) (code : List code_units.CodeUnit) → IsLoadOf (seen machine.old) x → HasGone s numbers.now code (next s numbers.now code (seen machine.old)) result (seen machine.new) }
{
    match load_both(alloc, machine, x) {
        Err(stop) => Err(stop),
        Ok(made) => use_value(alloc, numbers, machine, made),
    }
}

/// As a step after which the machine goes on.
fn going_on(ran: Result<(), Stop>) -> Result<bool, Stop>
    ensures { (x : Next) (new : machines.Machine) → IsNext x ran new → IsStep x result new }
{
    match ran {
        Ok(()) => Ok(true),
        Err(stop) => Err(stop),
    }
}

/// The instruction at the address, and those behind it that are done at once with it; whether the machine goes on.
pub fn steps<'a>(
    alloc: Global,
    bodies: &ModuleBodies,
    numbers: &Numbers,
    code: &'a Code,
    machine: &mut Machine<'a>,
) -> Result<bool, Stop>
    ensures { HasStepped bodies.now numbers.now code.now (seen machine.old) result (seen machine.new) }
{
    let unit = machine.active.unit;
    match loaded_ahead(&unit.instrs, machine.active.address) {
        Some(x) => going_on(use_variable(alloc, numbers, machine, x)),
        None => step(alloc, bodies, numbers, code, machine),
    }
}
