//! The control variables of `for` statements, and what stands around their bodies (ISO 7185, 6.8.3.9).

ghost use Rattle.std.specs.Prelude.{◌≡◌, IfOk, OnOk, Some, length};
ghost use Rattle.estelle_model.specs.Types as types;
ghost use Rattle.body_compiler_pieces.specs.Pieces.{one};
ghost use Rattle.body_compiler_pieces.specs.StatementCode as code;
ghost use Rattle.body_compiler_emission.specs.EmittedStatements as emitted;

use crate::draft::Draft;
use crate::scope::Scope;
use body_code::Instr;
use estelle_model::{Denoter, Host, Meaning, greatest, least};
use estelle_tree::Direction;
use pascal_values::Shape;
use std::alloc::AllocError;

/// A control variable: a local, or a variable of the instance, by its number, and its type.
#[derive(Drop)]
pub struct Control<'t> {
    pub local: bool,
    pub number: u32,
    pub denoter: &'t Denoter,
}

impl Control<'_> {
    /// Its place on the stack.
    fn instr(&self) -> Instr
        ensures { result ≡ emitted.control_instr self.now }
    {
        if self.local {
            Instr::Loc(self.number)
        } else {
            Instr::Var(self.number)
        }
    }
}

/// What a name means as a control variable.
#[tactic(auto, using(crate::proofs::CountSteps::own_control, crate::proofs::CountSteps::export_control, crate::proofs::CountSteps::local_control))]
pub fn control_variable<'t>(scope: &Scope, meaning: &'t Meaning) -> Result<Control<'t>, AllocError>
    ensures { IfOk result (λ c. emitted.control scope.now meaning.now ≡ Some (record { denoter = c.denoter.now; place = one (emitted.control_instr c) })) }
{
    match meaning {
        Meaning::Own { number, denoter } | Meaning::Exported { number, denoter } => Ok(Control {
            local: false,
            number: *number,
            denoter: denoter.denoter(),
        }),
        Meaning::Local { number, denoter } => Ok(Control {
            local: true,
            number: scope.local(*number)?,
            denoter: denoter.denoter(),
        }),
        _ => Err(AllocError),
    }
}

/// Whether a value of the host alone tells which value is the next one: so it does, since the last value of an enumeration is below 2^32.
pub fn is_word(host: Host) -> bool
    ensures { result ≡ code.is_word host }
{
    match host {
        Host::Enumeration { .. } => true,
        _ => true,
    }
}

/// The shape of a host's whole type.
#[tactic(auto, using(estelle_model::proofs::Fitting::shape_ordinal))]
pub fn whole_shape(host: Host) -> Shape
    ensures { result ≡ types.shape_of (types.whole host) }
{
    match host {
        Host::Integer => Shape::Int {
            low: least(host),
            high: greatest(host),
        },
        Host::Boolean => Shape::Bool { low: 0, high: 1 },
        Host::Char => Shape::Char { low: 0, high: 255 },
        Host::Enumeration { last } => Shape::Enum { low: 0, high: last },
    }
}

/// What a temporary holds.
#[tactic(auto, unfolding(crate::specs::EmittedStatements::recalled))]
pub fn recall(unit: &mut Draft, temporary: u32) -> Result<(), AllocError>
    ensures { OnOk result (unit.new ≡ emitted.recalled temporary unit.old) }
{
    unit.push(Instr::Loc(temporary))?;
    unit.push(Instr::Load)
}

fn begins_instr(direction: Direction) -> Instr
    ensures { result ≡ emitted.begins_instr direction }
{
    match direction {
        Direction::To => Instr::Le,
        Direction::Downto => Instr::Ge,
    }
}

fn goes_instr(direction: Direction) -> Instr
    ensures { result ≡ emitted.goes_instr direction }
{
    match direction {
        Direction::To => Instr::Lt,
        Direction::Downto => Instr::Gt,
    }
}

fn next_instr(direction: Direction) -> Instr
    ensures { result ≡ code.next_instr direction }
{
    match direction {
        Direction::To => Instr::Succ,
        Direction::Downto => Instr::Pred,
    }
}

/// The test before the first turn, whose address it is, and the entry of a turn.
#[tactic(auto, unfolding(crate::specs::EmittedStatements::tested, crate::specs::EmittedStatements::entered))]
pub fn open_turns(
    unit: &mut Draft,
    direction: Direction,
    kind: u32,
    control: &Control,
    turn: u32,
    last: u32,
) -> Result<u32, AllocError>
    ensures { IfOk result (λ test. (test ≡ length (emitted.tested direction turn last unit.old).instrs) × (unit.new ≡ emitted.entered kind (emitted.control_instr control.now) turn (emitted.tested direction turn last unit.old))) }
{
    recall(unit, turn)?;
    recall(unit, last)?;
    unit.push(begins_instr(direction))?;
    let test = unit.hole(Instr::Jfalse(0))?;
    unit.push(Instr::Turn)?;
    unit.push(control.instr())?;
    recall(unit, turn)?;
    unit.push(Instr::Store(kind))?;
    Ok(test)
}

/// The end of a turn, and of them all.
#[tactic(auto, unfolding(crate::specs::EmittedStatements::ended))]
pub fn close_turns(
    unit: &mut Draft,
    direction: Direction,
    bound: u32,
    control: &Control,
    turn: u32,
    last: u32,
    test: u32,
) -> Result<(), AllocError>
    ensures { OnOk result (unit.new ≡ emitted.ended direction bound (emitted.control_instr control.now) turn last test unit.old) }
{
    recall(unit, turn)?;
    recall(unit, last)?;
    unit.push(goes_instr(direction))?;
    unit.close_count(turn, bound, next_instr(direction), test)?;
    unit.push(control.instr())?;
    unit.push(Instr::Blank)
}
