//! One instruction.

ghost use Rattle.std.specs.Prelude.{◌≢◌};
ghost use Rattle.body_code.specs.declared.instr.Instr.TheVariants as op;
ghost use Rattle.body_machine.specs.Rows.{row};
ghost use Rattle.body_machine.specs.Steps.{by_row, next};
ghost use Rattle.body_machine.specs.Seen.{seen, seen_unit, IsNext, IsStep};

use crate::calls::{call, init, ret};
use crate::estelle::{attach, connect, detach, disconnect, output, release};
use crate::jumps::{jump, jump_where, turn};
use crate::machine::Machine;
use crate::operators::{Binary, Unary};
use crate::places::{export, local, reference, variable};
use crate::values::{
    blank, combine, compute, constant, empty, extend, fault, fit, index, load, store, stuck,
};
use body_code::{Code, Entry, Instr};
use body_numbers::Numbers;
use body_state::ModuleBodies;
use body_values::Stop;
use estelle_tree::Relation;
use std::alloc::Global;

/// What an instruction does, other than the end of a unit.
#[tactic(auto, unfolding(crate::specs::Rows::row))]
fn act<'a>(
    alloc: Global,
    bodies: &ModuleBodies,
    numbers: &Numbers,
    code: &'a Code,
    machine: &mut Machine<'a>,
    instr: &Instr,
) -> Result<(), Stop>
    requires { instr.now ≢ op.Ret }
    ensures { IsNext (by_row bodies.now numbers.now code.now (row bodies.now numbers.now (seen_unit machine.old.active) instr.now) (seen machine.old).active.stack (seen machine.old)) result (seen machine.new) }
{
    let body = machine.active.body;
    match instr {
        Instr::Push(value) => constant(alloc, machine, value),
        Instr::Var(number) => variable(alloc, machine, *number),
        Instr::Loc(number) => local(alloc, machine, *number),
        Instr::Ref(number) => reference(alloc, machine, *number),
        Instr::Exp {
            modvar,
            export: number,
        } => export(
            alloc,
            machine,
            *modvar,
            numbers.export(body, *modvar, *number),
        ),
        Instr::Field(field) => extend(machine, *field),
        Instr::Index { low, high } => index(machine, *low, *high),
        Instr::Load => load(alloc, machine),
        Instr::Store(shape) => store(alloc, machine, numbers.shape(*shape)),
        Instr::Fit(shape) => fit(machine, numbers.shape(*shape)),
        Instr::Blank => blank(alloc, machine),
        Instr::Neg => compute(alloc, machine, Unary::Neg),
        Instr::Add => combine(alloc, machine, Binary::Plus),
        Instr::Sub => combine(alloc, machine, Binary::Minus),
        Instr::Mul => combine(alloc, machine, Binary::Times),
        Instr::Div => combine(alloc, machine, Binary::Div),
        Instr::Mod => combine(alloc, machine, Binary::Mod),
        Instr::Abs => compute(alloc, machine, Unary::Abs),
        Instr::Sqr => compute(alloc, machine, Unary::Sqr),
        Instr::Odd => compute(alloc, machine, Unary::Odd),
        Instr::Succ => compute(alloc, machine, Unary::Succ),
        Instr::Pred => compute(alloc, machine, Unary::Pred),
        Instr::Ord => compute(alloc, machine, Unary::Ord),
        Instr::Chr => compute(alloc, machine, Unary::Chr),
        Instr::Not => compute(alloc, machine, Unary::Not),
        Instr::Eq => combine(alloc, machine, Binary::Compare(Relation::Equal)),
        Instr::Ne => combine(alloc, machine, Binary::Compare(Relation::NotEqual)),
        Instr::Lt => combine(alloc, machine, Binary::Compare(Relation::Less)),
        Instr::Le => combine(alloc, machine, Binary::Compare(Relation::AtMost)),
        Instr::Gt => combine(alloc, machine, Binary::Compare(Relation::Greater)),
        Instr::Ge => combine(alloc, machine, Binary::Compare(Relation::AtLeast)),
        Instr::Empty => empty(alloc, machine),
        Instr::One => compute(alloc, machine, Unary::One),
        Instr::Span => combine(alloc, machine, Binary::Span),
        Instr::Unite => combine(alloc, machine, Binary::Plus),
        Instr::Meet => combine(alloc, machine, Binary::Times),
        Instr::Minus => combine(alloc, machine, Binary::Minus),
        Instr::Has => combine(alloc, machine, Binary::Compare(Relation::Member)),
        Instr::Jump(to) => jump(machine, *to),
        Instr::Jfalse(to) => jump_where(machine, false, *to),
        Instr::Jtrue(to) => jump_where(machine, true, *to),
        Instr::Turn => turn(machine),
        Instr::Call {
            body,
            routine,
            arguments,
        } => {
            let unit = code.unit(*body, Entry::Routine(*routine));
            call(alloc, machine, *body, unit, *arguments)
        }
        Instr::Ret => Err(stuck()),
        Instr::Fail(kind) => fault(machine, *kind),
        Instr::Init {
            modvar,
            body,
            arguments,
        } => {
            let unit = code.unit(*body, Entry::Initialize);
            init(alloc, bodies, machine, *modvar, *body, unit, *arguments)
        }
        Instr::Release(modvar) => release(alloc, bodies, machine, *modvar),
        Instr::Connect(first, second) => connect(alloc, bodies, machine, *first, *second),
        Instr::Disconnect(ends) => disconnect(alloc, bodies, machine, *ends),
        Instr::Attach { upper, lower } => attach(alloc, bodies, machine, *upper, *lower),
        Instr::Detach(ip) => detach(alloc, bodies, machine, *ip),
        Instr::Output {
            ip,
            interaction,
            arguments,
        } => {
            let word = numbers.word(body, *ip);
            let kind = numbers.interaction(body, *ip, *interaction);
            output(alloc, bodies, machine, *ip, word, kind, *arguments)
        }
    }
}

/// The instruction at the address; whether the machine goes on.
#[tactic(auto, unfolding(crate::specs::Steps::next, crate::specs::Rows::row))]
pub fn step<'a>(
    alloc: Global,
    bodies: &ModuleBodies,
    numbers: &Numbers,
    code: &'a Code,
    machine: &mut Machine<'a>,
) -> Result<bool, Stop>
    ensures { IsStep (next bodies.now numbers.now code.now (seen machine.old)) result (seen machine.new) }
{
    let unit = machine.active.unit;
    match unit.instrs.get(machine.active.address) {
        None => Err(stuck()),
        Some(Instr::Ret) => ret(alloc, bodies, machine),
        Some(instr) => {
            act(alloc, bodies, numbers, code, machine, instr)?;
            Ok(true)
        }
    }
}
