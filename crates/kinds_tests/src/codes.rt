//! Codes from tables of units.

use body_code::{Code, CodeUnit, Heading, Instr, Instrs, Local, Shared};
use estelle_tree::{Items, SequenceMut, Word};
use pascal_values::{Fault, Shape, Value};
use std::alloc::{AllocError, Global};

/// An instruction, with numbers in place of values and names.
#[derive(Clone, Copy)]
pub enum Op {
    Push(i64),
    True,
    Var(u32),
    Loc(u32),
    Ref(u32),
    /// An export of the child in module variable 0.
    Exp(u32),
    Load,
    Store(u32),
    Fit(u32),
    Add,
    Lt,
    Jump(u32),
    Jfalse(u32),
    Turn,
    /// Of body 0: a routine, with so many arguments.
    Call(u32, u32),
    Ret,
    Fail,
    /// A child of body 1 in module variable 0, with so many arguments.
    Init(u32),
    /// An interaction at point 0, with so many arguments.
    Output(u32, u32),
}

fn instr(op: Op) -> Instr {
    match op {
        Op::Push(n) => Instr::Push(Value::Int(n)),
        Op::True => Instr::Push(Value::Bool(true)),
        Op::Var(number) => Instr::Var(number),
        Op::Loc(number) => Instr::Loc(number),
        Op::Ref(number) => Instr::Ref(number),
        Op::Exp(export) => Instr::Exp { modvar: 0, export },
        Op::Load => Instr::Load,
        Op::Store(shape) => Instr::Store(shape),
        Op::Fit(shape) => Instr::Fit(shape),
        Op::Add => Instr::Add,
        Op::Lt => Instr::Lt,
        Op::Jump(to) => Instr::Jump(to),
        Op::Jfalse(to) => Instr::Jfalse(to),
        Op::Turn => Instr::Turn,
        Op::Call(routine, arguments) => Instr::Call {
            body: 0,
            routine,
            arguments,
        },
        Op::Ret => Instr::Ret,
        Op::Fail => Instr::Fail(Fault::NoCase),
        Op::Init(arguments) => Instr::Init {
            modvar: 0,
            body: 1,
            arguments,
        },
        Op::Output(interaction, arguments) => Instr::Output {
            ip: 0,
            interaction,
            arguments,
        },
    }
}

/// What a unit is for.
#[derive(Clone, Copy)]
pub enum Of {
    Body(u32),
    Routine(u32),
    Initialize,
    Guard(u32),
    Delay(u32),
    Block(u32),
}

fn heading(alloc: Global, of: Of) -> Result<Heading, AllocError> {
    match of {
        Of::Body(body) => Ok(Heading::Body {
            body,
            name: Word::of(alloc, b"b")?,
        }),
        Of::Routine(routine) => Ok(Heading::Routine {
            routine,
            name: Word::of(alloc, b"r")?,
        }),
        Of::Initialize => Ok(Heading::Initialize),
        Of::Guard(trans) => Ok(Heading::Guard { trans }),
        Of::Delay(trans) => Ok(Heading::Delay { trans }),
        Of::Block(trans) => Ok(Heading::Block { trans }),
    }
}

/// A unit: what it is for, its locals, each an integer and by reference or not, and its instructions by their addresses.
pub type Row = (Of, &'static [bool], &'static [Op]);

fn locals(alloc: Global, by_ref: &[bool]) -> Result<Shared<Local>, AllocError> {
    let mut locals = Items::new(alloc);
    for by_ref in by_ref {
        locals.push(Local {
            shape: Shape::Int {
                low: -9223372036854775807,
                high: 9223372036854775807,
            },
            by_ref: *by_ref,
        })?;
    }
    Shared::of(alloc, locals)
}

fn instrs(alloc: Global, ops: &[Op]) -> Result<Items<Instr>, AllocError> {
    let mut instrs = Items::new(alloc);
    for op in ops {
        instrs.push(instr(*op))?;
    }
    Ok(instrs)
}

fn unit(alloc: Global, row: Row) -> Result<CodeUnit, AllocError> {
    let (of, by_ref, ops) = row;
    Ok(CodeUnit {
        heading: heading(alloc, of)?,
        locals: locals(alloc, by_ref)?,
        instrs: Instrs::of(instrs(alloc, ops)?),
    })
}

/// The code of these units, and of others behind them.
pub fn code(alloc: Global, rows: &[Row], others: &[Row]) -> Result<Code, AllocError> {
    let mut code = Code::none(alloc);
    for row in rows {
        code.push(unit(alloc, *row)?)?;
    }
    for row in others {
        code.push(unit(alloc, *row)?)?;
    }
    Ok(code)
}
