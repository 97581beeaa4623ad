//! Units for tests, from tables of instructions.

use body_code::{CodeUnit, Ends, Heading, Instr, Instrs, Point, Shared};
use estelle_tree::{Items, Word};
use pascal_values::{Fault, Value};
use std::alloc::{AllocError, Global};

/// Instructions by their addresses.
#[derive(Clone, Copy)]
pub enum Table {
    /// The initialization of the counter.
    Zeroed,
    /// The guard of the counter.
    BelowThree,
    /// The block of the counter, but for its end.
    OneMore,
    /// Each opcode, and each form of an operand but for sets, in the order of `Instr`.
    All,
}

const CHILD: Point = Point::OfChild { modvar: 1, ip: 2 };

fn zeroed(at: usize) -> Option<Instr> {
    match at {
        0 => Some(Instr::Var(0)),
        1 => Some(Instr::Push(Value::Int(0))),
        2 => Some(Instr::Store(0)),
        3 => Some(Instr::Ret),
        _ => None,
    }
}

fn below_three(at: usize) -> Option<Instr> {
    match at {
        0 => Some(Instr::Var(0)),
        1 => Some(Instr::Load),
        2 => Some(Instr::Push(Value::Int(3))),
        3 => Some(Instr::Lt),
        4 => Some(Instr::Ret),
        _ => None,
    }
}

fn one_more(at: usize) -> Option<Instr> {
    match at {
        0 => Some(Instr::Var(0)),
        1 => Some(Instr::Var(0)),
        2 => Some(Instr::Load),
        3 => Some(Instr::Push(Value::Int(1))),
        4 => Some(Instr::Add),
        5 => Some(Instr::Store(0)),
        _ => None,
    }
}

fn any(at: usize) -> Option<Instr> {
    match at {
        0 => Some(Instr::Push(Value::Int(-5))),
        1 => Some(Instr::Push(Value::Bool(true))),
        2 => Some(Instr::Push(Value::Char(120))),
        3 => Some(Instr::Push(Value::Enum(2))),
        4 => Some(Instr::Var(7)),
        5 => Some(Instr::Loc(10)),
        6 => Some(Instr::Ref(2)),
        7 => Some(Instr::Exp {
            modvar: 1,
            export: 0,
        }),
        8 => Some(Instr::Field(3)),
        9 => Some(Instr::Index { low: -1, high: 7 }),
        10 => Some(Instr::Load),
        11 => Some(Instr::Store(4)),
        12 => Some(Instr::Fit(5)),
        13 => Some(Instr::Neg),
        14 => Some(Instr::Add),
        15 => Some(Instr::Sub),
        16 => Some(Instr::Mul),
        17 => Some(Instr::Div),
        18 => Some(Instr::Mod),
        19 => Some(Instr::Abs),
        20 => Some(Instr::Sqr),
        21 => Some(Instr::Odd),
        22 => Some(Instr::Eq),
        23 => Some(Instr::Ne),
        24 => Some(Instr::Lt),
        25 => Some(Instr::Le),
        26 => Some(Instr::Gt),
        27 => Some(Instr::Ge),
        28 => Some(Instr::Not),
        29 => Some(Instr::Empty),
        30 => Some(Instr::One),
        31 => Some(Instr::Span),
        32 => Some(Instr::Unite),
        33 => Some(Instr::Meet),
        34 => Some(Instr::Minus),
        35 => Some(Instr::Has),
        36 => Some(Instr::Succ),
        37 => Some(Instr::Pred),
        38 => Some(Instr::Ord),
        39 => Some(Instr::Chr),
        40 => Some(Instr::Jump(1)),
        41 => Some(Instr::Jfalse(2)),
        42 => Some(Instr::Jtrue(3)),
        43 => Some(Instr::Turn),
        44 => Some(Instr::Call {
            body: 1,
            routine: 0,
            arguments: 2,
        }),
        45 => Some(Instr::Ret),
        46 => Some(Instr::Fail(Fault::NoCase)),
        47 => Some(Instr::Blank),
        48 => Some(Instr::Init {
            modvar: 0,
            body: 2,
            arguments: 1,
        }),
        49 => Some(Instr::Release(3)),
        50 => Some(Instr::Connect(Point::Own(0), CHILD)),
        51 => Some(Instr::Disconnect(Ends::Point(Point::Own(4)))),
        52 => Some(Instr::Disconnect(Ends::Point(CHILD))),
        53 => Some(Instr::Disconnect(Ends::Child(5))),
        54 => Some(Instr::Attach {
            upper: 3,
            lower: CHILD,
        }),
        55 => Some(Instr::Detach(3)),
        56 => Some(Instr::Output {
            ip: 0,
            interaction: 4,
            arguments: 2,
        }),
        _ => None,
    }
}

fn instr_at(table: Table, at: usize) -> Option<Instr> {
    match table {
        Table::Zeroed => zeroed(at),
        Table::BelowThree => below_three(at),
        Table::OneMore => one_more(at),
        Table::All => any(at),
    }
}

/// The instructions of a table.
pub fn instrs(alloc: Global, table: Table) -> Result<Items<Instr>, AllocError> {
    let mut instrs = Items::new(alloc);
    for at in 0..100 {
        match instr_at(table, at) {
            None => break,
            Some(instr) => instrs.push(instr)?,
        }
    }
    Ok(instrs)
}

/// One instruction.
pub fn one(alloc: Global, instr: Instr) -> Result<Items<Instr>, AllocError> {
    let mut instrs = Items::new(alloc);
    instrs.push(instr)?;
    Ok(instrs)
}

/// A unit without locals, whose instructions are its own.
pub fn unit(heading: Heading, instrs: Items<Instr>) -> CodeUnit {
    CodeUnit {
        heading,
        locals: Shared::none(),
        instrs: Instrs::of(instrs),
    }
}

/// The heading of a body.
pub fn body(alloc: Global, body: u32, name: &[u8]) -> Result<CodeUnit, AllocError> {
    let name = Word::of(alloc, name)?;
    Ok(unit(Heading::Body { body, name }, Items::new(alloc)))
}
