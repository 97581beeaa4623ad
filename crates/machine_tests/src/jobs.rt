//! What jobs come to.

use crate::codes::Of::{Block, Body, Initialize, Routine};
use crate::codes::Op::*;
use crate::codes::{Row, code};
use crate::subject::Received::{Nothing, Number, Truth};
use crate::subject::{Received, TEXT, head, image, numbers};
use body_code::Code;
use body_machine_jobs::run_job;
use body_numbers::Numbers;
use body_program::Program;
use body_state::is_in_order;
use estelle_model::{Done, Effect, Image, Job, Outcome, Part};
use estelle_tree::{Path, Sequence};
use pascal_values::Value;
use spec_accept::Checked;
use std::alloc::{AllocError, Global};
use test_texts::accepted;

/// `while n < 2 do n := n + 1`.
const LOOP: &[Row] = &[
    (Body(0), &[], &[]),
    (
        Block(1),
        &[],
        &[
            Jump(7),
            Var(0),
            Var(0),
            Load,
            Push(1),
            Add,
            Store(0),
            Var(0),
            Load,
            Push(2),
            Lt,
            Jfalse(14),
            Turn,
            Jump(1),
            Ret,
        ],
    ),
];

/// The code of a block of one body alone.
macro_rules! block {
    ($($op:expr),*) => {
        &[(Body(0), &[], &[]), (Block(1), &[], &[$($op),*])]
    };
}

/// Adds its first parameter, a value, to its second one, a place.
const ADDS: &[Row] = &[
    (Body(0), &[], &[]),
    (
        Routine(0),
        &[false, true],
        &[Ref(1), Ref(1), Load, Loc(0), Load, Add, Store(0), Ret],
    ),
    (Block(1), &[], &[Push(7), Var(0), Call(0, 2), Ret]),
];

/// Changes its value parameter, and reads an own variable, which is unset.
const COPIES: &[Row] = &[
    (Body(0), &[], &[]),
    (
        Routine(0),
        &[false, false],
        &[Loc(0), Push(9), Store(0), Loc(1), Load, Ret],
    ),
    (Block(1), &[], &[Var(0), Load, Call(0, 1), Ret]),
];

/// A function leaves its result to what stands on the stack of its caller.
const FUNCTION: &[Row] = &[
    (Body(0), &[], &[]),
    (Routine(0), &[false], &[Loc(0), Load, Push(4), Add, Ret]),
    (
        Block(1),
        &[],
        &[Var(0), Push(30), Push(2), Call(0, 1), Add, Store(0), Ret],
    ),
];

/// Calls itself without end.
const DEEP: &[Row] = &[
    (Body(0), &[], &[]),
    (Routine(0), &[], &[Call(0, 0), Ret]),
    (Block(1), &[], &[Call(0, 0), Ret]),
];

/// Makes a child, which takes a turn and sets its variable.
const CHILD: &[Row] = &[
    (Body(0), &[], &[]),
    (Block(1), &[], &[Init(1), Var(0), Push(8), Store(0), Ret]),
    (Body(1), &[], &[]),
    (Initialize, &[], &[Turn, Var(0), Push(3), Store(0), Ret]),
];

/// Makes a second child in the variable that holds the first.
const TAKEN: &[Row] = &[
    (Body(0), &[], &[]),
    (Block(1), &[], &[Init(1), Init(1), Ret]),
    (Body(1), &[], &[]),
    (Initialize, &[], &[Ret]),
];

/// The initialization of the specification.
const START: &[Row] = &[
    (Body(0), &[], &[]),
    (Initialize, &[], &[Turn, Var(0), Push(7), Store(0), Ret]),
];

/// Puts what was received into the variable.
const RECEIVES: &[Row] = &[
    (Body(0), &[], &[]),
    (Block(7), &[false], &[Var(0), Loc(0), Load, Store(0), Ret]),
];

/// A name, a code, the number of a transition, what it receives, the variable at first, the budget, and what is wanted.
type Case = (
    &'static str,
    &'static [Row],
    u32,
    Received,
    i64,
    u32,
    &'static str,
);

const CASES: [Case; 25] = [
    (
        "a loop of two turns",
        LOOP,
        1,
        Nothing,
        0,
        10,
        "left 8\n/ state 1 births 0 holds 2\n",
    ),
    (
        "no unit is left behind the last turn",
        LOOP,
        1,
        Nothing,
        0,
        2,
        "left 0\n/ state 1 births 0 holds 2\n",
    ),
    (
        "the last turn wants a unit",
        LOOP,
        1,
        Nothing,
        0,
        1,
        "fault StepLimit left 0\n",
    ),
    (
        "no turn at all",
        LOOP,
        1,
        Nothing,
        2,
        0,
        "left 0\n/ state 1 births 0 holds 2\n",
    ),
    (
        "a jump to its own address without a turn",
        block![Jump(0)],
        1,
        Nothing,
        0,
        10,
        "fault Unset left 10\n",
    ),
    (
        "a jump back uses its turn up",
        block![Turn, Jump(3), Jump(2), Jump(2)],
        1,
        Nothing,
        0,
        10,
        "fault Unset left 9\n",
    ),
    (
        "turns without end",
        block![Turn, Jump(0)],
        1,
        Nothing,
        0,
        10,
        "fault StepLimit left 0\n",
    ),
    (
        "a value and a place are given",
        ADDS,
        1,
        Nothing,
        5,
        10,
        "left 9\n/ state 1 births 0 holds 12\n",
    ),
    (
        "an own variable is unset",
        COPIES,
        1,
        Nothing,
        5,
        10,
        "fault Unset left 9\n",
    ),
    (
        "a function among operands",
        FUNCTION,
        1,
        Nothing,
        5,
        10,
        "left 9\n/ state 1 births 0 holds 36\n",
    ),
    (
        "too many calls deep",
        DEEP,
        1,
        Nothing,
        0,
        1000,
        "fault CallDepth left 799\n",
    ),
    (
        "the unit is taken before the depth is tested",
        DEEP,
        1,
        Nothing,
        0,
        200,
        "fault StepLimit left 0\n",
    ),
    (
        "a call of what is not there",
        block![Call(0, 0), Ret],
        1,
        Nothing,
        0,
        10,
        "fault Unset left 10\n",
    ),
    (
        "an output",
        block![Var(0), Load, Output(1), Ret],
        1,
        Nothing,
        5,
        10,
        "output /.0 m 5\nleft 9\n/ state 1 births 0 holds 5\n",
    ),
    (
        "an output wants a unit",
        block![Var(0), Load, Output(1), Ret],
        1,
        Nothing,
        5,
        0,
        "fault StepLimit left 0\n",
    ),
    (
        "a child is made, with its state",
        CHILD,
        1,
        Nothing,
        5,
        10,
        "create /1\nleft 8\n/ state 1 births 1 child /1 holds 8\n/1 state 1 births 0 holds 3\n",
    ),
    (
        "a module variable holds a child already",
        TAKEN,
        1,
        Nothing,
        5,
        10,
        "fault ModuleTaken left 8\n",
    ),
    (
        "the initialization",
        START,
        0,
        Nothing,
        5,
        10,
        "left 9\n/ state 0 births 0 holds 7\n",
    ),
    (
        "what is received",
        RECEIVES,
        7,
        Number(4),
        5,
        10,
        "left 10\n/ state 0 births 0 holds 4\n",
    ),
    (
        "what is received is of another kind",
        RECEIVES,
        7,
        Truth,
        5,
        10,
        "fault Unset left 10\n",
    ),
    (
        "there is no unit",
        START,
        1,
        Nothing,
        5,
        10,
        "fault Unset left 10\n",
    ),
    (
        "no end",
        block![Turn],
        1,
        Nothing,
        5,
        10,
        "fault Unset left 9\n",
    ),
    (
        "a value for a place",
        block![Turn, Push(1), Load],
        1,
        Nothing,
        5,
        10,
        "fault Unset left 9\n",
    ),
    (
        "a value outside its shape",
        block![Var(0), Push(4), Store(1), Ret],
        1,
        Nothing,
        5,
        10,
        "fault Range left 10\n",
    ),
    (
        "a fault that is said, after the variable was set",
        block![Var(0), Push(4), Store(0), Fail, Ret],
        1,
        Nothing,
        5,
        10,
        "fault NoCase left 10\n",
    ),
];

fn write_path(out: &mut String, path: &Path) -> Result<(), AllocError> {
    if path.items().is_empty() {
        write!(out, "/")?;
    }
    for number in path.items() {
        write!(out, "/{number}")?;
    }
    Ok(())
}

fn write_values(out: &mut String, values: &[Value]) -> Result<(), AllocError> {
    for value in values {
        match value {
            Value::Int(n) => write!(out, " {n}")?,
            _ => write!(out, " -")?,
        }
    }
    Ok(())
}

fn write_effect(out: &mut String, effect: &Effect) -> Result<(), AllocError> {
    match effect {
        Effect::Output { from, item, .. } => {
            write!(out, "output ")?;
            write_path(out, &from.path)?;
            write!(out, ".{} m", from.ip)?;
            write_values(out, item.values.items())?;
        }
        Effect::Create { part, .. } => {
            write!(out, "create ")?;
            write_path(out, &part.path)?;
        }
        _ => write!(out, "other")?,
    }
    writeln!(out)
}

fn write_part(out: &mut String, part: &Part) -> Result<(), AllocError> {
    write_path(out, &part.path)?;
    if let Some(state) = part.state {
        write!(out, " state {state}")?;
    }
    write!(out, " births {}", part.births)?;
    if let Some(Some(child)) = part.modvars.get(0) {
        write!(out, " child ")?;
        write_path(out, child)?;
    }
    write!(out, " holds")?;
    write_values(out, part.vars.items())?;
    writeln!(out)
}

fn write_ran(
    out: &mut String,
    image: &Image,
    effects: &[Effect],
    left: u32,
) -> Result<(), AllocError> {
    for effect in effects {
        write_effect(out, effect)?;
    }
    writeln!(out, "left {left}")?;
    for part in image.parts.items() {
        write_part(out, part)?;
    }
    Ok(())
}

fn write_done(out: &mut String, done: &Done) -> Result<(), AllocError> {
    let left = done.left;
    match &done.outcome {
        Outcome::Ran { image, effects } => write_ran(out, image, effects.items(), left),
        Outcome::Faulted(fault) => writeln!(out, "fault {fault:?} left {left}"),
    }
}

/// The job of a case.
fn job(alloc: Global, case: &Case) -> Result<Job, AllocError> {
    let (_, _, trans, received, n, budget, _) = *case;
    Ok(Job {
        ticket: 3,
        path: Path::root(alloc),
        trans,
        image: image(alloc, 0, n)?,
        head: head(alloc, received)?,
        budget,
    })
}

/// What the job of a case comes to, as a text; none where memory is refused.
fn told(
    alloc: Global,
    program: &Program,
    numbers: &Numbers,
    code: &Code,
    job: Job,
    out: &mut String,
) -> Result<(), AllocError> {
    if !is_in_order(&job.image) {
        return Ok(());
    }
    let done = run_job(alloc, program, numbers, code, job)?;
    write_done(out, &done)
}

/// Whether the job of a case comes to what is wanted.
fn comes(
    alloc: Global,
    program: &Program,
    numbers: &Numbers,
    case: &Case,
) -> Result<bool, AllocError> {
    let code = code(alloc, case.1)?;
    let mut out = String::new(alloc);
    told(alloc, program, numbers, &code, job(alloc, case)?, &mut out)?;
    Ok(out.as_str() == case.6)
}

/// The name of the first case that comes to something else, if one does.
fn first_wrong(alloc: Global, program: &Program) -> Result<Option<&'static str>, AllocError> {
    let numbers = numbers(alloc, program)?;
    for case in &CASES {
        if !comes(alloc, program, &numbers, case)? {
            return Ok(Some(case.0));
        }
    }
    Ok(None)
}

fn wrong_of(alloc: Global, checked: &Checked) -> Result<Option<&'static str>, AllocError> {
    let program = Program::new(alloc, &checked.spec, &checked.names)?;
    first_wrong(alloc, &program)
}

fn wrong(alloc: Global) -> Result<Option<&'static str>, AllocError> {
    match accepted(alloc, TEXT.as_bytes()) {
        Some(checked) => wrong_of(alloc, &checked),
        None => Ok(Some("the text")),
    }
}

#[test]
fn jobs_by_code(rt: HostRuntime) {
    assert_eq!(rt; wrong(rt.alloc()), Ok(None));
}
