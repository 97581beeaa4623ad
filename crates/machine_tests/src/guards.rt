//! What guards come to.

use crate::codes::Of::{Body, Delay, Guard};
use crate::codes::Op::*;
use crate::codes::{Row, code};
use crate::subject::Received::{Nothing, Number, Truth};
use crate::subject::{Received, TEXT, head, image, numbers};
use body_code::Code;
use body_machine_jobs::run_guard;
use body_numbers::Numbers;
use body_program::Program;
use body_state::View;
use estelle_model::{Guard as Answer, Image, Interaction};
use estelle_tree::{Path, Sequence};
use pascal_values::Fault;
use spec_accept::Checked;
use std::alloc::{AllocError, Global};
use test_texts::accepted;

/// `n < 2`.
const BELOW: &[Row] = &[
    (Body(0), &[], &[]),
    (Guard(2), &[], &[Var(0), Load, Push(2), Lt, Ret]),
];

/// A sum that no integer is.
const OVERFLOWS: &[Row] = &[
    (Body(0), &[], &[]),
    (Guard(2), &[], &[Push(i64::MAX), Var(0), Load, Add, Ret]),
];

/// A number in place of a truth value.
const NO_TRUTH: &[Row] = &[(Body(0), &[], &[]), (Guard(2), &[], &[Var(0), Load, Ret])];

/// More than one value.
const TWO_LEFT: &[Row] = &[(Body(0), &[], &[]), (Guard(2), &[], &[True, True, Ret])];

/// The delay of the third transition: the variable, and 5.
const BOUNDS: &[Row] = &[
    (Body(0), &[], &[]),
    (Guard(3), &[], &[True, Ret]),
    (Delay(3), &[], &[Var(0), Load, Push(5), Ret]),
];

/// A delay that is never to be evaluated.
const NO_DELAY: &[Row] = &[
    (Body(0), &[], &[]),
    (Guard(3), &[], &[True, Ret]),
    (Delay(3), &[], &[Fail, Ret]),
];

/// The delays of the fourth and the fifth transition: the variable.
const ONE_VALUE: &[Row] = &[
    (Body(0), &[], &[]),
    (Guard(4), &[], &[True, Ret]),
    (Delay(4), &[], &[Var(0), Load, Ret]),
    (Guard(5), &[], &[True, Ret]),
    (Delay(5), &[], &[Var(0), Load, Ret]),
];

/// The sixth transition: a turn each for `provided` and for the delay.
const TURNS: &[Row] = &[
    (Body(0), &[], &[]),
    (Guard(6), &[], &[Turn, Var(0), Load, Push(2), Lt, Ret]),
    (Delay(6), &[], &[Turn, Var(0), Load, Push(5), Ret]),
];

/// The seventh transition: what is received is below 3.
const RECEIVES: &[Row] = &[
    (Body(0), &[], &[]),
    (Guard(7), &[false], &[Loc(0), Load, Push(3), Lt, Ret]),
];

/// A name, a code, the number of a transition, the state, the variable, what is at the head, whether a timer runs, the budget,
/// and what is wanted.
type Case = (
    &'static str,
    &'static [Row],
    u32,
    u32,
    i64,
    Received,
    bool,
    u32,
    Answer,
);

const NOW: Answer = Answer::On {
    low: 0,
    high: Some(0),
};

const CASES: [Case; 24] = [
    ("true", BELOW, 2, 0, 1, Nothing, false, 9, NOW),
    ("false", BELOW, 2, 0, 2, Nothing, false, 9, Answer::Off),
    (
        "another state",
        BELOW,
        2,
        1,
        1,
        Nothing,
        false,
        9,
        Answer::Off,
    ),
    (
        "no transition",
        BELOW,
        8,
        0,
        1,
        Nothing,
        false,
        9,
        Answer::Off,
    ),
    (
        "a fault",
        OVERFLOWS,
        2,
        0,
        1,
        Nothing,
        false,
        9,
        Answer::Faulted(Fault::Overflow),
    ),
    (
        "no unit",
        BOUNDS,
        2,
        0,
        1,
        Nothing,
        false,
        9,
        Answer::Faulted(Fault::Unset),
    ),
    (
        "a number",
        NO_TRUTH,
        2,
        0,
        1,
        Nothing,
        false,
        9,
        Answer::Faulted(Fault::Unset),
    ),
    (
        "two values",
        TWO_LEFT,
        2,
        0,
        1,
        Nothing,
        false,
        9,
        Answer::Faulted(Fault::Unset),
    ),
    (
        "two bounds",
        BOUNDS,
        3,
        0,
        1,
        Nothing,
        false,
        9,
        Answer::On {
            low: 1,
            high: Some(5),
        },
    ),
    (
        "bounds that fall",
        BOUNDS,
        3,
        0,
        6,
        Nothing,
        false,
        9,
        Answer::Faulted(Fault::DelayRange),
    ),
    (
        "a bound below 0",
        BOUNDS,
        3,
        0,
        -1,
        Nothing,
        false,
        9,
        Answer::Faulted(Fault::DelayRange),
    ),
    ("a timer runs", NO_DELAY, 3, 0, 1, Nothing, true, 9, NOW),
    (
        "no timer runs",
        NO_DELAY,
        3,
        0,
        1,
        Nothing,
        false,
        9,
        Answer::Faulted(Fault::NoCase),
    ),
    (
        "one value for both",
        ONE_VALUE,
        4,
        0,
        3,
        Nothing,
        false,
        9,
        Answer::On {
            low: 3,
            high: Some(3),
        },
    ),
    (
        "no second bound",
        ONE_VALUE,
        5,
        0,
        3,
        Nothing,
        false,
        9,
        Answer::On { low: 3, high: None },
    ),
    (
        "one budget for both units",
        TURNS,
        6,
        0,
        1,
        Nothing,
        false,
        2,
        Answer::On {
            low: 1,
            high: Some(5),
        },
    ),
    (
        "the delay wants a unit",
        TURNS,
        6,
        0,
        1,
        Nothing,
        false,
        1,
        Answer::Faulted(Fault::StepLimit),
    ),
    (
        "where provided is false, no delay",
        TURNS,
        6,
        0,
        2,
        Nothing,
        false,
        1,
        Answer::Off,
    ),
    (
        "where a timer runs, no unit for the delay",
        TURNS,
        6,
        0,
        1,
        Nothing,
        true,
        1,
        NOW,
    ),
    (
        "what waits is named",
        RECEIVES,
        7,
        0,
        5,
        Number(2),
        false,
        9,
        NOW,
    ),
    (
        "what waits is refused",
        RECEIVES,
        7,
        0,
        2,
        Number(5),
        false,
        9,
        Answer::Off,
    ),
    (
        "nothing waits",
        RECEIVES,
        7,
        0,
        2,
        Nothing,
        false,
        9,
        Answer::Off,
    ),
    (
        "what waits is of another kind",
        RECEIVES,
        7,
        0,
        2,
        Truth,
        false,
        9,
        Answer::Faulted(Fault::Unset),
    ),
    (
        "without a unit for provided",
        RECEIVES,
        3,
        0,
        2,
        Nothing,
        true,
        9,
        Answer::Faulted(Fault::Unset),
    ),
];

/// What the guard of a case comes to.
fn told(
    alloc: Global,
    program: &Program,
    numbers: &Numbers,
    code: &Code,
    view: &View,
    head: Option<&Interaction>,
    case: &Case,
) -> Result<bool, AllocError> {
    if !view.is_in_order() {
        return Ok(false);
    }
    let (_, _, trans, _, _, _, timed, budget, wanted) = *case;
    let path = Path::root(alloc);
    let answer = run_guard(
        alloc, program, numbers, code, &path, view, trans, head, timed, budget,
    )?;
    Ok(answer == wanted)
}

/// The same on an image.
fn comes_on(
    alloc: Global,
    program: &Program,
    numbers: &Numbers,
    code: &Code,
    image: &Image,
    head: Option<&Interaction>,
    case: &Case,
) -> Result<bool, AllocError> {
    let mut parts = Vec::new(alloc);
    for part in image.parts.as_slice() {
        parts.push(part)?;
    }
    let view = View::of(&parts, image.links.as_slice());
    told(alloc, program, numbers, code, &view, head, case)
}

/// Whether the guard of a case comes to what is wanted.
fn comes(
    alloc: Global,
    program: &Program,
    numbers: &Numbers,
    case: &Case,
) -> Result<bool, AllocError> {
    let (_, rows, _, state, n, received, ..) = *case;
    let code = code(alloc, rows)?;
    let image = image(alloc, state, n)?;
    let head = head(alloc, received)?;
    comes_on(alloc, program, numbers, &code, &image, head.as_ref(), case)
}

/// The name of the first case that comes to something else, if one does.
fn first_wrong(alloc: Global, program: &Program) -> Result<Option<&'static str>, AllocError> {
    let numbers = numbers(alloc, program)?;
    for case in &CASES {
        if !comes(alloc, program, &numbers, case)? {
            return Ok(Some(case.0));
        }
    }
    Ok(None)
}

fn wrong_of(alloc: Global, checked: &Checked) -> Result<Option<&'static str>, AllocError> {
    let program = Program::new(alloc, &checked.spec, &checked.names)?;
    first_wrong(alloc, &program)
}

fn wrong(alloc: Global) -> Result<Option<&'static str>, AllocError> {
    match accepted(alloc, TEXT.as_bytes()) {
        Some(checked) => wrong_of(alloc, &checked),
        None => Ok(Some("the text")),
    }
}

#[test]
fn guards_by_code(rt: HostRuntime) {
    assert_eq!(rt; wrong(rt.alloc()), Ok(None));
}
