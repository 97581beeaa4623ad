//! Calls on devices that fail, and on devices that move few bytes at a time.

use crate::calls::{ALL_STEADY, Answer, Device, Devices, call, run};
use estelle_cli::Status;
use std::alloc::{AllocError, Global};
use std::test::Fail;
use test_texts::{COUNTER, COUNTER_TRACE, OVERFLOW_TRACE, OVERFLOWING};

/// A device's piece and its failing call.
type Moves = (usize, u64);

const WHOLE: Moves = (4096, 0);

const FAILS_AT_ONCE: Moves = (4096, 1);

const NO_SYNTAX: &str = "estelle: syntax 1:1\n";

const READ_FAULT: &str = "estelle: read fault\n";

const WRITE_FAULT: &str = "estelle: write fault\n";

/// The name of a row; how source, out and err move bytes; the input; what out and err then hold, and the status.
type Row = (
    &'static str,
    (Moves, Moves, Moves),
    &'static str,
    &'static str,
    &'static str,
    Status,
);

const ROWS: [Row; 14] = [
    (
        "out fails at its second call",
        (WHOLE, (8, 2), WHOLE),
        COUNTER,
        "estelle ",
        WRITE_FAULT,
        Status::WriteFault,
    ),
    (
        "out fails at once",
        (WHOLE, FAILS_AT_ONCE, WHOLE),
        COUNTER,
        "",
        WRITE_FAULT,
        Status::WriteFault,
    ),
    (
        "out fails, and the run faults",
        (WHOLE, (8, 2), WHOLE),
        OVERFLOWING,
        "estelle ",
        WRITE_FAULT,
        Status::WriteFault,
    ),
    (
        "the source fails at once",
        (FAILS_AT_ONCE, WHOLE, WHOLE),
        COUNTER,
        "",
        READ_FAULT,
        Status::ReadFault,
    ),
    (
        "the source fails behind a text to be refused",
        ((4096, 2), WHOLE, WHOLE),
        "x",
        "",
        READ_FAULT,
        Status::ReadFault,
    ),
    (
        "source and out fail",
        (FAILS_AT_ONCE, FAILS_AT_ONCE, WHOLE),
        COUNTER,
        "",
        READ_FAULT,
        Status::ReadFault,
    ),
    (
        "the source gives a byte a call",
        ((1, 0), WHOLE, WHOLE),
        COUNTER,
        COUNTER_TRACE,
        "",
        Status::Done,
    ),
    (
        "all move a byte a call",
        ((1, 0), (1, 0), (1, 0)),
        "x",
        "",
        NO_SYNTAX,
        Status::Refused,
    ),
    (
        "err fails at once, refused",
        (WHOLE, WHOLE, FAILS_AT_ONCE),
        "",
        "",
        "",
        Status::Refused,
    ),
    (
        "err fails at its tenth byte, refused",
        (WHOLE, WHOLE, (1, 10)),
        "",
        "",
        "estelle: ",
        Status::Refused,
    ),
    (
        "err fails at its third call, read fault",
        (FAILS_AT_ONCE, WHOLE, (4, 3)),
        COUNTER,
        "",
        "estelle:",
        Status::ReadFault,
    ),
    (
        "err fails at once, write fault",
        (WHOLE, (8, 2), FAILS_AT_ONCE),
        COUNTER,
        "estelle ",
        "",
        Status::WriteFault,
    ),
    (
        "err fails at its second byte, the run faults",
        (WHOLE, WHOLE, (1, 2)),
        OVERFLOWING,
        OVERFLOW_TRACE,
        "e",
        Status::PascalFault,
    ),
    (
        "err would fail, and is not called",
        (WHOLE, WHOLE, FAILS_AT_ONCE),
        COUNTER,
        COUNTER_TRACE,
        "",
        Status::Done,
    ),
];

/// The pieces of source and out, and how many calls the counter's run then makes of each. The counter has 169
/// bytes, and the source's last call gives none: 169 / piece, rounded up, and 1 more. The trace has 160 bytes:
/// 160 / piece, rounded up.
const CALLS: [(usize, u64, u64); 4] = [(1, 170, 160), (7, 26, 23), (40, 6, 4), (200, 2, 1)];

fn device(moves: Moves) -> Device {
    Device {
        piece: moves.0,
        fails: moves.1,
    }
}

/// Whether the call of a row answers what is wanted.
fn holds(alloc: Global, row: &Row) -> Result<bool, AllocError> {
    let (_, (source, out, err), input, held, line, status) = row;
    let devices = Devices {
        source: device(*source),
        out: device(*out),
        err: device(*err),
    };
    let answer = run(alloc, devices, input.as_bytes())?;
    Ok(answer.is(*status, held, line))
}

// Which status wins, what err is told, and that faults of err change no status.
#[test]
fn failing_devices(rt: HostRuntime) -> Result<(), Fail> {
    for row in &ROWS {
        assert!(rt; holds(rt.alloc(), row)?, "{}", row.0);
    }
    Ok(())
}

// Words without a meaning, told to err as far as it goes.
#[test]
fn words_where_err_fails(rt: HostRuntime) -> Result<(), Fail> {
    let err = device((1, 4));
    let devices = Devices { err, ..ALL_STEADY };
    let answer = call(rt.alloc(), &[], devices, COUNTER.as_bytes())?;
    assert!(rt; answer.is(Status::Usage, "", "est"));
    Ok(())
}

/// Whether that call of the source failed, of so many that a whole run makes. None failed if it is 0.
fn is_of_source(answer: &Answer, fails: u64, calls: u64) -> bool {
    if fails == 0 {
        return answer.status == Status::Done && answer.source_calls == calls;
    }
    answer.status == Status::ReadFault && answer.source_calls == fails && answer.out_calls == 0
}

/// Whether the counter's run is as wanted where that call of the source fails.
fn source_fails(alloc: Global, piece: usize, fails: u64, calls: u64) -> Result<bool, AllocError> {
    let source = device((piece, fails));
    let devices = Devices {
        source,
        ..ALL_STEADY
    };
    let answer = run(alloc, devices, COUNTER.as_bytes())?;
    Ok(is_of_source(&answer, fails, calls))
}

// Each call of the source failing in turn: nothing is written, and the source is not called again.
#[test]
fn each_call_of_the_source_fails(rt: HostRuntime) -> Result<(), Fail> {
    for (piece, calls, _) in &CALLS {
        for fails in 0..=*calls {
            assert!(rt;
                source_fails(rt.alloc(), *piece, fails, *calls)?,
                "pieces of {piece}, call {fails}"
            );
        }
    }
    Ok(())
}

/// Whether that call of out failed, of so many that a whole run makes, and out holds so many bytes. None failed if it
/// is 0.
fn is_of_out(answer: &Answer, fails: u64, calls: u64, held: usize) -> bool {
    if fails == 0 {
        return answer.is(Status::Done, COUNTER_TRACE, "") && answer.out_calls == calls;
    }
    answer.status == Status::WriteFault
        && answer.out_calls == fails
        && answer.out.len() == held
        && COUNTER_TRACE.as_bytes().starts_with(&answer.out)
}

/// Whether the counter's run is as wanted where that call of out fails.
fn out_fails(
    alloc: Global,
    piece: usize,
    fails: u64,
    calls: u64,
    held: usize,
) -> Result<bool, AllocError> {
    let out = device((piece, fails));
    let devices = Devices { out, ..ALL_STEADY };
    let answer = run(alloc, devices, COUNTER.as_bytes())?;
    Ok(is_of_out(&answer, fails, calls, held))
}

// Each call of out failing in turn: what came before it is held, and out is not called again.
#[test]
fn each_call_of_out_fails(rt: HostRuntime) -> Result<(), Fail> {
    for (piece, _, calls) in &CALLS {
        let mut held = 0usize;
        for fails in 0..=*calls {
            assert!(rt;
                out_fails(rt.alloc(), *piece, fails, *calls, held)?,
                "pieces of {piece}, call {fails}"
            );
            if fails > 0 {
                held = held.saturating_add(*piece);
            }
        }
    }
    Ok(())
}
