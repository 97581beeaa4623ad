//! Pascal inside whole runs: values, order of evaluation, loops, calls and faults.

use crate::calls::{ALL_STEADY, Answer, is_line, run};
use crate::traces::is_trace;
use estelle_cli::Status;
use std::alloc::{AllocError, Global};
use std::test::Fail;
use test_texts::{COUNTER, COUNTER_TRACE, DEADLOCK, FAULTS, HOLDS, counter_with};

/// What a counter answers with these declarations and this block.
pub(crate) fn answer_of(alloc: Global, declared: &str, block: &str) -> Result<Answer, AllocError> {
    let text = counter_with(alloc, declared, "n < 3", block)?;
    run(alloc, ALL_STEADY, text.as_bytes())
}

/// Whether what is to hold does.
fn does_hold(alloc: Global, row: &(&str, &str, &str)) -> Result<bool, AllocError> {
    let (declared, done, holds) = row;
    let block = format!(in alloc; "{done}; if {holds} then n := 3 else n := 1 div 0")?;
    let answer = answer_of(alloc, declared, &block)?;
    Ok(answer.status == Status::Done && is_trace(&answer.out, 1, DEADLOCK))
}

// What values come to, and in which order: where the definitions and the code have one mistake.
#[test]
fn what_holds(rt: HostRuntime) -> Result<(), Fail> {
    for row in &HOLDS {
        assert!(rt; does_hold(rt.alloc(), row)?, "{}: {}", row.1, row.2);
    }
    Ok(())
}

/// The status, the trace and the line on err of a firing's fault.
fn is_fault(answer: &Answer, last: &str, reason: &str) -> bool {
    answer.status == Status::PascalFault
        && is_trace(&answer.out, 0, last)
        && is_line(&answer.err, reason)
}

/// Whether the fault that is to come first does.
fn does_fault(alloc: Global, row: &(&str, &str, &str)) -> Result<bool, AllocError> {
    let (declared, done, kind) = row;
    let last = format!(in alloc; "select / now 0 takes /:1\nfault / 1 {kind}\nend fault {kind}\n")?;
    let reason = format!(in alloc; "fault {kind}")?;
    let answer = answer_of(alloc, declared, done)?;
    Ok(is_fault(&answer, &last, &reason))
}

// Which fault comes first, with its name in the trace and on err.
#[test]
fn faults_of_firings(rt: HostRuntime) -> Result<(), Fail> {
    for row in &FAULTS {
        assert!(rt; does_fault(rt.alloc(), row)?, "{}", row.1);
    }
    Ok(())
}

fn counter_with_a_set(alloc: Global) -> Result<String, AllocError> {
    COUNTER
        .replace(alloc, "n: integer;", "n: integer; s: set of 0..9;")?
        .replace(
            alloc,
            "n := 0",
            "n := 0; s := [1, 3..4] * [1..4] + [9] - [3]",
        )
}

// A set that is computed beside the counter changes nothing of its trace.
#[test]
fn a_set_beside_the_counter(rt: HostRuntime) -> Result<(), Fail> {
    let text = counter_with_a_set(rt.alloc())?;
    let answer = run(rt.alloc(), ALL_STEADY, text.as_bytes())?;
    assert!(rt; answer.is(Status::Done, COUNTER_TRACE, ""));
    Ok(())
}
