//! Texts that run, and texts that do not.

use crate::calls::{ALL_STEADY, Answer, call, run};
use crate::traces::is_trace;
use estelle_cli::Status;
use std::alloc::{AllocError, Global};
use std::test::Fail;
use test_texts::{DEADLOCK, FORMS_THAT_ARE_REFUSED, FORMS_THAT_RUN, TOTAL, WORKED, Worked};

/// What the text answers with a part of it replaced.
fn answer_with(alloc: Global, old: &str, new: &str) -> Result<Answer, AllocError> {
    let text = TOTAL.replace(alloc, old, new)?;
    run(alloc, ALL_STEADY, text.as_bytes())
}

/// Whether a text that runs has its trace, and err is told something where it does not end well.
fn runs(alloc: Global, row: &(&str, &str, u32, &str)) -> Result<bool, AllocError> {
    let (old, new, firings, last) = row;
    if !TOTAL.contains(*old) {
        return Ok(false);
    }
    let answer = answer_with(alloc, old, new)?;
    Ok(
        is_trace(&answer.out, *firings, last)
            && (answer.status == Status::Done) == answer.err.is_empty(),
    )
}

// What the grammar allows: each part that may be left out, present and absent, and how tokens may be written.
#[test]
fn forms_that_run(rt: HostRuntime) -> Result<(), Fail> {
    for row in &FORMS_THAT_RUN {
        assert!(rt; runs(rt.alloc(), row)?, "{}: {}", row.0, row.1);
    }
    Ok(())
}

#[test]
fn in_capitals(rt: HostRuntime) -> Result<(), Fail> {
    let upper = TOTAL.to_ascii_uppercase(rt.alloc())?;
    let answer = run(rt.alloc(), ALL_STEADY, upper.as_bytes())?;
    assert!(rt; is_trace(&answer.out, 3, DEADLOCK));
    Ok(())
}

/// Whether a text that is refused is told so, with its reason.
fn is_refused(alloc: Global, row: &(&str, &str, &str)) -> Result<bool, AllocError> {
    let (old, new, reason) = row;
    let answer = answer_with(alloc, old, new)?;
    Ok(answer.refuses(reason))
}

// What the grammar does not allow, what it allows but the program does not run, and what breaks a rule: each part
// that may not be left out, left out; what later texts may have; symbols and numbers that are no tokens; and names
// that are not declared, clash or are of another kind. Each with the reason that comes first, and its place.
#[test]
fn texts_that_are_refused(rt: HostRuntime) -> Result<(), Fail> {
    for row in &FORMS_THAT_ARE_REFUSED {
        assert!(rt; is_refused(rt.alloc(), row)?, "{}: {}", row.0, row.1);
    }
    Ok(())
}

/// A specification with so many transitions, of which none is ever enabled.
fn with_transitions(alloc: Global, count: u32) -> Result<Vec<u8>, AllocError> {
    let mut text = Vec::new(alloc);
    text.extend_from_slice(b"specification many systemprocess;\ntrans\n")?;
    for _ in 0..count {
        text.extend_from_slice(b"provided false begin end;\n")?;
    }
    text.extend_from_slice(b"end.\n")?;
    Ok(text)
}

fn answer_to_many(alloc: Global, count: u32) -> Result<Answer, AllocError> {
    let text = with_transitions(alloc, count)?;
    run(alloc, ALL_STEADY, &text)
}

// The most transitions that are run.
#[test]
fn most_transitions(rt: HostRuntime) -> Result<(), Fail> {
    let answer = answer_to_many(rt.alloc(), 4096)?;
    assert!(rt; is_trace(&answer.out, 0, DEADLOCK));
    Ok(())
}

#[test]
fn one_transition_more(rt: HostRuntime) -> Result<(), Fail> {
    let answer = answer_to_many(rt.alloc(), 4097)?;
    assert!(rt; answer.refuses("rule 33 1:1"));
    Ok(())
}

/// Whether `check` accepts a worked text, or names the rule that the one of them that breaks a rule breaks.
fn is_judged(alloc: Global, worked: &Worked) -> Result<bool, AllocError> {
    let answer = call(alloc, &["check"], ALL_STEADY, worked.text.as_bytes())?;
    Ok(if worked.name == "process_in_activity" {
        answer.refuses("rule 14 3:8")
    } else {
        answer.is(Status::Done, "accepted\n", "")
    })
}

// Each worked text but one keeps all rules.
#[test]
fn worked_texts_are_judged(rt: HostRuntime) -> Result<(), Fail> {
    for worked in &WORKED {
        assert!(rt; is_judged(rt.alloc(), worked)?, "{}", worked.name);
    }
    Ok(())
}
