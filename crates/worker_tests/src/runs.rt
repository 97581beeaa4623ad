//! Runs by workers, and what the judge says of their traces.

use crate::calls::{Answer, call};
use board_workers::FreeGate;
use estelle_cli::Status;
use std::alloc::{AllocError, Global};
use std::sync::Wait;
use std::test::Fail;
use std::thread::Threads;
use test_texts::WORKED;

/// The text with the trace behind it.
fn with_trace(alloc: Global, text: &str, trace: &[u8]) -> Result<Vec<u8>, AllocError> {
    let mut input = text.trim_end().as_bytes().to_vec(alloc)?;
    input.push(b'\n')?;
    input.extend_from_slice(trace)?;
    Ok(input)
}

/// The trace of a run with these words, and what the judge answers to it.
fn judged<R: Threads + Wait + Sync>(
    rt: &R,
    alloc: Global,
    words: &[&str],
    text: &str,
) -> Result<(Answer, Answer), AllocError> {
    let run = call(rt, alloc, words, text.as_bytes(), &FreeGate)?;
    let input = with_trace(alloc, text, run.out.as_slice())?;
    let judged = call(rt, alloc, &["replay"], input.as_slice(), &FreeGate)?;
    Ok((run, judged))
}

/// How many lines begin so.
fn lines_with(text: &[u8], start: &[u8]) -> usize {
    text.split(|byte| *byte == b'\n')
        .filter(|line| line.starts_with(start))
        .count()
}

/// Each worked text by one to four workers: the status is that of the run on one thread, and the judge accepts the trace. Where it goes on
/// for ever, 100 firings are enough.
#[test]
fn worked_texts_by_workers(rt: HostRuntime) -> Result<(), Fail> {
    for worked in &WORKED {
        let Ok(plain) = call(
            &rt,
            rt.alloc(),
            &["run", "--turns=100"],
            worked.text.as_bytes(),
            &FreeGate,
        ) else {
            return Err(Fail::new("memory"));
        };
        for number in ["1", "2", "3", "4"] {
            let words = ["run", "--turns=100", "--workers", number];
            if plain.status != Status::Refused {
                let Ok((run, judged)) = judged(&rt, rt.alloc(), &words, worked.text) else {
                    return Err(Fail::new("memory"));
                };
                assert!(rt; run.status == plain.status, "{} by {number}", worked.name);
                assert!(rt;
                    judged.status == Status::Done,
                    "{} by {number}",
                    worked.name
                );
            }
        }
    }
    Ok(())
}

/// A sender, a medium and a receiver make the same firings and outputs, whoever computes them.
#[test]
fn alternating_bit_by_four(rt: HostRuntime) -> Result<(), Fail> {
    let Some(protocol) = WORKED.iter().find(|it| it.name == "alternating_bit") else {
        return Err(Fail::new("no text"));
    };
    let words = ["run", "--workers", "4"];
    let Ok((run, judged)) = judged(&rt, rt.alloc(), &words, protocol.text) else {
        return Err(Fail::new("memory"));
    };
    assert!(rt; run.status == Status::Done);
    assert_eq!(rt; lines_with(run.out.as_slice(), b"fire /1 "), 93);
    assert_eq!(rt; lines_with(run.out.as_slice(), b"fire /2 "), 93);
    assert_eq!(rt; lines_with(run.out.as_slice(), b"fire /3 "), 40);
    assert_eq!(rt; lines_with(run.out.as_slice(), b"out "), 173);
    assert!(rt; judged.status == Status::Done);
    Ok(())
}
