//! The program `estelle`: the words behind its name, the standard streams, and the status with which
//! the process ends. `replay` runs in a thread of its own, with room for the deepest calls of a text.
#![tactic(auto)]

use board_workers::FreeGate;
use estelle_cli::{Status, estelle};
use outside::{MachineClock, StdSink, StdSource, write_all};
use std::alloc::AllocError;
use std::io::ErrorKind;
use std::process::ExitCode;
use std::sync::Wait;
use std::thread::{Builder, Threads};
use std::{env, io};

/// Bytes of stack. 200 calls, each behind 200 levels of a text, were seen to take 80 MB of it on trees.
const STACK: usize = 256 << 20;

/// The words behind the program's name. Where one is no UTF-8 text there are none, which has no
/// meaning either.
fn words(rt: &HostRuntime) -> io::Result<Vec<String>> {
    let mut words = Vec::new(rt.alloc());
    match env::args(rt) {
        Ok(arguments) => {
            for argument in arguments.skip(1) {
                words.push(argument)?;
            }
        }
        Err(error) if error.kind() == ErrorKind::InvalidData => {}
        Err(error) => return Err(error),
    }
    Ok(words)
}

fn run<R: Threads + Wait + Sync>(
    rt: &HostRuntime,
    threads: &R,
    words: &[String],
) -> Result<Status, AllocError> {
    let mut texts = Vec::new(rt.alloc());
    for word in words {
        texts.push(word.as_str())?;
    }
    let mut source = StdSource::new(rt.stdin());
    let mut out = StdSink::new(rt.stdout());
    let mut err = StdSink::new(rt.stderr());
    let clock = MachineClock::new(rt);
    let (status, _) = estelle(
        threads,
        rt.alloc(),
        &texts,
        &mut source,
        &mut out,
        &mut err,
        clock,
        &FreeGate,
    );
    Ok(status)
}

/// Want of memory before the program could begin.
fn no_memory(rt: &HostRuntime) -> Status {
    let mut err = StdSink::new(rt.stderr());
    let _ = write_all(&mut err, b"estelle: no memory\n");
    Status::Memory
}

/// Whether the words are those of `replay`, which evaluates bodies on their trees.
fn are_of_replay(words: &[String]) -> bool {
    match words.first() {
        Some(word) => word.as_str() == "replay",
        None => false,
    }
}

fn answer<R: Threads + Wait + Sync>(rt: &HostRuntime, threads: &R, words: &[String]) -> Status {
    match run(rt, threads, words) {
        Ok(status) => status,
        Err(_) => no_memory(rt),
    }
}

fn main(rt: HostRuntime) -> ExitCode {
    let status = match words(&rt) {
        Ok(words) => {
            if are_of_replay(&words) {
                match Builder::new()
                    .stack_size(STACK)
                    .spawn(&rt, move || answer(&rt, &rt, &words))
                {
                    Ok(thread) => thread.join(&rt),
                    Err(_) => no_memory(&rt),
                }
            } else {
                answer(&rt, &rt, &words)
            }
        }
        Err(_) => no_memory(&rt),
    };
    ExitCode::from(status.code())
}
