//! One call of the program, over devices in memory.

use board_workers::Gate;
use estelle_cli::{Status, estelle};
use outside::{MemorySink, MemorySource, VirtualClock};
use std::alloc::{AllocError, Global};
use std::sync::Wait;
use std::thread::Threads;

/// How many bytes each sink has room for.
const ROOM: usize = 400_000;

/// What a call answered, and what the sinks took.
#[derive(Drop)]
pub(crate) struct Answer {
    pub(crate) status: Status,
    pub(crate) out: Vec<u8>,
    pub(crate) err: Vec<u8>,
}

fn sink(alloc: Global) -> Result<MemorySink, AllocError> {
    Ok(MemorySink {
        held: Vec::with_capacity(alloc, ROOM)?,
        piece: ROOM,
        failing: Vec::new(alloc),
        calls: 0,
        room: ROOM,
        faults: 0,
    })
}

/// Calls the program with these words on this input, and with a clock that stands at 0.
pub(crate) fn call<R: Threads + Wait + Sync, G: Gate + Sync>(
    rt: &R,
    alloc: Global,
    words: &[&str],
    input: &[u8],
    gate: &G,
) -> Result<Answer, AllocError> {
    let mut source = MemorySource {
        bytes: input.to_vec(alloc)?,
        at: 0,
        piece: ROOM,
        failing: Vec::new(alloc),
        calls: 0,
        faults: 0,
    };
    let mut out = sink(alloc)?;
    let mut err = sink(alloc)?;
    let clock = VirtualClock { moment: 0 };
    let (status, _) = estelle(
        rt,
        alloc,
        words,
        &mut source,
        &mut out,
        &mut err,
        clock,
        gate,
    );
    Ok(Answer {
        status,
        out: out.held,
        err: err.held,
    })
}
