//! One call of the program, over devices in memory.

use estelle_cli::{Status, estelle_plain};
use outside::{Clock, MemorySink, MemorySource, VirtualClock};
use std::alloc::{AllocError, Global};

/// How a device moves bytes.
#[derive(Clone, Copy)]
pub struct Device {
    /// How many bytes a call moves at most. None is taken as one.
    pub piece: usize,
    /// Which of its calls fails, counted from 1. None is 0.
    pub fails: u64,
}

/// A device that moves much at a time and never fails.
pub const STEADY: Device = Device {
    piece: 1_000_000,
    fails: 0,
};

#[derive(Clone, Copy)]
pub struct Devices {
    pub source: Device,
    pub out: Device,
    pub err: Device,
}

pub const ALL_STEADY: Devices = Devices {
    source: STEADY,
    out: STEADY,
    err: STEADY,
};

/// How many bytes out has room for.
const OUT_ROOM: usize = 400_000;

/// How many bytes err has room for.
const ERR_ROOM: usize = 100;

/// What a call answered, and what the devices are after it.
#[derive(Drop)]
pub struct Answer {
    pub status: Status,
    pub out: Vec<u8>,
    pub err: Vec<u8>,
    /// How many bytes of the input were read.
    pub bytes_read: usize,
    pub source_calls: u64,
    pub out_calls: u64,
    /// Where the clock stands.
    pub moment: u64,
}

impl Answer {
    /// Whether the call answers this status, and out and err hold these texts.
    pub(crate) fn is(&self, status: Status, out: &str, err: &str) -> bool {
        self.status == status
            && self.out.as_slice() == out.as_bytes()
            && self.err.as_slice() == err.as_bytes()
    }

    /// Whether the call refuses its text: nothing on out, and on err the one line with this reason.
    pub(crate) fn refuses(&self, reason: &str) -> bool {
        self.status == Status::Refused && self.out.is_empty() && is_line(&self.err, reason)
    }
}

/// Whether this is the line that tells of this reason.
pub(crate) fn is_line(bytes: &[u8], reason: &str) -> bool {
    match bytes.strip_prefix(b"estelle: ".as_slice()) {
        Some(told) => told.strip_suffix(b"\n".as_slice()) == Some(reason.as_bytes()),
        None => false,
    }
}

fn source(alloc: Global, device: Device, input: &[u8]) -> Result<MemorySource, AllocError> {
    Ok(MemorySource {
        bytes: input.to_vec(alloc)?,
        at: 0,
        piece: device.piece.max(1),
        failing: vec![in alloc; device.fails]?,
        calls: 0,
        faults: 0,
    })
}

fn sink(alloc: Global, device: Device, room: usize) -> Result<MemorySink, AllocError> {
    let held = Vec::with_capacity(alloc, room)?;
    Ok(MemorySink {
        held,
        piece: device.piece.max(1),
        failing: vec![in alloc; device.fails]?,
        calls: 0,
        room,
        faults: 0,
    })
}

/// Calls the program with these words on this input, and with this clock.
pub(crate) fn call_by<C: Clock + Drop>(
    alloc: Global,
    words: &[&str],
    devices: Devices,
    input: &[u8],
    clock: C,
) -> Result<(Answer, C), AllocError> {
    let mut source = source(alloc, devices.source, input)?;
    let mut out = sink(alloc, devices.out, OUT_ROOM)?;
    let mut err = sink(alloc, devices.err, ERR_ROOM)?;
    let (status, clock) = estelle_plain(alloc, words, &mut source, &mut out, &mut err, clock);
    let answer = Answer {
        status,
        out: out.held,
        err: err.held,
        bytes_read: source.at,
        source_calls: source.calls,
        out_calls: out.calls,
        moment: 0,
    };
    Ok((answer, clock))
}

/// Calls it with a clock that stands at this moment.
pub(crate) fn call_at(
    alloc: Global,
    words: &[&str],
    devices: Devices,
    input: &[u8],
    moment: u64,
) -> Result<Answer, AllocError> {
    let (mut answer, clock) = call_by(alloc, words, devices, input, VirtualClock { moment })?;
    answer.moment = clock.moment;
    Ok(answer)
}

/// Calls it with a clock that stands at the moment 7.
pub(crate) fn call(
    alloc: Global,
    words: &[&str],
    devices: Devices,
    input: &[u8],
) -> Result<Answer, AllocError> {
    call_at(alloc, words, devices, input, 7)
}

/// Calls it with the word `run`.
pub(crate) fn run(alloc: Global, devices: Devices, input: &[u8]) -> Result<Answer, AllocError> {
    call(alloc, &["run"], devices, input)
}
