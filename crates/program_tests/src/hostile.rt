//! Hostile use, each table whole: a protocol on devices that fail at each of their calls in turn, its text cut behind each byte, and a
//! trace cut behind each byte.

use crate::calls::{ALL_STEADY, Answer, Device, Devices, call, call_at, call_by};
use crate::systems::text_of;
use estelle_cli::Status;
use outside::ScriptClock;
use std::alloc::{AllocError, Global};
use std::test::Fail;

const PROTOCOL: &str = "alternating_bit";

fn protocol() -> &'static [u8] {
    text_of(PROTOCOL).as_bytes()
}

/// The run of the protocol on these devices.
fn run_on(alloc: Global, devices: Devices) -> Result<Answer, AllocError> {
    call_at(alloc, &["run"], devices, protocol(), 0)
}

/// The pieces of source and out, and how many calls the run then makes of each. The text has 1,132 bytes, and the source's last call
/// gives none. The trace has 16,890 bytes.
const CALLS: [(usize, u64, u64); 2] = [(100, 13, 169), (1000, 3, 17)];

/// Whether without a failure so many calls of source and out are made.
fn makes_calls(alloc: Global, row: &(usize, u64, u64)) -> Result<bool, AllocError> {
    let (piece, of_source, of_out) = row;
    let device = Device {
        piece: *piece,
        fails: 0,
    };
    let devices = Devices {
        source: device,
        out: device,
        err: device,
    };
    let answer = run_on(alloc, devices)?;
    Ok(
        answer.status == Status::Done
            && answer.source_calls == *of_source
            && answer.out_calls == *of_out,
    )
}

#[test]
fn calls_of_a_run(rt: HostRuntime) -> Result<(), Fail> {
    for row in &CALLS {
        assert!(rt; makes_calls(rt.alloc(), row)?, "pieces of {}", row.0);
    }
    Ok(())
}

/// Whether nothing is done where that call of the source fails.
fn source_fails(alloc: Global, piece: usize, fails: u64) -> Result<bool, AllocError> {
    let source = Device { piece, fails };
    let devices = Devices {
        source,
        ..ALL_STEADY
    };
    let answer = run_on(alloc, devices)?;
    Ok(
        answer.is(Status::ReadFault, "", "estelle: read fault\n")
            && answer.source_calls == fails
            && answer.out_calls == 0,
    )
}

#[test]
fn each_call_of_the_source(rt: HostRuntime) -> Result<(), Fail> {
    for (piece, calls, _) in &CALLS {
        for fails in 1..=*calls {
            assert!(rt;
                source_fails(rt.alloc(), *piece, fails)?,
                "pieces of {piece}, call {fails}"
            );
        }
    }
    Ok(())
}

/// Whether out holds what came before it where that call of out fails.
fn out_fails(
    alloc: Global,
    piece: usize,
    fails: u64,
    held: usize,
    whole: &[u8],
) -> Result<bool, AllocError> {
    let out = Device { piece, fails };
    let answer = run_on(alloc, Devices { out, ..ALL_STEADY })?;
    Ok(
        answer.status == Status::WriteFault
            && answer.err.as_slice() == b"estelle: write fault\n".as_slice()
            && answer.out_calls == fails
            && answer.out.len() == held
            && whole.starts_with(&answer.out),
    )
}

#[test]
fn each_call_of_out(rt: HostRuntime) -> Result<(), Fail> {
    let whole = run_on(rt.alloc(), ALL_STEADY)?;
    for (piece, _, calls) in &CALLS {
        let mut held = 0usize;
        for fails in 1..=*calls {
            assert!(rt;
                out_fails(rt.alloc(), *piece, fails, held, &whole.out)?,
                "pieces of {piece}, call {fails}"
            );
            held = held.saturating_add(*piece);
        }
    }
    Ok(())
}

/// How often the run asks the clock: for its moment at each of 441 selections, and to wait 13 times.
const ASKS: u64 = 454;

/// The run by a clock that fails at that call, and the clock after it.
fn run_by(alloc: Global, fails: u64) -> Result<(Answer, ScriptClock), AllocError> {
    let clock = ScriptClock {
        moment: 0,
        failing: vec![in alloc; fails]?,
        calls: 0,
        faults: 0,
    };
    call_by(alloc, &["run"], ALL_STEADY, protocol(), clock)
}

/// Whether the trace is that of the whole run as far as it goes, and then ends by the clock.
fn is_ended(answer: &Answer, whole: &[u8]) -> bool {
    match answer.out.strip_suffix(b"end clock\n".as_slice()) {
        Some(before) => {
            answer.status == Status::ClockFault
                && answer.err.as_slice() == b"estelle: clock fault\n".as_slice()
                && whole.starts_with(before)
        }
        None => false,
    }
}

fn clock_fails(alloc: Global, fails: u64, whole: &[u8]) -> Result<bool, AllocError> {
    let (answer, clock) = run_by(alloc, fails)?;
    Ok(is_ended(&answer, whole) && clock.calls == fails && clock.faults == 1)
}

fn makes_asks(alloc: Global) -> Result<bool, AllocError> {
    let (answer, clock) = run_by(alloc, 0)?;
    Ok(answer.status == Status::Done && clock.calls == ASKS && clock.faults == 0)
}

#[test]
fn asks_of_a_run(rt: HostRuntime) -> Result<(), Fail> {
    assert!(rt; makes_asks(rt.alloc())?);
    Ok(())
}

#[test]
fn each_call_of_the_clock(rt: HostRuntime) -> Result<(), Fail> {
    let whole = run_on(rt.alloc(), ALL_STEADY)?;
    for fails in 1..=ASKS {
        assert!(rt; clock_fails(rt.alloc(), fails, &whole.out)?, "call {fails}");
    }
    Ok(())
}

// ---- cut texts

#[derive(Clone, Copy)]
struct Place {
    line: u32,
    column: u32,
}

const BEGIN: Place = Place { line: 1, column: 1 };

impl Place {
    /// The place behind a byte that stands here.
    fn behind(self, byte: u8) -> Place {
        if byte == b'\n' {
            return Place {
                line: self.line.saturating_add(1),
                column: 1,
            };
        }
        Place {
            line: self.line,
            column: self.column.saturating_add(1),
        }
    }
}

/// How a text ends.
#[derive(Clone, Copy)]
struct Ending {
    /// Behind its last byte.
    end: Place,
    /// Where the word or symbol begins at whose end it is cut; the end itself behind a blank.
    last: Place,
    in_word: bool,
}

const NOTHING: Ending = Ending {
    end: BEGIN,
    last: BEGIN,
    in_word: false,
};

impl Ending {
    /// With one byte more.
    fn with(self, byte: u8) -> Ending {
        let end = self.end.behind(byte);
        if byte == b' ' || byte == b'\n' {
            return Ending {
                end,
                last: end,
                in_word: false,
            };
        }
        let in_word = byte.is_ascii_alphanumeric();
        let last = if in_word && self.in_word {
            self.last
        } else {
            self.end
        };
        Ending { end, last, in_word }
    }
}

fn is_refused_at(alloc: Global, answer: &Answer, place: Place) -> Result<bool, AllocError> {
    let reason = format!(in alloc; "syntax {}:{}", place.line, place.column)?;
    Ok(answer.refuses(&reason))
}

/// Whether the text that ends so is refused at its end, or at its last word or symbol, which is cut.
fn is_cut(alloc: Global, text: &[u8], ending: Ending) -> Result<bool, AllocError> {
    let answer = call(alloc, &["check"], ALL_STEADY, text)?;
    Ok(is_refused_at(alloc, &answer, ending.end)? || is_refused_at(alloc, &answer, ending.last)?)
}

fn is_accepted(alloc: Global, text: &[u8]) -> Result<bool, AllocError> {
    let answer = call(alloc, &["check"], ALL_STEADY, text)?;
    Ok(answer.is(Status::Done, "accepted\n", ""))
}

// The last token is the point, behind which a line ends.
#[test]
fn a_text_cut_behind_each_byte(rt: HostRuntime) -> Result<(), Fail> {
    let mut text = Vec::new(rt.alloc());
    let mut ending = NOTHING;
    for byte in protocol() {
        if text.len() < 1131 {
            assert!(rt; is_cut(rt.alloc(), &text, ending)?, "{} bytes", text.len());
        } else {
            assert!(rt; is_accepted(rt.alloc(), &text)?);
        }
        text.push(*byte)?;
        ending = ending.with(*byte);
    }
    assert!(rt; is_accepted(rt.alloc(), &text)?);
    Ok(())
}

/// The trace of the worked text of a shared queue.
const SHARED: &str =
    "estelle trace 1\nstart\nselect /1 now 0 takes /1:1\nselect /2 now 0 takes -\nfire /1 1\nout /1.o1 m(1)\nout /1.o2 m(2)\nselect /1 now 0 takes -\nselect /2 now 0 takes -\nend deadlock\n";

/// Whether a replay refuses this line of the trace.
fn is_bad_line(alloc: Global, input: &[u8], line: u32) -> Result<bool, AllocError> {
    let answer = call(alloc, &["replay"], ALL_STEADY, input)?;
    let reason = format!(in alloc; "bad trace line {line}")?;
    Ok(answer.refuses(&reason))
}

fn is_replayed(alloc: Global, input: &[u8]) -> Result<bool, AllocError> {
    let answer = call(alloc, &["replay"], ALL_STEADY, input)?;
    Ok(answer.is(Status::Done, "accepted 6\n", ""))
}

// What is cut or missing is told by its line.
#[test]
fn a_trace_cut_behind_each_byte(rt: HostRuntime) -> Result<(), Fail> {
    let mut input = text_of("shared_queue").as_bytes().to_vec(rt.alloc())?;
    let mut line = 1u32;
    for byte in SHARED.as_bytes() {
        assert!(rt; is_bad_line(rt.alloc(), &input, line)?, "line {line}");
        input.push(*byte)?;
        if *byte == b'\n' {
            line = line.saturating_add(1);
        }
    }
    assert!(rt; is_replayed(rt.alloc(), &input)?);
    Ok(())
}
