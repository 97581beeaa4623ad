//! Worked runs of several systems, and of systems with delays.

use crate::calls::{ALL_STEADY, Answer, call_at, call_by};
use crate::systems::text_of;
use estelle_cli::Status;
use outside::ScriptClock;
use std::alloc::{AllocError, Global};
use std::test::Fail;

const IDLE: &str = "specification idle; end.";

const IDLE_SYSTEM: &str = "specification idle systemprocess; end.";

/// The higher priority goes first.
const PRIORITIES: &str = "specification count systemprocess;
var n: integer;
state go;
initialize to go begin n := 0 end;
trans
from go to go provided n < 2 priority 2 begin n := n + 1 end;
from go to go provided n < 1 priority 1 begin n := n + 1 end;
end.
";

/// One of four variants is enabled once.
const VARIANTS: &str = "specification count systemprocess;
var n: integer;
state go;
initialize to go begin n := 0 end;
trans
from go to go any i: 1..2; j: boolean do provided (i = 2) and j and (n < 1) name tick: begin n := n + 1 end;
end.
";

/// The shared queue, with a queue of its own for each point.
const QUEUES_OF_THEIR_OWN: &str = "specification q14;
channel c(a, b); by a: m(i: integer);
module src systemprocess; ip o1, o2: c(a); end;
module hub systemprocess; ip p, q: c(b) individual queue; end;
body sb for src;
state go, done;
initialize to go begin end;
trans from go to done begin output o1.m(1); output o2.m(2) end;
end;
body hb for hub;
trans when q.m begin end;
end;
modvar u: src; v: hub;
initialize begin
  init u with sb; init v with hb;
  connect u.o1 to v.p; connect u.o2 to v.q
end;
end.
";

/// A transition that is never enabled stands beside one with a delay.
const SPONTANEOUS: &str =
    "specification d systemprocess; state go, done; initialize to go begin end; trans from go to done delay(3, 5) begin end; from go to go provided false begin end; end.";

/// Its delay has no end, and is over at once.
const OPEN_DELAY: &str =
    "specification d systemprocess; state go, done; initialize to go begin end; trans from go to done delay(0, *) begin end; end.";

const SPOILED_DELAY: &str =
    "specification d systemprocess; state go, done; initialize to go begin end; trans from go to done delay(5, 3) begin end; end.";

/// A child is released to whose own child its interaction point is attached further.
const RELEASED_BELOW: &str = "specification below;
channel c(a, b); by a: m(i: integer);
module src systemprocess; ip o: c(a); end;
module hub systemprocess; ip p: c(b); end;
body sb for src;
state go, done;
initialize to go begin end;
trans from go to done begin output o.m(1); output o.m(2) end;
end;
body hb for hub;
module leaf process; ip q: c(b); end;
body lb for leaf;
module deep process; ip t: c(b); end;
body db for deep; end;
modvar y: deep;
initialize begin init y with db; attach q to y.t end;
end;
modvar x: leaf;
state s0, s1, s2;
initialize to s0 begin init x with lb; attach p to x.q end;
trans
from s0 to s1 delay(1) begin release x end;
from s1 to s2 when p.m begin end;
end;
modvar u: src; v: hub;
initialize begin init u with sb; init v with hb; connect u.o to v.p end;
end.
";

/// A module variable is emptied, and holds another instance in the same block.
const HELD_AGAIN: &str = "specification again systemprocess;
module m process; export v: integer; end;
body b for m;
initialize begin v := 1 end;
trans provided v = 3 begin v := 4 end;
end;
modvar x: m;
state s0, s1, s2;
initialize to s0 begin init x with b end;
trans
from s0 to s1 begin release x; init x with b; x.v := x.v + 1 end;
from s1 to s2 provided x.v = 2 begin x.v := 3 end;
end.
";

/// Of two points with one queue the one is attached, and detached with what waits, behind what waits at the other one.
const SHARED_AND_DETACHED: &str = "specification shared;
channel c(a, b); by a: m(i: integer);
module src systemprocess; ip o1, o2: c(a); end;
module hub systemprocess; ip p, q: c(b) common queue; end;
body sb for src;
state go, done;
initialize to go begin end;
trans from go to done begin output o1.m(1); output o2.m(2); output o1.m(3) end;
end;
body hb for hub;
module leaf process; ip r: c(b); end;
body lb for leaf; end;
modvar x: leaf;
state s0, s1, s2, s3;
initialize to s0 begin init x with lb end;
trans
from s0 to s1 delay(1) begin attach p to x.r end;
from s1 to s2 delay(1) begin detach p end;
from s2 to s2 when q.m begin end;
from s2 to s3 when p.m begin end;
end;
modvar u: src; v: hub;
initialize begin
  init u with sb; init v with hb;
  connect u.o1 to v.p; connect u.o2 to v.q
end;
end.
";

/// A child is released whose transition waits for its moment.
const RELEASED_IN_DELAY: &str = "specification gone systemprocess;
module m process; end;
body b for m;
state s, t;
initialize to s begin end;
trans from s to t delay(5) begin end;
end;
modvar x: m;
state s0, s1;
initialize to s0 begin init x with b end;
trans from s0 to s1 delay(1) begin release x end;
end.
";

/// The guards of two children fault, each with a fault of its own.
const TWO_FAULTS: &str = "specification two systemprocess;
module m process(k: integer); end;
body b for m;
trans
provided k > 9 begin end;
provided (1 div k) mod (k + 1) = 9 begin end;
end;
modvar x, y: m;
initialize begin init x with b(0); init y with b(-1) end;
end.
";

const DELAYED: &str =
    "start\nselect / now 0 takes -\nselect / now 3 takes /:1\nfire / 1\nselect / now 3 takes -\nend deadlock\n";

/// The name of a row; the words; the text, or the name of a worked one; the trace behind its first line, what err then holds, the
/// status, and where the clock, which stands at 0 before, stands then.
type Row = (
    &'static str,
    &'static [&'static str],
    &'static str,
    &'static str,
    &'static str,
    Status,
    u64,
);

const ROWS: [Row; 15] = [
    (
        "no system",
        &["run"],
        IDLE,
        "start\nend deadlock\n",
        "",
        Status::Done,
        0,
    ),
    (
        "a system that does nothing",
        &["run"],
        IDLE_SYSTEM,
        "start\nselect / now 0 takes -\nend deadlock\n",
        "",
        Status::Done,
        0,
    ),
    (
        "priorities",
        &["run"],
        PRIORITIES,
        "start\nselect / now 0 takes /:2\nfire / 2\nselect / now 0 takes /:1\nfire / 1\nselect / now 0 takes -\nend deadlock\n",
        "",
        Status::Done,
        0,
    ),
    (
        "variants",
        &["run"],
        VARIANTS,
        "start\nselect / now 0 takes /:4\nfire / 4\nselect / now 0 takes -\nend deadlock\n",
        "",
        Status::Done,
        0,
    ),
    (
        "a shared queue whose head nobody takes",
        &["run"],
        "shared_queue",
        "start\nselect /1 now 0 takes /1:1\nselect /2 now 0 takes -\nfire /1 1\nout /1.o1 m(1)\nout /1.o2 m(2)\nselect /1 now 0 takes -\nselect /2 now 0 takes -\nend deadlock\n",
        "",
        Status::Done,
        0,
    ),
    (
        "queues of their own",
        &["run"],
        QUEUES_OF_THEIR_OWN,
        "start\nselect /1 now 0 takes /1:1\nselect /2 now 0 takes -\nfire /1 1\nout /1.o1 m(1)\nout /1.o2 m(2)\nselect /1 now 0 takes -\nselect /2 now 0 takes /2:1\nfire /2 1\nselect /2 now 0 takes -\nend deadlock\n",
        "",
        Status::Done,
        0,
    ),
    ("a delay", &["run"], "delay", DELAYED, "", Status::Done, 3),
    (
        "a delay beside a transition that is never enabled",
        &["run"],
        SPONTANEOUS,
        DELAYED,
        "",
        Status::Done,
        3,
    ),
    (
        "a delay that is over at once",
        &["run"],
        OPEN_DELAY,
        "start\nselect / now 0 takes /:1\nfire / 1\nselect / now 0 takes -\nend deadlock\n",
        "",
        Status::Done,
        0,
    ),
    (
        "a delay whose end comes before its least",
        &["run"],
        SPOILED_DELAY,
        "start\nfault / 1 DelayRange\nend fault DelayRange\n",
        "estelle: fault DelayRange\n",
        Status::PascalFault,
        0,
    ),
    (
        "what waits below a released child comes back",
        &["run"],
        RELEASED_BELOW,
        "start\nselect /1 now 0 takes /1:1\nselect /2 now 0 takes -\nfire /1 1\nout /1.o m(1)\nout /1.o m(2)\nselect /1 now 0 takes -\nselect /2 now 0 takes -\nselect /1 now 1 takes -\nselect /2 now 1 takes /2:1\nfire /2 1\nselect /2 now 1 takes /2:2\nfire /2 2\nselect /2 now 1 takes -\nend deadlock\n",
        "",
        Status::Done,
        1,
    ),
    (
        "a variable emptied and held in one block",
        &["run"],
        HELD_AGAIN,
        "start\nselect / now 0 takes /:1\nfire / 1\nselect / now 0 takes /:2\nfire / 2\nselect / now 0 takes /2:1\nfire /2 1\nselect / now 0 takes -\nend deadlock\n",
        "",
        Status::Done,
        0,
    ),
    (
        "no timer is left of who is released",
        &["run"],
        RELEASED_IN_DELAY,
        "start\nselect / now 0 takes -\nselect / now 1 takes /:1\nfire / 1\nselect / now 1 takes -\nend deadlock\n",
        "",
        Status::Done,
        1,
    ),
    (
        "the first of two guards that fault",
        &["run"],
        TWO_FAULTS,
        "start\nfault /1 2 DivideByZero\nend fault DivideByZero\n",
        "estelle: fault DivideByZero\n",
        Status::PascalFault,
        0,
    ),
    (
        "what is detached waits behind the rest of the queue",
        &["run"],
        SHARED_AND_DETACHED,
        "start\nselect /1 now 0 takes /1:1\nselect /2 now 0 takes -\nfire /1 1\nout /1.o1 m(1)\nout /1.o2 m(2)\nout /1.o1 m(3)\nselect /1 now 0 takes -\nselect /2 now 0 takes -\nselect /1 now 1 takes -\nselect /2 now 1 takes /2:1\nfire /2 1\nselect /2 now 1 takes -\nselect /1 now 2 takes -\nselect /2 now 2 takes /2:2\nfire /2 2\nselect /2 now 2 takes /2:3\nfire /2 3\nselect /2 now 2 takes /2:4\nfire /2 4\nselect /2 now 2 takes -\nend deadlock\n",
        "",
        Status::Done,
        2,
    ),
];

/// Whether out holds this trace behind its first line.
fn writes(answer: &Answer, trace: &str) -> bool {
    match answer.out.strip_prefix(b"estelle trace 1\n".as_slice()) {
        Some(behind) => behind == trace.as_bytes(),
        None => false,
    }
}

fn is_worked(alloc: Global, row: &Row) -> Result<bool, AllocError> {
    let (_, words, name, trace, err, status, moment) = row;
    let answer = call_at(alloc, words, ALL_STEADY, text_of(name).as_bytes(), 0)?;
    Ok(
        writes(&answer, trace)
            && answer.status == *status
            && answer.err.as_slice() == err.as_bytes()
            && answer.moment == *moment,
    )
}

// What the definitions of runs say in full of several systems, choices and time.
#[test]
fn worked_times(rt: HostRuntime) -> Result<(), Fail> {
    for row in &ROWS {
        assert!(rt; is_worked(rt.alloc(), row)?, "{}", row.0);
    }
    Ok(())
}

/// A trace by its lines.
#[derive(Drop)]
struct Told {
    /// Those of no selection.
    others: Vec<u8>,
    selections: u32,
    last_selection: Vec<u8>,
}

fn lines_of(alloc: Global, text: &[u8]) -> Result<Told, AllocError> {
    let mut others = Vec::new(alloc);
    let mut selections: u32 = 0;
    let mut last_selection = Vec::new(alloc);
    let mut line = Vec::new(alloc);
    for byte in text {
        line.push(*byte)?;
        if *byte == b'\n' {
            if line.as_slice().starts_with(b"select ") {
                selections = selections.saturating_add(1);
                last_selection.clear();
                last_selection.extend_from_slice(&line)?;
            } else {
                others.extend_from_slice(&line)?;
            }
            line.clear();
        }
    }
    Ok(Told {
        others,
        selections,
        last_selection,
    })
}

/// The name of a worked text; the lines of its trace but those of selections, how many of those there are, and the last one.
type Lines = (&'static str, &'static str, u32, &'static str);

const LINES: [Lines; 2] = [
    (
        "attach_detach",
        "estelle trace 1\nstart\nfire /1 1\nout /1.o m(1)\nout /1.o m(2)\nfire /2 1\nfire /2/1 1\nfire /2 2\nfire /2 3\nend deadlock\n",
        12,
        "select /2 now 2 takes -\n",
    ),
    (
        "release",
        "estelle trace 1\nstart\nout /2/1.j m(8)\nout /2.k m(9)\nfire /1 1\nout /1.o m(1)\nout /1.o m(2)\nfire /2 1\nfire /2 2\ndrop 1\ndrop 2\nfire /2 3\nend deadlock\n",
        11,
        "select /2 now 2 takes -\n",
    ),
];

fn has_lines(alloc: Global, row: &Lines) -> Result<bool, AllocError> {
    let (name, others, selections, last) = row;
    let answer = call_at(alloc, &["run"], ALL_STEADY, text_of(name).as_bytes(), 0)?;
    let told = lines_of(alloc, &answer.out)?;
    Ok(
        answer.status == Status::Done
            && told.others.as_slice() == others.as_bytes()
            && told.selections == *selections
            && told.last_selection.as_slice() == last.as_bytes(),
    )
}

// Moves by attach, detach and release, and what is dropped.
#[test]
fn worked_moves(rt: HostRuntime) -> Result<(), Fail> {
    for row in &LINES {
        assert!(rt; has_lines(rt.alloc(), row)?, "{}", row.0);
    }
    Ok(())
}

/// How many lines of a text begin so.
fn count(alloc: Global, text: &[u8], front: &str) -> Result<u32, AllocError> {
    let mut count: u32 = 0;
    let mut line = Vec::new(alloc);
    for byte in text {
        line.push(*byte)?;
        if *byte == b'\n' {
            if line.as_slice().starts_with(front.as_bytes()) {
                count = count.saturating_add(1);
            }
            line.clear();
        }
    }
    Ok(count)
}

/// The beginnings of lines of the alternating bit's trace, and how many there are of each.
const BITS: [(&str, u32); 7] = [
    ("select ", 441),
    ("fire /1 ", 93),
    ("fire /2 ", 93),
    ("fire /3 ", 40),
    ("out ", 173),
    ("lost ", 0),
    ("", 843),
];

fn are_bits(alloc: Global, trace: &[u8]) -> Result<bool, AllocError> {
    for (front, wanted) in &BITS {
        if count(alloc, trace, front)? != *wanted {
            return Ok(false);
        }
    }
    Ok(true)
}

// A protocol that repeats what was not answered in time.
#[test]
fn alternating_bit(rt: HostRuntime) -> Result<(), Fail> {
    let answer = call_at(
        rt.alloc(),
        &["run"],
        ALL_STEADY,
        text_of("alternating_bit").as_bytes(),
        0,
    )?;
    assert!(rt; answer.status == Status::Done && are_bits(rt.alloc(), &answer.out)?);
    Ok(())
}

#[test]
fn alternating_bit_ends(rt: HostRuntime) -> Result<(), Fail> {
    let answer = call_at(
        rt.alloc(),
        &["run"],
        ALL_STEADY,
        text_of("alternating_bit").as_bytes(),
        0,
    )?;
    assert!(rt;
        answer
            .out
            .as_slice()
            .ends_with(b"select /1 now 39 takes -\nend deadlock\n".as_slice())
    );
    Ok(())
}

/// The call of the clock that fails, counted from 1, and the trace behind its first line.
const FAILING: [(u64, &str); 2] = [
    (2, "start\nselect / now 0 takes -\nend clock\n"),
    (1, "start\nend clock\n"),
];

fn fails(alloc: Global, row: &(u64, &str)) -> Result<bool, AllocError> {
    let (at, trace) = row;
    let clock = ScriptClock {
        moment: 0,
        failing: vec![in alloc; *at]?,
        calls: 0,
        faults: 0,
    };
    let (answer, clock) = call_by(
        alloc,
        &["run"],
        ALL_STEADY,
        text_of("delay").as_bytes(),
        clock,
    )?;
    Ok(
        writes(&answer, trace)
            && answer.status == Status::ClockFault
            && answer.err.as_slice() == b"estelle: clock fault\n".as_slice()
            && clock.faults == 1,
    )
}

// The clock fails in a selection, and in a wait.
#[test]
fn clocks_that_fail(rt: HostRuntime) -> Result<(), Fail> {
    for row in &FAILING {
        assert!(rt; fails(rt.alloc(), row)?, "call {}", row.0);
    }
    Ok(())
}

/// Whether a run without a delay is done, by a clock that fails at its first call.
fn asks_nobody(alloc: Global) -> Result<bool, AllocError> {
    let clock = ScriptClock {
        moment: 0,
        failing: vec![in alloc; 1]?,
        calls: 0,
        faults: 0,
    };
    let text = text_of("two_cells");
    let (answer, clock) = call_by(alloc, &["run"], ALL_STEADY, text.as_bytes(), clock)?;
    Ok(writes(&answer, FIRST_CELL_FIRST) && answer.status == Status::Done && clock.calls == 0)
}

// Without a delay the clock is not called.
#[test]
fn a_clock_that_nobody_asks(rt: HostRuntime) -> Result<(), Fail> {
    assert!(rt; asks_nobody(rt.alloc())?);
    Ok(())
}

const FIRST_CELL_FIRST: &str =
    "start\nselect / now 0 takes /1:1 /2:1\nfire /1 1\nfire /2 1\nselect / now 0 takes -\nend deadlock\n";

const SECOND_CELL_FIRST: &str =
    "start\nselect / now 0 takes /1:1 /2:1\nfire /2 1\nfire /1 1\nselect / now 0 takes -\nend deadlock\n";

/// Seeds, and the trace behind its first line. The first words of the generator are e2393051 for 1, 0f5deba9 for 2, c9828f91 for 3
/// and 7aa10266 for 4, by its authors' reference code, so that of two candidates the second, the first, the second and the first is picked.
const SEEDS: [(&str, &str); 4] = [
    ("1", SECOND_CELL_FIRST),
    ("2", FIRST_CELL_FIRST),
    ("3", SECOND_CELL_FIRST),
    ("4", FIRST_CELL_FIRST),
];

/// Whether of two pending firings the seed picks the one that is wanted.
fn picks(alloc: Global, row: &(&str, &str)) -> Result<bool, AllocError> {
    let (seed, trace) = row;
    let words = ["run", "--seed", seed];
    let answer = call_at(
        alloc,
        &words,
        ALL_STEADY,
        text_of("two_cells").as_bytes(),
        0,
    )?;
    Ok(writes(&answer, trace) && answer.status == Status::Done)
}

// A seed that is ignored, or read otherwise.
#[test]
fn seeds(rt: HostRuntime) -> Result<(), Fail> {
    for row in &SEEDS {
        assert!(rt; picks(rt.alloc(), row)?, "{}", row.0);
    }
    Ok(())
}
