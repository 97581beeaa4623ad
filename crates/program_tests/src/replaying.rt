//! The command that judges a trace.

use crate::calls::{ALL_STEADY, Answer, call, call_at};
use crate::systems::{TWO_ACTIVITIES, text_of};
use estelle_cli::Status;
use std::alloc::{AllocError, Global};
use std::test::Fail;

/// Its delay has no greatest end.
const OPEN_DELAY: &str =
    "specification d systemprocess; state go, done; initialize to go begin end; trans from go to done delay(3, *) begin end; end.\n";

/// A transition that is never enabled stands beside the one with a delay.
const SPONTANEOUS: &str =
    "specification d systemprocess; state go, done; initialize to go begin end; trans from go to done delay(3, 5) begin end; from go to go provided false begin end; end.\n";

/// The same beside a delay that has no greatest end.
const OPEN_SPONTANEOUS: &str =
    "specification d systemprocess; state go, done; initialize to go begin end; trans from go to done delay(3, *) begin end; from go to go provided false begin end; end.\n";

/// Two transitions are enabled, of one priority.
const TWO_WAYS: &str =
    "specification w systemprocess; state go, one, two; initialize to go begin end; trans from go to one begin end; from go to two begin end; end.\n";

/// It breaks a rule.
const RULELESS: &str =
    "specification w systemactivity;\nmodule m process; end;\nmodvar x: m;\nend.\n";

const ON_TIME: &str =
    "start\nselect / now 0 takes -\nselect / now 4 takes -\nselect / now 5 takes /:1\nfire / 1\nend turns\n";

const TOO_LATE: &str = "start\nselect / now 0 takes -\nselect / now 5 takes -\nend clock\n";

const SHARED: &str =
    "start\nselect /1 now 0 takes /1:1\nselect /2 now 0 takes -\nfire /1 1\nout /1.o1 m(1)\nout /1.o2 m(2)\nselect /1 now 0 takes -\nselect /2 now 0 takes -\nend deadlock\n";

/// The name of a row; the text, or the name of a worked one; the trace behind its first line; out, or, where it begins so, the line
/// of err.
type Row = (&'static str, &'static str, &'static str, &'static str);

const ROWS: [Row; 27] = [
    ("on time", "delay", ON_TIME, "accepted 5\n"),
    (
        "too late",
        "delay",
        TOO_LATE,
        "estelle: not a run: entry 3\n",
    ),
    ("never too late", OPEN_DELAY, TOO_LATE, "accepted 3\n"),
    (
        "no deadlock before its moment",
        OPEN_DELAY,
        "start\nselect / now 0 takes -\nselect / now 5 takes -\nend deadlock\n",
        "estelle: not a run: entry 4\n",
    ),
    (
        "on time beside another transition",
        SPONTANEOUS,
        ON_TIME,
        "accepted 5\n",
    ),
    (
        "too late beside another transition",
        SPONTANEOUS,
        TOO_LATE,
        "estelle: not a run: entry 3\n",
    ),
    (
        "never too late beside another transition",
        OPEN_SPONTANEOUS,
        TOO_LATE,
        "accepted 3\n",
    ),
    (
        "no deadlock before its moment beside another transition",
        OPEN_SPONTANEOUS,
        "start\nselect / now 0 takes -\nselect / now 5 takes -\nend deadlock\n",
        "estelle: not a run: entry 4\n",
    ),
    ("a shared queue", "shared_queue", SHARED, "accepted 6\n"),
    (
        "an output is missing",
        "shared_queue",
        "start\nselect /1 now 0 takes /1:1\nselect /2 now 0 takes -\nfire /1 1\nout /1.o1 m(1)\nselect /1 now 0 takes -\nselect /2 now 0 takes -\nend deadlock\n",
        "estelle: not a run: entry 4\n",
    ),
    (
        "outputs are swapped",
        "shared_queue",
        "start\nselect /1 now 0 takes /1:1\nselect /2 now 0 takes -\nfire /1 1\nout /1.o2 m(2)\nout /1.o1 m(1)\nselect /1 now 0 takes -\nselect /2 now 0 takes -\nend deadlock\n",
        "estelle: not a run: entry 4\n",
    ),
    (
        "the end is missing",
        "shared_queue",
        "start\nselect /1 now 0 takes /1:1\nselect /2 now 0 takes -\nfire /1 1\nout /1.o1 m(1)\nout /1.o2 m(2)\nselect /1 now 0 takes -\nselect /2 now 0 takes -\n",
        "estelle: bad trace line 10\n",
    ),
    // Any schedule is one: systems may select in another order, and at any moment that is no earlier than the last.
    (
        "another order of systems",
        "shared_queue",
        "start\nselect /2 now 7 takes -\nselect /1 now 7 takes /1:1\nfire /1 1\nout /1.o1 m(1)\nout /1.o2 m(2)\nend turns\n",
        "accepted 4\n",
    ),
    // Of equals any is one, but of a process each child goes on, and of an activity one.
    (
        "another order of pending firings",
        "two_cells",
        "start\nselect / now 0 takes /1:1 /2:1\nfire /2 1\nfire /1 1\nselect / now 0 takes -\nend deadlock\n",
        "accepted 5\n",
    ),
    (
        "one child of a process alone",
        "two_cells",
        "start\nselect / now 0 takes /1:1\nend turns\n",
        "estelle: not a run: entry 2\n",
    ),
    (
        "another child of an activity",
        TWO_ACTIVITIES,
        "start\nselect / now 0 takes /2:1\nfire /2 1\nselect / now 0 takes /1:1\nfire /1 1\nselect / now 0 takes -\nend deadlock\n",
        "accepted 6\n",
    ),
    (
        "two children of an activity",
        TWO_ACTIVITIES,
        "start\nselect / now 0 takes /1:1 /2:1\nend turns\n",
        "estelle: not a run: entry 2\n",
    ),
    (
        "another transition of one priority",
        TWO_WAYS,
        "start\nselect / now 0 takes /:2\nfire / 2\nselect / now 0 takes -\nend deadlock\n",
        "accepted 4\n",
    ),
    (
        "time goes back",
        "counter",
        "start\nselect / now 7 takes /:1\nfire / 1\nselect / now 6 takes /:1\nend turns\n",
        "estelle: not a run: entry 4\n",
    ),
    (
        "a limit of firings at any number of them",
        "counter",
        "start\nselect / now 0 takes /:1\nfire / 1\nend turns\n",
        "accepted 3\n",
    ),
    (
        "the start alone",
        "counter",
        "start\nend clock\n",
        "accepted 1\n",
    ),
    (
        "no such transition",
        "counter",
        "start\nselect / now 0 takes /:2\nend turns\n",
        "estelle: not a run: entry 2\n",
    ),
    // A fault changes no status.
    (
        "a guard that faults",
        "guard_fault",
        "start\nfault /1 1 DivideByZero\nend fault DivideByZero\n",
        "accepted 2\n",
    ),
    (
        "a start that faults",
        "nested_init",
        "fault / 0 CallDepth\nend fault CallDepth\n",
        "accepted 1\n",
    ),
    (
        "another fault",
        "nested_init",
        "fault / 0 StepLimit\nend fault StepLimit\n",
        "estelle: not a run: entry 1\n",
    ),
    (
        "a rule is broken before the trace is",
        RULELESS,
        "x",
        "estelle: rule 14 3:8\n",
    ),
    ("no line", "counter", "x", "estelle: bad trace line 2\n"),
];

fn replay(alloc: Global, pieces: &[&str]) -> Result<Answer, AllocError> {
    let mut input = Vec::new(alloc);
    for piece in pieces {
        input.extend_from_slice(piece.as_bytes())?;
    }
    call(alloc, &["replay"], ALL_STEADY, &input)
}

/// Whether out holds this and the status is 0, or err and the input is refused. The clock is left as it was.
fn tells(answer: &Answer, line: &str) -> bool {
    let (status, out, err) = if line.as_bytes().starts_with(b"accepted".as_slice()) {
        (Status::Done, line, "")
    } else {
        (Status::Refused, "", line)
    };
    answer.is(status, out, err) && answer.moment == 7
}

fn is_worked(alloc: Global, row: &Row) -> Result<bool, AllocError> {
    let (_, name, trace, line) = row;
    let answer = replay(alloc, &[text_of(name), "estelle trace 1\n", trace])?;
    Ok(tells(&answer, line))
}

// What the definitions of runs say in full: a mistake that the definitions and the code have both.
#[test]
fn worked_replays(rt: HostRuntime) -> Result<(), Fail> {
    for row in &ROWS {
        assert!(rt; is_worked(rt.alloc(), row)?, "{}", row.0);
    }
    Ok(())
}

/// The counter without the end of its last line.
const COUNTER_ALONE: &str = "specification count systemprocess;
var n: integer;
state go;
initialize to go begin n := 0 end;
trans
from go to go provided n < 3 name tick: begin n := n + 1 end;
end.";

/// What stands between the specification and the second line of the trace, and the line of out or err.
const BETWEEN: [(&str, &str); 9] = [
    ("\nestelle trace 1\n", "accepted 1\n"),
    (" \t\r \r\nestelle trace 1\n", "accepted 1\n"),
    ("{}\nestelle trace 1\n", "estelle: text after end 7:5\n"),
    (" x\nestelle trace 1\n", "estelle: text after end 7:6\n"),
    (" ", "estelle: text after end 7:6\n"),
    ("\n\nestelle trace 1\n", "estelle: bad trace line 1\n"),
    ("\nestelle trace 2\n", "estelle: bad trace line 1\n"),
    ("\n$\n", "estelle: bad trace line 1\n"),
    ("\n", "estelle: bad trace line 1\n"),
];

fn is_between(alloc: Global, row: &(&str, &str)) -> Result<bool, AllocError> {
    let (between, line) = row;
    let answer = replay(alloc, &[COUNTER_ALONE, between, "start\nend turns\n"])?;
    Ok(tells(&answer, line))
}

// A line separates the specification from its trace.
#[test]
fn separations(rt: HostRuntime) -> Result<(), Fail> {
    for row in &BETWEEN {
        assert!(rt; is_between(rt.alloc(), row)?, "{}", row.0);
    }
    Ok(())
}

/// A text alone, and the line of err.
const ALONE: [(&str, &str); 3] = [
    (COUNTER_ALONE, "estelle: text after end 7:5\n"),
    ("specification a;\n", "estelle: text after end 2:1\n"),
    ("specification $;\n", "estelle: bytes 1:15\n"),
];

fn is_refused(alloc: Global, row: &(&str, &str)) -> Result<bool, AllocError> {
    let (text, line) = row;
    let answer = replay(alloc, &[text])?;
    Ok(tells(&answer, line))
}

// Without the end of its line a specification has no trace, and that is told before its syntax.
#[test]
fn no_traces(rt: HostRuntime) -> Result<(), Fail> {
    for row in &ALONE {
        assert!(rt; is_refused(rt.alloc(), row)?, "{}", row.0);
    }
    Ok(())
}

/// What the program writes of a run, behind the text, as it judges that.
fn read_back(alloc: Global, name: &'static str) -> Result<Answer, AllocError> {
    let text = text_of(name);
    let ran = call_at(alloc, &["run"], ALL_STEADY, text.as_bytes(), 0)?;
    let mut input = text.as_bytes().to_vec(alloc)?;
    input.extend_from_slice(&ran.out)?;
    call(alloc, &["replay"], ALL_STEADY, &input)
}

// A long run, of three systems with delays.
#[test]
fn alternating_bit_replayed(rt: HostRuntime) -> Result<(), Fail> {
    let answer = read_back(rt.alloc(), "alternating_bit")?;
    assert!(rt; tells(&answer, "accepted 668\n"));
    Ok(())
}
