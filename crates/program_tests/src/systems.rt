//! Worked runs of systems of several modules.

use crate::calls::{ALL_STEADY, call};
use estelle_cli::Status;
use std::alloc::{AllocError, Global};
use std::test::Fail;
use test_texts::WORKED;

/// A child answers its parent once.
const ECHO: &str = "specification echo systemprocess;
channel c(a, b); by a: ask(i: integer); by b: tell(i: integer);
module m process; ip p: c(b); end;
body mb for m;
trans when p.ask begin output p.tell(i + 1) end;
end;
modvar x: m;
ip q: c(a);
state go, done;
initialize to go begin
  init x with mb; connect q to x.p; output q.ask(4)
end;
trans from go to done when q.tell begin end;
end.
";

/// A parent writes a variable that its child exports, and makes another child where there is one.
const EXPORTED: &str = "specification ex systemprocess;
module m process; export v: integer; end;
body b for m;
initialize begin v := 1 end;
trans provided v = 5 begin v := 6 end;
end;
modvar x: m;
state s0, s1;
initialize to s0 begin init x with b end;
trans
from s0 to s1 begin x.v := x.v + 4 end;
from s1 provided x.v = 6 begin init x with b end;
end.
";

/// The children of an activity go one at a time.
pub(crate) const TWO_ACTIVITIES: &str = "specification pair systemactivity;
module cell activity; end;
body b for cell;
state off, on;
initialize to off begin end;
trans from off to on begin end;
end;
modvar x, y: cell;
initialize begin init x with b; init y with b end;
end.
";

const DIVIDES: &str = "estelle: fault DivideByZero\n";

const TOO_DEEP: &str = "estelle: fault CallDepth\n";

const IS_TAKEN: &str = "estelle: fault ModuleTaken\n";

/// The name of a row; the words and the text, or the name of a worked one; the trace behind its first line, what err then holds,
/// and the status.
type Row = (
    &'static str,
    &'static [&'static str],
    &'static str,
    &'static str,
    &'static str,
    Status,
);

const ROWS: [Row; 12] = [
    (
        "one of two children fires",
        &["run", "--turns", "1"],
        "two_cells",
        "start\nselect / now 0 takes /1:1 /2:1\nfire /1 1\nend turns\n",
        "",
        Status::Done,
    ),
    (
        "no child fires",
        &["run", "--turns", "0"],
        "two_cells",
        "start\nend turns\n",
        "",
        Status::Done,
    ),
    (
        "two children fire",
        &["run"],
        "two_cells",
        "start\nselect / now 0 takes /1:1 /2:1\nfire /1 1\nfire /2 1\nselect / now 0 takes -\nend deadlock\n",
        "",
        Status::Done,
    ),
    (
        "two activities fire",
        &["run"],
        TWO_ACTIVITIES,
        "start\nselect / now 0 takes /1:1\nfire /1 1\nselect / now 0 takes /2:1\nfire /2 1\nselect / now 0 takes -\nend deadlock\n",
        "",
        Status::Done,
    ),
    (
        "a lost output",
        &["run"],
        "arithmetic",
        "start\nselect / now 0 takes /:1\nfire / 1\nlost /.o v(-3,1,-1)\nselect / now 0 takes -\nend deadlock\n",
        "",
        Status::Done,
    ),
    (
        "a child's guard faults",
        &["run"],
        "guard_fault",
        "start\nfault /1 1 DivideByZero\nend fault DivideByZero\n",
        DIVIDES,
        Status::PascalFault,
    ),
    (
        "a parent goes first",
        &["run", "--turns", "2"],
        "parent_first",
        "start\nselect / now 0 takes /:1\nfire / 1\nselect / now 0 takes /1:1\nfire /1 1\nend turns\n",
        "",
        Status::Done,
    ),
    (
        "a way that changes",
        &["run"],
        "reroute",
        "start\nselect / now 0 takes /1:1 /2:1\nfire /1 1\nfire /2 1\nout /2.o m\nselect / now 0 takes /1/1:1\nfire /1/1 1\nselect / now 0 takes -\nend deadlock\n",
        "",
        Status::Done,
    ),
    (
        "a body that makes itself",
        &["run"],
        "nested_init",
        "fault / 0 CallDepth\nend fault CallDepth\n",
        TOO_DEEP,
        Status::PascalFault,
    ),
    (
        "one variable for two parameters",
        &["run"],
        "aliasing",
        "start\nselect / now 0 takes /:1\nfire / 1\nlost /.o v(2)\nselect / now 0 takes -\nend deadlock\n",
        "",
        Status::Done,
    ),
    (
        "an echo",
        &["run"],
        ECHO,
        "start\nout /.q ask(4)\nselect / now 0 takes /1:1\nfire /1 1\nout /1.p tell(5)\nselect / now 0 takes /:1\nfire / 1\nselect / now 0 takes -\nend deadlock\n",
        "",
        Status::Done,
    ),
    (
        "an exported variable",
        &["run"],
        EXPORTED,
        "start\nselect / now 0 takes /:1\nfire / 1\nselect / now 0 takes /1:1\nfire /1 1\nselect / now 0 takes /:2\nfault / 2 ModuleTaken\nend fault ModuleTaken\n",
        IS_TAKEN,
        Status::PascalFault,
    ),
];

/// The worked text of this name, or else the text itself.
pub(crate) fn text_of(name: &'static str) -> &'static str {
    for worked in &WORKED {
        if worked.name == name {
            return worked.text;
        }
    }
    name
}

/// Whether a worked call answers what is wanted, and has read its input.
fn is_worked(alloc: Global, row: &Row) -> Result<bool, AllocError> {
    let (_, words, name, trace, err, status) = row;
    let input = text_of(name);
    let answer = call(alloc, words, ALL_STEADY, input.as_bytes())?;
    match answer.out.strip_prefix(b"estelle trace 1\n".as_slice()) {
        Some(behind) => Ok(
            behind == trace.as_bytes()
                && answer.status == *status
                && answer.err.as_slice() == err.as_bytes()
                && answer.bytes_read == input.len(),
        ),
        None => Ok(false),
    }
}

// What the definitions of runs say in full: a mistake that the definitions and the code have both.
#[test]
fn worked_systems(rt: HostRuntime) -> Result<(), Fail> {
    for row in &ROWS {
        assert!(rt; is_worked(rt.alloc(), row)?, "{}", row.0);
    }
    Ok(())
}
