//! Worked calls with all that they write.

use crate::calls::{ALL_STEADY, Answer, Device, Devices, STEADY, call, run};
use crate::pascal::answer_of;
use crate::systems::text_of;
use crate::traces::{filled, is_trace};
use estelle_cli::{Status, Task, asked};
use situation::Limits;
use std::alloc::{AllocError, Global};
use std::test::Fail;
use test_texts::{
    COUNTER, COUNTER_TRACE, DEADLOCK, OVERFLOW_TRACE, OVERFLOWING, TURNS, counter_with,
};

/// It reads its variable before there is a value.
const UNSET: &str = "specification count systemprocess;
var n: integer;
state go;
initialize to go begin n := n + 1 end;
trans
from go to go provided n < 3 name tick: begin n := n + 1 end;
end.
";

const UNSET_TRACE: &str = "estelle trace 1
fault / 0 Unset
end fault Unset
";

/// It counts on beyond the limit of firings.
const LONG: &str = "specification count systemprocess;
var n: integer;
state go;
initialize to go begin n := 0 end;
trans
from go to go provided n < 20000 name tick: begin n := n + 1 end;
end.
";

/// It has nothing to do.
const IDLE: &str = "specification idle systemprocess; end.";

const IDLE_TRACE: &str = "estelle trace 1
start
select / now 0 takes -
end deadlock
";

/// Its index goes beyond the array.
const INDEXING: &str = "specification count systemprocess;
var n: integer; a: array [0..1] of integer;
state go;
initialize to go begin n := 0 end;
trans
from go to go provided n < 3 name tick: begin a[n] := n; n := a[n] + 1 end;
end.
";

const INDEXING_TRACE: &str = "estelle trace 1
start
select / now 0 takes /:1
fire / 1
select / now 0 takes /:1
fire / 1
select / now 0 takes /:1
fault / 1 Index
end fault Index
";

const NO_SYNTAX: &str = "estelle: syntax 1:1\n";

const TOO_LONG: &str = "estelle: too long\n";

const UNSET_LINE: &str = "estelle: fault Unset\n";

const OVERFLOW_LINE: &str = "estelle: fault Overflow\n";

const INDEX_LINE: &str = "estelle: fault Index\n";

/// The name of a row; the words and the input; what out and err then hold, and the status.
type Row = (
    &'static str,
    &'static [&'static str],
    &'static str,
    &'static str,
    &'static str,
    Status,
);

const ROWS: [Row; 14] = [
    (
        "counter",
        &["run"],
        COUNTER,
        COUNTER_TRACE,
        "",
        Status::Done,
    ),
    (
        "overflow",
        &["run"],
        OVERFLOWING,
        OVERFLOW_TRACE,
        OVERFLOW_LINE,
        Status::PascalFault,
    ),
    (
        "unset",
        &["run"],
        UNSET,
        UNSET_TRACE,
        UNSET_LINE,
        Status::PascalFault,
    ),
    (
        "indexing",
        &["run"],
        INDEXING,
        INDEXING_TRACE,
        INDEX_LINE,
        Status::PascalFault,
    ),
    ("idle", &["run"], IDLE, IDLE_TRACE, "", Status::Done),
    ("empty", &["run"], "", "", NO_SYNTAX, Status::Refused),
    (
        "no turn",
        &["run", "--turns=0"],
        COUNTER,
        NO_TURN,
        "",
        Status::Done,
    ),
    (
        "one turn",
        &["run", "--turns", "1"],
        COUNTER,
        ONE_TURN,
        "",
        Status::Done,
    ),
    (
        "checked",
        &["check"],
        COUNTER,
        "accepted\n",
        "",
        Status::Done,
    ),
    (
        "checked, and its run would fault",
        &["check"],
        OVERFLOWING,
        "accepted\n",
        "",
        Status::Done,
    ),
    ("shown", &["show"], COUNTER, SHOWN_COUNTER, "", Status::Done),
    (
        "shown again",
        &["show"],
        SHOWN_COUNTER,
        SHOWN_COUNTER,
        "",
        Status::Done,
    ),
    ("listed", &["code"], COUNTER, COUNTER_CODE, "", Status::Done),
    (
        "empty, shown",
        &["show"],
        "",
        "",
        NO_SYNTAX,
        Status::Refused,
    ),
];

/// Words that have no meaning.
const MEANINGLESS: [&[&str]; 14] = [
    &[],
    &[""],
    &["Run"],
    &["run "],
    &["--help"],
    &["run", "run"],
    &["run", "--turns=1", "--turns", "2"],
    &["check", "--turns=1"],
    &["replay", "--turns=1"],
    &["trial"],
    // A ring has 2 to 200 stations, and how many must be said.
    &["make"],
    &["make", "--stations=1"],
    &["make", "--stations", "201"],
    &["make", "--stations=2", "--turns=1"],
];

/// Words that ask for something, and what.
const ASKING: [(&[&str], Task); 11] = [
    (
        &["run"],
        Task::Run {
            limits: Limits {
                turns: 10_000,
                budget: 1_000_000,
            },
            seed: None,
            workers: 0,
        },
    ),
    (
        &["run", "--budget", "5", "--turns=0"],
        Task::Run {
            limits: Limits {
                turns: 0,
                budget: 5,
            },
            seed: None,
            workers: 0,
        },
    ),
    (
        &["run", "--seed=18446744073709551615"],
        Task::Run {
            limits: Limits {
                turns: 10_000,
                budget: 1_000_000,
            },
            seed: Some(18446744073709551615),
            workers: 0,
        },
    ),
    (
        &["run", "--workers=2"],
        Task::Run {
            limits: Limits {
                turns: 10_000,
                budget: 1_000_000,
            },
            seed: None,
            workers: 2,
        },
    ),
    (&["check"], Task::Check),
    (&["show"], Task::Show),
    (&["code"], Task::Code),
    (&["replay", "--budget=9"], Task::Replay { budget: 9 }),
    (
        &["trial", "--stations=3", "--turns=5", "--seed=1"],
        Task::Trial {
            stations: 3,
            limits: Limits {
                turns: 5,
                budget: 1_000_000,
            },
            seed: Some(1),
        },
    ),
    (&["make", "--stations=2"], Task::Make(2)),
    (&["make", "--stations", "200"], Task::Make(200)),
];

/// The counter, in canonical form.
const SHOWN_COUNTER: &str = "specification count systemprocess ;
var n : integer ;
state go ;
initialize to go begin n := 0 end ;
trans from go to go provided n < 3 name tick : begin n := n + 1 end ;
end .
";

/// The listing of its code.
const COUNTER_CODE: &str = "body 0 count
initialize 0
0 var 0
1 push 0
2 store 0
3 ret
guard 1
0 var 0
1 load
2 push 3
3 lt
4 ret
block 1
0 var 0
1 var 0
2 load
3 push 1
4 add
5 store 0
6 ret
";

const NO_TURN: &str = "estelle trace 1
start
end turns
";

const ONE_TURN: &str = "estelle trace 1
start
select / now 0 takes /:1
fire / 1
end turns
";

/// The name of a row; a text, and how long it is with blanks behind it; how many bytes of that are read; what
/// out and err then hold, and the status.
type Length = (
    &'static str,
    &'static str,
    usize,
    usize,
    &'static str,
    &'static str,
    Status,
);

const LENGTHS: [Length; 4] = [
    (
        "longest",
        COUNTER,
        1_048_576,
        1_048_576,
        COUNTER_TRACE,
        "",
        Status::Done,
    ),
    (
        "longest, no specification",
        "x",
        1_048_576,
        1_048_576,
        "",
        NO_SYNTAX,
        Status::Refused,
    ),
    (
        "one byte more",
        COUNTER,
        1_048_577,
        1_048_577,
        "",
        TOO_LONG,
        Status::Refused,
    ),
    (
        "far more, no specification",
        "x",
        1_060_000,
        1_048_577,
        "",
        TOO_LONG,
        Status::Refused,
    ),
];

const CODES: [(Status, u8); 8] = [
    (Status::Done, 0),
    (Status::Refused, 1),
    (Status::Usage, 2),
    (Status::ReadFault, 3),
    (Status::WriteFault, 4),
    (Status::ClockFault, 5),
    (Status::Memory, 6),
    (Status::PascalFault, 7),
];

/// Whether a worked call answers what is wanted, has read its input, and leaves the clock as it was.
fn is_worked(alloc: Global, row: &Row) -> Result<bool, AllocError> {
    let (_, words, input, out, err, status) = row;
    let answer = call(alloc, words, ALL_STEADY, input.as_bytes())?;
    Ok(answer.is(*status, out, err) && answer.bytes_read == input.len() && answer.moment == 7)
}

fn is_long(answer: &Answer) -> bool {
    answer.status == Status::Done && is_trace(&answer.out, 10_000, TURNS) && answer.err.is_empty()
}

// What the definitions of runs and of traces say in full: a mistake that the definitions and the code have both.
#[test]
fn worked_runs(rt: HostRuntime) -> Result<(), Fail> {
    for row in &ROWS {
        assert!(rt; is_worked(rt.alloc(), row)?, "{}", row.0);
    }
    Ok(())
}

// The limit of firings.
#[test]
fn a_long_run(rt: HostRuntime) -> Result<(), Fail> {
    let answer = run(rt.alloc(), ALL_STEADY, LONG.as_bytes())?;
    assert!(rt; is_long(&answer));
    Ok(())
}

/// Counters that are spoiled: what is replaced, by what, and the line on err behind `estelle: `.
const SPOILED: [(&str, &str, &str); 5] = [
    ("end.\n", "", "syntax 7:1"),
    (":= 0", ":= 1.5", "syntax 4:30"),
    ("end.\n", "end.\nx\n", "text after end 8:1"),
    ("n < 3", "k < 3", "rule 2 6:24"),
    ("n < 3", "3", "rule 40 6:24"),
];

/// Texts of several modules or transitions that are spoiled: the name of the worked one; what is replaced, by what, and the line on err
/// behind `estelle: `.
const SPOILED_MORE: [(&str, &str, &str, &str); 3] = [
    (
        "shared_queue",
        "hub systemprocess; ip p, q: c(b) common queue",
        "hub systemprocess; ip p, q: c(a)",
        "rule 22 11:12",
    ),
    (
        "shared_queue",
        "when q.m begin",
        "when q.m delay(1) begin",
        "rule 30 11:16",
    ),
    (
        "counter",
        "provided n < 3",
        "any i: 1..4097 do provided n < 3",
        "rule 33 1:1",
    ),
];

/// The commands that read a specification.
const READING: [[&str; 1]; 4] = [["run"], ["check"], ["show"], ["code"]];

/// Whether a counter that is spoiled is refused by these words with its reason.
fn is_refused(alloc: Global, words: &[&str], row: &(&str, &str, &str)) -> Result<bool, AllocError> {
    let (old, new, reason) = row;
    let text = COUNTER.replace(alloc, *old, new)?;
    let answer = call(alloc, words, ALL_STEADY, text.as_bytes())?;
    Ok(answer.refuses(reason))
}

// The places of refusals, by hand; they are the same for each command.
#[test]
fn spoiled_counters(rt: HostRuntime) -> Result<(), Fail> {
    for row in &SPOILED {
        for words in &READING {
            assert!(rt;
                is_refused(rt.alloc(), words, row)?,
                "{}: {}",
                words[0],
                row.2
            );
        }
    }
    Ok(())
}

/// Whether a worked text that is spoiled is refused with its reason.
fn is_refused_too(
    alloc: Global,
    row: &(&'static str, &str, &str, &str),
) -> Result<bool, AllocError> {
    let (name, old, new, reason) = row;
    let text = text_of(name).replace(alloc, *old, new)?;
    let answer = call(alloc, &["check"], ALL_STEADY, text.as_bytes())?;
    Ok(answer.refuses(reason))
}

#[test]
fn spoiled_systems(rt: HostRuntime) -> Result<(), Fail> {
    for row in &SPOILED_MORE {
        assert!(rt; is_refused_too(rt.alloc(), row)?, "{}", row.3);
    }
    Ok(())
}

#[test]
fn a_symbol_that_is_none(rt: HostRuntime) -> Result<(), Fail> {
    let answer = run(rt.alloc(), ALL_STEADY, b"specification $;".as_slice())?;
    assert!(rt; answer.refuses("bytes 1:15"));
    Ok(())
}

/// Counters in Pascal of more forms: what is declared besides, the block of the transition, and how often it fires.
const COUNTING: [(&str, &str, u32); 8] = [
    ("var i: integer;", "for i := 1 to 5 do n := 3", 1),
    ("var i: integer;", "for i := 1 to 2 do n := n + 1", 2),
    (
        "var s: set of 0..9;",
        "s := [1, 3..4] * [1..4] + [9] - [3]; n := n + 1",
        3,
    ),
    (
        "function next(n: integer): integer; begin next := n + 1 end;",
        "n := next(n)",
        3,
    ),
    (
        "procedure step(var n: integer; width: integer); begin n := n + width end;",
        "step(n, 2)",
        2,
    ),
    (
        "type color = (red, green); var c: color;",
        "c := green; case c of red: n := 9; green: n := n + ord(c) end",
        3,
    ),
    (
        "var r: record a: integer; b: boolean end;",
        "r.a := n; r.b := true; if r.b then n := r.a + 1 else n := 9",
        3,
    ),
    ("const step = 2;", "repeat n := n + step until n > 3", 1),
];

/// Whether the counter with this block fires so often.
fn counts(alloc: Global, declared: &str, block: &str, firings: u32) -> Result<bool, AllocError> {
    let answer = answer_of(alloc, declared, block)?;
    Ok(answer.status == Status::Done && is_trace(&answer.out, firings, DEADLOCK))
}

// Pascal of more forms in whole runs: a mistake that the definitions and the code have both.
#[test]
fn counters_of_more_forms(rt: HostRuntime) -> Result<(), Fail> {
    for (declared, block, firings) in &COUNTING {
        assert!(rt; counts(rt.alloc(), declared, block, *firings)?, "{block}");
    }
    Ok(())
}

/// Whether no device but err was called, and err was told how words are used.
fn is_of_usage(answer: &Answer) -> bool {
    answer.is(Status::Usage, "", "estelle: usage\n")
        && answer.bytes_read == 0
        && answer.source_calls == 0
        && answer.out_calls == 0
}

/// Whether words are refused before the source is called, which would fail.
fn is_meaningless(alloc: Global, words: &[&str]) -> Result<bool, AllocError> {
    let source = Device { fails: 1, ..STEADY };
    let devices = Devices {
        source,
        ..ALL_STEADY
    };
    let answer = call(alloc, words, devices, COUNTER.as_bytes())?;
    Ok(is_of_usage(&answer))
}

// Which words have a meaning; and that the words are looked at before the source is called.
#[test]
fn meaningless_words(rt: HostRuntime) -> Result<(), Fail> {
    for words in &MEANINGLESS {
        assert!(rt; is_meaningless(rt.alloc(), words)?, "{words:?}");
    }
    Ok(())
}

// What words ask for, and the numbers of the statuses.
#[test]
fn tasks_and_codes(rt: HostRuntime) -> Result<(), Fail> {
    for (words, task) in &ASKING {
        assert_eq!(rt; asked(rt.alloc(), words)?, Some(*task));
    }
    for (status, code) in &CODES {
        assert_eq!(rt; status.code(), *code);
    }
    Ok(())
}

/// The units that a firing needs: a block of five turns of a loop, and one of six; the status where it has five units.
const UNITS: [(&str, &str, Status); 2] = [
    ("for i := 1 to 5 do n := 3", "", Status::Done),
    (
        "for i := 1 to 6 do n := 3",
        "estelle: fault StepLimit\n",
        Status::PascalFault,
    ),
];

/// Whether five units come to this status and this line.
fn is_done(alloc: Global, block: &str, line: &str, status: Status) -> Result<bool, AllocError> {
    let text = counter_with(alloc, "var i: integer;", "n < 3", block)?;
    let words = ["run", "--budget", "5"];
    let answer = call(alloc, &words, ALL_STEADY, text.as_bytes())?;
    Ok(answer.status == status && answer.err.as_slice() == line.as_bytes())
}

// The budget that the words give is that of each firing.
#[test]
fn budgets(rt: HostRuntime) -> Result<(), Fail> {
    for (block, line, status) in &UNITS {
        assert!(rt; is_done(rt.alloc(), block, line, *status)?, "{block}");
    }
    Ok(())
}

/// The counter behind a comment, so many bytes in all.
fn commented(alloc: Global, length: usize) -> Result<Vec<u8>, AllocError> {
    let mut text = filled(alloc, "{", length.saturating_sub(COUNTER.len() + 2))?;
    text.extend_from_slice(b"}\n".as_slice())?;
    text.extend_from_slice(COUNTER.as_bytes())?;
    Ok(text)
}

/// How long the counter is with a comment before it, and what err then holds.
const COMMENTED: [(usize, &str); 2] = [(1_048_576, ""), (1_048_577, TOO_LONG)];

/// Whether it is accepted or refused by its length.
fn is_judged(alloc: Global, row: &(usize, &str)) -> Result<bool, AllocError> {
    let (length, err) = row;
    let input = commented(alloc, *length)?;
    let answer = call(alloc, &["check"], ALL_STEADY, &input)?;
    if err.is_empty() {
        return Ok(answer.is(Status::Done, "accepted\n", ""));
    }
    Ok(answer.is(Status::Refused, "", err))
}

// A comment counts in the length.
#[test]
fn commented_lengths(rt: HostRuntime) -> Result<(), Fail> {
    for row in &COMMENTED {
        assert!(rt; is_judged(rt.alloc(), row)?, "{}", row.0);
    }
    Ok(())
}

/// Whether a text of some length is read so far, and answered as wanted.
fn is_read(alloc: Global, row: &Length) -> Result<bool, AllocError> {
    let (_, text, length, read, out, err, status) = row;
    let input = filled(alloc, text, *length)?;
    let answer = run(alloc, ALL_STEADY, &input)?;
    Ok(answer.is(*status, out, err) && answer.bytes_read == *read)
}

// The longest input, to the byte; the length is looked at before the text; and no more than one byte
// beyond the limit is read.
#[test]
fn lengths(rt: HostRuntime) -> Result<(), Fail> {
    for row in &LENGTHS {
        assert!(rt; is_read(rt.alloc(), row)?, "{}", row.0);
    }
    Ok(())
}
