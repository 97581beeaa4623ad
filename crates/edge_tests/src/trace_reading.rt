//! Traces that are read back, and texts that are refused at a line, by hand from the trace format.

use estelle_model::{End, Event};
use std::alloc::{AllocError, Global};
use std::test::Fail;
use test_texts::{COUNTER_TRACE, OVERFLOW_TRACE};
use trace_text::{TraceError, read, write};

/// The trace of two systems that share a queue.
const SHARED_QUEUE: &str = "estelle trace 1
start
select /1 now 0 takes /1:1
select /2 now 0 takes -
fire /1 1
out /1.o1 m(1)
out /1.o2 m(2)
select /1 now 0 takes -
select /2 now 0 takes -
end deadlock
";

/// What comes behind the first line of a trace: no clause says that the definition of the form is that of the format.
const WHOLE: [&str; 18] = [
    // Of worked runs.
    "start\nselect / now 0 takes /1:1 /2:1\nfire /1 1\nfire /2 1\nout /2.o m\nselect / now 0 takes /1/1:1\nfire /1/1 1\nselect / now 0 takes -\nend deadlock\n",
    "start\nselect / now 0 takes /:1\nfire / 1\nlost /.o v(-3,1,-1)\nselect / now 0 takes -\nend deadlock\n",
    "start\nselect / now 0 takes -\nselect / now 3 takes /:1\nfire / 1\nselect / now 3 takes -\nend deadlock\n",
    "start\nselect / now 0 takes -\nend clock\n",
    "start\nfault /1 1 DivideByZero\nend fault DivideByZero\n",
    // By the format alone.
    "fault / 0 CallDepth\nend fault CallDepth\n",
    "start\nend deadlock\n",
    "start\nend turns\n",
    "start\nend clock\n",
    // The outputs of another order are no run's, but the form has no order of them.
    "start\nout /1.o2 m(2)\nout /1.o1 m(1)\nend turns\n",
    "start\nout /2/1.j m(8)\nlost /2.k m(9)\nfire /1 1\nout /1.o m(1)\nfire /2 3\ndrop 1\ndrop 2\nend turns\n",
    "start\ndrop 0\ndrop 18446744073709551615\nfire / 4096\ndrop 1\nend clock\n",
    "start\nselect / now 18446744073709551615 takes /:1\nselect / now 0 takes -\nend turns\n",
    "start\nselect /1 now 3 takes /1:4096 /1/1:1 /1/2:1 /2:1 /10:1\nend turns\n",
    "start\nselect /18446744073709551615/1/2 now 10 takes -\nend turns\n",
    "start\nlost /.o v(-9223372036854775807,0,9223372036854775807,true,false)\nlost /.o w\nend turns\n",
    "start\nlost /.o v('x',' ','''',chr(10),chr(255),chr(0),#0,#4294967295,?)\nend turns\n",
    "start\nout /.a_1 ord([],[0],[0,9,255],(1,(2,?)),{true,'a'})\nend turns\n",
];

/// Behind the first line: a text that is no trace, and its first bad line in the whole text.
const BAD: [(&str, u32); 70] = [
    // The end.
    ("", 2),
    ("start\n", 3),
    ("start\nend turns", 3),
    ("start\nend turns\n\n", 4),
    ("start\nend turns\nend turns\n", 4),
    ("start\nend turns\nx", 4),
    ("start\nend turn\n", 3),
    ("start\nend turns \n", 3),
    ("start\nend  turns\n", 3),
    ("start\nend fault Range\n", 3),
    ("fault / 0 Range\nend fault Index\n", 3),
    ("fault / 0 Range\nend turns\n", 3),
    ("start\nfault / 1 Range\nend deadlock\n", 4),
    // The order of lines.
    ("\nstart\nend turns\n", 2),
    ("end turns\n", 2),
    ("select / now 0 takes -\nend turns\n", 2),
    ("fire / 1\nend turns\n", 2),
    ("fault / 1 Range\nend fault Range\n", 2),
    ("fault /1 0 Range\nend fault Range\n", 2),
    ("start\nfault / 0 Range\nend fault Range\n", 3),
    ("start\nstart\nend turns\n", 3),
    ("start\nestelle trace 1\nend turns\n", 3),
    ("start\nfault / 1 Range\nfire / 1\n", 4),
    ("start\nfault / 1 Range\nout /.o m\n", 4),
    ("start\nselect / now 0 takes -\nout /.o m\n", 4),
    ("start\nselect / now 0 takes -\ndrop 1\n", 4),
    ("start\ndrop 1\nout /.o m\n", 4),
    ("start\ndrop 1\nlost /.o m\n", 4),
    ("start\ndrop 2\ndrop 2\n", 4),
    ("start\ndrop 2\ndrop 1\n", 4),
    // Words and blanks.
    ("start \nend turns\n", 2),
    ("Start\nend turns\n", 2),
    ("start\r\nend turns\n", 2),
    ("start\n fire / 1\n", 3),
    ("start\nfire  / 1\n", 3),
    ("start\nfire / 1 \n", 3),
    ("start\nfires / 1\n", 3),
    ("start\nfault / 1 range\n", 3),
    // Paths, transitions and moments.
    ("start\nfire / 0\n", 3),
    ("start\nfire / 4097\n", 3),
    ("start\nfire / 01\n", 3),
    ("start\nfire / +1\n", 3),
    ("start\nfire /0 1\n", 3),
    ("start\nfire /01 1\n", 3),
    ("start\nfire // 1\n", 3),
    ("start\nfire /1/ 1\n", 3),
    ("start\nfire 1 1\n", 3),
    ("start\nfire /18446744073709551616 1\n", 3),
    ("start\nselect / now 18446744073709551616 takes -\n", 3),
    ("start\nselect / now 00 takes -\n", 3),
    ("start\ndrop 18446744073709551616\n", 3),
    // What is taken.
    ("start\nselect / now 0 takes \n", 3),
    ("start\nselect / now 0 takes /:0\n", 3),
    ("start\nselect / now 0 takes - /:1\n", 3),
    ("start\nselect / now 0 takes /:1 /:2\n", 3),
    ("start\nselect / now 0 takes /2:1 /1:1\n", 3),
    ("start\nselect / now 0 takes /1/1:1 /1:1\n", 3),
    ("start\nselect / now 0 takes /1:1  /2:1\n", 3),
    // Names.
    ("start\nout /.O m\n", 3),
    ("start\nout /.o M\n", 3),
    ("start\nout /.begin m\n", 3),
    ("start\nout /.o end\n", 3),
    ("start\nout /.1o m\n", 3),
    ("start\nout /._o m\n", 3),
    ("start\nout .o m\n", 3),
    ("start\nout /o m\n", 3),
    // Behind the values.
    ("start\nout /.o m(1)x\n", 3),
    ("start\nout /.o m(1\n", 3),
    ("start\nout /.o m (1)\n", 3),
    ("start\nout /.o m(1) \n", 3),
];

/// What is no list of values.
const NO_VALUES: [&str; 27] = [
    "()",
    "(-0)",
    "(01)",
    "(+1)",
    "(1,)",
    "(,1)",
    "( 1)",
    "(1, 2)",
    "(1 ,2)",
    "(9223372036854775808)",
    "(-9223372036854775808)",
    "(TRUE)",
    "(')",
    "('')",
    "(''')",
    "('ab')",
    "('\n')",
    "(chr(32))",
    "(chr(126))",
    "(chr(256))",
    "(chr(010))",
    "(#4294967296)",
    "([256])",
    "([2,1])",
    "([1,1])",
    "({})",
    "(())",
];

fn with_head(alloc: Global, rest: &str) -> Result<Vec<u8>, AllocError> {
    let mut text = Vec::new(alloc);
    text.extend_from_slice(b"estelle trace 1\n")?;
    text.extend_from_slice(rest.as_bytes())?;
    Ok(text)
}

/// Whether a text is read, and written again the same.
fn is_read_back(alloc: Global, text: &[u8]) -> Result<bool, AllocError> {
    if text.len() >= 1 << 31 {
        return Ok(false);
    }
    match read(alloc, text) {
        Ok((run, end)) => Ok(write(alloc, &run, end)?.items() == text),
        Err(_) => Ok(false),
    }
}

/// The line at which a text is refused, or 0.
fn bad_line(alloc: Global, text: &[u8]) -> u32 {
    if text.len() >= 1 << 31 {
        return 0;
    }
    match read(alloc, text) {
        Err(TraceError::BadTrace { line }) => line,
        Err(TraceError::Memory) | Ok(_) => 0,
    }
}

#[test]
fn traces_are_read_back(rt: HostRuntime) -> Result<(), Fail> {
    for text in &[COUNTER_TRACE, OVERFLOW_TRACE, SHARED_QUEUE] {
        assert!(rt; is_read_back(rt.alloc(), text.as_bytes())?, "{text}");
    }
    for rest in &WHOLE {
        let text = with_head(rt.alloc(), rest)?;
        assert!(rt; is_read_back(rt.alloc(), &text)?, "{rest}");
    }
    Ok(())
}

#[test]
fn bad_lines_are_named(rt: HostRuntime) -> Result<(), Fail> {
    for (rest, line) in &BAD {
        let text = with_head(rt.alloc(), rest)?;
        assert_eq!(rt; bad_line(rt.alloc(), &text), *line, "{rest}");
    }
    for values in &NO_VALUES {
        let rest = format!(in rt.alloc(); "start\nout /.o m{values}\nend turns\n")?;
        let text = with_head(rt.alloc(), rest.as_str())?;
        assert_eq!(rt; bad_line(rt.alloc(), &text), 3, "{values}");
    }
    Ok(())
}

/// Of a text that is read: how many events there are, how many outputs the fourth one has, and whether the end is a deadlock.
fn told(alloc: Global, text: &[u8]) -> Option<(usize, usize, bool)> {
    if text.len() >= 1 << 31 {
        return None;
    }
    let Ok((run, end)) = read(alloc, text) else {
        return None;
    };
    let outs = match run.events.as_slice().get(3) {
        Some(Event::Fire { outs, .. }) => outs.as_slice().len(),
        _ => 0,
    };
    Some((run.events.as_slice().len(), outs, matches!(end, End::Dead)))
}

// Lines of outputs are no events of their own.
#[test]
fn events_of_a_worked_run(rt: HostRuntime) {
    assert_eq!(rt;
        told(rt.alloc(), SHARED_QUEUE.as_bytes()),
        Some((6, 2, true))
    );
    assert_eq!(rt;
        told(rt.alloc(), OVERFLOW_TRACE.as_bytes()),
        Some((3, 0, false))
    );
}

// The first line, and the last one of a worked run.
#[test]
fn first_and_last_lines(rt: HostRuntime) -> Result<(), Fail> {
    for text in &[
        "",
        "estelle",
        "estelle trace 1",
        "estelle trace 2\nstart\nend turns\n",
        "\nestelle trace 1\n",
    ] {
        assert_eq!(rt; bad_line(rt.alloc(), text.as_bytes()), 1, "{text}");
    }
    let text = SHARED_QUEUE.replace(rt.alloc(), "end deadlock\n", "")?;
    assert_eq!(rt; bad_line(rt.alloc(), text.as_bytes()), 10);
    let text = SHARED_QUEUE.replace(rt.alloc(), "out /1.o2 m(2)\n", "")?;
    assert!(rt; is_read_back(rt.alloc(), text.as_bytes())?);
    Ok(())
}
