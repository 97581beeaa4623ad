//! Flat transitions: which ones accepted texts have, with all that is said of each.

use estelle_tree::{Sequence, Span};
use flat_transitions::{Flat, FlatTrans, Limit, flat_list};
use std::alloc::{AllocError, Global};
use std::test::Fail;
use test_texts::accepted;

/// Clauses in groups, states in a state set out of order, and constants that have names.
const TEXT: &str =
    "specification s systemprocess; state here, there; channel c(left, right); by left: m(n: integer); stop; \
module h process; ip p: c(right); q: c(right); end; \
body x for h; const low = 3; state one, two, three; stateset late = [three, two]; \
initialize to one begin end; trans from one to two when q.m provided n > 1 priority low begin {1} end; priority 7 begin {2} end; \
trans to one from late, one when p.stop begin {3} end; trans delay(4, *) begin {4} end; end; \
initialize to here begin end; trans from here to there begin {5} end; provided false begin {6} end; trans delay(1, 2) to same priority 0 begin {7} end; end.";

/// What the standard says of them, one a line, the specification's before those of the body.
const TRANSITIONS: &str = "\
body
1 from 0 to 1 begin {5} end;
2 from 0 provided false begin {6} end;
3 priority 0 delay 1, 2 begin {7} end;
body
1 from 0 to 1 when 1.m provided n > 1 priority 3 begin {1} end;
2 from 0 to 1 when 1.m provided n > 1 priority 7 begin {2} end;
3 from 2 1 0 to 0 when 0.stop begin {3} end;
4 delay 4, * begin {4} end;
";

/// In one body a value is chosen.
const WITH_ANY: &str =
    "specification s systemprocess; state go; module h process; end; body x for h; trans any i: 1..2 do begin end; end; \
initialize to go begin end; trans from go begin end; end.";

const CHOSEN: &str = "\
body
1 from 0 begin end;
body
1 any 1 begin end;
2 any 2 begin end;
";

/// Four choices for one block: the last name is the fastest.
const VARIANTS: &str =
    "specification count systemprocess; var n: integer; state go; initialize to go begin n := 0 end; \
trans any i: 1..2; j: boolean do from go to go provided (i = 2) and j and (n < 1) begin n := n + 1 end; end.";

const FOUR: &str = "\
body
1 from 0 to 0 provided (i = 2) and j and (n < 1) any 1 any 0 begin n := n + 1 end;
2 from 0 to 0 provided (i = 2) and j and (n < 1) any 1 any 1 begin n := n + 1 end;
3 from 0 to 0 provided (i = 2) and j and (n < 1) any 2 any 0 begin n := n + 1 end;
4 from 0 to 0 provided (i = 2) and j and (n < 1) any 2 any 1 begin n := n + 1 end;
";

/// A name of `any` in `priority`, also with a sign, and groups below one `any`.
const PRIORITIES: &str =
    "specification p systemprocess; state go, d1, d2; initialize to go begin end; trans from go to d1 priority 5 begin {1} end; \
trans any i: 1..2 do from go to d2 priority i begin {2} end; to d1 begin {3} end; \
trans any c: (red, green); k: -2..-1 do priority -k begin {4} end; end.";

const BY_CHOICE: &str = "\
body
1 from 0 to 1 priority 5 begin {1} end;
2 from 0 to 2 priority 1 any 1 begin {2} end;
3 from 0 to 2 priority 2 any 2 begin {2} end;
4 from 0 to 1 any 1 begin {3} end;
5 from 0 to 1 any 2 begin {3} end;
6 priority 2 any 0 any -2 begin {4} end;
7 priority 1 any 0 any -1 begin {4} end;
8 priority 2 any 1 any -2 begin {4} end;
9 priority 1 any 1 any -1 begin {4} end;
";

fn piece(text: &str, span: Span) -> &str {
    text.get(span.start as usize..span.end as usize)
        .unwrap_or("nothing")
}

fn write_clauses(out: &mut String, text: &str, of: &FlatTrans) -> Result<(), AllocError> {
    if let Some((ip, name)) = &of.when {
        let name = std::str::from_utf8(name.items()).unwrap_or("nothing");
        write!(out, " when {ip}.{name}")?;
    }
    if let Some(span) = of.provided {
        write!(out, " provided {}", piece(text, span))?;
    }
    if let Some(priority) = of.priority {
        write!(out, " priority {priority}")?;
    }
    if let Some((low, high)) = of.delay {
        write!(out, " delay {}", piece(text, low))?;
        match high {
            Limit::Same => {}
            Limit::At(high) => write!(out, ", {}", piece(text, high))?,
            Limit::Never => write!(out, ", *")?,
        }
    }
    Ok(())
}

fn write_transition(
    alloc: Global,
    out: &mut String,
    text: &str,
    of: &FlatTrans,
) -> Result<(), AllocError> {
    write!(out, "{}", of.number)?;
    let from = of.from.listed(alloc)?;
    if !from.is_empty() {
        write!(out, " from")?;
        for state in from.items() {
            write!(out, " {state}")?;
        }
    }
    if let Some(to) = of.to {
        write!(out, " to {to}")?;
    }
    write_clauses(out, text, of)?;
    for ordinal in of.any.items() {
        write!(out, " any {ordinal}")?;
    }
    writeln!(out, " {}", piece(text, of.block))
}

fn written(alloc: Global, text: &str, flat: &Flat) -> Result<String, AllocError> {
    let mut out = String::new(alloc);
    for body in flat.bodies.items() {
        writeln!(&mut out, "body")?;
        for transition in body.items() {
            write_transition(alloc, &mut out, text, transition)?;
        }
    }
    Ok(out)
}

/// The flat transitions of a text; none where it is not accepted.
fn flat_transitions(alloc: Global, text: &str) -> Option<String> {
    let checked = accepted(alloc, text.as_bytes())?;
    match flat_list(alloc, &checked.spec, &checked.names) {
        Ok(flat) => written(alloc, text, &flat).ok(),
        Err(_) => None,
    }
}

// The definition of flat transitions, by texts: what clauses say, how groups nest, where nodes stand, and in which order
// values are chosen.
#[test]
fn listed_transitions(rt: HostRuntime) -> Result<(), Fail> {
    for (text, wanted) in [
        (TEXT, TRANSITIONS),
        (WITH_ANY, CHOSEN),
        (VARIANTS, FOUR),
        (PRIORITIES, BY_CHOICE),
    ] {
        let found = flat_transitions(rt.alloc(), text);
        assert!(rt;
            matches!(&found, Some(found) if found.as_str() == wanted),
            "{text}"
        );
    }
    Ok(())
}
