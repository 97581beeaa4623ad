//! Jobs of worked texts, and of a yard whose hub does what a row says.

use crate::modules::{Step, logs};
use std::alloc::{AllocError, Global};
use std::test::Fail;
use test_texts::WORKED;

/// A parent asks, its child tells one more, and a chosen value is a constant.
const CHOSEN: &str = "specification echo systemprocess;
channel c(a, b); by a: ask(i: integer); by b: tell(i: integer);
module m process; ip p: c(b); export got: integer; end;
body mb for m;
trans any k: 1..2 do when p.ask begin got := i; output p.tell(i + k) end;
end;
modvar x: m;
ip q: c(a);
state go, done;
initialize to go begin
  init x with mb; connect q to x.p; output q.ask(4)
end;
trans from go to done when q.tell begin output q.ask(x.got + i) end;
end.
";

/// A child answers its parent once.
const ECHO: &str = "specification echo systemprocess;
channel c(a, b); by a: ask(i: integer); by b: tell(i: integer);
module m process; ip p: c(b); end;
body mb for m;
trans when p.ask begin output p.tell(i + 1) end;
end;
modvar x: m;
ip q: c(a);
state go, done;
initialize to go begin
  init x with mb; connect q to x.p; output q.ask(4)
end;
trans from go to done when q.tell begin end;
end.
";

/// A parent writes a variable that its child exports, and makes another child where there is one.
const EXPORTED: &str = "specification ex systemprocess;
module m process; export v: integer; end;
body b for m;
initialize begin v := 1 end;
trans provided v = 5 begin v := 6 end;
end;
modvar x: m;
state s0, s1;
initialize to s0 begin init x with b end;
trans
from s0 to s1 begin x.v := x.v + 4 end;
from s1 provided x.v = 6 begin init x with b end;
end.
";

/// A routine makes two children of its instance, in the initialization and once more.
const NEST: &str = "specification nest systemprocess;
module m process(k: integer); end;
body b for m;
modvar x, y: m;
procedure more;
begin if k > 0 then begin init x with b(k - 1); init y with b(0) end end;
initialize begin more end;
trans begin more end;
end;
modvar z: m;
initialize begin init z with b(2) end;
end.
";

/// The name of a row; the text, or the name of a worked one; the jobs; and what they log, with the instances at the end or
/// the fault of the last job.
type Row = (&'static str, &'static str, &'static [Step], &'static str);

const ROWS: [Row; 14] = [
    (
        "attached, and detached",
        "attach_detach",
        &[
            (&[], 0, None),
            (&[1], 1, None),
            (&[2], 1, None),
            (&[2, 1], 1, Some((b"m", 1))),
            (&[2], 2, None),
            (&[2], 3, Some((b"m", 2))),
        ],
        "job
create /1 body 1 points 1
create /2 body 2 points 1
create /2/1 body 3 points 1
connect /1.0 /2.0
job
output /1.0 m 1
output /1.0 m 2
job
attach /2.0 /2/1.0
job
job
detach /2.0
job
/ body 0 births 2
/1 body 1 state 1 births 0
/2 body 2 state 3 births 1
/2/1 body 3 state 1 births 0
",
    ),
    (
        "attached by a job before",
        "attach_detach",
        &[(&[], 0, None), (&[2], 1, None), (&[2], 1, None)],
        "job
create /1 body 1 points 1
create /2 body 2 points 1
create /2/1 body 3 points 1
connect /1.0 /2.0
job
attach /2.0 /2/1.0
fault LinkTaken left 1000
",
    ),
    (
        "detached by a job before",
        "attach_detach",
        &[
            (&[], 0, None),
            (&[2], 1, None),
            (&[2], 2, None),
            (&[2], 2, None),
        ],
        "job
create /1 body 1 points 1
create /2 body 2 points 1
create /2/1 body 3 points 1
connect /1.0 /2.0
job
attach /2.0 /2/1.0
job
detach /2.0
fault LinkAbsent left 1000
",
    ),
    (
        "a child is released with what is linked to it",
        "release",
        &[
            (&[], 0, None),
            (&[1], 1, None),
            (&[2], 1, None),
            (&[2], 2, None),
        ],
        "job
create /1 body 1 points 1
create /2 body 2 points 2
create /2/1 body 3 points 3
create /2/1/1 body 4 points 1
connect /2/1.2 /2/1/1.0
output /2/1.2 m 8
connect /2.1 /2/1.1
output /2.1 m 9
connect /1.0 /2.0
job
output /1.0 m 1
output /1.0 m 2
job
attach /2.0 /2/1.0
job
detach /2.0
disconnect /2/1.1
remove /2/1
/ body 0 births 2
/1 body 1 state 1 births 0
/2 body 2 state 2 births 1
",
    ),
    (
        "two points of one queue",
        "shared_queue",
        &[(&[], 0, None), (&[1], 1, None)],
        "job
create /1 body 1 points 2
create /2 body 2 points 2
connect /1.0 /2.0
connect /1.1 /2.1
job
output /1.0 m 1
output /1.1 m 2
/ body 0 births 2
/1 body 1 state 1 births 0
/2 body 2 births 0
",
    ),
    (
        "a way that changes",
        "reroute",
        &[(&[], 0, None), (&[1], 1, None), (&[2], 1, None)],
        "job
create /1 body 2 points 1
create /1/1 body 3 points 1
create /2 body 1 points 1
connect /2.0 /1.0
job
attach /1.0 /1/1.0
job
output /2.0 m
/ body 0 births 2
/1 body 2 state 1 births 1
/1/1 body 3 births 0
/2 body 1 state 1 births 0
",
    ),
    (
        "a body that makes itself",
        "nested_init",
        &[(&[], 0, None)],
        "fault CallDepth left 799\n",
    ),
    (
        "children by a routine of an initialization",
        NEST,
        &[(&[], 0, None)],
        "job
create /1 body 1 points 0
create /1/1 body 1 points 0
create /1/1/1 body 1 points 0
create /1/1/2 body 1 points 0
create /1/2 body 1 points 0
/ body 0 births 1
/1 body 1 births 2 holds 2
/1/1 body 1 births 2 holds 1
/1/1/1 body 1 births 0 holds 0
/1/1/2 body 1 births 0 holds 0
/1/2 body 1 births 0 holds 0
",
    ),
    (
        "children by a routine once more",
        NEST,
        &[(&[], 0, None), (&[1, 1], 1, None)],
        "job
create /1 body 1 points 0
create /1/1 body 1 points 0
create /1/1/1 body 1 points 0
create /1/1/2 body 1 points 0
create /1/2 body 1 points 0
fault ModuleTaken left 998
",
    ),
    (
        "one variable for two parameters",
        "aliasing",
        &[(&[], 0, None), (&[], 1, None)],
        "job
job
output /.0 v 2
/ body 0 state 1 births 0 holds 2
",
    ),
    (
        "an echo",
        ECHO,
        &[
            (&[], 0, None),
            (&[1], 1, Some((b"ask", 4))),
            (&[], 1, Some((b"tell", 5))),
        ],
        "job
create /1 body 1 points 1
connect /.0 /1.0
output /.0 ask 4
job
output /1.0 tell 5
job
/ body 0 state 1 births 1
/1 body 1 births 0
",
    ),
    (
        "an echo of chosen values",
        CHOSEN,
        &[
            (&[], 0, None),
            (&[1], 2, Some((b"ask", 4))),
            (&[1], 1, Some((b"ask", 5))),
            (&[], 1, Some((b"tell", 6))),
        ],
        "job
create /1 body 1 points 1
connect /.0 /1.0
output /.0 ask 4
job
output /1.0 tell 6
job
output /1.0 tell 6
job
output /.0 ask 11
/ body 0 state 1 births 1
/1 body 1 births 0 holds 5
",
    ),
    (
        "an exported variable",
        EXPORTED,
        &[(&[], 0, None), (&[], 1, None)],
        "job
create /1 body 1 points 0
job
/ body 0 state 1 births 1
/1 body 1 births 0 holds 5
",
    ),
    (
        "another child where there is one",
        EXPORTED,
        &[
            (&[], 0, None),
            (&[], 1, None),
            (&[1], 1, None),
            (&[], 2, None),
        ],
        "job
create /1 body 1 points 0
job
job
fault ModuleTaken left 999
",
    ),
];

/// The worked text of this name, or else the text itself.
fn text_of(name: &'static str) -> &'static str {
    for worked in &WORKED {
        if worked.name == name {
            return worked.text;
        }
    }
    name
}

// The order and the ends of the effects of modules, by what the statements of these texts do.
#[test]
fn logs_of_modules(rt: HostRuntime) {
    for (name, text, steps, wanted) in &ROWS {
        assert!(rt; logs(rt.alloc(), text_of(text), steps, wanted), "{name}");
    }
}

/// A hub has two children at most, and does what a row says. Called with n, `d` makes a child n + 2 deep.
const YARD: &str = "specification yard;
type small = 0..3; row = array [small] of integer;
channel c(a, b); by a, b: m(i, j: small);
module hub systemprocess; ip p, q: c(a); end;
body hb for hub;
module box process(k: small);
ip r, s: c(a); t: c(b); export v: row; w: integer; end;
body bb for box; end;
modvar x, y: box;
ip i, j: c(b);
var n, e: integer; g: row;
procedure d(k: integer);
begin if k > 0 then d(k - 1) else init x with bb(e) end;
trans begin DOES end;
end;
modvar h: hub;
ip z: c(b);
initialize begin init h with hb; connect z to h.p end;
end.
";

const YARD_STEPS: [Step; 2] = [(&[], 0, None), (&[1], 1, None)];

/// What the first job of the yard logs.
const YARD_START: &str = "job
create /1 body 1 points 4
connect /.0 /1.0
";

/// What the hub does, and what its job logs, with the instances at the end, or its fault with the units that are left of 1000.
const DEEDS: [(&str, &str); 78] = [
    // effects stand in the order of the statements
    (
        "init x with bb(0); output i.m(1, 2); connect i to x.r; output i.m(3, 0)",
        "job
create /1/1 body 2 points 3
output /1.2 m 1 2
connect /1.2 /1/1.0
output /1.2 m 3 0
/ body 0 births 1
/1 body 1 births 1 holds - - -
/1/1 body 2 births 0 holds 0 - -
",
    ),
    (
        "init x with bb(0); attach p to x.r; output p.m(1, 1); detach p; attach q to x.r",
        "job
create /1/1 body 2 points 3
attach /1.0 /1/1.0
output /1.0 m 1 1
detach /1.0
attach /1.1 /1/1.0
/ body 0 births 1
/1 body 1 births 1 holds - - -
/1/1 body 2 births 0 holds 0 - -
",
    ),
    // a released child leaves its points in their order, and its birth number is not used again
    (
        "init x with bb(1); init y with bb(2); connect y.r to x.t; attach p to x.s; connect i to x.r; release x; init x with bb(3)",
        "job
create /1/1 body 2 points 3
create /1/2 body 2 points 3
connect /1/2.0 /1/1.2
attach /1.0 /1/1.1
connect /1.2 /1/1.0
disconnect /1/1.0
detach /1.0
disconnect /1/1.2
remove /1/1
create /1/3 body 2 points 3
/ body 0 births 1
/1 body 1 births 3 holds - - -
/1/2 body 2 births 0 holds 2 - -
/1/3 body 2 births 0 holds 3 - -
",
    ),
    (
        "init x with bb(0); connect x.t to x.r; release x",
        "job
create /1/1 body 2 points 3
connect /1/1.2 /1/1.0
disconnect /1/1.0
remove /1/1
/ body 0 births 1
/1 body 1 births 1 holds - - -
",
    ),
    // each end of a connection names it, and a child's name names its connections alone
    (
        "init x with bb(0); connect i to x.r; disconnect i; connect j to x.r; disconnect x.r; connect x.r to i",
        "job
create /1/1 body 2 points 3
connect /1.2 /1/1.0
disconnect /1.2
connect /1.3 /1/1.0
disconnect /1/1.0
connect /1/1.0 /1.2
/ body 0 births 1
/1 body 1 births 1 holds - - -
/1/1 body 2 births 0 holds 0 - -
",
    ),
    (
        "init x with bb(0); connect i to x.r; attach p to x.s; disconnect x; disconnect x; detach p",
        "job
create /1/1 body 2 points 3
connect /1.2 /1/1.0
attach /1.0 /1/1.1
disconnect /1/1.0
detach /1.0
/ body 0 births 1
/1 body 1 births 1 holds - - -
/1/1 body 2 births 0 holds 0 - -
",
    ),
    (
        "init x with bb(2); x.w := 3; n := x.w + 1; x.v[n - 1] := n; e := x.v[3] + 1",
        "job
create /1/1 body 2 points 3
/ body 0 births 1
/1 body 1 births 1 holds 4 5 -
/1/1 body 2 births 0 holds 2 - 3
",
    ),
    // the last unit and the greatest depth
    (
        "e := 0; for n := 1 to 800 do; d(198)",
        "job
create /1/1 body 2 points 3
/ body 0 births 1
/1 body 1 births 1 holds - 0 -
/1/1 body 2 births 0 holds 0 - -
",
    ),
    // init
    (
        "init x with bb(0); init x with bb(0)",
        "fault ModuleTaken left 998\n",
    ),
    // release
    ("release x", "fault NoModule left 1000\n"),
    (
        "init x with bb(0); release x; release x",
        "fault NoModule left 999\n",
    ),
    // connect
    ("connect x.r to y.t", "fault NoModule left 1000\n"),
    (
        "init y with bb(0); connect x.r to y.t",
        "fault NoModule left 999\n",
    ),
    (
        "init x with bb(0); connect x.r to y.t",
        "fault NoModule left 999\n",
    ),
    (
        "init x with bb(0); init y with bb(0); connect i to x.r; connect i to y.r",
        "fault LinkTaken left 998\n",
    ),
    (
        "init x with bb(0); connect i to x.r; connect j to x.r",
        "fault LinkTaken left 999\n",
    ),
    (
        "init x with bb(0); attach p to x.r; connect x.r to j",
        "fault LinkTaken left 999\n",
    ),
    (
        "init x with bb(0); attach p to x.r; connect j to x.r",
        "fault LinkTaken left 999\n",
    ),
    (
        "init y with bb(0); connect i to y.r; connect i to x.r",
        "fault NoModule left 999\n",
    ),
    (
        "init y with bb(0); connect i to y.r; connect x.t to y.r",
        "fault NoModule left 999\n",
    ),
    // disconnect of a child's point
    ("disconnect x.r", "fault NoModule left 1000\n"),
    (
        "init x with bb(0); disconnect x.r",
        "fault LinkAbsent left 999\n",
    ),
    (
        "init x with bb(0); attach p to x.r; disconnect x.r",
        "fault LinkAbsent left 999\n",
    ),
    (
        "init x with bb(0); connect i to x.r; disconnect i; disconnect x.r",
        "fault LinkAbsent left 999\n",
    ),
    // disconnect of a point of one's own
    ("disconnect i", "fault LinkAbsent left 1000\n"),
    (
        "init x with bb(0); connect i to x.r; disconnect x; disconnect i",
        "fault LinkAbsent left 999\n",
    ),
    // disconnect of a child
    ("disconnect x", "fault NoModule left 1000\n"),
    // attach
    ("attach p to x.r", "fault NoModule left 1000\n"),
    (
        "init x with bb(0); init y with bb(0); attach p to x.r; attach p to y.r",
        "fault LinkTaken left 998\n",
    ),
    (
        "init x with bb(0); attach p to x.r; attach q to x.r",
        "fault LinkTaken left 999\n",
    ),
    (
        "init x with bb(0); connect i to x.r; attach p to x.r",
        "fault LinkTaken left 999\n",
    ),
    (
        "init y with bb(0); attach p to y.r; attach p to x.r",
        "fault NoModule left 999\n",
    ),
    // detach; p is connected from above all the time
    ("detach p", "fault LinkAbsent left 1000\n"),
    (
        "init x with bb(0); attach p to x.r; detach q",
        "fault LinkAbsent left 999\n",
    ),
    (
        "init x with bb(0); attach p to x.r; release x; detach p",
        "fault LinkAbsent left 999\n",
    ),
    // exported variables: read and written
    ("n := x.w", "fault NoModule left 1000\n"),
    ("x.w := 1", "fault NoModule left 1000\n"),
    (
        "init x with bb(0); release x; x.w := 1",
        "fault NoModule left 999\n",
    ),
    ("x.w := 1 div 0", "fault NoModule left 1000\n"),
    ("x.v[1 div 0] := 1", "fault NoModule left 1000\n"),
    ("x.v[1 div 0] := 1 div 0", "fault NoModule left 1000\n"),
    ("x.v[4] := 1 mod 0", "fault NoModule left 1000\n"),
    ("n := x.v[1 div 0]", "fault NoModule left 1000\n"),
    (
        "init x with bb(0); x.v[4] := 1 div 0",
        "fault Index left 999\n",
    ),
    (
        "init x with bb(0); x.v[1 mod 0] := 1 div 0",
        "fault ModNotPositive left 999\n",
    ),
    ("g[1 div 0] := x.w", "fault DivideByZero left 1000\n"),
    ("g[4] := x.w", "fault Index left 1000\n"),
    ("g[0] := x.w", "fault NoModule left 1000\n"),
    ("n := x.w + 1 div 0", "fault NoModule left 1000\n"),
    ("n := 1 div 0 + x.w", "fault DivideByZero left 1000\n"),
    ("init x with bb(0); n := x.w", "fault Unset left 999\n"),
    // the arguments of an init, then its unit, then the depth, then whether there is a child
    (
        "for n := 1 to 1000 do; init x with bb(1 div 0)",
        "fault DivideByZero left 0\n",
    ),
    (
        "for n := 1 to 1000 do; init x with bb(4)",
        "fault Range left 0\n",
    ),
    (
        "for n := 1 to 1000 do; init x with bb(y.w)",
        "fault NoModule left 0\n",
    ),
    (
        "for n := 1 to 1000 do; init x with bb(0)",
        "fault StepLimit left 0\n",
    ),
    ("d(199)", "fault Unset left 800\n"),
    ("e := 4; d(199)", "fault Range left 800\n"),
    ("for n := 1 to 800 do; d(199)", "fault Unset left 0\n"),
    (
        "init x with bb(0); init x with bb(1 div 0)",
        "fault DivideByZero left 999\n",
    ),
    (
        "init x with bb(0); init x with bb(4)",
        "fault Range left 999\n",
    ),
    (
        "init x with bb(0); for n := 1 to 999 do; init x with bb(4)",
        "fault Range left 0\n",
    ),
    (
        "e := 0; for n := 1 to 800 do; d(199)",
        "fault StepLimit left 0\n",
    ),
    (
        "e := 0; for n := 1 to 799 do; d(199)",
        "fault CallDepth left 0\n",
    ),
    (
        "init x with bb(0); for n := 1 to 999 do; init x with bb(0)",
        "fault StepLimit left 0\n",
    ),
    (
        "e := 0; init x with bb(0); for n := 1 to 799 do; d(199)",
        "fault StepLimit left 0\n",
    ),
    (
        "e := 0; init x with bb(0); d(199)",
        "fault CallDepth left 798\n",
    ),
    (
        "e := 0; init x with bb(0); d(198)",
        "fault ModuleTaken left 799\n",
    ),
    // the arguments of a call, then its unit, then the depth
    (
        "for n := 1 to 1000 do; d(1 div 0)",
        "fault DivideByZero left 0\n",
    ),
    ("for n := 1 to 1000 do; d(0)", "fault StepLimit left 0\n"),
    ("for n := 1 to 800 do; d(200)", "fault StepLimit left 0\n"),
    ("d(200)", "fault CallDepth left 799\n"),
    // the arguments of an output, each with its fit, then its unit
    ("output p.m(4, 1 div 0)", "fault Range left 1000\n"),
    ("output p.m(1 div 0, 4)", "fault DivideByZero left 1000\n"),
    ("output p.m(x.w, 1 div 0)", "fault NoModule left 1000\n"),
    (
        "for n := 1 to 1000 do; output p.m(0, 4)",
        "fault Range left 0\n",
    ),
    (
        "for n := 1 to 1000 do; output p.m(0, 0)",
        "fault StepLimit left 0\n",
    ),
    // what takes no unit
    (
        "for n := 1 to 1000 do; release x",
        "fault NoModule left 0\n",
    ),
    (
        "for n := 1 to 1000 do; detach p",
        "fault LinkAbsent left 0\n",
    ),
];

fn is_done(alloc: Global, does: &str, wanted: &str) -> Result<bool, AllocError> {
    let text = YARD.replace(alloc, "DOES", does)?;
    let log = format!(in alloc; "{YARD_START}{wanted}")?;
    Ok(logs(alloc, text.as_str(), &YARD_STEPS, log.as_str()))
}

// Which fault a statement has, which of two comes first, and which units it takes; and the effects of one job.
#[test]
fn deeds_of_a_hub(rt: HostRuntime) -> Result<(), Fail> {
    for (does, wanted) in &DEEDS {
        assert!(rt; is_done(rt.alloc(), does, wanted)?, "{does}");
    }
    Ok(())
}
