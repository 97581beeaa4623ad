//! The worked specifications.

use crate::counter::COUNTER;

/// A specification, with what another program counted.
#[derive(Clone, Copy)]
pub struct Worked {
    pub name: &'static str,
    pub text: &'static str,
    /// How many tokens it has, and the place behind its `end.`, in bytes. None where nobody counted.
    pub counted: Option<(usize, u32)>,
}

pub const WORKED: [Worked; 16] = [
    Worked {
        name: "counter",
        text: COUNTER,
        counted: Some((43, 168)),
    },
    Worked {
        name: "two_cells",
        text: "specification pair systemprocess;
module cell process; end;
body b for cell;
state off, on;
initialize to off begin end;
trans from off to on begin end;
end;
modvar x, y: cell;
initialize begin init x with b; init y with b end;
end.
",
        counted: Some((58, 232)),
    },
    Worked {
        name: "arithmetic",
        text: "specification calc systemprocess;
channel c(a, b); by a: v(i, j, k: integer);
ip o: c(a);
state go, done;
initialize to go begin end;
trans from go to done
begin output o.v((-7) div 2, (-7) mod 2, -7 mod 2) end;
end.
",
        counted: Some((79, 216)),
    },
    Worked {
        name: "ring",
        text: "specification ring;
default individual queue;
channel link(giver, taker);
by giver: token(hops: integer);
module station systemprocess(mark: integer);
ip left: link(taker); right: link(giver);
end;
body go for station;
var sum: integer;
state fresh, here;
initialize to fresh begin sum := mark end;
trans
from fresh to here begin output right.token(0) end;
from here to here when left.token
begin sum := hops; output right.token(hops + 1) end;
end;
modvar s1, s2: station;
initialize begin
init s1 with go(1); init s2 with go(2);
connect s1.right to s2.left; connect s2.right to s1.left
end;
end.
",
        counted: None,
    },
    Worked {
        name: "guard_fault",
        text: "specification g systemprocess;
module m process; end;
body b for m;
var z: integer;
initialize begin z := 0 end;
trans provided 1 div z = 1 begin end;
end;
modvar x: m;
initialize begin init x with b end;
trans begin end;
end.
",
        counted: Some((58, 226)),
    },
    Worked {
        name: "parent_first",
        text: "specification pp systemprocess;
module m process; end;
body b for m;
trans begin end;
end;
modvar x: m;
state one, two;
initialize to one begin init x with b end;
trans from one to two begin end;
end.
",
        counted: Some((51, 200)),
    },
    Worked {
        name: "alternating_bit",
        text: "specification abp;
default individual queue;
channel wire(near, far);
by near: pdu(b, n: integer);
by far: ack(b: integer);
module sender systemprocess; ip m: wire(near); end;
module medium systemprocess; ip s: wire(far); r: wire(near); end;
module receiver systemprocess; ip m: wire(far); end;
body sb for sender;
var k, bit: integer;
state send, wait;
initialize to send begin k := 0; bit := 0 end;
trans
from send to wait provided k < 40 begin output m.pdu(bit, k) end;
from wait
  to send when m.ack provided b = bit
    begin k := k + 1; bit := 1 - bit end;
  to same delay(3) begin output m.pdu(bit, k) end;
end;
body mb for medium;
var c: integer;
initialize begin c := 0 end;
trans
when s.pdu begin
  c := c + 1;
  if c mod 4 <> 0 then output r.pdu(b, n)
end;
when r.ack begin output s.ack(b) end;
end;
body rb for receiver;
var want: integer;
initialize begin want := 0 end;
trans when m.pdu begin
  if b = want then want := 1 - want;
  output m.ack(b)
end;
end;
modvar s: sender; m: medium; r: receiver;
initialize begin
  init s with sb; init m with mb; init r with rb;
  connect s.m to m.s; connect m.r to r.m
end;
end.
",
        counted: Some((342, 1131)),
    },
    Worked {
        name: "attach_detach",
        text: "specification a12;
channel c(a, b); by a: m(i: integer);
module src systemprocess; ip o: c(a); end;
module hub systemprocess; ip p: c(b); end;
body sb for src;
state go, done;
initialize to go begin end;
trans from go to done begin output o.m(1); output o.m(2) end;
end;
body hb for hub;
module leaf process; ip q: c(b); end;
body lb for leaf;
state one, two;
initialize to one begin end;
trans from one to two when q.m begin end;
end;
modvar x: leaf;
state s0, s1, s2, s3;
initialize to s0 begin init x with lb end;
trans
from s0 to s1 delay(1) begin attach p to x.q end;
from s1 to s2 delay(1) begin detach p end;
from s2 to s3 when p.m begin end;
end;
modvar u: src; v: hub;
initialize begin
  init u with sb; init v with hb; connect u.o to v.p
end;
end.
",
        counted: Some((240, 757)),
    },
    Worked {
        name: "release",
        text: "specification a12;
channel c(a, b); by a: m(i: integer);
module src systemprocess; ip o: c(a); end;
module hub systemprocess; ip p: c(b); end;
body sb for src;
state go, done;
initialize to go begin end;
trans from go to done begin output o.m(1); output o.m(2) end;
end;
body hb for hub;
module leaf process; ip q, r: c(b); end;
body lb for leaf;
module deep process; ip t: c(b); end;
body db for deep; end;
modvar y: deep;
ip j: c(a);
initialize begin
  init y with db; connect j to y.t; output j.m(8)
end;
end;
modvar x: leaf;
ip k: c(a);
state s0, s1, s2, s3;
initialize to s0 begin
  init x with lb; connect k to x.r; output k.m(9)
end;
trans
from s0 to s1 delay(1) begin attach p to x.q end;
from s1 to s2 delay(1) begin release x end;
from s2 to s3 when p.m begin end;
end;
modvar u: src; v: hub;
initialize begin
  init u with sb; init v with hb; connect u.o to v.p
end;
end.
",
        counted: Some((299, 882)),
    },
    Worked {
        name: "shared_queue",
        text: "specification q14;
channel c(a, b); by a: m(i: integer);
module src systemprocess; ip o1, o2: c(a); end;
module hub systemprocess; ip p, q: c(b) common queue; end;
body sb for src;
state go, done;
initialize to go begin end;
trans from go to done begin output o1.m(1); output o2.m(2) end;
end;
body hb for hub;
trans when q.m begin end;
end;
modvar u: src; v: hub;
initialize begin
  init u with sb; init v with hb;
  connect u.o1 to v.p; connect u.o2 to v.q
end;
end.
",
        counted: Some((153, 468)),
    },
    Worked {
        name: "delay",
        text: "specification d systemprocess; state go, done; initialize to go begin end; trans from go to done delay(3, 5) begin end; end.
",
        counted: Some((31, 124)),
    },
    Worked {
        name: "reroute",
        text: "specification s16 systemprocess;
channel c(a, b); by a: m;
module put process; ip o: c(a); end;
module get process; ip p: c(b); end;
body pb for put;
state go, done;
initialize to go begin end;
trans from go to done begin output o.m end;
end;
body gb for get;
module leaf process; ip q: c(b); end;
body lb for leaf;
trans when q.m begin end;
end;
modvar x: leaf;
state go, done;
initialize to go begin init x with lb end;
trans from go to done begin attach p to x.q end;
end;
modvar g: get; u: put;
initialize begin
  init g with gb; init u with pb; connect u.o to g.p
end;
end.
",
        counted: Some((178, 578)),
    },
    Worked {
        name: "nested_init",
        text: "specification deep systemprocess;
module m process; end;
body b for m;
modvar x: m;
initialize begin init x with b end;
end;
modvar y: m;
initialize begin init y with b end;
end.
",
        counted: Some((45, 178)),
    },
    Worked {
        name: "aliasing",
        text: "specification v21 systemprocess;
channel c(a, b); by a: v(i: integer);
ip o: c(a);
var n: integer;
state go, done;
procedure p(var x: integer; var y: integer);
begin x := 1; y := 2; output o.v(x) end;
initialize to go begin end;
trans from go to done begin p(n, n) end;
end.
",
        counted: Some((94, 274)),
    },
    Worked {
        name: "idle",
        text: "specification idle; end.
",
        counted: Some((5, 24)),
    },
    Worked {
        name: "process_in_activity",
        text: "specification w systemactivity;
module m process; end;
modvar x: m;
end.
",
        counted: Some((17, 72)),
    },
];
