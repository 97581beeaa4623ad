//! Names: which texts keep the rules on them, and where others break which.

use crate::marks::{found, told, wanted};
use estelle_tree::Spec;
use scope_names::resolve;
use std::alloc::Global;
use std::test::Fail;

/// Texts. A comment that is a digit alone stands right before the node at which that rule is reported.
const TEXTS: [&str; 95] = [
    // kept
    "specification s systemprocess; var n: integer; state go; initialize to go begin n := 0 end; trans from go to go provided n < 3 name tick: begin n := n + 1 end; end.",
    "specification s; const s = 1; t = s; end.",
    "specification s; const integer = 1; a = integer; end.",
    "specification s; const x = 1; module m; end; body b for m; const y = x; end; end.",
    "specification s; const x = 1; procedure f; const y = x; x = 2; begin end; end.",
    "specification s; procedure f; begin g end; procedure g; begin f end; end.",
    "specification s; state go, went; stateset both = [go, went]; initialize to go begin end; trans from both to went begin end; end.",
    "specification s; channel c(r, q); by r: x(a: integer); y; module m(a: integer); ip p: c(r); export e: integer; end; body b for m; initialize begin e := a; output p.x(a) end; end; modvar z: m; initialize begin init z with b(1); z.e := z.e + 1; connect z.p to z.p end; end.",
    "specification s; channel c(r, q); by r: x(a: integer); y; ip p: c(q); trans when p.x(a) provided a < 3 begin end; end.",
    "specification s; channel c(r, q); by r: x(a: integer); y; ip p: c(q); trans when p.x provided a < 3 begin end; end.",
    "specification s; type t = record a, b: integer; c: record a: integer end end; var v: t; w: array [1..2] of t; initialize begin v.c.a := w[1].c.a + v.b end; end.",
    "specification s; trans any i: 1..2 do begin end; end.",
    "specification s; trans any i: (one, two); j: boolean do provided (i = two) and j begin end; end.",
    "specification s; function f(n: integer): integer; begin f := n end; var n: integer; initialize begin n := f(n) + abs(n) end; end.",
    "specification s; var f: record g: integer end; g: integer; initialize begin f.g := g end; end.",
    "specification s; timescale nothing; initialize name anything: begin end; end.",
    "specification s; function abs(n: integer): integer; begin abs := n end; end.",
    "specification s; type t = 1..3; channel c(t, q); by t: x(a: t; q: t); by q: y(a: t); ip p: c(t); initialize begin output p.x(1, 2) end; end.",
    "specification s; channel c(r, q); by r: integer(a: integer); x(a: integer); ip p: c(r); initialize begin output p.integer(1) end; end.",
    // twice
    "specification s; const a = 1; type {1}a = integer; end.",
    "specification s; var a, {1}a: integer; end.",
    "specification s; type t = (a, {1}a); end.",
    "specification s; var a: integer; procedure {1}a; begin end; end.",
    "specification s; channel c(r, q); by r: x(a: integer); y; module m(p: integer); ip {1}p: c(r); end; end.",
    "specification s; module m(p: integer); end; body b for m; var {1}p: integer; end; end.",
    "specification s; module h(x: integer); end; body b for h; var {1}x: integer; procedure x; begin end; end; end.",
    "specification s; procedure f(a: integer); var {1}a: integer; begin end; end.",
    "specification s; channel c(r, {1}r); by r: x; end.",
    "specification s; channel c(r, q); by r: x; {1}x; end.",
    "specification s; channel c(r, q); by r: x(a: integer; {1}a: integer); end.",
    "specification s; initialize var a, {1}a: integer; begin end; end.",
    "specification s; type t = record a: integer; {1}a: integer end; end.",
    "specification s; trans any i: 1..2; {1}i: 1..2 do begin end; end.",
    "specification s; trans any i: 1..2 do delay(i) begin end; any i: 1..2 do begin end; end.",
    "specification s; channel c(r, q); by r: x(a: integer); y; ip p: c(q); trans when p.x any {1}a: 1..2 do begin end; end.",
    "specification s; channel c(r, q); by r: x(a: integer); y; ip p: c(q); trans any a: 1..2 do when p.{1}x begin end; end.",
    "specification s; channel c(r, q); by r: x(a: integer); y; ip p: c(q); trans any a: 1..2 do when p.x({1}a) begin end; end.",
    "specification s; channel c(r, q); by r: x(a: integer); y; ip p: c(q); trans any a: 1..2 do when p.{1}x(b) begin end; end.",
    "specification s; channel c(r, q); by r: x(b, a: integer); ip p: c(q); trans any a: 1..2; b: 1..2 do when p.{1}x(b) begin end; end.",
    "specification s; channel c(r, q); by r: x(b, a: integer); ip p: c(q); trans any a: 1..2 do when p.x(b, {1}a) begin end; end.",
    // not visible
    "specification count systemprocess; var n: integer; state go; initialize to go begin n := 0 end; trans from go to go provided {2}k < 3 begin n := n + k end; end.",
    "specification s; const a = {2}b; b = 1; end.",
    "specification s; const a = {2}a; end.",
    "specification s; const a = {2}s; end.",
    "specification s; const x = 1; module m; end; body b for m; var x: integer; body c for m; const y = {2}x; end; end; end.",
    "specification s; var v: integer; module m; end; body b for m; initialize begin {2}v := 1 end; end; end.",
    "specification s; module m; end; modvar x: m; body b for m; initialize begin init {2}x with b end; end; end.",
    "specification s; trans any i: 1..2; j: 1..{2}i do begin end; end.",
    "specification s; trans any i: 1..2 do provided i = 1 begin end; trans provided {2}i = 1 begin end; end.",
    "specification s; var n: integer; initialize begin n.{2}f := 1 end; end.",
    "specification s; var r: record a: integer end; initialize begin r.{2}b := 1 end; end.",
    "specification s; initialize begin {2}r.b := 1 end; end.",
    "specification s; procedure f; var a: integer; begin end; initialize begin {2}a := 1 end; end.",
    "specification s; channel c(r, q); by r: x(a: integer); y; ip p: c(q); trans when p.{2}z begin end; end.",
    "specification s; channel c(r, q); by r: x(a: integer); y; ip p: {2}d(q); end.",
    "specification s; module m; end; modvar x: m; initialize begin x.{2}e := 1 end; end.",
    "specification s; channel c(r, q); by r: x(a: {2}r); end.",
    "specification s; channel c(r, q); by r: x(a: {2}x); end.",
    "specification s; type t = record f: integer end; r = record t: integer; u: t end; var v: r; initialize begin v.u.{2}g := 1 end; end.",
    "specification s; type t = record f: integer end; r = record t: integer; u: array [1..2] of t end; var v: r; initialize begin v.u[1].{2}g := 1 end; end.",
    "specification s; type t = integer; var v: 1..t; initialize begin v.{2}f := 1 end; end.",
    // of another kind
    "specification s; initialize begin {3}abs := 1 end; end.",
    "specification s; initialize begin {3}succ := 1 end; end.",
    "specification s; initialize begin {3}chr := 'a' end; end.",
    "specification s; state go; initialize to go begin {3}go := 1 end; end.",
    "specification s; type t = integer; const a = {3}t; end.",
    "specification s; const a = 1; var n: {3}a; end.",
    "specification s; state go; stateset every = [go]; initialize to go begin end; trans from every to {3}every begin end; end.",
    "specification s; procedure f; begin end; var n: integer; initialize begin n := {3}f end; end.",
    "specification s; var n: integer; initialize begin {3}n end; end.",
    "specification s; const a = 1; initialize begin {3}a := 1 end; end.",
    "specification s; module m; end; body b for m; end; modvar x: {3}b; end.",
    "specification s; module m; end; modvar x: m; initialize begin init x with {3}m end; end.",
    "specification s; var n: integer; trans priority {3}n begin end; end.",
    "specification s; channel c(r, q); by r: x(a: integer); y; ip p: c(q); trans when p.{3}r begin end; end.",
    "specification s; body b for {3}b; end; end.",
    "specification s; channel c(a, b); by a: m(t: integer; u: {3}t); end.",
    "specification s; channel c(a, b); by a: m(x: {3}c); end.",
    "specification s; module integer(x: {3}integer); end; end.",
    // of another kind, and what stands behind such a name is not judged
    "specification s; var n: integer; v: {3}n; initialize begin v.f := 1 end; end.",
    "specification s; var n: integer; v: array [1..2] of {3}n; initialize begin v[1].f := 1 end; end.",
    "specification s; var n: integer; v: array [1..2, 1..2] of {3}n; initialize begin v[1, 1].f := v[1][2].g end; end.",
    "specification s; var n: integer; v: record a: {3}n end; initialize begin v.a.f := 1 end; end.",
    "specification s; var n: integer; type t = {3}n; u = array [1..2] of t; var v: u; initialize begin v[1].f := 1 end; end.",
    "specification s; procedure f(a: integer; b: {3}a); begin b.f := 1 end; end.",
    "specification s; const m = 1; modvar x: {3}m; initialize begin x.e := 1; connect x.p to x.q end; end.",
    "specification s; var d: integer; ip p: {3}d(r); initialize begin output p.x end; end.",
    "specification s; var d: integer; ip p: {3}d(r); trans when p.x begin end; end.",
    // states
    "{4}specification s; state go; initialize begin end; end.",
    "{4}specification s; state go; end.",
    "specification s; module m; end; {4}body b for m; state go; end; end.",
    // another header
    "specification s; module m; end; module k; end; body b for m; end; modvar x: k; initialize begin init x with {5}b end; end.",
    // the least
    "specification s; state go; initialize to go begin go := {2}k end; end.",
    "specification s; var n: integer; initialize begin n := {2}k + k end; end.",
    "specification s; initialize begin k := 1 end; trans any i, {1}i: 1..2 do begin end; end.",
];

fn judged(alloc: Global, spec: &Spec) -> Option<(u8, usize)> {
    match resolve(alloc, spec) {
        Ok(_) => Some((0, 0)),
        Err(refusal) => told(refusal),
    }
}

// The definitions of scopes and of the rules on names, by texts: what is declared twice in each kind of scope, what hides
// what, what is visible where, and which breach is reported.
#[test]
fn rules_on_names(rt: HostRuntime) -> Result<(), Fail> {
    for text in &TEXTS {
        assert!(rt;
            found(rt.alloc(), text.as_bytes(), judged) == Some(wanted(text.as_bytes())),
            "{text}"
        );
    }
    Ok(())
}
