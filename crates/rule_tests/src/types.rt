//! Types: which texts keep the rules on them, and where others break which.

use crate::marks::{found, told, wanted};
use estelle_tree::Spec;
use pascal_check::check;
use scope_names::resolve;
use std::alloc::Global;
use std::test::Fail;

/// Texts. A comment of two digits stands right before the node at which that rule is reported.
const TEXTS: [&str; 135] = [
    // kept
    "specification s; type t = record f: integer end; r = record t: boolean; u: t end; var v: r; initialize begin v.t := true; v.u.f := 1 end; end.",
    "specification s; type t = record f: integer end; module m; end; body b for m; var v: record u: t; w: (t, q) end; initialize begin v.u.f := 1; v.w := t end; end; end.",
    "specification s; type t = 1..3; var v: t; n: integer; initialize begin v := n; n := v; v := v + n end; end.",
    "specification s; var a, c: array [1..2] of integer; initialize begin a := c; a[1] := c[2] end; end.",
    "specification s; type t = array [1..2] of integer; u = t; var a: t; c: u; initialize begin a := c end; end.",
    "specification s; var x: set of 1..9; b: boolean; initialize begin x := []; x := [1, 3..5] + x; b := (2 in x) and (x <= [1]) end; end.",
    "specification s; type e = (red, green); f = red..green; var c: e; d: f; initialize begin c := d; d := succ(c); if c < d then c := pred(d) end; end.",
    "specification s; var c: char; n: integer; initialize begin c := 'a'; n := ord(c); c := chr(n); n := abs(-n) + sqr(n) end; end.",
    "specification s; type r = record a: integer; b: array [boolean] of char end; var v, w: r; initialize begin v := w; v.b[true] := w.b[v.a = 1] end; end.",
    "specification s; var n: integer; initialize begin case n of 1, 2: n := 3; 3: end; for n := 1 to 2 do; n := -n mod 2 end; end.",
    "specification s; function f(x: integer): integer; var y: integer; begin y := x; x := 2; f := y end; var n: integer; initialize begin n := f(n) + f(1) end; end.",
    "specification s; procedure p(var x: integer; y: integer); begin x := y end; var a: array [1..2] of integer; r: record f: integer end; initialize begin p(a[1], r.f); p(r.f, 3) end; end.",
    "specification s; var n: integer; trans any i: 1..2 do priority i provided i < n begin n := i end; end.",
    "specification s systemprocess; var n: integer; trans delay(n) begin end; trans delay(1, *) begin end; trans delay(1, n + 1) begin end; end.",
    "specification s; type a = array [1..256, 1..256] of integer; b = set of 0..255; end.",
    "specification s; type o = 1..1; t = array [o, o, o, o, o, o, o, o, o, o, o, o, o, o, o, o, o, o, o, o, o, o, o, o, o, o, o, o, o, o, o, o, o, o, o, o, o, o, o, o, o, o, o, o, o, o, o, o, o, o, o, o, o, o, o, o, o, o, o, o, o, o, o, o, o, o, o, o, o, o, o, o, o, o, o, o, o, o, o, o, o, o, o, o, o, o, o, o, o, o, o, o, o, o, o, o, o, o, o, o, o, o, o, o, o, o, o, o, o, o, o, o, o, o, o, o, o, o, o, o, o, o, o, o, o, o, o, o, o, o, o, o, o, o, o, o, o, o, o, o, o, o, o, o, o, o, o, o, o, o, o, o, o, o, o, o, o, o, o, o, o, o, o, o, o, o, o, o, o, o, o, o, o, o, o, o, o, o, o, o, o, o, o, o, o, o, o, o, o, o, o, o, o, o, o, o, o, o, o, o] of integer; end.",
    // 40: operations
    "specification s; var n: integer; b: boolean; initialize begin n := {40}n + b end; end.",
    "specification s; var n: integer; initialize begin n := [not {40}2] end; end.",
    "specification s; type t = record f: integer end; r = record t: integer; u: t end; var v: r; initialize begin v.u.f := {40}true end; end.",
    "specification s; var n: integer; b: boolean; initialize begin n := {40}b + n end; end.",
    "specification s; var n: integer; b: boolean; initialize begin n := {40}n + n + b end; end.",
    "specification s; var n: integer; b: boolean; initialize begin n := {40}-n + b end; end.",
    "specification s; var n: integer; b: boolean; initialize begin n := n + {40}n * b end; end.",
    "specification s; var n: integer; b: boolean; initialize begin n := -{40}b end; end.",
    "specification s; var n: integer; b: boolean; initialize begin b := not {40}n end; end.",
    "specification s; var n: integer; b: boolean; initialize begin b := {40}n and b end; end.",
    "specification s; var n: integer; b: boolean; initialize begin b := {40}b or n end; end.",
    "specification s; var n: integer; b: boolean; initialize begin n := {40}b div n end; end.",
    "specification s; var x: set of 1..9; initialize begin x := {40}x div x end; end.",
    "specification s; var n: integer; b: boolean; initialize begin b := {40}n < b end; end.",
    "specification s; var x: set of 1..9; b: boolean; initialize begin b := {40}x < x end; end.",
    "specification s; var x: record a: integer end; b: boolean; initialize begin b := {40}x = x end; end.",
    "specification s; var x: array [1..2] of integer; b: boolean; initialize begin b := {40}x <> x end; end.",
    "specification s; var n: integer; b: boolean; initialize begin b := {40}n in n end; end.",
    "specification s; var b: boolean; initialize begin b := {40}b in [1] end; end.",
    "specification s; var b: boolean; initialize begin b := {40}[true] <= [1] end; end.",
    "specification s; type e = (red, green); f = (blue, white); var b: boolean; initialize begin b := {40}red = blue end; end.",
    // 40: other places
    "specification s; var n: integer; b: boolean; initialize begin n := {40}b end; end.",
    "specification s; var n: integer; c: char; initialize begin c := {40}n end; end.",
    "specification s; var a: array [1..2] of integer; c: array [1..2] of integer; initialize begin a := {40}c end; end.",
    "specification s; var r: record a: integer end; q: record a: integer end; initialize begin r := {40}q end; end.",
    "specification s; var x: set of 1..9; initialize begin x := {40}['a'] end; end.",
    "specification s; var n: integer; initialize begin if {40}n then n := 1 end; end.",
    "specification s; var n: integer; initialize begin while {40}n do n := 1 end; end.",
    "specification s; var n: integer; initialize begin repeat n := 1 until {40}n end; end.",
    "specification s; var n: integer; trans provided {40}n begin end; end.",
    "specification s; var n: integer; b: boolean; initialize begin for n := {40}b to 3 do end; end.",
    "specification s; var n: integer; b: boolean; initialize begin for n := 1 downto {40}b do end; end.",
    "specification s; var b: boolean; trans delay({40}b) begin end; end.",
    "specification s; var b: boolean; trans delay(1, {40}b) begin end; end.",
    "specification s; procedure p(x: integer); begin end; initialize begin p({40}true) end; end.",
    "specification s; function f(x: integer): integer; begin f := x end; var n: integer; initialize begin n := f({40}true) end; end.",
    "specification s; module m(a: integer); end; body b for m; end; modvar x: m; initialize begin init x with b({40}true) end; end.",
    "specification s; channel c(r, q); by r: x(a: integer); y; ip p: c(r); initialize begin output p.x({40}'a') end; end.",
    "specification s; var a: array [1..2] of integer; initialize begin a[{40}true] := 1 end; end.",
    "specification s; var a: array [1..2, boolean] of integer; initialize begin a[1, {40}1] := 1 end; end.",
    "specification s; var n: integer; initialize begin {40}n[1] := 1 end; end.",
    "specification s; var n: integer; initialize begin n := {40}n[1] end; end.",
    "specification s; var n: integer; b: boolean; initialize begin b := n in [1, {40}true] end; end.",
    "specification s; var n: integer; b: boolean; initialize begin b := n in [1..{40}true] end; end.",
    "specification s; var r: record a: integer end; b: boolean; initialize begin b := 1 in [{40}r] end; end.",
    "specification s; var n: integer; initialize begin n := abs({40}true) end; end.",
    "specification s; var n: integer; initialize begin n := ord({40}[1]) end; end.",
    "specification s; const c = {40}-true; end.",
    "specification s; const c = 'a'; d = {40}-c; end.",
    "specification s; type t = {40}-true..true; end.",
    "specification s; trans any i: 1..2 do const c = {40}i; begin end; end.",
    "specification s; var n: integer; initialize begin case n of {40}-true: end end; end.",
    "specification s; trans priority {40}-true begin end; end.",
    // 40: a set or array type is one whatever its base or index
    "specification s; type r = record a: integer end; var w: set of r; initialize begin w := {40}3 end; end.",
    "specification s; type r = record a: integer end; var w: set of r; initialize begin w := {40}[1] end; end.",
    "specification s; type r = record a: integer end; var w: set of r; b: boolean; initialize begin b := {40}1 in w end; end.",
    "specification s; type r = record a: integer end; var w: set of r; n: integer; initialize begin n := {40}w end; end.",
    "specification s; var w: set of 1..true; initialize begin w := {40}3 end; end.",
    "specification s; type r = record a: integer end; var w: array [r] of integer; initialize begin w := {40}3 end; end.",
    "specification s; type r = record a: integer end; var w: array [r] of integer; initialize begin w[{40}1] := 3 end; end.",
    // 40: what is broken has no type
    "specification s; var n: integer; b: boolean; initialize begin n := ({40}b + n) + b end; end.",
    "specification s; var n: integer; b: boolean; initialize begin n := (-{40}b) + b end; end.",
    "specification s; var n: integer; b: boolean; initialize begin b := (not {40}n) and n end; end.",
    "specification s; var n: integer; x: set of 1..9; initialize begin x := ([1, {40}true]) * n end; end.",
    // 41
    "specification s; procedure p(x: integer); begin end; initialize begin {41}p end; end.",
    "specification s; procedure p(x: integer); begin end; initialize begin {41}p(1, 2) end; end.",
    "specification s; function f(x: integer): integer; begin f := x end; var n: integer; initialize begin n := {41}f end; end.",
    "specification s; var n: integer; initialize begin n := {41}abs(1, 2) end; end.",
    "specification s; var n: integer; initialize begin n := {41}abs end; end.",
    "specification s; module m(a: integer); end; body b for m; end; modvar x: m; initialize begin init x with {41}b end; end.",
    "specification s; channel c(r, q); by r: x(a: integer); y; ip p: c(r); initialize begin output p.{41}y(1) end; end.",
    // 42
    "specification s; procedure q(var x: integer); begin end; initialize begin q({42}1) end; end.",
    "specification s; procedure q(var x: integer); begin end; var n: integer; initialize begin q({42}(n)) end; end.",
    "specification s; procedure q(var x: integer); begin end; var n: 1..3; initialize begin q({42}n) end; end.",
    "specification s; procedure q(var x: integer); begin end; const c = 1; initialize begin q({42}c) end; end.",
    "specification s; procedure q(var x: integer); begin end; module m; export e: integer; end; modvar x: m; initialize begin q({42}x.e) end; end.",
    // 43
    "specification s; function f({43}var x: integer): integer; begin f := x end; end.",
    "specification s; var n: integer; function f: integer; begin {43}n := 1; f := 1 end; end.",
    "specification s; var n: integer; function f: integer; begin {43}for n := 1 to 2 do; f := 1 end; end.",
    "specification s; procedure p; begin end; function f: integer; begin {43}p; f := 1 end; end.",
    "specification s; channel c(r, q); by r: y; ip p: c(r); function f: integer; begin {43}output p.y; f := 1 end; end.",
    "specification s; module m; export e: integer; end; modvar x: m; function f: integer; begin {43}x.e := 1; f := 1 end; end.",
    "specification s; function f: integer; begin f := 1 end; procedure p; begin {43}f := 1 end; end.",
    "specification s; function f: integer; begin f := 1 end; initialize begin {43}f := 1 end; end.",
    // 44
    "specification s; type t = {44}3..1; end.",
    "specification s; type t = {44}1..true; end.",
    "specification s; type t = {44}set of integer; end.",
    "specification s; type t = {44}set of 0..256; end.",
    "specification s; type t = {44}packed set of -1..1; end.",
    "specification s; type r = record a: integer end; t = {44}set of r; end.",
    "specification s; type t = {44}array [integer] of boolean; end.",
    "specification s; type r = record a: integer end; t = {44}array [boolean, r] of boolean; end.",
    "specification s; type t = {44}array [1..65537] of integer; end.",
    "specification s; type t = {44}array [1..256, 1..257] of integer; end.",
    "specification s; var v: {44}record a: array [1..65537] of integer end; end.",
    "specification s; type t = array [1..300] of integer; u = {44}array [1..300] of t; end.",
    "specification s; trans any i: {44}3..1 do begin end; end.",
    "specification s; type o = 1..1; t = {44}array [o, o, o, o, o, o, o, o, o, o, o, o, o, o, o, o, o, o, o, o, o, o, o, o, o, o, o, o, o, o, o, o, o, o, o, o, o, o, o, o, o, o, o, o, o, o, o, o, o, o, o, o, o, o, o, o, o, o, o, o, o, o, o, o, o, o, o, o, o, o, o, o, o, o, o, o, o, o, o, o, o, o, o, o, o, o, o, o, o, o, o, o, o, o, o, o, o, o, o, o, o, o, o, o, o, o, o, o, o, o, o, o, o, o, o, o, o, o, o, o, o, o, o, o, o, o, o, o, o, o, o, o, o, o, o, o, o, o, o, o, o, o, o, o, o, o, o, o, o, o, o, o, o, o, o, o, o, o, o, o, o, o, o, o, o, o, o, o, o, o, o, o, o, o, o, o, o, o, o, o, o, o, o, o, o, o, o, o, o, o, o, o, o, o, o, o, o, o, o, o, o] of integer; end.",
    "specification s; type r = record a: integer end; var w: {44}set of r; v: set of r; initialize begin w := []; w := w end; end.",
    "specification s; var w: set of {44}1..true; b: boolean; initialize begin w := [1] + w; b := 1 in w end; end.",
    // 45
    "specification s; var n: integer; initialize begin case n of 1: ; {45}1: end end; end.",
    "specification s; const one = 1; var n: integer; initialize begin case n of 1, {45}one: end end; end.",
    "specification s; var n: integer; initialize begin case n of {45}true: end end; end.",
    "specification s; var x: set of 1..9; initialize begin case x of {45}1: end end; end.",
    "specification s; type r = record a: integer end; var x: r; initialize begin case x of {45}1: ; 2: end end; end.",
    // 46
    "specification s; type r = record a: integer end; function f: {46}r; begin end; end.",
    "specification s; type x = set of 1..9; function f: {46}x; begin end; end.",
    // 47
    "specification s; var g: integer; procedure p; begin g := 1 end; module m; end; body b for m; initialize begin {47}p end; end; end.",
    "specification s; var g: integer; procedure p; begin q end; procedure q; begin g := 1 end; module m; end; body b for m; initialize begin {47}p end; end; end.",
    "specification s; channel c(r, q); by r: y; ip i: c(r); procedure p; begin output i.y end; module m; end; body b for m; initialize begin {47}p end; end; end.",
    "specification s; channel c(r, q); by r: y; ip i: c(r); procedure p; begin k end; procedure k; begin l end; procedure l; begin output i.y end; module m; end; body b for m; initialize begin {47}p; l end; end; end.",
    "specification s; procedure p(x: integer); begin q(x) end; procedure q(x: integer); begin p(x) end; module m; end; body b for m; initialize begin p(1) end; end; end.",
    "specification s; var g: integer; procedure p; begin g := 1 end; initialize begin p end; end.",
    // 48
    "specification s; var x: set of 1..9; initialize begin for {48}x := 1 to 2 do end; end.",
    "specification s; var r: record a: integer end; initialize begin for {48}r := 1 to 2 do end; end.",
    // the least
    "specification s; procedure p(x: integer); begin end; initialize begin p({40}true, 1) end; end.",
    "specification s; procedure p(x: integer); begin end; var n: integer; initialize begin p; n := {40}true end; end.",
    "specification s; var n: integer; initialize begin n := {40}true; n := true end; end.",
    "specification s; type t = 3..1; procedure p(x: integer); begin end; initialize begin {41}p end; end.",
];

fn judged(alloc: Global, spec: &Spec) -> Option<(u8, usize)> {
    let names = resolve(alloc, spec).ok()?;
    match check(alloc, spec, &names) {
        Ok(()) => Some((0, 0)),
        Err(refusal) => told(refusal),
    }
}

// The definitions of types and of the rules on them, by texts: each rule kept and broken in each place that it names.
#[test]
fn rules_on_types(rt: HostRuntime) -> Result<(), Fail> {
    for text in &TEXTS {
        assert!(rt;
            found(rt.alloc(), text.as_bytes(), judged) == Some(wanted(text.as_bytes())),
            "{text}"
        );
    }
    Ok(())
}
