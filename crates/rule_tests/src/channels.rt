//! Roles, interactions and links: which texts keep the rules on them, and where others break which.

use crate::marks::{found, told, wanted};
use channel_roles::check;
use estelle_tree::Spec;
use scope_names::resolve;
use std::alloc::Global;
use std::test::Fail;

/// Texts. A comment that is a number alone stands right before the node at which that rule is reported.
const TEXTS: [&str; 66] = [
    // 20
    "specification s; channel c(r, q); by r: m; by q: n; by r, q: k; end.",
    "specification s; channel c(r, q); by {20}x: m; end.",
    "specification s; channel c(r, q); by r, {20}x: m; end.",
    "specification s; channel c(r, q); by r: m; by {20}m: n; end.",
    "specification s; channel c(r, q); by r: m; ip p: c(r); i: c(q); end.",
    "specification s; channel c(r, q); by r: m; ip p: c({20}x); end.",
    "specification s; channel c(r, q); by r: m; ip p: c({20}m); end.",
    "specification s; channel c(r, q); by r: m; ip p, i: c({20}c); end.",
    "specification s; channel c(r, q); by r: m; channel d(t, u); by t: m; ip p: c({20}t); end.",
    "specification s; channel c(r, q); by r: m; module h; ip p: c(q); i: c({20}x); end; end.",
    // 21
    "specification s; channel c(r, q); by r: m; by q: n; by r, q: k; ip p: c(r); initialize begin output p.m; output p.k end; end.",
    "specification s; channel c(r, q); by r: m; by q: n; by r, q: k; ip p: c(q); initialize begin output p.n; output p.k end; end.",
    "specification s; channel c(r, q); by r: m; by q: n; ip p: c(r); initialize begin output {21}p.n end; end.",
    "specification s; channel c(r, q); by r: m; by q: n; ip p: c(q); initialize begin output {21}p.m end; end.",
    "specification s; channel c(r, q); by r: m(i: integer); ip p: c(q); initialize begin output {21}p.m(1) end; end.",
    "specification s; channel c(r, q); by r: m; by q: n; module h; ip p: c(r); end; body b for h; initialize begin output {21}p.n end; end; end.",
    "specification s; channel c(r, q); by r: m; by q: n; ip p: c(r); procedure f; begin if true then output {21}p.n end; end.",
    "specification s; channel c(r, q); by r: m; by q: n; ip p: c(r); trans provided true begin while false do begin output p.m; output {21}p.n end end; end.",
    "specification s; channel c(r, q); by r: m; by q: n; ip p: c(r); trans begin case 1 of 1: output p.m; 2: output {21}p.n end end; end.",
    // two channels with roles and interactions of the same names
    "specification s; channel c(r, q); by r: m; channel d(r, q); by q: m; ip p: c(r); i: d(q); initialize begin output p.m; output i.m end; end.",
    "specification s; channel c(r, q); by r: m; channel d(r, q); by q: m; ip p: c(r); i: d(r); initialize begin output p.m; output {21}i.m end; end.",
    // 22
    "specification s; channel c(r, q); by r: m; by q: n; by r, q: k; ip p: c(r); trans when p.n begin end; when p.k begin end; end.",
    "specification s; channel c(r, q); by r: m; by q: n; ip p: c(r); trans when {22}p.m begin end; end.",
    "specification s; channel c(r, q); by r: m; by q: n; ip p: c(q); trans when {22}p.n begin end; end.",
    "specification s; channel c(r, q); by r: m; by q: n; module h; ip p: c(r); end; body b for h; trans when {22}p.m begin end; end; end.",
    "specification s; channel c(r, q); by r: m(i, j: integer; k: boolean); ip p: c(q); trans when p.m(i, j, k) begin end; when p.m begin end; end.",
    "specification s; channel c(r, q); by r: m(i, j: integer); ip p: c(q); trans when {22}p.m(j, i) begin end; end.",
    "specification s; channel c(r, q); by r: m(i, j: integer); ip p: c(q); trans when {22}p.m(i) begin end; end.",
    "specification s; channel c(r, q); by r: m(i, j: integer); ip p: c(q); trans when {22}p.m(i, j, k) begin end; end.",
    "specification s; channel c(r, q); by r: m(i, j: integer); ip p: c(q); trans when {22}p.m(i, i) begin end; end.",
    "specification s; channel c(r, q); by r: m(i, j: integer); ip p: c(q); trans when {22}p.m(i, k) begin end; end.",
    "specification s; channel c(r, q); by r: m; ip p: c(q); trans when {22}p.m(i) begin end; end.",
    "specification s; channel c(r, q); by r: m; ip p: c(q); state a; initialize to a begin end; trans from a to a provided true when p.m begin end; when {22}p.m(i) begin end; end.",
    // 23
    "specification s; channel c(r, q); by r: m; module h; ip p: c(r); end; modvar x: h; ip i: c(q); initialize begin connect i to x.p end; end.",
    "specification s; channel c(r, q); by r: m; module h; ip p: c(r); i: c(q); end; modvar x, y: h; initialize begin connect x.p to y.i; connect x.i to y.p; connect x.p to x.i end; end.",
    "specification s; channel c(r, q); by r: m; module h; ip p: c(r); end; modvar x: h; ip i: c(r); initialize begin connect {23}i to x.p end; end.",
    "specification s; channel c(r, q); by r: m; module h; ip p: c(r); end; modvar x: h; ip i: c(r); initialize begin connect {23}x.p to i end; end.",
    "specification s; channel c(r, q); by r: m; module h; ip p: c(r); end; modvar x, y: h; initialize begin connect {23}x.p to y.p end; end.",
    "specification s; channel c(r, q); by r: m; channel d(r, q); by r: m; module h; ip p: c(r); end; modvar x: h; ip i: d(q); initialize begin connect {23}i to x.p end; end.",
    "specification s; channel c(r, q); by r: m; channel d(r, q); by r: m; module h; ip p: c(r); end; modvar x: h; ip i: d(r); initialize begin connect {23}x.p to i end; end.",
    // 24
    "specification s; channel c(r, q); by r: m; module h; ip p: c(r); end; modvar x: h; ip i: c(q); initialize begin disconnect i; disconnect x.p; disconnect x end; end.",
    "specification s; channel c(r, q); by r: m; module h; ip p: c(r); end; body b for h; module k; ip z: c(q); end; modvar w: k; initialize begin connect {24}p to w.z end; end; end.",
    "specification s; channel c(r, q); by r: m; module h; ip p: c(r); end; body b for h; module k; ip z: c(q); end; modvar w: k; initialize begin connect {24}w.z to p end; end; end.",
    "specification s; channel c(r, q); by r: m; module h; ip p: c(r); end; body b for h; ip i: c(q); initialize begin connect {24}i to p end; end; end.",
    "specification s; channel c(r, q); by r: m; module h; ip p: c(r); end; body b for h; initialize begin disconnect {24}p end; end; end.",
    "specification s; channel c(r, q); by r: m; ip i: c(r); j: c(q); initialize begin connect {24}i to j end; end.",
    // 25
    "specification s; channel c(r, q); by r: m; module h; ip p: c(r); end; body b for h; module k; ip z: c(r); end; modvar w: k; initialize begin attach p to w.z; detach p end; end; end.",
    "specification s; channel c(r, q); by r: m; module k; ip z: c(r); end; modvar w: k; ip i: c(r); initialize begin attach {25}i to w.z end; end.",
    "specification s; channel c(r, q); by r: m; module k; ip z: c(r); end; modvar w: k; ip i: c(q); initialize begin attach {25}i to w.z end; end.",
    "specification s; channel c(r, q); by r: m; ip i: c(r); initialize begin detach {25}i end; end.",
    "specification s; channel c(r, q); by r: m; module h; ip p: c(r); end; body b for h; module k; ip z: c(q); end; modvar w: k; initialize begin attach {25}p to w.z end; end; end.",
    "specification s; channel c(r, q); by r: m; channel d(r, q); by r: m; module h; ip p: c(r); end; body b for h; module k; ip z: d(r); end; modvar w: k; initialize begin attach {25}p to w.z end; end; end.",
    // several, of which the first is reported
    "specification s; channel c(r, q); by r: m; ip p: c(q); initialize begin output {21}p.m; output p.m end; end.",
    "specification s; channel c(r, q); by r: m; module h; ip p: c(q); end; body b for h; initialize begin output {21}p.m end; end; ip i: c(q); initialize begin output i.m end; end.",
    // the least rule, wherever it is broken
    "specification s; channel c(r, q); by r: m; ip p: c(q); i: c(r); j: c(r); initialize begin connect i to j; output {21}p.m end; end.",
    "specification s; channel c(r, q); by r: m; ip p: c(q); i: c(r); j: c(r); initialize begin output {21}p.m; connect i to j end; end.",
    "specification s; channel c(r, q); by r: m; ip i: c(r); j: c(r); initialize begin connect {23}i to j end; end.",
    "specification s; channel c(r, q); by r: m; ip i: c(r); j: c(q); k: c(r); initialize begin connect i to j; connect {23}i to k end; end.",
    "specification s; channel c(r, q); by r: m; ip i: c(r); j: c(q); k: c(r); initialize begin connect {23}i to k; connect i to j end; end.",
    "specification s; channel c(r, q); by r: m; ip i: c(r); j: c(q); initialize begin detach i; connect {24}i to j end; end.",
    "specification s; channel c(r, q); by r: m; ip i: c(r); j: c(q); initialize begin connect {24}i to j; detach i end; end.",
    "specification s; channel c(r, q); by r: m; ip i: c(r); initialize begin output i.m end; trans when {22}i.m begin detach i end; end.",
    "specification s; channel c(r, q); by r: m; ip i: c(r); initialize begin detach i end; trans when {22}i.m begin end; end.",
    "specification s; channel c(r, q); by r: m; ip i: c(q); trans when i.m begin output {21}i.m end; when i.m(k) begin end; end.",
    "specification s; channel c(r, q); by r: m; ip i: c({20}m); initialize begin output i.m end; end.",
    "specification s; channel c(r, q); by r: m; module k; ip p: c(q); end; body b for k; initialize begin output p.m end; end; module h; ip z: c({20}x); end; end.",
];

fn judged(alloc: Global, spec: &Spec) -> Option<(u8, usize)> {
    let names = resolve(alloc, spec).ok()?;
    match check(alloc, spec, &names) {
        Ok(()) => Some((0, 0)),
        Err(refusal) => told(refusal),
    }
}

// The definitions of the rules, by texts: each rule kept and broken in each place that it names.
#[test]
fn rules_on_channels(rt: HostRuntime) -> Result<(), Fail> {
    for text in &TEXTS {
        assert!(rt;
            found(rt.alloc(), text.as_bytes(), judged) == Some(wanted(text.as_bytes())),
            "{text}"
        );
    }
    Ok(())
}
