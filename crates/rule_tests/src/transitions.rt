//! Clauses and numbers of transitions: which texts keep the rules on them, and where others break which.

use crate::marks::{found, wanted};
use estelle_tree::Spec;
use scope_names::resolve;
use std::alloc::{AllocError, Global};
use std::test::Fail;
use test_texts::WORKED;
use transition_expand::{ExpandError, expand};

/// Texts. A comment of two digits stands right before the node at which that rule is reported.
const TEXTS: [&str; 60] = [
    // kept
    "specification s systemprocess; channel c(a, b); by a: m; ip p: c(b); trans delay(1) begin end; when p.m begin end; trans when p.m begin end; delay(2, 3) begin end; end.",
    "specification s systemprocess; const c = -1; trans priority 0 begin end; priority -c begin end; priority +3 begin end; end.",
    "specification s systemprocess; trans any i: 1..2; j: boolean do priority i begin end; end.",
    "specification s systemprocess; trans any i: -2..0 do priority -i begin end; end.",
    "specification s systemprocess; trans any i: 3..1 do priority -i begin end; end.",
    "specification s systemprocess; trans any i: -1..0 do provided true begin end; trans any i: 0..1 do priority i begin end; end.",
    "specification s systemprocess; trans any c: char; e: (red, green); k: 'a'..'c' do begin end; end.",
    "specification s systemprocess; trans any i: 1..4096 do begin end; end.",
    "specification s systemprocess; trans any i: 0..63; j: 1..64 do begin end; end.",
    "specification s systemprocess; trans any i: 1..4095 do begin end; trans begin end; end.",
    "specification s systemprocess; trans any i: 1..2048 do provided true begin end; provided false begin end; end.",
    "specification s systemprocess; module h; end; body b for h; trans any i: 1..4096 do begin end; end; trans any i: 1..4096 do begin end; end.",
    // where a domain is empty there is no transition, however many values the others have
    "specification s systemprocess; trans any i, j: 1..maxint; k: 3..1 do begin end; end.",
    // 30
    "specification s systemprocess; channel c(a, b); by a: m; ip p: c(b); trans when p.m {30}delay(1) begin end; end.",
    "specification s systemprocess; channel c(a, b); by a: m; ip p: c(b); trans delay(1) {30}when p.m begin end; end.",
    "specification s systemprocess; channel c(a, b); by a: m; ip p: c(b); trans when p.m provided true begin end; {30}delay(2) priority 1 begin end; end.",
    "specification s systemprocess; channel c(a, b); by a: m; ip p: c(b); trans delay(1) provided true begin end; any i: 1..2 do {30}when p.m begin end; end.",
    "specification s systemprocess; channel c(a, b); by a: m; module h; ip p: c(b); end; body x for h; trans when p.m {30}delay(1) begin end; end; trans begin end; end.",
    // 31
    "specification s systemprocess; trans priority {31}-1 begin end; end.",
    "specification s systemprocess; const c = -2; trans priority {31}c begin end; end.",
    "specification s systemprocess; const c = 2; trans priority {31}-c begin end; end.",
    "specification s systemprocess; const c = -2; trans priority {31}+c begin end; end.",
    "specification s systemprocess; trans priority {31}true begin end; end.",
    "specification s systemprocess; trans priority {31}'a' begin end; end.",
    "specification s systemprocess; type e = (red, green); trans priority {31}green begin end; end.",
    "specification s systemprocess; trans any i: -1..1 do priority {31}i begin end; end.",
    "specification s systemprocess; trans any i: 0..1 do priority {31}-i begin end; end.",
    "specification s systemprocess; trans any j: 0..1; i: boolean do priority {31}i begin end; end.",
    "specification s systemprocess; trans any i: (red, green) do priority {31}i begin end; end.",
    "specification s systemprocess; trans any i: boolean do priority {31}-i begin end; end.",
    "specification s systemprocess; trans any i: integer do priority {31}i begin end; end.",
    "specification s systemprocess; trans priority {31}-true begin end; end.",
    "specification s systemprocess; const c = -true; trans priority {31}c begin end; end.",
    "specification s systemprocess; trans any j, i, k: -1..1 do provided true priority {31}i begin end; end.",
    "specification s systemprocess; trans any i: 0..1 do priority i begin end; trans any i: -1..0 do priority {31}i begin end; end.",
    "specification s systemprocess; trans priority 1 begin end; priority {31}-1 begin end; trans priority -2 begin end; end.",
    // 32
    "specification s systemprocess; trans any i: {32}integer do begin end; end.",
    "specification s systemprocess; type t = integer; trans any i: {32}t do begin end; end.",
    "specification s systemprocess; type t = 1..true; trans any i: {32}t do begin end; end.",
    "specification s systemprocess; const c = -true; type t = 1..c; trans any i: {32}t do begin end; end.",
    "specification s systemprocess; trans any i: {32}1..true do priority i begin end; end.",
    "specification s systemprocess; type t = set of 1..2; trans any i: {32}t do begin end; end.",
    "specification s systemprocess; type t = array [1..2] of integer; trans any i: {32}t do begin end; end.",
    "specification s systemprocess; type t = record f: integer end; trans any j: 1..2; i: {32}t do begin end; end.",
    "specification s systemprocess; trans any i: {32}1..true do begin end; end.",
    "specification s systemprocess; const c = -true; trans any i: {32}1..c do begin end; end.",
    "specification s systemprocess; trans any i: 1..2; k: {32}integer; j: integer do begin end; end.",
    // 33
    "{33}specification s systemprocess; trans any i: 1..4097 do begin end; end.",
    "{33}specification s systemprocess; trans any i: 1..maxint do begin end; end.",
    "{33}specification s systemprocess; trans any i: 1..64; j: 1..65 do begin end; end.",
    "{33}specification s systemprocess; trans any i: 1..4096 do begin end; trans begin end; end.",
    "{33}specification s systemprocess; trans any i: 1..2048 do provided true begin end; provided false begin end; trans begin end; end.",
    // products of 2^32, 2^64 and 2^126
    "{33}specification s systemprocess; trans any i, j: 0..65535 do begin end; end.",
    "{33}specification s systemprocess; trans any i, j, k, l: 0..65535 do begin end; end.",
    "{33}specification s systemprocess; trans any i, j: 1..maxint do begin end; end.",
    "specification s systemprocess; module h; end; {33}body b for h; trans any i: 1..4097 do begin end; end; end.",
    "{33}specification s systemprocess; module h; end; body b for h; trans any i: 1..4097 do begin end; end; trans any i: 1..4097 do begin end; end.",
    // the least
    "specification s systemprocess; channel c(a, b); by a: m; ip p: c(b); trans any i: integer do priority -1 begin end; trans any i: 1..maxint do begin end; trans when p.m {30}delay(1) begin end; end.",
    "specification s systemprocess; trans any i: integer do begin end; trans any i: 1..maxint do priority {31}-1 begin end; end.",
    "specification s systemprocess; trans any i: 1..maxint do begin end; trans any i: {32}integer do begin end; end.",
];

/// Worked specifications with one more clause: what stands for what, the rule that is broken then, and the words where its
/// node begins.
const CHANGED: [(&str, &str, &str, u8, &str); 4] = [
    (
        "shared_queue",
        "when q.m",
        "when q.m delay(1)",
        30,
        "delay(1)",
    ),
    (
        "counter",
        "provided",
        "any i: 1..4097 do provided",
        33,
        "specification count",
    ),
    ("counter", "provided", "priority -1 provided", 31, "-1"),
    (
        "delay",
        "delay(3, 5)",
        "any i: integer do delay(3, 5)",
        32,
        "integer",
    ),
];

fn judged(alloc: Global, spec: &Spec) -> Option<(u8, usize)> {
    let names = resolve(alloc, spec).ok()?;
    match expand(alloc, spec, &names) {
        Ok(_) => Some((0, 0)),
        Err(ExpandError::Rule { number, span }) => Some((number, span.start as usize)),
        Err(ExpandError::TooManyVariants { span }) => Some((33, span.start as usize)),
        Err(ExpandError::Memory) => None,
    }
}

// The definitions of the rules, by texts: the later word of `when` and `delay`, what a constant of `priority` is with a sign
// and by a name of `any`, which domains have values, and how many transitions a body has.
#[test]
fn rules_on_transitions(rt: HostRuntime) -> Result<(), Fail> {
    for text in &TEXTS {
        assert!(rt;
            found(rt.alloc(), text.as_bytes(), judged) == Some(wanted(text.as_bytes())),
            "{text}"
        );
    }
    Ok(())
}

fn changed_text(alloc: Global, name: &str, old: &str, new: &str) -> Result<String, AllocError> {
    for worked in &WORKED {
        if worked.name == name {
            return worked.text.replace(alloc, old, new);
        }
    }
    Ok(String::new(alloc))
}

// The rules in specifications that are worked elsewhere: the counter, the shared queue and the delay with one more clause.
#[test]
fn worked_texts_with_one_more_clause(rt: HostRuntime) -> Result<(), Fail> {
    for (name, old, new, rule, words) in CHANGED {
        let text = changed_text(rt.alloc(), name, old, new)?;
        assert!(rt;
            found(rt.alloc(), text.as_bytes(), judged) == text.find(words).map(|at| (rule, at)),
            "{text}"
        );
    }
    Ok(())
}
