//! Which breach is reported of several.

use crate::marks::{told, wanted};
use std::alloc::Global;
use std::test::Fail;
use test_texts::judged;

/// Texts that break rules of several kinds, or none.
const MIXED: [&str; 16] = [
    "specification s; var n: integer; initialize begin n := n + 1 end; end.",
    "specification s; var n: integer; initialize begin n := true; {02}k := 1 end; end.",
    "specification s; var n: integer; procedure p; begin end; initialize begin p(1); n := {40}true end; end.",
    "specification s; type t = 3..1; var n: integer; {01}n: integer; end.",
    "specification s; var n: integer; initialize begin n := true end; {10}trans begin end; end.",
    "specification s; channel c(r, q); by r: m; ip p: c(q); initialize begin output p.m end; {10}trans begin end; end.",
    "specification s systemactivity; channel c(r, q); by {20}x: m; module h; ip p: c(r); end; var n: integer; initialize begin n := true end; end.",
    "specification s systemactivity; channel c(r, q); by x: m; module h process; ip p: c(r); end; modvar {14}y: h; end.",
    "specification s systemprocess; channel c(r, q); by r: m; ip p: c(r); var n: integer; initialize begin n := true; detach {25}p end; end.",
    "specification s systemprocess; channel c(r, q); by r: m; ip p: c(r); var n: integer; initialize begin n := {40}true; output p.m end; end.",
    "specification s systemprocess; var n: integer; {01}n: integer; trans priority -1 begin end; end.",
    "specification s; {10}trans begin end; trans priority -1 begin end; end.",
    "specification s systemprocess; channel c(r, q); by r: m; ip p: c(r); initialize begin detach {25}p end; trans priority -1 begin end; end.",
    "{33}specification s systemprocess; var n: integer; trans any i: 1..4097 do begin n := true end; end.",
    "specification s systemprocess; var n: integer; initialize begin n := true end; trans priority {31}-1 begin end; end.",
    "specification s systemprocess; trans any i: {44}3..1 do begin end; end.",
];

fn told_of(alloc: Global, text: &str) -> Option<(u8, usize)> {
    match judged(alloc, text.as_bytes()) {
        Some(Ok(_)) => Some((0, 0)),
        Some(Err(refusal)) => told(refusal),
        None => None,
    }
}

// Of rules of several crates the least is reported, wherever it is broken.
#[test]
fn least_of_all_rules(rt: HostRuntime) -> Result<(), Fail> {
    for text in &MIXED {
        let found = told_of(rt.alloc(), text);
        assert!(rt; found == Some(wanted(text.as_bytes())), "{text}");
    }
    Ok(())
}
