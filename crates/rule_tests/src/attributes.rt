//! Attributes of modules: which texts keep the rules on them, and where others break which.

use crate::marks::{found, told, wanted};
use attribute_rules::check;
use estelle_tree::Spec;
use scope_names::resolve;
use std::alloc::Global;
use std::test::Fail;

/// Texts. A comment that is a number alone stands right before the node at which that rule is reported.
const TEXTS: [&str; 47] = [
    // inside an unattributed specification
    "specification s; module m; end; modvar x: m; end.",
    "specification s; module m systemprocess; end; modvar x: m; end.",
    "specification s; module m systemactivity; end; modvar x: m; end.",
    "specification s; module m process; end; modvar {12}x: m; end.",
    "specification s; module m activity; end; modvar {12}x: m; end.",
    // inside a system process
    "specification s systemprocess; module m; end; modvar {13}x: m; end.",
    "specification s systemprocess; module m systemprocess; end; modvar {11}x: m; end.",
    "specification s systemprocess; module m systemactivity; end; modvar {11}x: m; end.",
    "specification s systemprocess; module m process; end; modvar x: m; end.",
    "specification s systemprocess; module m activity; end; modvar x: m; end.",
    // inside a system activity
    "specification s systemactivity; module m; end; modvar {13}x: m; end.",
    "specification s systemactivity; module m systemprocess; end; modvar {11}x: m; end.",
    "specification s systemactivity; module m systemactivity; end; modvar {11}x: m; end.",
    "specification s systemactivity; module m process; end; modvar {14}x: m; end.",
    "specification s systemactivity; module m activity; end; modvar x: m; end.",
    // inside a body of an unattributed module
    "specification s; module p; end; body b for p; module m; end; modvar x: m; end; end.",
    "specification s; module p; end; body b for p; module m systemprocess; end; modvar x: m; end; end.",
    "specification s; module p; end; body b for p; module m systemactivity; end; modvar x: m; end; end.",
    "specification s; module p; end; body b for p; module m process; end; modvar {12}x: m; end; end.",
    "specification s; module p; end; body b for p; module m activity; end; modvar {12}x: m; end; end.",
    // inside a body of a system
    "specification s; module p systemprocess; end; body b for p; module m; end; modvar {13}x: m; end; end.",
    "specification s; module p systemprocess; end; body b for p; module m process; end; modvar x: m; end; end.",
    "specification s; module p systemactivity; end; body b for p; module m process; end; modvar {14}x: m; end; end.",
    "specification s; module p systemactivity; end; body b for p; module m systemactivity; end; modvar {11}x: m; end; end.",
    // inside a body of a process
    "specification s systemprocess; module p process; end; body b for p; module m; end; modvar {13}x: m; end; end.",
    "specification s systemprocess; module p process; end; body b for p; module m systemprocess; end; modvar {11}x: m; end; end.",
    "specification s systemprocess; module p process; end; body b for p; module m systemactivity; end; modvar {11}x: m; end; end.",
    "specification s systemprocess; module p process; end; body b for p; module m process; end; modvar x: m; end; end.",
    "specification s systemprocess; module p process; end; body b for p; module m activity; end; modvar x: m; end; end.",
    // inside a body of an activity
    "specification s systemprocess; module p activity; end; body b for p; module m; end; modvar {13}x: m; end; end.",
    "specification s systemprocess; module p activity; end; body b for p; module m systemprocess; end; modvar {11}x: m; end; end.",
    "specification s systemprocess; module p activity; end; body b for p; module m systemactivity; end; modvar {11}x: m; end; end.",
    "specification s systemprocess; module p activity; end; body b for p; module m process; end; modvar {14}x: m; end; end.",
    "specification s systemprocess; module p activity; end; body b for p; module m activity; end; modvar x: m; end; end.",
    // transitions
    "specification s; {10}trans begin end; end.",
    "specification s; {10}trans begin end; trans begin end; end.",
    "specification s systemactivity; trans begin end; end.",
    "specification s; module p; end; body b for p; {10}trans begin end; end; end.",
    "specification s; module p systemprocess; end; body b for p; trans begin end; end; end.",
    "specification s; module p; end; body b for p; initialize begin end; end; initialize begin end; end.",
    // of one header, and of several variables, the first
    "specification s systemprocess; module m process; end; module n; end; modvar x: m; {13}y, z: n; end.",
    "specification s systemprocess; module m process; end; module n systemprocess; end; modvar x: m; modvar {11}z: n; end.",
    // the least rule, wherever it is broken
    "specification s; module m process; end; modvar x: m; {10}trans begin end; end.",
    "specification s; module p; end; body b for p; {10}trans begin end; end; module m process; end; modvar x: m; end.",
    "specification s systemactivity; module m process; end; module n; end; modvar x: m; {13}y: n; end.",
    "specification s systemactivity; module m process; end; module n; end; modvar {13}y: n; x: m; end.",
    "specification s systemprocess; module n; end; module m systemprocess; end; modvar x: n; {11}y: m; end.",
];

fn judged(alloc: Global, spec: &Spec) -> Option<(u8, usize)> {
    let names = resolve(alloc, spec).ok()?;
    match check(alloc, spec, &names) {
        Ok(()) => Some((0, 0)),
        Err(refusal) => told(refusal),
    }
}

// The definitions of the rules, by texts: each attribute inside each, and which breach is reported of several.
#[test]
fn rules_on_attributes(rt: HostRuntime) -> Result<(), Fail> {
    for text in &TEXTS {
        assert!(rt;
            found(rt.alloc(), text.as_bytes(), judged) == Some(wanted(text.as_bytes())),
            "{text}"
        );
    }
    Ok(())
}

// A process inside a system activity, by its line and column: the third line, and in it the eighth byte.
#[test]
fn process_inside_activity(rt: HostRuntime) -> Result<(), Fail> {
    let lines = [
        "specification w systemactivity;\n",
        "module m process; end;\n",
        "modvar x: m;\n",
        "end.\n",
    ];
    let text = lines.concat(rt.alloc())?;
    let place = lines[0].len() + lines[1].len() + 7;
    assert!(rt; found(rt.alloc(), text.as_bytes(), judged) == Some((14, place)));
    Ok(())
}
