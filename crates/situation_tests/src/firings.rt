//! The units that firings and guards have, and runs by another chooser.

ghost use Rattle.std.specs.Prelude.{ℕ, ◌-◌};

use estelle_model::{End, Event, Run};
use estelle_tree::Sequence;
use outside::{Chooser, FirstChooser, VirtualClock};
use pascal_values::Fault;
use situation::{Limits, execute};
use std::alloc::Global;
use std::test::Fail;
use test_texts::{WORKED, accepted, counter_with};
use trace_text::write;

/// A function that is true and takes so many units and one more.
const SPIN: &str = "function spin(k: integer): boolean;
var i: integer;
begin for i := 1 to k do; spin := true end;";

/// Where each firing and each guard has 5 units: what is declared, the guard and the block, and how often it fires
/// before the run ends so.
const BUDGETS: [(&str, &str, &str, usize, End); 11] = [
    (
        "var i: integer;",
        "n < 3",
        "for i := 1 to 5 do n := 3",
        1,
        End::Dead,
    ),
    (
        "var i: integer;",
        "n < 3",
        "for i := 1 to 6 do n := 3",
        0,
        End::Faulted(Fault::StepLimit),
    ),
    ("", "n < 3", "while n < 5 do n := n + 1", 1, End::Dead),
    (
        "",
        "n < 3",
        "while n < 6 do n := n + 1",
        0,
        End::Faulted(Fault::StepLimit),
    ),
    ("", "n < 3", "repeat n := n + 1 until n = 5", 1, End::Dead),
    (
        "",
        "n < 3",
        "repeat n := n + 1 until n = 6",
        0,
        End::Faulted(Fault::StepLimit),
    ),
    (
        "procedure p; begin n := n + 1 end;",
        "n < 3",
        "p; p; p; p; p",
        1,
        End::Dead,
    ),
    (
        "procedure p; begin n := n + 1 end;",
        "n < 3",
        "p; p; p; p; p; p",
        0,
        End::Faulted(Fault::StepLimit),
    ),
    // a guard has units of its own
    (
        SPIN,
        "(n < 3) and spin(4)",
        "n := 3; if spin(4) then",
        1,
        End::Dead,
    ),
    (
        SPIN,
        "(n < 3) and spin(5)",
        "n := 3",
        0,
        End::Faulted(Fault::StepLimit),
    ),
    // and so has each firing
    (
        "var i: integer;",
        "n < 3",
        "n := n + 1; for i := 1 to 5 do",
        3,
        End::Dead,
    ),
];

/// The chooser that picks the last candidate each time.
#[derive(Clone, Copy)]
pub(crate) struct LastChooser;

impl Chooser for LastChooser {
    ghost draw = { λ chooser n. (n - 1, chooser) };

    fn pick(&mut self, n: u64) -> u64 {
        n - 1
    }
}

/// The run of a text by a chooser, where each firing and each guard has 5 units.
fn run_of<H: Chooser + Drop>(alloc: Global, text: &[u8], chooser: H) -> Option<(Run, End)> {
    let checked = accepted(alloc, text)?;
    let limits = Limits {
        turns: 10_000,
        budget: 5,
    };
    let clock = VirtualClock { moment: 0 };
    let (ran, _) = execute(alloc, &checked, limits, clock, chooser);
    ran.ok()
}

fn firings(events: &[Event]) -> usize {
    events
        .iter()
        .filter(|event| matches!(event, Event::Fire { .. }))
        .count()
}

// Which turns and calls take a unit, to the last one; and what has units of its own.
#[test]
fn budgets(rt: HostRuntime) -> Result<(), Fail> {
    for (declared, guard, block, fires, end) in &BUDGETS {
        let text = counter_with(rt.alloc(), declared, guard, block)?;
        let answer = run_of(rt.alloc(), text.as_bytes(), FirstChooser);
        assert!(rt; answer.is_some(), "{guard}: {block}");
        if let Some((run, found)) = answer {
            assert_eq!(rt; firings(run.events.items()), *fires, "{guard}: {block}");
            assert_eq!(rt; found, *end, "{guard}: {block}");
        }
    }
    Ok(())
}

/// Whether this is the trace of a run that ends so.
pub(crate) fn is_trace(alloc: Global, run: &Run, end: End, trace: &str) -> bool {
    match write(alloc, run, end) {
        Ok(text) => text.items() == trace.as_bytes(),
        Err(_) => false,
    }
}

/// The two children are selected together, and the second one fires first.
const SECOND_GOES_FIRST: &str = "estelle trace 1
start
select / now 0 takes /1:1 /2:1
fire /2 1
fire /1 1
select / now 0 takes -
end deadlock
";

// Of two pending firings the chooser picks the last one.
#[test]
fn last_candidates(rt: HostRuntime) -> Result<(), Fail> {
    let worked = &WORKED[1];
    assert_eq!(rt; worked.name, "two_cells");
    let answer = run_of(rt.alloc(), worked.text.as_bytes(), LastChooser);
    assert!(rt;
        matches!(&answer, Some((run, end)) if is_trace(rt.alloc(), run, *end, SECOND_GOES_FIRST))
    );
    Ok(())
}
