//! What a system of a root and two children selects, with what wants a timer, and whether anything is enabled in it.

ghost use Rattle.std.specs.Prelude.{◌≡◌, ◌+◌, ◌∷◌, [], ℕ, ◌-◌, IfOk, IfSome, true};
ghost use Rattle.module_tree.specs.Trees.{births_at};

use crate::firings::LastChooser;
use body_walker::{ByTrees, Program};
use delay_timers::Timers;
use effect_log::Shared;
use estelle_model::Part;
use estelle_tree::{Items, Path, SequenceMut, Wanted};
use link_ops::Links;
use module_tree::Tree;
use outside::{Chooser, FirstChooser};
use pascal_values::Values;
use queue_store::Queues;
use situation_offers::{Chosen, SelectFault, View, any_enabled, select};
use spec_accept::Checked;
use std::alloc::{AllocError, Global};
use std::process::Abort;
use std::test::Fail;
use test_texts::accepted;

/// Bodies 1 to 5 for its children: one that does nothing, one of several priorities, one that waits, and two whose guards
/// fault.
const PROCESSES: &str = "specification hand systemprocess;
module cell process; end;
body calm for cell;
trans provided false begin end;
end;
body busy for cell;
trans provided true priority 2 begin end;
provided true priority 1 begin end;
provided true priority 1 begin end;
provided true begin end;
end;
body slow for cell;
trans provided true delay(3, 5) begin end;
provided false delay(1) begin end;
provided true delay(0) begin end;
provided true delay(2, *) begin end;
end;
body late for cell;
trans provided false begin end;
provided (1 mod 0) = 1 begin end;
provided (1 div 0) = 1 begin end;
end;
body soon for cell;
trans provided (1 div 0) = 1 begin end;
end;
modvar x, y: cell;
end.
";

/// A system that takes what one of its children selects.
const ACTIVITIES: &str = "specification hand systemactivity;
module cell activity; end;
body calm for cell;
trans provided false begin end;
end;
body busy for cell;
trans provided true priority 2 begin end;
provided true priority 1 begin end;
provided true priority 1 begin end;
provided true begin end;
end;
modvar x, y: cell;
end.
";

/// The bodies of the two children; what is selected at the moment 10 where the first candidate is picked each time, and where
/// the last one is; and whether anything is enabled, where no guard faults.
type Row = (u32, u32, &'static str, &'static str, Option<bool>);

const OF_PROCESSES: [Row; 7] = [
    (1, 1, "takes wants", "takes wants", Some(false)),
    (
        2,
        2,
        "takes /1:2 /2:2 wants",
        "takes /1:3 /2:3 wants",
        Some(true),
    ),
    // a delay of 0 is over at once, the others begin
    (
        3,
        2,
        "takes /1:3 /2:2 wants /1:1(3,5) /1:3(0,0) /1:4(2,*)",
        "takes /1:3 /2:3 wants /1:1(3,5) /1:3(0,0) /1:4(2,*)",
        Some(true),
    ),
    (
        3,
        3,
        "takes /1:3 /2:3 wants /1:1(3,5) /1:3(0,0) /1:4(2,*) /2:1(3,5) /2:3(0,0) /2:4(2,*)",
        "takes /1:3 /2:3 wants /1:1(3,5) /1:3(0,0) /1:4(2,*) /2:1(3,5) /2:3(0,0) /2:4(2,*)",
        Some(true),
    ),
    // what has a delay is enabled, also in the second instance alone
    (
        1,
        3,
        "takes /2:3 wants /2:1(3,5) /2:3(0,0) /2:4(2,*)",
        "takes /2:3 wants /2:1(3,5) /2:3(0,0) /2:4(2,*)",
        Some(true),
    ),
    // the instance goes before the number
    (
        4,
        5,
        "fault /1:2 ModNotPositive",
        "fault /1:2 ModNotPositive",
        None,
    ),
    (
        2,
        5,
        "fault /2:1 DivideByZero",
        "fault /2:1 DivideByZero",
        None,
    ),
];

const OF_ACTIVITIES: [Row; 3] = [
    (1, 1, "takes wants", "takes wants", Some(false)),
    (1, 2, "takes /2:2 wants", "takes /2:3 wants", Some(true)),
    (2, 2, "takes /1:2 wants", "takes /2:3 wants", Some(true)),
];

/// The timer of `/1:1` runs since the moment 7, so that its least delay is over and its greatest is not.
const RUNNING: Row = (
    3,
    1,
    "takes /1:1 wants /1:1(0,0) /1:3(0,0) /1:4(2,*)",
    "takes /1:3 wants /1:1(0,0) /1:3(0,0) /1:4(2,*)",
    Some(true),
);

// ---- situations

fn path(alloc: Global, number: u64) -> Result<Path, AllocError>
    ensures { IfOk result (λ p. p ≡ number ∷ []) }
{
    Ok(Path::of(Vec::from_slice(alloc, &[number])?))
}

/// A child of a body.
fn child(alloc: Global, number: u64, body: u32) -> Result<Part, AllocError> {
    Ok(Part {
        path: path(alloc, number)?,
        body,
        state: None,
        vars: Values::none(alloc),
        modvars: Items::new(alloc),
        births: 0,
    })
}

/// A root whose module variables hold two children.
fn root(alloc: Global) -> Result<Part, AllocError> {
    let mut held = Items::new(alloc);
    held.push(Some(path(alloc, 1)?))?;
    held.push(Some(path(alloc, 2)?))?;
    Ok(Part {
        path: Path::root(alloc),
        body: 0,
        state: None,
        vars: Values::none(alloc),
        modvars: held,
        births: 2,
    })
}

fn lone(alloc: Global) -> Result<Tree<Part>, AllocError> {
    match Tree::single(alloc, root(alloc)?) {
        Ok(tree) => Ok(tree),
        Err(_) => Err(AllocError),
    }
}

/// Whether the root's next child has this number, or the root is not there.
fn is_next(alloc: Global, tree: &Tree<Part>, number: u64) -> bool
    ensures { result ≡ true → IfSome (births_at tree.now []) (λ births. number ≡ births + 1) }
{
    match tree.births(&Path::root(alloc)) {
        None => true,
        Some(births) => births.checked_add(1) == Some(number),
    }
}

/// Places the root's next child.
fn place(alloc: Global, tree: &mut Tree<Part>, number: u64, body: u32) -> Result<(), AllocError> {
    let part = child(alloc, number, body)?;
    let path = path(alloc, number)?;
    tree.reserve(1)?;
    if is_next(alloc, tree, number) && tree.place(path, part).is_ok() {
        return Ok(());
    }
    Err(AllocError)
}

/// A root with two children of these bodies.
fn shared(alloc: Global, first: u32, second: u32) -> Result<Shared, AllocError> {
    let mut tree = lone(alloc)?;
    place(alloc, &mut tree, 1, first)?;
    place(alloc, &mut tree, 2, second)?;
    Ok(Shared {
        tree,
        queues: Queues::none(alloc),
        links: Links::none(alloc),
        outputs: 0,
    })
}

/// A timer of the transition 1 of `/1`, for delay(3, 5), which runs since the moment 7.
fn running(alloc: Global) -> Result<Timers, AllocError> {
    let mut timers = Timers::none(alloc);
    let wanted = Wanted {
        path: path(alloc, 1)?,
        trans: 1,
        low: 3,
        high: Some(5),
    };
    timers.renew(alloc, &Path::root(alloc), 7, &[wanted])?;
    Ok(timers)
}

// ---- answers

fn write_pair(out: &mut String, path: &Path, trans: u32) -> Result<(), AllocError> {
    write!(out, " ")?;
    for number in path.items() {
        write!(out, "/{number}")?;
    }
    write!(out, ":{trans}")
}

fn write_wanted(out: &mut String, wanted: &Wanted) -> Result<(), AllocError> {
    write_pair(out, &wanted.path, wanted.trans)?;
    match wanted.high {
        Some(high) => write!(out, "({},{high})", wanted.low),
        None => write!(out, "({},*)", wanted.low),
    }
}

fn write_chosen(out: &mut String, chosen: &Chosen) -> Result<(), AllocError> {
    write!(out, "takes")?;
    for take in &chosen.takes {
        write_pair(out, &take.path, take.trans)?;
    }
    write!(out, " wants")?;
    for wanted in &chosen.wanted {
        write_wanted(out, wanted)?;
    }
    Ok(())
}

fn write_refusal(out: &mut String, refusal: &SelectFault) -> Result<(), AllocError> {
    match refusal {
        SelectFault::Guard { path, trans, fault } => {
            write!(out, "fault")?;
            write_pair(out, path, *trans)?;
            write!(out, " {fault:?}")
        }
        SelectFault::Memory => write!(out, "memory"),
    }
}

/// Whether this is what the system selects at the moment 10.
fn selects<H: Chooser + Drop>(
    alloc: Global,
    view: &View<ByTrees>,
    mut chooser: H,
    wanted: &str,
) -> bool
    requires { view.now.guards.now ≡ view.now.program.now }
{
    let mut out = String::new(alloc);
    let written = match select(alloc, view, &Path::root(alloc), 10, &mut chooser) {
        Ok(chosen) => write_chosen(&mut out, &chosen),
        Err(refusal) => write_refusal(&mut out, &refusal),
    };
    written.is_ok() && out.as_str() == wanted
}

fn enables(alloc: Global, view: &View<ByTrees>, wanted: Option<bool>) -> bool
    requires { view.now.guards.now ≡ view.now.program.now }
{
    match wanted {
        None => true,
        Some(any) => any_enabled(alloc, view) == Ok(any),
    }
}

fn is_so(alloc: Global, program: &Program, timers: &Timers, row: &Row) -> bool {
    let (first, second, by_first, by_last, enabled) = row;
    match shared(alloc, *first, *second) {
        Ok(shared) => {
            let guards = ByTrees::of(program);
            let view = View {
                program: &*program,
                guards: &guards,
                shared: &shared,
                timers: &*timers,
                budget: 5,
            };
            selects(alloc, &view, FirstChooser, by_first)
                && selects(alloc, &view, LastChooser, by_last)
                && enables(alloc, &view, *enabled)
        }
        Err(_) => false,
    }
}

fn are_so(
    rt: &impl Abort,
    alloc: Global,
    checked: &Checked,
    timers: &Timers,
    rows: &[Row],
) -> Result<(), AllocError> {
    let program = Program::new(alloc, &checked.spec, &checked.names)?;
    for row in rows {
        assert!(rt; is_so(alloc, &program, timers, row), "{} {}", row.0, row.1);
    }
    Ok(())
}

fn are_so_of(rt: &impl Abort, alloc: Global, text: &str, timers: &Timers, rows: &[Row]) -> bool {
    match accepted(alloc, text.as_bytes()) {
        Some(checked) => are_so(rt, alloc, &checked, timers, rows).is_ok(),
        None => false,
    }
}

// What is selected, by which chooser, and what wants a timer; the first guard that faults; and what is enabled.
#[test]
fn selections(rt: HostRuntime) -> Result<(), Fail> {
    let none = Timers::none(rt.alloc());
    assert!(rt; are_so_of(&rt, rt.alloc(), PROCESSES, &none, &OF_PROCESSES));
    assert!(rt; are_so_of(&rt, rt.alloc(), ACTIVITIES, &none, &OF_ACTIVITIES));
    let timers = running(rt.alloc())?;
    assert!(rt; are_so_of(&rt, rt.alloc(), PROCESSES, &timers, &[RUNNING]));
    Ok(())
}
