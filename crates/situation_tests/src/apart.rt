//! Firings that two writers take, and commit apart: the order in which they come, what an end leaves of them, and where outputs arrive.

ghost use Rattle.std.specs.Prelude.{◌≡◌, true, IfSome, OnSome};
ghost use Rattle.situation.specs.Known.{IsReady};
ghost use Rattle.situation_tests.specs.UnderWay.{IsUnderWay, KeepsOthers, KeepsAll};

use crate::worlds::{CLOCK, is_finished};
use accepted_program::AcceptedProgram;
use body_jobs::jobs_may_be_fired;
use compiled_program::CompiledProgram;
use estelle_model::{Done, End};
use outside::{FirstChooser, VirtualClock};
use situation::{Advanced, Committed, Limits, World};
use spec_accept::Checked;
use std::alloc::{AllocError, Global};
use std::process::Abort;
use test_texts::{WORKED, accepted};

type Watched<'a> = World<'a, VirtualClock, FirstChooser>;

/// The text, how many firings it may have, whether the second ticket is committed first, what becomes of the two, how often it fires, and
/// its trace.
type Row = (&'static str, u32, bool, [Committed; 2], u64, &'static str);

const ROWS: [Row; 4] = [
    (
        "two_cells",
        10_000,
        false,
        [Committed::Fired, Committed::Fired],
        2,
        "estelle trace 1\nstart\nselect / now 0 takes /1:1 /2:1\nfire /1 1\nfire /2 1\nselect / now 0 takes -\nend deadlock\n",
    ),
    (
        "two_cells",
        10_000,
        true,
        [Committed::Fired, Committed::Fired],
        2,
        "estelle trace 1\nstart\nselect / now 0 takes /1:1 /2:1\nfire /2 1\nfire /1 1\nselect / now 0 takes -\nend deadlock\n",
    ),
    (
        "two_cells",
        1,
        false,
        [Committed::Fired, Committed::Late(End::Turns)],
        1,
        "estelle trace 1\nstart\nselect / now 0 takes /1:1 /2:1\nfire /1 1\nend turns\n",
    ),
    // the output goes where its point was attached while it was computed
    (
        "reroute",
        10_000,
        false,
        [Committed::Fired, Committed::Fired],
        3,
        "estelle trace 1\nstart\nselect / now 0 takes /1:1 /2:1\nfire /1 1\nfire /2 1\nout /2.o m\nselect / now 0 takes /1/1:1\nfire /1/1 1\nselect / now 0 takes -\nend deadlock\n",
    ),
];

/// Takes a firing where one is next that nobody has taken, and computes it.
fn computed(alloc: Global, world: &mut Watched) -> Option<Done>
    requires { IsReady world.old }
    ensures its { IfSome result (IsUnderWay world.old.writer world.new) }
    ensures others { OnSome result (KeepsOthers world.old.writer world.old world.new) }
{
    match world.take_job(alloc) {
        Ok(job) => {
            jobs_may_be_fired();
            world.code().fire(alloc, job).ok()
        }
        Err(_) => None,
    }
}

/// Takes a firing by a writer, where one is next that nobody has taken, and computes it.
fn taken(alloc: Global, world: &mut Watched, by: u32) -> Option<Done>
    ensures its { IfSome result (IsUnderWay by world.new) }
    ensures others { OnSome result (KeepsOthers by world.old world.new) }
{
    world.write_as(by);
    match world.advance(alloc) {
        Ok(Advanced::Ready) => computed(alloc, world),
        _ => None,
    }
}

/// Commits what was computed by the writer who took it.
fn put(alloc: Global, world: &mut Watched, by: u32, done: Done) -> Option<Committed>
    requires { IsUnderWay by world.old done }
    ensures others { KeepsOthers by world.old world.new }
{
    world.write_as(by);
    match world.reserve(alloc, &done) {
        Ok(()) => Some(world.commit(alloc, done)),
        Err(_) => None,
    }
}

/// Whether the firing with this ticket is under way, and nothing else is next.
fn is_flying(alloc: Global, world: &mut Watched, ticket: u64) -> bool
    ensures { result ≡ true → KeepsAll world.old world.new }
{
    match world.advance(alloc) {
        Ok(Advanced::Flying(first)) => first == ticket,
        _ => false,
    }
}

/// Whether two firings that were computed are committed so, in this order.
fn are_put(
    alloc: Global,
    world: &mut Watched,
    first: (u32, Done),
    second: (u32, Done),
    wanted: &[Committed; 2],
) -> bool
    requires differ { first.0 ≡ second.0 → ⊥ }
    requires first { IsUnderWay first.0 world.old first.1 }
    requires second { IsUnderWay second.0 world.old second.1 }
{
    let one = put(alloc, world, first.0, first.1);
    let two = put(alloc, world, second.0, second.1);
    one == Some(wanted[0]) && two == Some(wanted[1])
}

/// Whether two writers take a firing each, and commit them so.
fn fly(alloc: Global, world: &mut Watched, turned: bool, wanted: &[Committed; 2]) -> bool {
    let Some(one) = taken(alloc, world, 1) else {
        return false;
    };
    let Some(two) = taken(alloc, world, 2) else {
        return false;
    };
    if one.ticket != 1 || two.ticket != 2 || !is_flying(alloc, world, 1) {
        return false;
    }
    if turned {
        are_put(alloc, world, (2, two), (1, one), wanted)
    } else {
        are_put(alloc, world, (1, one), (2, two), wanted)
    }
}

/// Whether the run comes to its end, each firing committed as soon as it is taken.
fn comes_to_end(alloc: Global, world: &mut Watched) -> bool {
    for _ in 0..10 {
        match world.advance(alloc) {
            Ok(Advanced::Ended(_)) => return true,
            Ok(Advanced::Ready) => {
                let Some(done) = taken(alloc, world, 0) else {
                    return false;
                };
                if put(alloc, world, 0, done) != Some(Committed::Fired) {
                    return false;
                }
            }
            Ok(Advanced::Flying(_)) | Err(_) => return false,
            Ok(_) => {}
        }
    }
    false
}

fn is_selected(alloc: Global, world: &mut Watched) -> bool {
    matches!(world.advance(alloc), Ok(Advanced::Selected))
}

fn is_run(alloc: Global, program: &CompiledProgram, row: &Row) -> bool {
    let (_, turns, turned, wanted, fires, trace) = row;
    let limits = Limits {
        turns: *turns,
        budget: 100,
    };
    match World::begin(alloc, program, limits, CLOCK, FirstChooser) {
        Ok(mut world) => {
            is_selected(alloc, &mut world)
                && fly(alloc, &mut world, *turned, wanted)
                && comes_to_end(alloc, &mut world)
                && is_finished(alloc, world, *fires, trace)
        }
        Err(_) => false,
    }
}

fn is_run_by(alloc: Global, checked: &Checked, row: &Row) -> Result<bool, AllocError> {
    let program = AcceptedProgram::new(alloc, checked)?;
    let compiled = CompiledProgram::new(alloc, checked, &program)?;
    Ok(is_run(alloc, &compiled, row))
}

fn is_run_of(alloc: Global, text: &str, row: &Row) -> bool {
    match accepted(alloc, text.as_bytes()) {
        Some(checked) => is_run_by(alloc, &checked, row) == Ok(true),
        None => false,
    }
}

fn all_run(rt: &impl Abort, alloc: Global, name: &str, text: &str) {
    for row in &ROWS {
        if row.0 == name {
            assert!(rt; is_run_of(alloc, text, row), "{name}, {} turns", row.1);
        }
    }
}

// In which order firings come that are committed apart, and what becomes of one that comes behind an end.
#[test]
fn firings_apart(rt: HostRuntime) {
    for worked in &WORKED {
        all_run(&rt, rt.alloc(), worked.name, worked.text);
    }
}
