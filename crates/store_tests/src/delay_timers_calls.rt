//! Timers of two systems, `/1` and `/2`.

ghost use Rattle.std.specs.Prelude.{◌≡◌, ◌≢◌, IfOk};

use delay_timers::Timers;
use estelle_tree::{Path, Wanted};
use std::alloc::{AllocError, Global};
use std::test::Fail;

fn path(alloc: Global, numbers: &[u64]) -> Result<Path, AllocError> {
    Ok(Path::of(Vec::from_slice(alloc, numbers)?))
}

fn wanted(
    alloc: Global,
    numbers: &[u64],
    trans: u32,
    low: u32,
    high: Option<u32>,
) -> Result<Wanted, AllocError>
    ensures { IfOk result (λ w. w.trans ≡ trans) }
{
    Ok(Wanted {
        path: path(alloc, numbers)?,
        trans,
        low,
        high,
    })
}

/// What is asked of one transition: whether it has a timer, may fire and must be counted.
fn answers(timers: &Timers, path: &Path, trans: u32, now: u64) -> (bool, bool, bool) {
    (
        timers.has(path, trans),
        timers.may(path, trans, now),
        timers.must(path, trans, now),
    )
}

fn renew_none(
    timers: &mut Timers,
    alloc: Global,
    system: &Path,
    now: u64,
) -> Result<(), AllocError> {
    timers.renew(alloc, system, now, &[])
}

fn renew_one(
    timers: &mut Timers,
    alloc: Global,
    system: &Path,
    now: u64,
    enabled: Wanted,
) -> Result<(), AllocError> {
    timers.renew(alloc, system, now, &[enabled])
}

fn renew_two(
    timers: &mut Timers,
    alloc: Global,
    system: &Path,
    now: u64,
    first: Wanted,
    second: Wanted,
) -> Result<(), AllocError>
    requires { first.trans ≢ second.trans }
{
    timers.renew(alloc, system, now, &[first, second])
}

/// At the moment 5, `/1/4` gets a timer for delay(0, *) and `/1` one for delay(3, 7).
fn begun(alloc: Global) -> Result<Timers, AllocError> {
    let mut timers = Timers::none(alloc);
    let first = wanted(alloc, &[1, 4], 2, 0, None)?;
    let second = wanted(alloc, &[1], 1, 3, Some(7))?;
    renew_two(&mut timers, alloc, &path(alloc, &[1])?, 5, first, second)?;
    Ok(timers)
}

#[test]
fn what_timers_allow(rt: HostRuntime) -> Result<(), Fail> {
    let alloc = rt.alloc();
    let timers = begun(alloc)?;
    let one = path(alloc, &[1])?;
    let below = path(alloc, &[1, 4])?;
    for (at, trans, now, wanted) in [
        (&one, 1, 7, (true, false, false)),
        (&one, 1, 8, (true, true, false)),
        (&one, 1, 11, (true, true, false)),
        (&one, 1, 12, (true, true, true)),
        (&below, 2, 4, (true, false, false)),
        (&below, 2, u64::MAX, (true, true, false)),
        (&one, 2, u64::MAX, (false, false, false)),
        (&below, 1, u64::MAX, (false, false, false)),
    ] {
        assert_eq!(rt; answers(&timers, at, trans, now), wanted);
    }
    Ok(())
}

/// A renewal of `/2`, one of `/1` in which one timer runs on and one is not wanted any more, a drop, and a
/// renewal in which nothing is wanted: the least moment before and after each.
fn moments(alloc: Global) -> Result<[Option<u64>; 5], AllocError> {
    let one = path(alloc, &[1])?;
    let two = path(alloc, &[2])?;
    let mut timers = begun(alloc)?;
    let at_first = timers.next_due();
    renew_one(
        &mut timers,
        alloc,
        &two,
        9,
        wanted(alloc, &[2], 1, 10, Some(10))?,
    )?;
    let with_two = timers.next_due();
    renew_one(
        &mut timers,
        alloc,
        &one,
        20,
        wanted(alloc, &[1], 1, 30, Some(70))?,
    )?;
    let renewed = timers.next_due();
    timers.drop_one(&one, 1);
    let dropped = timers.next_due();
    renew_none(&mut timers, alloc, &two, 21)?;
    Ok([at_first, with_two, renewed, dropped, timers.next_due()])
}

#[test]
fn least_moments(rt: HostRuntime) -> Result<(), Fail> {
    let wanted = [Some(5), Some(5), Some(8), Some(19), None];
    assert_eq!(rt; moments(rt.alloc())?, wanted);
    Ok(())
}

#[test]
fn no_moment_is_later_than_the_last(rt: HostRuntime) -> Result<(), Fail> {
    let alloc = rt.alloc();
    let one = path(alloc, &[1])?;
    let mut timers = Timers::none(alloc);
    renew_one(
        &mut timers,
        alloc,
        &one,
        u64::MAX - 1,
        wanted(alloc, &[1], 1, 5, Some(5))?,
    )?;
    assert_eq!(rt;
        answers(&timers, &one, 1, u64::MAX - 1),
        (true, false, false)
    );
    assert_eq!(rt; answers(&timers, &one, 1, u64::MAX), (true, true, true));
    assert_eq!(rt; timers.next_due(), Some(u64::MAX));
    Ok(())
}
