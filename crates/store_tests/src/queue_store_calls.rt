//! Queues of `/1`, of `/1/1` and of `/2`.

use estelle_tree::{IpAddr, Path};
use queue_store::Queues;
use std::alloc::{AllocError, Global};
use std::process::Abort;
use std::test::Fail;

fn ip(alloc: Global, path: &[u64], number: u32) -> Result<IpAddr, AllocError> {
    Ok(IpAddr {
        path: Path::of(Vec::from_slice(alloc, path)?),
        ip: number,
    })
}

fn declare(queues: &mut Queues<u32>, point: IpAddr, common: bool) -> Result<(), Fail> {
    queues.reserve(0, 1)?;
    if queues.declares(&point) {
        return Err(Fail::new("declared before"));
    }
    queues.declare(point, common);
    Ok(())
}

fn push(queues: &mut Queues<u32>, point: &IpAddr, item: u32) -> Result<(), Fail> {
    queues.reserve(1, 0)?;
    if !queues.declares(point) {
        return Err(Fail::new("not declared"));
    }
    queues.push(point, item);
    Ok(())
}

fn take(queues: &mut Queues<u32>, point: &IpAddr) -> Result<Option<u32>, Fail> {
    if !queues.declares(point) {
        return Err(Fail::new("not declared"));
    }
    Ok(queues.take(point))
}

/// The number of the point at which the first item waits, and the item.
fn head(queues: &Queues<u32>, point: &IpAddr) -> Result<Option<(u32, u32)>, Fail> {
    if !queues.declares(point) {
        return Err(Fail::new("not declared"));
    }
    match queues.head(point) {
        Some((at, item)) => Ok(Some((at.ip, *item))),
        None => Ok(None),
    }
}

/// Queues with these points: a path, a number, and whether the queue is a common one.
fn declared(alloc: Global, points: &[(&[u64], u32, bool)]) -> Result<Queues<u32>, Fail> {
    let mut queues = Queues::none(alloc);
    for (path, number, common) in points {
        declare(&mut queues, ip(alloc, path, *number)?, *common)?;
    }
    Ok(queues)
}

fn one_order(
    rt: &impl Abort,
    queues: &mut Queues<u32>,
    p: &IpAddr,
    q: &IpAddr,
) -> Result<(), Fail> {
    push(queues, p, 10)?;
    push(queues, q, 11)?;
    push(queues, p, 12)?;
    assert_eq!(rt; queues.waiting(p), 2);
    assert_eq!(rt; queues.waiting(q), 1);
    assert_eq!(rt; queues.total(), 3);
    assert_eq!(rt; head(queues, q)?, Some((0, 10)));
    assert_eq!(rt; take(queues, q)?, Some(10));
    assert_eq!(rt; head(queues, p)?, Some((1, 11)));
    assert_eq!(rt; take(queues, p)?, Some(11));
    assert_eq!(rt; take(queues, p)?, Some(12));
    assert_eq!(rt; take(queues, p)?, None);
    Ok(())
}

#[test]
fn a_common_queue_has_one_order(rt: HostRuntime) -> Result<(), Fail> {
    let alloc = rt.alloc();
    let mut queues = declared(alloc, &[(&[1], 0, true), (&[1], 1, true)])?;
    let p = ip(alloc, &[1], 0)?;
    let q = ip(alloc, &[1], 1)?;
    one_order(&rt, &mut queues, &p, &q)
}

/// What waits at one point goes to another one, which has another number.
fn move_all(queues: &mut Queues<u32>, from: &IpAddr, to: &IpAddr) -> Result<(), Fail> {
    if from.ip == to.ip {
        return Err(Fail::new("one number"));
    }
    if !queues.declares(from) {
        return Err(Fail::new("not declared"));
    }
    if !queues.declares(to) {
        return Err(Fail::new("not declared"));
    }
    queues.move_all(from, to);
    Ok(())
}

#[tactic(auto, using(crate::proofs::Callers::below_within))]
fn drop_below(
    alloc: Global,
    queues: &mut Queues<u32>,
    path: &[u64],
) -> Result<Vec<u32>, AllocError> {
    let mut dropped = Vec::with_capacity(alloc, queues.total())?;
    queues.drop_below(&Path::of(Vec::from_slice(alloc, path)?), &mut dropped);
    Ok(dropped)
}

fn moves_in_order(
    rt: &impl Abort,
    queues: &mut Queues<u32>,
    p: &IpAddr,
    q: &IpAddr,
) -> Result<(), Fail> {
    push(queues, p, 20)?;
    push(queues, q, 10)?;
    push(queues, p, 21)?;
    move_all(queues, p, q)?;
    assert_eq!(rt; queues.waiting(p), 0);
    assert_eq!(rt; queues.waiting(q), 3);
    assert_eq!(rt; head(queues, p)?, None);
    assert_eq!(rt; head(queues, q)?, Some((1, 10)));
    for item in [10, 20, 21] {
        assert_eq!(rt; take(queues, q)?, Some(item));
    }
    Ok(())
}

#[test]
fn what_moves_keeps_its_order(rt: HostRuntime) -> Result<(), Fail> {
    let alloc = rt.alloc();
    let mut queues = declared(alloc, &[(&[1], 0, false), (&[1, 1], 1, false)])?;
    let p = ip(alloc, &[1], 0)?;
    let q = ip(alloc, &[1, 1], 1)?;
    moves_in_order(&rt, &mut queues, &p, &q)
}

fn moves_behind(
    rt: &impl Abort,
    queues: &mut Queues<u32>,
    p: &IpAddr,
    q: &IpAddr,
) -> Result<(), Fail> {
    push(queues, p, 10)?;
    push(queues, q, 11)?;
    push(queues, p, 12)?;
    move_all(queues, p, q)?;
    assert_eq!(rt; queues.waiting(q), 3);
    for item in [11, 10, 12] {
        assert_eq!(rt; take(queues, p)?, Some(item));
    }
    Ok(())
}

// To another point of the same queue, it goes behind what waits there.
#[test]
fn what_moves_in_a_common_queue(rt: HostRuntime) -> Result<(), Fail> {
    let alloc = rt.alloc();
    let mut queues = declared(alloc, &[(&[2], 0, true), (&[2], 1, true)])?;
    let p = ip(alloc, &[2], 0)?;
    let q = ip(alloc, &[2], 1)?;
    moves_behind(&rt, &mut queues, &p, &q)
}

fn drops(
    rt: &impl Abort,
    alloc: Global,
    queues: &mut Queues<u32>,
    p: &IpAddr,
    q: &IpAddr,
    r: &IpAddr,
) -> Result<(), Fail> {
    push(queues, r, 30)?;
    push(queues, q, 20)?;
    push(queues, p, 10)?;
    push(queues, r, 31)?;
    assert_eq!(rt;
        drop_below(alloc, queues, &[1])?.as_slice(),
        [10, 30, 31].as_slice()
    );
    assert_eq!(rt; queues.total(), 1);
    assert!(rt; !queues.declares(p));
    assert!(rt; !queues.declares(r));
    assert_eq!(rt; take(queues, q)?, Some(20));
    Ok(())
}

// The queues stand in the order in which they were declared.
#[test]
fn what_is_dropped_comes_queue_by_queue(rt: HostRuntime) -> Result<(), Fail> {
    let alloc = rt.alloc();
    let mut queues = declared(
        alloc,
        &[(&[1], 0, false), (&[2], 0, false), (&[1, 1], 0, false)],
    )?;
    let p = ip(alloc, &[1], 0)?;
    let q = ip(alloc, &[2], 0)?;
    let r = ip(alloc, &[1, 1], 0)?;
    drops(&rt, alloc, &mut queues, &p, &q, &r)
}
