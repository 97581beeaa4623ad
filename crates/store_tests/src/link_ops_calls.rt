//! Attachments from `/1` down to `/1/1/1`, and a connection of `/1` and `/2`.

ghost use Rattle.std.specs.Prelude.{◌≡◌, ◌||◌, nat_eq, IfOk};

use estelle_tree::{IpAddr, Link, LinkKind, Path};
use link_ops::{LinkAbsent, LinkTaken, LinkTest, Links};
use std::alloc::{AllocError, Global};
use std::process::Abort;
use std::test::Fail;

fn point(alloc: Global, path: &[u64], ip: u32) -> Result<IpAddr, AllocError>
    ensures { IfOk result (λ a. a.path ≡ path.now) }
{
    Ok(IpAddr {
        path: Path::of(Vec::from_slice(alloc, path)?),
        ip,
    })
}

/// Attaches a point of an instance to one of its child with this number.
#[tactic(auto, using(crate::proofs::Callers::goes_to_child))]
fn attach(
    alloc: Global,
    links: &mut Links,
    upper: IpAddr,
    number: u64,
    ip: u32,
) -> Result<Result<(), LinkTaken>, AllocError> {
    let lower = IpAddr {
        path: upper.path.child(alloc, number)?,
        ip,
    };
    links.reserve(1)?;
    Ok(links.attach(upper, lower))
}

/// Connects two points that have different numbers.
fn connect(links: &mut Links, a: IpAddr, b: IpAddr) -> Result<Result<(), LinkTaken>, Fail> {
    if a.ip == b.ip {
        return Err(Fail::new("one number"));
    }
    links.reserve(1)?;
    Ok(links.connect(a, b))
}

fn linked(alloc: Global) -> Result<Links, Fail> {
    let mut links = Links::none(alloc);
    let top = attach(alloc, &mut links, point(alloc, &[1], 1)?, 1, 2)?;
    let middle = attach(alloc, &mut links, point(alloc, &[1, 1], 2)?, 1, 3)?;
    let over = connect(&mut links, point(alloc, &[2], 4)?, point(alloc, &[1], 1)?)?;
    if top.is_err() || middle.is_err() || over.is_err() {
        return Err(Fail::new("taken"));
    }
    Ok(links)
}

/// The number of a point, which tells those of these tests apart.
fn number(ip: Option<&IpAddr>) -> Option<u32> {
    match ip {
        Some(ip) => Some(ip.ip),
        None => None,
    }
}

fn joins(link: Option<&Link>, first: u32, second: u32) -> bool {
    match link {
        Some(link) => link.first.ip == first && link.second.ip == second,
        None => false,
    }
}

/// The links with an end of this number.
#[derive(Clone, Copy)]
struct EndsAt {
    number: u32,
}

impl LinkTest for EndsAt {
    ghost passes = { λ test link. nat_eq link.first.ip test.number || nat_eq link.second.ip test.number };

    fn passes(&self, _kind: LinkKind, first: &IpAddr, second: &IpAddr) -> bool {
        first.ip == self.number || second.ip == self.number
    }
}

fn are_copied(rt: &impl Abort, alloc: Global, links: &Links) -> Result<(), Fail> {
    let copies = links.copies_of(alloc, &EndsAt { number: 1 })?;
    assert_eq!(rt; copies.len(), 2);
    assert!(rt; joins(copies.get(0), 1, 2));
    assert!(rt; joins(copies.get(1), 4, 1));
    Ok(())
}

fn ways(
    rt: &impl Abort,
    alloc: Global,
    links: &mut Links,
    sender: &IpAddr,
    middle: &IpAddr,
) -> Result<(), Fail> {
    assert_eq!(rt; number(links.peer(sender)), Some(1));
    assert_eq!(rt; number(links.above(middle)), Some(1));
    assert_eq!(rt; number(links.below(middle)), Some(3));
    assert_eq!(rt; links.last_below(&point(alloc, &[1], 1)?).ip, 3);
    assert_eq!(rt; number(links.route(sender)), Some(3));
    // Up from the last child, and over to the sender.
    assert_eq!(rt; number(links.route(&point(alloc, &[1, 1, 1], 3)?)), Some(4));
    assert_eq!(rt; links.detach(middle), Ok(()));
    assert_eq!(rt; number(links.route(sender)), Some(2));
    links.forget(&Path::of(Vec::from_slice(alloc, &[1, 1])?));
    assert_eq!(rt; number(links.route(sender)), Some(1));
    assert_eq!(rt; links.disconnect(sender), Ok(()));
    assert_eq!(rt; number(links.route(sender)), None);
    Ok(())
}

#[test]
fn ways_of_outputs(rt: HostRuntime) -> Result<(), Fail> {
    let alloc = rt.alloc();
    let mut links = linked(alloc)?;
    let sender = point(alloc, &[2], 4)?;
    let middle = point(alloc, &[1, 1], 2)?;
    are_copied(&rt, alloc, &links)?;
    ways(&rt, alloc, &mut links, &sender, &middle)
}

/// Whether a connection is refused.
fn is_taken(alloc: Global, links: &mut Links, path: &[u64], ip: u32) -> Result<bool, Fail> {
    let from = point(alloc, path, ip)?;
    let to = point(alloc, &[3], 5)?;
    Ok(connect(links, from, to)? == Err(LinkTaken))
}

/// Whether an attachment of a point of `/1` is refused.
fn is_bound(alloc: Global, links: &mut Links, upper: u32, lower: u32) -> Result<bool, Fail> {
    let upper = point(alloc, &[1], upper)?;
    Ok(attach(alloc, links, upper, 1, lower)? == Err(LinkTaken))
}

fn refusals(rt: &impl Abort, alloc: Global, links: &mut Links, other: &IpAddr) -> Result<(), Fail> {
    // The first one is in a connection, or a lower end.
    assert!(rt; is_taken(alloc, links, &[2], 4)?);
    assert!(rt; is_taken(alloc, links, &[1, 1], 2)?);
    // The upper one is an upper end, and the lower one a lower end.
    assert!(rt; is_bound(alloc, links, 1, 6)?);
    assert!(rt; is_bound(alloc, links, 7, 2)?);
    assert_eq!(rt; links.disconnect(other), Err(LinkAbsent));
    // It is a lower end alone.
    assert_eq!(rt;
        links.detach(&point(alloc, &[1, 1, 1], 3)?),
        Err(LinkAbsent)
    );
    assert_eq!(rt; number(links.route(&point(alloc, &[2], 4)?)), Some(3));
    Ok(())
}

#[test]
fn links_that_are_taken_or_absent(rt: HostRuntime) -> Result<(), Fail> {
    let alloc = rt.alloc();
    let mut links = linked(alloc)?;
    let other = point(alloc, &[3], 5)?;
    refusals(&rt, alloc, &mut links, &other)
}
