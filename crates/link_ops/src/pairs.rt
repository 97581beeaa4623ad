//! Links as pairs of numbers of points.

ghost use Rattle.std.specs.Prelude.{◌≡◌, ℕ, ◌≤◌, ◌≢◌, ◌*◌, IfOk, OnOk, vec_capacity, ◌+◌, ◌-◌, ◌<◌, ◌++◌, ◌∷◌, [], length, Some, None, false, slice_set, IsSome, filter, not};
ghost use Rattle.std.specs.Option.{option_copied};
ghost use Rattle.slab.specs.Slab.{get, slab_len};
ghost use Rattle.estelle_tree.specs.Links.{touches};
ghost use Rattle.estelle_tree.specs.Paths.{is_inside};
ghost use Rattle.link_ops.specs.Points as numbers;
ghost use Rattle.link_ops.specs.Pairs as spec;

use crate::asked::LinkTest;
use crate::points;
use crate::points::{Points, Role, find, insert, ip_of, link_of, set_link};
use estelle_tree::{IpAddr, Link, LinkKind, Path};
use std::alloc::{AllocError, Global};

/// The numbers of the points of a link.
#[derive(Clone, Copy)]
pub struct Pairing {
    pub kind: LinkKind,
    pub first: usize,
    pub second: usize,
}

fn first_role(kind: LinkKind) -> Role
    ensures { result ≡ spec.first_role kind }
{
    match kind {
        LinkKind::Connection => Role::Joined,
        LinkKind::Attachment => Role::Upper,
    }
}

fn second_role(kind: LinkKind) -> Role
    ensures { result ≡ spec.second_role kind }
{
    match kind {
        LinkKind::Connection => Role::Joined,
        LinkKind::Attachment => Role::Lower,
    }
}

fn pair_at(pairs: &[Option<Pairing>], i: usize) -> Option<Pairing>
    ensures { result ≡ spec.slot pairs.now i }
{
    match pairs.get(i) {
        None => None,
        Some(pair) => *pair,
    }
}

/// The number at the other end of the link in which a point has a role.
fn step(points: &Points, pairs: &[Option<Pairing>], role: Role, number: usize) -> Option<usize>
    ensures { result ≡ spec.next_of points.now pairs.now role number }
{
    let pair = pair_at(pairs, link_of(points, number, role)?)?;
    if pair.first == number {
        Some(pair.second)
    } else {
        Some(pair.first)
    }
}

/// The last number of the way on from a point, in at most so many steps.
fn walk(
    points: &Points,
    pairs: &[Option<Pairing>],
    role: Role,
    steps: usize,
    number: usize,
) -> usize
    ensures { result ≡ spec.walked (spec.next_of points.now pairs.now role) steps number }
{
    let mut at = number;
    for taken in 0..steps {
        match step(points, pairs, role, at) {
            None => return at,
            Some(next) => at = next,
        }
    }
    at
}

/// The other end of the link in which a point has a role.
pub fn far<'a>(
    points: &'a Points,
    pairs: &[Option<Pairing>],
    role: Role,
    ip: &IpAddr,
) -> Option<&'a IpAddr>
    ensures { option_copied result ≡ spec.far_point points.now pairs.now role ip.now }
{
    let number = find(points, ip)?;
    let other = step(points, pairs, role, number)?;
    ip_of(points, other)
}

/// The last point of the way on from a point.
pub fn last<'a>(
    points: &'a Points,
    pairs: &[Option<Pairing>],
    role: Role,
    steps: usize,
    ip: &'a IpAddr,
) -> &'a IpAddr
    ensures { result.now ≡ spec.last_point points.now pairs.now role steps ip.now }
{
    match find(points, ip) {
        None => ip,
        Some(number) => match ip_of(points, walk(points, pairs, role, steps, number)) {
            None => ip,
            Some(last) => last,
        },
    }
}

/// Where the way up, over the connection and down leads.
pub fn route<'a>(
    points: &'a Points,
    pairs: &[Option<Pairing>],
    steps: usize,
    from: &IpAddr,
) -> Option<&'a IpAddr>
    ensures { option_copied result ≡ spec.route_point points.now pairs.now steps from.now }
{
    let number = find(points, from)?;
    let top = walk(points, pairs, Role::Lower, steps, number);
    let peer = step(points, pairs, Role::Joined, top)?;
    ip_of(points, walk(points, pairs, Role::Upper, steps, peer))
}

fn copy_point(alloc: Global, points: &Points, number: usize) -> Result<IpAddr, AllocError>
    ensures { IfOk result (λ copy. copy ≡ spec.ip_at points.now number) }
{
    match ip_of(points, number) {
        None => Ok(IpAddr {
            path: Path::root(alloc),
            ip: 0,
        }),
        Some(at) => Ok(IpAddr {
            path: at.path.copy(alloc)?,
            ip: at.ip,
        }),
    }
}

fn copy_link(alloc: Global, points: &Points, pair: Pairing) -> Result<Link, AllocError>
    ensures { IfOk result (λ copy. copy ≡ spec.link_of points.now pair) }
{
    Ok(Link {
        kind: pair.kind,
        first: copy_point(alloc, points, pair.first)?,
        second: copy_point(alloc, points, pair.second)?,
    })
}

fn passes<T: LinkTest>(points: &Points, pair: Pairing, test: &T) -> bool
    requires first { IsSome (numbers.point points.now pair.first) }
    requires second { IsSome (numbers.point points.now pair.second) }
    ensures { result ≡ T.passes test.now (spec.link_of points.now pair) }
{
    match (ip_of(points, pair.first), ip_of(points, pair.second)) {
        (Some(first), Some(second)) => test.passes(pair.kind, first, second),
        _ => false,
    }
}

/// Adds a copy of a link, if there is one and it passes.
fn push_copy<T: LinkTest>(
    alloc: Global,
    points: &Points,
    pair: &Option<Pairing>,
    test: &T,
    links: &mut Vec<Link>,
) -> Result<(), AllocError>
    requires { (x : Pairing) → pair.now ≡ Some x → IsSome (numbers.point points.now x.first) × IsSome (numbers.point points.now x.second) }
    ensures { OnOk result (links.new.items ≡ links.old.items ++ filter (T.passes test.now) (spec.seen points.now (pair.now ∷ []))) }
{
    if let Some(pair) = pair {
        if passes(points, *pair, test) {
            links.push(copy_link(alloc, points, *pair)?)?;
        }
    }
    Ok(())
}

/// Copies of the links that pass, in order.
pub fn copies_of<T: LinkTest>(
    alloc: Global,
    points: &Points,
    pairs: &[Option<Pairing>],
    test: &T,
) -> Result<Vec<Link>, AllocError>
    requires { spec.Tied points.now pairs.now }
    ensures { IfOk result (λ links. links.items ≡ filter (T.passes test.now) (spec.seen points.now pairs.now)) }
{
    let mut links = Vec::new(alloc);
    for pair in pairs {
        push_copy(alloc, points, pair, test, &mut links)?;
    }
    Ok(links)
}

/// The number of a point, which is put there where it is not there yet.
fn number_for(points: &mut Points, ip: IpAddr) -> usize
    requires sound { numbers.Sound points.old }
    requires room { 0 < points.old.room }
    ensures sound { numbers.Sound points.new }
    ensures room { points.old.room ≤ points.new.room + 1 }
    ensures there { numbers.point points.new result ≡ Some ip }
    ensures points { (k : ℕ) (a : IpAddr) → numbers.point points.old k ≡ Some a → numbers.point points.new k ≡ Some a }
    ensures links { (k : ℕ) (r : Role) → numbers.link_at points.new k r ≡ numbers.link_at points.old k r }
{
    match find(points, &ip) {
        Some(number) => number,
        None => insert(points, ip),
    }
}

/// Writes the number of a link, or that there is none, at both ends.
fn set_both(points: &mut Points, pair: Pairing, link: Option<usize>)
    requires sound { numbers.Sound points.old }
    requires first { IsSome (numbers.point points.old pair.first) }
    requires second { IsSome (numbers.point points.old pair.second) }
    requires apart { pair.first ≢ pair.second }
    ensures sound { numbers.Sound points.new }
    ensures room { points.new.room ≡ points.old.room }
    ensures points { (k : ℕ) → numbers.point points.new k ≡ numbers.point points.old k }
    ensures written { (k : ℕ) (r : Role) → spec.IsEnd pair k r → numbers.link_at points.new k r ≡ link }
    ensures others { (k : ℕ) (r : Role) → (spec.IsEnd pair k r → ⊥) → numbers.link_at points.new k r ≡ numbers.link_at points.old k r }
{
    set_link(points, pair.first, first_role(pair.kind), link);
    set_link(points, pair.second, second_role(pair.kind), link);
}

/// One more link, behind the others.
fn push(points: &mut Points, pairs: &mut Vec<Option<Pairing>>, pair: Pairing)
    requires tied { spec.Tied points.old pairs.old.items }
    requires first { IsSome (numbers.point points.old pair.first) }
    requires second { IsSome (numbers.point points.old pair.second) }
    requires may { spec.MayTie points.old pair.kind pair.first pair.second }
    requires memory { length pairs.old.items < vec_capacity pairs.old }
    ensures tied { spec.Tied points.new pairs.new.items }
    ensures room { points.new.room ≡ points.old.room }
    ensures len { length pairs.new.items ≡ length pairs.old.items + 1 }
    ensures capacity { vec_capacity pairs.new ≡ vec_capacity pairs.old }
    ensures seen { spec.seen points.new pairs.new.items ≡ spec.seen points.old pairs.old.items ++ spec.link_of points.old pair ∷ [] }
{
    set_both(points, pair, Some(pairs.len()));
    pairs.push_reserved(Some(pair));
}

/// One link less; its place stays empty.
pub fn clear(points: &mut Points, pairs: &mut Vec<Option<Pairing>>, at: usize, pair: Pairing)
    requires tied { spec.Tied points.old pairs.old.items }
    requires here { spec.slot pairs.old.items at ≡ Some pair }
    ensures tied { spec.Tied points.new pairs.new.items }
    ensures room { points.new.room ≡ points.old.room }
    ensures pairs { pairs.new.items ≡ slice_set pairs.old.items at None }
    ensures seen { spec.seen points.new pairs.new.items ≡ spec.seen points.old (slice_set pairs.old.items at None) }
    ensures capacity { vec_capacity pairs.new ≡ vec_capacity pairs.old }
    ensures points { (k : ℕ) → numbers.point points.new k ≡ numbers.point points.old k }
{
    set_both(points, pair, None);
    pairs[at] = None;
}

/// Puts a link of two interaction points behind the others. It takes no memory.
pub fn link(
    points: &mut Points,
    pairs: &mut Vec<Option<Pairing>>,
    kind: LinkKind,
    first: IpAddr,
    second: IpAddr,
)
    requires tied { spec.Tied points.old pairs.old.items }
    requires room { 2 ≤ points.old.room }
    requires memory { length pairs.old.items < vec_capacity pairs.old }
    requires may { spec.MayLink (spec.seen points.old pairs.old.items) kind first second }
    ensures tied { spec.Tied points.new pairs.new.items }
    ensures room { points.old.room ≤ points.new.room + 2 }
    ensures len { length pairs.new.items ≡ length pairs.old.items + 1 }
    ensures capacity { vec_capacity pairs.new ≡ vec_capacity pairs.old }
    ensures seen { spec.seen points.new pairs.new.items ≡ spec.seen points.old pairs.old.items ++ (record { kind = kind; first = first; second = second }) ∷ [] }
{
    let first = number_for(points, first);
    let second = number_for(points, second);
    push(
        points,
        pairs,
        Pairing {
            kind,
            first,
            second,
        },
    );
}

/// Moves a link to an earlier place that is empty.
fn shift(
    points: &mut Points,
    pairs: &mut Vec<Option<Pairing>>,
    to: usize,
    from: usize,
    pair: Pairing,
)
    requires tied { spec.Tied points.old pairs.old.items }
    requires here { spec.slot pairs.old.items from ≡ Some pair }
    requires gap { spec.slot pairs.old.items to ≡ None }
    requires before { to < from }
    ensures tied { spec.Tied points.new pairs.new.items }
    ensures room { points.new.room ≡ points.old.room }
    ensures pairs { pairs.new.items ≡ slice_set (slice_set pairs.old.items to (Some pair)) from None }
    ensures capacity { vec_capacity pairs.new ≡ vec_capacity pairs.old }
    ensures points { (k : ℕ) → numbers.point points.new k ≡ numbers.point points.old k }
{
    set_both(points, pair, Some(to));
    pairs[to] = Some(pair);
    pairs[from] = None;
}

/// Moves the link at a place to the first of the places before it that are empty.
fn place(
    points: &mut Points,
    pairs: &mut Vec<Option<Pairing>>,
    end: usize,
    at: usize,
    pair: Pairing,
)
    requires tied { spec.Tied points.old pairs.old.items }
    requires here { spec.slot pairs.old.items at ≡ Some pair }
    requires gaps { (k : ℕ) → end ≤ k → k < at → spec.slot pairs.old.items k ≡ None }
    requires before { end ≤ at }
    ensures tied { spec.Tied points.new pairs.new.items }
    ensures room { points.new.room ≡ points.old.room }
    ensures len { length pairs.new.items ≡ length pairs.old.items }
    ensures capacity { vec_capacity pairs.new ≡ vec_capacity pairs.old }
    ensures seen { spec.seen points.new pairs.new.items ≡ spec.seen points.old pairs.old.items }
    ensures gaps { (k : ℕ) → end + 1 ≤ k → k < at + 1 → spec.slot pairs.new.items k ≡ None }
{
    if end == at {
        return;
    }
    shift(points, pairs, end, at, pair);
}

/// Moves the link at a place, if there is one, to the first of the places before it that are empty, and says
/// where those then begin.
fn pack_at(points: &mut Points, pairs: &mut Vec<Option<Pairing>>, end: usize, at: usize) -> usize
    requires tied { spec.Tied points.old pairs.old.items }
    requires gaps { (k : ℕ) → end ≤ k → k < at → spec.slot pairs.old.items k ≡ None }
    requires before { end ≤ at }
    requires within { at < length pairs.old.items }
    ensures tied { spec.Tied points.new pairs.new.items }
    ensures room { points.new.room ≡ points.old.room }
    ensures len { length pairs.new.items ≡ length pairs.old.items }
    ensures capacity { vec_capacity pairs.new ≡ vec_capacity pairs.old }
    ensures seen { spec.seen points.new pairs.new.items ≡ spec.seen points.old pairs.old.items }
    ensures gaps { (k : ℕ) → result ≤ k → k < at + 1 → spec.slot pairs.new.items k ≡ None }
    ensures within { result ≤ at + 1 }
{
    match pair_at(pairs, at) {
        None => end,
        Some(pair) => {
            place(points, pairs, end, at, pair);
            end + 1
        }
    }
}

/// Moves the links together, in their order.
fn pack(points: &mut Points, pairs: &mut Vec<Option<Pairing>>)
    requires { spec.Tied points.old pairs.old.items }
    ensures tied { spec.Tied points.new pairs.new.items }
    ensures room { points.new.room ≡ points.old.room }
    ensures len { length pairs.new.items ≤ length pairs.old.items }
    ensures capacity { vec_capacity pairs.new ≡ vec_capacity pairs.old }
    ensures seen { spec.seen points.new pairs.new.items ≡ spec.seen points.old pairs.old.items }
{
    let mut end = 0;
    for at in 0..pairs.len() {
        end = pack_at(points, pairs, end, at);
    }
    pairs.truncate(end);
}

/// Makes room for so many more pairs. Where it has to, it moves the links together, and then takes memory for
/// as many again.
fn reserve_pairs(
    points: &mut Points,
    pairs: &mut Vec<Option<Pairing>>,
    additional: usize,
) -> Result<(), AllocError>
    requires { spec.Tied points.old pairs.old.items }
    ensures tied { spec.Tied points.new pairs.new.items }
    ensures seen { spec.seen points.new pairs.new.items ≡ spec.seen points.old pairs.old.items }
    ensures memory { OnOk result (length pairs.new.items + additional ≤ vec_capacity pairs.new) }
    ensures len { length pairs.new.items ≤ length pairs.old.items }
    ensures room { points.new.room ≡ points.old.room }
    ensures memory_kept { vec_capacity pairs.old ≤ vec_capacity pairs.new }
{
    if additional <= pairs.capacity() - pairs.len() {
        return Ok(());
    }
    pack(points, pairs);
    pairs.reserve(additional.max(pairs.len()))
}

/// Makes room for so many more links.
pub fn reserve(
    points: &mut Points,
    pairs: &mut Vec<Option<Pairing>>,
    additional: usize,
) -> Result<(), AllocError>
    requires { spec.Tied points.old pairs.old.items }
    ensures tied { spec.Tied points.new pairs.new.items }
    ensures seen { spec.seen points.new pairs.new.items ≡ spec.seen points.old pairs.old.items }
    ensures room { OnOk result (2 * additional ≤ points.new.room) }
    ensures memory { OnOk result (length pairs.new.items + additional ≤ vec_capacity pairs.new) }
    ensures len { length pairs.new.items ≤ length pairs.old.items }
    ensures room_kept { points.old.room ≤ points.new.room }
    ensures memory_kept { vec_capacity pairs.old ≤ vec_capacity pairs.new }
{
    let ends = additional.checked_mul(2).ok_or(AllocError)?;
    reserve_pairs(points, pairs, additional)?;
    points::reserve(points, ends)
}

/// The link in which a point has a role, by its place.
pub fn entry(
    points: &Points,
    pairs: &[Option<Pairing>],
    role: Role,
    ip: &IpAddr,
) -> Option<(usize, Pairing)>
    ensures { result ≡ spec.entry points.now pairs.now role ip.now }
{
    let number = find(points, ip)?;
    let at = link_of(points, number, role)?;
    let pair = pair_at(pairs, at)?;
    Some((at, pair))
}

fn lies_in(points: &Points, path: &Path, number: usize) -> bool
    requires { IsSome (numbers.point points.now number) }
    ensures { result ≡ is_inside path.now (spec.ip_at points.now number).path }
{
    match ip_of(points, number) {
        None => false,
        Some(ip) => path.is_at_or_above(&ip.path),
    }
}

fn touches(points: &Points, pair: Pairing, path: &Path) -> bool
    requires first { IsSome (numbers.point points.now pair.first) }
    requires second { IsSome (numbers.point points.now pair.second) }
    ensures { result ≡ touches path.now (spec.link_of points.now pair) }
{
    lies_in(points, path, pair.first) || lies_in(points, path, pair.second)
}

/// Clears the link at a place where it has an end at the instance or below it, and says how many that were.
fn forget_at(points: &mut Points, pairs: &mut Vec<Option<Pairing>>, path: &Path, at: usize) -> usize
    requires { spec.Tied points.old pairs.old.items }
    ensures tied { spec.Tied points.new pairs.new.items }
    ensures room { points.new.room ≡ points.old.room }
    ensures len { length pairs.new.items ≡ length pairs.old.items }
    ensures capacity { vec_capacity pairs.new ≡ vec_capacity pairs.old }
    ensures points { (k : ℕ) → numbers.point points.new k ≡ numbers.point points.old k }
    ensures kept { filter (λ l. not (touches path.now l)) (spec.seen points.new pairs.new.items) ≡ filter (λ l. not (touches path.now l)) (spec.seen points.old pairs.old.items) }
    ensures judged { (pair : Pairing) → spec.slot pairs.new.items at ≡ Some pair → touches path.now (spec.link_of points.new pair) ≡ false }
    ensures others { (j : ℕ) → j ≢ at → spec.slot pairs.new.items j ≡ spec.slot pairs.old.items j }
    ensures removed { length (spec.seen points.new pairs.new.items) + result ≡ length (spec.seen points.old pairs.old.items) }
    ensures few { result ≤ 1 }
{
    match pair_at(pairs, at) {
        None => 0,
        Some(pair) => {
            if touches(points, pair, path) {
                clear(points, pairs, at, pair);
                1
            } else {
                0
            }
        }
    }
}

/// Clears each link with an end at the instance or below it, and says how many those were.
pub fn forget(points: &mut Points, pairs: &mut Vec<Option<Pairing>>, path: &Path) -> usize
    requires { spec.Tied points.old pairs.old.items }
    ensures tied { spec.Tied points.new pairs.new.items }
    ensures room { points.new.room ≡ points.old.room }
    ensures len { length pairs.new.items ≡ length pairs.old.items }
    ensures capacity { vec_capacity pairs.new ≡ vec_capacity pairs.old }
    ensures seen { spec.seen points.new pairs.new.items ≡ filter (λ l. not (touches path.now l)) (spec.seen points.old pairs.old.items) }
    ensures removed { length (spec.seen points.new pairs.new.items) + result ≡ length (spec.seen points.old pairs.old.items) }
{
    let mut removed = 0;
    for at in 0..pairs.len() {
        removed += forget_at(points, pairs, path, at);
    }
    removed
}
