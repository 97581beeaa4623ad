//! Linked interaction points by number.

ghost use Rattle.std.specs.Prelude.{◌≡◌, ℕ, ◌≤◌, vec_capacity, replicate, ◌+◌, ◌<◌, ◌^◌, length, Some, None, OnOk, [], IsSome};
ghost use Rattle.std.specs.Option.{option_copied};
ghost use Rattle.estelle_tree.specs.Links.{same_ip};
ghost use Rattle.slab.specs.Slab.{get, slab_len, HasRoomFor};
ghost use Rattle.link_ops.specs.Points as spec;

use estelle_tree::IpAddr;
use slab::Slab;
use std::alloc::{AllocError, Global};

/// The numbers of the links in which a point stands: of its connection, of the attachment of which it is the
/// upper end, and of the one of which it is the lower end.
#[derive(Clone, Copy)]
pub struct Ends {
    pub joined: Option<usize>,
    pub upper: Option<usize>,
    pub lower: Option<usize>,
}

#[derive(Clone, Copy)]
pub enum Role {
    Joined,
    Upper,
    Lower,
}

#[derive(Drop)]
pub struct Node {
    pub ip: IpAddr,
    pub ends: Ends,
    /// The next one of the chain.
    pub next: Option<usize>,
}

/// Points in chains by their hashes. No chain is longer than `steps`, and there is room for `room` more points.
#[derive(Drop)]
pub struct Points {
    pub nodes: Slab<Node>,
    pub heads: Vec<Option<usize>>,
    pub steps: usize,
    pub room: usize,
}

const NO_LINKS: Ends = Ends {
    joined: None,
    upper: None,
    lower: None,
};

/// No points.
pub fn none(alloc: Global) -> Points
    ensures sound { spec.Sound result }
    ensures nodes { result.nodes.slots ≡ [] }
    ensures room { result.room ≡ 0 }
{
    Points {
        nodes: Slab::new(alloc),
        heads: Vec::new(alloc),
        steps: 0,
        room: 0,
    }
}

pub fn same_ip(a: &IpAddr, b: &IpAddr) -> bool
    ensures { result ≡ same_ip a.now b.now }
{
    a.path.items() == b.path.items() && a.ip == b.ip
}

#[tactic(auto, unfolding(crate::specs::Points::hash_of))]
fn hash_of(ip: &IpAddr) -> u64
    ensures { result ≡ spec.hash_of ip.now }
{
    let numbers = ip.path.items();
    numbers.iter().fold(u64::from(ip.ip), |hash, number| {
        hash.wrapping_mul(0x9E37_79B9_7F4A_7C15)
            .wrapping_add(*number)
    })
}

fn bucket(ip: &IpAddr, buckets: usize) -> usize
    requires { 0 < buckets }
    ensures value { result ≡ spec.bucket buckets ip.now }
    ensures within { result < buckets }
{
    (hash_of(ip) % (buckets as u64)) as usize
}

/// Where the chain of a point begins.
fn head(points: &Points, ip: &IpAddr) -> Option<usize>
    ensures { result ≡ spec.head points.now.heads.items ip.now }
{
    if points.heads.is_empty() {
        return None;
    }
    points.heads[bucket(ip, points.heads.len())]
}

/// The number of a point.
pub fn find(points: &Points, ip: &IpAddr) -> Option<usize>
    ensures { result ≡ spec.number_of points.now ip.now }
{
    let mut at = head(points, ip);
    for step in 0..points.steps {
        let k = at?;
        let node = points.nodes.get(k)?;
        if same_ip(ip, &node.ip) {
            return Some(k);
        }
        at = node.next;
    }
    None
}

/// Puts a point that is not there yet. It takes no memory.
pub fn insert(points: &mut Points, ip: IpAddr) -> usize
    requires sound { spec.Sound points.old }
    requires room { 0 < points.old.room }
    requires absent { spec.number_of points.old ip ≡ None }
    ensures sound { spec.Sound points.new }
    ensures room { points.new.room + 1 ≡ points.old.room }
    ensures vacant { get points.old.nodes result ≡ None }
    ensures points { (k : ℕ) → spec.point points.new k ≡ spec.with_point result ip k (spec.point points.old k) }
    ensures links { (k : ℕ) (r : Role) → spec.link_at points.new k r ≡ spec.link_at points.old k r }
{
    let at = bucket(&ip, points.heads.len());
    let next = points.heads[at];
    let number = points.nodes.insert_reserved(Node {
        ip,
        ends: NO_LINKS,
        next,
    });
    points.heads[at] = Some(number);
    points.steps += 1;
    points.room -= 1;
    number
}

/// Puts one point at the front of its chain.
fn chain(points: &mut Points, number: usize)
    requires { 0 < length points.old.heads.items }
    ensures chained { (steps : ℕ) → spec.AreApart points.old → spec.AreChained (spec.below number points.old) points.old.heads.items steps → spec.AreChained (spec.below (number + 1) points.new) points.new.heads.items (steps + 1) }
    ensures points { (k : ℕ) → spec.point points.new k ≡ spec.point points.old k }
    ensures links { (k : ℕ) (r : Role) → spec.link_at points.new k r ≡ spec.link_at points.old k r }
    ensures heads { length points.new.heads.items ≡ length points.old.heads.items }
    ensures len { slab_len points.new.nodes ≡ slab_len points.old.nodes }
    ensures capacity { points.new.nodes.capacity ≡ points.old.nodes.capacity }
    ensures kept { points.new ≡ record points.old { nodes = points.new.nodes; heads = points.new.heads } }
{
    if let Some(node) = points.nodes.get_mut(number) {
        let at = bucket(&node.ip, points.heads.len());
        node.next = points.heads[at];
        points.heads[at] = Some(number);
    }
}

fn clear(heads: &mut Vec<Option<usize>>, buckets: usize)
    requires { buckets ≤ vec_capacity heads.old }
    ensures { heads.new.items ≡ replicate buckets None }
{
    heads.clear();
    for bucket in 0..buckets {
        heads.push_reserved(None);
    }
}

/// Puts each point into one of so many chains anew.
fn relink(points: &mut Points, buckets: usize)
    requires some { 0 < buckets }
    requires memory { buckets ≤ vec_capacity points.old.heads }
    requires apart { spec.AreApart points.old }
    ensures chained { spec.AreChained (get points.new.nodes) points.new.heads.items points.new.steps }
    ensures points { (k : ℕ) → spec.point points.new k ≡ spec.point points.old k }
    ensures links { (k : ℕ) (r : Role) → spec.link_at points.new k r ≡ spec.link_at points.old k r }
    ensures heads { length points.new.heads.items ≡ buckets }
    ensures len { slab_len points.new.nodes ≡ slab_len points.old.nodes }
    ensures capacity { points.new.nodes.capacity ≡ points.old.nodes.capacity }
    ensures room { points.new.room ≡ points.old.room }
    ensures steps { points.new.steps ≡ points.new.nodes.capacity }
{
    clear(&mut points.heads, buckets);
    let slots = points.nodes.capacity();
    for number in 0..slots {
        chain(points, number);
    }
    points.steps = points.nodes.capacity();
}

fn reserve_nodes(points: &mut Points, additional: usize) -> Result<(), AllocError>
    requires { spec.Sound points.old }
    ensures sound { spec.Sound points.new }
    ensures points { (k : ℕ) → spec.point points.new k ≡ spec.point points.old k }
    ensures links { (k : ℕ) (r : Role) → spec.link_at points.new k r ≡ spec.link_at points.old k r }
    ensures memory { OnOk result (HasRoomFor points.new.nodes additional) }
    ensures room { points.new.room ≡ points.old.room }
{
    points.nodes.reserve(additional)
}

/// Makes as many chains as there is memory for points.
fn reserve_heads(points: &mut Points, wanted: usize) -> Result<(), AllocError>
    requires sound { spec.Sound points.old }
    requires capacity { wanted ≡ points.old.nodes.capacity }
    ensures sound { spec.Sound points.new }
    ensures points { (k : ℕ) → spec.point points.new k ≡ spec.point points.old k }
    ensures links { (k : ℕ) (r : Role) → spec.link_at points.new k r ≡ spec.link_at points.old k r }
    ensures len { slab_len points.new.nodes ≡ slab_len points.old.nodes }
    ensures same_capacity { points.new.nodes.capacity ≡ points.old.nodes.capacity }
    ensures heads { OnOk result (wanted ≤ length points.new.heads.items) }
    ensures room { points.new.room ≡ points.old.room }
{
    if points.heads.len() < wanted {
        points.heads.reserve(wanted)?;
        relink(points, wanted);
    }
    Ok(())
}

/// Makes room for so many more points.
pub fn reserve(points: &mut Points, additional: usize) -> Result<(), AllocError>
    requires { spec.Sound points.old }
    ensures sound { spec.Sound points.new }
    ensures points { (k : ℕ) → spec.point points.new k ≡ spec.point points.old k }
    ensures links { (k : ℕ) (r : Role) → spec.link_at points.new k r ≡ spec.link_at points.old k r }
    ensures room { OnOk result (additional ≤ points.new.room) }
    ensures kept { points.old.room ≤ points.new.room }
{
    if additional <= points.room {
        return Ok(());
    }
    reserve_nodes(points, additional)?;
    let capacity = points.nodes.capacity();
    reserve_heads(points, capacity)?;
    if usize::MAX - points.steps < additional {
        return Err(AllocError);
    }
    points.room = additional;
    Ok(())
}

fn with_role(ends: Ends, role: Role, link: Option<usize>) -> Ends
    ensures { result ≡ spec.with_role role link ends }
{
    match role {
        Role::Joined => Ends {
            joined: link,
            ..ends
        },
        Role::Upper => Ends {
            upper: link,
            ..ends
        },
        Role::Lower => Ends {
            lower: link,
            ..ends
        },
    }
}

/// Writes the number of the link in which a point has a role.
pub fn set_link(points: &mut Points, number: usize, role: Role, link: Option<usize>)
    requires sound { spec.Sound points.old }
    requires there { IsSome (spec.point points.old number) }
    ensures sound { spec.Sound points.new }
    ensures room { points.new.room ≡ points.old.room }
    ensures points { (k : ℕ) → spec.point points.new k ≡ spec.point points.old k }
    ensures written { spec.link_at points.new number role ≡ link }
    ensures others { (k : ℕ) (r : Role) → ((k ≡ number) × (r ≡ role) → ⊥) → spec.link_at points.new k r ≡ spec.link_at points.old k r }
{
    write_link(points, number, role, link);
}

fn write_link(points: &mut Points, number: usize, role: Role, link: Option<usize>)
    ensures nodes { (k : ℕ) → get points.new.nodes k ≡ spec.with_link number role link k (get points.old.nodes k) }
    ensures kept { points.new ≡ record points.old { nodes = points.new.nodes } }
    ensures room { slab_len points.new.nodes ≡ slab_len points.old.nodes }
    ensures capacity { points.new.nodes.capacity ≡ points.old.nodes.capacity }
{
    if let Some(node) = points.nodes.get_mut(number) {
        node.ends = with_role(node.ends, role, link);
    }
}

/// The point under a number.
pub fn ip_of(points: &Points, number: usize) -> Option<&IpAddr>
    ensures { option_copied result ≡ spec.point points.now number }
{
    match points.nodes.get(number) {
        None => None,
        Some(node) => Some(&node.ip),
    }
}

/// The number of the link in which a point has a role.
pub fn link_of(points: &Points, number: usize, role: Role) -> Option<usize>
    ensures { result ≡ spec.link_at points.now number role }
{
    let node = points.nodes.get(number)?;
    match role {
        Role::Joined => node.ends.joined,
        Role::Upper => node.ends.upper,
        Role::Lower => node.ends.lower,
    }
}
