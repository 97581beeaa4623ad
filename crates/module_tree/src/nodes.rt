//! The table of the nodes by their paths.

ghost use Rattle.std.specs.Prelude.{◌≡◌, ◌≢◌, ◌≤◌, ◌<◌, ◌+◌, ◌↔◌, ℕ, [], None, Some, IsErr, IfSome, IfNone, OnOk, OnErr, IfErr, IfOk, map, reverse, IsSome, IsTrue, cond, length, List, false};
ghost use Rattle.std.specs.Option.{option_map};
ghost use Rattle.std.specs.Vec.{vec_capacity};
ghost use Rattle.indexmap.specs.IndexMap.{spare, index_map_len};
ghost use Rattle.std.specs.Ordering.{is_lt};
ghost use Rattle.estelle_tree.specs.Paths.{child, parent_of, last_of, is_inside, path_cmp};
ghost use Rattle.std.specs.FinMap as finite;
ghost use Rattle.module_tree.specs.Trees.{lone, placed, without};
ghost use Rattle.module_tree.specs.Nodes.{found, instances_of, child_numbers, number_at, same, Changes, Linked, links, with_last, with_previous, with_next, with_birth, backward, node_back};

use crate::tree::NoSuch;
use estelle_tree::Path;
use indexmap::IndexMap;
use std::alloc::{AllocError, Global};

/// An instance: what is kept of it, how many children it has had, and its place in the chain of its parent's
/// children. A link is a birth number; 0 is none.
#[derive(Drop)]
pub struct Node<R> {
    pub part: R,
    pub births: u64,
    pub last: u64,
    pub previous: u64,
    pub next: u64,
}

/// The nodes by their birth numbers on the way from the root.
pub type Nodes<R> = IndexMap<Vec<u64>, Node<R>>;

/// The parent's birth numbers.
fn parent(numbers: &[u64]) -> &[u64]
    requires { numbers.now ≢ [] }
    ensures { result.now ≡ parent_of numbers.now }
{
    &numbers[..numbers.len() - 1]
}

/// Another number in the place of the last, which is the result.
fn replace_last(numbers: &mut [u64], number: u64) -> u64
    requires { numbers.old ≢ [] }
    ensures last { result ≡ last_of numbers.old }
    ensures replaced { numbers.new ≡ child (parent_of numbers.old) number }
{
    let at = numbers.len() - 1;
    let last = numbers[at];
    numbers[at] = number;
    last
}

/// The instance's last child, or 0.
pub fn last_child<R>(nodes: &Nodes<R>, path: &[u64]) -> u64
    ensures { result ≡ number_at (λ n. n.last) (links nodes.now.entries) path.now }
{
    match nodes.get(path) {
        Some(node) => node.last,
        None => 0,
    }
}

/// The table of a root with no child. The refusal is want of memory.
pub fn plant<R: Drop>(alloc: Global, root: R) -> Result<Nodes<R>, R>
    ensures linked { IfOk result (λ nodes. Linked (links nodes.entries)) }
    ensures lone { IfOk result (λ nodes. instances_of nodes.entries ≡ lone root) }
    ensures refused { IfErr result (λ part. part ≡ root) }
{
    let mut nodes = IndexMap::new(alloc);
    let node = Node {
        part: root,
        births: 0,
        last: 0,
        previous: 0,
        next: 0,
    };
    match nodes.insert(Vec::new(alloc), node) {
        Ok(_) => Ok(nodes),
        Err(failed) => Err(failed.value.1.part),
    }
}

/// One more birth of the parent; the result is the last child before.
fn bear<R>(nodes: &mut Nodes<R>, parent: &[u64], number: u64) -> Option<u64>
    ensures last { result ≡ option_map (λ n. n.last) (found nodes.old.entries parent.now) }
    ensures born { Changes nodes.old nodes.new parent.now (with_birth number) }
    ensures absent { IfNone result (nodes.new ≡ nodes.old) }
{
    match nodes.get_mut(parent) {
        None => None,
        Some(node) => {
            let last = node.last;
            node.births = number;
            node.last = number;
            Some(last)
        }
    }
}

fn set_last<R>(nodes: &mut Nodes<R>, path: &[u64], number: u64)
    ensures { Changes nodes.old nodes.new path.now (with_last number) }
{
    match nodes.get_mut(path) {
        None => {}
        Some(node) => node.last = number,
    }
}

fn set_previous<R>(nodes: &mut Nodes<R>, path: &[u64], number: u64)
    ensures { Changes nodes.old nodes.new path.now (with_previous number) }
{
    match nodes.get_mut(path) {
        None => {}
        Some(node) => node.previous = number,
    }
}

fn set_next<R>(nodes: &mut Nodes<R>, path: &[u64], number: u64)
    ensures { Changes nodes.old nodes.new path.now (with_next number) }
{
    match nodes.get_mut(path) {
        None => {}
        Some(node) => node.next = number,
    }
}

/// The next sibling of the sibling with this number, if it is not 0.
fn join_next<R>(nodes: &mut Nodes<R>, numbers: &mut [u64], sibling: u64, next: u64)
    requires below { numbers.old ≢ [] }
    requires none { found nodes.old.entries (child (parent_of numbers.old) 0) ≡ None }
    ensures joined { Changes nodes.old nodes.new (child (parent_of numbers.old) sibling) (with_next next) }
    ensures kept { numbers.new ≡ numbers.old }
{
    if sibling != 0 {
        let own = replace_last(numbers, sibling);
        set_next(nodes, numbers, next);
        replace_last(numbers, own);
    }
}

/// The sibling before the one with this number, or where it is 0 the parent's last child.
fn join_back<R>(nodes: &mut Nodes<R>, numbers: &mut [u64], sibling: u64, previous: u64)
    requires below { numbers.old ≢ [] }
    ensures joined { Changes nodes.old nodes.new (backward (parent_of numbers.old) sibling) (node_back sibling previous) }
    ensures kept { numbers.new ≡ numbers.old }
{
    if sibling == 0 {
        set_last(nodes, parent(numbers), previous);
    } else {
        let own = replace_last(numbers, sibling);
        set_previous(nodes, numbers, previous);
        replace_last(numbers, own);
    }
}

fn add<R: Drop>(nodes: &mut Nodes<R>, numbers: Vec<u64>, node: Node<R>)
    requires { 1 ≤ spare nodes.old }
    ensures added { (q : List ℕ) → found nodes.new.entries q ≡ cond (same numbers.items q) (Some node) (found nodes.old.entries q) }
    ensures room { spare nodes.old ≤ spare nodes.new + 1 }
{
    // There is room, so that this does not fail.
    let _ = nodes.insert(numbers, node);
}

/// One more instance. The number of its way's end is its parent's next.
pub fn place<R: Drop>(nodes: &mut Nodes<R>, mut numbers: Vec<u64>, part: R) -> Result<(), NoSuch<R>>
    requires linked { Linked (links nodes.old.entries) }
    requires room { 1 ≤ spare nodes.old }
    requires below { numbers.items ≢ [] }
    requires next { IfSome (found nodes.old.entries (parent_of numbers.items)) (λ n. last_of numbers.items ≡ n.births + 1) }
    ensures linked { OnOk result (Linked (links nodes.new.entries)) }
    ensures placed { OnOk result (instances_of nodes.new.entries ≡ placed (instances_of nodes.old.entries) numbers.items part) }
    ensures room { OnOk result (spare nodes.old ≤ spare nodes.new + 1) }
    ensures missing { IsErr result ↔ (found nodes.old.entries (parent_of numbers.items) ≡ None) }
    ensures part { IfErr result (λ refused. refused.part ≡ part) }
    ensures kept { OnErr result (nodes.new ≡ nodes.old) }
{
    let number = numbers[numbers.len() - 1];
    match bear(nodes, parent(&numbers), number) {
        None => Err(NoSuch { part }),
        Some(previous) => {
            join_next(nodes, &mut numbers, previous, number);
            let node = Node {
                part,
                births: 0,
                last: 0,
                previous,
                next: 0,
            };
            add(nodes, numbers, node);
            Ok(())
        }
    }
}

/// The instance at the end of the way, which has no child, is gone, and its neighbours are joined.
fn unlink<R: Drop>(nodes: &mut Nodes<R>, way: &mut [u64])
    requires linked { Linked (links nodes.old.entries) }
    requires below { way.old ≢ [] }
    requires there { IsSome (found nodes.old.entries way.old) }
    requires leaf { number_at (λ n. n.last) (links nodes.old.entries) way.old ≡ 0 }
    ensures linked { Linked (links nodes.new.entries) }
    ensures removed { instances_of nodes.new.entries ≡ finite.remove (instances_of nodes.old.entries) way.old }
    ensures kept { way.new ≡ way.old }
    ensures len { index_map_len nodes.new + 1 ≡ index_map_len nodes.old }
    ensures room { spare nodes.old ≤ spare nodes.new }
{
    match nodes.swap_remove(&*way) {
        None => {}
        Some(node) => {
            join_back(nodes, way, node.next, node.previous);
            join_next(nodes, way, node.previous, node.next);
        }
    }
}

/// From an instance on to its last child, and on to that one's, until there is none.
pub fn descend<R>(nodes: &Nodes<R>, way: &mut Vec<u64>, depth: usize)
    requires linked { Linked (links nodes.now.entries) }
    requires there { IsSome (found nodes.now.entries way.old.items) }
    requires bounded { (q : List ℕ) → IsSome (found nodes.now.entries q) → length q ≤ depth }
    requires room { depth ≤ vec_capacity way.old }
    ensures there { IsSome (found nodes.now.entries way.new.items) }
    ensures leaf { number_at (λ n. n.last) (links nodes.now.entries) way.new.items ≡ 0 }
    ensures below { IsTrue (is_inside way.old.items way.new.items) }
    ensures last { (q : List ℕ) → IsSome (found nodes.now.entries q) → IsTrue (is_inside way.old.items q) → is_lt (path_cmp way.new.items q) ≡ false }
    ensures room { vec_capacity way.new ≡ vec_capacity way.old }
{
    let mut last = last_child(nodes, way);
    while last != 0 {
        way.push_reserved(last);
        last = last_child(nodes, way);
    }
}

/// The instance of this path and all below it are gone. The way's memory serves for their paths.
pub fn remove<R: Drop>(nodes: &mut Nodes<R>, way: &mut Vec<u64>, path: &[u64], depth: usize)
    requires linked { Linked (links nodes.old.entries) }
    requires below { path.now ≢ [] }
    requires there { IsSome (found nodes.old.entries path.now) }
    requires bounded { (q : List ℕ) → IsSome (found nodes.old.entries q) → length q ≤ depth }
    requires room { depth ≤ vec_capacity way.old }
    requires empty { way.old.items ≡ [] }
    ensures linked { Linked (links nodes.new.entries) }
    ensures removed { instances_of nodes.new.entries ≡ without (instances_of nodes.old.entries) path.now }
    ensures room { spare nodes.old ≤ spare nodes.new }
    ensures way { vec_capacity way.old ≤ vec_capacity way.new }
    ensures empty { way.new.items ≡ [] }
{
    // There is room, so that this does not fail.
    let _ = way.extend_from_slice(path);
    'leaves: loop {
        descend(nodes, way, depth);
        unlink(nodes, way);
        if way.len() == path.len() {
            break;
        }
        way.pop();
    }
    way.clear();
}

/// The paths of the instance's children, the last one first.
fn backward_paths<R>(
    nodes: &Nodes<R>,
    alloc: Global,
    path: &Path,
    last: u64,
) -> Result<Vec<Path>, AllocError>
    requires linked { Linked (links nodes.now.entries) }
    requires last { last ≡ number_at (λ n. n.last) (links nodes.now.entries) path.now }
    ensures { IfOk result (λ paths. paths.items ≡ map (child path.now) (reverse (child_numbers (links nodes.now.entries) path.now))) }
{
    let mut paths = Vec::new(alloc);
    let mut number = last;
    while number != 0 {
        let child = path.child(alloc, number)?;
        number = previous(nodes, child.items());
        paths.push(child)?;
    }
    Ok(paths)
}

/// The sibling before, or 0.
fn previous<R>(nodes: &Nodes<R>, path: &[u64]) -> u64
    ensures { result ≡ number_at (λ n. n.previous) (links nodes.now.entries) path.now }
{
    match nodes.get(path) {
        Some(node) => node.previous,
        None => 0,
    }
}

/// The paths of the instance's children, by birth number.
pub fn paths_below<R>(nodes: &Nodes<R>, alloc: Global, path: &Path) -> Result<Vec<Path>, AllocError>
    requires { Linked (links nodes.now.entries) }
    ensures { IfOk result (λ paths. paths.items ≡ map (child path.now) (child_numbers (links nodes.now.entries) path.now)) }
{
    let mut paths = backward_paths(nodes, alloc, path, last_child(nodes, path.items()))?;
    paths.reverse();
    Ok(paths)
}
