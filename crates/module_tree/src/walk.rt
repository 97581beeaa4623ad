//! The instances at and below one, gone through backwards in the order of their paths.

ghost use Rattle.std.specs.Prelude.{◌≡◌, ◌≢◌, ◌≤◌, ℕ, [], IfOk, IsSome, IsTrue, length, List, map as each, not, reverse};
ghost use Rattle.std.specs.Ordering.{is_lt};
ghost use Rattle.std.specs.Vec.{vec_capacity};
ghost use Rattle.estelle_tree.specs.Paths.{is_inside, path_cmp};
ghost use Rattle.module_tree.specs.Trees.{parts_below};
ghost use Rattle.module_tree.specs.Nodes.{found, instances_of, number_at, Linked, links};

use crate::nodes::{Nodes, descend};
use std::alloc::{AllocError, Global};

/// From an instance on to the one before it in path order: the last at or below the sibling before, or the parent
/// where there is none.
fn step_back<R>(nodes: &Nodes<R>, way: &mut Vec<u64>, previous: u64, depth: usize)
    requires linked { Linked (links nodes.now.entries) }
    requires below { way.old.items ≢ [] }
    requires there { IsSome (found nodes.now.entries way.old.items) }
    requires previous { previous ≡ number_at (λ n. n.previous) (links nodes.now.entries) way.old.items }
    requires bounded { (q : List ℕ) → IsSome (found nodes.now.entries q) → length q ≤ depth }
    requires room { depth ≤ vec_capacity way.old }
    ensures there { IsSome (found nodes.now.entries way.new.items) }
    ensures next_to { (q : List ℕ) → IsSome (found nodes.now.entries q) → is_lt (path_cmp way.new.items q) ≡ not (is_lt (path_cmp q way.old.items)) }
    ensures below { (p : List ℕ) → IsTrue (is_inside p way.old.items) → length p ≢ length way.old.items → IsTrue (is_inside p way.new.items) }
    ensures room { vec_capacity way.new ≡ vec_capacity way.old }
{
    way.pop();
    if previous != 0 {
        way.push_reserved(previous);
        descend(nodes, way, depth);
    }
}

/// The parts of the instances at and below the path, the last one first.
fn backward_parts<'a, R>(
    nodes: &'a Nodes<R>,
    alloc: Global,
    way: &mut Vec<u64>,
    path: &[u64],
    depth: usize,
) -> Result<Vec<&'a R>, AllocError>
    requires linked { Linked (links nodes.now.entries) }
    requires there { IsSome (found nodes.now.entries path.now) }
    requires bounded { (q : List ℕ) → IsSome (found nodes.now.entries q) → length q ≤ depth }
    requires way { way.old.items ≡ path.now }
    requires room { depth ≤ vec_capacity way.old }
    ensures { IfOk result (λ parts. each (λ r. r.now) parts.items ≡ reverse (parts_below (instances_of nodes.now.entries) path.now)) }
{
    let mut parts = Vec::new(alloc);
    descend(nodes, way, depth);
    'back: loop {
        match nodes.get(way.as_slice()) {
            // The instance is there, so that this is not reached.
            None => return Ok(parts),
            Some(node) => {
                parts.push(&node.part)?;
                if way.len() == path.len() {
                    return Ok(parts);
                }
                step_back(nodes, way, node.previous, depth);
            }
        }
    }
}

/// The parts of the instances at and below the path, in path order.
pub fn parts<'a, R>(
    nodes: &'a Nodes<R>,
    alloc: Global,
    path: &[u64],
    depth: usize,
) -> Result<Vec<&'a R>, AllocError>
    requires linked { Linked (links nodes.now.entries) }
    requires there { IsSome (found nodes.now.entries path.now) }
    requires bounded { (q : List ℕ) → IsSome (found nodes.now.entries q) → length q ≤ depth }
    ensures { IfOk result (λ parts. each (λ r. r.now) parts.items ≡ parts_below (instances_of nodes.now.entries) path.now) }
{
    let mut way = Vec::with_capacity(alloc, depth)?;
    way.extend_from_slice(path)?;
    let mut parts = backward_parts(nodes, alloc, &mut way, path, depth)?;
    parts.reverse();
    Ok(parts)
}
