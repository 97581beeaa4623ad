ghost use Rattle.std.specs.Prelude.{◌≡◌, ◌≢◌, ◌≤◌, ◌+◌, ◌↔◌, ℕ, List, [], length, None, Err, IsSome, IfSome, IsErr, IfOk, IfErr, OnOk, OnErr, map as each};
ghost use Rattle.estelle_tree.specs.Paths.{parent_of, last_of};
ghost use Rattle.module_tree.specs.declared.tree.TreeError.TheVariants as errors;
ghost use Rattle.std.specs.Option.{option_copied, option_copied_mut};
ghost use Rattle.std.specs.Borrow.{sem};

use crate::nodes::{self, Nodes};
use crate::walk;
use estelle_tree::Path;
use std::alloc::{AllocError, Global};
use std::marker::Model;

/// The parent is not there; what was to be placed is handed back.
#[derive(Drop)]
pub struct NoSuch<R> {
    pub part: R,
}

#[derive(Clone, Copy, Debug, PartialEq, Eq)]
pub enum TreeError {
    /// The instance is not there.
    NoSuch,
    Memory,
}

/// The instance is not there.
#[derive(Clone, Copy, Debug, PartialEq, Eq)]
pub struct Missing;

/// Module instances by their paths, the root among them (ISO/IEC 9074: module instances, `init`, `release`).
pub struct Tree<R> {
    nodes: Nodes<R>,

    // No path in the table is longer.
    depth: usize,

    // Memory for a path of that length, and for one longer for each instance that may still be placed.
    way: Vec<u64>,
}

impl<R: Drop> Drop for Tree<R> {
    fn drop(self) {
        let Tree {
            nodes: _,
            depth: _,
            way: _,
        } = self;
    }
}

impl<R> Model for Tree<R> {
    ghost use Rattle.std.specs.Prelude.{min, ◌-◌, ◌≤◌, ◌≡◌, []};
    ghost use Rattle.std.specs.Vec.{vec_capacity};
    ghost use Rattle.indexmap.specs.IndexMap.{spare};
    ghost use Rattle.module_tree.specs.Trees as trees;

    ghost Value = { trees.Tree R };

    ghost coded = { trees.tree_code R.code };

    ghost use Rattle.module_tree.specs.Nodes.{instances_of, IsSound};

    ghost view = { λ t. record { instances = instances_of t.nodes.entries; spare = min (spare t.nodes) (vec_capacity t.way - t.depth) } };

    ghost invariant = { λ t. IsSound t.nodes.entries t.depth t.way };
}

impl<R> Tree<R> {
    ghost use Rattle.module_tree.specs.Trees as trees;
    ghost use Rattle.module_tree.specs.Lends.{lends_part};

    /// A tree of one instance, the root. The refusal is want of memory.
    pub fn single(alloc: Global, root: R) -> Result<Tree<R>, R>
    where
        R: Drop,
        ensures lone { IfOk result (λ tree. tree.instances ≡ trees.lone root) }
        ensures refused { IfErr result (λ part. part ≡ root) }
    {
        let nodes = nodes::plant(alloc, root)?;
        Ok(Tree {
            nodes,
            depth: 0,
            way: Vec::new(alloc),
        })
    }

    /// Memory for so many more instances.
    pub fn reserve(&mut self, count: usize) -> Result<(), AllocError>
        ensures room { OnOk result (count ≤ self.new.spare) }
        ensures kept { self.new.instances ≡ self.old.instances }
        ensures no_less { self.old.spare ≤ self.new.spare }
    {
        match self.depth.checked_add(count) {
            None => Err(AllocError),
            Some(length) => {
                self.way.reserve(length)?;
                self.nodes.reserve(count)
            }
        }
    }

    /// One more instance, the next child of its parent. It takes no memory. NoSuch is answered where the parent is
    /// not there.
    pub fn place(&mut self, path: Path, part: R) -> Result<(), NoSuch<R>>
    where
        R: Drop,
        requires room { 1 ≤ self.old.spare }
        requires below { path ≢ [] }
        requires next { IfSome (trees.births_at self.old (parent_of path)) (λ births. last_of path ≡ births + 1) }
        ensures placed { OnOk result (self.new.instances ≡ trees.placed self.old.instances path part) }
        ensures room { self.old.spare ≤ self.new.spare + 1 }
        ensures no_such { IsErr result ↔ (trees.instance_at self.old (parent_of path) ≡ None) }
        ensures part { IfErr result (λ refused. refused.part ≡ part) }
        ensures kept { OnErr result (self.new ≡ self.old) }
    {
        let numbers = path.into_numbers();
        let length = numbers.len();
        nodes::place(&mut self.nodes, numbers, part)?;
        self.depth = self.depth.max(length);
        Ok(())
    }

    /// What is kept of the instance. It takes no memory.
    #[tactic(auto, using(crate::proofs::Seen::get_instances_of))]
    pub fn get(&self, path: &Path) -> Option<&R>
        ensures { option_copied result ≡ trees.part_at self.now path.now }
    {
        match self.nodes.get(path.items()) {
            Some(node) => Some(&node.part),
            None => None,
        }
    }

    /// The same, to write to. It takes no memory.
    #[tactic(auto, using(crate::proofs::Seen::get_instances_of))]
    pub fn get_mut(&mut self, path: &Path) -> Option<&mut R>
        ensures* writes_back { sem 𝓛 (lends_part R.row self.entry path.now result) }
        ensures value { option_copied_mut result ≡ trees.part_at self.old path.now }
    {
        match self.nodes.get_mut(path.items()) {
            Some(node) => Some(&mut node.part),
            None => None,
        }
    }

    /// How many children the instance has had. It takes no memory.
    #[tactic(auto, using(crate::proofs::Seen::get_instances_of))]
    pub fn births(&self, path: &Path) -> Option<u64>
        ensures { result ≡ trees.births_at self.now path.now }
    {
        match self.nodes.get(path.items()) {
            Some(node) => Some(node.births),
            None => None,
        }
    }

    /// A bound of the lengths of the paths: that of the longest that was placed. It takes no memory.
    pub fn depth(&self) -> usize
        ensures bound { (q : List ℕ) → IsSome (trees.instance_at self.now q) → length q ≤ result }
        ensures tree { trees.IsTree self.now }
    {
        self.depth
    }

    /// The paths of the instance's children, by birth number.
    pub fn children(&self, alloc: Global, path: &Path) -> Result<Vec<Path>, TreeError>
        ensures children { IfOk result (λ paths. paths.items ≡ trees.child_paths self.now path.now) }
        ensures no_such { (result ≡ Err errors.NoSuch) ↔ (trees.instance_at self.now path.now ≡ None) }
    {
        if !self.nodes.contains_key(path.items()) {
            return Err(TreeError::NoSuch);
        }
        match nodes::paths_below(&self.nodes, alloc, path) {
            Ok(paths) => Ok(paths),
            Err(_) => Err(TreeError::Memory),
        }
    }

    /// What is kept of the instance and of all below it, in path order: a parent before its descendants, siblings by
    /// birth number. Nothing of it is copied, and the time is that of as many look-ups.
    pub fn below<'a>(&'a self, alloc: Global, path: &Path) -> Result<Vec<&'a R>, TreeError>
        ensures parts { IfOk result (λ parts. each (λ r. r.now) parts.items ≡ trees.parts_below self.now.instances path.now) }
        ensures no_such { (result ≡ Err errors.NoSuch) ↔ (trees.instance_at self.now path.now ≡ None) }
    {
        let numbers = path.items();
        if !self.nodes.contains_key(numbers) {
            return Err(TreeError::NoSuch);
        }
        match walk::parts(&self.nodes, alloc, numbers, self.depth) {
            Ok(parts) => Ok(parts),
            Err(_) => Err(TreeError::Memory),
        }
    }

    /// The instance and all below it are gone; its number is not given again. It takes no memory, and the time of
    /// what it removes. Missing is answered where the instance is not there.
    pub fn remove(&mut self, path: &Path) -> Result<(), Missing>
    where
        R: Drop,
        requires { path.now ≢ [] }
        ensures removed { OnOk result (self.new.instances ≡ trees.without self.old.instances path.now) }
        ensures room { self.old.spare ≤ self.new.spare }
        ensures missing { IsErr result ↔ (trees.instance_at self.old path.now ≡ None) }
        ensures kept { OnErr result (self.new ≡ self.old) }
    {
        if !self.nodes.contains_key(path.items()) {
            return Err(Missing);
        }
        nodes::remove(&mut self.nodes, &mut self.way, path.items(), self.depth);
        Ok(())
    }
}
