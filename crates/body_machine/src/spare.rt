//! Memory that units have done with, for those that come next.

ghost use Rattle.std.specs.Prelude.{◌≡◌, [], IfOk};

use crate::item::Item;
use estelle_tree::Path;
use std::alloc::{AllocError, Global};

/// How many paths, and how many stacks, are kept.
const MOST: usize = 16;

/// Paths and stacks that are not in use.
pub(crate) struct Spare {
    paths: Vec<Path>,
    stacks: Vec<Vec<Item>>,
}

impl Drop for Spare {
    fn drop(self) {
        let Spare {
            paths: _,
            stacks: _,
        } = self;
    }
}

impl Spare {
    pub(crate) fn none(alloc: Global) -> Spare {
        Spare {
            paths: Vec::new(alloc),
            stacks: Vec::new(alloc),
        }
    }

    /// A copy of a path. It takes no memory where the spare one is the same; that of the root takes none at all.
    pub(crate) fn path(&mut self, alloc: Global, path: &Path) -> Result<Path, AllocError>
        ensures { IfOk result (λ copy. copy ≡ path.now) }
    {
        if path.items().is_empty() {
            return path.copy(alloc);
        }
        match self.paths.pop() {
            Some(spare) => same_path(alloc, spare, path),
            None => path.copy(alloc),
        }
    }

    pub(crate) fn keep_path(&mut self, path: Path) {
        if path.items().is_empty() {
            return;
        }
        if self.paths.len() < MOST {
            let _ = self.paths.push(path);
        }
    }

    /// An empty stack.
    pub(crate) fn stack(&mut self, alloc: Global) -> Vec<Item>
        ensures { result.items ≡ [] }
    {
        match self.stacks.pop() {
            Some(spare) => emptied(spare),
            None => Vec::new(alloc),
        }
    }

    pub(crate) fn keep_stack(&mut self, items: Vec<Item>) {
        if self.stacks.len() < MOST {
            let _ = self.stacks.push(items);
        }
    }
}

fn same_path(alloc: Global, spare: Path, path: &Path) -> Result<Path, AllocError>
    ensures { IfOk result (λ copy. copy ≡ path.now) }
{
    if spare.items() == path.items() {
        Ok(spare)
    } else {
        path.copy(alloc)
    }
}

fn emptied(mut items: Vec<Item>) -> Vec<Item>
    ensures { result.items ≡ [] }
{
    items.clear();
    items
}
