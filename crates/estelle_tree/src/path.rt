ghost use Rattle.std.specs.Prelude.{◌≡◌, ◌<◌, ◌≤◌, ◌&&◌, [], ◌∷◌, ◌++◌, length, nat_lt, take, IfOk};
ghost use Rattle.estelle_tree.specs.Paths.{is_inside, is_above};

use std::alloc::{AllocError, Global};
use std::marker::Model;

/// The birth numbers on the way from the root to an instance.
#[derive(Debug)]
pub struct Path {
    numbers: Vec<u64>,
}

impl Drop for Path {
    fn drop(self) {
        let Path { numbers: _ } = self;
    }
}

impl Model for Path {
    ghost use Rattle.std.specs.Prelude.{List, ℕ};
    ghost use Rattle.std.specs.Coded.{coded_list, coded_ℕ};

    ghost Value = { List ℕ };

    ghost coded = { coded_list coded_ℕ };

    ghost view = { λ a. a.numbers.items };
}

impl Path {
    /// The specification's own path. It takes no memory.
    pub fn root(alloc: Global) -> Path
        ensures { result ≡ [] }
    {
        Path {
            numbers: Vec::new(alloc),
        }
    }

    pub fn child(&self, alloc: Global, number: u64) -> Result<Path, AllocError>
        ensures { IfOk result (λ path. path ≡ self.now ++ number ∷ []) }
    {
        let mut numbers = self.numbers.to_vec(alloc)?;
        numbers.push(number)?;
        Ok(Path { numbers })
    }

    pub fn copy(&self, alloc: Global) -> Result<Path, AllocError>
        ensures { IfOk result (λ path. path ≡ self.now) }
    {
        Ok(Path {
            numbers: self.numbers.to_vec(alloc)?,
        })
    }

    pub fn items(&self) -> &[u64]
        ensures { result.now ≡ self.now }
    {
        &self.numbers
    }

    /// The path of these birth numbers. It takes no memory.
    pub fn of(numbers: Vec<u64>) -> Path
        ensures { result ≡ numbers.items }
    {
        Path { numbers }
    }

    /// The birth numbers, by value. It takes no memory.
    pub fn into_numbers(self) -> Vec<u64>
        ensures { result.items ≡ self }
    {
        let Path { numbers } = self;
        numbers
    }

    /// Whether the other instance is this one or below it. It takes no memory.
    pub fn is_at_or_above(&self, other: &Path) -> bool
        ensures { result ≡ is_inside self.now other.now }
    {
        other.numbers.starts_with(&self.numbers)
    }

    /// Whether the other instance is below this one. It takes no memory.
    pub fn is_above(&self, other: &Path) -> bool
        ensures { result ≡ is_above self.now other.now }
    {
        self.numbers.len() < other.numbers.len() && self.is_at_or_above(other)
    }
}

/// Memory for one path of at most so many birth numbers, seen as their number.
#[derive(Debug)]
pub struct PathRoom {
    numbers: Vec<u64>,
}

impl Drop for PathRoom {
    fn drop(self) {
        let PathRoom { numbers: _ } = self;
    }
}

impl Model for PathRoom {
    ghost use Rattle.std.specs.Prelude.{ℕ, ◌≡◌, []};
    ghost use Rattle.std.specs.Vec.{vec_capacity};
    ghost use Rattle.std.specs.Coded.{coded_ℕ};

    ghost Value = { ℕ };

    ghost coded = { coded_ℕ };

    ghost view = { λ r. vec_capacity r.numbers };

    ghost invariant = { λ r. r.numbers.items ≡ [] };
}

impl PathRoom {
    pub fn of(alloc: Global, birth_numbers: usize) -> Result<PathRoom, AllocError>
        ensures { IfOk result (λ room. room ≡ birth_numbers) }
    {
        Ok(PathRoom {
            numbers: Vec::with_capacity(alloc, birth_numbers)?,
        })
    }

    /// The path of the first birth numbers of another. It takes no memory.
    pub fn fill(self, path: &Path, len: usize) -> Path
        requires room { len ≤ self }
        requires within { len ≤ length path.now }
        ensures { result ≡ take len path.now }
    {
        let PathRoom { mut numbers } = self;
        // There is room, so that this does not fail.
        let _ = numbers.extend_from_slice(&path.numbers[..len]);
        Path { numbers }
    }
}
