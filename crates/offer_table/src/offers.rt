//! The table of offers.

ghost use Rattle.std.specs.Prelude.{◌≡◌, ◌<◌, ◌≤◌, ◌+◌, ◌↔◌, ◌++◌, ◌∷◌, ℕ, [], length, take, drop, true, false, IsTrue, MatchBool, MatchResult, OnOk, OnErr};
ghost use Rattle.std.specs.List.Sorted.{IsSearchInRange};
ghost use Rattle.estelle_tree.specs.Paths.{Path as Seen};
ghost use Rattle.std.specs.Vec.{vec_capacity};
ghost use Rattle.offer_table.specs.Order.{inside, outside};
ghost use Rattle.offer_table.specs.Tables as tables;

use crate::order::{below, find, remove_below};
use crate::rows::{Row, put_row};
use estelle_tree::{Items, Path};
use std::alloc::{AllocError, Global};
use std::marker::Model;

/// Which transitions of which instances are enabled, and the guards of which instances have to be asked anew. What
/// stands at and below an instance is found by two searches by halves, and lies in one piece.
pub struct Offers {
    rows: Vec<Row>,
    marks: Vec<Path>,
}

impl Drop for Offers {
    fn drop(self) {
        let Offers { rows: _, marks: _ } = self;
    }
}

impl Model for Offers {
    ghost use Rattle.std.specs.Vec.{vec_capacity};
    ghost use Rattle.offer_table.specs.Tables.{Table};

    ghost Value = { Table };

    ghost use Rattle.offer_table.specs.Tables.{table_of, IsTable};

    ghost view = { λ o. table_of o.rows.items o.marks.items (vec_capacity o.marks) };

    ghost invariant = { λ o. IsTable (table_of o.rows.items o.marks.items (vec_capacity o.marks)) };
}

/// Puts a mark where a search found none.
fn put_mark(marks: &mut Vec<Path>, place: Result<usize, usize>, path: Path)
    requires within { IsSearchInRange place (length marks.old.items) }
    requires room { length marks.old.items < vec_capacity marks.old }
    ensures put { MatchResult place (λ _. marks.new.items ≡ marks.old.items) (λ at. marks.new.items ≡ take at marks.old.items ++ path ∷ drop at marks.old.items) }
    ensures room { vec_capacity marks.new ≡ vec_capacity marks.old }
{
    match place {
        Ok(_) => {}
        Err(at) => {
            // There is room, so that this does not fail.
            let _ = marks.insert(at, path);
        }
    }
}

impl Offers {
    /// No rows and no marks. It takes no memory.
    pub fn none(alloc: Global) -> Offers
        ensures { result ≡ tables.empty }
    {
        Offers {
            rows: Vec::new(alloc),
            marks: Vec::new(alloc),
        }
    }

    /// Makes room for so many more marks. An error is want of memory.
    pub fn reserve(&mut self, more: usize) -> Result<(), AllocError>
        ensures kept { self.new ≡ record self.old { room = self.new.room } }
        ensures room { OnOk result (more ≤ tables.spare self.new) }
        ensures no_less { self.old.room ≤ self.new.room }
        ensures err { OnErr result (self.new ≡ self.old) }
    {
        self.marks.reserve(more)
    }

    /// Marks an instance, unless it is marked. It takes no memory, and the time of a search among the marks by halves
    /// and of moves of those after it.
    pub fn mark(&mut self, path: Path)
        requires { 0 < tables.spare self.old }
        ensures marked { self.new ≡ record self.old { marks = tables.with_mark path self.old.marks } }
        ensures room { tables.spare self.old ≤ tables.spare self.new + 1 }
    {
        let place = find(&self.marks, &path);
        put_mark(&mut self.marks, place, path);
    }

    /// Whether the instance is marked, by a search by halves.
    pub fn is_marked(&self, path: &Path) -> bool
        ensures { result ≡ tables.is_marked self.now path.now }
    {
        find(&self.marks, path).is_ok()
    }

    /// The marked instances at and below a system, in path order.
    pub fn marked(&self, system: &Path) -> &[Path]
        ensures marked { result.now ≡ inside tables.mark_path system.now self.now.marks }
        ensures table { tables.IsTable self.now }
    {
        below(&self.marks, system)
    }

    /// Removes the marks at and below a system. It takes no memory, and the time of what it removes and of moves of the
    /// marks after it.
    pub fn unmark(&mut self, system: &Path)
        ensures { self.new ≡ record self.old { marks = outside tables.mark_path system.now self.old.marks } }
    {
        remove_below(&mut self.marks, system);
    }

    /// Removes the rows and the marks at and below an instance, as a release does. It takes no memory, and the time of
    /// what it removes and of moves of what stands after it.
    pub fn forget(&mut self, path: &Path)
        ensures { self.new ≡ record self.old { rows = outside tables.row_path path.now self.old.rows; marks = outside tables.mark_path path.now self.old.marks } }
    {
        remove_below(&mut self.rows, path);
        remove_below(&mut self.marks, path);
    }

    /// Puts the enabled transitions of an instance in place of its row. Where none is enabled it has no row
    /// afterwards. It takes the time of a search by halves and, where a row comes or goes, of moves of the rows after
    /// it; only a row that comes takes memory. An error is want of memory.
    pub fn install(
        &mut self,
        alloc: Global,
        path: &Path,
        numbers: Items<u32>,
    ) -> Result<(), AllocError>
        requires { tables.Rise numbers }
        ensures ok { OnOk result (self.new ≡ record self.old { rows = tables.with_row path.now numbers self.old.rows }) }
        ensures err { OnErr result (self.new ≡ self.old) }
    {
        let place = find(&self.rows, path);
        put_row(&mut self.rows, alloc, place, path, numbers)
    }

    /// Whether the transition is enabled, by two searches by halves.
    pub fn is_on(&self, path: &Path, number: u32) -> bool
        ensures { result ≡ tables.is_on self.now path.now number }
    {
        match find(&self.rows, path) {
            Ok(at) => self.rows[at]
                .numbers
                .as_slice()
                .binary_search(&number)
                .is_ok(),
            Err(_) => false,
        }
    }

    /// The rows at and below a system, in path order.
    pub fn rows(&self, system: &Path) -> &[Row]
        ensures rows { result.now ≡ inside tables.row_path system.now self.now.rows }
        ensures table { tables.IsTable self.now }
    {
        below(&self.rows, system)
    }

    /// Whether nothing is enabled.
    pub fn is_empty(&self) -> bool
        ensures rows { IsTrue result ↔ (self.now.rows ≡ []) }
        ensures enabled { MatchBool result ((p : Seen) (n : ℕ) → tables.is_on self.now p n ≡ false) ((p : Seen) × (n : ℕ) × (tables.is_on self.now p n ≡ true)) }
    {
        self.rows.is_empty()
    }
}
