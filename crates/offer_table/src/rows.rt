//! The rows of a table of offers.

ghost use Rattle.std.specs.Prelude.{◌≡◌, ◌≤◌, ◌<◌, length, OnOk, OnErr};
ghost use Rattle.std.specs.List.Sorted.{IsSearchInRange};
ghost use Rattle.offer_table.specs.Searches.{HasRow, HasNewRow, HasRowAt};

use crate::order::Placed;
use estelle_tree::{Items, Path};
use std::alloc::{AllocError, Global};

/// The enabled transitions of an instance, by their numbers, which rise.
pub struct Row {
    pub path: Path,
    pub numbers: Items<u32>,
}

impl Drop for Row {
    fn drop(self) {
        let Row {
            path: _,
            numbers: _,
        } = self;
    }
}

impl Placed for Row {
    ghost place = { λ r. r.path };

    fn path(&self) -> &Path {
        &self.path
    }
}

/// Puts numbers in place of those of a row, which goes where there are none.
fn replace(rows: &mut Vec<Row>, at: usize, numbers: Items<u32>)
    requires { at < length rows.old.items }
    ensures { HasRow at numbers rows.old.items rows.new.items }
{
    if numbers.is_empty() {
        rows.remove(at);
    } else {
        rows[at].numbers = numbers;
    }
}

/// Puts a row in its place, if it has numbers.
fn add(
    rows: &mut Vec<Row>,
    alloc: Global,
    at: usize,
    path: &Path,
    numbers: Items<u32>,
) -> Result<(), AllocError>
    requires { at ≤ length rows.old.items }
    ensures ok { OnOk result (HasNewRow at path.now numbers rows.old.items rows.new.items) }
    ensures err { OnErr result (rows.new.items ≡ rows.old.items) }
{
    if numbers.is_empty() {
        return Ok(());
    }
    let path = path.copy(alloc)?;
    rows.insert(at, Row { path, numbers })?;
    Ok(())
}

/// Puts the numbers of an instance in place of its row, where a search found one, or else in a row of their own. Without
/// numbers it has no row.
pub fn put_row(
    rows: &mut Vec<Row>,
    alloc: Global,
    place: Result<usize, usize>,
    path: &Path,
    numbers: Items<u32>,
) -> Result<(), AllocError>
    requires { IsSearchInRange place (length rows.old.items) }
    ensures ok { OnOk result (HasRowAt place path.now numbers rows.old.items rows.new.items) }
    ensures err { OnErr result (rows.new.items ≡ rows.old.items) }
{
    match place {
        Ok(at) => {
            replace(rows, at, numbers);
            Ok(())
        }
        Err(at) => add(rows, alloc, at, path, numbers),
    }
}
