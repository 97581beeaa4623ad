//! Lists in path order, searched by halves.

ghost use Rattle.std.specs.Prelude.{◌≡◌, ◌≤◌, ◌++◌, ℕ, List, length, take, drop, slice_range, MatchResult};
ghost use Rattle.std.specs.Vec.{vec_capacity};
ghost use Rattle.estelle_tree.specs.Paths.{path_cmp};
ghost use Rattle.offer_table.specs.Order.{InOrder, inside, outside};
ghost use Rattle.offer_table.specs.Searches.{StandsAt, IsGap};

use estelle_tree::Path;
use std::cmp::Ordering;

/// What stands in a list by the path of an instance.
pub trait Placed {
    ghost place: { Self → List ℕ };

    fn path(&self) -> &Path
        ensures { result.now ≡ place self.now };
}

impl Placed for Path {
    ghost place = { λ p. p };

    fn path(&self) -> &Path {
        self
    }
}

/// How two paths stand to each other in path order.
fn compare(a: &Path, b: &Path) -> Ordering
    ensures { result ≡ path_cmp a.now b.now }
{
    a.items().cmp(&b.items())
}

/// The index of what stands at the path, or else that where it would stand.
pub fn find<T: Placed>(items: &[T], path: &Path) -> Result<usize, usize>
    requires { InOrder T.place items.now }
    ensures { MatchResult result (StandsAt T.place path.now items.now) (IsGap T.place path.now items.now) }
{
    items.binary_search_by(|item| compare(item.path(), path))
}

/// From which index on to which what stands at and below the path lies.
fn span<T: Placed>(items: &[T], path: &Path) -> (usize, usize)
    requires { InOrder T.place items.now }
    ensures rising { result.0 ≤ result.1 }
    ensures within { result.1 ≤ length items.now }
    ensures inside { slice_range items.now result.0 result.1 ≡ inside T.place path.now items.now }
    ensures outside { take result.0 items.now ++ drop result.1 items.now ≡ outside T.place path.now items.now }
{
    let from = items.partition_point(|item| compare(item.path(), path).is_lt());
    let len = items[from..].partition_point(|item| path.is_at_or_above(item.path()));
    (from, from + len)
}

/// What stands at and below the path.
pub fn below<'a, T: Placed>(items: &'a [T], path: &Path) -> &'a [T]
    requires { InOrder T.place items.now }
    ensures { result.now ≡ inside T.place path.now items.now }
{
    let (from, to) = span(items, path);
    &items[from..to]
}

/// Removes what stands at and below the path.
pub fn remove_below<T: Placed + Drop>(items: &mut Vec<T>, path: &Path)
    requires { InOrder T.place items.old.items }
    ensures removed { items.new.items ≡ outside T.place path.now items.old.items }
    ensures room { vec_capacity items.new ≡ vec_capacity items.old }
{
    let (from, to) = span(items, path);
    drop(items.drain(from..to));
}
