//! What the transitions of instances let a system select.

ghost use Rattle.std.specs.Prelude.{◌≡◌, ◌≤◌, length};
ghost use Rattle.selection_check.specs.Countings as spec;

use estelle_tree::{Pair, Path};
use transition_select::{Countable, Counting, is_higher};

/// How many of these, in a row from the first on, are at or below an instance.
pub(crate) fn block_len(path: &Path, counts: &[Counting]) -> usize
    ensures passed { result ≡ spec.block_len path.now counts.now }
    ensures within { result ≤ length counts.now }
{
    let mut count = 0;
    for counting in counts {
        if !path.is_at_or_above(&counting.path) {
            return count;
        }
        count += 1;
    }
    count
}

/// How many of the firings, in a row from the first on, are at or below an instance.
pub(crate) fn takes_len(path: &Path, takes: &[Pair]) -> usize
    ensures passed { result ≡ spec.takes_len path.now takes.now }
    ensures within { result ≤ length takes.now }
{
    let mut count = 0;
    for take in takes {
        if !path.is_at_or_above(&take.path) {
            return count;
        }
        count += 1;
    }
    count
}

/// Whether the first of the firings is at or below an instance.
pub(crate) fn begins_in(path: &Path, takes: &[Pair]) -> bool
    ensures { result ≡ spec.begins_in path.now takes.now }
{
    match takes.first() {
        None => false,
        Some(take) => path.is_at_or_above(&take.path),
    }
}

/// Whether some transition must be counted.
pub(crate) fn must_some(transitions: &[Countable]) -> bool
    ensures { result ≡ spec.must_some transitions.now }
{
    for one in transitions {
        if one.must {
            return true;
        }
    }
    false
}

/// Whether a transition that must be counted has priority over one of this priority.
fn is_below(priority: Option<i64>, transitions: &[Countable]) -> bool
    ensures { result ≡ spec.is_below priority transitions.now }
{
    for other in transitions {
        if other.must && is_higher(other.priority, priority) {
            return true;
        }
    }
    false
}

/// Whether the transition with a number may be selected, and none that must be counted has priority over it.
fn is_eligible(trans: u32, transitions: &[Countable]) -> bool
    ensures { result ≡ spec.is_eligible trans transitions.now }
{
    for one in transitions {
        if one.trans == trans && !is_below(one.priority, transitions) {
            return true;
        }
    }
    false
}

/// Whether the first of the firings is one that the instance may select of its own.
pub(crate) fn takes_own(own: &Counting, takes: &[Pair]) -> bool
    ensures { result ≡ spec.takes_own own.now takes.now }
{
    match takes.first() {
        None => false,
        Some(take) => {
            own.path.items() == take.path.items() && is_eligible(take.trans, &own.transitions)
        }
    }
}
