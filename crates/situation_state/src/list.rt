//! The list of what is pending and was not taken.

ghost use Rattle.std.specs.Prelude.{◌≡◌, ◌↔◌, ◌≤◌, ◌+◌, ◌++◌, length, IsTrue, IfOk, MatchOption, Contains};
ghost use Rattle.std.specs.VecDeque.{deque_len, deque_capacity};
ghost use Rattle.estelle_tree.specs.declared.transition.Pair.{Pair as Seen};
ghost use Rattle.estelle_tree.specs.Paths.{is_inside};
ghost use Rattle.estelle_tree.specs.Timers.{pair};
ghost use Rattle.estelle_model.specs.Runs.{same_pair};
ghost use Rattle.situation_state.specs.Places.{IsPlaceOf};

use crate::state::State;
use estelle_model::Pair;
use estelle_tree::Path;
use std::alloc::{AllocError, Global};
use std::collections::VecDeque;

fn is_of(other: &Pair, path: &Path, trans: u32) -> bool
    ensures { result ≡ same_pair (pair path.now trans) other.now }
{
    path.items() == other.path.items() && trans == other.trans
}

/// The place of a firing in the list, if it is there.
fn place_in(pending: &VecDeque<Pair>, path: &Path, trans: u32) -> Option<usize>
    ensures { MatchOption result (Contains pending.now.items (pair path.now trans) → ⊥) (IsPlaceOf (pair path.now trans) pending.now.items) }
{
    for at in 0..pending.len() {
        if is_of(&pending[at], path, trans) {
            return Some(at);
        }
    }
    None
}

/// Whether no firing at or below an instance is in the list.
fn none_inside(pending: &VecDeque<Pair>, system: &Path) -> bool
    ensures { IsTrue result ↔ ((p : Seen) → Contains pending.now.items p → IsTrue (is_inside system.now p.path) → ⊥) }
{
    for at in 0..pending.len() {
        if system.is_at_or_above(&pending[at].path) {
            return false;
        }
    }
    true
}

fn copy_pair(alloc: Global, pair: &Pair) -> Result<Pair, AllocError>
    ensures { IfOk result (λ copy. copy ≡ pair.now) }
{
    Ok(Pair {
        path: pair.path.copy(alloc)?,
        trans: pair.trans,
    })
}

pub(crate) fn copies(alloc: Global, pairs: &[Pair]) -> Result<VecDeque<Pair>, AllocError>
    ensures { IfOk result (λ copies. copies.items ≡ pairs.now) }
{
    let mut copies = VecDeque::new(alloc);
    for pair in pairs {
        copies.push_back(copy_pair(alloc, pair)?)?;
    }
    Ok(copies)
}

/// These firings behind the others. It takes no memory.
pub(crate) fn append(pending: &mut VecDeque<Pair>, mut takes: VecDeque<Pair>)
    requires { deque_len pending.old + deque_len takes ≤ deque_capacity pending.old }
    ensures { pending.new.items ≡ pending.old.items ++ takes.items }
{
    let Ok(()) = pending.append(&mut takes) else {
        unreachable!()
    };
}

impl State<'_> {
    /// The place of a firing among those that were not taken, if it is there.
    pub fn place(&self, path: &Path, trans: u32) -> Option<usize>
        ensures { MatchOption result (Contains self.now.untaken.items (pair path.now trans) → ⊥) (IsPlaceOf (pair path.now trans) self.now.untaken.items) }
    {
        place_in(&self.untaken, path, trans)
    }

    /// Whether nothing at or below an instance is pending, but for what was taken.
    pub fn is_idle(&self, system: &Path) -> bool
        ensures { IsTrue result ↔ ((p : Seen) → Contains self.now.untaken.items p → IsTrue (is_inside system.now p.path) → ⊥) }
    {
        none_inside(&self.untaken, system)
    }
}
