//! The decision, from an instance downwards.

ghost use Rattle.std.specs.Prelude.{◌≡◌, ◌≢◌, ◌↔◌, ℕ, [], IsTrue};
ghost use Rattle.estelle_tree.specs.Paths.{Path as Seen};
ghost use Rattle.estelle_model.specs.Subject.{Subject};
ghost use Rattle.estelle_model.specs.Situation.{Situation};
ghost use Rattle.estelle_model.specs.Selection.{children, Selects};
ghost use Rattle.estelle_model_legality.specs.Choices.{AreTree};
ghost use Rattle.estelle_model_legality.specs.Pending.{AreInOrder};
ghost use Rattle.transition_select.specs.Countings.{AreCountings};
ghost use Rattle.selection_check.specs.Countings.{AreCountingsBelow};
ghost use Rattle.selection_check.specs.Deciding.{SelectsOne};

use crate::countings::{begins_in, block_len, must_some, takes_len, takes_own};
use estelle_tree::Pair;
use transition_select::Counting;

/// Whether one of the children of an instance, of which and of all below which these are, may select the firings, of which there
/// are some.
#[cycle(selection)]
fn may_select_one(counts: &[Counting], takes: &[Pair]) -> bool
    ensures { (s : Subject) (budget : ℕ) (g : Situation) (m : Seen) → AreTree s g.core.instances → AreInOrder g → AreCountingsBelow s budget g m counts.now → takes.now ≢ [] → IsTrue result ↔ (SelectsOne s budget g (children g m) takes.now) }
{
    let mut rest = counts;
    while let Some((first, others)) = rest.split_first() {
        let (block, after) = rest.split_at(1 + block_len(&first.path, others));
        if begins_in(&first.path, takes) {
            return may_select(block, takes);
        }
        rest = after;
    }
    false
}

/// Whether, at and below an instance, a system may select these firings, and in this order. What is given is of the instance and
/// of all below it, in path order.
#[cycle(selection)]
pub fn may_select(counts: &[Counting], takes: &[Pair]) -> bool
    ensures { (s : Subject) (budget : ℕ) (g : Situation) (m : Seen) → AreTree s g.core.instances → AreInOrder g → AreCountings s budget g m counts.now → IsTrue result ↔ (Selects s budget g m takes.now) }
{
    let mut rest = counts;
    let mut left = takes;
    while let Some((first, others)) = rest.split_first() {
        if takes_own(first, left) {
            let (_, after) = others.split_at(block_len(&first.path, others));
            let (_, more) = left.split_at(1);
            rest = after;
            left = more;
            continue;
        }
        if must_some(&first.transitions) {
            return false;
        }
        // Of an activity below which nothing is selected each child may select nothing, as of a process.
        if first.of_process || !begins_in(&first.path, left) {
            rest = others;
            continue;
        }
        let (below, after) = others.split_at(block_len(&first.path, others));
        let (its, more) = left.split_at(takes_len(&first.path, left));
        if !may_select_one(below, its) {
            return false;
        }
        rest = after;
        left = more;
    }
    left.is_empty()
}
