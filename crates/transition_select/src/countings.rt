//! What instances count, and what they offer of it.

ghost use Rattle.std.specs.Prelude.{◌≡◌, ℕ, IfOk};
ghost use Rattle.estelle_tree.specs.Paths.{Path as Seen};
ghost use Rattle.estelle_model.specs.Subject.{Subject};
ghost use Rattle.estelle_model.specs.Situation.{Situation};
ghost use Rattle.estelle_model.specs.Selection.{is_higher};
ghost use Rattle.estelle_model.specs.Schedule.{offered};
ghost use Rattle.transition_select.specs.Offers.{AreOffers, IsOffer};
ghost use Rattle.transition_select.specs.Countings as spec;

use crate::offers::Offer;
use estelle_tree::Path;
use std::alloc::{AllocError, Global};

/// A transition of an instance that may be selected now. A smaller number is a higher priority, and none is the lowest.
#[derive(Clone, Copy, Debug)]
pub struct Countable {
    pub trans: u32,
    pub priority: Option<i64>,
    /// Whether it must be counted: then none of lower priority may be selected, and nothing below the instance.
    pub must: bool,
}

/// Of an instance all transitions that may be selected now.
#[derive(Debug)]
pub struct Counting {
    pub path: Path,
    /// Whether what its children select is taken together. Of others that of one child is taken.
    pub of_process: bool,
    pub transitions: Vec<Countable>,
}

impl Drop for Counting {
    fn drop(self) {
        let Counting {
            path: _,
            of_process: _,
            transitions: _,
        } = self;
    }
}

/// Whether one priority is higher than another.
pub fn is_higher(a: Option<i64>, b: Option<i64>) -> bool
    ensures { result ≡ is_higher a b }
{
    match (a, b) {
        (Some(a), Some(b)) => a < b,
        (Some(_), None) => true,
        (None, _) => false,
    }
}

/// The highest priority of these.
fn highest(counted: &[Countable]) -> Option<i64>
    ensures { result ≡ spec.highest counted.now }
{
    let mut highest = None;
    for other in counted {
        if is_higher(other.priority, highest) {
            highest = other.priority;
        }
    }
    highest
}

/// Those that are not below a priority.
fn not_below(
    alloc: Global,
    most: Option<i64>,
    counted: &[Countable],
) -> Result<Vec<u32>, AllocError>
    ensures { IfOk result (λ numbers. numbers.items ≡ spec.not_below most counted.now) }
{
    let mut numbers = Vec::new(alloc);
    for one in counted {
        if !is_higher(most, one.priority) {
            numbers.push(one.trans)?;
        }
    }
    Ok(numbers)
}

/// Of the transitions of an instance that may be selected those that it offers: those over which none has priority. An error is
/// want of memory.
pub fn offered(alloc: Global, counted: &[Countable]) -> Result<Vec<u32>, AllocError>
    ensures { (s : Subject) (budget : ℕ) (g : Situation) (m : Seen) → spec.AreCountedOf s budget g m counted.now → IfOk result (λ numbers. numbers.items ≡ offered s budget g m) }
{
    not_below(alloc, highest(counted), counted)
}

/// What an instance offers of what it counts.
fn offer_of(alloc: Global, counting: &Counting) -> Result<Offer, AllocError>
    ensures path { IfOk result (λ offer. offer.path ≡ counting.now.path) }
    ensures offer { (s : Subject) (budget : ℕ) (g : Situation) → spec.IsCounting s budget g counting.now → IfOk result (IsOffer s budget g) }
{
    Ok(Offer {
        path: counting.path.copy(alloc)?,
        of_process: counting.of_process,
        offered: offered(alloc, &counting.transitions)?,
    })
}

/// What an instance and all below it offer of what they count, in path order. An error is want of memory.
pub fn offers_of(alloc: Global, counts: &[Counting]) -> Result<Vec<Offer>, AllocError>
    ensures { (s : Subject) (budget : ℕ) (g : Situation) (m : Seen) → spec.AreCountings s budget g m counts.now → IfOk result (λ offers. AreOffers s budget g m offers.items) }
{
    let mut offers = Vec::new(alloc);
    for counting in counts {
        offers.push(offer_of(alloc, counting)?)?;
    }
    Ok(offers)
}
