//! Broken rules, and what is reported of them.

ghost use Rattle.std.specs.Prelude.{◌≡◌};
ghost use Rattle.scope_rules.specs.declared.refusal.Refusal.TheVariants.{Memory};
ghost use Rattle.scope_rules.specs.Least as least;

use estelle_tree::Span;
use std::alloc::AllocError;

/// A rule that is broken, and the node that breaks it.
#[derive(Clone, Copy, Debug, PartialEq, Eq)]
pub struct Breach {
    pub number: u8,
    pub span: Span,
}

/// Why a specification is refused.
#[derive(Clone, Copy, Debug, PartialEq, Eq)]
pub enum Refusal {
    /// The least broken rule, and the first node in the text that breaks it.
    Rule { number: u8, span: Span },
    /// Want of memory.
    Memory,
}

impl From<AllocError> for Refusal {
    ghost from_gives = { λ _ e. e ≡ Memory };

    fn from(_error: AllocError) -> Refusal {
        Refusal::Memory
    }
}

/// Whether one node stands before another; of two that start at one place the outer one does.
fn stands_before(a: Span, b: Span) -> bool
    ensures { result ≡ least.stands_before a b }
{
    a.start < b.start || (a.start == b.start && b.end < a.end)
}

/// Whether one breach is reported rather than another.
fn is_before(a: Breach, b: Breach) -> bool
    ensures { result ≡ least.is_before a b }
{
    a.number < b.number || (a.number == b.number && stands_before(a.span, b.span))
}

/// A breach where something is so.
pub fn only_if(broken: bool, number: u8, span: Span) -> Option<Breach>
    ensures { result ≡ least.only_if broken (least.breach number span) }
{
    if broken {
        return Some(Breach { number, span });
    }
    None
}

/// The one of two that is reported.
pub fn noted(old: Option<Breach>, new: Option<Breach>) -> Option<Breach>
    ensures { result ≡ least.noted old new }
{
    match (old, new) {
        (old, None) => old,
        (None, new) => new,
        (Some(a), Some(b)) => if is_before(b, a) { Some(b) } else { Some(a) },
    }
}
