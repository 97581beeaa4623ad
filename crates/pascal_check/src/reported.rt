//! The breach that is reported of all sites.

ghost use Rattle.std.specs.Prelude.{◌≡◌, nat_eq, None, IfOk, IfNone, IfSome};
ghost use Rattle.indexmap.specs.IndexSet.{contains};
ghost use Rattle.scope_rules.specs.declared.refusal.Breach.{Breach};
ghost use Rattle.scope_rules.specs.Least.{IsLeast};
ghost use Rattle.type_rules.specs.PascalRules.{SiteRuleBroken};
ghost use Rattle.pascal_check.specs.Faults.{first_after};

use crate::open_routines::open_routines;
use crate::rules::breach_at;
use indexmap::IndexSet;
use scope_rules::{Breach, noted};
use std::alloc::{AllocError, Global};
use type_rules::PlacedSite;

/// Of what the sites break the one that is reported, where these routines are open.
fn first_breach(opened: &IndexSet<u32>, sites: &[PlacedSite]) -> Option<Breach>
    ensures { result ≡ first_after (contains nat_eq opened.now) None sites.now }
{
    let mut first = None;
    for placed in sites {
        first = noted(first, breach_at(opened, placed));
    }
    first
}

/// Of all breaches of the rules 40 to 48 at these sites the one that is reported: the one with the least rule, and of
/// those of one rule the first in the text. None where there is no breach.
pub fn judge(alloc: Global, sites: &[PlacedSite]) -> Result<Option<Breach>, AllocError>
    ensures kept { IfOk result (λ first. IfNone first ((b : Breach) → ¬ (SiteRuleBroken sites.now b))) }
    ensures found { IfOk result (λ first. IfSome first (IsLeast (SiteRuleBroken sites.now))) }
{
    let opened = open_routines(alloc, sites)?;
    Ok(first_breach(&opened, sites))
}
