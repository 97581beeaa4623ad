//! The end of a trace.

ghost use Rattle.std.specs.Prelude.{◌≡◌, ◌↔◌, [], length, IsTrue, IfOk, Contains};
ghost use Rattle.estelle_model.specs.Attributes.{IsSystem};
ghost use Rattle.estelle_model.specs.Ends.{IsDead, Closes};
ghost use Rattle.transition_select.specs.declared.countings.Counting.{Counting as Seen};

use crate::equality::same_kind;
use crate::judged_part::JudgedPart;
use body_walker::ByTrees;
use estelle_model::End;
use estelle_tree::Path;
use selection_check::Counting;
use situation_offers::Offering;
use std::alloc::{AllocError, Global};

/// Whether no transition is counted.
fn none_counted(counts: &[Counting]) -> bool
    ensures { IsTrue result ↔ ((c : Seen) → Contains counts.now c → c.transitions.items ≡ []) }
{
    for counting in counts {
        if !counting.transitions.is_empty() {
            return false;
        }
    }
    true
}

impl JudgedPart<'_> {
    ghost use Rattle.trace_check.specs.Going.{AreOff};
    ghost use Rattle.trace_check.specs.JudgedParts.{IsOpen, IsJudgedPart, now};

    /// Whether no transition at or below a system is enabled.
    fn is_off(&self, alloc: Global, system: &Path) -> Result<bool, AllocError>
        requires open { IsOpen self.now }
        requires is_system { IsSystem self.now.state.program.now (now self.now) system.now }
        ensures { IfOk result (λ off. IsTrue off ↔ (AreOff self.now.state.program.now self.now.state.budget (now self.now) system.now)) }
    {
        let guards = ByTrees::of(self.state.program);
        let offering = self.state.ask(alloc, &guards, system, self.state.moment)?;
        match offering {
            Offering::Faults { .. } => Ok(false),
            Offering::Counts { counts, wanted } => {
                if !wanted.is_empty() {
                    return Ok(false);
                }
                Ok(none_counted(&counts))
            }
        }
    }

    /// Whether no transition of any instance is enabled. Those that have transitions are at or below systems.
    fn all_off(&self, alloc: Global) -> Result<bool, AllocError>
        requires { IsOpen self.now }
        ensures { IfOk result (λ off. IsTrue off ↔ (AreOff self.now.state.program.now self.now.state.budget (now self.now) [])) }
    {
        let root = Path::root(alloc);
        // The root is always there.
        let Ok(parts) = self.state.shared.tree.below(alloc, &root) else {
            return Err(AllocError);
        };
        for part in &parts {
            if !self.state.is_system(&part.path) {
                continue;
            }
            if !self.is_off(alloc, &part.path)? {
                return Ok(false);
            }
        }
        Ok(true)
    }

    /// Whether nothing can happen any more.
    fn is_dead(&self, alloc: Global) -> Result<bool, AllocError>
        requires { IsOpen self.now }
        ensures { IfOk result (λ dead. IsTrue dead ↔ (IsDead self.now.state.program.now self.now.state.budget (now self.now))) }
    {
        if !self.state.untaken.is_empty() {
            return Ok(false);
        }
        self.all_off(alloc)
    }

    /// Whether the run may end so after all its events.
    pub(crate) fn may_end(&self, alloc: Global, end: End) -> Result<bool, AllocError>
        requires keeps { IsJudgedPart self.now }
        requires all { self.now.count ≡ length self.now.events.now }
        ensures { IfOk result (λ may. IsTrue may ↔ (Closes self.now.state.program.now self.now.state.budget self.now.events.now end)) }
    {
        match self.fault {
            None => match end {
                End::Dead => self.is_dead(alloc),
                End::Turns => Ok(true),
                End::Clock => Ok(true),
                End::Faulted(_) => Ok(false),
            },
            Some(own) => match end {
                End::Dead => Ok(false),
                End::Turns => Ok(false),
                End::Clock => Ok(false),
                End::Faulted(kind) => Ok(same_kind(own, kind)),
            },
        }
    }
}
