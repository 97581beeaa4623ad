//! Who evaluates guards.

ghost use Rattle.std.specs.Prelude.{IfOk};
ghost use Rattle.std.specs.Option.{option_copied};
ghost use Rattle.estelle_model.specs.Asked.{IsGuard};
ghost use Rattle.body_state.specs.InOrder.{InOrder};

use body_state::View;
use estelle_model::{Guard, Interaction};
use estelle_tree::Path;
use std::alloc::{AllocError, Global};

/// Who evaluates the guards of a specification: by compiled code, or on the trees.
pub trait Guards {
    ghost use Rattle.estelle_model.specs.Subject.{Subject};

    /// The specification.
    ghost subject: { Self → Subject };

    /// The guard of an instance's transition with a number. The error is want of memory.
    fn guard(
        &self,
        alloc: Global,
        path: &Path,
        view: &View,
        trans: u32,
        head: Option<&Interaction>,
        timed: bool,
        budget: u32,
    ) -> Result<Guard, AllocError>
        requires { InOrder view.now.parts }
        ensures { IfOk result (λ answer. IsGuard (subject self.now) path.now view.now trans (option_copied head.entry) timed budget answer) };
}
