//! Guards on trees.

ghost use Rattle.std.specs.Prelude.{◌≡◌};

use crate::plain::guard_plain;
use body_jobs::Guards;
use body_program::Program;
use body_state::View;
use estelle_model::{Guard, Interaction};
use estelle_tree::Path;
use std::alloc::{AllocError, Global};
use std::marker::Model;

/// Evaluates the guards of a program on its trees; it is seen as the program is.
#[derive(Drop)]
pub struct ByTrees<'a> {
    program: &'a Program<'a>,
}

impl<'a> Model for ByTrees<'a> {
    ghost use Rattle.std.specs.Coded.{codes};
    ghost use Rattle.estelle_tree.specs.contracts.tree.specification.Spec as of_specs;
    ghost use Rattle.estelle_model.specs.Subject.{Subject};

    ghost Value = { Subject };

    ghost coded = { Prim.hlevel (codes, of_specs.the_row.coded) };

    ghost view = { λ t. t.program.now };
}

impl<'a> ByTrees<'a> {
    pub fn of(program: &'a Program<'a>) -> ByTrees<'a>
        ensures { result ≡ program.now }
    {
        ByTrees { program }
    }
}

impl Guards for ByTrees<'_> {
    ghost subject = { λ trees. trees };

    fn guard(
        &self,
        alloc: Global,
        path: &Path,
        view: &View,
        trans: u32,
        head: Option<&Interaction>,
        timed: bool,
        budget: u32,
    ) -> Result<Guard, AllocError> {
        guard_plain(alloc, self.program, path, view, trans, head, timed, budget)
    }
}
