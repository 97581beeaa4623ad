//! The list of a whole specification.

ghost use Rattle.std.specs.Prelude.{◌≡◌, IfOk};
ghost use Rattle.flat_transitions.specs.FlatList as flat;

use crate::bodies::listed;
use crate::flat::Flat;
use body_table::meanings;
use estelle_tree::{Names, Spec};
use std::alloc::{AllocError, Global};

/// The flat transitions of each body of a specification. A clause `any` multiplies them by the values of its names: `count`
/// says beforehand how many there are.
pub fn flat_list(alloc: Global, spec: &Spec, names: &Names) -> Result<Flat, AllocError>
    ensures { IfOk result (λ list. list ≡ flat.flat_list (record { specification = spec.now; names = names.now.uses })) }
{
    let table = meanings(alloc, spec, names)?;
    listed(&table, spec)
}
