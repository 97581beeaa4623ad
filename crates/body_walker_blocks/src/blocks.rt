//! Blocks of an instance, and expressions in its clauses.

ghost use Rattle.estelle_model.specs.States.{Logged, on_log};
ghost use Rattle.estelle_model.specs.Acts.{act};
ghost use Rattle.estelle_model.specs.Blocks.{block_step, clause_value};
ghost use Rattle.meaning_table.specs.Known.{meanings_of};
ghost use Rattle.body_state.specs.Follows.{Follows};

use crate::calls::within;
use crate::expressions::expr;
use crate::scope::Scope;
use body_state::{ModuleBodies, Walk};
use body_values::Stop;
use estelle_model::{Environment, Routine};
use estelle_tree::{Expr, Items, Path};
use meaning_table::Table;
use pascal_values::{Value, Values};
use std::alloc::Global;

/// A block of an instance, with the values of the interaction that its transition receives. The table tells what
/// names mean in the block, where those of an `any` clause have values.
pub fn block(
    table: &Table,
    bodies: &ModuleBodies,
    alloc: Global,
    walk: &mut Walk,
    path: &Path,
    routine: &Routine,
    values: Values,
) -> Result<(), Stop>
    ensures { Follows (block_step Logged on_log (meanings_of table.now) (act Logged on_log bodies.now (meanings_of table.now)) path.now routine.now values) walk.old result walk.new }
{
    let scope = Scope::new(table, bodies);
    let here = Environment {
        path: path.copy(alloc)?,
        frame: 0,
        references: Items::new(alloc),
    };
    within(&scope, alloc, &here, walk, routine, values)?;
    Ok(())
}

/// An expression in a clause.
pub fn clause(
    table: &Table,
    bodies: &ModuleBodies,
    alloc: Global,
    walk: &mut Walk,
    path: &Path,
    node: &Expr,
) -> Result<Value, Stop>
    ensures { Follows (clause_value Logged on_log (meanings_of table.now) (act Logged on_log bodies.now (meanings_of table.now)) path.now node.now) walk.old result walk.new }
{
    let scope = Scope::new(table, bodies);
    let here = Environment {
        path: path.copy(alloc)?,
        frame: 0,
        references: Items::new(alloc),
    };
    expr(&scope, alloc, &here, walk, node)
}
