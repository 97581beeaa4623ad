//! Statements (ISO 7185, 6.8).

ghost use Rattle.body_state.specs.Follows.{Follows};
ghost use Rattle.body_walker_blocks.specs.Walked as walked;

use crate::calls::invoke;
use crate::children::init;
use crate::expressions::{condition, expr, selector_ordinal};
use crate::labels::{exprs_of, labelled};
use crate::linking::{attach, connect, detach, disconnect, release};
use crate::loops::{count, repeat_loop, while_loop};
use crate::output::output;
use crate::scope::Scope;
use crate::variables::target;
use body_state::Walk;
use body_values::Stop;
use estelle_model::{Environment, Meaning};
use estelle_tree::{Args, Case, Expr, Name, Sequence, Stmt, Stmts, Variable};
use pascal_values::Fault;
use std::alloc::Global;

/// Statements, one after another.
#[cycle(walk)]
pub fn stmts(
    scope: &Scope,
    alloc: Global,
    here: &Environment,
    walk: &mut Walk,
    node: &Stmts,
) -> Result<(), Stop>
    ensures { Follows (walked.stmts scope.now here.now node.now) walk.old result walk.new }
{
    for inner in node.stmts.items() {
        stmt(scope, alloc, here, walk, inner)?;
    }
    Ok(())
}

/// A statement.
#[cycle(walk)]
pub fn stmt(
    scope: &Scope,
    alloc: Global,
    here: &Environment,
    walk: &mut Walk,
    node: &Stmt,
) -> Result<(), Stop>
    ensures { Follows (walked.stmt scope.now here.now node.now) walk.old result walk.new }
{
    match node {
        Stmt::Empty => Ok(()),
        Stmt::Assign {
            variable,
            value,
            ..
        } => assign(scope, alloc, here, walk, variable, value),
        Stmt::Call { name, args, .. } => procedure(scope, alloc, here, walk, name, args),
        Stmt::Begin { stmts: inner, .. } => stmts(scope, alloc, here, walk, inner),
        Stmt::If {
            condition: test,
            then_part,
            else_part,
            ..
        } => {
            if condition(scope, alloc, here, walk, test)? {
                return stmt(scope, alloc, here, walk, then_part.get());
            }
            match else_part {
                None => Ok(()),
                Some(else_part) => stmt(scope, alloc, here, walk, else_part.get()),
            }
        }
        Stmt::While {
            condition: test,
            body,
            ..
        } => while_loop(scope, alloc, here, walk, test, body.get()),
        Stmt::Repeat {
            stmts: inner,
            condition: test,
            ..
        } => repeat_loop(scope, alloc, here, walk, inner, test),
        Stmt::Count {
            variable,
            first,
            direction,
            last,
            body,
            ..
        } => count(
            scope,
            alloc,
            here,
            walk,
            variable,
            first,
            *direction,
            last,
            body.get(),
        ),
        Stmt::Case {
            selector,
            cases,
            ..
        } => select(scope, alloc, here, walk, selector, cases.items()),
        Stmt::Init {
            modvar,
            body,
            args,
            ..
        } => init(scope, alloc, here, walk, modvar, body, args),
        Stmt::Release { modvar, .. } => release(scope, alloc, here, walk, modvar),
        Stmt::Connect { first, second, .. } => connect(scope, alloc, here, walk, first, second),
        Stmt::Disconnect { ip, .. } => disconnect(scope, alloc, here, walk, ip),
        Stmt::Attach {
            own,
            modvar,
            ip,
            ..
        } => attach(scope, alloc, here, walk, own, modvar, ip),
        Stmt::Detach { own, .. } => detach(scope, alloc, here, walk, own),
        Stmt::Output {
            ip,
            interaction,
            args,
            ..
        } => output(scope, alloc, here, walk, ip, interaction, args),
    }
}

/// An assignment: the left side with its indices, then the right side, then the fit.
#[cycle(walk)]
fn assign(
    scope: &Scope,
    alloc: Global,
    here: &Environment,
    walk: &mut Walk,
    variable: &Variable,
    value: &Expr,
) -> Result<(), Stop>
    ensures { Follows (walked.assign scope.now here.now variable.now value.now) walk.old result walk.new }
{
    let to = target(scope, alloc, here, walk, variable)?;
    let value = expr(scope, alloc, here, walk, value)?;
    walk.store(alloc, to.denoter, &to.place, value)
}

/// A procedure statement.
#[cycle(walk)]
fn procedure(
    scope: &Scope,
    alloc: Global,
    here: &Environment,
    walk: &mut Walk,
    name: &Name,
    args: &Option<Args>,
) -> Result<(), Stop>
    ensures { Follows (walked.procedure scope.now here.now name.now args.now) walk.old result walk.new }
{
    match scope.meaning(name) {
        Meaning::Called(routine) => {
            invoke(scope, alloc, here, walk, routine, exprs_of(args))?;
            Ok(())
        }
        _ => Err(Stop::Broken),
    }
}

/// A `case`: the statement of the first case with a label that is the selector.
#[cycle(walk)]
fn select(
    scope: &Scope,
    alloc: Global,
    here: &Environment,
    walk: &mut Walk,
    selector: &Expr,
    cases: &[Case],
) -> Result<(), Stop>
    ensures { Follows (walked.select scope.now here.now selector.now cases.now) walk.old result walk.new }
{
    let number = selector_ordinal(scope, alloc, here, walk, selector)?;
    match labelled(scope, number, cases)? {
        None => Err(Stop::Fault(Fault::NoCase)),
        Some(body) => stmt(scope, alloc, here, walk, body),
    }
}
