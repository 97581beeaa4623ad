//! Statements (ISO 7185, 6.8).

ghost use Rattle.std.specs.Prelude.{◌≡◌, IfOk, OnOk, Some, length};
ghost use Rattle.estelle_model.specs.Types as types;
ghost use Rattle.body_compiler_emission.specs.Drafts.{grown};
ghost use Rattle.body_compiler_emission.specs.Scopes.{scope_of};
ghost use Rattle.body_compiler_emission.specs.Tails.{reached};
ghost use Rattle.body_compiler_emission.specs.EmittedStatements as emitted;

use crate::acts::{attach, connect, detach, disconnect, init, output, release};
use crate::control::{close_turns, control_variable, is_word, open_turns, whole_shape};
use crate::draft::{Draft, number};
use crate::expressions::expr;
use crate::labels::{is_one_of, ordinals};
use crate::names::{accessed, call, exprs_of};
use crate::operators::whole;
use crate::scope::Scope;
use body_code::Instr;
use body_values::result_number;
use estelle_model::{Denoter, Host, Meaning, host_of};
use estelle_tree::{Args, Case, Direction, Expr, Items, Name, Sequence, Stmt, Stmts, Variable};
use pascal_values::Fault;
use std::alloc::AllocError;

/// Statements, one after another.
#[cycle(statements)]
pub fn stmts(scope: &Scope, unit: &mut Draft, node: &Stmts) -> Result<(), AllocError>
    ensures { OnOk result (unit.new ≡ grown (emitted.stmts scope.now node.now) unit.old) }
{
    for inner in node.stmts.items() {
        stmt(scope, unit, inner)?;
    }
    Ok(())
}

/// A statement.
#[cycle(statements)]
#[tactic(auto, using(crate::proofs::StatementSteps::empty_stmt, crate::proofs::StatementSteps::assign_stmt, crate::proofs::StatementSteps::call_stmt, crate::proofs::StatementSteps::begin_stmt, crate::proofs::StatementSteps::if_stmt, crate::proofs::StatementSteps::choose_steps, crate::proofs::StatementSteps::choose_either_steps, crate::proofs::Growth::grown_none, crate::proofs::StatementSteps::while_stmt, crate::proofs::StatementSteps::repeat_stmt, crate::proofs::StatementSteps::count_stmt, crate::proofs::StatementSteps::case_stmt, crate::proofs::StatementSteps::init_stmt, crate::proofs::StatementSteps::release_stmt, crate::proofs::StatementSteps::connect_stmt, crate::proofs::StatementSteps::disconnect_stmt, crate::proofs::StatementSteps::attach_stmt, crate::proofs::StatementSteps::detach_stmt, crate::proofs::StatementSteps::output_stmt))]
fn stmt(scope: &Scope, unit: &mut Draft, node: &Stmt) -> Result<(), AllocError>
    ensures { OnOk result (unit.new ≡ grown (emitted.stmt scope.now node.now) unit.old) }
{
    match node {
        Stmt::Empty => Ok(()),
        Stmt::Assign {
            variable,
            value,
            ..
        } => assign(scope, unit, variable, value),
        Stmt::Call { name, args, .. } => procedure(scope, unit, name, args),
        Stmt::Begin { stmts: inner, .. } => stmts(scope, unit, inner),
        Stmt::If {
            condition,
            then_part,
            else_part,
            ..
        } => {
            expr(scope, unit, condition)?;
            let test = unit.hole(Instr::Jfalse(0))?;
            stmt(scope, unit, then_part.get())?;
            let end = unit.hole(Instr::Jump(0))?;
            match else_part {
                None => {
                    unit.close_fork(test, end)?;
                    Ok(())
                }
                Some(else_part) => {
                    stmt(scope, unit, else_part.get())?;
                    unit.close_fork(test, end)?;
                    Ok(())
                }
            }
        }
        Stmt::While {
            condition,
            body,
            ..
        } => while_loop(scope, unit, body.get(), condition),
        Stmt::Repeat {
            stmts: inner,
            condition,
            ..
        } => repeat_loop(scope, unit, inner, condition),
        Stmt::Count {
            variable,
            first,
            direction,
            last,
            body,
            ..
        } => count(scope, unit, body.get(), variable, first, *direction, last),
        Stmt::Case {
            selector,
            cases,
            ..
        } => select(scope, unit, cases.items(), selector),
        Stmt::Init {
            modvar,
            body,
            args,
            ..
        } => init(scope, unit, modvar, body, args),
        Stmt::Release { modvar, .. } => release(scope, unit, modvar),
        Stmt::Connect { first, second, .. } => connect(scope, unit, first, second),
        Stmt::Disconnect { ip, .. } => disconnect(scope, unit, ip),
        Stmt::Attach {
            own,
            modvar,
            ip,
            ..
        } => attach(scope, unit, own, modvar, ip),
        Stmt::Detach { own, .. } => detach(scope, unit, own),
        Stmt::Output {
            ip,
            interaction,
            args,
            ..
        } => output(scope, unit, ip, interaction, args),
    }
}

/// What stands on the left of an assignment: a variable, or the result of the function that runs.
#[tactic(auto, using(crate::proofs::StatementSteps::result_target))]
fn target<'t>(
    scope: &'t Scope,
    unit: &mut Draft,
    variable: &Variable,
) -> Result<&'t Denoter, AllocError>
    ensures { IfOk result (λ d. Some (unit.new, d.now) ≡ reached (emitted.target scope.now variable.now) unit.old) }
{
    let meaning = scope.meaning(&variable.name);
    match meaning {
        Meaning::Called(routine) => match &routine.result {
            None => Err(AllocError),
            Some(denoter) => {
                let local = scope.local(number(result_number(routine))?)?;
                unit.push(Instr::Loc(local))?;
                Ok(denoter.denoter())
            }
        },
        _ => {
            let denoter = accessed(scope, unit, meaning, variable.selectors.items())?;
            Ok(denoter)
        }
    }
}

/// An assignment: the left side with its indices, then the right side, then the fit.
#[tactic(auto, using(crate::proofs::StatementSteps::assign_steps))]
fn assign(
    scope: &Scope,
    unit: &mut Draft,
    variable: &Variable,
    value: &Expr,
) -> Result<(), AllocError>
    ensures { OnOk result (unit.new ≡ grown (emitted.assign scope.now variable.now value.now) unit.old) }
{
    let denoter = target(scope, unit, variable)?;
    let shape = scope.shape(denoter)?;
    expr(scope, unit, value)?;
    unit.push(Instr::Store(shape))
}

/// A procedure statement.
#[tactic(auto, using(crate::proofs::StatementSteps::procedure_is))]
fn procedure(
    scope: &Scope,
    unit: &mut Draft,
    name: &Name,
    args: &Option<Args>,
) -> Result<(), AllocError>
    ensures { OnOk result (unit.new ≡ grown (emitted.procedure scope.now name.now args.now) unit.old) }
{
    match scope.meaning(name) {
        Meaning::Called(routine) => match &routine.result {
            None => call(scope, unit, exprs_of(args), name, routine),
            Some(_) => Err(AllocError),
        },
        _ => Err(AllocError),
    }
}

/// A `while`, whose test stands behind its body.
#[cycle(statements)]
#[tactic(auto, using(crate::proofs::StatementSteps::while_steps))]
fn while_loop(
    scope: &Scope,
    unit: &mut Draft,
    body: &Stmt,
    condition: &Expr,
) -> Result<(), AllocError>
    ensures { OnOk result (unit.new ≡ grown (emitted.while_loop scope.now condition.now body.now) unit.old) }
{
    let entry = unit.hole(Instr::Jump(0))?;
    stmt(scope, unit, body)?;
    let test = unit.address()?;
    expr(scope, unit, condition)?;
    unit.close_loop(entry, test)
}

#[cycle(statements)]
#[tactic(auto, using(crate::proofs::StatementSteps::repeat_steps))]
fn repeat_loop(
    scope: &Scope,
    unit: &mut Draft,
    body: &Stmts,
    condition: &Expr,
) -> Result<(), AllocError>
    ensures { OnOk result (unit.new ≡ grown (emitted.repeat_loop scope.now body.now condition.now) unit.old) }
{
    let entry = unit.hole(Instr::Turn)?;
    stmts(scope, unit, body)?;
    expr(scope, unit, condition)?;
    unit.close_repeat(entry)
}

/// A `for`, whose bounds are kept in temporaries.
#[cycle(statements)]
fn count(
    scope: &Scope,
    unit: &mut Draft,
    body: &Stmt,
    variable: &Name,
    first: &Expr,
    direction: Direction,
    last: &Expr,
) -> Result<(), AllocError>
    ensures { OnOk result (unit.new ≡ grown (emitted.count scope.now variable.now first.now direction last.now body.now) unit.old) }
{
    let meaning = scope.meaning(variable);
    let control = control_variable(scope, meaning)?;
    let host = host_of(control.denoter);
    if !is_word(host) {
        return Err(AllocError);
    }
    let bound = host_shape(scope, host)?;
    let kind = scope.shape(control.denoter)?;
    let turn = keep_bound(scope, unit, host, bound, first)?;
    let end = keep_bound(scope, unit, host, bound, last)?;
    let test = open_turns(unit, direction, kind, &control, turn, end)?;
    stmt(scope, unit, body)?;
    close_turns(unit, direction, bound, &control, turn, end, test)?;
    Ok(())
}

/// The number of the shape of a host's whole type.
fn host_shape(scope: &Scope, host: Host) -> Result<u32, AllocError>
    ensures { IfOk result (λ n. (scope_of scope.now).number (types.shape_of (types.whole host)) ≡ Some n) }
{
    let denoter = whole(host);
    let number = scope.shape(&denoter)?;
    Ok(number)
}

/// A temporary of a host's whole type, which keeps a bound of a `for`.
#[tactic(auto, unfolding(crate::specs::EmittedStatements::kept))]
fn keep_bound(
    scope: &Scope,
    unit: &mut Draft,
    host: Host,
    number: u32,
    node: &Expr,
) -> Result<u32, AllocError>
    ensures { IfOk result (λ t. (t ≡ length unit.old.locals) × (unit.new ≡ emitted.kept scope.now host number node.now t unit.old)) }
{
    let temporary = unit.temporary(whole_shape(host))?;
    expr(scope, unit, node)?;
    unit.push(Instr::Store(number))?;
    Ok(temporary)
}

/// A `case`: the ordinal of its selector is kept in a temporary.
#[cycle(statements)]
#[tactic(auto, using(crate::proofs::StatementSteps::select_steps))]
fn select(
    scope: &Scope,
    unit: &mut Draft,
    cases: &[Case],
    selector: &Expr,
) -> Result<(), AllocError>
    ensures { OnOk result (unit.new ≡ grown (emitted.select scope.now selector.now cases.now) unit.old) }
{
    let integer = host_shape(scope, Host::Integer)?;
    let temporary = unit.temporary(whole_shape(Host::Integer))?;
    expr(scope, unit, selector)?;
    unit.push(Instr::Ord)?;
    unit.push(Instr::Store(integer))?;
    first_of(scope, unit, temporary, cases)?;
    Ok(())
}

/// A case, with the address of the jump to the end behind its statement.
#[cycle(statements)]
#[tactic(auto, using(crate::proofs::StatementSteps::chosen_is), unfolding(crate::specs::EmittedStatements::entered_case, crate::specs::EmittedStatements::case_end, crate::specs::EmittedStatements::cased))]
fn case_of(scope: &Scope, unit: &mut Draft, temporary: u32, case: &Case) -> Result<u32, AllocError>
    ensures { IfOk result (λ end. (end ≡ emitted.case_end scope.now temporary case.now unit.old) × (unit.new ≡ emitted.cased scope.now temporary case.now unit.old)) }
{
    let labels = ordinals(scope, case.labels.items())?;
    is_one_of(unit, temporary, labels.as_slice(), 0)?;
    let test = unit.hole(Instr::Jfalse(0))?;
    stmt(scope, unit, &case.body)?;
    let end = unit.hole(Instr::Jump(0))?;
    unit.close_test(test, end)?;
    Ok(end)
}

/// The statement of the first case with the label that a temporary holds.
#[cycle(statements)]
fn first_of(
    scope: &Scope,
    unit: &mut Draft,
    temporary: u32,
    cases: &[Case],
) -> Result<(), AllocError>
    ensures { OnOk result (unit.new ≡ grown (emitted.first_of scope.now temporary cases.now) unit.old) }
{
    let mut ends = Items::new(scope.alloc);
    for case in cases {
        let end = case_of(scope, unit, temporary, case)?;
        ends.push(end)?;
    }
    unit.push(Instr::Fail(Fault::NoCase))?;
    unit.close_ends(ends)?;
    Ok(())
}
