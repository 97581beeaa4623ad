//! Operators and required functions, behind operands that are compiled already.

ghost use Rattle.std.specs.Prelude.{◌≡◌, IfOk, OnOk};
ghost use Rattle.estelle_model.specs.Operators as operators;
ghost use Rattle.estelle_model.specs.Types as types;
ghost use Rattle.body_compiler_emission.specs.Drafts.{grown, with_instr};
ghost use Rattle.body_compiler_emission.specs.Scopes.{scope_of};
ghost use Rattle.body_compiler_emission.specs.Tails as spec;
ghost use Rattle.body_compiler_emission.specs.Emitted as emitted;
ghost use Rattle.body_compiler_pieces.specs.ExpressionCode as code;

use crate::draft::Draft;
use crate::scope::Scope;
use body_code::Instr;
use body_values::required_host;
use estelle_model::{Denoter, Host, greatest, least};
use estelle_tree::{Adding, Multiplying, Relation, Required, Sign};
use pascal_values::Value;
use std::alloc::AllocError;

/// The truth value on top itself, and nothing else.
#[tactic(auto, using(crate::proofs::ExpressionSteps::truth_made))]
pub fn truth(unit: &mut Draft) -> Result<(), AllocError>
    ensures { OnOk result (unit.new ≡ grown spec.truth_tail unit.old) }
{
    let test = unit.hole(Instr::Jfalse(0))?;
    unit.push(Instr::Push(Value::Bool(true)))?;
    let end = unit.hole(Instr::Jump(0))?;
    unit.push(Instr::Push(Value::Bool(false)))?;
    unit.close_fork(test, end)
}

pub fn relation(operator: Relation) -> Instr
    ensures { result ≡ spec.relation_instr operator }
{
    match operator {
        Relation::Equal => Instr::Eq,
        Relation::NotEqual => Instr::Ne,
        Relation::Less => Instr::Lt,
        Relation::AtMost => Instr::Le,
        Relation::Greater => Instr::Gt,
        Relation::AtLeast => Instr::Ge,
        Relation::Member => Instr::Has,
    }
}

/// A sign before a first term.
pub fn signed(unit: &mut Draft, sign: Option<Sign>) -> Result<(), AllocError>
    ensures { OnOk result (unit.new ≡ spec.signed sign unit.old) }
{
    match sign {
        None | Some(Sign::Plus) => Ok(()),
        Some(Sign::Minus) => unit.push(Instr::Neg),
    }
}

pub fn signed_host(sign: Option<Sign>, host: Host) -> Host
    ensures { result ≡ spec.signed_host sign host }
{
    match sign {
        None => host,
        Some(_) => Host::Integer,
    }
}

pub fn added_host(operator: Adding) -> Host
    ensures { result ≡ code.added_host operator }
{
    match operator {
        Adding::Or => Host::Boolean,
        Adding::Plus | Adding::Minus => Host::Integer,
    }
}

pub fn multiplied_host(scope: &Scope, operator: Multiplying) -> Host
    ensures { result ≡ code.multiplied_host (scope_of scope.now) operator }
{
    match operator {
        Multiplying::And => Host::Boolean,
        Multiplying::Star | Multiplying::Div | Multiplying::Mod => Host::Integer,
    }
}

/// The whole type of a host.
pub fn whole(host: Host) -> Denoter
    ensures { result ≡ types.whole host }
{
    Denoter::Ordinal {
        host,
        low: least(host),
        high: greatest(host),
    }
}

/// A value of an enumeration is tested against its type.
#[tactic(auto, using(crate::proofs::NameSteps::enumeration_tested, crate::proofs::NameSteps::not_tested))]
pub fn host_test(scope: &Scope, unit: &mut Draft, host: Host) -> Result<(), AllocError>
    ensures { OnOk result (unit.new ≡ grown (emitted.host_test scope.now host) unit.old) }
{
    match host {
        Host::Enumeration { .. } => {
            let number = scope.shape(&whole(host))?;
            unit.push(Instr::Fit(number))
        }
        _ => Ok(()),
    }
}

/// A required function of an argument whose type has this host.
#[tactic(auto, using(crate::proofs::NameSteps::required_one, crate::proofs::NameSteps::succ_tested, crate::proofs::NameSteps::pred_tested))]
pub fn required(
    scope: &Scope,
    unit: &mut Draft,
    function: Required,
    host: Host,
) -> Result<Host, AllocError>
    ensures { IfOk result (λ h. (h ≡ operators.required_host function host) × (unit.new ≡ grown (emitted.required_code scope.now function host) unit.old)) }
{
    match function {
        Required::Abs => unit.push(Instr::Abs)?,
        Required::Sqr => unit.push(Instr::Sqr)?,
        Required::Odd => unit.push(Instr::Odd)?,
        Required::Ord => unit.push(Instr::Ord)?,
        Required::Chr => unit.push(Instr::Chr)?,
        Required::Succ => {
            unit.push(Instr::Succ)?;
            host_test(scope, unit, host)?;
        }
        Required::Pred => {
            unit.push(Instr::Pred)?;
            host_test(scope, unit, host)?;
        }
    }
    Ok(required_host(function, host))
}
