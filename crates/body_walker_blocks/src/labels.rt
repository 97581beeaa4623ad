//! The labels of cases, and the arguments of procedure statements.

ghost use Rattle.std.specs.Prelude.{◌≡◌, IfOk};
ghost use Rattle.std.specs.Option.{option_copied};
ghost use Rattle.body_walker_blocks.specs.Scopes.{meanings};
ghost use Rattle.body_values.specs.Gives.{Gives};
ghost use Rattle.estelle_model.specs.Statements.{is_labelled};
ghost use Rattle.body_walker_blocks.specs.Labels as spec;

use crate::scope::Scope;
use body_values::{Stop, ordinal_of, signed};
use estelle_model::Meaning;
use estelle_tree::{Args, Case, Const, Expr, Name, Sequence, Sign, Stmt};
use pascal_values::Value;
use std::alloc::AllocError;

/// The arguments of a procedure statement.
pub fn exprs_of(args: &Option<Args>) -> &[Expr]
    ensures { result.now ≡ spec.exprs_of args.now }
{
    match args {
        None => &[],
        Some(args) => args.exprs.items(),
    }
}

/// The ordinal of a value, behind a sign if there is one.
fn signed_ordinal(sign: Option<Sign>, value: &Value) -> Result<i64, Stop>
    ensures { Gives (spec.signed_ordinal sign value.now) result }
{
    match sign {
        None => ordinal_of(value),
        Some(sign) => {
            let value = signed(sign, value)?;
            ordinal_of(&value)
        }
    }
}

/// The ordinal of a named constant.
fn named_ordinal(scope: &Scope, sign: Option<Sign>, name: &Name) -> Result<i64, Stop>
    ensures { Gives (spec.named_ordinal (meanings scope.now) sign name.now) result }
{
    match scope.meaning(name) {
        Meaning::Constant { value, .. } => signed_ordinal(sign, value),
        _ => Err(Stop::Broken),
    }
}

/// The ordinal of a label.
fn label_ordinal(scope: &Scope, label: &Const) -> Result<i64, Stop>
    ensures { Gives (spec.label_ordinal (meanings scope.now) label.now) result }
{
    match label {
        Const::Number { sign, value, .. } => signed_ordinal(*sign, &Value::Int(*value)),
        Const::Name { sign, name, .. } => named_ordinal(scope, *sign, name),
        Const::Char { value, .. } => Ok(i64::from(*value)),
    }
}

/// Whether a label has this ordinal. What is no constant has none.
fn is_label(scope: &Scope, number: i64, label: &Const) -> Result<bool, AllocError>
    ensures { IfOk result (λ b. b ≡ spec.is_label (meanings scope.now) number label.now) }
{
    match label_ordinal(scope, label) {
        Ok(ordinal) => Ok(ordinal == number),
        Err(Stop::Fault(_)) => Ok(false),
        Err(Stop::Broken) => Ok(false),
        Err(Stop::Memory) => Err(AllocError),
    }
}

fn has_label(scope: &Scope, number: i64, labels: &[Const]) -> Result<bool, AllocError>
    ensures { IfOk result (λ b. b ≡ is_labelled (meanings scope.now) number labels.now) }
{
    for label in labels {
        if is_label(scope, number, label)? {
            return Ok(true);
        }
    }
    Ok(false)
}

/// The statement of the first case with a label of this ordinal, if there is one.
pub fn labelled<'s>(
    scope: &Scope,
    number: i64,
    cases: &'s [Case],
) -> Result<Option<&'s Stmt>, AllocError>
    ensures { IfOk result (λ o. option_copied o ≡ spec.labelled (meanings scope.now) number cases.now) }
{
    for case in cases {
        if has_label(scope, number, case.labels.items())? {
            return Ok(Some(&case.body));
        }
    }
    Ok(None)
}
