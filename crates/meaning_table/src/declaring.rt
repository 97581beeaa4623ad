//! Names that are declared one after another.

ghost use Rattle.std.specs.Prelude.{◌≡◌, ◌+◌, length, IfOk};
ghost use Rattle.estelle_model.specs.Denoted.{rising};
ghost use Rattle.meaning_table.specs.Known.{with_meanings};
ghost use Rattle.meaning_table.specs.Kinds as kinds;

use crate::kinds::{PlainKind, VariableKind, plain_meaning, variable_meaning};
use crate::table::Table;
use estelle_model::Type;
use estelle_tree::Name;
use std::alloc::AllocError;

/// The number behind another, or behind several.
pub fn behind(number: u32, count: usize) -> Result<u32, AllocError>
    ensures { IfOk result (λ n. n ≡ number + count) }
{
    match u32::try_from(count) {
        Ok(count) => match number.checked_add(count) {
            Some(next) => Ok(next),
            None => Err(AllocError),
        },
        Err(_) => Err(AllocError),
    }
}

/// Variables of one type, with rising numbers. It answers the number behind them.
pub fn declare_variables(
    table: &mut Table,
    kind: VariableKind,
    names: &[Name],
    first: u32,
    denoter: &Type,
) -> Result<u32, AllocError>
    ensures { IfOk result (λ next. (table.new ≡ with_meanings table.old (rising (kinds.variable_meaning kind denoter.now) first names.now)) × (next ≡ first + length names.now)) }
{
    let mut number = first;
    for name in names {
        table.declare(name.span.start, variable_meaning(kind, denoter, number)?)?;
        number = behind(number, 1)?;
    }
    Ok(number)
}

/// Names that have a number alone, with rising numbers. It answers the number behind them.
pub fn declare_plain(
    table: &mut Table,
    kind: PlainKind,
    names: &[Name],
    first: u32,
) -> Result<u32, AllocError>
    ensures { IfOk result (λ next. (table.new ≡ with_meanings table.old (rising (kinds.plain_meaning kind) first names.now)) × (next ≡ first + length names.now)) }
{
    let mut number = first;
    for name in names {
        table.declare(name.span.start, plain_meaning(kind, number))?;
        number = behind(number, 1)?;
    }
    Ok(number)
}
