//! The priority of a flat transition, in which a name of `any` is a constant with the chosen value.

ghost use Rattle.std.specs.Prelude.{◌≡◌, fold, option_and_then};
ghost use Rattle.std.specs.Option.{option_copied};
ghost use Rattle.std.specs.Result.{result_ok};
ghost use Rattle.estelle_model.specs.Operators.{◌>>>◌};
ghost use Rattle.estelle_model.specs.Types.{ordinal_of};
ghost use Rattle.estelle_model.specs.Constants as constants;
ghost use Rattle.estelle_model.specs.Transitions as model;
ghost use Rattle.flat_transitions.specs.Chosen as spec;
ghost use Rattle.flat_transitions.specs.Flat.{with_chosen};

use crate::choice::Choice;
use crate::clauses::Priority;
use estelle_tree::{Const, Name, Sign};
use meaning_table::{Table, ordinal_by_sign, ordinal_named, ordinal_of_const};

/// The last choice for the name that is declared there.
fn chosen_at(chosen: &[Choice], at: u32) -> Option<&Choice>
    ensures { option_copied result ≡ spec.chosen_at chosen.now at }
{
    let mut found = None;
    for choice in chosen {
        if at == choice.at() {
            found = Some(choice);
        }
    }
    found
}

/// The choice that a name in use means, where it means one.
fn chosen_for<'a>(table: &Table, chosen: &'a [Choice], name: &Name) -> Option<&'a Choice>
    ensures { option_copied result ≡ spec.chosen_for table.now chosen.now name.now }
{
    match table.declaration_of(name) {
        None => None,
        Some(decl) => {
            if decl.end == 0 {
                return None;
            }
            chosen_at(chosen, decl.start)
        }
    }
}

/// The ordinal of a name, with or without a sign before it.
fn ordinal_of_name(table: &Table, chosen: &[Choice], sign: Option<Sign>, name: &Name) -> Option<i64>
    ensures { result ≡ result_ok (constants.constant_named (with_chosen table.now chosen.now name.now) >>> constants.by_sign sign >>> ordinal_of) }
{
    match chosen_for(table, chosen, name) {
        Some(choice) => ordinal_by_sign(sign, &choice.value()),
        None => ordinal_named(table.meaning(name), sign),
    }
}

fn ordinal_chosen(table: &Table, chosen: &[Choice], constant: &Const) -> Option<i64>
    ensures { result ≡ result_ok (constants.constant_of (with_chosen table.now chosen.now) constant.now >>> ordinal_of) }
{
    match constant {
        Const::Name { sign, name, .. } => ordinal_of_name(table, chosen, *sign, name),
        _ => ordinal_of_const(table, constant),
    }
}

/// The number behind `priority`.
pub fn priority_by(table: &Table, chosen: &[Choice], priority: &Option<Priority>) -> Option<i64>
    ensures { result ≡ option_and_then (model.number_of (with_chosen table.now chosen.now)) priority.now }
{
    match priority {
        None => None,
        Some(priority) => ordinal_chosen(table, chosen, priority.get()),
    }
}
