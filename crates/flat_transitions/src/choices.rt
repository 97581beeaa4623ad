//! The choices of values for the names of `any` on a way, one by one by their numbers.

ghost use Rattle.std.specs.Prelude.{◌≡◌, ◌<◌, ◌++◌, ◌∷◌, List, map, pos, ◌+ℤ◌, IfOk, OnOk};
ghost use Rattle.pascal_values.specs.Shapes as shapes;
ghost use Rattle.estelle_model.specs.Transitions as model;
ghost use Rattle.flat_transitions.specs.declared.any_names.AnyName as declared;
ghost use Rattle.flat_transitions.specs.Choices as spec;
ghost use Rattle.meaning_table.specs.Known.{meanings_of};

use crate::any_names::{AnyName, any_names};
use crate::choice::Choice;
use crate::counting::{item_count, variants_of};
use crate::shared::Shared;
use estelle_tree::{AnyDom, Clause, Items, Sequence};
use meaning_table::Table;
use std::alloc::{AllocError, Global};

fn push_choices(out: &mut Items<Choice>, chosen: &[Choice]) -> Result<(), AllocError>
    ensures { OnOk result (out.new ≡ out.old ++ chosen.now) }
{
    for choice in chosen {
        out.push(choice.again())?;
    }
    Ok(())
}

/// How many choices there are for the names behind one, of so many for it and those behind it.
fn behind(count: u32, name: AnyName) -> u32
    ensures { (xs : List declared.AnyName) → 0 < count → count ≡ spec.choice_count (name ∷ xs) → (result ≡ spec.choice_count xs) × (0 < result) }
{
    let size = item_count(name.low, name.high);
    if size == 0 {
        return 0;
    }
    count / size
}

/// The value with a number, counted from 0.
fn numbered(name: AnyName, number: u32) -> Choice
    requires { number < shapes.item_count name.low name.high }
    ensures { result ≡ spec.choice_of name (name.low +ℤ pos number) }
{
    Choice::of(name.at, name.host, name.low + i64::from(number))
}

/// The choice with a number, of so many that there are.
fn push_numbered(
    names: &[AnyName],
    count: u32,
    number: u32,
    out: &mut Items<Choice>,
) -> Result<(), AllocError>
    requires counts { count ≡ spec.choice_count names.now }
    requires within { number < count }
    ensures { OnOk result (out.new ≡ out.old ++ spec.numbered_choice names.now number) }
{
    let mut below = count;
    let mut rest = number;
    for name in names {
        below = behind(below, *name);
        out.push(numbered(*name, rest / below))?;
        rest %= below;
    }
    Ok(())
}

/// The choice with a number, behind one for other names.
fn choice_with(
    alloc: Global,
    before: &[Choice],
    names: &[AnyName],
    count: u32,
    number: u32,
) -> Result<Shared<Choice>, AllocError>
    requires counts { count ≡ spec.choice_count names.now }
    requires within { number < count }
    ensures { IfOk result (λ chosen. chosen ≡ before.now ++ spec.numbered_choice names.now number) }
{
    let mut chosen = Items::new(alloc);
    push_choices(&mut chosen, before)?;
    push_numbered(names, count, number, &mut chosen)?;
    Shared::of(alloc, chosen)
}

/// All choices, behind one for other names.
fn push_all(
    alloc: Global,
    before: &[Choice],
    names: &[AnyName],
    count: u32,
    out: &mut Items<Shared<Choice>>,
) -> Result<(), AllocError>
    requires { count ≡ spec.choice_count names.now }
    ensures { OnOk result (out.new ≡ out.old ++ map (λ c. before.now ++ c) (spec.choices_from names.now 0 count)) }
{
    for number in 0..count {
        out.push(choice_with(alloc, before, names, count, number)?)?;
    }
    Ok(())
}

/// Each choice for the names before, with each one for these names.
fn joined_each(
    alloc: Global,
    before: &[Shared<Choice>],
    names: &[AnyName],
    count: u32,
) -> Result<Items<Shared<Choice>>, AllocError>
    requires { count ≡ spec.choice_count names.now }
    ensures { IfOk result (λ choices. choices ≡ spec.joined before.now (spec.choices_from names.now 0 count)) }
{
    let mut choices = Items::new(alloc);
    for chosen in before {
        push_all(alloc, chosen.items(), names, count, &mut choices)?;
    }
    Ok(choices)
}

/// Each choice for the names before, with each one for the names of these domains. Where a domain is empty there are none,
/// however many values the others have.
fn joined(
    table: &Table,
    before: &[Shared<Choice>],
    domains: &[AnyDom],
) -> Result<Items<Shared<Choice>>, AllocError>
    ensures { IfOk result (λ choices. choices ≡ spec.joined before.now (model.choices (meanings_of table.now) (spec.names_in (meanings_of table.now) domains.now))) }
{
    let names = any_names(table, domains)?;
    let count = variants_of(table, domains);
    if count == u32::MAX {
        return Err(AllocError);
    }
    joined_each(table.alloc, before, names.items(), count)
}

/// The choices behind one more clause.
pub fn choices_with(
    table: &Table,
    before: &Shared<Shared<Choice>>,
    clause: &Clause,
) -> Result<Shared<Shared<Choice>>, AllocError>
    ensures { IfOk result (λ choices. choices ≡ spec.grown_clause (meanings_of table.now) before.now clause.now) }
{
    match clause {
        Clause::Any { domains, .. } => Shared::of(
            table.alloc,
            joined(table, before.items(), domains.items())?,
        ),
        _ => before.share(),
    }
}
