//! A flat transition by where it stands in the text.

ghost use Rattle.std.specs.Prelude.{◌≡◌, ◌++◌, IfOk, OnOk, option_map, option_to_list};
ghost use Rattle.std.specs.Option.{option_copied};
ghost use Rattle.std.specs.Result.{result_ok};
ghost use Rattle.estelle_model.specs.Types.{ordinal_of};
ghost use Rattle.flat_transitions.specs.FlatList as flat;

use crate::choice::Choice;
use crate::clauses::{Delay, When};
use crate::flat::{FlatTrans, FromStates, Limit};
use crate::transition::{Transition, Transitions};
use estelle_tree::{DelayHigh, Expr, Items, Span, Word};
use meaning_table::ordinal_of;
use std::alloc::{AllocError, Global};

fn received(alloc: Global, when: Option<&When>) -> Result<Option<(u32, Word)>, AllocError>
    ensures { IfOk result (λ name. name ≡ option_map flat.received (option_copied when.entry)) }
{
    match when {
        None => Ok(None),
        Some(when) => Ok(Some((when.ip(), when.name().word.copy(alloc)?))),
    }
}

fn condition(provided: Option<&Expr>) -> Option<Span>
    ensures { result ≡ option_map flat.span_of (option_copied provided.entry) }
{
    match provided {
        None => None,
        Some(expr) => Some(expr.span),
    }
}

fn limit(high: &Option<DelayHigh>) -> Limit
    ensures { result ≡ flat.limit_of high.now }
{
    match high {
        None => Limit::Same,
        Some(DelayHigh::Expr(expr)) => Limit::At(expr.span),
        Some(DelayHigh::Star) => Limit::Never,
    }
}

fn bounds(delay: Option<&Delay>) -> Option<(Span, Limit)>
    ensures { result ≡ option_map flat.delay_of (option_copied delay.entry) }
{
    match delay {
        None => None,
        Some(delay) => Some((delay.low().span, limit(delay.high()))),
    }
}

fn push_ordinal(out: &mut Items<i64>, choice: &Choice) -> Result<(), AllocError>
    ensures { OnOk result (out.new ≡ out.old ++ option_to_list (result_ok (ordinal_of choice.now.value))) }
{
    match ordinal_of(&choice.value()) {
        Some(ordinal) => out.push(ordinal),
        None => Ok(()),
    }
}

/// The ordinals of chosen values.
fn ordinals(alloc: Global, chosen: &[Choice]) -> Result<Items<i64>, AllocError>
    ensures { IfOk result (λ ordinals. ordinals ≡ flat.ordinals_of chosen.now) }
{
    let mut ordinals = Items::new(alloc);
    for choice in chosen {
        push_ordinal(&mut ordinals, choice)?;
    }
    Ok(ordinals)
}

fn flat_trans(alloc: Global, number: u32, transition: &Transition) -> Result<FlatTrans, AllocError>
    ensures { IfOk result (λ shown. shown ≡ flat.flat_trans number transition.now) }
{
    Ok(FlatTrans {
        number,
        from: FromStates::of(transition.from())?,
        to: transition.to(),
        when: received(alloc, transition.when())?,
        provided: condition(transition.provided()),
        priority: transition.priority(),
        delay: bounds(transition.delay()),
        any: ordinals(alloc, transition.chosen())?,
        block: transition.block().span,
    })
}

/// Transitions with numbers from 1 on.
pub fn numbered(alloc: Global, transitions: &Transitions) -> Result<Items<FlatTrans>, AllocError>
    ensures { IfOk result (λ shown. shown ≡ flat.numbered_from 1 transitions.now) }
{
    let count = transitions.len();
    let items = transitions.items();
    let mut shown = Items::new(alloc);
    for number in 0..count {
        shown.push(flat_trans(alloc, number + 1, &items[number as usize])?)?;
    }
    Ok(shown)
}
