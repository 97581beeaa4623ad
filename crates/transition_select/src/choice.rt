//! Choices by a chooser, from an instance downwards.

ghost use Rattle.std.specs.Prelude.{◌≡◌, ◌<◌, ◌≤◌, ℕ, List, length, filter, OnOk, IfOk};
ghost use Rattle.estelle_tree.specs.Paths.{Path as Seen};
ghost use Rattle.estelle_tree.specs.Timers.{pair};
ghost use Rattle.estelle_model.specs.Subject.{Subject};
ghost use Rattle.estelle_model.specs.Situation.{Situation};
ghost use Rattle.estelle_model.specs.Choosers as choosers;
ghost use Rattle.estelle_model.specs.Schedule.{is_able, Chosen};
ghost use Rattle.estelle_model_legality.specs.Choices.{AreTree};
ghost use Rattle.transition_select.specs.Offers.{AreOffers, AreOffersOfEach};
ghost use Rattle.transition_select.specs.Spans.{AreSpans};
ghost use Rattle.transition_select.specs.Choosing.{HasChosen, HasChosenOfEach, HasChosenOfOne, IsAbleOne, HasTaken};

use crate::offers::Offer;
use crate::spans::{Span, behind, first_len, offers_some, spans_of};
use estelle_tree::Pair;
use outside::Chooser;
use std::alloc::{AllocError, Global};

/// Picks one of so many candidates by its number; of one the chooser is not asked.
pub fn pick<H: Chooser>(chooser: &mut H, count: usize) -> usize
    requires { 0 < count }
    ensures below { result < count }
    ensures drawn { (result, chooser.new) ≡ choosers.pick H.draw chooser.old count }
{
    if count == 1 {
        return 0;
    }
    chooser.pick(count as u64) as usize
}

/// Takes one of the transitions that an instance offers.
fn take_own<H: Chooser>(
    alloc: Global,
    offer: &Offer,
    chooser: &mut H,
    takes: &mut Vec<Pair>,
) -> Result<(), AllocError>
    requires { 0 < length offer.now.offered.items }
    ensures { OnOk result (HasTaken H.draw offer.now chooser.old takes.old.items takes.new.items chooser.new) }
{
    let at = pick(chooser, offer.offered.len());
    let trans = offer.offered[at];
    let path = offer.path.copy(alloc)?;
    takes.push(Pair { path, trans })?;
    Ok(())
}

/// How many of the instances whose offers stand side by side are able.
fn count_able(offers: &[Offer], spans: &[Span]) -> usize
    requires { AreSpans offers.now spans.now }
    ensures { (s : Subject) (budget : ℕ) (g : Situation) (ms : List Seen) → AreTree s g.core.instances → AreOffersOfEach s budget g ms offers.now → result ≡ length (filter (is_able s budget g) ms) }
{
    let mut count = 0;
    let mut rest = offers;
    let mut ahead = spans;
    while !rest.is_empty() {
        let len = first_len(rest, ahead);
        let (block, others) = rest.split_at(len);
        let after = behind(ahead, len);
        if offers_some(block, ahead) {
            count += 1;
        }
        rest = others;
        ahead = after;
    }
    count
}

/// The offers at and below the able one of these instances with a number.
fn able_block<'a>(
    offers: &'a [Offer],
    spans: &'a [Span],
    number: usize,
) -> (&'a [Offer], &'a [Span])
    requires { AreSpans offers.now spans.now }
    ensures able { (s : Subject) (budget : ℕ) (g : Situation) (ms : List Seen) → AreTree s g.core.instances → AreOffersOfEach s budget g ms offers.now → number < length (filter (is_able s budget g) ms) → IsAbleOne s budget g ms number result.0.now }
    ensures within { length result.0.now ≤ length offers.now }
    ensures spans { AreSpans result.0.now result.1.now }
{
    let mut left = number;
    let mut rest = offers;
    let mut ahead = spans;
    while !rest.is_empty() {
        let len = first_len(rest, ahead);
        let (block, others) = rest.split_at(len);
        let after = behind(ahead, len);
        if offers_some(block, ahead) {
            if left == 0 {
                return (block, ahead);
            }
            left -= 1;
        }
        rest = others;
        ahead = after;
    }
    (rest, ahead)
}

/// Chooses of each of the instances whose offers stand side by side.
#[cycle(choice)]
fn choose_of_each<H: Chooser>(
    alloc: Global,
    offers: &[Offer],
    spans: &[Span],
    chooser: &mut H,
    takes: &mut Vec<Pair>,
) -> Result<(), AllocError>
    requires { AreSpans offers.now spans.now }
    ensures { (s : Subject) (budget : ℕ) (g : Situation) (ms : List Seen) → AreTree s g.core.instances → AreOffersOfEach s budget g ms offers.now → OnOk result (HasChosenOfEach H.draw s budget g ms chooser.old takes.old.items takes.new.items chooser.new) }
{
    let mut rest = offers;
    let mut ahead = spans;
    while !rest.is_empty() {
        let len = first_len(rest, ahead);
        let (block, others) = rest.split_at(len);
        let after = behind(ahead, len);
        choose_in(alloc, block, ahead, chooser, takes)?;
        rest = others;
        ahead = after;
    }
    Ok(())
}

/// Chooses of one of the able ones of these instances, if there is one.
#[cycle(choice)]
fn choose_of_one<H: Chooser>(
    alloc: Global,
    offers: &[Offer],
    spans: &[Span],
    chooser: &mut H,
    takes: &mut Vec<Pair>,
) -> Result<(), AllocError>
    requires { AreSpans offers.now spans.now }
    ensures { (s : Subject) (budget : ℕ) (g : Situation) (ms : List Seen) → AreTree s g.core.instances → AreOffersOfEach s budget g ms offers.now → OnOk result (HasChosenOfOne H.draw s budget g ms chooser.old takes.old.items takes.new.items chooser.new) }
{
    let count = count_able(offers, spans);
    if count == 0 {
        return Ok(());
    }
    let number = pick(chooser, count);
    let (block, ahead) = able_block(offers, spans, number);
    choose_in(alloc, block, ahead, chooser, takes)
}

/// Chooses from the first instance downwards.
#[cycle(choice)]
fn choose_in<H: Chooser>(
    alloc: Global,
    offers: &[Offer],
    spans: &[Span],
    chooser: &mut H,
    takes: &mut Vec<Pair>,
) -> Result<(), AllocError>
    requires { AreSpans offers.now spans.now }
    ensures { (s : Subject) (budget : ℕ) (g : Situation) (m : Seen) → AreTree s g.core.instances → AreOffers s budget g m offers.now → OnOk result (HasChosen H.draw s budget g m chooser.old takes.old.items takes.new.items chooser.new) }
{
    let Some((first, below)) = offers.split_first() else {
        return Ok(());
    };
    if !first.offered.is_empty() {
        return take_own(alloc, first, chooser, takes);
    }
    if first.of_process {
        return choose_of_each(alloc, below, behind(spans, 1), chooser, takes);
    }
    choose_of_one(alloc, below, behind(spans, 1), chooser, takes)
}

/// What the chooser picks of what an instance and all below it offer, in path order. Where it is refused, the chooser may have
/// been asked. An error is want of memory.
pub fn choose<H: Chooser>(
    alloc: Global,
    offers: &[Offer],
    chooser: &mut H,
) -> Result<Vec<Pair>, AllocError>
    ensures { (s : Subject) (budget : ℕ) (g : Situation) (m : Seen) → AreTree s g.core.instances → AreOffers s budget g m offers.now → IfOk result (λ takes. Chosen H.draw s budget g m chooser.old takes.items chooser.new) }
{
    let mut takes = Vec::new(alloc);
    let spans = spans_of(alloc, offers)?;
    choose_in(alloc, offers, &spans, chooser, &mut takes)?;
    Ok(takes)
}
