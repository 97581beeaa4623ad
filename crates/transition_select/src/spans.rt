//! How far each of the offers reaches.

ghost use Rattle.std.specs.Prelude.{◌≡◌, ◌≤◌, ◌<◌, ◌+◌, ◌∷◌, suc, length, drop, IfOk};
ghost use Rattle.transition_select.specs.Offers as spec;
ghost use Rattle.transition_select.specs.Spans.{AreSpans, quiet_len};

use crate::offers::Offer;
use estelle_tree::Path;
use std::alloc::{AllocError, Global};

/// How many of the offers, from one on, are of its instance and of those below it, and how many in a row offer nothing. Where
/// the offers are cut off behind it, each counts at most as many as are left.
#[derive(Clone, Copy)]
pub(crate) struct Span {
    pub(crate) block: usize,
    pub(crate) quiet: usize,
}

/// Those behind the first ones.
pub(crate) fn behind(spans: &[Span], count: usize) -> &[Span]
    ensures { result.now ≡ drop count spans.now }
{
    match spans.get(count..) {
        Some(others) => others,
        None => &[],
    }
}

/// How many of the offers are of the first one's instance and of all below it.
pub(crate) fn first_len(offers: &[Offer], spans: &[Span]) -> usize
    requires { AreSpans offers.now spans.now }
    ensures of_first { result ≡ spec.first_len offers.now }
    ensures within { result ≤ length offers.now }
{
    match spans.first() {
        None => 0,
        Some(span) => span.block.min(offers.len()),
    }
}

/// How many of the offers, in a row from the first on, offer nothing.
fn quiet_len(offers: &[Offer], spans: &[Span]) -> usize
    requires { AreSpans offers.now spans.now }
    ensures passed { result ≡ quiet_len offers.now }
    ensures within { result ≤ length offers.now }
{
    match spans.split_first() {
        None => 0,
        Some((span, _)) => span.quiet.min(offers.len()),
    }
}

/// Whether some instance offers something.
pub(crate) fn offers_some(offers: &[Offer], spans: &[Span]) -> bool
    requires { AreSpans offers.now spans.now }
    ensures { result ≡ spec.offers_some offers.now }
{
    quiet_len(offers, spans) < offers.len()
}

/// How many of the offers, in a row from the first on, are at or below an instance.
fn block_len(path: &Path, offers: &[Offer], spans: &[Span]) -> usize
    requires { AreSpans offers.now spans.now }
    ensures passed { result ≡ spec.block_len path.now offers.now }
    ensures within { result ≤ length offers.now }
{
    let mut count = 0;
    let mut rest = offers;
    let mut ahead = spans;
    while let Some((offer, _)) = rest.split_first() {
        if !path.is_at_or_above(&offer.path) {
            return count;
        }
        let len = first_len(rest, ahead);
        let (_, others) = rest.split_at(len);
        count += len;
        rest = others;
        ahead = behind(ahead, len);
    }
    count
}

/// That of an offer in front of others.
fn span_of(offer: &Offer, others: &[Offer], spans: &[Span]) -> Span
    requires { AreSpans others.now spans.now }
    ensures block { result.block ≡ suc (spec.block_len offer.now.path others.now) }
    ensures quiet { result.quiet ≡ quiet_len (offer.now ∷ others.now) }
{
    let quiet = if offer.offered.is_empty() {
        1 + quiet_len(others, spans)
    } else {
        0
    };
    Span {
        block: 1 + block_len(&offer.path, others, spans),
        quiet,
    }
}

/// How far an offer reaches, by those behind it.
fn put_span(offers: &[Offer], spans: &mut Vec<Span>, at: usize)
    requires len { length spans.old.items ≡ length offers.now }
    requires within { at < length offers.now }
    requires behind { AreSpans (drop (at + 1) offers.now) (drop (at + 1) spans.old.items) }
    ensures spans { AreSpans (drop at offers.now) (drop at spans.new.items) }
    ensures len { length spans.new.items ≡ length spans.old.items }
{
    let (_, from) = offers.split_at(at);
    if let Some((offer, others)) = from.split_first() {
        let span = span_of(offer, others, behind(spans, at + 1));
        spans[at] = span;
    }
}

/// How far each of the offers reaches, in time linear in their number. An error is want of memory.
pub(crate) fn spans_of(alloc: Global, offers: &[Offer]) -> Result<Vec<Span>, AllocError>
    ensures { IfOk result (λ spans. AreSpans offers.now spans.items) }
{
    let mut spans = vec![in alloc; Span { block: 0, quiet: 0 }; offers.len()]?;
    let mut left = offers.len();
    while 0 < left {
        left -= 1;
        put_span(offers, &mut spans, left);
    }
    Ok(spans)
}
