//! Texts with a comment that tells what is refused, and where.

use estelle_tree::{Span, Spec};
use scope_rules::Refusal;
use std::alloc::Global;
use test_texts::tree;

/// The rule and the place behind the first comment that is a number alone; 0 and 0 where there is none.
pub(crate) fn wanted(text: &[u8]) -> (u8, usize) {
    for (at, part) in text.windows(4).enumerate() {
        if let [b'{', digit, b'}', _] = part
            && digit.is_ascii_digit()
        {
            return (*digit - b'0', at + 3);
        }
        if let [b'{', tens, ones, b'}'] = part
            && tens.is_ascii_digit()
            && ones.is_ascii_digit()
        {
            return ((*tens - b'0') * 10 + (*ones - b'0'), at + 4);
        }
    }
    (0, 0)
}

/// What a refusal tells; none where memory was refused.
pub(crate) fn told(refusal: Refusal) -> Option<(u8, usize)> {
    match refusal {
        Refusal::Rule {
            number,
            span: Span { start, .. },
        } => Some((number, start as usize)),
        Refusal::Memory => None,
    }
}

/// What is judged of the tree of a text; none where it has none, or memory was refused.
pub(crate) fn found<F>(alloc: Global, text: &[u8], judged: F) -> Option<(u8, usize)>
where
    F: FnOnce(Global, &Spec) -> Option<(u8, usize)> + Drop,
    requires { F.IsAlwaysCallable judged }
{
    match tree(alloc, text) {
        Some(spec) => judged(alloc, &spec),
        None => None,
    }
}
