//! From texts to tokens, trees and accepted specifications.

ghost use Rattle.std.specs.Prelude.{IfSome};
ghost use Rattle.estelle_tree.specs.Lexed.{FollowOneAnother};
ghost use Rattle.estelle_parser.specs.Answers.{AreTokens};

use estelle_lexer::{Tokens, tokens};
use estelle_parser::parse;
use estelle_tree::Spec;
use scope_rules::Refusal;
use spec_accept::{Checked, accept};
use std::alloc::Global;

/// The tokens of a text of less than 2 GiB; none where it has none, or memory is refused.
pub fn tokens_of(alloc: Global, text: &[u8]) -> Option<Tokens>
    ensures tokens { IfSome result (λ found. AreTokens found.items) }
    ensures spans { IfSome result (λ found. FollowOneAnother 0 found.items found.rest) }
{
    if text.len() >= 1 << 31 {
        return None;
    }
    match tokens(alloc, text) {
        Ok(found) => Some(found),
        Err(_) => None,
    }
}

/// What the rules say of a text; none where no specification is spelled so, or memory is refused.
pub fn judged(alloc: Global, text: &[u8]) -> Option<Result<Checked, Refusal>> {
    let found = tokens_of(alloc, text)?;
    match parse(alloc, &found) {
        Ok(spec) => Some(accept(alloc, spec)),
        Err(_) => None,
    }
}

/// A text that keeps all rules; none where it does not, or memory is refused.
pub fn accepted(alloc: Global, text: &[u8]) -> Option<Checked> {
    match judged(alloc, text) {
        Some(Ok(checked)) => Some(checked),
        Some(Err(_)) => None,
        None => None,
    }
}

/// The tree of a text; none where no specification is spelled so, or memory is refused.
pub fn tree(alloc: Global, text: &[u8]) -> Option<Spec> {
    let found = tokens_of(alloc, text)?;
    parse(alloc, &found).ok()
}
