//! Reads the input: a specification, alone or with a trace behind it.

ghost use Rattle.std.specs.Prelude.{◌≡◌, ◌<◌, ◌≤◌, ◌+◌, ◌^◌, length, drop, All, IfOk, OnOk, IfErr, IfSome, MatchResult};
ghost use Rattle.std.specs.Io.KnownBytes.{Consumes, IsAtEnd};
ghost use Rattle.outside.specs.Counts.{Rose};
ghost use Rattle.estelle_tree.specs.Lexed.{IsLexed};
ghost use Rattle.estelle_lexer.specs.Tokens.{IsPlacedToken};
ghost use Rattle.estelle_model.specs.Subject.{subject};
ghost use Rattle.estelle_cli.specs.declared.contents.Contents.TheVariants.{Alone};
ghost use Rattle.estelle_cli.specs.Input as spec;
ghost use Rattle.estelle_cli.specs.Input.{Reads, HasTokens, IsTextOf, IsBehind, IsOther, IsSeparated, IsUnseparated, IsTraceAt, Misses, HasStopped, TakesAtMost, place_of, input_limit};

use crate::contents::{Contents, input_limit};
use crate::outcome::{Place, Refusal, Stop};
use estelle_lexer::place::line_and_column;
use estelle_lexer::{LexError, Tokens, blank_to_end, tokens};
use estelle_parser::{SyntaxError, parse};
use estelle_tree::Spec;
use outside::Source;
use scope_rules::Refusal as RuleRefusal;
use spec_accept::{Checked, accept};
use std::alloc::Global;

/// How many bytes are read at a time, at most.
const PIECE: usize = 4096;

/// Reads all that is left, but no more than one byte beyond the limit.
pub fn read_input<S: Source>(
    alloc: Global,
    contents: Contents,
    source: &mut S,
) -> Result<Vec<u8>, Stop>
    ensures bytes { IfOk result (λ v. Consumes (S.left source.old) (S.left source.new) v.items) }
    ensures end { IfOk result (λ v. length v.items ≤ input_limit contents → IsAtEnd (S.left source.new)) }
    ensures stops { TakesAtMost (input_limit contents + 1) (S.left source.old) (S.left source.new) }
    ensures later { S.faults source.old ≤ S.faults source.new }
    ensures cause { IfErr result (HasStopped contents (S.left source.old) (S.faults source.old) (S.faults source.new)) }
{
    let limit = input_limit(contents);
    let mut bytes = Vec::new(alloc);
    let mut buf = [0u8; PIECE];
    while bytes.len() <= limit {
        let room = (limit + 1 - bytes.len()).min(PIECE);
        let piece = &mut buf[..room];
        let count = match source.read(piece) {
            Ok(count) => count,
            Err(_) => return Err(Stop::ReadFault),
        };
        if count == 0 {
            return Ok(bytes);
        }
        if bytes.extend_from_slice(&piece[..count]).is_err() {
            return Err(Stop::Memory);
        }
    }
    Ok(bytes)
}

fn place(bytes: &[u8], at: u32) -> Place
    requires { length bytes.now < 2 ^ 31 }
    ensures { result ≡ place_of bytes.now at }
{
    let (line, column) = line_and_column(bytes, at.min(bytes.len() as u32));
    Place { line, column }
}

fn is_space(b: u8) -> bool
    ensures { result ≡ spec.is_space b }
{
    b == b' ' || b == b'\t' || b == b'\r'
}

/// The place behind the end of a line of which only spaces, tabs and CR are left; else that of the first other byte, or of the end.
fn behind_line(bytes: &[u8], rest: u32) -> Result<u32, u32>
    requires short { length bytes.now < 2 ^ 31 }
    requires within { rest ≤ length bytes.now }
    ensures found { MatchResult result (λ at. IsSeparated bytes.now rest at) (λ at. IsUnseparated bytes.now rest at) }
    ensures inside { IfOk result (λ at. at ≤ length bytes.now) }
{
    let line = &bytes[rest as usize..];
    let mut at = rest;
    for byte in line {
        if *byte == b'\n' {
            return Ok(at + 1);
        }
        if !is_space(*byte) {
            return Err(at);
        }
        at += 1;
    }
    Err(at)
}

/// The place of a trace, where there is to be one and nothing else stands behind the specification than is to; or where that stands.
fn behind(contents: Contents, bytes: &[u8], rest: u32) -> Result<u32, u32>
    requires short { length bytes.now < 2 ^ 31 }
    requires within { rest ≤ length bytes.now }
    ensures found { MatchResult result (λ at. IsBehind contents bytes.now rest at) (λ at. IsOther contents bytes.now rest at) }
    ensures inside { IfOk result (λ at. at ≤ length bytes.now) }
{
    match contents {
        Contents::Alone => match blank_to_end(bytes, rest) {
            None => Ok(rest),
            Some(at) => Err(at),
        },
        Contents::Traced { .. } => behind_line(bytes, rest),
    }
}

/// The tokens of the specification, and the place of a trace, where nothing else stands behind them than is to.
fn cut(alloc: Global, contents: Contents, bytes: &[u8]) -> Result<(Tokens, u32), Stop>
    requires within { length bytes.now ≤ input_limit contents }
    ensures found { IfOk result (λ x. HasTokens contents bytes.now x.0.items) }
    ensures trace { IfOk result (λ x. IsTraceAt contents bytes.now x.1) }
    ensures inside { IfOk result (λ x. x.1 ≤ length bytes.now) }
    ensures forms { IfOk result (λ x. All IsPlacedToken x.0.items) }
    ensures lexed { IfOk result (λ x. IsLexed bytes.now x.0.items x.0.rest) }
    ensures cause { IfErr result (Misses contents bytes.now) }
{
    let found = match tokens(alloc, bytes) {
        Ok(found) => found,
        Err(LexError::At(at)) => return Err(Stop::Refused(Refusal::Bytes(place(bytes, at)))),
        Err(LexError::Memory) => return Err(Stop::Memory),
    };
    match behind(contents, bytes, found.rest) {
        Ok(at) => Ok((found, at)),
        Err(at) => Err(Stop::Refused(Refusal::TextAfterEnd(place(bytes, at)))),
    }
}

/// The specification that a text spells, and the place of a trace.
fn tree(alloc: Global, contents: Contents, bytes: &[u8]) -> Result<(Spec, u32), Stop>
    requires within { length bytes.now ≤ input_limit contents }
    ensures found { IfOk result (λ x. IsTextOf contents bytes.now x.0) }
    ensures trace { IfOk result (λ x. IsTraceAt contents bytes.now x.1) }
    ensures inside { IfOk result (λ x. x.1 ≤ length bytes.now) }
    ensures cause { IfErr result (Misses contents bytes.now) }
{
    let (tokens, trace) = cut(alloc, contents, bytes)?;
    match parse(alloc, &tokens) {
        Ok(spec) => Ok((spec, trace)),
        Err(SyntaxError::At(at)) => Err(Stop::Refused(Refusal::Syntax(place(bytes, at)))),
        Err(SyntaxError::Memory) => Err(Stop::Memory),
    }
}

/// Judges the specification that a text spells by the rules.
fn judged(alloc: Global, contents: Contents, bytes: &[u8], spec: Spec) -> Result<Checked, Stop>
    requires { IsTextOf contents bytes.now spec }
    ensures found { IfOk result (λ checked. Reads contents bytes.now checked.spec) }
    ensures cause { IfErr result (Misses contents bytes.now) }
{
    match accept(alloc, spec) {
        Ok(checked) => Ok(checked),
        Err(RuleRefusal::Rule { number, span }) => {
            let place = place(bytes, span.start);
            Err(Stop::Refused(Refusal::Rule { number, place }))
        }
        Err(RuleRefusal::Memory) => Err(Stop::Memory),
    }
}

/// Reads a text as a specification, and gives the place of a trace.
pub fn parsed(alloc: Global, contents: Contents, bytes: &[u8]) -> Result<(Checked, u32), Stop>
    ensures found { IfOk result (λ x. Reads contents bytes.now x.0.spec) }
    ensures trace { IfOk result (λ x. IsTraceAt contents bytes.now x.1) }
    ensures inside { IfOk result (λ x. x.1 ≤ length bytes.now) }
    ensures cause { IfErr result (Misses contents bytes.now) }
{
    if bytes.len() > input_limit(contents) {
        return Err(Stop::Refused(Refusal::TooLong));
    }
    let (spec, at) = tree(alloc, contents, bytes)?;
    let checked = judged(alloc, contents, bytes, spec)?;
    Ok((checked, at))
}

/// Reads a text as a specification alone.
fn alone(alloc: Global, bytes: &[u8]) -> Result<Checked, Stop>
    ensures found { IfOk result (λ checked. Reads Alone bytes.now checked.spec) }
    ensures cause { IfErr result (Misses Alone bytes.now) }
{
    let (checked, _) = parsed(alloc, Contents::Alone, bytes)?;
    Ok(checked)
}

/// Reads the input as a specification.
pub fn load<S: Source>(alloc: Global, source: &mut S) -> Result<Checked, Stop>
    ensures found { IfOk result (λ checked. IfSome (S.left source.old) (λ input. Reads Alone input checked.spec)) }
    ensures end { OnOk result (IsAtEnd (S.left source.new)) }
    ensures stops { TakesAtMost (input_limit Alone + 1) (S.left source.old) (S.left source.new) }
    ensures later { S.faults source.old ≤ S.faults source.new }
    ensures cause { IfErr result (HasStopped Alone (S.left source.old) (S.faults source.old) (S.faults source.new)) }
{
    let bytes = read_input(alloc, Contents::Alone, source)?;
    alone(alloc, &bytes)
}
