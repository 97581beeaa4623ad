//! Names, constants and ordinal types.

ghost use Rattle.std.specs.Prelude.{◌≡◌, ⊤};
ghost use Rattle.token_reader.specs.Reader.{Reads};
ghost use Rattle.token_reader.specs.Reader as reader;
ghost use Rattle.token_reader.specs.Lists as lists;
ghost use Rattle.type_parser.specs.Types as spec;

use estelle_tree::{Const, Kind, Name, NameList, Ordinal, Sign};
use std::alloc::Global;
use token_reader::{Begins, Cursor, Read, ReadError, separated};

/// `NAME`
#[derive(Clone, Copy)]
pub struct NameForm;

impl Read<Name> for NameForm {
    ghost parser = { λ _. reader.name };

    ghost can = { λ _. ⊤ };

    fn read(&self, alloc: Global, tokens: &mut Cursor<'_>) -> Result<Name, ReadError> {
        tokens.name(alloc)
    }
}

impl Begins for NameForm {
    ghost begins = { λ _. spec.begins_name };

    fn begins(&self, kind: Kind) -> bool {
        matches!(kind, Kind::Name)
    }
}

/// `Names = NAME {"," NAME}` (ISO 7185, 6.4.2.3)
#[tactic(auto, unfolding(crate::specs::Types::names))]
pub fn names(alloc: Global, tokens: &mut Cursor<'_>) -> Result<NameList, ReadError>
    ensures { Reads (spec.names tokens.old) result tokens.new }
{
    let from = tokens.start();
    let names = separated(alloc, tokens, Kind::Comma, &NameForm)?;
    Ok(NameList {
        names,
        span: tokens.since(from),
    })
}

/// `Names`
#[derive(Clone, Copy)]
pub struct NamesForm;

impl Read<NameList> for NamesForm {
    ghost parser = { λ _. spec.names };

    ghost can = { λ _. ⊤ };

    fn read(&self, alloc: Global, tokens: &mut Cursor<'_>) -> Result<NameList, ReadError> {
        names(alloc, tokens)
    }
}

impl Begins for NamesForm {
    ghost begins = { λ _. spec.begins_name };

    fn begins(&self, kind: Kind) -> bool {
        matches!(kind, Kind::Name)
    }
}

fn sign_of(kind: Kind) -> Option<Sign>
    ensures { result ≡ spec.sign_of kind }
{
    match kind {
        Kind::Plus => Some(Sign::Plus),
        Kind::Minus => Some(Sign::Minus),
        _ => None,
    }
}

/// `["+" | "-"]`
fn sign(tokens: &mut Cursor<'_>) -> Option<Sign>
    ensures { lists.mark spec.sign_of tokens.old ≡ Ok (result, tokens.new) }
{
    let sign = sign_of(tokens.peek());
    if sign.is_some() {
        tokens.take();
    }
    sign
}

#[tactic(auto, unfolding(crate::specs::Types::number_from))]
fn number_from(tokens: &mut Cursor<'_>, from: u32, sign: Option<Sign>) -> Result<Const, ReadError>
    ensures { Reads (spec.number_from from sign tokens.old) result tokens.new }
{
    let value = tokens.number()?;
    Ok(Const::Number {
        sign,
        value,
        span: tokens.since(from),
    })
}

#[tactic(auto, unfolding(crate::specs::Types::name_from))]
fn name_from(
    alloc: Global,
    tokens: &mut Cursor<'_>,
    from: u32,
    sign: Option<Sign>,
) -> Result<Const, ReadError>
    ensures { Reads (spec.name_from from sign tokens.old) result tokens.new }
{
    let name = tokens.name(alloc)?;
    Ok(Const::Name {
        sign,
        name,
        span: tokens.since(from),
    })
}

#[tactic(auto, unfolding(crate::specs::Types::char_from))]
fn char_from(tokens: &mut Cursor<'_>, from: u32) -> Result<Const, ReadError>
    ensures { Reads (spec.char_from from tokens.old) result tokens.new }
{
    let value = tokens.char()?;
    Ok(Const::Char {
        value,
        span: tokens.since(from),
    })
}

/// `Const = ["+" | "-"] (NUMBER | NAME) | CHAR` (ISO 7185, 6.3)
#[tactic(auto, unfolding(crate::specs::Types::constant))]
pub fn constant(alloc: Global, tokens: &mut Cursor<'_>) -> Result<Const, ReadError>
    ensures { Reads (spec.constant tokens.old) result tokens.new }
{
    let from = tokens.start();
    let sign = sign(tokens);
    match (sign, tokens.peek()) {
        (sign, Kind::Number) => number_from(tokens, from, sign),
        (sign, Kind::Name) => name_from(alloc, tokens, from, sign),
        (None, Kind::Char) => char_from(tokens, from),
        _ => Err(tokens.refuse()),
    }
}

/// `Const`
#[derive(Clone, Copy)]
pub struct ConstantForm;

impl Read<Const> for ConstantForm {
    ghost parser = { λ _. spec.constant };

    ghost can = { λ _. ⊤ };

    fn read(&self, alloc: Global, tokens: &mut Cursor<'_>) -> Result<Const, ReadError> {
        constant(alloc, tokens)
    }
}

impl Begins for ConstantForm {
    ghost begins = { λ _. spec.begins_constant };

    fn begins(&self, kind: Kind) -> bool {
        matches!(
            kind,
            Kind::Plus | Kind::Minus | Kind::Number | Kind::Name | Kind::Char
        )
    }
}

/// `"(" Names ")"`
#[tactic(auto, unfolding(crate::specs::Types::enumeration))]
fn enumeration(alloc: Global, tokens: &mut Cursor<'_>) -> Result<Ordinal, ReadError>
    ensures { Reads (spec.enumeration tokens.old) result tokens.new }
{
    let from = tokens.start();
    tokens.expect(Kind::OpenParenthesis)?;
    let names = names(alloc, tokens)?;
    tokens.expect(Kind::CloseParenthesis)?;
    Ok(Ordinal::Enumeration {
        names,
        span: tokens.since(from),
    })
}

/// `Const ".." Const`
#[tactic(auto, unfolding(crate::specs::Types::subrange))]
fn subrange(alloc: Global, tokens: &mut Cursor<'_>) -> Result<Ordinal, ReadError>
    ensures { Reads (spec.subrange tokens.old) result tokens.new }
{
    let from = tokens.start();
    let low = constant(alloc, tokens)?;
    tokens.expect(Kind::Dots)?;
    let high = constant(alloc, tokens)?;
    Ok(Ordinal::Subrange {
        low,
        high,
        span: tokens.since(from),
    })
}

#[tactic(auto, unfolding(crate::specs::Types::ordinal_name))]
fn ordinal_name(alloc: Global, tokens: &mut Cursor<'_>) -> Result<Ordinal, ReadError>
    ensures { Reads (spec.ordinal_name tokens.old) result tokens.new }
{
    Ok(Ordinal::Name(tokens.name(alloc)?))
}

/// `Ord = NAME | "(" Names ")" | Const ".." Const` (ISO 7185, 6.4.2). A name with `..` behind it is
/// the bound of a subrange.
#[tactic(auto, unfolding(crate::specs::Types::ordinal))]
pub fn ordinal(alloc: Global, tokens: &mut Cursor<'_>) -> Result<Ordinal, ReadError>
    ensures { Reads (spec.ordinal tokens.old) result tokens.new }
{
    match (tokens.peek(), tokens.peek_second()) {
        (Kind::OpenParenthesis, _) => enumeration(alloc, tokens),
        (Kind::Name, Kind::Dots) => subrange(alloc, tokens),
        (Kind::Name, _) => ordinal_name(alloc, tokens),
        _ => subrange(alloc, tokens),
    }
}

/// `Ord`
#[derive(Clone, Copy)]
pub struct OrdinalForm;

impl Read<Ordinal> for OrdinalForm {
    ghost parser = { λ _. spec.ordinal };

    ghost can = { λ _. ⊤ };

    fn read(&self, alloc: Global, tokens: &mut Cursor<'_>) -> Result<Ordinal, ReadError> {
        ordinal(alloc, tokens)
    }
}

impl Begins for OrdinalForm {
    ghost begins = { λ _. spec.begins_ordinal };

    fn begins(&self, kind: Kind) -> bool {
        matches!(
            kind,
            Kind::OpenParenthesis
                | Kind::Plus
                | Kind::Minus
                | Kind::Number
                | Kind::Name
                | Kind::Char
        )
    }
}
