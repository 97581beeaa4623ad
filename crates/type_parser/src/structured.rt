//! Types, over what reads a type one level down: so that each form is proved by itself.

ghost use Rattle.std.specs.Prelude.{◌≡◌, ⊤, ◌<◌};
ghost use Rattle.estelle_tree.specs.Input as place;
ghost use Rattle.token_reader.specs.Reader.{Reads};
ghost use Rattle.token_reader.specs.Nests.{Nests};
ghost use Rattle.type_parser.specs.Types as spec;

use crate::scalar::{OrdinalForm, names, ordinal};
use estelle_tree::{Boxed, Fields, Kind, TypeExpr, TypedNames};
use std::alloc::Global;
use token_reader::{Begins, Cursor, Read, ReadError, separated, separated_if};

/// `Names ":" Type`
#[derive(Clone, Copy)]
struct Section<'b, T> {
    below: &'b T,
}

impl<'b, T: Read<TypeExpr>> Read<TypedNames> for Section<'b, T> {
    ghost parser = { λ s. spec.typed_over (T.parser s.below.now) };

    ghost can = { λ s. T.can s.below.now };

    #[tactic(auto, unfolding(crate::specs::Types::typed_over))]
    fn read(&self, alloc: Global, tokens: &mut Cursor<'_>) -> Result<TypedNames, ReadError> {
        let names = names(alloc, tokens)?;
        tokens.expect(Kind::Colon)?;
        let type_expr = self.below.read(alloc, tokens)?;
        Ok(TypedNames { names, type_expr })
    }
}

impl<'b, T> Begins for Section<'b, T> {
    ghost begins = { λ _. spec.begins_name };

    fn begins(&self, kind: Kind) -> bool {
        matches!(kind, Kind::Name)
    }
}

/// `Fields = Names ":" Type {";" Names ":" Type} [";"]` (ISO 7185, 6.4.3.3)
#[tactic(auto, unfolding(crate::specs::Types::fields_over))]
fn fields_over<T: Read<TypeExpr>>(
    alloc: Global,
    tokens: &mut Cursor<'_>,
    below: &T,
) -> Result<Fields, ReadError>
    requires { T.can below.now }
    ensures { Reads (spec.fields_over (T.parser below.now) tokens.old) result tokens.new }
{
    let from = tokens.start();
    let sections = separated_if(alloc, tokens, Kind::Semicolon, &Section { below })?;
    let semicolon = tokens.eat(Kind::Semicolon);
    Ok(Fields {
        sections,
        semicolon,
        span: tokens.since(from),
    })
}

/// `array "[" Ord {"," Ord} "]" of Type` (ISO 7185, 6.4.3.2)
#[tactic(auto, unfolding(crate::specs::Types::array_over))]
fn array_over<T: Read<TypeExpr>>(
    alloc: Global,
    tokens: &mut Cursor<'_>,
    below: &T,
    from: u32,
    packed: bool,
) -> Result<TypeExpr, ReadError>
    requires { T.can below.now }
    ensures { Reads (spec.array_over (T.parser below.now) from packed tokens.old) result tokens.new }
{
    tokens.expect(Kind::Array)?;
    tokens.expect(Kind::OpenBracket)?;
    let indices = separated(alloc, tokens, Kind::Comma, &OrdinalForm)?;
    tokens.expect(Kind::CloseBracket)?;
    tokens.expect(Kind::Of)?;
    let component = below.read(alloc, tokens)?;
    let component = Boxed::new(alloc, component)?;
    Ok(TypeExpr::Array {
        packed,
        indices,
        component,
        span: tokens.since(from),
    })
}

/// `record Fields end` (ISO 7185, 6.4.3.3)
#[tactic(auto, unfolding(crate::specs::Types::record_over))]
fn record_over<T: Read<TypeExpr>>(
    alloc: Global,
    tokens: &mut Cursor<'_>,
    below: &T,
    from: u32,
    packed: bool,
) -> Result<TypeExpr, ReadError>
    requires { T.can below.now }
    ensures { Reads (spec.record_over (T.parser below.now) from packed tokens.old) result tokens.new }
{
    tokens.expect(Kind::Record)?;
    let fields = fields_over(alloc, tokens, below)?;
    tokens.expect(Kind::End)?;
    Ok(TypeExpr::Fields {
        packed,
        fields,
        span: tokens.since(from),
    })
}

/// `set of Ord` (ISO 7185, 6.4.3.4)
#[tactic(auto, unfolding(crate::specs::Types::set_type))]
fn set_type(
    alloc: Global,
    tokens: &mut Cursor<'_>,
    from: u32,
    packed: bool,
) -> Result<TypeExpr, ReadError>
    ensures { Reads (spec.set_type from packed tokens.old) result tokens.new }
{
    tokens.expect(Kind::Set)?;
    tokens.expect(Kind::Of)?;
    let base = ordinal(alloc, tokens)?;
    Ok(TypeExpr::Set {
        packed,
        base,
        span: tokens.since(from),
    })
}

#[tactic(auto, unfolding(crate::specs::Types::ordinal_type))]
fn ordinal_type(alloc: Global, tokens: &mut Cursor<'_>) -> Result<TypeExpr, ReadError>
    ensures { Reads (spec.ordinal_type tokens.old) result tokens.new }
{
    Ok(TypeExpr::Ordinal(ordinal(alloc, tokens)?))
}

/// What stands behind `packed`, or where it may stand.
fn type_by<T: Read<TypeExpr>>(
    alloc: Global,
    tokens: &mut Cursor<'_>,
    room: u8,
    below: &T,
    from: u32,
    packed: bool,
) -> Result<TypeExpr, ReadError>
    requires { T.can below.now }
    ensures { Reads (spec.type_by room (T.parser below.now) from packed (place.kind tokens.old) tokens.old) result tokens.new }
{
    match tokens.peek() {
        Kind::Array if room != 0 => array_over(alloc, tokens, below, from, packed),
        Kind::Record if room != 0 => record_over(alloc, tokens, below, from, packed),
        Kind::Set if room != 0 => set_type(alloc, tokens, from, packed),
        Kind::Array | Kind::Record | Kind::Set => Err(tokens.refuse()),
        _ if packed => Err(tokens.refuse()),
        _ => ordinal_type(alloc, tokens),
    }
}

/// `Type = Ord | [packed] (array "[" Ord {"," Ord} "]" of Type | record Fields end | set of Ord)`
#[tactic(auto, unfolding(crate::specs::Types::type_over))]
fn type_over<T: Read<TypeExpr>>(
    alloc: Global,
    tokens: &mut Cursor<'_>,
    room: u8,
    below: &T,
) -> Result<TypeExpr, ReadError>
    requires { T.can below.now }
    ensures { Reads (spec.type_over room (T.parser below.now) tokens.old) result tokens.new }
{
    let from = tokens.start();
    let packed = tokens.eat(Kind::Packed);
    type_by(alloc, tokens, room, below, from, packed)
}

/// Types one level down, as a function reads them.
#[derive(Clone, Copy)]
struct Below<F> {
    /// How many levels may open there, the type's own included.
    room: u8,
    type_below: F,
}

impl<F: Fn(Global, &mut Cursor<'_>, u8) -> Result<TypeExpr, ReadError>> Read<TypeExpr>
    for Below<F> {
    ghost parser = { λ b. spec.type_below b.room };

    ghost can = { λ b. Nests spec.type_below b.room (F.pre b.type_below) (F.post b.type_below) };

    fn read(&self, alloc: Global, tokens: &mut Cursor<'_>) -> Result<TypeExpr, ReadError> {
        (self.type_below)(alloc, tokens, self.room)
    }
}

fn type_below(alloc: Global, tokens: &mut Cursor<'_>, room: u8) -> Result<TypeExpr, ReadError>
    ensures { Reads (spec.type_below room tokens.old) result tokens.new }
{
    if room == 0 {
        return Err(tokens.refuse());
    }
    let room = room - 1;
    type_over(alloc, tokens, room, &Below { room, type_below })
}

/// A type in which at most so many levels of nesting open (ISO 7185, 6.4.1). A deeper one is refused
/// at the word that opens a level too many.
#[tactic(auto, unfolding(crate::specs::Types::type_below))]
pub fn type_expr(alloc: Global, tokens: &mut Cursor<'_>, room: u8) -> Result<TypeExpr, ReadError>
    ensures { Reads (spec.type_expr room tokens.old) result tokens.new }
{
    type_over(alloc, tokens, room, &Below { room, type_below })
}

/// `Type`, in which at most so many levels of nesting open.
#[derive(Clone, Copy)]
pub struct TypeForm {
    pub room: u8,
}

impl Read<TypeExpr> for TypeForm {
    ghost parser = { λ f. spec.type_expr f.room };

    ghost can = { λ _. ⊤ };

    fn read(&self, alloc: Global, tokens: &mut Cursor<'_>) -> Result<TypeExpr, ReadError> {
        type_expr(alloc, tokens, self.room)
    }
}

impl Begins for TypeForm {
    ghost begins = { λ _. spec.begins_type };

    fn begins(&self, kind: Kind) -> bool {
        matches!(
            kind,
            Kind::Packed
                | Kind::Array
                | Kind::Record
                | Kind::Set
                | Kind::OpenParenthesis
                | Kind::Plus
                | Kind::Minus
                | Kind::Number
                | Kind::Name
                | Kind::Char
        )
    }
}

/// `Names ":" Type` (ISO 7185, 6.5.1), in which at most so many levels of nesting open.
pub fn typed_names(
    alloc: Global,
    tokens: &mut Cursor<'_>,
    room: u8,
) -> Result<TypedNames, ReadError>
    ensures { Reads (spec.typed_names room tokens.old) result tokens.new }
{
    Section {
        below: &TypeForm { room },
    }
    .read(alloc, tokens)
}

/// `Names ":" Type`, in which at most so many levels of nesting open.
#[derive(Clone, Copy)]
pub struct TypedNamesForm {
    pub room: u8,
}

impl Read<TypedNames> for TypedNamesForm {
    ghost parser = { λ f. spec.typed_names f.room };

    ghost can = { λ _. ⊤ };

    fn read(&self, alloc: Global, tokens: &mut Cursor<'_>) -> Result<TypedNames, ReadError> {
        typed_names(alloc, tokens, self.room)
    }
}

impl Begins for TypedNamesForm {
    ghost begins = { λ _. spec.begins_name };

    fn begins(&self, kind: Kind) -> bool {
        matches!(kind, Kind::Name)
    }
}
