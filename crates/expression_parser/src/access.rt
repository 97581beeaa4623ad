//! Variables, over what reads the factors one level down.

ghost use Rattle.token_reader.specs.Reader.{Reads};
ghost use Rattle.expression_parser.specs.Expression as spec;

use crate::operation::ExprOver;
use estelle_tree::{Factor, Items, Kind, Name, Selector, Variable};
use std::alloc::Global;
use token_reader::{Cursor, Read, ReadError, repeated, separated};

/// Takes a word or a bracket that opens a level, and refuses it where none may open.
pub fn nest(tokens: &mut Cursor<'_>, room: u32) -> Result<(), ReadError>
    ensures { Reads (spec.nest room tokens.old) result tokens.new }
{
    if room == 0 {
        return Err(tokens.refuse());
    }
    tokens.take();
    Ok(())
}

/// `"[" Expr {"," Expr} "]"`
#[tactic(auto, unfolding(crate::specs::Expression::index_over))]
fn index<P: Read<Factor>>(
    alloc: Global,
    tokens: &mut Cursor<'_>,
    room: u32,
    below: &P,
) -> Result<Selector, ReadError>
    requires { P.can below.now }
    ensures { Reads (spec.index_over room (P.parser below.now) tokens.old) result tokens.new }
{
    nest(tokens, room)?;
    let exprs = separated(alloc, tokens, Kind::Comma, &ExprOver { factor: below })?;
    tokens.expect(Kind::CloseBracket)?;
    Ok(Selector::Index(exprs))
}

/// The same, and nothing where no level may open.
fn may_be_index<P: Read<Factor>>(
    alloc: Global,
    tokens: &mut Cursor<'_>,
    room: u32,
    below: &P,
) -> Result<Option<Selector>, ReadError>
    requires { P.can below.now }
    ensures { Reads (spec.may_be_index room (P.parser below.now) tokens.old) result tokens.new }
{
    if room == 0 {
        return Ok(None);
    }
    Ok(Some(index(alloc, tokens, room, below)?))
}

/// `"." NAME`
#[tactic(auto, unfolding(crate::specs::Expression::field))]
fn field(alloc: Global, tokens: &mut Cursor<'_>) -> Result<Selector, ReadError>
    ensures { Reads (spec.field tokens.old) result tokens.new }
{
    tokens.take();
    Ok(Selector::Field(tokens.name(alloc)?))
}

/// `"[" Expr {"," Expr} "]" | "." NAME`, or nothing
#[derive(Clone, Copy)]
struct SelectorOver<'p, P> {
    room: u32,
    below: &'p P,
}

impl<'p, P: Read<Factor>> Read<Option<Selector>> for SelectorOver<'p, P> {
    ghost parser = { λ s. spec.selector_over s.room (P.parser s.below.now) };

    ghost can = { λ s. P.can s.below.now };

    #[tactic(auto, unfolding(crate::specs::Expression::selector_over))]
    fn read(&self, alloc: Global, tokens: &mut Cursor<'_>) -> Result<Option<Selector>, ReadError> {
        match tokens.peek() {
            Kind::OpenBracket => may_be_index(alloc, tokens, self.room, self.below),
            Kind::Dot => Ok(Some(field(alloc, tokens)?)),
            _ => Ok(None),
        }
    }
}

/// A variable after its name, which starts there.
#[tactic(auto, unfolding(crate::specs::Expression::variable_after))]
pub fn variable_after<P: Read<Factor>>(
    alloc: Global,
    tokens: &mut Cursor<'_>,
    room: u32,
    below: &P,
    from: u32,
    name: Name,
) -> Result<Variable, ReadError>
    requires { P.can below.now }
    ensures { Reads (spec.variable_after room (P.parser below.now) from name tokens.old) result tokens.new }
{
    let step = SelectorOver { room, below };
    let selectors = repeated(alloc, tokens, Items::new(alloc), &step)?;
    Ok(Variable {
        name,
        selectors,
        span: tokens.since(from),
    })
}

/// `Variable = NAME {"[" Expr {"," Expr} "]" | "." NAME}`
#[tactic(auto, unfolding(crate::specs::Expression::variable_over))]
pub fn variable_over<P: Read<Factor>>(
    alloc: Global,
    tokens: &mut Cursor<'_>,
    room: u32,
    below: &P,
) -> Result<Variable, ReadError>
    requires { P.can below.now }
    ensures { Reads (spec.variable_over room (P.parser below.now) tokens.old) result tokens.new }
{
    let from = tokens.start();
    let name = tokens.name(alloc)?;
    variable_after(alloc, tokens, room, below, from, name)
}
