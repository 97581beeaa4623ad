//! Expressions, lists of them and variables, where so many more levels of nesting may open.

ghost use Rattle.std.specs.Prelude.{◌≡◌, ⊤};
ghost use Rattle.token_reader.specs.Reader.{Reads};
ghost use Rattle.token_reader.specs.Nests.{Nests};
ghost use Rattle.expression_parser.specs.Expression as spec;

use crate::access::variable_over;
use crate::factor::FactorOver;
use crate::operation::{ArgsOver, ExprOver};
use estelle_tree::{Args, Expr, Factor, Kind, Variable};
use std::alloc::Global;
use token_reader::{Begins, Cursor, Read, ReadError};

/// A function that reads the factors one level down, where so many levels may open.
#[derive(Clone, Copy)]
struct Below<F> {
    room: u32,
    read: F,
}

impl<F: Fn(Global, &mut Cursor<'_>, u32) -> Result<Factor, ReadError>> Read<Factor> for Below<F> {
    ghost parser = { λ s. spec.factor_below s.room };

    ghost can = { λ s. Nests spec.factor_below s.room (F.pre s.read) (F.post s.read) };

    fn read(&self, alloc: Global, tokens: &mut Cursor<'_>) -> Result<Factor, ReadError> {
        (self.read)(alloc, tokens, self.room)
    }
}

/// A factor one level down from where this many levels may open.
fn factor_below(alloc: Global, tokens: &mut Cursor<'_>, room: u32) -> Result<Factor, ReadError>
    ensures { Reads (spec.factor_below room tokens.old) result tokens.new }
{
    if room == 0 {
        return Err(tokens.refuse());
    }
    let room = room - 1;
    let below = Below {
        room,
        read: factor_below,
    };
    FactorOver {
        room,
        below: &below,
    }
    .read(alloc, tokens)
}

/// A factor, where this many levels may open in it.
#[derive(Clone, Copy)]
struct FactorAt {
    room: u32,
}

impl Read<Factor> for FactorAt {
    ghost parser = { λ s. spec.factor s.room };

    ghost can = { λ _. ⊤ };

    fn read(&self, alloc: Global, tokens: &mut Cursor<'_>) -> Result<Factor, ReadError> {
        let below = Below {
            room: self.room,
            read: factor_below,
        };
        FactorOver {
            room: self.room,
            below: &below,
        }
        .read(alloc, tokens)
    }
}

/// Reads an expression (ISO 7185, 6.7.1), in which so many levels of nesting may open: the brackets of
/// an expression, a call, an index or a set open one, and so does `not`. Behind a name a bracket that
/// would open a level too many does not go on with it. The token at which no expression goes on is
/// refused; a token behind the expression is not looked for.
#[tactic(auto, unfolding(crate::specs::Expression::expr))]
pub fn expr(alloc: Global, tokens: &mut Cursor<'_>, room: u32) -> Result<Expr, ReadError>
    ensures { Reads (spec.expr room tokens.old) result tokens.new }
{
    ExprOver {
        factor: &FactorAt { room },
    }
    .read(alloc, tokens)
}

/// Reads actual parameters without their parentheses (ISO 7185, 6.7.3), in which so many levels of
/// nesting may open.
#[tactic(auto, unfolding(crate::specs::Expression::args))]
pub fn args(alloc: Global, tokens: &mut Cursor<'_>, room: u32) -> Result<Args, ReadError>
    ensures { Reads (spec.args room tokens.old) result tokens.new }
{
    ArgsOver {
        factor: &FactorAt { room },
    }
    .read(alloc, tokens)
}

/// Reads a variable access (ISO 7185, 6.5.1), in which so many levels of nesting may open.
#[tactic(auto, unfolding(crate::specs::Expression::variable))]
pub fn variable(alloc: Global, tokens: &mut Cursor<'_>, room: u32) -> Result<Variable, ReadError>
    ensures { Reads (spec.variable room tokens.old) result tokens.new }
{
    let below = Below {
        room,
        read: factor_below,
    };
    variable_over(alloc, tokens, room, &below)
}

/// Whether an expression can begin with a token of this kind.
pub fn begins_expr(kind: Kind) -> bool
    ensures { result ≡ spec.begins_expr kind }
{
    matches!(
        kind,
        Kind::Plus
            | Kind::Minus
            | Kind::Number
            | Kind::Char
            | Kind::Name
            | Kind::OpenParenthesis
            | Kind::OpenBracket
            | Kind::Not
    )
}

/// `Expr`, where so many levels of nesting may open in it.
#[derive(Clone, Copy, Debug, PartialEq, Eq)]
pub struct ExprAt {
    pub room: u32,
}

impl Read<Expr> for ExprAt {
    ghost parser = { λ s. spec.expr s.room };

    ghost can = { λ _. ⊤ };

    fn read(&self, alloc: Global, tokens: &mut Cursor<'_>) -> Result<Expr, ReadError> {
        expr(alloc, tokens, self.room)
    }
}

impl Begins for ExprAt {
    ghost begins = { λ _. spec.begins_expr };

    fn begins(&self, kind: Kind) -> bool {
        begins_expr(kind)
    }
}
