//! Terms, simple expressions, expressions and lists of them, over what reads the factors in them.

ghost use Rattle.token_reader.specs.Reader.{Reads};
ghost use Rattle.expression_parser.specs.Expression as spec;

use crate::operator::{Marked, mark};
use estelle_tree::{Args, Elem, Expr, Factor, Items, Kind, Simple, Term};
use std::alloc::Global;
use token_reader::{Behind, Cursor, Read, ReadError, repeated, separated};

/// `Term = Factor {("*" | div | mod | and) Factor}`
#[derive(Clone, Copy)]
pub struct TermOver<'p, P> {
    pub factor: &'p P,
}

impl<'p, P: Read<Factor>> Read<Term> for TermOver<'p, P> {
    ghost parser = { λ s. spec.term_over (P.parser s.factor.now) };

    ghost can = { λ s. P.can s.factor.now };

    #[tactic(auto, unfolding(crate::specs::Expression::term_over))]
    fn read(&self, alloc: Global, tokens: &mut Cursor<'_>) -> Result<Term, ReadError> {
        let from = tokens.start();
        let first = self.factor.read(alloc, tokens)?;
        let step = Marked { item: self.factor };
        let others = repeated(alloc, tokens, Items::new(alloc), &step)?;
        Ok(Term {
            first,
            others,
            span: tokens.since(from),
        })
    }
}

/// `Simple = ["+" | "-"] Term {("+" | "-" | or) Term}`
#[derive(Clone, Copy)]
pub struct SimpleOver<'p, P> {
    pub factor: &'p P,
}

impl<'p, P: Read<Factor>> Read<Simple> for SimpleOver<'p, P> {
    ghost parser = { λ s. spec.simple_over (P.parser s.factor.now) };

    ghost can = { λ s. P.can s.factor.now };

    #[tactic(auto, unfolding(crate::specs::Expression::simple_over))]
    fn read(&self, alloc: Global, tokens: &mut Cursor<'_>) -> Result<Simple, ReadError> {
        let from = tokens.start();
        let sign = mark(tokens);
        let term = TermOver {
            factor: self.factor,
        };
        let first = term.read(alloc, tokens)?;
        let step = Marked { item: &term };
        let others = repeated(alloc, tokens, Items::new(alloc), &step)?;
        Ok(Simple {
            sign,
            first,
            others,
            span: tokens.since(from),
        })
    }
}

/// `Expr = Simple [("=" | "<>" | "<" | "<=" | ">" | ">=" | in) Simple]`
#[derive(Clone, Copy)]
pub struct ExprOver<'p, P> {
    pub factor: &'p P,
}

impl<'p, P: Read<Factor>> Read<Expr> for ExprOver<'p, P> {
    ghost parser = { λ s. spec.expr_over (P.parser s.factor.now) };

    ghost can = { λ s. P.can s.factor.now };

    #[tactic(auto, unfolding(crate::specs::Expression::expr_over))]
    fn read(&self, alloc: Global, tokens: &mut Cursor<'_>) -> Result<Expr, ReadError> {
        let from = tokens.start();
        let simple = SimpleOver {
            factor: self.factor,
        };
        let left = simple.read(alloc, tokens)?;
        let behind = Marked { item: &simple };
        let right = behind.read(alloc, tokens)?;
        Ok(Expr {
            left,
            right,
            span: tokens.since(from),
        })
    }
}

/// `Args = Expr {"," Expr}`
#[derive(Clone, Copy)]
pub struct ArgsOver<'p, P> {
    pub factor: &'p P,
}

impl<'p, P: Read<Factor>> Read<Args> for ArgsOver<'p, P> {
    ghost parser = { λ s. spec.args_over (P.parser s.factor.now) };

    ghost can = { λ s. P.can s.factor.now };

    #[tactic(auto, unfolding(crate::specs::Expression::args_over))]
    fn read(&self, alloc: Global, tokens: &mut Cursor<'_>) -> Result<Args, ReadError> {
        let from = tokens.start();
        let expr = ExprOver {
            factor: self.factor,
        };
        let exprs = separated(alloc, tokens, Kind::Comma, &expr)?;
        Ok(Args {
            exprs,
            span: tokens.since(from),
        })
    }
}

/// `Elem = Expr [".." Expr]`
#[derive(Clone, Copy)]
pub struct ElemOver<'p, P> {
    pub factor: &'p P,
}

impl<'p, P: Read<Factor>> Read<Elem> for ElemOver<'p, P> {
    ghost parser = { λ s. spec.elem_over (P.parser s.factor.now) };

    ghost can = { λ s. P.can s.factor.now };

    #[tactic(auto, unfolding(crate::specs::Expression::elem_over))]
    fn read(&self, alloc: Global, tokens: &mut Cursor<'_>) -> Result<Elem, ReadError> {
        let from = tokens.start();
        let expr = ExprOver {
            factor: self.factor,
        };
        let first = expr.read(alloc, tokens)?;
        let behind = Behind {
            kind: Kind::Dots,
            item: &expr,
        };
        let last = behind.read(alloc, tokens)?;
        Ok(Elem {
            first,
            last,
            span: tokens.since(from),
        })
    }
}

/// `[Elem {"," Elem}]`, before `]`
#[tactic(auto, unfolding(crate::specs::Expression::elems_over))]
pub fn elems<P: Read<Factor>>(
    alloc: Global,
    tokens: &mut Cursor<'_>,
    factor: &P,
) -> Result<Items<Elem>, ReadError>
    requires { P.can factor.now }
    ensures { Reads (spec.elems_over (P.parser factor.now) tokens.old) result tokens.new }
{
    if tokens.sees(Kind::CloseBracket) {
        return Ok(Items::new(alloc));
    }
    separated(alloc, tokens, Kind::Comma, &ElemOver { factor })
}
