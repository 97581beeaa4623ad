//! Factors, over what reads those one level down.

ghost use Rattle.token_reader.specs.Reader.{Reads};
ghost use Rattle.expression_parser.specs.Expression as spec;
ghost use Rattle.estelle_tree.specs.declared.kind.Kind.TheVariants.{OpenParenthesis};

use crate::access::{nest, variable_after};
use crate::operation::{ArgsOver, ExprOver, elems};
use estelle_tree::{Boxed, Factor, Kind, Name};
use std::alloc::Global;
use token_reader::{Cursor, Read, ReadError};

/// `NUMBER`
#[tactic(auto, unfolding(crate::specs::Expression::number_factor))]
fn number(tokens: &mut Cursor<'_>) -> Result<Factor, ReadError>
    ensures { Reads (spec.number_factor tokens.old) result tokens.new }
{
    let from = tokens.start();
    let value = tokens.number()?;
    Ok(Factor::Number {
        value,
        span: tokens.since(from),
    })
}

/// `CHAR`
#[tactic(auto, unfolding(crate::specs::Expression::char_factor))]
fn char(tokens: &mut Cursor<'_>) -> Result<Factor, ReadError>
    ensures { Reads (spec.char_factor tokens.old) result tokens.new }
{
    let from = tokens.start();
    let value = tokens.char()?;
    Ok(Factor::Char {
        value,
        span: tokens.since(from),
    })
}

/// A factor, where so many levels may open in it.
#[derive(Clone, Copy)]
pub struct FactorOver<'p, P> {
    pub room: u32,
    pub below: &'p P,
}

impl<'p, P: Read<Factor>> FactorOver<'p, P> {
    /// `NAME "(" Args ")"` after its name, which starts there.
    #[tactic(auto, unfolding(crate::specs::Expression::call_after))]
    fn call_after(
        &self,
        alloc: Global,
        tokens: &mut Cursor<'_>,
        from: u32,
        name: Name,
    ) -> Result<Factor, ReadError>
        requires { P.can self.now.below.now }
        ensures { Reads (spec.call_after self.now.room (P.parser self.now.below.now) from name tokens.old) result tokens.new }
    {
        nest(tokens, self.room)?;
        let args = ArgsOver { factor: self.below }.read(alloc, tokens)?;
        tokens.expect(Kind::CloseParenthesis)?;
        Ok(Factor::Call {
            name,
            args,
            span: tokens.since(from),
        })
    }

    /// A variable after its name, which starts there.
    fn plain_after(
        &self,
        alloc: Global,
        tokens: &mut Cursor<'_>,
        from: u32,
        name: Name,
    ) -> Result<Factor, ReadError>
        requires { P.can self.now.below.now }
        ensures { Reads (spec.plain_after self.now.room (P.parser self.now.below.now) from name tokens.old) result tokens.new }
    {
        let variable = variable_after(alloc, tokens, self.room, self.below, from, name)?;
        Ok(Factor::Variable(variable))
    }

    /// A name with `(` behind it: a call where the parenthesis may open a level.
    fn may_be_call(
        &self,
        alloc: Global,
        tokens: &mut Cursor<'_>,
        from: u32,
        name: Name,
    ) -> Result<Factor, ReadError>
        requires { P.can self.now.below.now }
        ensures { Reads (spec.named_by self.now.room (P.parser self.now.below.now) from name OpenParenthesis tokens.old) result tokens.new }
    {
        if self.room == 0 {
            return self.plain_after(alloc, tokens, from, name);
        }
        self.call_after(alloc, tokens, from, name)
    }

    /// A variable or a call.
    #[tactic(auto, unfolding(crate::specs::Expression::named))]
    fn named(&self, alloc: Global, tokens: &mut Cursor<'_>) -> Result<Factor, ReadError>
        requires { P.can self.now.below.now }
        ensures { Reads (spec.named self.now.room (P.parser self.now.below.now) tokens.old) result tokens.new }
    {
        let from = tokens.start();
        let name = tokens.name(alloc)?;
        match tokens.peek() {
            Kind::OpenParenthesis => self.may_be_call(alloc, tokens, from, name),
            _ => self.plain_after(alloc, tokens, from, name),
        }
    }

    /// `"(" Expr ")"`
    #[tactic(auto, unfolding(crate::specs::Expression::paren_over))]
    fn paren(&self, alloc: Global, tokens: &mut Cursor<'_>) -> Result<Factor, ReadError>
        requires { P.can self.now.below.now }
        ensures { Reads (spec.paren_over self.now.room (P.parser self.now.below.now) tokens.old) result tokens.new }
    {
        let from = tokens.start();
        nest(tokens, self.room)?;
        let inner = ExprOver { factor: self.below }.read(alloc, tokens)?;
        let inner = Boxed::new(alloc, inner)?;
        tokens.expect(Kind::CloseParenthesis)?;
        Ok(Factor::Paren {
            inner,
            span: tokens.since(from),
        })
    }

    /// `not Factor`
    #[tactic(auto, unfolding(crate::specs::Expression::not_over))]
    fn not(&self, alloc: Global, tokens: &mut Cursor<'_>) -> Result<Factor, ReadError>
        requires { P.can self.now.below.now }
        ensures { Reads (spec.not_over self.now.room (P.parser self.now.below.now) tokens.old) result tokens.new }
    {
        let from = tokens.start();
        nest(tokens, self.room)?;
        let operand = Boxed::new(alloc, self.below.read(alloc, tokens)?)?;
        Ok(Factor::Not {
            operand,
            span: tokens.since(from),
        })
    }

    /// `"[" [Elem {"," Elem}] "]"`
    #[tactic(auto, unfolding(crate::specs::Expression::set_over))]
    fn set(&self, alloc: Global, tokens: &mut Cursor<'_>) -> Result<Factor, ReadError>
        requires { P.can self.now.below.now }
        ensures { Reads (spec.set_over self.now.room (P.parser self.now.below.now) tokens.old) result tokens.new }
    {
        let from = tokens.start();
        nest(tokens, self.room)?;
        let elems = elems(alloc, tokens, self.below)?;
        tokens.expect(Kind::CloseBracket)?;
        Ok(Factor::Set {
            elems,
            span: tokens.since(from),
        })
    }
}

impl<'p, P: Read<Factor>> Read<Factor> for FactorOver<'p, P> {
    ghost parser = { λ s. spec.factor_over s.room (P.parser s.below.now) };

    ghost can = { λ s. P.can s.below.now };

    #[tactic(auto, unfolding(crate::specs::Expression::factor_over))]
    fn read(&self, alloc: Global, tokens: &mut Cursor<'_>) -> Result<Factor, ReadError> {
        match tokens.peek() {
            Kind::Number => number(tokens),
            Kind::Char => char(tokens),
            Kind::Name => self.named(alloc, tokens),
            Kind::OpenParenthesis => self.paren(alloc, tokens),
            Kind::Not => self.not(alloc, tokens),
            Kind::OpenBracket => self.set(alloc, tokens),
            _ => Err(tokens.refuse()),
        }
    }
}
