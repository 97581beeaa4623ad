//! Expressions.

ghost use Rattle.std.specs.Prelude.{◌≡◌, OnOk};
ghost use Rattle.estelle_tree.specs.declared.kind.Kind.TheVariants as k;
ghost use Rattle.estelle_tree.specs.Expressions.{of_relation, of_adding, of_multiplying};
ghost use Rattle.estelle_printer.specs.Forms.{separated};
ghost use Rattle.estelle_printer.specs.ExpressionTokens as spec;
ghost use Rattle.estelle_printer.specs.Writing.{write};

use crate::node::Node;
use crate::types::write_sign;
use crate::writer::Writer;
use estelle_tree::{
    Adding, Args, Elem, Expr, Factor, Kind, Multiplying, Relation, Selector, Sequence, Simple,
    Term, Variable,
};
use std::alloc::AllocError;

fn kind_of_relation(relation: Relation) -> Kind
    ensures { result ≡ of_relation relation }
{
    match relation {
        Relation::Equal => Kind::Equal,
        Relation::NotEqual => Kind::NotEqual,
        Relation::Less => Kind::Less,
        Relation::AtMost => Kind::AtMost,
        Relation::Greater => Kind::Greater,
        Relation::AtLeast => Kind::AtLeast,
        Relation::Member => Kind::In,
    }
}

fn kind_of_adding(adding: Adding) -> Kind
    ensures { result ≡ of_adding adding }
{
    match adding {
        Adding::Plus => Kind::Plus,
        Adding::Minus => Kind::Minus,
        Adding::Or => Kind::Or,
    }
}

fn kind_of_multiplying(multiplying: Multiplying) -> Kind
    ensures { result ≡ of_multiplying multiplying }
{
    match multiplying {
        Multiplying::Star => Kind::Star,
        Multiplying::Div => Kind::Div,
        Multiplying::Mod => Kind::Mod,
        Multiplying::And => Kind::And,
    }
}

#[cycle(expressions)]
fn write_expr(expr: &Expr, out: &mut Writer) -> Result<(), AllocError>
    ensures { OnOk result (out.new ≡ write out.old (spec.expr expr.now)) }
{
    write_simple(&expr.left, out)?;
    match &expr.right {
        Some((relation, right)) => {
            out.mark(kind_of_relation(*relation))?;
            write_simple(right, out)
        }
        None => Ok(()),
    }
}

#[cycle(expressions)]
fn write_simple(simple: &Simple, out: &mut Writer) -> Result<(), AllocError>
    ensures { OnOk result (out.new ≡ write out.old (spec.simple simple.now)) }
{
    write_sign(simple.sign, out)?;
    write_term(&simple.first, out)?;
    for (adding, term) in simple.others.items() {
        out.mark(kind_of_adding(*adding))?;
        write_term(term, out)?;
    }
    Ok(())
}

#[cycle(expressions)]
fn write_term(term: &Term, out: &mut Writer) -> Result<(), AllocError>
    ensures { OnOk result (out.new ≡ write out.old (spec.term term.now)) }
{
    write_factor(&term.first, out)?;
    for (multiplying, factor) in term.others.items() {
        out.mark(kind_of_multiplying(*multiplying))?;
        write_factor(factor, out)?;
    }
    Ok(())
}

#[cycle(expressions)]
fn write_factor(factor: &Factor, out: &mut Writer) -> Result<(), AllocError>
    ensures { OnOk result (out.new ≡ write out.old (spec.factor factor.now)) }
{
    match factor {
        Factor::Number { value, .. } => out.number(*value),
        Factor::Char { value, .. } => out.char(*value),
        Factor::Variable(variable) => write_variable(variable, out),
        Factor::Call { name, args, .. } => {
            name.write(out)?;
            out.mark(Kind::OpenParenthesis)?;
            write_exprs(args.exprs.items(), out)?;
            out.mark(Kind::CloseParenthesis)
        }
        Factor::Paren { inner, .. } => {
            out.mark(Kind::OpenParenthesis)?;
            write_expr(inner.get(), out)?;
            out.mark(Kind::CloseParenthesis)
        }
        Factor::Not { operand, .. } => {
            out.mark(Kind::Not)?;
            write_factor(operand.get(), out)
        }
        Factor::Set { elems, .. } => {
            out.mark(Kind::OpenBracket)?;
            write_elems(elems.items(), out)?;
            out.mark(Kind::CloseBracket)
        }
    }
}

#[cycle(expressions)]
fn write_elems(elems: &[Elem], out: &mut Writer) -> Result<(), AllocError>
    ensures { OnOk result (out.new ≡ write out.old (separated k.Comma spec.elem elems.now)) }
{
    for (place, elem) in elems.iter().enumerate() {
        out.flag(Kind::Comma, place != 0)?;
        write_elem(elem, out)?;
    }
    Ok(())
}

#[cycle(expressions)]
fn write_elem(elem: &Elem, out: &mut Writer) -> Result<(), AllocError>
    ensures { OnOk result (out.new ≡ write out.old (spec.elem elem.now)) }
{
    write_expr(&elem.first, out)?;
    match &elem.last {
        Some(last) => {
            out.mark(Kind::Dots)?;
            write_expr(last, out)
        }
        None => Ok(()),
    }
}

#[cycle(expressions)]
fn write_exprs(exprs: &[Expr], out: &mut Writer) -> Result<(), AllocError>
    ensures { OnOk result (out.new ≡ write out.old (separated k.Comma spec.expr exprs.now)) }
{
    for (place, expr) in exprs.iter().enumerate() {
        out.flag(Kind::Comma, place != 0)?;
        write_expr(expr, out)?;
    }
    Ok(())
}

#[cycle(expressions)]
fn write_variable(variable: &Variable, out: &mut Writer) -> Result<(), AllocError>
    ensures { OnOk result (out.new ≡ write out.old (spec.variable variable.now)) }
{
    variable.name.write(out)?;
    for selector in variable.selectors.items() {
        write_selector(selector, out)?;
    }
    Ok(())
}

#[cycle(expressions)]
fn write_selector(selector: &Selector, out: &mut Writer) -> Result<(), AllocError>
    ensures { OnOk result (out.new ≡ write out.old (spec.selector selector.now)) }
{
    match selector {
        Selector::Index(exprs) => {
            out.mark(Kind::OpenBracket)?;
            write_exprs(exprs.items(), out)?;
            out.mark(Kind::CloseBracket)
        }
        Selector::Field(name) => {
            out.mark(Kind::Dot)?;
            name.write(out)
        }
    }
}

impl Node for Expr {
    ghost tokens = { spec.expr };

    fn write(&self, out: &mut Writer) -> Result<(), AllocError> {
        write_expr(self, out)
    }
}

impl Node for Variable {
    ghost tokens = { spec.variable };

    fn write(&self, out: &mut Writer) -> Result<(), AllocError> {
        write_variable(self, out)
    }
}

impl Node for Args {
    ghost tokens = { spec.args };

    fn write(&self, out: &mut Writer) -> Result<(), AllocError> {
        write_exprs(self.exprs.items(), out)
    }
}
