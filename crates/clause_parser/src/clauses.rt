//! Labels and clauses.

ghost use Rattle.std.specs.Prelude.{◌≡◌, ⊤};
ghost use Rattle.token_reader.specs.Reader.{Reads};
ghost use Rattle.clause_parser.specs.Clause as spec;

use estelle_tree::{AnyDom, Clause, DelayHigh, Kind, Label, NameList, NextState};
use expression_parser::expr;
use std::alloc::Global;
use token_reader::{Begins, Behind, Cursor, Ended, Optional, Read, ReadError, separated};
use type_parser::{constant, names, ordinal};

/// Reads `name NAME ":"`, a label (ISO/IEC 9074: the name of a transition).
#[tactic(auto, unfolding(crate::specs::Clause::label))]
pub fn label(alloc: Global, tokens: &mut Cursor<'_>) -> Result<Label, ReadError>
    ensures { Reads (spec.label tokens.old) result tokens.new }
{
    let from = tokens.start();
    tokens.expect(Kind::NameWord)?;
    let name = tokens.name(alloc)?;
    tokens.expect(Kind::Colon)?;
    Ok(Label {
        name,
        span: tokens.since(from),
    })
}

/// `Label`
#[derive(Clone, Copy)]
pub struct LabelForm;

impl Read<Label> for LabelForm {
    ghost parser = { λ _. spec.label };

    ghost can = { λ _. ⊤ };

    fn read(&self, alloc: Global, tokens: &mut Cursor<'_>) -> Result<Label, ReadError> {
        label(alloc, tokens)
    }
}

impl Begins for LabelForm {
    ghost begins = { λ _. spec.begins_label };

    fn begins(&self, kind: Kind) -> bool {
        matches!(kind, Kind::NameWord)
    }
}

/// `Names ":" Ord`
#[derive(Clone, Copy)]
struct AnyDomForm;

impl Read<AnyDom> for AnyDomForm {
    ghost parser = { λ _. spec.any_dom };

    ghost can = { λ _. ⊤ };

    #[tactic(auto, unfolding(crate::specs::Clause::any_dom))]
    fn read(&self, alloc: Global, tokens: &mut Cursor<'_>) -> Result<AnyDom, ReadError> {
        let from = tokens.start();
        let names = names(alloc, tokens)?;
        tokens.expect(Kind::Colon)?;
        let domain = ordinal(alloc, tokens)?;
        Ok(AnyDom {
            names,
            domain,
            span: tokens.since(from),
        })
    }
}

/// `NAME | same`
#[tactic(auto, unfolding(crate::specs::Clause::next_state))]
fn next_state(alloc: Global, tokens: &mut Cursor<'_>) -> Result<NextState, ReadError>
    ensures { Reads (spec.next_state tokens.old) result tokens.new }
{
    match tokens.peek() {
        Kind::Same => {
            tokens.take();
            Ok(NextState::Same)
        }
        _ => Ok(NextState::Name(tokens.name(alloc)?)),
    }
}

/// `"(" Names ")"`
#[derive(Clone, Copy)]
struct ParamsForm;

impl Read<NameList> for ParamsForm {
    ghost parser = { λ _. spec.params };

    ghost can = { λ _. ⊤ };

    #[tactic(auto, unfolding(crate::specs::Clause::params))]
    fn read(&self, alloc: Global, tokens: &mut Cursor<'_>) -> Result<NameList, ReadError> {
        tokens.expect(Kind::OpenParenthesis)?;
        let names = names(alloc, tokens)?;
        tokens.expect(Kind::CloseParenthesis)?;
        Ok(names)
    }
}

impl Begins for ParamsForm {
    ghost begins = { λ _. spec.begins_params };

    fn begins(&self, kind: Kind) -> bool {
        matches!(kind, Kind::OpenParenthesis)
    }
}

/// `Expr | "*"`
#[derive(Clone, Copy)]
struct DelayHighAt {
    room: u8,
}

impl Read<DelayHigh> for DelayHighAt {
    ghost parser = { λ s. spec.delay_high s.room };

    ghost can = { λ _. ⊤ };

    #[tactic(auto, unfolding(crate::specs::Clause::delay_high))]
    fn read(&self, alloc: Global, tokens: &mut Cursor<'_>) -> Result<DelayHigh, ReadError> {
        match tokens.peek() {
            Kind::Star => {
                tokens.take();
                Ok(DelayHigh::Star)
            }
            _ => Ok(DelayHigh::Expr(expr(alloc, tokens, u32::from(self.room))?)),
        }
    }
}

/// `from Names`
#[tactic(auto, unfolding(crate::specs::Clause::from_clause))]
fn from_clause(alloc: Global, tokens: &mut Cursor<'_>) -> Result<Clause, ReadError>
    ensures { Reads (spec.from_clause tokens.old) result tokens.new }
{
    let from = tokens.start();
    tokens.expect(Kind::From)?;
    let states = names(alloc, tokens)?;
    Ok(Clause::From {
        states,
        span: tokens.since(from),
    })
}

/// `to (NAME | same)`
#[tactic(auto, unfolding(crate::specs::Clause::to_clause))]
fn to_clause(alloc: Global, tokens: &mut Cursor<'_>) -> Result<Clause, ReadError>
    ensures { Reads (spec.to_clause tokens.old) result tokens.new }
{
    let from = tokens.start();
    tokens.expect(Kind::To)?;
    let state = next_state(alloc, tokens)?;
    Ok(Clause::To {
        state,
        span: tokens.since(from),
    })
}

/// `when NAME "." NAME ["(" Names ")"]`
#[tactic(auto, unfolding(crate::specs::Clause::when_clause))]
fn when_clause(alloc: Global, tokens: &mut Cursor<'_>) -> Result<Clause, ReadError>
    ensures { Reads (spec.when_clause tokens.old) result tokens.new }
{
    let from = tokens.start();
    tokens.expect(Kind::When)?;
    let ip = tokens.name(alloc)?;
    tokens.expect(Kind::Dot)?;
    let interaction = tokens.name(alloc)?;
    let params = Optional { item: &ParamsForm }.read(alloc, tokens)?;
    Ok(Clause::When {
        ip,
        interaction,
        params,
        span: tokens.since(from),
    })
}

/// `provided Expr`
#[tactic(auto, unfolding(crate::specs::Clause::provided_clause))]
fn provided_clause(alloc: Global, tokens: &mut Cursor<'_>, room: u8) -> Result<Clause, ReadError>
    ensures { Reads (spec.provided_clause room tokens.old) result tokens.new }
{
    let from = tokens.start();
    tokens.expect(Kind::Provided)?;
    let condition = expr(alloc, tokens, u32::from(room))?;
    Ok(Clause::Provided {
        condition,
        span: tokens.since(from),
    })
}

/// `priority Const`
#[tactic(auto, unfolding(crate::specs::Clause::priority_clause))]
fn priority_clause(alloc: Global, tokens: &mut Cursor<'_>) -> Result<Clause, ReadError>
    ensures { Reads (spec.priority_clause tokens.old) result tokens.new }
{
    let from = tokens.start();
    tokens.expect(Kind::Priority)?;
    let value = constant(alloc, tokens)?;
    Ok(Clause::Priority {
        value,
        span: tokens.since(from),
    })
}

/// `any AnyDom {";" AnyDom} do`
#[tactic(auto, unfolding(crate::specs::Clause::any_clause))]
fn any_clause(alloc: Global, tokens: &mut Cursor<'_>) -> Result<Clause, ReadError>
    ensures { Reads (spec.any_clause tokens.old) result tokens.new }
{
    let from = tokens.start();
    tokens.expect(Kind::Any)?;
    let domains = separated(alloc, tokens, Kind::Semicolon, &AnyDomForm)?;
    tokens.expect(Kind::Do)?;
    Ok(Clause::Any {
        domains,
        span: tokens.since(from),
    })
}

/// `delay "(" Expr ["," (Expr | "*")] ")"`
#[tactic(auto, unfolding(crate::specs::Clause::delay_clause))]
fn delay_clause(alloc: Global, tokens: &mut Cursor<'_>, room: u8) -> Result<Clause, ReadError>
    ensures { Reads (spec.delay_clause room tokens.old) result tokens.new }
{
    let from = tokens.start();
    tokens.expect(Kind::Delay)?;
    tokens.expect(Kind::OpenParenthesis)?;
    let low = expr(alloc, tokens, u32::from(room))?;
    let high = Ended {
        kind: Kind::CloseParenthesis,
        item: &Behind {
            kind: Kind::Comma,
            item: &DelayHighAt { room },
        },
    }
    .read(alloc, tokens)?;
    Ok(Clause::Delay {
        low,
        high,
        span: tokens.since(from),
    })
}

/// Reads a clause of a transition (ISO/IEC 9074), in which at most so many levels of nesting open.
#[tactic(auto, unfolding(crate::specs::Clause::clause))]
pub fn clause(alloc: Global, tokens: &mut Cursor<'_>, room: u8) -> Result<Clause, ReadError>
    ensures { Reads (spec.clause room tokens.old) result tokens.new }
{
    match tokens.peek() {
        Kind::From => from_clause(alloc, tokens),
        Kind::To => to_clause(alloc, tokens),
        Kind::When => when_clause(alloc, tokens),
        Kind::Provided => provided_clause(alloc, tokens, room),
        Kind::Priority => priority_clause(alloc, tokens),
        Kind::Any => any_clause(alloc, tokens),
        Kind::Delay => delay_clause(alloc, tokens, room),
        _ => Err(tokens.refuse()),
    }
}

/// Whether a clause begins with a token of this kind.
pub fn begins_clause(kind: Kind) -> bool
    ensures { result ≡ spec.begins_clause kind }
{
    matches!(
        kind,
        Kind::From
            | Kind::To
            | Kind::When
            | Kind::Provided
            | Kind::Priority
            | Kind::Any
            | Kind::Delay
    )
}
