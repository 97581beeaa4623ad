//! Statements that have others in them, over what reads a statement one level down: so that each form
//! is proved by itself.

ghost use Rattle.std.specs.Prelude.{◌≡◌};
ghost use Rattle.token_reader.specs.Reader.{Reads};
ghost use Rattle.token_reader.specs.Lists as lists;
ghost use Rattle.statement_parser.specs.Statement as spec;
ghost use Rattle.type_parser.specs.Types as types;

use estelle_tree::{Boxed, Case, Direction, Expr, Kind, Name, Stmt, Stmts};
use expression_parser::expr;
use std::alloc::Global;
use token_reader::{Begins, Cursor, Read, ReadError, separated, separated_if};
use type_parser::ConstantForm;

/// Takes a word that opens a level, and refuses it where none may open.
#[tactic(auto, unfolding(crate::specs::Statement::opens))]
pub fn open_level(tokens: &mut Cursor<'_>, room: u8, word: Kind) -> Result<(), ReadError>
    ensures { Reads (spec.opens room word tokens.old) result tokens.new }
{
    if room == 0 {
        return Err(tokens.refuse());
    }
    tokens.expect(word)
}

/// An expression one level down from where so many may open.
#[tactic(auto, unfolding(crate::specs::Statement::expr_below))]
fn expr_below(alloc: Global, tokens: &mut Cursor<'_>, room: u8) -> Result<Expr, ReadError>
    ensures { Reads (spec.expr_below room tokens.old) result tokens.new }
{
    if room == 0 {
        return Err(tokens.refuse());
    }
    let room = room - 1;
    expr(alloc, tokens, u32::from(room))
}

/// `to | downto`
#[tactic(auto, unfolding(crate::specs::Statement::direction_word))]
fn direction(tokens: &mut Cursor<'_>) -> Result<Direction, ReadError>
    ensures { Reads (spec.direction_word tokens.old) result tokens.new }
{
    match tokens.peek() {
        Kind::To => {
            tokens.take();
            Ok(Direction::To)
        }
        Kind::Downto => {
            tokens.take();
            Ok(Direction::Downto)
        }
        _ => Err(tokens.refuse()),
    }
}

/// `Stmts = Stmt {";" Stmt}` (ISO 7185, 6.8.3.1)
#[tactic(auto, unfolding(crate::specs::Statement::stmts_over))]
pub fn stmts_over<P: Read<Stmt>>(
    alloc: Global,
    tokens: &mut Cursor<'_>,
    item: &P,
) -> Result<Stmts, ReadError>
    requires { P.can item.now }
    ensures { Reads (spec.stmts_over (P.parser item.now) tokens.old) result tokens.new }
{
    let from = tokens.start();
    let before = tokens.left();
    let stmts = separated(alloc, tokens, Kind::Semicolon, item)?;
    Ok(Stmts {
        stmts,
        span: tokens.since_over(from, before),
    })
}

/// `Case = Const {"," Const} ":" Stmt` (ISO 7185, 6.8.3.5)
#[derive(Clone, Copy)]
struct CaseOver<'p, P> {
    below: &'p P,
}

impl<'p, P: Read<Stmt>> Read<Case> for CaseOver<'p, P> {
    ghost parser = { λ s. spec.case_over (P.parser s.below.now) };

    ghost can = { λ s. P.can s.below.now };

    #[tactic(auto, unfolding(crate::specs::Statement::case_over))]
    fn read(&self, alloc: Global, tokens: &mut Cursor<'_>) -> Result<Case, ReadError> {
        let from = tokens.start();
        let labels = separated(alloc, tokens, Kind::Comma, &ConstantForm)?;
        tokens.expect(Kind::Colon)?;
        let body = self.below.read(alloc, tokens)?;
        Ok(Case {
            labels,
            body,
            span: tokens.since(from),
        })
    }
}

impl<'p, P> Begins for CaseOver<'p, P> {
    ghost begins = { λ _. types.begins_constant };

    fn begins(&self, kind: Kind) -> bool {
        ConstantForm.begins(kind)
    }
}

/// `begin Stmts end` (ISO 7185, 6.8.3.2)
#[tactic(auto, unfolding(crate::specs::Statement::begin_over))]
pub fn begin_over<P: Read<Stmt>>(
    alloc: Global,
    tokens: &mut Cursor<'_>,
    room: u8,
    below: &P,
) -> Result<Stmt, ReadError>
    requires { P.can below.now }
    ensures { Reads (spec.begin_over room (P.parser below.now) tokens.old) result tokens.new }
{
    let from = tokens.start();
    open_level(tokens, room, Kind::Begin)?;
    let stmts = stmts_over(alloc, tokens, below)?;
    tokens.expect(Kind::End)?;
    Ok(Stmt::Begin {
        stmts,
        span: tokens.since(from),
    })
}

/// `[else Stmt]`
#[tactic(auto, unfolding(token_reader::specs::Lists::behind))]
fn else_over<P: Read<Stmt>>(
    alloc: Global,
    tokens: &mut Cursor<'_>,
    below: &P,
) -> Result<Option<Boxed<Stmt>>, ReadError>
    requires { P.can below.now }
    ensures { Reads (spec.else_over (P.parser below.now) tokens.old) result tokens.new }
{
    if tokens.sees(Kind::Else) {
        tokens.take();
        Ok(Some(boxed(alloc, tokens, below)?))
    } else {
        Ok(None)
    }
}

/// `if Expr then Stmt [else Stmt]` (ISO 7185, 6.8.3.4): it takes each `else` that it can.
#[tactic(auto, unfolding(crate::specs::Statement::if_over))]
pub fn if_over<P: Read<Stmt>>(
    alloc: Global,
    tokens: &mut Cursor<'_>,
    room: u8,
    below: &P,
) -> Result<Stmt, ReadError>
    requires { P.can below.now }
    ensures { Reads (spec.if_over room (P.parser below.now) tokens.old) result tokens.new }
{
    let from = tokens.start();
    open_level(tokens, room, Kind::If)?;
    let condition = expr_below(alloc, tokens, room)?;
    tokens.expect(Kind::Then)?;
    let then_part = boxed(alloc, tokens, below)?;
    let else_part = else_over(alloc, tokens, below)?;
    Ok(Stmt::If {
        condition,
        then_part,
        else_part,
        span: tokens.since(from),
    })
}

/// `while Expr do Stmt` (ISO 7185, 6.8.3.8)
#[tactic(auto, unfolding(crate::specs::Statement::while_over))]
pub fn while_over<P: Read<Stmt>>(
    alloc: Global,
    tokens: &mut Cursor<'_>,
    room: u8,
    below: &P,
) -> Result<Stmt, ReadError>
    requires { P.can below.now }
    ensures { Reads (spec.while_over room (P.parser below.now) tokens.old) result tokens.new }
{
    let from = tokens.start();
    open_level(tokens, room, Kind::While)?;
    let condition = expr_below(alloc, tokens, room)?;
    tokens.expect(Kind::Do)?;
    let body = boxed(alloc, tokens, below)?;
    Ok(Stmt::While {
        condition,
        body,
        span: tokens.since(from),
    })
}

/// `repeat Stmts until Expr` (ISO 7185, 6.8.3.7)
#[tactic(auto, unfolding(crate::specs::Statement::repeat_over))]
pub fn repeat_over<P: Read<Stmt>>(
    alloc: Global,
    tokens: &mut Cursor<'_>,
    room: u8,
    below: &P,
) -> Result<Stmt, ReadError>
    requires { P.can below.now }
    ensures { Reads (spec.repeat_over room (P.parser below.now) tokens.old) result tokens.new }
{
    let from = tokens.start();
    open_level(tokens, room, Kind::Repeat)?;
    let stmts = stmts_over(alloc, tokens, below)?;
    tokens.expect(Kind::Until)?;
    let condition = expr_below(alloc, tokens, room)?;
    Ok(Stmt::Repeat {
        stmts,
        condition,
        span: tokens.since(from),
    })
}

/// `NAME ":=" Expr`
#[tactic(auto, unfolding(crate::specs::Statement::start_bound))]
fn start_bound(alloc: Global, tokens: &mut Cursor<'_>, room: u8) -> Result<(Name, Expr), ReadError>
    ensures { Reads (spec.start_bound room tokens.old) result tokens.new }
{
    let name = tokens.name(alloc)?;
    tokens.expect(Kind::Becomes)?;
    let first = expr_below(alloc, tokens, room)?;
    Ok((name, first))
}

/// `(to | downto) Expr do`
#[tactic(auto, unfolding(crate::specs::Statement::end_bound))]
fn end_bound(
    alloc: Global,
    tokens: &mut Cursor<'_>,
    room: u8,
) -> Result<(Direction, Expr), ReadError>
    ensures { Reads (spec.end_bound room tokens.old) result tokens.new }
{
    let direction = direction(tokens)?;
    let last = expr_below(alloc, tokens, room)?;
    tokens.expect(Kind::Do)?;
    Ok((direction, last))
}

/// `NAME ":=" Expr (to | downto) Expr do`
#[tactic(auto, unfolding(crate::specs::Statement::bounds))]
fn bounds(
    alloc: Global,
    tokens: &mut Cursor<'_>,
    room: u8,
) -> Result<(Name, Expr, Direction, Expr), ReadError>
    ensures { Reads (spec.bounds room tokens.old) result tokens.new }
{
    let (name, first) = start_bound(alloc, tokens, room)?;
    let (direction, last) = end_bound(alloc, tokens, room)?;
    Ok((name, first, direction, last))
}

/// A statement one level down, on the heap.
fn boxed<P: Read<Stmt>>(
    alloc: Global,
    tokens: &mut Cursor<'_>,
    below: &P,
) -> Result<Boxed<Stmt>, ReadError>
    requires { P.can below.now }
    ensures { Reads (P.parser below.now tokens.old) result tokens.new }
{
    let stmt = below.read(alloc, tokens)?;
    Ok(Boxed::new(alloc, stmt)?)
}

/// `for NAME ":=" Expr (to | downto) Expr do Stmt` (ISO 7185, 6.8.3.9)
#[tactic(auto, unfolding(crate::specs::Statement::for_over))]
pub fn for_over<P: Read<Stmt>>(
    alloc: Global,
    tokens: &mut Cursor<'_>,
    room: u8,
    below: &P,
) -> Result<Stmt, ReadError>
    requires { P.can below.now }
    ensures { Reads (spec.for_over room (P.parser below.now) tokens.old) result tokens.new }
{
    let from = tokens.start();
    open_level(tokens, room, Kind::For)?;
    let (variable, first, direction, last) = bounds(alloc, tokens, room)?;
    let body = boxed(alloc, tokens, below)?;
    Ok(Stmt::Count {
        variable,
        first,
        direction,
        last,
        body,
        span: tokens.since(from),
    })
}

/// `case Expr of Case {";" Case} [";"] end` (ISO 7185, 6.8.3.5)
#[tactic(auto, unfolding(crate::specs::Statement::case_stmt_over))]
pub fn case_stmt_over<P: Read<Stmt>>(
    alloc: Global,
    tokens: &mut Cursor<'_>,
    room: u8,
    below: &P,
) -> Result<Stmt, ReadError>
    requires { P.can below.now }
    ensures { Reads (spec.case_stmt_over room (P.parser below.now) tokens.old) result tokens.new }
{
    let from = tokens.start();
    open_level(tokens, room, Kind::Case)?;
    let selector = expr_below(alloc, tokens, room)?;
    tokens.expect(Kind::Of)?;
    let cases = separated_if(alloc, tokens, Kind::Semicolon, &CaseOver { below })?;
    let semicolon = tokens.eat(Kind::Semicolon);
    tokens.expect(Kind::End)?;
    Ok(Stmt::Case {
        selector,
        cases,
        semicolon,
        span: tokens.since(from),
    })
}
