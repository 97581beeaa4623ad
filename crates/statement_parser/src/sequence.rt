//! Statements and statement sequences, where so many more levels of nesting may open.

ghost use Rattle.std.specs.Prelude.{◌≡◌, ⊤};
ghost use Rattle.estelle_tree.specs.Input as place;
ghost use Rattle.token_reader.specs.Reader.{Reads};
ghost use Rattle.token_reader.specs.Nests.{Nests};
ghost use Rattle.expression_parser.specs.Expression as expression;
ghost use Rattle.statement_parser.specs.Statement as spec;

use crate::simple::{assignment, attach, call, connect, detach, disconnect, init, output, release};
use crate::structured::{
    begin_over, case_stmt_over, for_over, if_over, repeat_over, stmts_over, while_over,
};
use estelle_tree::{Kind, Stmt, Stmts};
use std::alloc::Global;
use token_reader::{Cursor, Read, ReadError};

/// What a NAME with `[` behind it begins: an assignment where the bracket may open a level.
fn indexed(alloc: Global, tokens: &mut Cursor<'_>, room: u8) -> Result<Stmt, ReadError>
    ensures { Reads (expression.where_room room (spec.assignment room) (spec.call room) tokens.old) result tokens.new }
{
    if room == 0 {
        return call(alloc, tokens, room);
    }
    assignment(alloc, tokens, room)
}

/// What a NAME begins: an assignment where `:=`, `[` or `.` comes next, and else a call.
fn named(alloc: Global, tokens: &mut Cursor<'_>, room: u8) -> Result<Stmt, ReadError>
    ensures { Reads (spec.named_by room (place.kind (place.next tokens.old)) tokens.old) result tokens.new }
{
    match tokens.peek_second() {
        Kind::Becomes | Kind::Dot => assignment(alloc, tokens, room),
        Kind::OpenBracket => indexed(alloc, tokens, room),
        _ => call(alloc, tokens, room),
    }
}

/// A statement whose first word opens a level, and where none may open the empty one.
fn nested<P: Read<Stmt>>(
    alloc: Global,
    tokens: &mut Cursor<'_>,
    room: u8,
    below: &P,
) -> Result<Stmt, ReadError>
    requires { P.can below.now }
    ensures { Reads (spec.nested room (P.parser below.now) (place.kind tokens.old) tokens.old) result tokens.new }
{
    if room == 0 {
        return Ok(Stmt::Empty);
    }
    match tokens.peek() {
        Kind::Begin => begin_over(alloc, tokens, room, below),
        Kind::If => if_over(alloc, tokens, room, below),
        Kind::While => while_over(alloc, tokens, room, below),
        Kind::Repeat => repeat_over(alloc, tokens, room, below),
        Kind::For => for_over(alloc, tokens, room, below),
        Kind::Case => case_stmt_over(alloc, tokens, room, below),
        _ => Ok(Stmt::Empty),
    }
}

/// A statement, over what reads those one level down. The first token tells which one comes.
#[tactic(auto, unfolding(crate::specs::Statement::stmt_over))]
fn stmt_over<P: Read<Stmt>>(
    alloc: Global,
    tokens: &mut Cursor<'_>,
    room: u8,
    below: &P,
) -> Result<Stmt, ReadError>
    requires { P.can below.now }
    ensures { Reads (spec.stmt_over room (P.parser below.now) tokens.old) result tokens.new }
{
    match tokens.peek() {
        Kind::Name => named(alloc, tokens, room),
        Kind::Begin | Kind::If | Kind::While | Kind::Repeat | Kind::For | Kind::Case => {
            nested(alloc, tokens, room, below)
        }
        Kind::Init => init(alloc, tokens, room),
        Kind::Release => release(alloc, tokens),
        Kind::Connect => connect(alloc, tokens),
        Kind::Disconnect => disconnect(alloc, tokens),
        Kind::Attach => attach(alloc, tokens),
        Kind::Detach => detach(alloc, tokens),
        Kind::Output => output(alloc, tokens, room),
        _ => Ok(Stmt::Empty),
    }
}

/// A function that reads the statements one level down, where so many levels may open.
#[derive(Clone, Copy)]
pub struct Below<F> {
    pub room: u8,
    pub read: F,
}

impl<F: Fn(Global, &mut Cursor<'_>, u8) -> Result<Stmt, ReadError>> Read<Stmt> for Below<F> {
    ghost parser = { λ s. spec.stmt_below s.room };

    ghost can = { λ s. Nests spec.stmt_below s.room (F.pre s.read) (F.post s.read) };

    fn read(&self, alloc: Global, tokens: &mut Cursor<'_>) -> Result<Stmt, ReadError> {
        (self.read)(alloc, tokens, self.room)
    }
}

/// A statement one level down from where so many levels may open.
pub fn stmt_below(alloc: Global, tokens: &mut Cursor<'_>, room: u8) -> Result<Stmt, ReadError>
    ensures { Reads (spec.stmt_below room tokens.old) result tokens.new }
{
    if room == 0 {
        return Err(tokens.refuse());
    }
    let room = room - 1;
    let below = Below {
        room,
        read: stmt_below,
    };
    stmt_over(alloc, tokens, room, &below)
}

/// Reads a statement (ISO 7185, 6.8; ISO/IEC 9074), in which at most so many levels of nesting open:
/// each of `begin`, `if`, `while`, `repeat`, `for` and `case` opens one, and so do the brackets and `not`
/// of an expression. An `else` belongs to the nearest `if` that can take it. Where no statement comes,
/// the empty one is read, and so before a word that would open a level too many. The token at which no
/// statement goes on is refused.
#[tactic(auto, unfolding(crate::specs::Statement::stmt_below))]
pub fn stmt(alloc: Global, tokens: &mut Cursor<'_>, room: u8) -> Result<Stmt, ReadError>
    ensures { Reads (spec.stmt room tokens.old) result tokens.new }
{
    let below = Below {
        room,
        read: stmt_below,
    };
    stmt_over(alloc, tokens, room, &below)
}

/// `Stmt`, in which at most so many levels of nesting open.
#[derive(Clone, Copy, Debug, PartialEq, Eq)]
pub struct StmtAt {
    pub room: u8,
}

impl Read<Stmt> for StmtAt {
    ghost parser = { λ s. spec.stmt s.room };

    ghost can = { λ _. ⊤ };

    fn read(&self, alloc: Global, tokens: &mut Cursor<'_>) -> Result<Stmt, ReadError> {
        stmt(alloc, tokens, self.room)
    }
}

/// Reads a statement sequence (ISO 7185, 6.8.3.1), in which at most so many levels of nesting open.
pub fn stmts(alloc: Global, tokens: &mut Cursor<'_>, room: u8) -> Result<Stmts, ReadError>
    ensures { Reads (spec.stmts room tokens.old) result tokens.new }
{
    stmts_over(alloc, tokens, &StmtAt { room })
}

/// `Stmts`, in which at most so many levels of nesting open.
#[derive(Clone, Copy, Debug, PartialEq, Eq)]
pub struct StmtsAt {
    pub room: u8,
}

impl Read<Stmts> for StmtsAt {
    ghost parser = { λ s. spec.stmts s.room };

    ghost can = { λ _. ⊤ };

    fn read(&self, alloc: Global, tokens: &mut Cursor<'_>) -> Result<Stmts, ReadError> {
        stmts(alloc, tokens, self.room)
    }
}
