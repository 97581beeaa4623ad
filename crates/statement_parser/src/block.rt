//! The statement part of a block, and routines.

ghost use Rattle.std.specs.Prelude.{◌≡◌, ⊤};
ghost use Rattle.token_reader.specs.Reader.{Reads};
ghost use Rattle.statement_parser.specs.Routine as spec;

use crate::sequence::{Below, stmt_below};
use crate::structured::{open_level, stmts_over};
use estelle_tree::{BlockDecl, Items, Kind, Routine, RoutineForm, Stmts};
use std::alloc::Global;
use token_reader::{Begins, Cursor, Optional, Read, ReadError, repeated};
use type_parser::{BlockDeclForm, FormalsForm};

/// Reads `begin Stmts end ";"` (ISO 7185, 6.2.1), in which at most so many levels of nesting open, that
/// of this `begin` included.
#[tactic(auto, unfolding(crate::specs::Routine::statement_part))]
pub fn statement_part(alloc: Global, tokens: &mut Cursor<'_>, room: u8) -> Result<Stmts, ReadError>
    ensures { Reads (spec.statement_part room tokens.old) result tokens.new }
{
    open_level(tokens, room, Kind::Begin)?;
    let below = Below {
        room,
        read: stmt_below,
    };
    let stmts = stmts_over(alloc, tokens, &below)?;
    tokens.expect(Kind::End)?;
    tokens.expect(Kind::Semicolon)?;
    Ok(stmts)
}

/// `begin Stmts end ";"`, in which at most so many levels of nesting open.
#[derive(Clone, Copy, Debug, PartialEq, Eq)]
pub struct StatementPartAt {
    pub room: u8,
}

impl Read<Stmts> for StatementPartAt {
    ghost parser = { λ s. spec.statement_part s.room };

    ghost can = { λ _. ⊤ };

    fn read(&self, alloc: Global, tokens: &mut Cursor<'_>) -> Result<Stmts, ReadError> {
        statement_part(alloc, tokens, self.room)
    }
}

impl Begins for StatementPartAt {
    ghost begins = { λ _. spec.begins_statement_part };

    fn begins(&self, kind: Kind) -> bool {
        matches!(kind, Kind::Begin)
    }
}

/// `procedure | function`: whether it is a function.
#[tactic(auto, unfolding(crate::specs::Routine::routine_word))]
fn routine_word(tokens: &mut Cursor<'_>) -> Result<bool, ReadError>
    ensures { Reads (spec.routine_word tokens.old) result tokens.new }
{
    match tokens.peek() {
        Kind::Procedure => {
            tokens.take();
            Ok(false)
        }
        Kind::Function => {
            tokens.take();
            Ok(true)
        }
        _ => Err(tokens.refuse()),
    }
}

/// `":" NAME`
#[tactic(auto, unfolding(crate::specs::Routine::function_result))]
fn function_result(alloc: Global, tokens: &mut Cursor<'_>) -> Result<RoutineForm, ReadError>
    ensures { Reads (spec.function_result tokens.old) result tokens.new }
{
    tokens.expect(Kind::Colon)?;
    let result = tokens.name(alloc)?;
    Ok(RoutineForm::Function { result })
}

/// What stands behind the parameters of a routine.
fn result(
    alloc: Global,
    tokens: &mut Cursor<'_>,
    is_function: bool,
) -> Result<RoutineForm, ReadError>
    ensures { Reads (spec.result is_function tokens.old) result tokens.new }
{
    if is_function {
        function_result(alloc, tokens)
    } else {
        Ok(RoutineForm::Procedure)
    }
}

/// Reads `{BlockDecl}` (ISO 7185, 6.2.1): all definition parts that come, in which at most so many levels
/// of nesting open.
pub fn block_decls(
    alloc: Global,
    tokens: &mut Cursor<'_>,
    room: u8,
) -> Result<Items<BlockDecl>, ReadError>
    ensures { Reads (spec.block_decls room tokens.old) result tokens.new }
{
    let decl = BlockDeclForm { room };
    repeated(alloc, tokens, Items::new(alloc), &Optional { item: &decl })
}

/// Reads a procedure or function (ISO 7185, 6.6.1 and 6.6.2), in which at most so many levels of nesting
/// open.
#[tactic(auto, unfolding(crate::specs::Routine::routine))]
pub fn routine(alloc: Global, tokens: &mut Cursor<'_>, room: u8) -> Result<Routine, ReadError>
    ensures { Reads (spec.routine room tokens.old) result tokens.new }
{
    let from = tokens.start();
    let is_function = routine_word(tokens)?;
    let name = tokens.name(alloc)?;
    let formals = Optional { item: &FormalsForm }.read(alloc, tokens)?;
    let form = result(alloc, tokens, is_function)?;
    tokens.expect(Kind::Semicolon)?;
    let decls = block_decls(alloc, tokens, room)?;
    let body = statement_part(alloc, tokens, room)?;
    Ok(Routine {
        name,
        formals,
        form,
        decls,
        body,
        span: tokens.since(from),
    })
}

/// `Routine`, in which at most so many levels of nesting open.
#[derive(Clone, Copy, Debug, PartialEq, Eq)]
pub struct RoutineAt {
    pub room: u8,
}

impl Read<Routine> for RoutineAt {
    ghost parser = { λ s. spec.routine s.room };

    ghost can = { λ _. ⊤ };

    fn read(&self, alloc: Global, tokens: &mut Cursor<'_>) -> Result<Routine, ReadError> {
        routine(alloc, tokens, self.room)
    }
}

impl Begins for RoutineAt {
    ghost begins = { λ _. spec.begins_routine };

    fn begins(&self, kind: Kind) -> bool {
        matches!(kind, Kind::Procedure | Kind::Function)
    }
}
