//! Definitions and formal parameters.

ghost use Rattle.std.specs.Prelude.{◌≡◌, ⊤};
ghost use Rattle.token_reader.specs.Reader.{Reads};
ghost use Rattle.type_parser.specs.Types as types;
ghost use Rattle.type_parser.specs.Definitions as spec;

use crate::scalar::{constant, names};
use crate::structured::{TypedNamesForm, type_expr};
use estelle_tree::{BlockDecl, ConstDef, Formal, Formals, Items, Kind, TypeDef};
use std::alloc::Global;
use token_reader::{Begins, Cursor, Ended, Read, ReadError, separated, several};

/// `k {x ";"}+`
#[tactic(auto, unfolding(crate::specs::Definitions::part))]
pub fn part<T: Drop, P: Read<T> + Begins>(
    alloc: Global,
    tokens: &mut Cursor<'_>,
    first: Kind,
    item: &P,
) -> Result<Items<T>, ReadError>
    requires { P.can item.now }
    ensures { Reads (spec.part first (P.begins item.now) (P.parser item.now) tokens.old) result tokens.new }
{
    tokens.expect(first)?;
    several(
        alloc,
        tokens,
        &Ended {
            kind: Kind::Semicolon,
            item,
        },
    )
}

/// `NAME "=" Const` (ISO 7185, 6.3)
#[tactic(auto, unfolding(crate::specs::Definitions::const_def))]
pub fn const_def(alloc: Global, tokens: &mut Cursor<'_>) -> Result<ConstDef, ReadError>
    ensures { Reads (spec.const_def tokens.old) result tokens.new }
{
    let name = tokens.name(alloc)?;
    tokens.expect(Kind::Equal)?;
    let value = constant(alloc, tokens)?;
    Ok(ConstDef { name, value })
}

/// `NAME "=" Const`
#[derive(Clone, Copy)]
pub struct ConstDefForm;

impl Read<ConstDef> for ConstDefForm {
    ghost parser = { λ _. spec.const_def };

    ghost can = { λ _. ⊤ };

    fn read(&self, alloc: Global, tokens: &mut Cursor<'_>) -> Result<ConstDef, ReadError> {
        const_def(alloc, tokens)
    }
}

impl Begins for ConstDefForm {
    ghost begins = { λ _. types.begins_name };

    fn begins(&self, kind: Kind) -> bool {
        matches!(kind, Kind::Name)
    }
}

/// `NAME "=" Type` (ISO 7185, 6.4.1), in which at most so many levels of nesting open.
#[tactic(auto, unfolding(crate::specs::Definitions::type_def))]
pub fn type_def(alloc: Global, tokens: &mut Cursor<'_>, room: u8) -> Result<TypeDef, ReadError>
    ensures { Reads (spec.type_def room tokens.old) result tokens.new }
{
    let name = tokens.name(alloc)?;
    tokens.expect(Kind::Equal)?;
    let type_expr = type_expr(alloc, tokens, room)?;
    Ok(TypeDef { name, type_expr })
}

/// `NAME "=" Type`, in which at most so many levels of nesting open.
#[derive(Clone, Copy)]
pub struct TypeDefForm {
    pub room: u8,
}

impl Read<TypeDef> for TypeDefForm {
    ghost parser = { λ f. spec.type_def f.room };

    ghost can = { λ _. ⊤ };

    fn read(&self, alloc: Global, tokens: &mut Cursor<'_>) -> Result<TypeDef, ReadError> {
        type_def(alloc, tokens, self.room)
    }
}

impl Begins for TypeDefForm {
    ghost begins = { λ _. types.begins_name };

    fn begins(&self, kind: Kind) -> bool {
        matches!(kind, Kind::Name)
    }
}

/// `Formal = [var] Names ":" NAME` (ISO 7185, 6.6.3.1)
#[tactic(auto, unfolding(crate::specs::Definitions::formal))]
pub fn formal(alloc: Global, tokens: &mut Cursor<'_>) -> Result<Formal, ReadError>
    ensures { Reads (spec.formal tokens.old) result tokens.new }
{
    let from = tokens.start();
    let is_var = tokens.eat(Kind::Var);
    let names = names(alloc, tokens)?;
    tokens.expect(Kind::Colon)?;
    let type_name = tokens.name(alloc)?;
    Ok(Formal {
        is_var,
        names,
        type_name,
        span: tokens.since(from),
    })
}

/// `Formal`
#[derive(Clone, Copy)]
pub struct FormalForm;

impl Read<Formal> for FormalForm {
    ghost parser = { λ _. spec.formal };

    ghost can = { λ _. ⊤ };

    fn read(&self, alloc: Global, tokens: &mut Cursor<'_>) -> Result<Formal, ReadError> {
        formal(alloc, tokens)
    }
}

impl Begins for FormalForm {
    ghost begins = { λ _. spec.begins_formal };

    fn begins(&self, kind: Kind) -> bool {
        matches!(kind, Kind::Var | Kind::Name)
    }
}

/// `Formals = "(" Formal {";" Formal} ")"` (ISO 7185, 6.6.3.1)
#[tactic(auto, unfolding(crate::specs::Definitions::formals))]
pub fn formals(alloc: Global, tokens: &mut Cursor<'_>) -> Result<Formals, ReadError>
    ensures { Reads (spec.formals tokens.old) result tokens.new }
{
    let from = tokens.start();
    tokens.expect(Kind::OpenParenthesis)?;
    let formals = separated(alloc, tokens, Kind::Semicolon, &FormalForm)?;
    tokens.expect(Kind::CloseParenthesis)?;
    Ok(Formals {
        formals,
        span: tokens.since(from),
    })
}

/// `Formals`
#[derive(Clone, Copy)]
pub struct FormalsForm;

impl Read<Formals> for FormalsForm {
    ghost parser = { λ _. spec.formals };

    ghost can = { λ _. ⊤ };

    fn read(&self, alloc: Global, tokens: &mut Cursor<'_>) -> Result<Formals, ReadError> {
        formals(alloc, tokens)
    }
}

impl Begins for FormalsForm {
    ghost begins = { λ _. spec.begins_formals };

    fn begins(&self, kind: Kind) -> bool {
        matches!(kind, Kind::OpenParenthesis)
    }
}

/// `const {NAME "=" Const ";"}+`
#[tactic(auto, unfolding(crate::specs::Definitions::const_part))]
fn const_part(alloc: Global, tokens: &mut Cursor<'_>) -> Result<BlockDecl, ReadError>
    ensures { Reads (spec.const_part tokens.old) result tokens.new }
{
    let from = tokens.start();
    let defs = part(alloc, tokens, Kind::Const, &ConstDefForm)?;
    Ok(BlockDecl::Const {
        defs,
        span: tokens.since(from),
    })
}

/// `type {NAME "=" Type ";"}+`
#[tactic(auto, unfolding(crate::specs::Definitions::type_part))]
fn type_part(alloc: Global, tokens: &mut Cursor<'_>, room: u8) -> Result<BlockDecl, ReadError>
    ensures { Reads (spec.type_part room tokens.old) result tokens.new }
{
    let from = tokens.start();
    let defs = part(alloc, tokens, Kind::Type, &TypeDefForm { room })?;
    Ok(BlockDecl::Types {
        defs,
        span: tokens.since(from),
    })
}

/// `var {Names ":" Type ";"}+`
#[tactic(auto, unfolding(crate::specs::Definitions::var_part))]
fn var_part(alloc: Global, tokens: &mut Cursor<'_>, room: u8) -> Result<BlockDecl, ReadError>
    ensures { Reads (spec.var_part room tokens.old) result tokens.new }
{
    let from = tokens.start();
    let vars = part(alloc, tokens, Kind::Var, &TypedNamesForm { room })?;
    Ok(BlockDecl::Var {
        vars,
        span: tokens.since(from),
    })
}

/// A definition part of a block or routine (ISO 7185, 6.2.1), in whose types at most so many levels of
/// nesting open.
#[tactic(auto, unfolding(crate::specs::Definitions::block_decl))]
pub fn block_decl(alloc: Global, tokens: &mut Cursor<'_>, room: u8) -> Result<BlockDecl, ReadError>
    ensures { Reads (spec.block_decl room tokens.old) result tokens.new }
{
    match tokens.peek() {
        Kind::Const => const_part(alloc, tokens),
        Kind::Type => type_part(alloc, tokens, room),
        Kind::Var => var_part(alloc, tokens, room),
        _ => Err(tokens.refuse()),
    }
}

/// `BlockDecl`, in whose types at most so many levels of nesting open.
#[derive(Clone, Copy)]
pub struct BlockDeclForm {
    pub room: u8,
}

impl Read<BlockDecl> for BlockDeclForm {
    ghost parser = { λ f. spec.block_decl f.room };

    ghost can = { λ _. ⊤ };

    fn read(&self, alloc: Global, tokens: &mut Cursor<'_>) -> Result<BlockDecl, ReadError> {
        block_decl(alloc, tokens, self.room)
    }
}

impl Begins for BlockDeclForm {
    ghost begins = { λ _. spec.begins_block_decl };

    fn begins(&self, kind: Kind) -> bool {
        matches!(kind, Kind::Const | Kind::Type | Kind::Var)
    }
}
