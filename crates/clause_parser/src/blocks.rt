//! Blocks.

ghost use Rattle.std.specs.Prelude.{◌≡◌};
ghost use Rattle.token_reader.specs.Reader.{Reads};
ghost use Rattle.clause_parser.specs.Block as spec;

use crate::clauses::LabelForm;
use estelle_tree::{Block, BlockDecl, Items, Kind, Label, Sequence, Stmts};
use statement_parser::StatementPartAt;
use std::alloc::Global;
use token_reader::{Cursor, Optional, Read, ReadError, repeated};
use type_parser::BlockDeclForm;

/// `{BlockDecl}`
fn block_decls(
    alloc: Global,
    tokens: &mut Cursor<'_>,
    room: u8,
) -> Result<Items<BlockDecl>, ReadError>
    ensures { Reads (spec.block_decls room tokens.old) result tokens.new }
{
    let decl = BlockDeclForm { room };
    repeated(alloc, tokens, Items::new(alloc), &Optional { item: &decl })
}

/// A label after the declarations: none behind another label, and none where there are no declarations.
fn late_label(
    alloc: Global,
    tokens: &mut Cursor<'_>,
    label: &Option<Label>,
    decls: &Items<BlockDecl>,
) -> Result<Option<Label>, ReadError>
    ensures { Reads (spec.late_label label.now decls.now tokens.old) result tokens.new }
{
    match (label, decls.items()) {
        (None, [_, ..]) => Optional { item: &LabelForm }.read(alloc, tokens),
        _ => Ok(None),
    }
}

/// `Block = [Label] {BlockDecl} [Label] begin Stmts end ";"`, over what reads `begin Stmts end ";"`
#[tactic(auto, unfolding(crate::specs::Block::block_over))]
fn block_over<P: Read<Stmts>>(
    alloc: Global,
    tokens: &mut Cursor<'_>,
    part: &P,
    room: u8,
) -> Result<Block, ReadError>
    requires { P.can part.now }
    ensures { Reads (spec.block_over (P.parser part.now) room tokens.old) result tokens.new }
{
    let from = tokens.start();
    let label = Optional { item: &LabelForm }.read(alloc, tokens)?;
    let decls = block_decls(alloc, tokens, room)?;
    let late_label = late_label(alloc, tokens, &label, &decls)?;
    let body = part.read(alloc, tokens)?;
    Ok(Block {
        label,
        decls,
        late_label,
        body,
        span: tokens.since(from),
    })
}

/// Reads the block of a transition or of an `initialize` (ISO/IEC 9074), in which at most so many levels of
/// nesting open. It has a label before its declarations or after them; where there are no declarations,
/// the label stands before them.
pub fn block(alloc: Global, tokens: &mut Cursor<'_>, room: u8) -> Result<Block, ReadError>
    ensures { Reads (spec.block room tokens.old) result tokens.new }
{
    block_over(alloc, tokens, &StatementPartAt { room }, room)
}

/// Whether a block begins with a token of this kind.
pub fn begins_block(kind: Kind) -> bool
    ensures { result ≡ spec.begins_block kind }
{
    matches!(
        kind,
        Kind::NameWord | Kind::Const | Kind::Type | Kind::Var | Kind::Begin
    )
}
