//! Bodies and their parts, over what reads the parts of a body one level down: so that each form is
//! proved by itself.

ghost use Rattle.std.specs.Prelude.{◌≡◌, ⊤};
ghost use Rattle.token_reader.specs.Reader.{Reads};
ghost use Rattle.token_reader.specs.Nests.{Nests};
ghost use Rattle.estelle_parser.specs.Bodies as spec;

use crate::transition::{InitForm, TransForm};
use declaration_parser::{joined, plain_decl};
use estelle_tree::{Body, Decl, Items, Kind, Parts};
use statement_parser::routine;
use std::alloc::Global;
use token_reader::{Begins, Cursor, Optional, Read, ReadError, repeated};
use type_parser::NameForm;

/// Takes the word of a form that opens a level, and refuses it where none may open.
#[tactic(auto, unfolding(crate::specs::Bodies::opens))]
fn open_level(tokens: &mut Cursor<'_>, room: u8, word: Kind) -> Result<(), ReadError>
    ensures { Reads (spec.opens room word tokens.old) result tokens.new }
{
    if room == 0 {
        return Err(tokens.refuse());
    }
    tokens.expect(word)
}

/// `Body = body NAME for NAME ";" Parts end ";"` (ISO/IEC 9074)
#[tactic(auto, unfolding(crate::specs::Bodies::body_over))]
fn body_over<P: Read<Parts>>(
    alloc: Global,
    tokens: &mut Cursor<'_>,
    room: u8,
    below: &P,
) -> Result<Body, ReadError>
    requires { P.can below.now }
    ensures { Reads (spec.body_over room (P.parser below.now) tokens.old) result tokens.new }
{
    let from = tokens.start();
    open_level(tokens, room, Kind::Body)?;
    let (name, header) = joined(alloc, tokens, Kind::For, &NameForm, &NameForm)?;
    tokens.expect(Kind::Semicolon)?;
    let parts = below.read(alloc, tokens)?;
    tokens.expect(Kind::End)?;
    tokens.expect(Kind::Semicolon)?;
    Ok(Body {
        name,
        header,
        parts,
        span: tokens.since(from),
    })
}

#[tactic(auto, unfolding(crate::specs::Bodies::body_part))]
fn body_part<P: Read<Parts>>(
    alloc: Global,
    tokens: &mut Cursor<'_>,
    room: u8,
    below: &P,
) -> Result<Decl, ReadError>
    requires { P.can below.now }
    ensures { Reads (spec.body_part room (P.parser below.now) tokens.old) result tokens.new }
{
    Ok(Decl::Body(body_over(alloc, tokens, room, below)?))
}

#[tactic(auto, unfolding(crate::specs::Bodies::routine_part))]
fn routine_part(alloc: Global, tokens: &mut Cursor<'_>, room: u8) -> Result<Decl, ReadError>
    ensures { Reads (spec.routine_part room tokens.old) result tokens.new }
{
    Ok(Decl::Routine(routine(alloc, tokens, room)?))
}

/// `Decl`, over what reads the parts of a body in it.
#[derive(Clone, Copy)]
struct DeclForm<'b, P> {
    room: u8,
    below: &'b P,
}

impl<'b, P: Read<Parts>> Read<Decl> for DeclForm<'b, P> {
    ghost parser = { λ f. spec.decl_over f.room (P.parser f.below.now) };

    ghost can = { λ f. P.can f.below.now };

    #[tactic(auto, unfolding(crate::specs::Bodies::decl_over))]
    fn read(&self, alloc: Global, tokens: &mut Cursor<'_>) -> Result<Decl, ReadError> {
        match tokens.peek() {
            Kind::Body => body_part(alloc, tokens, self.room, self.below),
            Kind::Procedure | Kind::Function => routine_part(alloc, tokens, self.room),
            _ => plain_decl(alloc, tokens, self.room),
        }
    }
}

impl<'b, P> Begins for DeclForm<'b, P> {
    ghost begins = { λ _. spec.begins_decl };

    fn begins(&self, kind: Kind) -> bool {
        matches!(
            kind,
            Kind::Const
                | Kind::Type
                | Kind::Channel
                | Kind::Module
                | Kind::Body
                | Kind::Ip
                | Kind::Modvar
                | Kind::Var
                | Kind::State
                | Kind::Stateset
                | Kind::Procedure
                | Kind::Function
        )
    }
}

/// `Parts = {Decl} [Init] {trans TransBody}` (ISO/IEC 9074)
#[tactic(auto, unfolding(crate::specs::Bodies::parts_over))]
fn parts_over<P: Read<Parts>>(
    alloc: Global,
    tokens: &mut Cursor<'_>,
    room: u8,
    below: &P,
) -> Result<Parts, ReadError>
    requires { P.can below.now }
    ensures { Reads (spec.parts_over room (P.parser below.now) tokens.old) result tokens.new }
{
    let from = tokens.start();
    let before = tokens.left();
    let decl = DeclForm { room, below };
    let decls = repeated(alloc, tokens, Items::new(alloc), &Optional { item: &decl })?;
    let init = Optional {
        item: &InitForm { room },
    }
    .read(alloc, tokens)?;
    let trans = repeated(
        alloc,
        tokens,
        Items::new(alloc),
        &Optional {
            item: &TransForm { room },
        },
    )?;
    Ok(Parts {
        decls,
        init,
        trans,
        span: tokens.since_over(from, before),
    })
}

/// The parts of a body one level down, as a function reads them.
#[derive(Clone, Copy)]
struct Below<F> {
    /// How many levels may open there, the body's own included.
    room: u8,
    parts_below: F,
}

impl<F: Fn(Global, &mut Cursor<'_>, u8) -> Result<Parts, ReadError>> Read<Parts> for Below<F> {
    ghost parser = { λ b. spec.parts_below b.room };

    ghost can = { λ b. Nests spec.parts_below b.room (F.pre b.parts_below) (F.post b.parts_below) };

    fn read(&self, alloc: Global, tokens: &mut Cursor<'_>) -> Result<Parts, ReadError> {
        (self.parts_below)(alloc, tokens, self.room)
    }
}

fn parts_below(alloc: Global, tokens: &mut Cursor<'_>, room: u8) -> Result<Parts, ReadError>
    ensures { Reads (spec.parts_below room tokens.old) result tokens.new }
{
    if room == 0 {
        return Err(tokens.refuse());
    }
    let room = room - 1;
    parts_over(alloc, tokens, room, &Below { room, parts_below })
}

/// The parts of a specification or body (ISO/IEC 9074), in which at most so many levels of nesting open.
#[tactic(auto, unfolding(crate::specs::Bodies::parts_below))]
pub fn parts(alloc: Global, tokens: &mut Cursor<'_>, room: u8) -> Result<Parts, ReadError>
    ensures { Reads (spec.parts room tokens.old) result tokens.new }
{
    parts_over(alloc, tokens, room, &Below { room, parts_below })
}
