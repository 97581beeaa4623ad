//! Interaction points, module headers, and the declarations that hold no statements.

ghost use Rattle.std.specs.Prelude.{◌≡◌, ⊤};
ghost use Rattle.estelle_tree.specs.declared.kind.Kind.TheVariants.{OpenBracket, CloseBracket};
ghost use Rattle.token_reader.specs.Reader.{Reads};
ghost use Rattle.type_parser.specs.Types as types;
ghost use Rattle.declaration_parser.specs.Forms as forms;
ghost use Rattle.declaration_parser.specs.Declarations as spec;

use crate::attribute::{AttrForm, QueueForm};
use crate::form::{enclosed, joined, may_be_part};
use crate::interaction::{channel, may_be_params};
use estelle_tree::{BlockDecl, Decl, Header, IpDecl, Kind, ModvarDecl, NameList, StatesetDef};
use std::alloc::Global;
use token_reader::{Begins, Cursor, Optional, Read, ReadError};
use type_parser::{NameForm, NamesForm, TypedNamesForm, block_decl, part};

/// `IpDecl = Names ":" NAME "(" NAME ")" [Disc queue]` (ISO/IEC 9074)
#[derive(Clone, Copy)]
struct IpDeclForm;

impl Read<IpDecl> for IpDeclForm {
    ghost parser = { λ _. spec.ip_decl };

    ghost can = { λ _. ⊤ };

    #[tactic(auto, unfolding(crate::specs::Declarations::ip_decl))]
    fn read(&self, alloc: Global, tokens: &mut Cursor<'_>) -> Result<IpDecl, ReadError> {
        let from = tokens.start();
        let (names, channel) = joined(alloc, tokens, Kind::Colon, &NamesForm, &NameForm)?;
        let role = enclosed(
            alloc,
            tokens,
            Kind::OpenParenthesis,
            Kind::CloseParenthesis,
            &NameForm,
        )?;
        let disc = Optional { item: &QueueForm }.read(alloc, tokens)?;
        Ok(IpDecl {
            names,
            channel,
            role,
            disc,
            span: tokens.since(from),
        })
    }
}

impl Begins for IpDeclForm {
    ghost begins = { λ _. types.begins_name };

    fn begins(&self, kind: Kind) -> bool {
        matches!(kind, Kind::Name)
    }
}

/// `Names ":" NAME`
#[derive(Clone, Copy)]
struct ModvarDeclForm;

impl Read<ModvarDecl> for ModvarDeclForm {
    ghost parser = { λ _. spec.modvar_decl };

    ghost can = { λ _. ⊤ };

    #[tactic(auto, unfolding(crate::specs::Declarations::modvar_decl))]
    fn read(&self, alloc: Global, tokens: &mut Cursor<'_>) -> Result<ModvarDecl, ReadError> {
        let (names, header) = joined(alloc, tokens, Kind::Colon, &NamesForm, &NameForm)?;
        Ok(ModvarDecl { names, header })
    }
}

impl Begins for ModvarDeclForm {
    ghost begins = { λ _. types.begins_name };

    fn begins(&self, kind: Kind) -> bool {
        matches!(kind, Kind::Name)
    }
}

/// `"[" Names "]"`
#[derive(Clone, Copy)]
struct StatesForm;

impl Read<NameList> for StatesForm {
    ghost parser = { λ _. forms.enclosed OpenBracket CloseBracket types.names };

    ghost can = { λ _. ⊤ };

    fn read(&self, alloc: Global, tokens: &mut Cursor<'_>) -> Result<NameList, ReadError> {
        enclosed(
            alloc,
            tokens,
            Kind::OpenBracket,
            Kind::CloseBracket,
            &NamesForm,
        )
    }
}

/// `NAME "=" "[" Names "]"`
#[derive(Clone, Copy)]
struct StatesetDefForm;

impl Read<StatesetDef> for StatesetDefForm {
    ghost parser = { λ _. spec.stateset_def };

    ghost can = { λ _. ⊤ };

    #[tactic(auto, unfolding(crate::specs::Declarations::stateset_def))]
    fn read(&self, alloc: Global, tokens: &mut Cursor<'_>) -> Result<StatesetDef, ReadError> {
        let (name, states) = joined(alloc, tokens, Kind::Equal, &NameForm, &StatesForm)?;
        Ok(StatesetDef { name, states })
    }
}

impl Begins for StatesetDefForm {
    ghost begins = { λ _. types.begins_name };

    fn begins(&self, kind: Kind) -> bool {
        matches!(kind, Kind::Name)
    }
}

/// `Header = module NAME [Attr] ["(" Params ")"] ";" [ip {IpDecl ";"}+] [export {Names ":" Type ";"}+]
/// end ";"` (ISO/IEC 9074), in whose types at most so many levels of nesting open.
#[tactic(auto, unfolding(crate::specs::Declarations::header))]
pub fn header(alloc: Global, tokens: &mut Cursor<'_>, room: u8) -> Result<Header, ReadError>
    ensures { Reads (spec.header room tokens.old) result tokens.new }
{
    let from = tokens.start();
    tokens.expect(Kind::Module)?;
    let name = tokens.name(alloc)?;
    let attr = Optional { item: &AttrForm }.read(alloc, tokens)?;
    let params = may_be_params(alloc, tokens)?;
    tokens.expect(Kind::Semicolon)?;
    let ips = may_be_part(alloc, tokens, Kind::Ip, &IpDeclForm)?;
    let exports = may_be_part(alloc, tokens, Kind::Export, &TypedNamesForm { room })?;
    tokens.expect(Kind::End)?;
    tokens.expect(Kind::Semicolon)?;
    Ok(Header {
        name,
        attr,
        params,
        ips,
        exports,
        span: tokens.since(from),
    })
}

fn of_block_decl(decl: BlockDecl) -> Decl
    ensures { result ≡ spec.of_block_decl decl }
{
    match decl {
        BlockDecl::Const { defs, span } => Decl::Const { defs, span },
        BlockDecl::Types { defs, span } => Decl::Types { defs, span },
        BlockDecl::Var { vars, span } => Decl::Var { vars, span },
    }
}

#[tactic(auto, unfolding(crate::specs::Declarations::definition_part))]
fn definition_part(alloc: Global, tokens: &mut Cursor<'_>, room: u8) -> Result<Decl, ReadError>
    ensures { Reads (spec.definition_part room tokens.old) result tokens.new }
{
    let decl = block_decl(alloc, tokens, room)?;
    Ok(of_block_decl(decl))
}

#[tactic(auto, unfolding(crate::specs::Declarations::channel_part))]
fn channel_part(alloc: Global, tokens: &mut Cursor<'_>) -> Result<Decl, ReadError>
    ensures { Reads (spec.channel_part tokens.old) result tokens.new }
{
    Ok(Decl::Channel(channel(alloc, tokens)?))
}

#[tactic(auto, unfolding(crate::specs::Declarations::header_part))]
fn header_part(alloc: Global, tokens: &mut Cursor<'_>, room: u8) -> Result<Decl, ReadError>
    ensures { Reads (spec.header_part room tokens.old) result tokens.new }
{
    Ok(Decl::Header(header(alloc, tokens, room)?))
}

/// `ip {IpDecl ";"}+`
#[tactic(auto, unfolding(crate::specs::Declarations::ip_part))]
fn ip_part(alloc: Global, tokens: &mut Cursor<'_>) -> Result<Decl, ReadError>
    ensures { Reads (spec.ip_part tokens.old) result tokens.new }
{
    let from = tokens.start();
    let ips = part(alloc, tokens, Kind::Ip, &IpDeclForm)?;
    Ok(Decl::Ip {
        ips,
        span: tokens.since(from),
    })
}

/// `modvar {Names ":" NAME ";"}+`
#[tactic(auto, unfolding(crate::specs::Declarations::modvar_part))]
fn modvar_part(alloc: Global, tokens: &mut Cursor<'_>) -> Result<Decl, ReadError>
    ensures { Reads (spec.modvar_part tokens.old) result tokens.new }
{
    let from = tokens.start();
    let modvars = part(alloc, tokens, Kind::Modvar, &ModvarDeclForm)?;
    Ok(Decl::Modvar {
        modvars,
        span: tokens.since(from),
    })
}

/// `state Names ";"`
#[tactic(auto, unfolding(crate::specs::Declarations::state_part))]
fn state_part(alloc: Global, tokens: &mut Cursor<'_>) -> Result<Decl, ReadError>
    ensures { Reads (spec.state_part tokens.old) result tokens.new }
{
    let from = tokens.start();
    let states = enclosed(alloc, tokens, Kind::State, Kind::Semicolon, &NamesForm)?;
    Ok(Decl::State {
        states,
        span: tokens.since(from),
    })
}

/// `stateset {NAME "=" "[" Names "]" ";"}+`
#[tactic(auto, unfolding(crate::specs::Declarations::stateset_part))]
fn stateset_part(alloc: Global, tokens: &mut Cursor<'_>) -> Result<Decl, ReadError>
    ensures { Reads (spec.stateset_part tokens.old) result tokens.new }
{
    let from = tokens.start();
    let sets = part(alloc, tokens, Kind::Stateset, &StatesetDefForm)?;
    Ok(Decl::Stateset {
        sets,
        span: tokens.since(from),
    })
}

/// A declaration of a specification or body that is no body and no routine (ISO/IEC 9074), in whose
/// types at most so many levels of nesting open.
#[tactic(auto, unfolding(crate::specs::Declarations::plain_decl))]
pub fn plain_decl(alloc: Global, tokens: &mut Cursor<'_>, room: u8) -> Result<Decl, ReadError>
    ensures { Reads (spec.plain_decl room tokens.old) result tokens.new }
{
    match tokens.peek() {
        Kind::Channel => channel_part(alloc, tokens),
        Kind::Module => header_part(alloc, tokens, room),
        Kind::Ip => ip_part(alloc, tokens),
        Kind::Modvar => modvar_part(alloc, tokens),
        Kind::State => state_part(alloc, tokens),
        Kind::Stateset => stateset_part(alloc, tokens),
        _ => definition_part(alloc, tokens, room),
    }
}
