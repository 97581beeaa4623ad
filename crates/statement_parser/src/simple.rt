//! Statements that have no others in them.

ghost use Rattle.std.specs.Prelude.{◌≡◌, ⊤};
ghost use Rattle.token_reader.specs.Reader.{Reads};
ghost use Rattle.token_reader.specs.Lists as lists;
ghost use Rattle.token_reader.specs.Reader as reader;
ghost use Rattle.statement_parser.specs.Statement as spec;

use estelle_tree::{Args, Ip, Kind, Name, Stmt};
use expression_parser::{args, expr, variable};
use std::alloc::Global;
use token_reader::{Begins, Behind, Cursor, Optional, Read, ReadError};
use type_parser::NameForm;

/// `Ip = NAME ["." NAME]` (ISO/IEC 9074)
#[tactic(auto, unfolding(crate::specs::Statement::ip))]
fn ip(alloc: Global, tokens: &mut Cursor<'_>) -> Result<Ip, ReadError>
    ensures { Reads (spec.ip tokens.old) result tokens.new }
{
    let from = tokens.start();
    let name = tokens.name(alloc)?;
    let part = Behind {
        kind: Kind::Dot,
        item: &NameForm,
    }
    .read(alloc, tokens)?;
    Ok(Ip {
        name,
        part,
        span: tokens.since(from),
    })
}

/// `"(" Args ")"`, whose parentheses open no level.
#[derive(Clone, Copy)]
struct GivenArgs {
    room: u8,
}

impl Read<Args> for GivenArgs {
    ghost parser = { λ s. spec.given_args s.room };

    ghost can = { λ _. ⊤ };

    #[tactic(auto, unfolding(crate::specs::Statement::given_args))]
    fn read(&self, alloc: Global, tokens: &mut Cursor<'_>) -> Result<Args, ReadError> {
        tokens.expect(Kind::OpenParenthesis)?;
        let given = args(alloc, tokens, u32::from(self.room))?;
        tokens.expect(Kind::CloseParenthesis)?;
        Ok(given)
    }
}

impl Begins for GivenArgs {
    ghost begins = { λ _. spec.begins_args };

    fn begins(&self, kind: Kind) -> bool {
        matches!(kind, Kind::OpenParenthesis)
    }
}

/// `["(" Args ")"]`
fn may_be_args(alloc: Global, tokens: &mut Cursor<'_>, room: u8) -> Result<Option<Args>, ReadError>
    ensures { Reads (spec.may_be_args room tokens.old) result tokens.new }
{
    Optional {
        item: &GivenArgs { room },
    }
    .read(alloc, tokens)
}

/// `Variable ":=" Expr` (ISO 7185, 6.8.2.2)
#[tactic(auto, unfolding(crate::specs::Statement::assignment))]
pub fn assignment(alloc: Global, tokens: &mut Cursor<'_>, room: u8) -> Result<Stmt, ReadError>
    ensures { Reads (spec.assignment room tokens.old) result tokens.new }
{
    let from = tokens.start();
    let variable = variable(alloc, tokens, u32::from(room))?;
    tokens.expect(Kind::Becomes)?;
    let value = expr(alloc, tokens, u32::from(room))?;
    Ok(Stmt::Assign {
        variable,
        value,
        span: tokens.since(from),
    })
}

/// `NAME ["(" Args ")"]` (ISO 7185, 6.8.2.3)
#[tactic(auto, unfolding(crate::specs::Statement::call))]
pub fn call(alloc: Global, tokens: &mut Cursor<'_>, room: u8) -> Result<Stmt, ReadError>
    ensures { Reads (spec.call room tokens.old) result tokens.new }
{
    let from = tokens.start();
    let name = tokens.name(alloc)?;
    let args = may_be_args(alloc, tokens, room)?;
    Ok(Stmt::Call {
        name,
        args,
        span: tokens.since(from),
    })
}

/// `init NAME with NAME ["(" Args ")"]`
#[tactic(auto, unfolding(crate::specs::Statement::init))]
pub fn init(alloc: Global, tokens: &mut Cursor<'_>, room: u8) -> Result<Stmt, ReadError>
    ensures { Reads (spec.init room tokens.old) result tokens.new }
{
    let from = tokens.start();
    tokens.expect(Kind::Init)?;
    let modvar = tokens.name(alloc)?;
    tokens.expect(Kind::With)?;
    let body = tokens.name(alloc)?;
    let args = may_be_args(alloc, tokens, room)?;
    Ok(Stmt::Init {
        modvar,
        body,
        args,
        span: tokens.since(from),
    })
}

/// `release NAME`
#[tactic(auto, unfolding(crate::specs::Statement::release))]
pub fn release(alloc: Global, tokens: &mut Cursor<'_>) -> Result<Stmt, ReadError>
    ensures { Reads (spec.release tokens.old) result tokens.new }
{
    let from = tokens.start();
    tokens.expect(Kind::Release)?;
    let modvar = tokens.name(alloc)?;
    Ok(Stmt::Release {
        modvar,
        span: tokens.since(from),
    })
}

/// `connect Ip to Ip`
#[tactic(auto, unfolding(crate::specs::Statement::connect))]
pub fn connect(alloc: Global, tokens: &mut Cursor<'_>) -> Result<Stmt, ReadError>
    ensures { Reads (spec.connect tokens.old) result tokens.new }
{
    let from = tokens.start();
    tokens.expect(Kind::Connect)?;
    let first = ip(alloc, tokens)?;
    tokens.expect(Kind::To)?;
    let second = ip(alloc, tokens)?;
    Ok(Stmt::Connect {
        first,
        second,
        span: tokens.since(from),
    })
}

/// `disconnect Ip`
#[tactic(auto, unfolding(crate::specs::Statement::disconnect))]
pub fn disconnect(alloc: Global, tokens: &mut Cursor<'_>) -> Result<Stmt, ReadError>
    ensures { Reads (spec.disconnect tokens.old) result tokens.new }
{
    let from = tokens.start();
    tokens.expect(Kind::Disconnect)?;
    let ip = ip(alloc, tokens)?;
    Ok(Stmt::Disconnect {
        ip,
        span: tokens.since(from),
    })
}

/// `attach NAME to NAME "." NAME`
#[tactic(auto, unfolding(crate::specs::Statement::attach))]
pub fn attach(alloc: Global, tokens: &mut Cursor<'_>) -> Result<Stmt, ReadError>
    ensures { Reads (spec.attach tokens.old) result tokens.new }
{
    let from = tokens.start();
    tokens.expect(Kind::Attach)?;
    let own = tokens.name(alloc)?;
    tokens.expect(Kind::To)?;
    let modvar = tokens.name(alloc)?;
    tokens.expect(Kind::Dot)?;
    let ip = tokens.name(alloc)?;
    Ok(Stmt::Attach {
        own,
        modvar,
        ip,
        span: tokens.since(from),
    })
}

/// `detach NAME`
#[tactic(auto, unfolding(crate::specs::Statement::detach))]
pub fn detach(alloc: Global, tokens: &mut Cursor<'_>) -> Result<Stmt, ReadError>
    ensures { Reads (spec.detach tokens.old) result tokens.new }
{
    let from = tokens.start();
    tokens.expect(Kind::Detach)?;
    let own = tokens.name(alloc)?;
    Ok(Stmt::Detach {
        own,
        span: tokens.since(from),
    })
}

/// `output NAME "." NAME ["(" Args ")"]`
#[tactic(auto, unfolding(crate::specs::Statement::output))]
pub fn output(alloc: Global, tokens: &mut Cursor<'_>, room: u8) -> Result<Stmt, ReadError>
    ensures { Reads (spec.output room tokens.old) result tokens.new }
{
    let from = tokens.start();
    tokens.expect(Kind::Output)?;
    let ip = tokens.name(alloc)?;
    tokens.expect(Kind::Dot)?;
    let interaction = tokens.name(alloc)?;
    let args = may_be_args(alloc, tokens, room)?;
    Ok(Stmt::Output {
        ip,
        interaction,
        args,
        span: tokens.since(from),
    })
}
