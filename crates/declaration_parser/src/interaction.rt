//! Parameters, interactions and channels.

ghost use Rattle.std.specs.Prelude.{◌≡◌, ⊤};
ghost use Rattle.estelle_tree.specs.declared.kind.Kind.TheVariants.{OpenParenthesis, CloseParenthesis, Comma};
ghost use Rattle.token_reader.specs.Reader.{Reads};
ghost use Rattle.token_reader.specs.Reader as reader;
ghost use Rattle.type_parser.specs.Types as types;
ghost use Rattle.declaration_parser.specs.Forms as forms;
ghost use Rattle.declaration_parser.specs.Channels as spec;

use crate::form::{enclosed, joined};
use estelle_tree::{Channel, Inter, InterGroup, Kind, Name, ParamGroup, Params};
use std::alloc::Global;
use token_reader::{Begins, Cursor, Optional, Read, ReadError, separated, several};
use type_parser::{NameForm, NamesForm, names, part};

/// `Names ":" NAME`
#[derive(Clone, Copy)]
struct ParamGroupForm;

impl Read<ParamGroup> for ParamGroupForm {
    ghost parser = { λ _. spec.param_group };

    ghost can = { λ _. ⊤ };

    #[tactic(auto, unfolding(crate::specs::Channels::param_group))]
    fn read(&self, alloc: Global, tokens: &mut Cursor<'_>) -> Result<ParamGroup, ReadError> {
        let (names, type_name) = joined(alloc, tokens, Kind::Colon, &NamesForm, &NameForm)?;
        Ok(ParamGroup { names, type_name })
    }
}

/// `Params = Names ":" NAME {";" Names ":" NAME}` (ISO/IEC 9074)
#[derive(Clone, Copy)]
struct ParamsForm;

impl Read<Params> for ParamsForm {
    ghost parser = { λ _. spec.params };

    ghost can = { λ _. ⊤ };

    #[tactic(auto, unfolding(crate::specs::Channels::params))]
    fn read(&self, alloc: Global, tokens: &mut Cursor<'_>) -> Result<Params, ReadError> {
        let from = tokens.start();
        let groups = separated(alloc, tokens, Kind::Semicolon, &ParamGroupForm)?;
        Ok(Params {
            groups,
            span: tokens.since(from),
        })
    }
}

/// `"(" Params ")"`
#[derive(Clone, Copy)]
struct ParamListForm;

impl Read<Params> for ParamListForm {
    ghost parser = { λ _. forms.enclosed OpenParenthesis CloseParenthesis spec.params };

    ghost can = { λ _. ⊤ };

    fn read(&self, alloc: Global, tokens: &mut Cursor<'_>) -> Result<Params, ReadError> {
        enclosed(
            alloc,
            tokens,
            Kind::OpenParenthesis,
            Kind::CloseParenthesis,
            &ParamsForm,
        )
    }
}

impl Begins for ParamListForm {
    ghost begins = { λ _. spec.begins_parenthesis };

    fn begins(&self, kind: Kind) -> bool {
        matches!(kind, Kind::OpenParenthesis)
    }
}

/// `["(" Params ")"]`
pub fn may_be_params(alloc: Global, tokens: &mut Cursor<'_>) -> Result<Option<Params>, ReadError>
    ensures { Reads (spec.may_be_params tokens.old) result tokens.new }
{
    Optional {
        item: &ParamListForm,
    }
    .read(alloc, tokens)
}

/// `Inter = NAME ["(" Params ")"]` (ISO/IEC 9074)
#[derive(Clone, Copy)]
struct InterForm;

impl Read<Inter> for InterForm {
    ghost parser = { λ _. spec.inter };

    ghost can = { λ _. ⊤ };

    #[tactic(auto, unfolding(crate::specs::Channels::inter))]
    fn read(&self, alloc: Global, tokens: &mut Cursor<'_>) -> Result<Inter, ReadError> {
        let from = tokens.start();
        let name = tokens.name(alloc)?;
        let params = may_be_params(alloc, tokens)?;
        Ok(Inter {
            name,
            params,
            span: tokens.since(from),
        })
    }
}

impl Begins for InterForm {
    ghost begins = { λ _. types.begins_name };

    fn begins(&self, kind: Kind) -> bool {
        matches!(kind, Kind::Name)
    }
}

/// `by Names ":" {Inter ";"}+` (ISO/IEC 9074)
#[derive(Clone, Copy)]
struct GroupForm;

impl Read<InterGroup> for GroupForm {
    ghost parser = { λ _. spec.group };

    ghost can = { λ _. ⊤ };

    #[tactic(auto, unfolding(crate::specs::Channels::group))]
    fn read(&self, alloc: Global, tokens: &mut Cursor<'_>) -> Result<InterGroup, ReadError> {
        tokens.expect(Kind::By)?;
        let roles = names(alloc, tokens)?;
        let inters = part(alloc, tokens, Kind::Colon, &InterForm)?;
        Ok(InterGroup { roles, inters })
    }
}

impl Begins for GroupForm {
    ghost begins = { λ _. spec.begins_group };

    fn begins(&self, kind: Kind) -> bool {
        matches!(kind, Kind::By)
    }
}

/// `NAME "," NAME`
#[derive(Clone, Copy)]
struct RolesForm;

impl Read<(Name, Name)> for RolesForm {
    ghost parser = { λ _. forms.joined Comma reader.name reader.name };

    ghost can = { λ _. ⊤ };

    fn read(&self, alloc: Global, tokens: &mut Cursor<'_>) -> Result<(Name, Name), ReadError> {
        joined(alloc, tokens, Kind::Comma, &NameForm, &NameForm)
    }
}

/// `Channel = channel NAME "(" NAME "," NAME ")" ";" {by Names ":" {Inter ";"}+}+` (ISO/IEC 9074)
#[tactic(auto, unfolding(crate::specs::Channels::channel))]
pub fn channel(alloc: Global, tokens: &mut Cursor<'_>) -> Result<Channel, ReadError>
    ensures { Reads (spec.channel tokens.old) result tokens.new }
{
    let from = tokens.start();
    tokens.expect(Kind::Channel)?;
    let name = tokens.name(alloc)?;
    let (first_role, second_role) = enclosed(
        alloc,
        tokens,
        Kind::OpenParenthesis,
        Kind::CloseParenthesis,
        &RolesForm,
    )?;
    tokens.expect(Kind::Semicolon)?;
    let groups = several(alloc, tokens, &GroupForm)?;
    Ok(Channel {
        name,
        first_role,
        second_role,
        groups,
        span: tokens.since(from),
    })
}
