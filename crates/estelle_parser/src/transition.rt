//! The initialization of a body, and its transitions.

ghost use Rattle.std.specs.Prelude.{◌≡◌, ⊤};
ghost use Rattle.token_reader.specs.Reader.{Reads};
ghost use Rattle.estelle_parser.specs.Bodies as spec;

use clause_parser::{block, trans_body};
use estelle_tree::{Init, Kind, Trans};
use std::alloc::Global;
use token_reader::{Begins, Behind, Cursor, Read, ReadError};
use type_parser::NameForm;

/// `Init = initialize [to NAME] Block` (ISO/IEC 9074), in which at most so many levels of nesting open.
#[derive(Clone, Copy)]
pub struct InitForm {
    pub room: u8,
}

impl Read<Init> for InitForm {
    ghost parser = { λ f. spec.init f.room };

    ghost can = { λ _. ⊤ };

    #[tactic(auto, unfolding(crate::specs::Bodies::init))]
    fn read(&self, alloc: Global, tokens: &mut Cursor<'_>) -> Result<Init, ReadError> {
        let from = tokens.start();
        tokens.expect(Kind::Initialize)?;
        let to = Behind {
            kind: Kind::To,
            item: &NameForm,
        }
        .read(alloc, tokens)?;
        let block = block(alloc, tokens, self.room)?;
        Ok(Init {
            to,
            block,
            span: tokens.since(from),
        })
    }
}

impl Begins for InitForm {
    ghost begins = { λ _. spec.begins_init };

    fn begins(&self, kind: Kind) -> bool {
        matches!(kind, Kind::Initialize)
    }
}

/// `trans TransBody` (ISO/IEC 9074), in which at most so many levels of nesting open.
#[derive(Clone, Copy)]
pub struct TransForm {
    pub room: u8,
}

impl Read<Trans> for TransForm {
    ghost parser = { λ f. spec.trans f.room };

    ghost can = { λ _. ⊤ };

    #[tactic(auto, unfolding(crate::specs::Bodies::trans))]
    fn read(&self, alloc: Global, tokens: &mut Cursor<'_>) -> Result<Trans, ReadError> {
        let from = tokens.start();
        tokens.expect(Kind::Trans)?;
        let body = trans_body(alloc, tokens, self.room)?;
        Ok(Trans {
            body,
            span: tokens.since(from),
        })
    }
}

impl Begins for TransForm {
    ghost begins = { λ _. spec.begins_trans };

    fn begins(&self, kind: Kind) -> bool {
        matches!(kind, Kind::Trans)
    }
}
