//! The text that grows, token by token.

ghost use Rattle.std.specs.Prelude.{◌≡◌, OnOk, IfOk};
ghost use Rattle.estelle_tree.specs.declared.token.Token.TheVariants as token;
ghost use Rattle.estelle_printer.specs.Canonical.{line_feed, written};
ghost use Rattle.estelle_printer.specs.Forms.{flag};
ghost use Rattle.estelle_printer.specs.Terminals.{terminal};
ghost use Rattle.estelle_printer.specs.Writing.{put, write};

use crate::terminal::{gap_after, text_of};
use estelle_tree::{Kind, Text, Word};
use itoa::Buffer;
use std::alloc::{AllocError, Global};
use std::marker::Model;

/// A text to which tokens are added, seen as its bytes.
#[derive(Drop)]
pub struct Writer {
    bytes: Vec<u8>,
}

impl Model for Writer {
    ghost use Rattle.std.specs.Prelude.{List, ℕ};
    ghost use Rattle.std.specs.Coded.{coded_list, coded_ℕ};

    ghost Value = { List ℕ };

    ghost coded = { coded_list coded_ℕ };

    ghost view = { λ a. a.bytes.items };
}

impl Writer {
    ghost use Rattle.std.specs.Prelude.{[], ◌∷◌, ◌++◌};

    pub fn new(alloc: Global) -> Writer
        ensures { result ≡ [] }
    {
        Writer {
            bytes: Vec::new(alloc),
        }
    }

    /// A symbol or a reserved word.
    #[tactic(auto, unfolding(crate::specs::Writing::put))]
    pub fn mark(&mut self, kind: Kind) -> Result<(), AllocError>
        ensures { OnOk result (self.new ≡ put self.old (terminal kind)) }
    {
        self.bytes.extend_from_slice(text_of(kind))?;
        self.bytes.push(gap_after(kind))?;
        Ok(())
    }

    /// A symbol or a reserved word, where it stands.
    pub fn flag(&mut self, kind: Kind, stands: bool) -> Result<(), AllocError>
        ensures { OnOk result (self.new ≡ write self.old (flag kind stands)) }
    {
        if stands {
            return self.mark(kind);
        }
        Ok(())
    }

    /// An identifier.
    #[tactic(auto, unfolding(crate::specs::Writing::put))]
    pub fn word(&mut self, word: &Word) -> Result<(), AllocError>
        ensures { OnOk result (self.new ≡ put self.old (token.Word word.now)) }
    {
        self.bytes.extend_from_slice(word.items())?;
        self.bytes.push(b' ')?;
        Ok(())
    }

    #[tactic(auto, unfolding(crate::specs::Writing::put))]
    pub fn number(&mut self, value: i64) -> Result<(), AllocError>
        ensures { OnOk result (self.new ≡ put self.old (token.Number value)) }
    {
        let mut buffer = Buffer::new();
        self.bytes
            .extend_from_slice(buffer.format(value).as_bytes())?;
        self.bytes.push(b' ')?;
        Ok(())
    }

    /// A character between apostrophes; an apostrophe itself is written twice there.
    #[tactic(auto, unfolding(crate::specs::Writing::put))]
    pub fn char(&mut self, value: u8) -> Result<(), AllocError>
        ensures { OnOk result (self.new ≡ put self.old (token.Char value)) }
    {
        if value == b'\'' {
            return self.bytes.extend_from_slice(b"'''' ");
        }
        self.bytes.extend_from_slice(&[b'\'', value, b'\'', b' '])
    }

    /// The text with its last token, a symbol or a reserved word.
    pub fn end(mut self, kind: Kind) -> Result<Text, AllocError>
        ensures { IfOk result (λ text. text ≡ self ++ written (terminal kind) ++ line_feed ∷ []) }
    {
        self.bytes.extend_from_slice(text_of(kind))?;
        self.bytes.push(b'\n')?;
        Ok(Text::of(self.bytes))
    }
}
