//! A place in a list of tokens, and the steps that take one of them.

ghost use Rattle.std.specs.Prelude.{◌≡◌};
ghost use Rattle.estelle_tree.specs.Input as place;
ghost use Rattle.token_reader.specs.Reader as spec;
ghost use Rattle.token_reader.specs.Reader.{Reads};

use crate::error::ReadError;
use estelle_tree::{Kind, Name, Placed, Span, Token, kind_of};
use std::alloc::Global;
use std::marker::Model;

/// A place in a list of tokens.
#[derive(Drop)]
pub struct Cursor<'a> {
    rest: &'a [Placed],
    end: u32,
}

impl<'a> Model for Cursor<'a> {
    ghost use Rattle.estelle_tree.specs.Input.{Input};
    ghost use Rattle.token_reader.specs.Cursor.{input_of};

    ghost Value = { Input };

    ghost view = { input_of };
}

impl<'a> Cursor<'a> {
    /// The place before these tokens; `end` is where the token before them ends.
    pub fn new(tokens: &'a [Placed], end: u32) -> Cursor<'a>
        ensures { result ≡ place.input tokens.now end }
    {
        Cursor { rest: tokens, end }
    }

    /// The kind of the next token.
    #[tactic(auto, unfolding(estelle_tree::specs::Input::kind))]
    pub fn peek(&self) -> Kind
        ensures { result ≡ place.kind self.now }
    {
        match self.rest {
            [] => Kind::Nothing,
            [first, ..] => kind_of(&first.token),
        }
    }

    /// The kind of the token after the next one.
    #[tactic(auto, unfolding(estelle_tree::specs::Input::kind, estelle_tree::specs::Input::next))]
    pub fn peek_second(&self) -> Kind
        ensures { result ≡ place.kind (place.next self.now) }
    {
        match self.rest {
            [_, second, ..] => kind_of(&second.token),
            _ => Kind::Nothing,
        }
    }

    /// How many tokens are left.
    #[tactic(auto, unfolding(estelle_tree::specs::Input::left))]
    pub fn left(&self) -> usize
        ensures { result ≡ place.left self.now }
    {
        self.rest.len()
    }

    /// Where the next token starts, or the last one ends.
    #[tactic(auto, unfolding(estelle_tree::specs::Input::start))]
    pub fn start(&self) -> u32
        ensures { result ≡ place.start self.now }
    {
        match self.rest {
            [] => self.end,
            [first, ..] => first.span.start,
        }
    }

    /// The span from there to the end of the last token taken.
    pub fn since(&self, start: u32) -> Span
        ensures { result ≡ spec.span_since start self.now }
    {
        Span {
            start,
            end: self.end,
        }
    }

    /// The same, and 0..0 where as many tokens are left as there were.
    pub fn since_over(&self, start: u32, before: usize) -> Span
        ensures { result ≡ spec.span_over start before self.now }
    {
        if before == self.left() {
            Span { start: 0, end: 0 }
        } else {
            self.since(start)
        }
    }

    /// The refusal of the next token.
    #[tactic(auto, unfolding(crate::specs::Reader::refusal))]
    pub fn refuse(&self) -> ReadError
        ensures { result ≡ spec.refusal self.now }
    {
        ReadError::Refused { left: self.left() }
    }

    /// Takes the next token, if there is one.
    #[tactic(auto, unfolding(estelle_tree::specs::Input::next))]
    pub fn take(&mut self)
        ensures { self.new ≡ place.next self.old }
    {
        if let [first, rest @ ..] = self.rest {
            self.rest = rest;
            self.end = first.span.end;
        }
    }

    /// Whether the next token is of this kind.
    #[tactic(auto, unfolding(crate::specs::Reader::sees))]
    pub fn sees(&self, kind: Kind) -> bool
        ensures { result ≡ spec.sees kind self.now }
    {
        self.peek() == kind
    }

    /// Takes the next token, if it is of this kind.
    #[tactic(auto, unfolding(crate::specs::Reader::after))]
    pub fn eat(&mut self, kind: Kind) -> bool
        ensures found { result ≡ spec.sees kind self.old }
        ensures after { self.new ≡ spec.after kind self.old }
    {
        let found = self.sees(kind);
        if found {
            self.take();
        }
        found
    }

    /// Takes a token of this kind, and refuses another.
    #[tactic(auto, unfolding(crate::specs::Reader::sees, crate::specs::Reader::after, crate::specs::Reader::expect))]
    pub fn expect(&mut self, kind: Kind) -> Result<(), ReadError>
        ensures { Reads (spec.expect kind self.old) result self.new }
    {
        if self.eat(kind) {
            Ok(())
        } else {
            Err(self.refuse())
        }
    }

    /// Takes a number, and refuses another token.
    #[tactic(auto, unfolding(crate::specs::Reader::number, estelle_tree::specs::Input::token_at))]
    pub fn number(&mut self) -> Result<i64, ReadError>
        ensures { Reads (spec.number self.old) result self.new }
    {
        match self.rest {
            [
                Placed {
                    token: Token::Number(n),
                    ..
                },
                ..
            ] => {
                let n = *n;
                self.take();
                Ok(n)
            }
            _ => Err(self.refuse()),
        }
    }

    /// Takes a character, and refuses another token.
    #[tactic(auto, unfolding(crate::specs::Reader::char, estelle_tree::specs::Input::token_at))]
    pub fn char(&mut self) -> Result<u8, ReadError>
        ensures { Reads (spec.char self.old) result self.new }
    {
        match self.rest {
            [
                Placed {
                    token: Token::Char(c),
                    ..
                },
                ..
            ] => {
                let c = *c;
                self.take();
                Ok(c)
            }
            _ => Err(self.refuse()),
        }
    }

    /// Takes an identifier, and refuses another token.
    #[tactic(auto, unfolding(crate::specs::Reader::name, crate::specs::Reader::sees, estelle_tree::specs::Input::token_at, estelle_tree::specs::Input::between))]
    pub fn name(&mut self, alloc: Global) -> Result<Name, ReadError>
        ensures { Reads (spec.name self.old) result self.new }
    {
        if self.peek() != Kind::Name {
            return Err(self.refuse());
        }
        let start = self.start();
        match self.rest {
            [
                Placed {
                    token: Token::Word(word),
                    ..
                },
                ..
            ] => {
                let word = word.copy(alloc)?;
                self.take();
                Ok(Name {
                    word,
                    span: self.since(start),
                })
            }
            _ => Err(self.refuse()),
        }
    }
}
