//! Values that read: parsers that a loop or another parser is given.

ghost use Rattle.std.specs.Prelude.{◌≡◌, Bool};
ghost use Rattle.estelle_tree.specs.declared.kind.Kind.{Kind};
ghost use Rattle.token_reader.specs.Reader.{Parser, Reads};
ghost use Rattle.token_reader.specs.Lists as spec;

use crate::cursor::Cursor;
use crate::error::ReadError;
use estelle_tree::Kind;
use std::alloc::Global;

/// What reads a T from a place. A step reads an `Option`: `None` where nothing more comes.
pub trait Read<T> {
    /// The parser that it is.
    ghost parser: { Self → Parser T };

    /// What it needs.
    ghost can: { Self → Type 0 };

    fn read(&self, alloc: Global, tokens: &mut Cursor<'_>) -> Result<T, ReadError>
        requires { can self.now }
        ensures { Reads (parser self.now tokens.old) result tokens.new };
}

/// What tells by one token whether it can be read.
pub trait Begins {
    ghost begins: { Self → Kind → Bool };

    fn begins(&self, kind: Kind) -> bool
        ensures { result ≡ begins self.now kind };
}

/// `[x]`, as the next token tells.
#[derive(Clone, Copy)]
pub struct Optional<'p, P> {
    pub item: &'p P,
}

impl<'p, T: Drop, P: Read<T> + Begins> Read<Option<T>> for Optional<'p, P> {
    ghost parser = { λ s. spec.optional (P.begins s.item.now) (P.parser s.item.now) };

    ghost can = { λ s. P.can s.item.now };

    #[tactic(auto, unfolding(crate::specs::Lists::optional))]
    fn read(&self, alloc: Global, tokens: &mut Cursor<'_>) -> Result<Option<T>, ReadError> {
        if self.item.begins(tokens.peek()) {
            Ok(Some(self.item.read(alloc, tokens)?))
        } else {
            Ok(None)
        }
    }
}

/// `[k x]`
#[derive(Clone, Copy)]
pub struct Behind<'p, P> {
    pub kind: Kind,
    pub item: &'p P,
}

impl<'p, T: Drop, P: Read<T>> Read<Option<T>> for Behind<'p, P> {
    ghost parser = { λ s. spec.behind s.kind (P.parser s.item.now) };

    ghost can = { λ s. P.can s.item.now };

    #[tactic(auto, unfolding(crate::specs::Lists::behind))]
    fn read(&self, alloc: Global, tokens: &mut Cursor<'_>) -> Result<Option<T>, ReadError> {
        if tokens.sees(self.kind) {
            tokens.take();
            Ok(Some(self.item.read(alloc, tokens)?))
        } else {
            Ok(None)
        }
    }
}

/// `[k x]`, where the terminal may also stand alone: the token after it tells.
#[derive(Clone, Copy)]
pub struct BehindIf<'p, P> {
    pub kind: Kind,
    pub item: &'p P,
}

impl<'p, T: Drop, P: Read<T> + Begins> Read<Option<T>> for BehindIf<'p, P> {
    ghost parser = { λ s. spec.behind_if s.kind (P.begins s.item.now) (P.parser s.item.now) };

    ghost can = { λ s. P.can s.item.now };

    #[tactic(auto, unfolding(crate::specs::Lists::behind_if))]
    fn read(&self, alloc: Global, tokens: &mut Cursor<'_>) -> Result<Option<T>, ReadError> {
        if tokens.sees(self.kind) && self.item.begins(tokens.peek_second()) {
            tokens.take();
            Ok(Some(self.item.read(alloc, tokens)?))
        } else {
            Ok(None)
        }
    }
}

/// `x k`
#[derive(Clone, Copy)]
pub struct Ended<'p, P> {
    pub kind: Kind,
    pub item: &'p P,
}

impl<'p, T: Drop, P: Read<T>> Read<T> for Ended<'p, P> {
    ghost parser = { λ s. spec.ended s.kind (P.parser s.item.now) };

    ghost can = { λ s. P.can s.item.now };

    #[tactic(auto, unfolding(crate::specs::Lists::ended))]
    fn read(&self, alloc: Global, tokens: &mut Cursor<'_>) -> Result<T, ReadError> {
        let item = self.item.read(alloc, tokens)?;
        tokens.expect(self.kind)?;
        Ok(item)
    }
}

impl<'p, P: Begins> Begins for Ended<'p, P> {
    ghost begins = { λ s. P.begins s.item.now };

    fn begins(&self, kind: Kind) -> bool {
        self.item.begins(kind)
    }
}
