//! The operators and signs, and what stands behind one.

ghost use Rattle.std.specs.Prelude.{◌≡◌, Option};
ghost use Rattle.estelle_tree.specs.declared.kind.Kind.{Kind};
ghost use Rattle.token_reader.specs.Lists as lists;
ghost use Rattle.expression_parser.specs.Expression as spec;

use estelle_tree::{Adding, Kind, Multiplying, Relation, Sign};
use std::alloc::Global;
use token_reader::{Cursor, Read, ReadError};

/// One of several terminals.
pub trait Terminal: Copy {
    ghost of: { Kind → Option Self };

    fn of(kind: Kind) -> Option<Self>
        ensures { result ≡ of kind };
}

impl Terminal for Relation {
    ghost of = { spec.relation_of };

    fn of(kind: Kind) -> Option<Relation> {
        match kind {
            Kind::Equal => Some(Relation::Equal),
            Kind::NotEqual => Some(Relation::NotEqual),
            Kind::Less => Some(Relation::Less),
            Kind::AtMost => Some(Relation::AtMost),
            Kind::Greater => Some(Relation::Greater),
            Kind::AtLeast => Some(Relation::AtLeast),
            Kind::In => Some(Relation::Member),
            _ => None,
        }
    }
}

impl Terminal for Sign {
    ghost of = { spec.sign_of };

    fn of(kind: Kind) -> Option<Sign> {
        match kind {
            Kind::Plus => Some(Sign::Plus),
            Kind::Minus => Some(Sign::Minus),
            _ => None,
        }
    }
}

impl Terminal for Adding {
    ghost of = { spec.adding_of };

    fn of(kind: Kind) -> Option<Adding> {
        match kind {
            Kind::Plus => Some(Adding::Plus),
            Kind::Minus => Some(Adding::Minus),
            Kind::Or => Some(Adding::Or),
            _ => None,
        }
    }
}

impl Terminal for Multiplying {
    ghost of = { spec.multiplying_of };

    fn of(kind: Kind) -> Option<Multiplying> {
        match kind {
            Kind::Star => Some(Multiplying::Star),
            Kind::Div => Some(Multiplying::Div),
            Kind::Mod => Some(Multiplying::Mod),
            Kind::And => Some(Multiplying::And),
            _ => None,
        }
    }
}

/// Takes the next token, if it is one of the terminals.
pub fn mark<O: Terminal>(tokens: &mut Cursor<'_>) -> Option<O>
    ensures { lists.mark O.of tokens.old ≡ Ok (result, tokens.new) }
{
    match O::of(tokens.peek()) {
        None => None,
        Some(mark) => {
            tokens.take();
            Some(mark)
        }
    }
}

/// `[k x]`, where several terminals can stand.
#[derive(Clone, Copy)]
pub struct Marked<'p, P> {
    pub item: &'p P,
}

impl<'p, O: Terminal + Drop, T: Drop, P: Read<T>> Read<Option<(O, T)>> for Marked<'p, P> {
    ghost parser = { λ s. lists.marked O.of (P.parser s.item.now) };

    ghost can = { λ s. P.can s.item.now };

    fn read(&self, alloc: Global, tokens: &mut Cursor<'_>) -> Result<Option<(O, T)>, ReadError> {
        match O::of(tokens.peek()) {
            None => Ok(None),
            Some(mark) => {
                tokens.take();
                Ok(Some((mark, self.item.read(alloc, tokens)?)))
            }
        }
    }
}
