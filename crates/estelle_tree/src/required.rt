//! The required identifiers (ISO 7185, 6.1.3, 6.3, 6.4.2.2 and 6.6.6).

ghost use Rattle.std.specs.Prelude.{◌≡◌, map};
ghost use Rattle.std.specs.Map.{lookup};
ghost use Rattle.std.specs.Str.{bytes_eq};
ghost use Rattle.estelle_tree.specs.Required as spec;

use crate::kind::is_same;

/// A required function.
#[derive(Clone, Copy, Debug, PartialEq, Eq)]
pub enum Required {
    Abs,
    Sqr,
    Odd,
    Succ,
    Pred,
    Ord,
    Chr,
}

/// What a required identifier stands for: a type, a constant or a function.
#[derive(Clone, Copy, Debug, PartialEq, Eq)]
pub enum RequiredIdentifier {
    Integer,
    Boolean,
    Char,
    False,
    True,
    Maxint,
    Function(Required),
}

/// Each required identifier, with what it stands for.
pub const IDENTIFIERS: [(&[u8], RequiredIdentifier); 13] = [
    (b"integer", RequiredIdentifier::Integer),
    (b"boolean", RequiredIdentifier::Boolean),
    (b"char", RequiredIdentifier::Char),
    (b"false", RequiredIdentifier::False),
    (b"true", RequiredIdentifier::True),
    (b"maxint", RequiredIdentifier::Maxint),
    (b"abs", RequiredIdentifier::Function(Required::Abs)),
    (b"sqr", RequiredIdentifier::Function(Required::Sqr)),
    (b"odd", RequiredIdentifier::Function(Required::Odd)),
    (b"succ", RequiredIdentifier::Function(Required::Succ)),
    (b"pred", RequiredIdentifier::Function(Required::Pred)),
    (b"ord", RequiredIdentifier::Function(Required::Ord)),
    (b"chr", RequiredIdentifier::Function(Required::Chr)),
];

fn find(mut table: &[(&[u8], RequiredIdentifier)], word: &[u8]) -> Option<RequiredIdentifier>
    ensures { result ≡ lookup (bytes_eq word.now) (map (λ k. (k.0.now, k.1)) table.entry.now) }
{
    while let [entry, rest @ ..] = table {
        if is_same(word, entry.0) {
            return Some(entry.1);
        }
        table = rest;
    }
    None
}

/// What a word stands for, if it is a required identifier.
pub fn required_identifier(word: &[u8]) -> Option<RequiredIdentifier>
    ensures { result ≡ lookup (bytes_eq word.now) spec.identifiers }
{
    find(&IDENTIFIERS, word)
}
