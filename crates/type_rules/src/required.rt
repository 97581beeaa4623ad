//! The required identifiers.

ghost use Rattle.std.specs.Prelude.{◌≡◌};
ghost use Rattle.type_rules.specs.Meanings as spec;

use crate::denoted::simple;
use crate::meanings::Meaning;
use crate::types::{Host, PascalType, Value};
use estelle_tree::{RequiredIdentifier, required_identifier};

fn whole(host: Host, least: i64, greatest: i64) -> Meaning
    ensures { result ≡ spec.whole host least greatest }
{
    Meaning::TypeName(simple(Some(PascalType::Whole(host)), least, greatest))
}

fn valued(host: Host, ordinal: i64) -> Meaning
    ensures { result ≡ spec.valued host ordinal }
{
    Meaning::Constant {
        host: Some(host),
        value: Some(Value { host, ordinal }),
    }
}

fn meaning_of(identifier: RequiredIdentifier) -> Meaning
    ensures { result ≡ spec.meaning_of_required identifier }
{
    match identifier {
        RequiredIdentifier::Integer => whole(Host::Integer, -i64::MAX, i64::MAX),
        RequiredIdentifier::Boolean => whole(Host::Boolean, 0, 1),
        RequiredIdentifier::Char => whole(Host::Char, 0, 255),
        RequiredIdentifier::False => valued(Host::Boolean, 0),
        RequiredIdentifier::True => valued(Host::Boolean, 1),
        RequiredIdentifier::Maxint => valued(Host::Integer, i64::MAX),
        RequiredIdentifier::Function(function) => Meaning::RequiredFunction(function),
    }
}

/// What a required identifier means.
pub fn required_meaning(word: &[u8]) -> Meaning
    ensures { result ≡ spec.required_meaning word.now }
{
    match required_identifier(word) {
        None => Meaning::Nothing,
        Some(identifier) => meaning_of(identifier),
    }
}
