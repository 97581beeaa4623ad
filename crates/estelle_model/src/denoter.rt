ghost use Rattle.std.specs.Prelude.{◌≡◌};
ghost use Rattle.estelle_model.specs.Types.{host_of, range_of};

use estelle_tree::{Boxed, Items};

/// The type that an ordinal type is a part of (ISO 7185, 6.4.2.4: the host type).
#[derive(Clone, Copy, Debug, PartialEq, Eq)]
pub enum Host {
    Integer,
    Boolean,
    Char,
    /// An enumerated type, by the ordinal of its last value.
    Enumeration { last: u32 },
}

/// A type denoter, with its bounds as ordinals (ISO 7185, 6.4).
pub enum Denoter {
    Ordinal {
        host: Host,
        low: i64,
        high: i64,
    },
    /// A set, by the bounds of its base type.
    Set {
        host: Host,
        low: i64,
        high: i64,
    },
    /// An array, by the bounds of its index type.
    Array {
        low: i64,
        high: i64,
        item: Boxed<Denoter>,
    },
    /// A record, by the types of its fields in the order of their declaration.
    Fields(Items<Denoter>),
}

impl Drop for Denoter {
    fn drop(self) {
        match self {
            Denoter::Ordinal {
                host: _,
                low: _,
                high: _,
            } => {}
            Denoter::Set {
                host: _,
                low: _,
                high: _,
            } => {}
            Denoter::Array {
                low: _,
                high: _,
                item: _,
            } => {}
            Denoter::Fields(_) => {}
        }
    }
}

/// The host type of an ordinal type, or of a set's base. Another type counts as integer.
pub fn host_of(denoter: &Denoter) -> Host
    ensures { result ≡ host_of denoter.now }
{
    match denoter {
        Denoter::Ordinal { host, .. } | Denoter::Set { host, .. } => *host,
        _ => Host::Integer,
    }
}

/// The least and the greatest ordinal of an ordinal type.
pub fn range_of(denoter: &Denoter) -> (i64, i64)
    ensures { result ≡ range_of denoter.now }
{
    match denoter {
        Denoter::Ordinal { low, high, .. } => (*low, *high),
        _ => (1, 0),
    }
}
