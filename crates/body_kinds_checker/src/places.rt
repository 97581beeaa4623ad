//! The places of units by their headings.

ghost use Rattle.std.specs.Prelude.{◌≡◌};
ghost use Rattle.body_code.specs.Units as spec;

use body_code::{Entry, Heading};

/// The entry of a unit, none at the heading of a body.
fn entry_of(heading: &Heading) -> Option<Entry>
    ensures { result ≡ spec.entry_of heading.now }
{
    match heading {
        Heading::Body { .. } => None,
        Heading::Routine { routine, .. } => Some(Entry::Routine(*routine)),
        Heading::Initialize => Some(Entry::Initialize),
        Heading::Guard { trans } => Some(Entry::Guard(*trans)),
        Heading::Delay { trans } => Some(Entry::Delay(*trans)),
        Heading::Block { trans } => Some(Entry::Block(*trans)),
    }
}

/// The body of the units behind a heading.
pub fn body_behind(here: Option<u32>, heading: &Heading) -> Option<u32>
    ensures { result ≡ spec.body_behind here heading.now }
{
    match heading {
        Heading::Body { body, .. } => Some(*body),
        Heading::Routine { .. } => here,
        Heading::Initialize => here,
        Heading::Guard { .. } => here,
        Heading::Delay { .. } => here,
        Heading::Block { .. } => here,
    }
}

/// The place of a unit.
pub fn place_of(here: Option<u32>, heading: &Heading) -> Option<(u32, Entry)>
    ensures { result ≡ spec.place_of here heading.now }
{
    match here {
        None => None,
        Some(body) => match entry_of(heading) {
            None => None,
            Some(entry) => Some((body, entry)),
        },
    }
}
