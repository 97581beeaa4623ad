//! The places of units: a body, and an entry of its code.

ghost use Rattle.std.specs.Prelude.{◌≡◌, OnOk, OnErr};
ghost use Rattle.std.specs.Option.{option_copied};
ghost use Rattle.body_code.specs.Firsts as firsts;
ghost use Rattle.body_code.specs.Units as spec;

use crate::unit::{CodeUnit, Entry, Heading};
use indexmap::IndexMap;
use std::alloc::AllocError;

/// The entry of a unit, none at the heading of a body.
fn entry_of(heading: &Heading) -> Option<Entry>
    ensures { result ≡ spec.entry_of heading.now }
{
    match heading {
        Heading::Body { .. } => None,
        Heading::Routine { routine, .. } => Some(Entry::Routine(*routine)),
        Heading::Initialize => Some(Entry::Initialize),
        Heading::Guard { trans } => Some(Entry::Guard(*trans)),
        Heading::Delay { trans } => Some(Entry::Delay(*trans)),
        Heading::Block { trans } => Some(Entry::Block(*trans)),
    }
}

/// The body of the units behind a heading.
pub fn body_behind(here: Option<u32>, heading: &Heading) -> Option<u32>
    ensures { result ≡ spec.body_behind here heading.now }
{
    match heading {
        Heading::Body { body, .. } => Some(*body),
        Heading::Routine { .. } => here,
        Heading::Initialize => here,
        Heading::Guard { .. } => here,
        Heading::Delay { .. } => here,
        Heading::Block { .. } => here,
    }
}

/// The place of a unit.
pub fn place_of(here: Option<u32>, heading: &Heading) -> Option<(u32, Entry)>
    ensures { result ≡ spec.place_of here heading.now }
{
    match here {
        None => None,
        Some(body) => match entry_of(heading) {
            None => None,
            Some(entry) => Some((body, entry)),
        },
    }
}

fn is_at(body: u32, entry: Entry, place: Option<(u32, Entry)>) -> bool
    ensures { result ≡ spec.is_at (body, entry) place }
{
    match place {
        None => false,
        Some(other) => body == other.0 && entry == other.1,
    }
}

/// The first unit at a place.
#[tactic(auto, unfolding(crate::specs::Units::unit_of))]
pub fn find(units: &[CodeUnit], body: u32, entry: Entry) -> Option<&CodeUnit>
    ensures { option_copied result ≡ spec.unit_of units.now body entry }
{
    let mut here = None;
    for i in 0..units.len() {
        let unit = &units[i];
        if is_at(body, entry, place_of(here, &unit.heading)) {
            return Some(unit);
        }
        here = body_behind(here, &unit.heading);
    }
    None
}

/// Notes the number of a unit at a place, where that place is new.
pub fn note(
    table: &mut IndexMap<(u32, Entry), usize>,
    place: Option<(u32, Entry)>,
    number: usize,
) -> Result<(), AllocError>
    ensures ok { OnOk result (table.new.entries ≡ firsts.noted table.old.entries place number) }
    ensures err { OnErr result (table.new.entries ≡ table.old.entries) }
{
    match place {
        None => Ok(()),
        Some(place) => note_new(table, place, number),
    }
}

fn note_new(
    table: &mut IndexMap<(u32, Entry), usize>,
    place: (u32, Entry),
    number: usize,
) -> Result<(), AllocError>
    ensures ok { OnOk result (table.new.entries ≡ firsts.noted table.old.entries (Some place) number) }
    ensures err { OnErr result (table.new.entries ≡ table.old.entries) }
{
    if table.get(&place).is_some() {
        return Ok(());
    }
    match table.insert(place, number) {
        Ok(_) => Ok(()),
        Err(_) => Err(AllocError),
    }
}
