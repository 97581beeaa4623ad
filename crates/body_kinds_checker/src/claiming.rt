//! What can be claimed of each unit. That it is so is checked with the unit.

use crate::opening::open_all;
use crate::places::{body_behind, place_of};
use body_code::{Code, CodeUnit, Entry};
use body_program::Program;
use body_program_numbers::Numbering;
use body_unit_kinds::{Claim, Claims, Kind};
use estelle_model::{Denoter, Host, Meaning};
use estelle_tree::{DelayHigh, Items, RoutineForm};
use indexmap::IndexMap;
use std::alloc::{AllocError, Global};

/// The kind of the values of an ordinal type or a set.
fn kind_of_type<'a>(denoter: &Denoter) -> Option<Kind<'a>> {
    match denoter {
        Denoter::Ordinal { host, .. } => match host {
            Host::Integer => Some(Kind::Integer),
            Host::Boolean => Some(Kind::Boolean),
            Host::Char => Some(Kind::Character),
            Host::Enumeration { .. } => Some(Kind::Enumerated),
        },
        Denoter::Set { .. } => Some(Kind::Members),
        _ => None,
    }
}

/// What a routine of a body leaves: a function its result.
fn result_of<'a>(numbering: &Numbering, body: u32, number: u32) -> Option<Kind<'a>> {
    let routine = numbering.routines(body).get(number as usize)?;
    match &routine.form {
        RoutineForm::Procedure => None,
        RoutineForm::Function { result } => match numbering.program().table().meaning(result) {
            Meaning::TypeName(denoter) => kind_of_type(denoter.denoter()),
            _ => None,
        },
    }
}

fn has_high(program: &Program, body: u32, number: u32) -> Option<bool> {
    let delay = program.transition(body, number)?.delay()?;
    Some(matches!(delay.high(), Some(DelayHigh::Expr(_))))
}

/// What a unit leaves.
fn left_by<'a>(
    alloc: Global,
    numbering: &Numbering,
    body: u32,
    entry: Entry,
) -> Result<Items<Kind<'a>>, AllocError> {
    match entry {
        Entry::Routine(number) => match result_of(numbering, body, number) {
            None => Ok(Items::new(alloc)),
            Some(kind) => Items::from_slice(alloc, &[kind]),
        },
        Entry::Initialize => Ok(Items::new(alloc)),
        Entry::Guard(_) => Items::from_slice(alloc, &[Kind::Boolean]),
        Entry::Delay(number) => match has_high(numbering.program(), body, number) {
            Some(true) => Items::from_slice(alloc, &[Kind::Integer, Kind::Integer]),
            _ => Items::from_slice(alloc, &[Kind::Integer]),
        },
        Entry::Block(_) => Ok(Items::new(alloc)),
    }
}

fn claim<'a>(
    alloc: Global,
    numbering: &Numbering,
    claims: &mut Claims<'a>,
    body: u32,
    entry: Entry,
) -> Result<(), AllocError> {
    let closed = matches!(entry, Entry::Routine(_));
    let result = left_by(alloc, numbering, body, entry)?;
    match claims.units.insert((body, entry), Claim { closed, result }) {
        Ok(_) => Ok(()),
        Err(_) => Err(AllocError),
    }
}

/// Of each unit, where all routines are closed.
fn first_claims<'a>(
    alloc: Global,
    numbering: &Numbering,
    units: &[CodeUnit],
) -> Result<Claims<'a>, AllocError> {
    let mut claims = Claims {
        units: IndexMap::new(alloc),
    };
    let mut here = None;
    for unit in units {
        if let Some((body, entry)) = place_of(here, &unit.heading) {
            claim(alloc, numbering, &mut claims, body, entry)?;
        }
        here = body_behind(here, &unit.heading);
    }
    Ok(claims)
}

/// Of each unit of a code. Closed are the routines that need no instance of their body.
pub fn claims_of<'a>(
    alloc: Global,
    numbering: &Numbering,
    code: &Code,
) -> Result<Claims<'a>, AllocError> {
    let units = code.items();
    let mut claims = first_claims(alloc, numbering, units)?;
    open_all(alloc, units, &mut claims)?;
    Ok(claims)
}
