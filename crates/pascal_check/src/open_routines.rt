//! The routines that are not closed.

ghost use Rattle.std.specs.Prelude.{◌≡◌, ℕ, ◌++◌, [], nat_eq, OnOk, IfOk, if◌then◌else◌};
ghost use Rattle.indexmap.specs.IndexSet.{contains, insert_all};
ghost use Rattle.indexmap.specs.IndexMap.{get};
ghost use Rattle.type_rules.specs.Routines as routines;
ghost use Rattle.pascal_check.specs.Opening as spec;

use estelle_tree::{Items, Sequence, Span};
use indexmap::{IndexMap, IndexSet};
use std::alloc::{AllocError, Global};
use type_rules::{PlacedSite, RoutineAt, Site};

/// A call that stands in a routine, by where the names of both are declared.
#[derive(Clone, Copy)]
pub struct Call {
    pub called: u32,
    pub caller: u32,
}

pub fn stands_in(range: Span, at: Span) -> bool
    ensures { result ≡ routines.stands_in range at }
{
    range.start <= at.start && at.start < range.end
}

/// Whether what is declared there is no routine's own.
fn is_of_body(routine: RoutineAt, declared: Option<Span>) -> bool
    ensures { result ≡ spec.is_of_body routine declared }
{
    match declared {
        None => false,
        Some(at) => !stands_in(routine.span, at),
    }
}

/// Whether a site opens the routine that it stands in.
fn opens(routine: RoutineAt, site: &Site) -> bool
    ensures { result ≡ spec.opens routine site.now }
{
    match site {
        Site::EstelleStatement(_) => true,
        Site::VariableNamed { declared, .. } => is_of_body(routine, *declared),
        _ => false,
    }
}

/// The routine that is open by this site.
fn opened_by(placed: &PlacedSite) -> Option<u32>
    ensures { result ≡ spec.opened_by placed.now }
{
    let routine = placed.place.routine?;
    if opens(routine, &placed.site) {
        return Some(routine.name.start);
    }
    None
}

/// The routine that a site calls.
fn called_at(site: &Site) -> Option<u32>
    ensures { result ≡ spec.called_at site.now }
{
    match site {
        Site::RoutineCalled {
            declared: Some(at),
            ..
        } => Some(at.start),
        _ => None,
    }
}

fn call_in(placed: &PlacedSite) -> Option<Call>
    ensures { result ≡ spec.call_in placed.now }
{
    let routine = placed.place.routine?;
    let called = called_at(&placed.site)?;
    Some(Call {
        called,
        caller: routine.name.start,
    })
}

/// The routines that sites open by themselves.
fn opened_by_sites(alloc: Global, sites: &[PlacedSite]) -> Result<IndexSet<u32>, AllocError>
    ensures { IfOk result (λ opened. opened.keys ≡ spec.opened_after [] sites.now) }
{
    let mut opened = IndexSet::new(alloc);
    for placed in sites {
        if let Some(routine) = opened_by(placed) {
            opened.insert(routine)?;
        }
    }
    Ok(opened)
}

/// Notes the caller of a routine.
fn note_call(
    callers: &mut IndexMap<u32, Items<u32>>,
    alloc: Global,
    call: Call,
) -> Result<(), AllocError>
    ensures { OnOk result ((x : ℕ) → spec.noted_callers (get nat_eq callers.new x) ≡ spec.noted_callers (get nat_eq callers.old x) ++ spec.caller_of call x) }
{
    let mut noted = match callers.swap_remove(&call.called) {
        Some(noted) => noted,
        None => Items::new(alloc),
    };
    noted.push(call.caller)?;
    callers.insert(call.called, noted)?;
    Ok(())
}

/// For each routine the ones that call it.
fn callers_of_routines(
    alloc: Global,
    sites: &[PlacedSite],
) -> Result<IndexMap<u32, Items<u32>>, AllocError>
    ensures { IfOk result (λ callers. (x : ℕ) → spec.noted_callers (get nat_eq callers x) ≡ spec.callers_in sites.now x) }
{
    let mut callers = IndexMap::new(alloc);
    for placed in sites {
        if let Some(call) = call_in(placed) {
            note_call(&mut callers, alloc, call)?;
        }
    }
    Ok(callers)
}

fn open_all(opened: &mut IndexSet<u32>, routines: &[u32]) -> Result<(), AllocError>
    ensures { OnOk result (opened.new.keys ≡ insert_all nat_eq opened.old.keys routines.now) }
{
    for routine in routines {
        opened.insert(*routine)?;
    }
    Ok(())
}

/// Opens the callers of the open routine at one place.
fn open_callers(
    opened: &mut IndexSet<u32>,
    callers: &IndexMap<u32, Items<u32>>,
    at: usize,
) -> Result<(), AllocError>
    ensures { OnOk result (opened.new.keys ≡ spec.with_callers (λ x. spec.noted_callers (get nat_eq callers.now x)) opened.old.keys at) }
{
    let routine = match opened.get_index(at) {
        None => return Ok(()),
        Some(routine) => *routine,
    };
    match callers.get(&routine) {
        None => Ok(()),
        Some(routines) => open_all(opened, routines.items()),
    }
}

/// Opens the routines that call an open one, and the ones that call those. Each comes behind the open ones, once, and
/// its turn comes.
fn open_all_callers(
    opened: &mut IndexSet<u32>,
    callers: &IndexMap<u32, Items<u32>>,
) -> Result<(), AllocError>
    ensures { OnOk result (spec.Follows (λ x. spec.noted_callers (get nat_eq callers.now x)) opened.old.keys opened.new.keys) }
{
    let mut at = 0;
    while at < opened.len() {
        open_callers(opened, callers, at)?;
        at += 1;
    }
    Ok(())
}

/// The routines that are not closed, by where their names are declared.
pub fn open_routines(alloc: Global, sites: &[PlacedSite]) -> Result<IndexSet<u32>, AllocError>
    ensures { IfOk result (λ opened. spec.Decides (contains nat_eq opened) (routines.IsOpen sites.now)) }
{
    let mut opened = opened_by_sites(alloc, sites)?;
    let callers = callers_of_routines(alloc, sites)?;
    open_all_callers(&mut opened, &callers)?;
    Ok(opened)
}
