//! Instructions that push places.

ghost use Rattle.std.specs.Prelude.{◌≡◌, ◌≤◌, [], ◌∷◌, length, take, drop, slice_get, IfOk};
ghost use Rattle.std.specs.Option.{option_copied};
ghost use Rattle.estelle_model.specs.declared.place.Place.TheVariants.{Of, In};
ghost use Rattle.body_machine.specs.Machine.{Spot};
ghost use Rattle.body_machine.specs.Slots.{variables_in, references_in, slot, reference_number};
ghost use Rattle.body_machine.specs.Rows.{pushing, referring, exporting};
ghost use Rattle.body_machine.specs.Seen.{Did};

use crate::item::Item;
use crate::machine::Machine;
use crate::values::stuck;
use body_code::Local;
use body_values::{Stop, copy_place};
use estelle_model::Place;
use estelle_tree::{Items, Path, Sequence};
use std::alloc::{AllocError, Global};

/// The place of a variable of the instance.
pub fn variable(alloc: Global, machine: &mut Machine, number: u32) -> Result<(), Stop>
    ensures { Did (pushing (Spot (Of machine.old.active.here.path number []))) machine.old result machine.new }
{
    let path = machine.active.own_path(alloc)?;
    machine.leave(of_instance(alloc, path, number))?;
    Ok(())
}

/// The place of a variable of an instance.
fn of_instance(alloc: Global, path: Path, variable: u32) -> Item
    ensures { result ≡ Spot (Of path variable []) }
{
    Item::Spot(Place::Of {
        path,
        variable,
        way: Items::new(alloc),
    })
}

/// How many variables locals before a place are.
fn count_variables(locals: &[Local]) -> usize
    ensures count { result ≡ variables_in locals.now }
    ensures bound { result ≤ length locals.now }
{
    let mut count = 0;
    for local in locals {
        count += one_variable(local);
    }
    count
}

fn one_variable(local: &Local) -> usize
    ensures count { result ≡ variables_in (local.now ∷ []) }
    ensures bound { result ≤ 1 }
{
    if local.by_ref { 0 } else { 1 }
}

fn count_references(locals: &[Local]) -> usize
    ensures count { result ≡ references_in locals.now }
    ensures bound { result ≤ length locals.now }
{
    let mut count = 0;
    for local in locals {
        count += one_reference(local);
    }
    count
}

fn one_reference(local: &Local) -> usize
    ensures count { result ≡ references_in (local.now ∷ []) }
    ensures bound { result ≤ 1 }
{
    if local.by_ref { 1 } else { 0 }
}

/// The locals before a number.
fn before(locals: &[Local], number: u32) -> &[Local]
    ensures { result.now ≡ take number locals.now }
{
    let number = number as usize;
    if number < locals.len() {
        &locals[..number]
    } else {
        locals
    }
}

/// The locals from a number on.
pub fn after(locals: &[Local], number: u32) -> &[Local]
    ensures { result.now ≡ drop number locals.now }
{
    let number = number as usize;
    if number < locals.len() {
        &locals[number..]
    } else {
        &[]
    }
}

/// The number of a local among those that are variables.
pub fn slot_of(locals: &[Local], number: u32) -> Result<u32, AllocError>
    ensures { IfOk result (λ k. k ≡ slot locals.now number) }
{
    match u32::try_from(count_variables(before(locals, number))) {
        Ok(variable) => Ok(variable),
        Err(_) => Err(AllocError),
    }
}

/// The place of a local that is a variable.
pub fn local(alloc: Global, machine: &mut Machine, number: u32) -> Result<(), Stop>
    ensures { Did (pushing (Spot (In machine.old.active.here.frame (slot machine.old.active.unit.now.locals number) []))) machine.old result machine.new }
{
    let variable = slot_of(machine.active.unit.locals.items(), number)?;
    let place = Place::In {
        frame: machine.active.here.frame,
        variable,
        way: Items::new(alloc),
    };
    machine.leave(Item::Spot(place))?;
    Ok(())
}

/// The place that a local by reference holds.
pub fn reference(alloc: Global, machine: &mut Machine, number: u32) -> Result<(), Stop>
    ensures { Did (referring machine.old.active.here.references (reference_number machine.old.active.unit.now.locals number)) machine.old result machine.new }
{
    let count = count_references(before(machine.active.unit.locals.items(), number));
    match machine.active.here.references.get(count) {
        None => Err(stuck()),
        Some(place) => {
            let place = copy_place(alloc, place)?;
            machine.leave(Item::Spot(place))?;
            Ok(())
        }
    }
}

/// The place of a variable of the child in a module variable, where an export has such a number.
pub fn export(
    alloc: Global,
    machine: &mut Machine,
    modvar: u32,
    exported: Option<u32>,
) -> Result<(), Stop>
    ensures { Did (exporting machine.old.active.here.path modvar exported) machine.old result machine.new }
{
    let path = machine
        .walk
        .child(alloc, &machine.active.here.path, modvar)?;
    match exported {
        None => Err(stuck()),
        Some(variable) => {
            machine.leave(of_instance(alloc, path, variable))?;
            Ok(())
        }
    }
}
