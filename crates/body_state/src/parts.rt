//! The parts of an image, by their paths.

ghost use Rattle.std.specs.Prelude.{◌≡◌, ◌≤◌, true, vec_len, slice_get, if◌then◌else◌, not, filter, option_map, Some, None, MatchOption, IfOk, OnOk, OnErr};
ghost use Rattle.std.specs.Option.{option_copied};
ghost use Rattle.std.specs.List.{insert};
ghost use Rattle.std.specs.FinMap.{put};
ghost use Rattle.estelle_tree.specs.Paths.{path_cmp, is_inside};
ghost use Rattle.estelle_model.specs.Jobs.{instance_of};
ghost use Rattle.estelle_model.specs.Places.{held_in};
ghost use Rattle.body_values.specs.Gives.{Gives};
ghost use Rattle.body_state.specs.InOrder.{parts_behind, entries_of, are_in_order, InOrder, instance_in, StandsAt};

use body_values::{Stop, copy_part_at};
use estelle_model::{Image, Part};
use estelle_tree::{Items, Path};
use pascal_values::Fault;
use std::alloc::{AllocError, Global};
use std::cmp::Ordering;

/// How two paths stand to each other in path order.
fn compare(a: &Path, b: &Path) -> Ordering
    ensures { result ≡ path_cmp a.now b.now }
{
    a.items().cmp(&b.items())
}

/// Whether the parts of an image stand in path order, each path once.
pub fn is_in_order(image: &Image) -> bool
    ensures { result ≡ are_in_order image.now.parts }
{
    rise(image.parts.as_slice())
}

fn rise(parts: &[Part]) -> bool
    ensures { result ≡ are_in_order parts.now }
{
    for i in 1..parts.len() {
        if !compare(&parts[i - 1].path, &parts[i].path).is_lt() {
            return false;
        }
    }
    true
}

fn begins_with(parts: &[Part], path: &Path) -> bool
    ensures { result ≡ true → StandsAt parts.now path.now 0 }
{
    match parts.first() {
        Some(first) => first.path.items() == path.items(),
        None => false,
    }
}

/// The place of the part with a path. The parts of a job begin with that of its own instance.
pub fn find_part(parts: &[Part], path: &Path) -> Option<usize>
    requires { InOrder parts.now }
    ensures { MatchOption result (instance_in parts.now path.now ≡ None) (λ k. StandsAt parts.now path.now k) }
{
    if begins_with(parts, path) {
        Some(0)
    } else {
        search_parts(parts, path)
    }
}

fn search_parts(parts: &[Part], path: &Path) -> Option<usize>
    requires { InOrder parts.now }
    ensures { MatchOption result (instance_in parts.now path.now ≡ None) (λ k. StandsAt parts.now path.now k) }
{
    match parts.binary_search_by(|part| compare(&part.path, path)) {
        Ok(place) => Some(place),
        Err(_) => None,
    }
}

/// The part with a path.
pub fn part_at<'p>(parts: &'p [Part], path: &Path) -> Option<&'p Part>
    requires { InOrder parts.now }
    ensures { option_map instance_of (option_copied result) ≡ instance_in parts.now path.now }
{
    match find_part(parts, path) {
        Some(place) => nth(parts, place),
        None => None,
    }
}

fn nth(parts: &[Part], place: usize) -> Option<&Part>
    ensures { option_copied result ≡ slice_get parts.now place }
{
    parts.get(place)
}

/// Whether the parts that are lent stand in path order, each path once.
pub fn are_in_order(parts: &[&Part]) -> bool
    ensures { result ≡ are_in_order (parts_behind parts.now) }
{
    for i in 1..parts.len() {
        if !compare(&parts[i - 1].path, &parts[i].path).is_lt() {
            return false;
        }
    }
    true
}

fn lent_begin_with(parts: &[&Part], path: &Path) -> bool
    ensures { result ≡ true → StandsAt (parts_behind parts.now) path.now 0 }
{
    match parts.first() {
        Some(first) => first.path.items() == path.items(),
        None => false,
    }
}

/// The place of the part with a path, among parts that are lent. Those of a job begin with that of its own instance.
fn find_lent(parts: &[&Part], path: &Path) -> Option<usize>
    requires { InOrder (parts_behind parts.now) }
    ensures { MatchOption result (instance_in (parts_behind parts.now) path.now ≡ None) (λ k. StandsAt (parts_behind parts.now) path.now k) }
{
    if lent_begin_with(parts, path) {
        Some(0)
    } else {
        search_lent(parts, path)
    }
}

fn search_lent(parts: &[&Part], path: &Path) -> Option<usize>
    requires { InOrder (parts_behind parts.now) }
    ensures { MatchOption result (instance_in (parts_behind parts.now) path.now ≡ None) (λ k. StandsAt (parts_behind parts.now) path.now k) }
{
    match parts.binary_search_by(|part| compare(&part.path, path)) {
        Ok(place) => Some(place),
        Err(_) => None,
    }
}

/// The part with a path, among parts that are lent.
pub fn lent_at<'p>(parts: &[&'p Part], path: &Path) -> Option<&'p Part>
    requires { InOrder (parts_behind parts.now) }
    ensures { option_map instance_of (option_copied result) ≡ instance_in (parts_behind parts.now) path.now }
{
    match find_lent(parts, path) {
        Some(place) => lent_nth(parts, place),
        None => None,
    }
}

fn lent_nth<'p>(parts: &[&'p Part], place: usize) -> Option<&'p Part>
    ensures { option_copied result ≡ slice_get (parts_behind parts.now) place }
{
    match parts.get(place) {
        Some(part) => Some(*part),
        None => None,
    }
}

/// The place of the part with a path, among those that are shown: the own ones, or the lent ones.
pub fn find_shown(lent: &[&Part], own: &Vec<Part>, is_own: bool, path: &Path) -> Option<usize>
    requires { InOrder (if is_own then own.now.items else parts_behind lent.now) }
    ensures { MatchOption result (instance_in (if is_own then own.now.items else parts_behind lent.now) path.now ≡ None) (λ k. StandsAt (if is_own then own.now.items else parts_behind lent.now) path.now k) }
{
    if is_own {
        find_part(own, path)
    } else {
        find_lent(lent, path)
    }
}

/// The part with a path, of those that are shown.
pub fn shown_at<'p>(
    lent: &[&'p Part],
    own: &'p Vec<Part>,
    is_own: bool,
    path: &Path,
) -> Option<&'p Part>
    requires { InOrder (if is_own then own.now.items else parts_behind lent.now) }
    ensures { option_map instance_of (option_copied result) ≡ instance_in (if is_own then own.now.items else parts_behind lent.now) path.now }
{
    if is_own {
        part_at(own, path)
    } else {
        lent_at(lent, path)
    }
}

/// Copies of parts that are lent. It takes the time and the memory of all that they hold.
pub fn copy_parts(alloc: Global, parts: &[&Part]) -> Result<Vec<Part>, AllocError>
    ensures { IfOk result (λ copies. copies.items ≡ parts_behind parts.now) }
{
    let mut copies = Vec::new(alloc);
    for part in parts {
        copies.push(copy_part_at(alloc, &part.path, part)?)?;
    }
    Ok(copies)
}

/// Copies the lent parts in place of the own ones, unless these are shown.
pub fn own_parts(
    alloc: Global,
    lent: &[&Part],
    own: &mut Vec<Part>,
    is_own: bool,
) -> Result<(), AllocError>
    ensures ok { OnOk result (own.new.items ≡ (if is_own then own.old.items else parts_behind lent.now)) }
    ensures err { OnErr result (own.new ≡ own.old) }
{
    if !is_own {
        *own = copy_parts(alloc, lent)?;
    }
    Ok(())
}

/// The parts that are shown: the own ones, or copies of the lent ones.
pub fn kept_parts(
    alloc: Global,
    lent: &[&Part],
    own: Vec<Part>,
    is_own: bool,
) -> Result<Vec<Part>, AllocError>
    ensures { IfOk result (λ parts. parts.items ≡ (if is_own then own.items else parts_behind lent.now)) }
{
    if is_own {
        Ok(own)
    } else {
        copy_parts(alloc, lent)
    }
}

/// Puts a part in its place.
pub fn insert_part(parts: &mut Vec<Part>, part: Part) -> Result<(), AllocError>
    requires { InOrder parts.old.items }
    ensures ok { OnOk result (entries_of parts.new.items ≡ put path_cmp part.path (instance_of part) (entries_of parts.old.items)) }
    ensures err { OnErr result (parts.new.items ≡ parts.old.items) }
{
    match parts.binary_search_by(|each| compare(&each.path, &part.path)) {
        Ok(place) => {
            parts[place] = part;
            Ok(())
        }
        Err(place) => insert_at(parts, place, part),
    }
}

fn insert_at(parts: &mut Vec<Part>, place: usize, part: Part) -> Result<(), AllocError>
    requires { place ≤ vec_len parts.old }
    ensures ok { OnOk result (parts.new.items ≡ insert parts.old.items place part) }
    ensures err { OnErr result (parts.new.items ≡ parts.old.items) }
{
    match parts.insert(place, part) {
        Ok(()) => Ok(()),
        Err(_) => Err(AllocError),
    }
}

/// Removes the parts at and below an instance.
pub fn keep_outside(parts: &mut Vec<Part>, path: &Path)
    ensures { parts.new.items ≡ filter (λ p. not (is_inside path.now p.path)) parts.old.items }
{
    parts.retain(|part| !path.is_at_or_above(&part.path));
}

/// The child that a module variable of an instance holds.
pub fn child_of(alloc: Global, part: &Part, number: u32) -> Result<Path, Stop>
    ensures { Gives (held_in (slice_get part.now.modvars number)) result }
{
    match part.modvars.get(number as usize) {
        Some(Some(path)) => Ok(path.copy(alloc)?),
        _ => Err(Stop::Fault(Fault::NoModule)),
    }
}
