//! Copies of what an image has.

ghost use Rattle.std.specs.Prelude.{◌≡◌, IfOk};

use estelle_model::Part;
use estelle_tree::{IpAddr, Items, Link, Path, Sequence, SequenceMut};
use pascal_values::{Values, copy};
use std::alloc::{AllocError, Global};

/// A copy of an instance at another path.
pub fn copy_part_at(alloc: Global, path: &Path, part: &Part) -> Result<Part, AllocError>
    ensures { IfOk result (λ copy. copy ≡ record part.now { path = path.now }) }
{
    Ok(Part {
        path: path.copy(alloc)?,
        body: part.body,
        state: part.state,
        vars: copy_values(alloc, &part.vars)?,
        modvars: copy_held(alloc, part.modvars.as_slice())?,
        births: part.births,
    })
}

pub fn copy_values(alloc: Global, values: &Values) -> Result<Values, AllocError>
    ensures { IfOk result (λ copies. copies ≡ values.now) }
{
    let mut copies = Values::none(alloc);
    for value in values.items() {
        copies.push(copy(alloc, value)?)?;
    }
    Ok(copies)
}

fn copy_held(alloc: Global, held: &[Option<Path>]) -> Result<Items<Option<Path>>, AllocError>
    ensures { IfOk result (λ copies. copies ≡ held.now) }
{
    let mut copies = Items::new(alloc);
    for child in held {
        copies.push(copy_child(alloc, child)?)?;
    }
    Ok(copies)
}

fn copy_child(alloc: Global, child: &Option<Path>) -> Result<Option<Path>, AllocError>
    ensures { IfOk result (λ copy. copy ≡ child.now) }
{
    match child {
        None => Ok(None),
        Some(path) => Ok(Some(path.copy(alloc)?)),
    }
}

pub fn copy_links(alloc: Global, links: &[Link]) -> Result<Vec<Link>, AllocError>
    ensures { IfOk result (λ copies. copies.items ≡ links.now) }
{
    let mut copies = Vec::new(alloc);
    for link in links {
        copies.push(copy_link(alloc, link)?)?;
    }
    Ok(copies)
}

fn copy_link(alloc: Global, link: &Link) -> Result<Link, AllocError>
    ensures { IfOk result (λ copy. copy ≡ link.now) }
{
    Ok(Link {
        kind: link.kind,
        first: copy_address(alloc, &link.first)?,
        second: copy_address(alloc, &link.second)?,
    })
}

pub fn copy_address(alloc: Global, address: &IpAddr) -> Result<IpAddr, AllocError>
    ensures { IfOk result (λ copy. copy ≡ address.now) }
{
    Ok(IpAddr {
        path: address.path.copy(alloc)?,
        ip: address.ip,
    })
}

/// The items of a list, moved.
pub fn into_vec<T: Drop>(alloc: Global, items: Items<T>) -> Result<Vec<T>, AllocError>
    ensures { IfOk result (λ moved. moved.items ≡ items) }
{
    let mut left = items;
    let mut moved = Vec::new(alloc);
    while let Some(item) = left.pop() {
        moved.push(item)?;
    }
    moved.reverse();
    Ok(moved)
}
