//! A table of offers of two systems, `/1` and `/2`.

ghost use Rattle.std.specs.Prelude.{◌≡◌, true};
ghost use Rattle.std.specs.List.Sorted.{IsStrictlyIncreasing};

use estelle_tree::{Items, Path};
use offer_table::{Offers, Row};
use std::alloc::{AllocError, Global};
use std::test::Fail;

fn path(alloc: Global, numbers: &[u64]) -> Result<Path, AllocError> {
    Ok(Path::of(Vec::from_slice(alloc, numbers)?))
}

/// Whether each number is below the next.
fn rise(numbers: &[u32]) -> bool
    ensures { result ≡ true → IsStrictlyIncreasing numbers.now }
{
    for i in 1..numbers.len() {
        if numbers[i - 1] >= numbers[i] {
            return false;
        }
    }
    true
}

#[tactic(auto, using(std::proofs::lemmas::Map::Keys::sorted_from_strictly_increasing))]
fn install(
    alloc: Global,
    offers: &mut Offers,
    numbers: &[u64],
    transitions: &[u32],
) -> Result<(), Fail> {
    if !rise(transitions) {
        return Err(Fail::new("numbers that do not rise"));
    }
    let enabled = Items::from_slice(alloc, transitions)?;
    offers.install(alloc, &path(alloc, numbers)?, enabled)?;
    Ok(())
}

/// Three instances, marked in one go.
fn mark_three(
    alloc: Global,
    offers: &mut Offers,
    first: &[u64],
    second: &[u64],
    third: &[u64],
) -> Result<(), Fail> {
    let first = path(alloc, first)?;
    let second = path(alloc, second)?;
    let third = path(alloc, third)?;
    offers.reserve(3)?;
    offers.mark(first);
    offers.mark(second);
    offers.mark(third);
    Ok(())
}

/// Whether these are the marks at and below an instance, in this order.
fn are_marked(
    alloc: Global,
    offers: &Offers,
    system: &[u64],
    wanted: &[&[u64]],
) -> Result<bool, Fail> {
    let marks = offers.marked(&path(alloc, system)?);
    if marks.len() != wanted.len() {
        return Ok(false);
    }
    for (mark, numbers) in marks.iter().zip(wanted) {
        if mark.items() != *numbers {
            return Ok(false);
        }
    }
    Ok(true)
}

fn is_row(row: &Row, wanted: &(&[u64], &[u32])) -> bool {
    row.path.items() == wanted.0 && row.numbers.as_slice() == wanted.1
}

/// Whether these are the rows at and below an instance, in this order.
fn are_rows(
    alloc: Global,
    offers: &Offers,
    system: &[u64],
    wanted: &[(&[u64], &[u32])],
) -> Result<bool, Fail> {
    let rows = offers.rows(&path(alloc, system)?);
    if rows.len() != wanted.len() {
        return Ok(false);
    }
    for (row, numbers) in rows.iter().zip(wanted) {
        if !is_row(row, numbers) {
            return Ok(false);
        }
    }
    Ok(true)
}

fn marked(alloc: Global) -> Result<Offers, Fail> {
    let mut offers = Offers::none(alloc);
    mark_three(alloc, &mut offers, &[2], &[1, 3], &[1])?;
    mark_three(alloc, &mut offers, &[1, 3], &[], &[1, 2, 7])?;
    mark_three(alloc, &mut offers, &[1, 20], &[1], &[10])?;
    Ok(offers)
}

#[test]
fn marks_in_path_order(rt: HostRuntime) -> Result<(), Fail> {
    let alloc = rt.alloc();
    let mut offers = marked(alloc)?;
    let rows: [(&[u64], &[&[u64]]); 5] = [
        (
            &[],
            &[&[], &[1], &[1, 2, 7], &[1, 3], &[1, 20], &[2], &[10]],
        ),
        (&[1], &[&[1], &[1, 2, 7], &[1, 3], &[1, 20]]),
        (&[1, 2], &[&[1, 2, 7]]),
        (&[2], &[&[2]]),
        (&[3], &[]),
    ];
    for (system, wanted) in rows {
        assert!(rt; are_marked(alloc, &offers, system, wanted)?);
    }
    assert!(rt; offers.is_marked(&path(alloc, &[1, 20])?));
    assert!(rt; !offers.is_marked(&path(alloc, &[1, 2])?));
    offers.unmark(&path(alloc, &[1])?);
    assert!(rt; are_marked(alloc, &offers, &[], &[&[], &[2], &[10]])?);
    assert!(rt; !offers.is_marked(&path(alloc, &[1, 20])?));
    Ok(())
}

fn enabled(alloc: Global) -> Result<Offers, Fail> {
    let mut offers = Offers::none(alloc);
    let rows: [(&[u64], &[u32]); 5] = [
        (&[2, 1], &[4]),
        (&[1], &[1, 3]),
        (&[1, 10], &[2]),
        (&[1, 9, 1], &[1, 2, 3, 300]),
        (&[2], &[7, 8]),
    ];
    for (numbers, transitions) in rows {
        install(alloc, &mut offers, numbers, transitions)?;
    }
    Ok(offers)
}

#[test]
fn rows_in_path_order(rt: HostRuntime) -> Result<(), Fail> {
    let alloc = rt.alloc();
    let mut offers = enabled(alloc)?;
    install(alloc, &mut offers, &[2], &[5])?;
    let rows: [(&[u64], &[(&[u64], &[u32])]); 4] = [
        (
            &[],
            &[
                (&[1], &[1, 3]),
                (&[1, 9, 1], &[1, 2, 3, 300]),
                (&[1, 10], &[2]),
                (&[2], &[5]),
                (&[2, 1], &[4]),
            ],
        ),
        (&[2], &[(&[2], &[5]), (&[2, 1], &[4])]),
        (&[1, 9], &[(&[1, 9, 1], &[1, 2, 3, 300])]),
        (&[3], &[]),
    ];
    for (system, wanted) in rows {
        assert!(rt; are_rows(alloc, &offers, system, wanted)?);
    }
    Ok(())
}

#[test]
fn rows_that_go(rt: HostRuntime) -> Result<(), Fail> {
    let alloc = rt.alloc();
    let mut offers = enabled(alloc)?;
    mark_three(alloc, &mut offers, &[1, 9], &[1], &[1, 9, 1])?;
    install(alloc, &mut offers, &[1], &[])?;
    offers.forget(&path(alloc, &[1, 9])?);
    assert!(rt; are_rows(alloc, &offers, &[1], &[(&[1, 10], &[2])])?);
    assert!(rt; are_marked(alloc, &offers, &[], &[&[1]])?);
    assert!(rt; !offers.is_empty());
    offers.forget(&path(alloc, &[1])?);
    offers.forget(&path(alloc, &[2])?);
    assert!(rt; offers.is_empty());
    assert!(rt; are_marked(alloc, &offers, &[], &[])?);
    Ok(())
}

#[test]
fn what_is_on(rt: HostRuntime) -> Result<(), Fail> {
    let alloc = rt.alloc();
    let offers = enabled(alloc)?;
    let rows: [(&[u64], u32, bool); 8] = [
        (&[1], 1, true),
        (&[1], 2, false),
        (&[1], 3, true),
        (&[1, 9, 1], 300, true),
        (&[1, 9, 1], 4, false),
        (&[1, 9], 1, false),
        (&[2, 1], 4, true),
        (&[], 4, false),
    ];
    for (numbers, number, wanted) in rows {
        assert_eq!(rt; offers.is_on(&path(alloc, numbers)?, number), wanted);
    }
    Ok(())
}
