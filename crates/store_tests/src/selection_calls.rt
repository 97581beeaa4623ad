//! What a chooser picks of what instances offer.

ghost use Rattle.std.specs.Prelude.{ℕ, ◌-◌};

use estelle_tree::{Pair, Path};
use outside::{Chooser, FirstChooser};
use std::alloc::{AllocError, Global};
use std::test::Fail;
use transition_select::{Countable, Offer, choose, offered};

/// The chooser that picks the last candidate each time.
#[derive(Clone, Copy)]
struct LastChooser;

impl Chooser for LastChooser {
    ghost draw = { λ chooser n. (n - 1, chooser) };

    fn pick(&mut self, n: u64) -> u64 {
        n - 1
    }
}

fn offer(
    alloc: Global,
    path: &[u64],
    of_process: bool,
    numbers: &[u32],
) -> Result<Offer, AllocError> {
    Ok(Offer {
        path: Path::of(path.to_vec(alloc)?),
        of_process,
        offered: numbers.to_vec(alloc)?,
    })
}

/// A process whose first child is an activity of two children, and whose second child has one child.
fn offers(alloc: Global) -> Result<Vec<Offer>, AllocError> {
    let mut offers = Vec::new(alloc);
    for (path, of_process, numbers) in [
        ([].as_slice(), true, [].as_slice()),
        (&[1], false, &[]),
        (&[1, 1], true, &[2]),
        (&[1, 2], true, &[1, 3]),
        (&[2], true, &[4, 5]),
        (&[2, 1], true, &[1]),
    ] {
        offers.push(offer(alloc, path, of_process, numbers)?)?;
    }
    Ok(offers)
}

/// Whether these are the pairs, in order.
fn are(takes: &[Pair], wanted: &[(&[u64], u32)]) -> bool {
    takes.len() == wanted.len()
        && takes.iter().zip(wanted).all(|(take, (path, trans))| take.path.items() == *path
            && take.trans == *trans)
}

/// Whether the chooser picks these pairs of the offers.
fn picks<H: Chooser + Drop>(
    alloc: Global,
    mut chooser: H,
    wanted: &[(&[u64], u32)],
) -> Result<bool, AllocError> {
    let offers = offers(alloc)?;
    let takes = choose(alloc, &offers, &mut chooser)?;
    Ok(are(&takes, wanted))
}

// A parent goes before its children, each child of a process goes on, and of an activity one child that can.
#[test]
fn choices(rt: HostRuntime) -> Result<(), Fail> {
    assert!(rt; picks(rt.alloc(), FirstChooser, &[(&[1, 1], 2), (&[2], 4)])?);
    assert!(rt; picks(rt.alloc(), LastChooser, &[(&[1, 2], 3), (&[2], 5)])?);
    Ok(())
}

/// Whether of these transitions with their priorities those numbers are offered.
fn offers_of(
    alloc: Global,
    counted: &[(u32, Option<i64>)],
    wanted: &[u32],
) -> Result<bool, AllocError> {
    let mut all = Vec::new(alloc);
    for (trans, priority) in counted {
        all.push(Countable {
            trans: *trans,
            priority: *priority,
            must: false,
        })?;
    }
    let numbers = offered(alloc, &all)?;
    Ok(numbers.as_slice() == wanted)
}

// A smaller number is a higher priority, and none comes after all.
#[test]
fn priorities(rt: HostRuntime) -> Result<(), Fail> {
    assert!(rt; offers_of(rt.alloc(), &[], &[])?);
    assert!(rt; offers_of(rt.alloc(), &[(1, None), (2, None)], &[1, 2])?);
    assert!(rt;
        offers_of(
            rt.alloc(),
            &[(1, None), (2, Some(3)), (3, Some(1)), (4, Some(1))],
            &[3, 4]
        )?
    );
    assert!(rt; offers_of(rt.alloc(), &[(1, Some(-2)), (2, Some(0))], &[1])?);
    Ok(())
}
