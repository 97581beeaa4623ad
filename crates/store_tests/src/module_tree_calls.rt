//! A tree of instances, each with a number as its part.

ghost use Rattle.std.specs.Prelude.{◌≡◌, ◌+◌, IfOk, IfSome, true};
ghost use Rattle.module_tree.specs.Trees.{births_at};

use estelle_tree::Path;
use module_tree::{Missing, NoSuch, Tree, TreeError};
use std::alloc::Global;
use std::process::Abort;
use std::test::Fail;

fn path(alloc: Global, numbers: &[u64]) -> Result<Path, Fail>
    ensures { IfOk result (λ p. p ≡ numbers.now) }
{
    Ok(Path::of(Vec::from_slice(alloc, numbers)?))
}

fn planted(alloc: Global, root: u32) -> Result<Tree<u32>, Fail> {
    match Tree::single(alloc, root) {
        Ok(tree) => Ok(tree),
        Err(_) => Err(Fail::new("no memory")),
    }
}

/// Whether the parent's next child has this number, or the parent is not there.
fn is_next(tree: &Tree<u32>, parent: &Path, number: u64) -> bool
    ensures { result ≡ true → IfSome (births_at tree.now parent.now) (λ births. number ≡ births + 1) }
{
    match tree.births(parent) {
        None => true,
        Some(births) => births.checked_add(1) == Some(number),
    }
}

#[tactic(auto, using(crate::proofs::Callers::next_number))]
fn place(
    alloc: Global,
    tree: &mut Tree<u32>,
    parent: &[u64],
    number: u64,
    part: u32,
) -> Result<Result<(), NoSuch<u32>>, Fail> {
    let parent = path(alloc, parent)?;
    let child = parent.child(alloc, number)?;
    tree.reserve(1)?;
    if !is_next(tree, &parent, number) {
        return Err(Fail::new("not the next number"));
    }
    Ok(tree.place(child, part))
}

fn remove(
    alloc: Global,
    tree: &mut Tree<u32>,
    numbers: &[u64],
) -> Result<Result<(), Missing>, Fail> {
    if numbers.is_empty() {
        return Err(Fail::new("the root"));
    }
    Ok(tree.remove(&path(alloc, numbers)?))
}

/// The last numbers of the children's paths.
fn children(alloc: Global, tree: &Tree<u32>, numbers: &[u64]) -> Result<Vec<u64>, Fail> {
    let mut last = Vec::new(alloc);
    match tree.children(alloc, &path(alloc, numbers)?) {
        Ok(paths) => {
            for child in &paths {
                last.push(child.items().last().copied().unwrap_or(0))?;
            }
        }
        Err(TreeError::NoSuch) => last.push(1000)?,
        Err(TreeError::Memory) => return Err(Fail::new("no memory")),
    }
    Ok(last)
}

/// What is kept at and below an instance; 1000 where it is not there.
fn below(alloc: Global, tree: &Tree<u32>, numbers: &[u64]) -> Result<Vec<u32>, Fail> {
    let mut copied = Vec::new(alloc);
    match tree.below(alloc, &path(alloc, numbers)?) {
        Ok(parts) => {
            for part in &parts {
                copied.push(**part)?;
            }
        }
        Err(TreeError::NoSuch) => copied.push(1000)?,
        Err(TreeError::Memory) => return Err(Fail::new("no memory")),
    }
    Ok(copied)
}

/// The placed instances: parent, number, part.
const PLACED: [(&[u64], u64, u32); 6] = [
    (&[], 1, 10),
    (&[], 2, 20),
    (&[2], 1, 21),
    (&[2, 1], 1, 211),
    (&[2], 2, 22),
    (&[], 3, 30),
];

fn grown(alloc: Global) -> Result<Tree<u32>, Fail> {
    let mut tree = planted(alloc, 7)?;
    for (parent, number, part) in PLACED {
        if place(alloc, &mut tree, parent, number, part)?.is_err() {
            return Err(Fail::new("no parent"));
        }
    }
    Ok(tree)
}

fn finds(rt: &impl Abort, alloc: Global, tree: &mut Tree<u32>) -> Result<(), Fail> {
    let rows: [(&[u64], Option<u32>, Option<u64>); 6] = [
        (&[], Some(7), Some(3)),
        (&[2], Some(20), Some(2)),
        (&[2, 1, 1], Some(211), Some(0)),
        (&[3], Some(30), Some(0)),
        (&[4], None, None),
        (&[1, 1], None, None),
    ];
    for (numbers, part, births) in rows {
        assert_eq!(rt; tree.get(&path(alloc, numbers)?).copied(), part);
        assert_eq!(rt; tree.births(&path(alloc, numbers)?), births);
    }
    assert_eq!(rt; tree.depth(), 3);
    if let Some(part) = tree.get_mut(&path(alloc, &[2, 1])?) {
        *part = 5;
    }
    assert_eq!(rt; tree.get(&path(alloc, &[2, 1])?).copied(), Some(5));
    Ok(())
}

#[test]
fn instances_are_found(rt: HostRuntime) -> Result<(), Fail> {
    let mut tree = grown(rt.alloc())?;
    finds(&rt, rt.alloc(), &mut tree)
}

#[test]
fn children_stand_by_number(rt: HostRuntime) -> Result<(), Fail> {
    let alloc = rt.alloc();
    let tree = grown(alloc)?;
    let rows: [(&[u64], &[u64]); 4] = [
        (&[], &[1, 2, 3]),
        (&[2], &[1, 2]),
        (&[3], &[]),
        (&[4], &[1000]),
    ];
    for (numbers, wanted) in rows {
        assert_eq!(rt; children(alloc, &tree, numbers)?.as_slice(), wanted);
    }
    Ok(())
}

/// Whether this is kept at and below an instance, in this order.
fn are_below(
    alloc: Global,
    tree: &Tree<u32>,
    numbers: &[u64],
    wanted: &[u32],
) -> Result<bool, Fail> {
    Ok(below(alloc, tree, numbers)?.as_slice() == wanted)
}

fn lists_below(rt: &impl Abort, alloc: Global, tree: &mut Tree<u32>) -> Result<(), Fail> {
    let rows: [(&[u64], &[u32]); 5] = [
        (&[], &[7, 10, 20, 21, 211, 22, 30]),
        (&[2], &[20, 21, 211, 22]),
        (&[2, 1], &[21, 211]),
        (&[3], &[30]),
        (&[4], &[1000]),
    ];
    for (numbers, wanted) in rows {
        assert!(rt; are_below(alloc, tree, numbers, wanted)?);
    }
    assert_eq!(rt; remove(alloc, tree, &[2, 1])?, Ok(()));
    assert!(rt; are_below(alloc, tree, &[], &[7, 10, 20, 22, 30])?);
    Ok(())
}

#[test]
fn parts_below_stand_in_path_order(rt: HostRuntime) -> Result<(), Fail> {
    let mut tree = grown(rt.alloc())?;
    lists_below(&rt, rt.alloc(), &mut tree)
}

fn removes(rt: &impl Abort, alloc: Global, tree: &mut Tree<u32>) -> Result<(), Fail> {
    assert_eq!(rt; remove(alloc, tree, &[4])?, Err(Missing));
    assert_eq!(rt; remove(alloc, tree, &[2])?, Ok(()));
    let gone: [&[u64]; 4] = [&[2], &[2, 1], &[2, 1, 1], &[2, 2]];
    for numbers in gone {
        assert_eq!(rt; tree.get(&path(alloc, numbers)?).copied(), None);
    }
    assert_eq!(rt; children(alloc, tree, &[])?.as_slice(), [1, 3].as_slice());
    assert_eq!(rt;
        place(alloc, tree, &[2], 1, 9)?
            .err()
            .map(|refused| refused.part),
        Some(9)
    );
    assert_eq!(rt; place(alloc, tree, &[], 4, 40)?.is_ok(), true);
    assert_eq!(rt;
        children(alloc, tree, &[])?.as_slice(),
        [1, 3, 4].as_slice()
    );
    Ok(())
}

#[test]
fn removed_with_all_below(rt: HostRuntime) -> Result<(), Fail> {
    let mut tree = grown(rt.alloc())?;
    removes(&rt, rt.alloc(), &mut tree)
}
