//! Words, paths and lists.

use estelle_tree::{Boxed, Items, Path, Sequence, SequenceMut, Text, Word, is_identifier};
use std::alloc::{AllocError, Global};
use std::test::Fail;

#[test]
fn names(rt: HostRuntime) -> Result<(), Fail> {
    let word = Word::of(rt.alloc(), b"EnD_1")?;
    assert!(rt; is_identifier(&word));
    Ok(())
}

#[test]
fn reserved_words(rt: HostRuntime) -> Result<(), Fail> {
    let word = Word::of(rt.alloc(), b"eND")?;
    assert!(rt; !is_identifier(&word));
    Ok(())
}

#[test]
fn copied_words(rt: HostRuntime) -> Result<(), Fail> {
    let word = Word::of(rt.alloc(), b"EnD_1")?.copy(rt.alloc())?;
    assert!(rt; word.items() == b"end_1".as_slice());
    Ok(())
}

#[test]
fn copied_paths(rt: HostRuntime) -> Result<(), Fail> {
    let path = Path::root(rt.alloc())
        .child(rt.alloc(), 7)?
        .copy(rt.alloc())?;
    assert!(rt; path.items() == [7].as_slice());
    Ok(())
}

#[test]
fn texts(rt: HostRuntime) -> Result<(), Fail> {
    let text = Text::of(vec![in rt.alloc(); 1]?);
    assert!(rt; text.items() == [1].as_slice());
    Ok(())
}

fn put_paths(alloc: Global) -> Result<Items<Path>, AllocError> {
    let mut paths: Items<Path> = Items::new(alloc);
    paths.push(Path::root(alloc).child(alloc, 7)?)?;
    paths.put_at(0, Path::root(alloc));
    Ok(paths)
}

#[test]
fn lists_of_paths(rt: HostRuntime) -> Result<(), Fail> {
    let paths = put_paths(rt.alloc())?;
    assert!(rt; matches!(paths.items(), [path] if path.items().is_empty()));
    Ok(())
}

fn put_boxes(alloc: Global) -> Result<Items<Boxed<u32>>, AllocError> {
    let mut list: Items<Boxed<u32>> = Items::none(alloc);
    list.push(Boxed::new(alloc, 3)?)?;
    list.push(Boxed::new(alloc, 5)?)?;
    list.put_at(1, Boxed::new(alloc, 4)?);
    Ok(list)
}

#[test]
fn lists_of_boxes(rt: HostRuntime) -> Result<(), Fail> {
    let list = put_boxes(rt.alloc())?;
    assert!(rt; matches!(list.items(), [first, second] if *first.get() == 3 && *second.get() == 4));
    Ok(())
}
