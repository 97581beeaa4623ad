//! Lists and boxes: each call once.

use estelle_lists::{Boxed, Items, Sequence, SequenceMut};
use std::test::Fail;

/// Puts three numbers in the place of the first one, and gives the second of them.
fn replaced(list: &mut Items<u32>) -> u32 {
    if !list.is_empty() {
        list.set(0, 3);
    }
    if !list.is_empty() {
        list.put_at(0, 4);
    }
    if list.is_empty() {
        0
    } else {
        list.exchange(0, 5)
    }
}

#[test]
fn lists(rt: HostRuntime) -> Result<(), Fail> {
    let mut list = Items::none(rt.alloc());
    assert!(rt; list.is_empty());
    list.push(1)?;
    list.push(2)?;
    assert_eq!(rt; replaced(&mut list), 4);
    assert_eq!(rt; list.as_slice(), [5, 2].as_slice());
    assert_eq!(rt; list.pop(), Some(2));
    assert_eq!(rt; list.items(), [5].as_slice());
    assert_eq!(rt; list.len(), 1);
    assert_eq!(rt; list.get(0), Some(&5));
    assert!(rt; list.get(1).is_none());
    Ok(())
}

#[test]
fn lists_of_what_there_is(rt: HostRuntime) -> Result<(), Fail> {
    let copies = Items::from_slice(rt.alloc(), &[8, 9])?;
    assert_eq!(rt; copies.as_slice(), [8, 9].as_slice());
    let mut numbers = Vec::new(rt.alloc());
    numbers.push(7)?;
    assert_eq!(rt; Items::from_vec(numbers).as_slice(), [7].as_slice());
    let empty: Items<u32> = Items::new(rt.alloc());
    assert_eq!(rt; empty.len(), 0);
    assert_eq!(rt; *Boxed::new(rt.alloc(), 6)?.get(), 6);
    Ok(())
}
