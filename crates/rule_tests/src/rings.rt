//! The ring: its text, its tree, and that it keeps all rules.

use estelle_printer::spell;
use estelle_tree::{Sequence, Span, Spec, Text};
use spec_maker::make;
use std::alloc::{AllocError, Global};
use std::test::Fail;
use test_texts::{RING_OF_TWO, WORKED, accepted, tree};

/// How the text of the ring of 11 stations ends, from its module variables on.
const END_OF_ELEVEN: &str =
    "modvar s1 , s2 , s3 , s4 , s5 , s6 , s7 , s8 , s9 , s10 , s11 : station ;
initialize begin init s1 with go ( 1 ) ;
init s2 with go ( 2 ) ;
init s3 with go ( 3 ) ;
init s4 with go ( 4 ) ;
init s5 with go ( 5 ) ;
init s6 with go ( 6 ) ;
init s7 with go ( 7 ) ;
init s8 with go ( 8 ) ;
init s9 with go ( 9 ) ;
init s10 with go ( 10 ) ;
init s11 with go ( 11 ) ;
connect s1 . right to s2 . left ;
connect s2 . right to s3 . left ;
connect s3 . right to s4 . left ;
connect s4 . right to s5 . left ;
connect s5 . right to s6 . left ;
connect s6 . right to s7 . left ;
connect s7 . right to s8 . left ;
connect s8 . right to s9 . left ;
connect s9 . right to s10 . left ;
connect s10 . right to s11 . left ;
connect s11 . right to s1 . left end ;
end .
";

fn worked_ring(alloc: Global) -> Option<Spec> {
    for worked in &WORKED {
        if worked.name == "ring" {
            return tree(alloc, worked.text.as_bytes());
        }
    }
    None
}

#[test]
fn ring_of_two(rt: HostRuntime) -> Result<(), Fail> {
    let made = make(rt.alloc(), 2)?;
    let text = spell(rt.alloc(), &made)?;
    assert_eq!(rt; text.items(), RING_OF_TWO.as_bytes());
    Ok(())
}

// The worked text, of which the wanted one above was made by hand, has the same tokens.
#[test]
fn worked_ring_is_that_of_two(rt: HostRuntime) -> Result<(), Fail> {
    let spec = worked_ring(rt.alloc()).ok_or("no worked ring")?;
    let text = spell(rt.alloc(), &spec)?;
    assert_eq!(rt; text.items(), RING_OF_TWO.as_bytes());
    Ok(())
}

#[test]
fn ring_of_eleven(rt: HostRuntime) -> Result<(), Fail> {
    let made = make(rt.alloc(), 11)?;
    let text = spell(rt.alloc(), &made)?;
    assert!(rt; text.items().ends_with(END_OF_ELEVEN.as_bytes()));
    Ok(())
}

/// The places of some nodes of a ring whose text has so many bytes, of which the last is a line feed. The parts begin on the
/// third line, behind 21 bytes and 27.
fn has_places(spec: &Spec, bytes: u32) -> bool {
    let whole = Span {
        start: 0,
        end: bytes.saturating_sub(1),
    };
    let name = Span { start: 14, end: 18 };
    spec.span == whole && spec.name.span == name && spec.parts.span.start == 48
}

/// Whether a ring is read back from its text.
fn is_read_back(alloc: Global, made: &Spec, text: &Text) -> bool {
    match tree(alloc, text.items()) {
        Some(read) => spells_again(alloc, &read, text) && read.span == made.span,
        None => false,
    }
}

fn spells_again(alloc: Global, read: &Spec, text: &Text) -> bool {
    match spell(alloc, read) {
        Ok(again) => again.items() == text.items(),
        Err(_) => false,
    }
}

/// The ring of n stations lies where its text says, is read back from it, and keeps all rules.
fn is_in_order(alloc: Global, made: Spec) -> Result<bool, AllocError> {
    let text = spell(alloc, &made)?;
    let read = is_read_back(alloc, &made, &text);
    let placed = has_places(&made, text.items().len().min(1_000_000) as u32);
    Ok(placed && read && accepted(alloc, text.items()).is_some())
}

#[test]
fn rings_are_accepted(rt: HostRuntime) -> Result<(), Fail> {
    assert!(rt; is_in_order(rt.alloc(), make(rt.alloc(), 2)?)?);
    assert!(rt; is_in_order(rt.alloc(), make(rt.alloc(), 20)?)?);
    assert!(rt; is_in_order(rt.alloc(), make(rt.alloc(), 200)?)?);
    Ok(())
}
