//! Where whole specifications are refused.

use estelle_parser::{SyntaxError, parse};
use std::alloc::Global;
use std::test::Fail;
use test_texts::tokens_of;

/// Each text, and where it is refused.
const ROWS: [(&[u8], Option<u32>); 18] = [
    (b"", Some(0)),
    (b" { no } ", Some(8)),
    (b"specification s; end", Some(20)),
    (b"specification s; end; ", Some(20)),
    (b"specification process; end.", Some(14)),
    (b"specification s process; end.", Some(16)),
    (
        b"specification s systemprocess default common queue; end.",
        Some(30),
    ),
    (
        b"specification s; default individual queue; default common queue; end.",
        Some(43),
    ),
    (
        b"specification s; timescale t; default common queue; end.",
        None,
    ),
    (
        b"specification s; state i; default common queue; end.",
        Some(26),
    ),
    (
        b"specification s; initialize begin end; var x: y; end.",
        Some(39),
    ),
    (
        b"specification s; initialize begin end; initialize begin end; end.",
        Some(39),
    ),
    (
        b"specification s; trans begin end; initialize begin end; end.",
        Some(34),
    ),
    (b"specification s; trans end.", Some(23)),
    (b"specification s; body b; end; end.", Some(23)),
    (b"specification s; body b for m; end.", Some(34)),
    (b"specification s; initialize to begin end; end.", Some(31)),
    (b"specification s; body b for m; end; end.", None),
];

/// Texts that are refused at the token behind the comment `{}`, or at their end.
const MARKED: [&str; 40] = [
    // declarations
    "specification s; channel a ( b {}) ;",
    "specification s; channel a ( b , c {}, d ) ;",
    "specification s; channel a ( b , c ) ; {}end",
    "specification s; channel a ( b , c ) ; by b : {};",
    "specification s; channel a ( b , c ) ; by b : d ( {}) ;",
    "specification s; module {}process ; end ;",
    "specification s; module a process {}activity ; end ;",
    "specification s; module a ; ip {}end ;",
    "specification s; module a ; export b : c ; {}ip d : e ( f ) ; end ;",
    "specification s; module a ; end {}end",
    "specification s; ip a : b {};",
    "specification s; ip a : b ( c ) common {};",
    "specification s; modvar a : {}process ;",
    "specification s; state a , {};",
    "specification s; stateset a = [ {}] ;",
    "specification s; {}export a : set of b ;",
    "specification s; default common {};",
    "specification s systemactivity ; timescale seconds ; default common queue ; {}timescale a ;",
    // clauses
    "specification s; trans from {}same",
    "specification s; trans from a , {}to",
    "specification s; trans to {}begin",
    "specification s; trans when p {}begin",
    "specification s; trans when p . m ( {})",
    "specification s; trans any i : t ; {}do",
    "specification s; trans any {}do",
    "specification s; trans delay {}1",
    "specification s; trans delay ( {}* )",
    "specification s; trans delay ( 1 , 2 {}, 3 )",
    // blocks
    "specification s; trans name l : {}name m : begin end ;",
    "specification s; trans name l : var x : t ; {}name m : begin end ;",
    "specification s; trans var x : t ; name l : {}name m : begin end ;",
    "specification s; trans var x : t ; name l : {}var y : t ; begin end ;",
    "specification s; trans begin end {}",
    // groups of clauses
    "specification s; trans begin end ; {}from a begin end ;",
    "specification s; trans to b begin end ; {}begin end ;",
    "specification s; trans {}trans",
    "specification s; trans from a {}",
    "specification s; trans from a {}from b begin end ;",
    "specification s; trans from a to b {}from c begin end ;",
    "specification s; trans to b begin end ; to c {}trans",
];

/// So many bodies in one another, and what stands in the innermost one. It is refused at the token behind the comment
/// `{}`, if there is one.
const NESTED: [(u32, &str); 10] = [
    (200, ""),
    (200, "{}body b for m; end;"),
    (199, "module a; export b: set of c; end;"),
    (200, "module a; export b: {}set of c; end;"),
    (199, "initialize to a begin end; trans begin end;"),
    (200, "initialize to a {}begin end; trans begin end;"),
    (199, "trans begin end;"),
    (200, "trans {}begin end;"),
    (199, "trans provided ( a ) begin end;"),
    (200, "trans provided {}( a ) begin end;"),
];

fn mark(text: &[u8]) -> Option<usize> {
    for (at, part) in text.windows(2).enumerate() {
        if let [b'{', b'}'] = part {
            return Some(at + 2);
        }
    }
    None
}

/// Whether a text that is refused there, or read, has its mark there, or none.
fn is_marked(text: &[u8], refused: Option<u32>) -> bool {
    match (refused, mark(text)) {
        (Some(place), Some(at)) => place as usize == at,
        (None, None) => true,
        _ => false,
    }
}

/// Where the text is refused; none where it is read.
fn refused_at(alloc: Global, text: &[u8]) -> Result<Option<u32>, Fail> {
    let Some(found) = tokens_of(alloc, text) else {
        return Err(Fail::new("no tokens"));
    };
    match parse(alloc, &found) {
        Ok(_) => Ok(None),
        Err(SyntaxError::At(place)) => Ok(Some(place)),
        Err(SyntaxError::Memory) => Err(Fail::new("no memory")),
    }
}

fn nested(alloc: Global, depth: u32, inside: &str) -> Result<Vec<u8>, Fail> {
    let mut text = Vec::new(alloc);
    text.extend_from_slice(b"specification s;")?;
    for _level in 0..depth {
        text.extend_from_slice(b"body b for m;")?;
    }
    text.extend_from_slice(inside.as_bytes())?;
    for _level in 0..depth {
        text.extend_from_slice(b"end;")?;
    }
    text.extend_from_slice(b"end.")?;
    Ok(text)
}

// The place of a refusal is that of the first token that goes on with no specification, or the end of the text.
#[test]
fn places_of_refusals(rt: HostRuntime) -> Result<(), Fail> {
    for (text, place) in &ROWS {
        assert!(rt; refused_at(rt.alloc(), text)? == *place, "{text:?}");
    }
    Ok(())
}

#[test]
fn marks_of_refusals(rt: HostRuntime) -> Result<(), Fail> {
    for text in &MARKED {
        let found = refused_at(rt.alloc(), text.as_bytes())?;
        assert!(rt;
            found.is_some() && is_marked(text.as_bytes(), found),
            "{text}"
        );
    }
    Ok(())
}

/// Whether so many bodies in one another are refused at their mark, or read.
fn is_nested(alloc: Global, depth: u32, inside: &str) -> Result<bool, Fail> {
    let text = nested(alloc, depth, inside)?;
    let found = refused_at(alloc, &text)?;
    Ok(is_marked(&text, found))
}

// 200 levels may open, of bodies and of what stands in them, and what would open the 201st is refused.
#[test]
fn nested_bodies(rt: HostRuntime) -> Result<(), Fail> {
    for (depth, inside) in &NESTED {
        assert!(rt; is_nested(rt.alloc(), *depth, inside)?, "{depth} {inside}");
    }
    Ok(())
}
