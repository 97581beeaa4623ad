//! The canonical text of a tree, which is read again.

use estelle_printer::spell;
use estelle_tree::Text;
use std::alloc::Global;
use std::test::Fail;
use test_texts::{COUNTER, tree};

/// Texts with their canonical ones.
const CANONICAL: [(&str, &str); 2] = [
    (
        COUNTER,
        "specification count systemprocess ;
var n : integer ;
state go ;
initialize to go begin n := 0 end ;
trans from go to go provided n < 3 name tick : begin n := n + 1 end ;
end .
",
    ),
    (
        "specification q; type r = record s: packed set of ''''..';'; end; end.",
        "specification q ;
type r = record s : packed set of '''' .. ';' ;
end ;
end .
",
    ),
];

fn canonical(alloc: Global, text: &[u8]) -> Option<Text> {
    let spec = tree(alloc, text)?;
    spell(alloc, &spec).ok()
}

/// Whether this is the canonical text of a text.
fn has_canonical(alloc: Global, text: &str, wanted: &str) -> bool {
    match canonical(alloc, text.as_bytes()) {
        Some(found) => found.items() == wanted.as_bytes(),
        None => false,
    }
}

// Where blanks and line feeds stand in the canonical text, and that a tree read from it has the same one.
#[test]
fn canonical_texts(rt: HostRuntime) -> Result<(), Fail> {
    for (text, wanted) in &CANONICAL {
        for read in [*text, *wanted] {
            assert!(rt; has_canonical(rt.alloc(), read, wanted), "{read}");
        }
    }
    Ok(())
}
