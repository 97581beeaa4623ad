//! The number of each thing that an instruction names.

use crate::text::NUMBERED;
use body_program::Program;
use body_program_numbers::Numbering;
use estelle_model::{Denoter, Host};
use estelle_tree::{Name, Span, Word};
use spec_accept::Checked;
use std::alloc::{AllocError, Global};
use std::test::Fail;
use test_texts::accepted;

/// The name that stands behind the first of these words in the text.
fn name_behind(alloc: Global, words: &str, name: &str) -> Result<Name, AllocError> {
    let start = match NUMBERED.find(words) {
        None => 0,
        Some(at) => at.saturating_add(words.len()),
    };
    let start = u32::try_from(start).unwrap_or(0);
    let end = start.saturating_add(1);
    Ok(Name {
        word: Word::of(alloc, name.as_bytes())?,
        span: Span { start, end },
    })
}

/// Routines: behind which words a name stands, the name, and what it calls.
const ROUTINES: [(&str, &str, Option<(u32, u32)>); 6] = [
    ("total := ", "g", Some((0, 0))),
    ("to t begin f(1); ", "ff", Some((1, 1))),
    ("begin output ", "nothing", None),
    ("procedure ff; begin ", "f", Some((1, 0))),
    (
        "begin end;\nstate t;\ninitialize to t begin ",
        "f",
        Some((2, 0)),
    ),
    ("from t to t begin ", "f", Some((1, 0))),
];

/// Interactions: a body, behind which words an interaction point stands, its name, and then the interaction.
const INTERACTIONS: [(u32, &str, &str, &str, &str, Option<u32>); 7] = [
    (1, "ff; output ", "p", "output p.", "m", Some(0)),
    (1, "m(1); output ", "p", "m(1); output p.", "k", Some(1)),
    (1, "k; output ", "o", "output o.", "q", Some(2)),
    (1, "q; output ", "o", "q; output o.", "r", Some(3)),
    (1, "r; output ", "e", "output e.", "other", Some(0)),
    // in a body that has another point of that number, or none
    (2, "k; output ", "o", "output o.", "q", None),
    // an interaction of another channel
    (1, "r; output ", "e", "output o.", "q", None),
];

/// Exports: a body, a module variable, a variable, and which export it is.
const EXPORTS: [(u32, u32, u32, Option<u32>); 7] = [
    (0, 0, 1, Some(0)),
    (0, 1, 2, Some(1)),
    // a parameter, a variable of the body's own, and no module variables
    (0, 0, 0, None),
    (0, 0, 3, None),
    (0, 2, 1, None),
    (1, 0, 1, None),
    (3, 0, 1, None),
];

/// Types of integer hosts, by their bounds, with their first numbers.
const SUBRANGES: [(i64, i64, Option<u32>); 5] = [
    (-9223372036854775807, 9223372036854775807, Some(0)),
    (1, 3, Some(5)),
    (1, 2, Some(16)),
    (0, 9, Some(19)),
    (0, 3, None),
];

fn routines_are_found(alloc: Global, numbering: &Numbering) -> Result<bool, AllocError> {
    for (words, name, wanted) in ROUTINES {
        let name = name_behind(alloc, words, name)?;
        if numbering.routine(&name) != wanted {
            return Ok(false);
        }
    }
    Ok(true)
}

fn interactions_are_found(alloc: Global, numbering: &Numbering) -> Result<bool, AllocError> {
    for (body, at, ip, behind, interaction, wanted) in INTERACTIONS {
        let ip = name_behind(alloc, at, ip)?;
        let interaction = name_behind(alloc, behind, interaction)?;
        if numbering.interaction(body, &ip, &interaction) != wanted {
            return Ok(false);
        }
    }
    Ok(true)
}

fn exports_are_found(numbering: &Numbering) -> bool {
    for (body, modvar, variable, wanted) in EXPORTS {
        if numbering.export(body, modvar, variable) != wanted {
            return false;
        }
    }
    true
}

fn shapes_are_found(alloc: Global, numbering: &Numbering) -> Result<bool, AllocError> {
    for (low, high, wanted) in SUBRANGES {
        let denoter = Denoter::Ordinal {
            host: Host::Integer,
            low,
            high,
        };
        if numbering.shape(alloc, &denoter)? != wanted {
            return Ok(false);
        }
    }
    Ok(true)
}

/// The parameters of each body, and of none.
fn parameters_are_found(alloc: Global, numbering: &Numbering) -> Result<bool, AllocError> {
    let Some([only]) = numbering.parameters(1) else {
        return Ok(false);
    };
    if numbering.shape(alloc, only.denoter())? != Some(0) {
        return Ok(false);
    }
    Ok(matches!(numbering.parameters(0), Some([])) && numbering.parameters(3).is_none())
}

fn all_are_found(alloc: Global, checked: &Checked) -> Result<bool, AllocError> {
    let program = Program::new(alloc, &checked.spec, &checked.names)?;
    let numbering = Numbering::new(alloc, &checked.spec, &program)?;
    Ok(
        numbering.bodies() == 3
            && routines_are_found(alloc, &numbering)?
            && interactions_are_found(alloc, &numbering)?
            && exports_are_found(&numbering)
            && shapes_are_found(alloc, &numbering)?
            && parameters_are_found(alloc, &numbering)?,
    )
}

// A name is looked up by the place where it stands, and gives the number of what is declared under it.
#[test]
fn each_thing_has_its_number(rt: HostRuntime) -> Result<(), Fail> {
    let Some(checked) = accepted(rt.alloc(), NUMBERED.as_bytes()) else {
        assert!(rt; false);
        return Ok(());
    };
    assert!(rt; all_are_found(rt.alloc(), &checked)?);
    Ok(())
}
