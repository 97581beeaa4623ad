//! The texts of single events and outputs.

use estelle_model::{Event, Out};
use estelle_tree::{Items, Path, SequenceMut, Word};
use pascal_values::{Value, Values};
use std::alloc::{AllocError, Global};
use std::test::Fail;
use trace_text::{lines, out_text};

/// What `/2/1` sends at `o`: an interaction `v` with three values, over a connection or lost.
fn sent(alloc: Global, lost: bool) -> Result<Out, AllocError> {
    let mut values = Values::none(alloc);
    values.push(Value::Int(-3))?;
    values.push(Value::Int(1))?;
    values.push(Value::Bool(true))?;
    Ok(Out {
        path: Path::of(Vec::from_slice(alloc, &[2, 1])?),
        ip: Word::of(alloc, b"o")?,
        name: Word::of(alloc, b"v")?,
        values,
        lost,
    })
}

// An output without its fate.
#[test]
fn text_of_an_output(rt: HostRuntime) -> Result<(), Fail> {
    let out = sent(rt.alloc(), true)?;
    let text = out_text(rt.alloc(), &out)?;
    assert!(rt; text.items() == b"/2/1.o v(-3,1,true)".as_slice());
    Ok(())
}

/// The third transition of the root fires, with an output that is lost and one that is not, and two drops.
fn fired(alloc: Global) -> Result<Event, AllocError> {
    let mut outs = Items::new(alloc);
    outs.push(sent(alloc, true)?)?;
    outs.push(sent(alloc, false)?)?;
    let mut drops = Items::new(alloc);
    drops.push(3)?;
    drops.push(17)?;
    Ok(Event::Fire {
        path: Path::root(alloc),
        trans: 3,
        outs,
        drops,
    })
}

const FIRED: &str = "fire / 3
lost /2/1.o v(-3,1,true)
out /2/1.o v(-3,1,true)
drop 3
drop 17
";

// The lines of an event with all that may follow it.
#[test]
fn lines_of_a_firing(rt: HostRuntime) -> Result<(), Fail> {
    let event = fired(rt.alloc())?;
    let text = lines(rt.alloc(), &event)?;
    assert!(rt; text.items() == FIRED.as_bytes());
    Ok(())
}
