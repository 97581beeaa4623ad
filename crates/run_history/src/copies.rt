//! Copies of events.

ghost use Rattle.std.specs.Prelude.{◌≡◌, IfOk};

use estelle_model::{Event, Out, Pair};
use estelle_tree::{Items, Sequence, SequenceMut};
use pascal_values::{Value, Values, copy};
use std::alloc::{AllocError, Global};

fn copy_values(alloc: Global, values: &[Value]) -> Result<Values, AllocError>
    ensures { IfOk result (λ copies. copies ≡ values.now) }
{
    let mut copies = Values::none(alloc);
    for value in values {
        copies.push(copy(alloc, value)?)?;
    }
    Ok(copies)
}

fn copy_out(alloc: Global, out: &Out) -> Result<Out, AllocError>
    ensures { IfOk result (λ copy. copy ≡ out.now) }
{
    Ok(Out {
        path: out.path.copy(alloc)?,
        ip: out.ip.copy(alloc)?,
        name: out.name.copy(alloc)?,
        values: copy_values(alloc, out.values.items())?,
        lost: out.lost,
    })
}

fn copy_outs(alloc: Global, outs: &[Out]) -> Result<Items<Out>, AllocError>
    ensures { IfOk result (λ copies. copies ≡ outs.now) }
{
    let mut copies = Items::new(alloc);
    for out in outs {
        copies.push(copy_out(alloc, out)?)?;
    }
    Ok(copies)
}

fn copy_pair(alloc: Global, pair: &Pair) -> Result<Pair, AllocError>
    ensures { IfOk result (λ copy. copy ≡ pair.now) }
{
    Ok(Pair {
        path: pair.path.copy(alloc)?,
        trans: pair.trans,
    })
}

fn copy_pairs(alloc: Global, pairs: &[Pair]) -> Result<Items<Pair>, AllocError>
    ensures { IfOk result (λ copies. copies ≡ pairs.now) }
{
    let mut copies = Items::new(alloc);
    for pair in pairs {
        copies.push(copy_pair(alloc, pair)?)?;
    }
    Ok(copies)
}

pub(crate) fn copy_event(alloc: Global, event: &Event) -> Result<Event, AllocError>
    ensures { IfOk result (λ copy. copy ≡ event.now) }
{
    match event {
        Event::Start { outs, drops } => Ok(Event::Start {
            outs: copy_outs(alloc, outs.as_slice())?,
            drops: Items::from_slice(alloc, drops.as_slice())?,
        }),
        Event::Select { system, now, takes } => Ok(Event::Select {
            system: system.copy(alloc)?,
            now: *now,
            takes: copy_pairs(alloc, takes.as_slice())?,
        }),
        Event::Fire {
            path,
            trans,
            outs,
            drops,
        } => Ok(Event::Fire {
            path: path.copy(alloc)?,
            trans: *trans,
            outs: copy_outs(alloc, outs.as_slice())?,
            drops: Items::from_slice(alloc, drops.as_slice())?,
        }),
        Event::Fault { path, trans, kind } => Ok(Event::Fault {
            path: path.copy(alloc)?,
            trans: *trans,
            kind: *kind,
        }),
    }
}
