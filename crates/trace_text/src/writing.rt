//! Writing the text of a run.

ghost use Rattle.std.specs.Prelude.{◌≡◌, ◌++◌, OnOk, IfOk};
ghost use Rattle.std.specs.Fmt.{decimal};
ghost use Rattle.estelle_model.specs.Trace as trace;

use estelle_model::{End, Event, Out, Pair, Run};
use estelle_tree::{Path, Sequence, Text};
use pascal_values::{Fault, Value, write_value};
use std::alloc::{AllocError, Global};

/// Appends bytes.
pub fn put(out: &mut Vec<u8>, text: &[u8]) -> Result<(), AllocError>
    ensures { OnOk result (out.new.items ≡ out.old.items ++ text.now) }
{
    out.extend_from_slice(text)
}

/// Appends a number in decimal.
pub fn put_number(alloc: Global, out: &mut Vec<u8>, number: u64) -> Result<(), AllocError>
    ensures { OnOk result (out.new.items ≡ out.old.items ++ decimal number) }
{
    let text = number.to_string(alloc)?;
    out.extend_from_slice(text.as_bytes())
}

fn put_numbers(alloc: Global, out: &mut Vec<u8>, numbers: &[u64]) -> Result<(), AllocError>
    ensures { OnOk result (out.new.items ≡ out.old.items ++ trace.numbers_text numbers.now) }
{
    for number in numbers {
        out.push(b'/')?;
        put_number(alloc, out, *number)?;
    }
    Ok(())
}

#[tactic(auto, unfolding(estelle_model::specs::Trace::path_text))]
fn put_path(alloc: Global, out: &mut Vec<u8>, path: &Path) -> Result<(), AllocError>
    ensures { OnOk result (out.new.items ≡ out.old.items ++ trace.path_text path.now) }
{
    match path.items() {
        [] => put(out, b"/"),
        numbers => put_numbers(alloc, out, numbers),
    }
}

fn put_pair(alloc: Global, out: &mut Vec<u8>, pair: &Pair) -> Result<(), AllocError>
    ensures { OnOk result (out.new.items ≡ out.old.items ++ trace.pair_text pair.now) }
{
    put_path(alloc, out, &pair.path)?;
    put(out, b":")?;
    put_number(alloc, out, u64::from(pair.trans))
}

#[tactic(auto, unfolding(estelle_model::specs::Trace::takes_text))]
fn put_takes(alloc: Global, out: &mut Vec<u8>, takes: &[Pair]) -> Result<(), AllocError>
    ensures { OnOk result (out.new.items ≡ out.old.items ++ trace.takes_text takes.now) }
{
    match takes {
        [] => put(out, b"-"),
        [first, others @ ..] => {
            put_pair(alloc, out, first)?;
            for pair in others {
                out.push(b' ')?;
                put_pair(alloc, out, pair)?;
            }
            Ok(())
        }
    }
}

#[tactic(auto, unfolding(estelle_model::specs::Trace::values_text))]
fn put_values(out: &mut Vec<u8>, values: &[Value]) -> Result<(), AllocError>
    ensures { OnOk result (out.new.items ≡ out.old.items ++ trace.values_text values.now) }
{
    match values {
        [] => Ok(()),
        [first, others @ ..] => {
            put(out, b"(")?;
            write_value(first, out)?;
            for value in others {
                out.push(b',')?;
                write_value(value, out)?;
            }
            put(out, b")")
        }
    }
}

fn put_fate(out: &mut Vec<u8>, lost: bool) -> Result<(), AllocError>
    ensures { OnOk result (out.new.items ≡ out.old.items ++ trace.fate_text lost) }
{
    if lost {
        put(out, b"lost ")
    } else {
        put(out, b"out ")
    }
}

#[tactic(auto, unfolding(estelle_model::specs::Trace::out_text))]
fn put_out_text(alloc: Global, into: &mut Vec<u8>, out: &Out) -> Result<(), AllocError>
    ensures { OnOk result (into.new.items ≡ into.old.items ++ trace.out_text out.now) }
{
    put_path(alloc, into, &out.path)?;
    put(into, b".")?;
    put(into, out.ip.items())?;
    put(into, b" ")?;
    put(into, out.name.items())?;
    put_values(into, out.values.items())
}

fn put_out(alloc: Global, into: &mut Vec<u8>, out: &Out) -> Result<(), AllocError>
    ensures { OnOk result (into.new.items ≡ into.old.items ++ trace.out_line out.now) }
{
    put_fate(into, out.lost)?;
    put_out_text(alloc, into, out)?;
    put(into, b"\n")
}

fn put_drop(alloc: Global, out: &mut Vec<u8>, number: u64) -> Result<(), AllocError>
    ensures { OnOk result (out.new.items ≡ out.old.items ++ trace.drop_line number) }
{
    put(out, b"drop ")?;
    put_number(alloc, out, number)?;
    put(out, b"\n")
}

fn put_outcome(
    alloc: Global,
    into: &mut Vec<u8>,
    outs: &[Out],
    drops: &[u64],
) -> Result<(), AllocError>
    ensures { OnOk result (into.new.items ≡ into.old.items ++ trace.outcome_lines outs.now drops.now) }
{
    for out in outs {
        put_out(alloc, into, out)?;
    }
    for number in drops {
        put_drop(alloc, into, *number)?;
    }
    Ok(())
}

/// The fault's name.
pub(crate) fn kind_text(kind: Fault) -> &'static [u8]
    ensures { result.now ≡ trace.kind_text kind }
{
    match kind {
        Fault::DivideByZero => b"DivideByZero",
        Fault::ModNotPositive => b"ModNotPositive",
        Fault::Overflow => b"Overflow",
        Fault::Range => b"Range",
        Fault::Index => b"Index",
        Fault::Unset => b"Unset",
        Fault::NoCase => b"NoCase",
        Fault::StepLimit => b"StepLimit",
        Fault::CallDepth => b"CallDepth",
        Fault::NoModule => b"NoModule",
        Fault::ModuleTaken => b"ModuleTaken",
        Fault::LinkTaken => b"LinkTaken",
        Fault::LinkAbsent => b"LinkAbsent",
        Fault::DelayRange => b"DelayRange",
    }
}

#[tactic(auto, unfolding(estelle_model::specs::Trace::event_lines))]
fn put_event(alloc: Global, out: &mut Vec<u8>, event: &Event) -> Result<(), AllocError>
    ensures { OnOk result (out.new.items ≡ out.old.items ++ trace.event_lines event.now) }
{
    match event {
        Event::Start { outs, drops } => {
            put(out, b"start\n")?;
            put_outcome(alloc, out, outs.items(), drops.items())
        }
        Event::Select { system, now, takes } => {
            put(out, b"select ")?;
            put_path(alloc, out, system)?;
            put(out, b" now ")?;
            put_number(alloc, out, *now)?;
            put(out, b" takes ")?;
            put_takes(alloc, out, takes.items())?;
            put(out, b"\n")
        }
        Event::Fire {
            path,
            trans,
            outs,
            drops,
        } => {
            put(out, b"fire ")?;
            put_path(alloc, out, path)?;
            put(out, b" ")?;
            put_number(alloc, out, u64::from(*trans))?;
            put(out, b"\n")?;
            put_outcome(alloc, out, outs.items(), drops.items())
        }
        Event::Fault { path, trans, kind } => {
            put(out, b"fault ")?;
            put_path(alloc, out, path)?;
            put(out, b" ")?;
            put_number(alloc, out, u64::from(*trans))?;
            put(out, b" ")?;
            put(out, kind_text(*kind))?;
            put(out, b"\n")
        }
    }
}

#[tactic(auto, unfolding(estelle_model::specs::Trace::end_line))]
fn put_end(out: &mut Vec<u8>, end: End) -> Result<(), AllocError>
    ensures { OnOk result (out.new.items ≡ out.old.items ++ trace.end_line end) }
{
    match end {
        End::Dead => put(out, b"end deadlock\n"),
        End::Turns => put(out, b"end turns\n"),
        End::Clock => put(out, b"end clock\n"),
        End::Faulted(kind) => {
            put(out, b"end fault ")?;
            put(out, kind_text(kind))?;
            put(out, b"\n")
        }
    }
}

/// The lines of an event: its own, and after `start` and `fire` those of its outputs and drops.
pub fn lines(alloc: Global, event: &Event) -> Result<Text, AllocError>
    ensures { IfOk result (λ t. t ≡ trace.event_lines event.now) }
{
    let mut out = Vec::new(alloc);
    put_event(alloc, &mut out, event)?;
    Ok(Text::of(out))
}

/// An output without its fate: the interaction point with its instance, and the interaction with its values.
pub fn out_text(alloc: Global, out: &Out) -> Result<Text, AllocError>
    ensures { IfOk result (λ t. t ≡ trace.out_text out.now) }
{
    let mut text = Vec::new(alloc);
    put_out_text(alloc, &mut text, out)?;
    Ok(Text::of(text))
}

/// The trace of a run that ends so, in format 1.
pub fn write(alloc: Global, run: &Run, end: End) -> Result<Text, AllocError>
    ensures { IfOk result (λ t. t ≡ trace.text run.now.events end) }
{
    let mut out = Vec::new(alloc);
    put(&mut out, b"estelle trace 1\n")?;
    for event in run.events.items() {
        put_event(alloc, &mut out, event)?;
    }
    put_end(&mut out, end)?;
    Ok(Text::of(out))
}
