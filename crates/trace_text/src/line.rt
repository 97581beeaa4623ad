//! The lines of a trace, and reading one.

ghost use Rattle.std.specs.Prelude.{◌≡◌, ◌≤◌, ◌+◌, [], length, codes};
ghost use Rattle.std.specs.List.{AllByRecursion};
ghost use Rattle.pascal_values.specs.Steps as steps;
ghost use Rattle.pascal_values.specs.Texts.{IsReadable};
ghost use Rattle.estelle_model.specs.Trace as trace;
ghost use Rattle.trace_text.specs.Fields.{IsReading, closed, both, Both, moment_text, takes_line, name_text, values_line, Any};
ghost use Rattle.trace_text.specs.Forms.{IsNumber, IsName, AreTakes};
ghost use Rattle.trace_text.specs.Lines.{line_text, IsLine};

use crate::error::Missing;
use crate::fields::{closed_number, closed_pair, kind_line, moment, name, path, point};
use crate::parameters::parameters;
use crate::takes::takes;
use crate::words::follows;
use estelle_model::{End, Event, Out};
use estelle_tree::{Items, Pair, Word};
use pascal_values::Values;
use std::alloc::Global;

/// A line of a trace.
#[derive(Drop)]
pub enum Line {
    /// The first line.
    Head,
    /// An event by itself, without its outputs and drops.
    Event(Event),
    Out(Out),
    Drop(u64),
    End(End),
}

/// A line, and the place behind it.
type Reading = Result<(Line, usize), Missing>;

// ---- events

fn start(alloc: Global) -> Line
    ensures { result ≡ Line.Event (Event.Start [] []) }
{
    Line::Event(Event::Start {
        outs: Items::new(alloc),
        drops: Items::new(alloc),
    })
}

/// The moment and what is taken, up to the end of the line.
fn selection(alloc: Global, bytes: &[u8], at: usize) -> Result<((u64, Items<Pair>), usize), Missing>
    requires { at ≤ length bytes.now }
    ensures { IsReading (both moment_text takes_line) (Both IsNumber AreTakes) Any bytes.now at result }
{
    match moment(bytes, at) {
        Err(missing) => Err(missing),
        Ok((now, mid)) => match takes(alloc, bytes, mid) {
            Err(missing) => Err(missing),
            Ok((takes, end)) => Ok(((now, takes), end)),
        },
    }
}

fn select(alloc: Global, bytes: &[u8], at: usize) -> Reading
    requires { steps.StandsWord bytes.now at (codes "select ") }
    ensures { IsReading line_text IsLine Any bytes.now at result }
{
    match path(alloc, bytes, at + 7) {
        Err(missing) => Err(missing),
        Ok((system, mid)) => match selection(alloc, bytes, mid) {
            Err(missing) => Err(missing),
            Ok((selection, end)) => {
                let (now, takes) = selection;
                Ok((Line::Event(Event::Select { system, now, takes }), end))
            }
        },
    }
}

fn fire(alloc: Global, bytes: &[u8], at: usize) -> Reading
    requires { steps.StandsWord bytes.now at (codes "fire ") }
    ensures { IsReading line_text IsLine Any bytes.now at result }
{
    match closed_pair(alloc, bytes, at + 5, 1, b'\n') {
        Err(missing) => Err(missing),
        Ok((pair, end)) => {
            let Pair { path, trans } = pair;
            let fire = Event::Fire {
                path,
                trans,
                outs: Items::new(alloc),
                drops: Items::new(alloc),
            };
            Ok((Line::Event(fire), end))
        }
    }
}

fn fault(alloc: Global, bytes: &[u8], at: usize) -> Reading
    requires { steps.StandsWord bytes.now at (codes "fault ") }
    ensures { IsReading line_text IsLine Any bytes.now at result }
{
    match closed_pair(alloc, bytes, at + 6, 0, b' ') {
        Err(missing) => Err(missing),
        Ok((pair, mid)) => match kind_line(bytes, mid) {
            Err(missing) => Err(missing),
            Ok((kind, end)) => {
                let Pair { path, trans } = pair;
                Ok((Line::Event(Event::Fault { path, trans, kind }), end))
            }
        },
    }
}

// ---- outputs and drops

/// An interaction with its values, up to the end of the line.
fn interaction(alloc: Global, bytes: &[u8], at: usize) -> Result<((Word, Values), usize), Missing>
    requires { at ≤ length bytes.now }
    ensures { IsReading (both name_text values_line) (Both IsName (AllByRecursion IsReadable)) Any bytes.now at result }
{
    match name(alloc, bytes, at) {
        Err(missing) => Err(missing),
        Ok((name, mid)) => match parameters(alloc, bytes, mid) {
            Err(missing) => Err(missing),
            Ok((values, end)) => Ok(((name, values), end)),
        },
    }
}

/// An output behind the word for its fate.
fn output(alloc: Global, bytes: &[u8], at: usize, lost: bool, from: usize) -> Reading
    requires fate { steps.StandsWord bytes.now at (trace.fate_text lost) }
    requires from { from ≡ at + length (trace.fate_text lost) }
    ensures { IsReading line_text IsLine Any bytes.now at result }
{
    match point(alloc, bytes, from) {
        Err(missing) => Err(missing),
        Ok((point, mid)) => match interaction(alloc, bytes, mid) {
            Err(missing) => Err(missing),
            Ok((interaction, end)) => {
                let (path, ip) = point;
                let (name, values) = interaction;
                let out = Out {
                    path,
                    ip,
                    name,
                    values,
                    lost,
                };
                Ok((Line::Out(out), end))
            }
        },
    }
}

fn drop_line(bytes: &[u8], at: usize) -> Reading
    requires { steps.StandsWord bytes.now at (codes "drop ") }
    ensures { IsReading line_text IsLine Any bytes.now at result }
{
    match closed_number(bytes, at + 5, b'\n') {
        Err(missing) => Err(missing),
        Ok((number, end)) => Ok((Line::Drop(number), end)),
    }
}

// ---- ends

fn faulted(bytes: &[u8], at: usize) -> Reading
    requires { steps.StandsWord bytes.now at (codes "end fault ") }
    ensures { IsReading line_text IsLine Any bytes.now at result }
{
    match kind_line(bytes, at + 10) {
        Err(missing) => Err(missing),
        Ok((kind, end)) => Ok((Line::End(End::Faulted(kind)), end)),
    }
}

/// The line at a place, and the place behind it.
pub fn read_line(alloc: Global, bytes: &[u8], at: usize) -> Reading
    requires { at ≤ length bytes.now }
    ensures { IsReading line_text IsLine Any bytes.now at result }
{
    if follows(bytes, at, b"select ") {
        return select(alloc, bytes, at);
    }
    if follows(bytes, at, b"fire ") {
        return fire(alloc, bytes, at);
    }
    if follows(bytes, at, b"out ") {
        return output(alloc, bytes, at, false, at + 4);
    }
    if follows(bytes, at, b"lost ") {
        return output(alloc, bytes, at, true, at + 5);
    }
    if follows(bytes, at, b"drop ") {
        return drop_line(bytes, at);
    }
    if follows(bytes, at, b"fault ") {
        return fault(alloc, bytes, at);
    }
    if follows(bytes, at, b"estelle trace 1\n") {
        return Ok((Line::Head, at + 16));
    }
    if follows(bytes, at, b"start\n") {
        return Ok((start(alloc), at + 6));
    }
    if follows(bytes, at, b"end deadlock\n") {
        return Ok((Line::End(End::Dead), at + 13));
    }
    if follows(bytes, at, b"end turns\n") {
        return Ok((Line::End(End::Turns), at + 10));
    }
    if follows(bytes, at, b"end clock\n") {
        return Ok((Line::End(End::Clock), at + 10));
    }
    if follows(bytes, at, b"end fault ") {
        return faulted(bytes, at);
    }
    Err(Missing::Absent)
}
