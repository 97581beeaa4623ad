//! What jobs of modules log: the effects of each on the image that the one before left, its fault, and the instances at the end.

use body_state::is_in_order;
use body_walker::{Program, fire_plain};
use estelle_model::{Done, Effect, Image, Interaction, Job, Outcome, Part};
use estelle_tree::{IpAddr, Items, Path, Sequence, SequenceMut, Word};
use pascal_values::{Fault, Value, Values};
use spec_accept::Checked;
use std::alloc::{AllocError, Global};
use test_texts::accepted;

/// A job: the path of an instance, the number of a transition, and what it takes from its queue, if it takes something.
pub(crate) type Step = (&'static [u64], u32, Option<(&'static [u8], i64)>);

/// How many units each job has.
const BUDGET: u32 = 1000;

fn write_path(out: &mut String, path: &Path) -> Result<(), AllocError> {
    if path.items().is_empty() {
        write!(out, "/")?;
    }
    for number in path.items() {
        write!(out, "/{number}")?;
    }
    Ok(())
}

fn write_point(out: &mut String, at: &IpAddr) -> Result<(), AllocError> {
    write!(out, " ")?;
    write_path(out, &at.path)?;
    write!(out, ".{}", at.ip)
}

fn write_link(out: &mut String, verb: &str, a: &IpAddr, b: &IpAddr) -> Result<(), AllocError> {
    write!(out, "{verb}")?;
    write_point(out, a)?;
    write_point(out, b)?;
    writeln!(out)
}

fn write_unlinked(out: &mut String, verb: &str, a: &IpAddr) -> Result<(), AllocError> {
    write!(out, "{verb}")?;
    write_point(out, a)?;
    writeln!(out)
}

fn write_output(out: &mut String, from: &IpAddr, item: &Interaction) -> Result<(), AllocError> {
    write!(out, "output")?;
    write_point(out, from)?;
    let name = std::str::from_utf8(item.name.items()).unwrap_or("nothing");
    write!(out, " {name}")?;
    for value in item.values.items() {
        if let Value::Int(n) = value {
            write!(out, " {n}")?;
        }
    }
    writeln!(out)
}

fn write_created(out: &mut String, part: &Part, points: usize) -> Result<(), AllocError> {
    write!(out, "create ")?;
    write_path(out, &part.path)?;
    writeln!(out, " body {} points {points}", part.body)
}

fn write_effect(out: &mut String, effect: &Effect) -> Result<(), AllocError> {
    match effect {
        Effect::Output { from, item, .. } => write_output(out, from, item),
        Effect::Connect { a, b } => write_link(out, "connect", a, b),
        Effect::Disconnect { a } => write_unlinked(out, "disconnect", a),
        Effect::Attach { upper, lower } => write_link(out, "attach", upper, lower),
        Effect::Detach { upper } => write_unlinked(out, "detach", upper),
        Effect::Create { part, ips, .. } => write_created(out, part, ips.len()),
        Effect::Remove { path } => {
            write!(out, "remove ")?;
            write_path(out, path)?;
            writeln!(out)
        }
    }
}

fn write_log(out: &mut String, effects: &[Effect]) -> Result<(), AllocError> {
    writeln!(out, "job")?;
    for effect in effects {
        write_effect(out, effect)?;
    }
    Ok(())
}

fn write_fault(out: &mut String, fault: Fault, left: u32) -> Result<(), AllocError> {
    writeln!(out, "fault {fault:?} left {left}")
}

/// The numbers of variables. One that has no number is a stroke.
fn write_held(out: &mut String, vars: &[Value]) -> Result<(), AllocError> {
    if vars.is_empty() {
        return Ok(());
    }
    write!(out, " holds")?;
    for value in vars {
        match value {
            Value::Int(n) => write!(out, " {n}")?,
            _ => write!(out, " -")?,
        }
    }
    Ok(())
}

fn write_part(out: &mut String, part: &Part) -> Result<(), AllocError> {
    write_path(out, &part.path)?;
    write!(out, " body {}", part.body)?;
    if let Some(state) = part.state {
        write!(out, " state {state}")?;
    }
    write!(out, " births {}", part.births)?;
    write_held(out, part.vars.items())?;
    writeln!(out)
}

fn head(alloc: Global, found: Option<(&[u8], i64)>) -> Result<Option<Interaction>, AllocError> {
    match found {
        None => Ok(None),
        Some((name, n)) => {
            let mut values = Values::none(alloc);
            values.push(Value::Int(n))?;
            Ok(Some(Interaction {
                number: 1,
                name: Word::of(alloc, name)?,
                values,
            }))
        }
    }
}

/// The image after a job, whose log is written; none where it faults, and then the fault is written.
fn next(
    alloc: Global,
    program: &Program,
    image: Image,
    step: &Step,
    out: &mut String,
) -> Option<Image> {
    let (path, trans, found) = *step;
    if !is_in_order(&image) {
        return None;
    }
    let job = Job {
        ticket: 0,
        path: Path::of(Vec::from_slice(alloc, path).ok()?),
        trans,
        image,
        head: head(alloc, found).ok()?,
        budget: BUDGET,
    };
    let Done { outcome, left, .. } = fire_plain(alloc, program, job).ok()?;
    match outcome {
        Outcome::Ran { image, effects } => {
            write_log(out, effects.items()).ok()?;
            Some(image)
        }
        Outcome::Faulted(fault) => {
            write_fault(out, fault, left).ok()?;
            None
        }
    }
}

/// The image after all jobs, whose logs are written; none where one faults.
fn after_all(alloc: Global, program: &Program, steps: &[Step], out: &mut String) -> Option<Image> {
    let mut image = Image {
        parts: Items::new(alloc),
        links: Items::new(alloc),
    };
    for step in steps {
        image = next(alloc, program, image, step, out)?;
    }
    Some(image)
}

fn write_parts(out: &mut String, image: &Image) -> Result<(), AllocError> {
    for part in image.parts.items() {
        write_part(out, part)?;
    }
    Ok(())
}

/// Writes what the jobs of a program log, and the instances at their end, where none of them faults.
fn write_all(
    alloc: Global,
    program: &Program,
    steps: &[Step],
    out: &mut String,
) -> Result<(), AllocError> {
    match after_all(alloc, program, steps, out) {
        Some(image) => write_parts(out, &image),
        None => Ok(()),
    }
}

fn write_accepted(
    alloc: Global,
    checked: &Checked,
    steps: &[Step],
    out: &mut String,
) -> Result<(), AllocError> {
    let program = Program::new(alloc, &checked.spec, &checked.names)?;
    write_all(alloc, &program, steps, out)
}

/// Whether this is what the jobs log, with the instances at their end or the fault of the last one. Where memory is refused a
/// log ends before either.
pub(crate) fn logs(alloc: Global, text: &str, steps: &[Step], wanted: &str) -> bool {
    let mut out = String::new(alloc);
    match accepted(alloc, text.as_bytes()) {
        Some(checked) => {
            write_accepted(alloc, &checked, steps, &mut out).is_ok() && out.as_str() == wanted
        }
        None => false,
    }
}
