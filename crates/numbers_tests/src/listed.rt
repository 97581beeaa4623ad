//! What numbers stand for, listed.

use crate::text::NUMBERED;
use body_numbers::{BodyNumbers, Numbers};
use body_program::Program;
use body_program_numbers::Numbering;
use estelle_model::InteractionKind;
use estelle_tree::{Items, Routine, Sequence, Word};
use pascal_values::Shape;
use spec_accept::Checked;
use std::alloc::{AllocError, Global};
use std::test::Fail;
use test_texts::accepted;

fn write_word(out: &mut String, word: &Word) -> Result<(), AllocError> {
    write!(
        out,
        " {}",
        std::str::from_utf8(word.items()).unwrap_or("nothing")
    )
}

#[cycle(shapes)]
fn write_shape(out: &mut String, shape: &Shape) -> Result<(), AllocError> {
    match shape {
        Shape::Int { low, high } => write!(out, " int {low} {high}"),
        Shape::Bool { low, high } => write!(out, " bool {low} {high}"),
        Shape::Char { low, high } => write!(out, " char {low} {high}"),
        Shape::Enum { low, high } => write!(out, " enum {low} {high}"),
        Shape::Set { low, high } => write!(out, " set {low} {high}"),
        Shape::Array { low, high, item } => {
            write!(out, " array {low} {high} of")?;
            write_shape(out, item.get())
        }
        Shape::Fields(fields) => {
            write!(out, " record")?;
            write_shapes(out, fields.items())?;
            write!(out, " end")
        }
    }
}

#[cycle(shapes)]
fn write_shapes(out: &mut String, shapes: &[Shape]) -> Result<(), AllocError> {
    for shape in shapes {
        write_shape(out, shape)?;
    }
    Ok(())
}

fn write_all_shapes(out: &mut String, shapes: &[Shape]) -> Result<(), AllocError> {
    for shape in shapes {
        write!(out, "shape")?;
        write_shape(out, shape)?;
        writeln!(out)?;
    }
    Ok(())
}

fn write_channels(out: &mut String, channels: &[Items<InteractionKind>]) -> Result<(), AllocError> {
    for channel in channels {
        write!(out, "channel")?;
        for kind in channel.items() {
            write_word(out, &kind.word)?;
        }
        writeln!(out)?;
    }
    Ok(())
}

fn write_numbers(out: &mut String, numbers: &[u32]) -> Result<(), AllocError> {
    for number in numbers {
        write!(out, " {number}")?;
    }
    Ok(())
}

fn write_headers(out: &mut String, headers: &[Items<u32>]) -> Result<(), AllocError> {
    for exports in headers {
        write!(out, "header")?;
        write_numbers(out, exports.items())?;
        writeln!(out)?;
    }
    Ok(())
}

fn write_routines(out: &mut String, routines: &[&Routine]) -> Result<(), AllocError> {
    for routine in routines {
        write_word(out, &routine.name.word)?;
    }
    Ok(())
}

fn write_body(
    out: &mut String,
    numbering: &Numbering,
    number: u32,
    body: &BodyNumbers,
) -> Result<(), AllocError> {
    write!(out, "body")?;
    if let Some(word) = numbering.word(number) {
        write_word(out, word)?;
    }
    write!(out, ", modules")?;
    write_numbers(out, body.module_variables.items())?;
    write!(out, ", points")?;
    for point in body.ips.items() {
        write_word(out, &point.word)?;
        write!(out, " {}", point.channel)?;
    }
    write!(out, ", routines")?;
    write_routines(out, numbering.routines(number))?;
    writeln!(out)
}

fn write_bodies(
    out: &mut String,
    numbering: &Numbering,
    bodies: &[BodyNumbers],
) -> Result<(), AllocError> {
    let mut number = 0;
    for body in bodies {
        write_body(out, numbering, number, body)?;
        number = number.saturating_add(1);
    }
    Ok(())
}

fn write_all(out: &mut String, numbering: &Numbering) -> Result<(), AllocError> {
    let numbers: &Numbers = numbering.numbers();
    write_all_shapes(out, numbers.shapes.items())?;
    write_channels(out, numbers.channels.items())?;
    write_headers(out, numbers.headers.items())?;
    write_bodies(out, numbering, numbers.bodies.items())
}

fn list(alloc: Global, checked: &Checked, out: &mut String) -> Result<(), AllocError> {
    let program = Program::new(alloc, &checked.spec, &checked.names)?;
    let numbering = Numbering::new(alloc, &checked.spec, &program)?;
    write_all(out, &numbering)
}

/// Nothing where the text is refused.
fn listing(alloc: Global, text: &str) -> Result<String, AllocError> {
    let mut out = String::new(alloc);
    if let Some(checked) = accepted(alloc, text.as_bytes()) {
        list(alloc, &checked, &mut out)?;
    }
    Ok(out)
}

const LISTED: &str = "shape int -9223372036854775807 9223372036854775807
shape bool 0 1
shape char 0 255
shape enum 0 2
shape array 1 3 of bool 0 1
shape int 1 3
shape bool 0 1
shape record int -9223372036854775807 9223372036854775807 record char 0 255 char 0 255 end end
shape int -9223372036854775807 9223372036854775807
shape record char 0 255 char 0 255 end
shape char 0 255
shape array 0 2 of set 0 7
shape enum 0 2
shape set 0 7
shape int 0 7
shape array 1 2 of array 0 1 of enum 0 2
shape int 1 2
shape bool 0 1
shape enum 0 2
shape int 0 9
shape int 0 9
shape int 1 2
shape enum 0 2
shape int -9223372036854775807 9223372036854775807
channel other
channel m k q r
header 1 2
body s, modules 0 0, points, routines g
body hb, modules, points p 1 o 1 e 0, routines f ff
body hc, modules, points p 1, routines f
";

// An array of several indices has one number, and its inner array none; a header's interaction points come before a body's own.
#[test]
fn everything_is_counted_in_text_order(rt: HostRuntime) -> Result<(), Fail> {
    let listed = listing(rt.alloc(), NUMBERED)?;
    assert!(rt; listed.as_str() == LISTED);
    Ok(())
}
