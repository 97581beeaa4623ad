//! What numbers stand for, by the outline of a specification.

ghost use Rattle.std.specs.Prelude.{◌≡◌, map, IfOk};
ghost use Rattle.estelle_model.specs.Bodies.{bodies};
ghost use Rattle.estelle_model.specs.Subject.{declared_in};
ghost use Rattle.body_program_numbers.specs.Outline.{channels_in, headers_in};
ghost use Rattle.body_program_numbers.specs.Found as found;
ghost use Rattle.body_program_numbers.specs.Numbering.{numbers_of, kinds_in};

use crate::bodies::all_bodies;
use crate::lists::{all_exports, channel_numbers, header_numbers};
use crate::outline::Outline;
use crate::points::all_header_points;
use body_numbers::Numbers;
use body_program::Program;
use estelle_model::InteractionKind;
use estelle_tree::{Items, Sequence, Spec};
use std::alloc::{AllocError, Global};
use type_shapes::all_shapes;

/// What numbers stand for. The interactions of the channels are given.
pub fn all_numbers(
    alloc: Global,
    spec: &Spec,
    program: &Program,
    outline: &Outline,
    kinds: Items<Items<InteractionKind>>,
) -> Result<Numbers, AllocError>
    requires same { spec.now ≡ program.now.specification }
    requires channels { found.channels outline.now.channels ≡ channels_in spec.now }
    requires headers { found.headers outline.now.headers ≡ headers_in spec.now }
    requires bodies { found.standings outline.now.bodies ≡ bodies spec.now }
    requires kinds { kinds ≡ map (kinds_in (declared_in program.now)) (channels_in spec.now) }
    ensures { IfOk result (λ numbers. numbers ≡ numbers_of program.now) }
{
    let table = program.table();
    let channels_found = outline.channels.items();
    let headers_found = outline.headers.items();
    let bodies_found = outline.bodies.items();
    let channels = channel_numbers(alloc, channels_found)?;
    let headers = header_numbers(alloc, headers_found)?;
    let points = all_header_points(table, &channels, headers_found)?;
    let points_found = points.items();
    let shapes = all_shapes(table, spec)?;
    let exports = all_exports(table, headers_found)?;
    let bodies = all_bodies(program, &channels, &headers, points_found, bodies_found)?;
    Ok(Numbers {
        shapes,
        channels: kinds,
        headers: exports,
        bodies,
    })
}
