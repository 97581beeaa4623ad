//! Reading the text of a run.

ghost use Rattle.std.specs.Prelude.{◌≡◌, ◌≤◌, ◌<◌, ◌^◌, ℕ, List, length, IfOk, IfErr};
ghost use Rattle.estelle_model.specs.declared.event.Event.{Event};
ghost use Rattle.estelle_model.specs.declared.event.End.{End};
ghost use Rattle.trace_text.specs.Readings.{IsTrace, IsBadLine, IsRefused, Gives, Refuses, IsAnswer};
ghost use Rattle.trace_text.specs.Stages.{IsNext, IsTold};

use crate::error::{Missing, TraceError};
use crate::line::read_line;
use crate::stage::{Stage, step};
use estelle_model::{End, Run};
use std::alloc::Global;

/// The stage behind the line at a place, and the place behind it.
fn next(alloc: Global, bytes: &[u8], place: usize, stage: Stage) -> Result<(Stage, usize), Missing>
    requires { place ≤ length bytes.now }
    ensures { IsNext bytes.now place stage result }
{
    match read_line(alloc, bytes, place) {
        Err(missing) => Err(missing),
        Ok((line, end)) => match step(alloc, stage, line) {
            Err(missing) => Err(missing),
            Ok(after) => Ok((after, end)),
        },
    }
}

/// What a stage tells at the end of a text, or that the line which would come next is missing.
fn told(stage: Stage, number: u32) -> Result<(Run, End), TraceError>
    ensures { IsTold stage number result }
{
    match stage {
        Stage::Ended { events, end } => Ok((Run { events }, end)),
        Stage::Nothing | Stage::Headed | Stage::Events { .. } => {
            Err(TraceError::BadTrace { line: number })
        }
    }
}

fn reading(alloc: Global, bytes: &[u8]) -> Result<(Run, End), TraceError>
    requires { length bytes.now < 2 ^ 31 }
    ensures { IsAnswer bytes.now result }
{
    let mut stage = Stage::Nothing;
    let mut place = 0usize;
    let mut number = 1u32;
    'lines: while place < bytes.len() {
        match next(alloc, bytes, place, stage) {
            Err(Missing::Absent) => return Err(TraceError::BadTrace { line: number }),
            Err(Missing::Memory) => return Err(TraceError::Memory),
            Ok((after, end)) => {
                stage = after;
                place = end;
                number += 1;
            }
        }
    }
    told(stage, number)
}

/// The run and the end that a text is the trace of.
pub fn read(alloc: Global, bytes: &[u8]) -> Result<(Run, End), TraceError>
    requires { length bytes.now < 2 ^ 31 }
    // What is answered holds of the text.
    ensures trace { IfOk result (λ told. IsTrace bytes.now told.0.events told.1) }
    ensures refused { IfErr result (IsRefused bytes.now) }

    // There is no other answer, unless memory runs out.
    ensures only_run { (events : List Event) (end_ : End) → IsTrace bytes.now events end_
        → Gives events end_ result }
    ensures only_line { (line : ℕ) → IsBadLine bytes.now line → Refuses line result }
{
    reading(alloc, bytes)
}
