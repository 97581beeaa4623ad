//! Replays: a specification with the trace of a run of it.

ghost use Rattle.std.specs.Prelude.{◌≡◌, ◌<◌, ◌≤◌, ◌+◌, ◌^◌, length, drop, IfOk, OnOk, IfErr, IfSome};
ghost use Rattle.std.specs.Io.KnownBytes.{IsAtEnd};
ghost use Rattle.estelle_model.specs.Subject.{subject};
ghost use Rattle.trace_text.specs.Readings.{IsTrace};
ghost use Rattle.trace_check.specs.Judging.{IsRunTo};
ghost use Rattle.estelle_cli.specs.declared.contents.Contents.TheVariants.{Traced};
ghost use Rattle.estelle_cli.specs.Input.{Reads, HasTrace, Replays, Misses, MissesTrace, MissesRun, HasStopped, TakesAtMost, input_limit};

use crate::contents::Contents;
use crate::input::{parsed, read_input};
use crate::outcome::{Refusal, Stop};
use estelle_model::{End, Run};
use estelle_tree::Sequence;
use outside::Source;
use spec_accept::Checked;
use std::alloc::Global;
use trace_check::JudgeError;
use trace_replay::replay_run;
use trace_text::{TraceError, read};

/// The events and the end that a trace tells of.
fn told(alloc: Global, trace: &[u8]) -> Result<(Run, End), Stop>
    requires { length trace.now < 2 ^ 31 }
    ensures found { IfOk result (λ x. IsTrace trace.now x.0.events x.1) }
    ensures cause { IfErr result (MissesTrace trace.now) }
{
    match read(alloc, trace) {
        Ok(told) => Ok(told),
        Err(TraceError::BadTrace { line }) => Err(Stop::Refused(Refusal::BadTraceLine(line))),
        Err(TraceError::Memory) => Err(Stop::Memory),
    }
}

/// Judges whether they are those of a run of the specification, and gives how many events there are.
fn confirmed(
    alloc: Global,
    checked: &Checked,
    budget: u32,
    run: &Run,
    end: End,
) -> Result<u32, Stop>
    requires counted { length run.now.events < 2 ^ 31 }
    ensures run { OnOk result (IsRunTo (subject checked.now.spec checked.now.names) budget run.now.events end) }
    ensures count { IfOk result (λ count. count ≡ length run.now.events) }
    ensures cause { IfErr result (MissesRun (subject checked.now.spec checked.now.names) budget run.now.events end) }
{
    match replay_run(alloc, checked, budget, run, end) {
        Ok(()) => Ok(run.events.items().len() as u32),
        Err(JudgeError::NotARun { entry }) => Err(Stop::Refused(Refusal::NotARun(entry))),
        Err(JudgeError::Memory) => Err(Stop::Memory),
    }
}

/// Judges the trace that stands at a place behind a specification, and gives how many events it has.
fn judged_at(
    alloc: Global,
    checked: &Checked,
    budget: u32,
    bytes: &[u8],
    at: usize,
) -> Result<u32, Stop>
    requires reads { Reads (Traced budget) bytes.now checked.now.spec }
    requires trace { HasTrace bytes.now (drop at bytes.now) }
    requires inside { at ≤ length bytes.now }
    ensures found { IfOk result (λ count. Replays budget bytes.now count) }
    ensures cause { IfErr result (Misses (Traced budget) bytes.now) }
{
    match told(alloc, &bytes[at..]) {
        Ok((run, end)) => confirmed(alloc, checked, budget, &run, end),
        Err(stop) => Err(stop),
    }
}

/// Reads a text as a specification with the trace of a run of it, and gives how many events that has.
fn replayed(alloc: Global, budget: u32, bytes: &[u8]) -> Result<u32, Stop>
    ensures found { IfOk result (λ count. Replays budget bytes.now count) }
    ensures cause { IfErr result (Misses (Traced budget) bytes.now) }
{
    match parsed(alloc, Contents::Traced { budget }, bytes) {
        Ok((checked, at)) => judged_at(alloc, &checked, budget, bytes, at as usize),
        Err(stop) => Err(stop),
    }
}

/// Reads the input so.
pub fn load_replay<S: Source>(alloc: Global, budget: u32, source: &mut S) -> Result<u32, Stop>
    ensures found { IfOk result (λ count. IfSome (S.left source.old) (λ input. Replays budget input count)) }
    ensures end { OnOk result (IsAtEnd (S.left source.new)) }
    ensures stops { TakesAtMost (input_limit (Traced budget) + 1) (S.left source.old) (S.left source.new) }
    ensures cause { IfErr result (HasStopped (Traced budget) (S.left source.old) (S.faults source.old) (S.faults source.new)) }
{
    let bytes = read_input(alloc, Contents::Traced { budget }, source)?;
    replayed(alloc, budget, &bytes)
}
