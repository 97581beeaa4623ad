//! What the program does with its words.

ghost use Rattle.std.specs.Prelude.{◌≡◌, ◌≤◌, ◌+◌, ℕ, IfOk, IsOkAnd, OnOk, IfErr};
ghost use Rattle.std.specs.Io.KnownBytes.{IsAtEnd};
ghost use Rattle.outside.specs.Counts.{Rose};
ghost use Rattle.estelle_model.specs.declared.event.End.TheVariants.{Clock as ByClock};
ghost use Rattle.estelle_words.specs.Words.{texts};
ghost use Rattle.estelle_cli.specs.declared.contents.Contents.TheVariants.{Alone, Traced};
ghost use Rattle.estelle_cli.specs.declared.outcome.Close.TheVariants as close;
ghost use Rattle.estelle_cli.specs.declared.task.Task.TheVariants as task;
ghost use Rattle.estelle_cli.specs.declared.outcome.Stop.TheVariants as stop;
ghost use Rattle.estelle_cli.specs.Tasks.{asked, ReadsInput, contents_of, AsksClock, AreLimits, AreWorkers, AreStations, IsInRange};
ghost use Rattle.estelle_cli.specs.Input.{TakesAtMost, HasStopped, input_limit};
ghost use Rattle.estelle_model.specs.Trace as trace;
ghost use Rattle.estelle_cli.specs.Answers.{Always, WithoutWorkers, accepted_line, IsTrace, EndsWith, IsAccepted, IsShown, IsListed, IsReplayed, IsMade, IsOutput, Reports, HasFailed, Emits, IsRefusedOr};
ghost use Rattle.estelle_cli.specs.Calls.{used, HasClose, HasClosed, HasTold, HasToldAtOnce, IsAnswered};

use crate::by_workers::executed_by;
use crate::coding::listed;
use crate::input::load;
use crate::lines::{fault_line, refusal_line, replayed_line};
use crate::outcome::{Close, Outcome, Refusal, Status, Stop};
use crate::replay::load_replay;
use crate::running::executed;
use crate::task::{Task, asked};
use crate::trial::tried;
use board_workers::Gate;
use estelle_model::{End, Run};
use estelle_printer::spell;
use estelle_tree::Text;
use outside::{Clock, Sink, Source, write_all};
use situation::Limits;
use spec_maker::make;
use std::alloc::{AllocError, Global};
use std::sync::Wait;
use std::thread::Threads;
use trace_text::{put, write};

/// Hands err the line. A fault of err changes nothing else.
fn report<E: Sink>(err: &mut E, line: &[u8])
    ensures { Reports (E.held err.old) (E.held err.new) (E.faults err.old) (E.faults err.new) line.now }
{
    let _ = write_all(err, line);
}

/// The trace of a run, and its end.
fn written(alloc: Global, ran: Result<(Run, End), AllocError>) -> Result<(Text, End), Stop>
    ensures trace { IfOk result (λ x. IsOkAnd ran (λ r. (x.0 ≡ trace.text r.0.events r.1) × (x.1 ≡ r.1))) }
    ensures cause { IfErr result (λ e. e ≡ stop.Memory) }
{
    let (run, end) = ran?;
    let text = write(alloc, &run, end)?;
    Ok((text, end))
}

/// Reads and runs the input on one thread, and gives the trace and its end; and the clock.
fn traced<S: Source, C: Clock>(
    alloc: Global,
    limits: Limits,
    seed: Option<u64>,
    source: &mut S,
    clock: C,
) -> (Result<(Text, End), Stop>, C)
    requires limits { AreLimits limits }
    ensures trace { (workers : ℕ) → IfOk result.0 (λ x. IsTrace Always limits seed (C.moment clock) workers (S.left source.old) x.1 x.0) }
    ensures by_clock { IfOk result.0 (λ x. x.1 ≡ ByClock → Rose (C.faults clock) (C.faults result.1)) }
    ensures later { C.faults clock ≤ C.faults result.1 }
    ensures end { OnOk result.0 (IsAtEnd (S.left source.new)) }
    ensures stops { TakesAtMost (input_limit Alone + 1) (S.left source.old) (S.left source.new) }
    ensures cause { IfErr result.0 (HasStopped Alone (S.left source.old) (S.faults source.old) (S.faults source.new)) }
{
    match load(alloc, source) {
        Err(stop) => (Err(stop), clock),
        Ok(checked) => {
            let (ran, clock) = executed(alloc, &checked, limits, seed, clock);
            (written(alloc, ran), clock)
        }
    }
}

/// The same by so many workers, whose firings pass the gate.
fn traced_by<S: Source, C: Clock + Send, G: Gate + Sync, R: Threads + Wait + Sync>(
    rt: &R,
    alloc: Global,
    gate: &G,
    limits: Limits,
    seed: Option<u64>,
    workers: u32,
    source: &mut S,
    clock: C,
) -> (Result<(Text, End), Stop>, C)
    requires limits { AreLimits limits }
    requires workers { (1 ≤ workers) × AreWorkers workers }
    ensures trace { IfOk result.0 (λ x. IsTrace WithoutWorkers limits seed (C.moment clock) workers (S.left source.old) x.1 x.0) }
    ensures by_clock { IfOk result.0 (λ x. x.1 ≡ ByClock → Rose (C.faults clock) (C.faults result.1)) }
    ensures later { C.faults clock ≤ C.faults result.1 }
    ensures end { OnOk result.0 (IsAtEnd (S.left source.new)) }
    ensures stops { TakesAtMost (input_limit Alone + 1) (S.left source.old) (S.left source.new) }
    ensures cause { IfErr result.0 (HasStopped Alone (S.left source.old) (S.faults source.old) (S.faults source.new)) }
{
    match load(alloc, source) {
        Err(stop) => (Err(stop), clock),
        Ok(checked) => {
            let (ran, clock) = executed_by(rt, gate, alloc, &checked, limits, seed, workers, clock);
            (written(alloc, ran), clock)
        }
    }
}

/// How a run was done that ended so.
fn close_by(end: End) -> Close
    ensures { EndsWith result end }
{
    match end {
        End::Dead | End::Turns => Close::Well,
        End::Clock => Close::ByClock,
        End::Faulted(kind) => Close::Faulted(kind),
    }
}

/// A trace, with how its run was done.
fn closing(traced: Result<(Text, End), Stop>) -> Result<(Text, Close), Stop>
    ensures { HasClose traced result }
{
    let (text, end) = traced?;
    Ok((text, close_by(end)))
}

/// Reads the input, and says that it is accepted.
fn accepted<S: Source>(alloc: Global, source: &mut S) -> Result<(Text, Close), Stop>
    ensures close { IfOk result (λ x. x.1 ≡ close.Well) }
    ensures accepted { IfOk result (λ x. IsAccepted (S.left source.old)) }
    ensures text { IfOk result (λ x. x.0 ≡ accepted_line) }
    ensures end { OnOk result (IsAtEnd (S.left source.new)) }
    ensures stops { TakesAtMost (input_limit Alone + 1) (S.left source.old) (S.left source.new) }
    ensures cause { IfErr result (HasStopped Alone (S.left source.old) (S.faults source.old) (S.faults source.new)) }
{
    let _checked = load(alloc, source)?;
    let mut line = Vec::new(alloc);
    put(&mut line, b"accepted\n")?;
    Ok((Text::of(line), Close::Well))
}

/// Reads the input, and gives its canonical text.
fn shown<S: Source>(alloc: Global, source: &mut S) -> Result<(Text, Close), Stop>
    ensures close { IfOk result (λ x. x.1 ≡ close.Well) }
    ensures text { IfOk result (λ x. IsShown (S.left source.old) x.0) }
    ensures end { OnOk result (IsAtEnd (S.left source.new)) }
    ensures stops { TakesAtMost (input_limit Alone + 1) (S.left source.old) (S.left source.new) }
    ensures cause { IfErr result (HasStopped Alone (S.left source.old) (S.faults source.old) (S.faults source.new)) }
{
    let checked = load(alloc, source)?;
    let text = spell(alloc, &checked.spec)?;
    Ok((text, Close::Well))
}

/// Reads the input, and gives the listing of its code.
fn coded<S: Source>(alloc: Global, source: &mut S) -> Result<(Text, Close), Stop>
    ensures close { IfOk result (λ x. x.1 ≡ close.Well) }
    ensures text { IfOk result (λ x. IsListed (S.left source.old) x.0) }
    ensures end { OnOk result (IsAtEnd (S.left source.new)) }
    ensures stops { TakesAtMost (input_limit Alone + 1) (S.left source.old) (S.left source.new) }
    ensures cause { IfErr result (HasStopped Alone (S.left source.old) (S.faults source.old) (S.faults source.new)) }
{
    let checked = load(alloc, source)?;
    let text = listed(alloc, &checked)?;
    Ok((text, Close::Well))
}

/// Reads the input as a specification with a trace, and tells how many events that has.
fn replayed<S: Source>(alloc: Global, budget: u32, source: &mut S) -> Result<(Text, Close), Stop>
    ensures close { IfOk result (λ x. x.1 ≡ close.Well) }
    ensures text { IfOk result (λ x. IsReplayed budget (S.left source.old) x.0) }
    ensures end { OnOk result (IsAtEnd (S.left source.new)) }
    ensures stops { TakesAtMost (input_limit (Traced budget) + 1) (S.left source.old) (S.left source.new) }
    ensures cause { IfErr result (HasStopped (Traced budget) (S.left source.old) (S.faults source.old) (S.faults source.new)) }
{
    let count = load_replay(alloc, budget, source)?;
    let text = replayed_line(alloc, count)?;
    Ok((text, Close::Well))
}

/// Gives the canonical text of the ring of n stations.
fn made(alloc: Global, n: u32) -> Result<(Text, Close), Stop>
    requires { AreStations n }
    ensures close { IfOk result (λ x. x.1 ≡ close.Well) }
    ensures text { IfOk result (λ x. IsMade n x.0) }
    ensures cause { IfErr result (λ e. e ≡ stop.Memory) }
{
    let spec = make(alloc, n)?;
    let text = spell(alloc, &spec)?;
    Ok((text, Close::Well))
}

/// Does the task on one thread, and gives what is to be written, with how it was done; and the clock.
fn output<S: Source, C: Clock>(
    alloc: Global,
    task: Task,
    source: &mut S,
    clock: C,
) -> (Result<(Text, Close), Stop>, C)
    requires { IsInRange task }
    ensures output { IfOk result.0 (λ x. IsOutput Always task (C.moment clock) (S.left source.old) x.1 x.0) }
    ensures by_clock { IfOk result.0 (λ x. x.1 ≡ close.ByClock → Rose (C.faults clock) (C.faults result.1)) }
    ensures later { C.faults clock ≤ C.faults result.1 }
    ensures unasked { (AsksClock task → ⊥) → result.1 ≡ clock }
    ensures end { OnOk result.0 (ReadsInput task → IsAtEnd (S.left source.new)) }
    ensures stops { TakesAtMost (input_limit (contents_of task) + 1) (S.left source.old) (S.left source.new) }
    ensures idle { (ReadsInput task → ⊥) → source.new ≡ source.old }
    ensures cause { IfErr result.0 (HasFailed task (S.left source.old) (S.faults source.old) (S.faults source.new)) }
{
    match task {
        Task::Run { limits, seed, .. } => {
            let (traced, clock) = traced(alloc, limits, seed, source, clock);
            (closing(traced), clock)
        }
        Task::Check => (accepted(alloc, source), clock),
        Task::Show => (shown(alloc, source), clock),
        Task::Code => (coded(alloc, source), clock),
        Task::Replay { budget } => (replayed(alloc, budget, source), clock),
        Task::Make(n) => (made(alloc, n), clock),
        Task::Trial {
            stations,
            limits,
            seed,
        } => (tried(alloc, stations, limits, seed), clock),
    }
}

/// Does the task, a run by workers where the words ask for them, and gives what is to be written, with how it was done; and the clock.
fn output_by<S: Source, C: Clock + Send, G: Gate + Sync, R: Threads + Wait + Sync>(
    rt: &R,
    alloc: Global,
    gate: &G,
    task: Task,
    source: &mut S,
    clock: C,
) -> (Result<(Text, Close), Stop>, C)
    requires { IsInRange task }
    ensures output { IfOk result.0 (λ x. IsOutput WithoutWorkers task (C.moment clock) (S.left source.old) x.1 x.0) }
    ensures by_clock { IfOk result.0 (λ x. x.1 ≡ close.ByClock → Rose (C.faults clock) (C.faults result.1)) }
    ensures later { C.faults clock ≤ C.faults result.1 }
    ensures unasked { (AsksClock task → ⊥) → result.1 ≡ clock }
    ensures end { OnOk result.0 (ReadsInput task → IsAtEnd (S.left source.new)) }
    ensures stops { TakesAtMost (input_limit (contents_of task) + 1) (S.left source.old) (S.left source.new) }
    ensures idle { (ReadsInput task → ⊥) → source.new ≡ source.old }
    ensures cause { IfErr result.0 (HasFailed task (S.left source.old) (S.faults source.old) (S.faults source.new)) }
{
    match task {
        Task::Run {
            limits,
            seed,
            workers,
        } if workers > 0 => {
            let (traced, clock) = traced_by(rt, alloc, gate, limits, seed, workers, source, clock);
            (closing(traced), clock)
        }
        task => output(alloc, task, source, clock),
    }
}

/// Writes an output.
fn emit<K: Sink>(out: &mut K, text: &Text, close: Close) -> Outcome
    ensures { Emits text.now close (K.held out.old) (K.held out.new) (K.faults out.old) (K.faults out.new) result }
{
    match write_all(out, text.items()) {
        Err(_) => Outcome::WriteFault,
        Ok(()) => match close {
            Close::Well => Outcome::Done,
            Close::Faulted(kind) => Outcome::PascalFault(kind),
            Close::ByClock => Outcome::ClockFault,
        },
    }
}

fn refused(alloc: Global, refusal: Refusal) -> Outcome
    ensures { IsRefusedOr refusal result }
{
    match refusal_line(alloc, refusal) {
        Ok(line) => Outcome::Refused(refusal, line),
        Err(_) => Outcome::Memory,
    }
}

/// Writes what a task gave. The line for err is left to the caller.
fn closed<K: Sink>(alloc: Global, done: Result<(Text, Close), Stop>, out: &mut K) -> Outcome
    ensures { HasClosed (used K.held K.faults out.old out.new) done result }
{
    match done {
        Ok((text, close)) => emit(out, &text, close),
        Err(Stop::Refused(refusal)) => refused(alloc, refusal),
        Err(Stop::ReadFault) => Outcome::ReadFault,
        Err(Stop::Memory) => Outcome::Memory,
    }
}

/// Tells err how a task ended.
fn told<E: Sink>(err: &mut E, outcome: Outcome) -> Status
    ensures { HasTold (used E.held E.faults err.old err.new) outcome result }
{
    match outcome {
        Outcome::Done => Status::Done,
        Outcome::PascalFault(kind) => {
            report(err, fault_line(kind));
            Status::PascalFault
        }
        Outcome::ClockFault => {
            report(err, b"estelle: clock fault\n");
            Status::ClockFault
        }
        Outcome::Refused(_, line) => {
            report(err, line.items());
            Status::Refused
        }
        Outcome::ReadFault => {
            report(err, b"estelle: read fault\n");
            Status::ReadFault
        }
        Outcome::WriteFault => {
            report(err, b"estelle: write fault\n");
            Status::WriteFault
        }
        Outcome::Memory => {
            report(err, b"estelle: no memory\n");
            Status::Memory
        }
    }
}

/// Tells err that the words have no meaning, or that memory is wanted.
fn told_at_once<E: Sink>(
    err: &mut E,
    found: Result<Option<Task>, AllocError>,
) -> Result<Task, Status>
    ensures { HasToldAtOnce (used E.held E.faults err.old err.new) found result }
{
    match found {
        Ok(Some(task)) => Ok(task),
        Ok(None) => {
            report(err, b"estelle: usage\n");
            Err(Status::Usage)
        }
        Err(_) => {
            report(err, b"estelle: no memory\n");
            Err(Status::Memory)
        }
    }
}

/// The program on one thread. It does what the words ask for with the specification that the source has left: it runs it and
/// writes the trace of its run to out, or judges its rules and writes `accepted`, its canonical text or the listing of its code, or judges the trace that
/// stands behind it and writes how many events it has. Or it makes a ring, reads nothing, and writes the ring's canonical text, or
/// runs it and writes the counts and the end of its run. It writes at most one line to err. It returns on every input. What it runs is
/// scheduled by the seed of the words and by what the clock told, whatever the number of workers.
pub fn estelle_plain<S: Source, K: Sink, E: Sink, C: Clock>(
    alloc: Global,
    words: &[&str],
    source: &mut S,
    out: &mut K,
    err: &mut E,
    clock: C,
) -> (Status, C)
    ensures { IsAnswered Always (used S.left S.faults source.old source.new) (used K.held K.faults out.old out.new) (used C.moment C.faults clock result.1) (used E.held E.faults err.old err.new) (asked (texts words.now)) result.0 }
{
    match told_at_once(err, asked(alloc, words)) {
        Err(status) => (status, clock),
        Ok(task) => {
            let (done, clock) = output(alloc, task, source, clock);
            let outcome = closed(alloc, done, out);
            (told(err, outcome), clock)
        }
    }
}

/// The program. Where the words ask for a run by workers, so many execute it, and each firing is computed between `enter` and `leave` of
/// the gate; it may wait, and which of the possible runs it is depends on the order in which the workers get their turns. All else is as
/// of `estelle_plain`.
pub fn estelle<
    S: Source,
    K: Sink,
    E: Sink,
    C: Clock + Send,
    G: Gate + Sync,
    R: Threads + Wait + Sync,
>(
    rt: &R,
    alloc: Global,
    words: &[&str],
    source: &mut S,
    out: &mut K,
    err: &mut E,
    clock: C,
    gate: &G,
) -> (Status, C)
    ensures { IsAnswered WithoutWorkers (used S.left S.faults source.old source.new) (used K.held K.faults out.old out.new) (used C.moment C.faults clock result.1) (used E.held E.faults err.old err.new) (asked (texts words.now)) result.0 }
{
    match told_at_once(err, asked(alloc, words)) {
        Err(status) => (status, clock),
        Ok(task) => {
            let (done, clock) = output_by(rt, alloc, gate, task, source, clock);
            let outcome = closed(alloc, done, out);
            (told(err, outcome), clock)
        }
    }
}
