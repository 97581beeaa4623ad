//! The line.

ghost use Rattle.std.specs.Prelude.{◌≡◌, ◌<◌, ◌++◌, ◌^◌, length, codes, IfOk, OnOk};
ghost use Rattle.std.specs.Fmt.{decimal};
ghost use Rattle.estelle_model.specs.Trace as trace;
ghost use Rattle.estelle_model_fates.specs.Fates as fates;
ghost use Rattle.run_counts.specs.Counts as spec;

use crate::counts::{fires, losses, outputs, selections};
use estelle_model::{End, Run};
use estelle_tree::{Sequence, Text};
use pascal_values::Fault;
use std::alloc::{AllocError, Global};
use trace_text::{put, put_number};

/// The last line of a trace that ends so.
#[tactic(auto, unfolding(estelle_model::specs::Trace::end_line))]
fn end_line(end: End) -> &'static [u8]
    ensures { result.now ≡ trace.end_line end }
{
    match end {
        End::Dead => b"end deadlock\n",
        End::Turns => b"end turns\n",
        End::Clock => b"end clock\n",
        End::Faulted(kind) => fault_line(kind),
    }
}

#[tactic(auto, unfolding(estelle_model::specs::Trace::end_line))]
fn fault_line(kind: Fault) -> &'static [u8]
    ensures { result.now ≡ trace.end_line (End.Faulted kind) }
{
    match kind {
        Fault::DivideByZero => b"end fault DivideByZero\n",
        Fault::ModNotPositive => b"end fault ModNotPositive\n",
        Fault::Overflow => b"end fault Overflow\n",
        Fault::Range => b"end fault Range\n",
        Fault::Index => b"end fault Index\n",
        Fault::Unset => b"end fault Unset\n",
        Fault::NoCase => b"end fault NoCase\n",
        Fault::StepLimit => b"end fault StepLimit\n",
        Fault::CallDepth => b"end fault CallDepth\n",
        Fault::NoModule => b"end fault NoModule\n",
        Fault::ModuleTaken => b"end fault ModuleTaken\n",
        Fault::LinkTaken => b"end fault LinkTaken\n",
        Fault::LinkAbsent => b"end fault LinkAbsent\n",
        Fault::DelayRange => b"end fault DelayRange\n",
    }
}

/// All outputs, those that were lost, and the end.
fn put_outputs(
    alloc: Global,
    out: &mut Vec<u8>,
    outputs: u64,
    losses: u64,
    end: End,
) -> Result<(), AllocError>
    ensures { OnOk result (out.new.items ≡ out.old.items ++ (decimal outputs ++ (codes " lost " ++ (decimal losses ++ (codes " " ++ trace.end_line end))))) }
{
    put_number(alloc, out, outputs)?;
    put(out, b" lost ")?;
    put_number(alloc, out, losses)?;
    put(out, b" ")?;
    put(out, end_line(end))
}

/// The firings, the selections, all outputs, those that were lost, and the end.
pub fn counts_line(alloc: Global, run: &Run, end: End) -> Result<Text, AllocError>
    requires { length (fates.outputs run.now.events) < 2 ^ 64 }
    ensures { IfOk result (λ line. line ≡ spec.counts_line run.now.events end) }
{
    let events = run.events.items();
    let mut out = Vec::new(alloc);
    put(&mut out, b"fires ")?;
    put_number(alloc, &mut out, fires(events))?;
    put(&mut out, b" selects ")?;
    put_number(alloc, &mut out, selections(events))?;
    put(&mut out, b" outputs ")?;
    put_outputs(alloc, &mut out, outputs(events), losses(events), end)?;
    Ok(Text::of(out))
}
