//! The lines for err of refused inputs, and of faults.

ghost use Rattle.std.specs.Prelude.{◌≡◌, ◌++◌, OnOk, IfOk};
ghost use Rattle.estelle_cli.specs.Answers as answers;
ghost use Rattle.estelle_model.specs.Trace.{line_end};

use crate::outcome::{Place, Refusal};
use estelle_tree::Text;
use pascal_values::Fault;
use std::alloc::{AllocError, Global};
use trace_text::{put, put_number};

/// The line and the column, and the end of the line.
fn put_place(alloc: Global, out: &mut Vec<u8>, place: Place) -> Result<(), AllocError>
    ensures { OnOk result (out.new.items ≡ out.old.items ++ (answers.place_text place ++ line_end)) }
{
    put_number(alloc, out, u64::from(place.line))?;
    put(out, b":")?;
    put_number(alloc, out, u64::from(place.column))?;
    put(out, b"\n")
}

/// The line of a refusal.
pub fn refusal_line(alloc: Global, refusal: Refusal) -> Result<Text, AllocError>
    ensures { IfOk result (λ line. line ≡ answers.refusal_line refusal) }
{
    let mut out = Vec::new(alloc);
    match refusal {
        Refusal::TooLong => put(&mut out, b"estelle: too long\n")?,
        Refusal::Bytes(place) => {
            put(&mut out, b"estelle: bytes ")?;
            put_place(alloc, &mut out, place)?;
        }
        Refusal::TextAfterEnd(place) => {
            put(&mut out, b"estelle: text after end ")?;
            put_place(alloc, &mut out, place)?;
        }
        Refusal::Syntax(place) => {
            put(&mut out, b"estelle: syntax ")?;
            put_place(alloc, &mut out, place)?;
        }
        Refusal::Rule { number, place } => {
            put(&mut out, b"estelle: rule ")?;
            put_number(alloc, &mut out, u64::from(number))?;
            put(&mut out, b" ")?;
            put_place(alloc, &mut out, place)?;
        }
        Refusal::BadTraceLine(line) => {
            put(&mut out, b"estelle: bad trace line ")?;
            put_number(alloc, &mut out, u64::from(line))?;
            put(&mut out, b"\n")?;
        }
        Refusal::NotARun(entry) => {
            put(&mut out, b"estelle: not a run: entry ")?;
            put_number(alloc, &mut out, u64::from(entry))?;
            put(&mut out, b"\n")?;
        }
    }
    Ok(Text::of(out))
}

/// The line of a trace of so many events that is that of a run.
pub fn replayed_line(alloc: Global, count: u32) -> Result<Text, AllocError>
    ensures { IfOk result (λ line. line ≡ answers.replayed_line count) }
{
    let mut out = Vec::new(alloc);
    put(&mut out, b"accepted ")?;
    put_number(alloc, &mut out, u64::from(count))?;
    put(&mut out, b"\n")?;
    Ok(Text::of(out))
}

/// The line of a fault of the specification's own code.
pub fn fault_line(kind: Fault) -> &'static [u8]
    ensures { result.now ≡ answers.fault_line kind }
{
    match kind {
        Fault::DivideByZero => b"estelle: fault DivideByZero\n",
        Fault::ModNotPositive => b"estelle: fault ModNotPositive\n",
        Fault::Overflow => b"estelle: fault Overflow\n",
        Fault::Range => b"estelle: fault Range\n",
        Fault::Index => b"estelle: fault Index\n",
        Fault::Unset => b"estelle: fault Unset\n",
        Fault::NoCase => b"estelle: fault NoCase\n",
        Fault::StepLimit => b"estelle: fault StepLimit\n",
        Fault::CallDepth => b"estelle: fault CallDepth\n",
        Fault::NoModule => b"estelle: fault NoModule\n",
        Fault::ModuleTaken => b"estelle: fault ModuleTaken\n",
        Fault::LinkTaken => b"estelle: fault LinkTaken\n",
        Fault::LinkAbsent => b"estelle: fault LinkAbsent\n",
        Fault::DelayRange => b"estelle: fault DelayRange\n",
    }
}
