//! Reading the fields of a line.

ghost use Rattle.std.specs.Prelude.{◌≡◌, ◌≤◌, ◌+◌, [], ◌∷◌, ℕ, true, drop, length, codes, MatchBool, MatchOption};
ghost use Rattle.std.specs.Char.{is_ascii_alphabetic};
ghost use Rattle.std.specs.Fmt.{decimal};
ghost use Rattle.pascal_values.specs.declared.fault.Fault as fault;
ghost use Rattle.pascal_values.specs.Steps as steps;
ghost use Rattle.estelle_tree.specs.Kind.{is_identifier};
ghost use Rattle.estelle_tree.specs.Lexed.{first_is, is_word_byte};
ghost use Rattle.estelle_model.specs.Trace as trace;
ghost use Rattle.trace_text.specs.Fields.{Stands, IsReading, AreItems, closed, both, Both, pair_with, IsPairFrom, moment_text, name_text, EndsWord, EndsPath, Any, Anything};
ghost use Rattle.trace_text.specs.Forms.{IsPath, IsBirth, IsNumber, IsName, IsBetween};

use crate::error::Missing;
use crate::numbers::number;
use crate::words::{follows, goes_on, run_end, stands};
use crate::writing::kind_text;
use estelle_tree::{Pair, Path, Word, is_identifier};
use pascal_values::Fault;
use std::alloc::Global;

// ---- paths and pairs

/// The birth numbers at a place, each behind a `/`, and the place behind them.
fn births(alloc: Global, bytes: &[u8], at: usize) -> Result<(Path, usize), Missing>
    requires { steps.Stands bytes.now at 47 }
    ensures { IsReading trace.numbers_text (AreItems IsBirth) EndsPath bytes.now at result }
{
    let mut numbers = Vec::new(alloc);
    let mut place = at;
    'births: while stands(bytes, place, b'/') {
        match number(bytes, place + 1, 1, u64::MAX) {
            Err(missing) => return Err(missing),
            Ok((birth, end)) => {
                numbers.push(birth)?;
                place = end;
            }
        }
    }
    Ok((Path::of(numbers), place))
}

/// A path, and the place behind it.
pub fn path(alloc: Global, bytes: &[u8], at: usize) -> Result<(Path, usize), Missing>
    ensures { IsReading trace.path_text IsPath EndsPath bytes.now at result }
{
    if !stands(bytes, at, b'/') {
        return Err(Missing::Absent);
    }
    if goes_on(bytes, at + 1) {
        return births(alloc, bytes, at);
    }
    if stands(bytes, at + 1, b'/') {
        return Err(Missing::Absent);
    }
    Ok((Path::root(alloc), at + 1))
}

/// An instance and the number of a transition, with a byte between them, and the place behind them.
pub fn pair(
    alloc: Global,
    bytes: &[u8],
    at: usize,
    between: u8,
    least: u64,
) -> Result<(Pair, usize), Missing>
    requires { EndsPath (between ∷ []) }
    ensures { IsReading (pair_with between) (IsPairFrom least) EndsWord bytes.now at result }
{
    match path(alloc, bytes, at) {
        Err(missing) => Err(missing),
        Ok((path, mid)) => paired(bytes, at, between, least, path, mid),
    }
}

fn paired(
    bytes: &[u8],
    at: usize,
    between: u8,
    least: u64,
    path: Path,
    mid: usize,
) -> Result<(Pair, usize), Missing>
    requires between { EndsPath (between ∷ []) }
    requires path { Stands trace.path_text IsPath EndsPath bytes.now at path mid }
    ensures { IsReading (pair_with between) (IsPairFrom least) EndsWord bytes.now at result }
{
    if !stands(bytes, mid, between) {
        return Err(Missing::Absent);
    }
    match number(bytes, mid + 1, least, 4096) {
        Err(missing) => Err(missing),
        Ok((trans, end)) => Ok((
            Pair {
                path,
                trans: trans as u32,
            },
            end,
        )),
    }
}

/// An instance and the number of a transition, with a space between them and a byte behind them, and the
/// place behind that.
pub fn closed_pair(
    alloc: Global,
    bytes: &[u8],
    at: usize,
    least: u64,
    close: u8,
) -> Result<(Pair, usize), Missing>
    requires { EndsWord (close ∷ []) }
    ensures { IsReading (closed close (pair_with 32)) (IsPairFrom least) Any bytes.now at result }
{
    match pair(alloc, bytes, at, b' ', least) {
        Err(missing) => Err(missing),
        Ok((pair, end)) => {
            if stands(bytes, end, close) {
                Ok((pair, end + 1))
            } else {
                Err(Missing::Absent)
            }
        }
    }
}

// ---- numbers

/// A number with a byte behind it, and the place behind that.
pub fn closed_number(bytes: &[u8], at: usize, close: u8) -> Result<(u64, usize), Missing>
    requires within { at ≤ length bytes.now }
    requires close { EndsWord (close ∷ []) }
    ensures { IsReading (closed close decimal) IsNumber Any bytes.now at result }
{
    match number(bytes, at, 0, u64::MAX) {
        Err(missing) => Err(missing),
        Ok((n, end)) => {
            if stands(bytes, end, close) {
                Ok((n, end + 1))
            } else {
                Err(Missing::Absent)
            }
        }
    }
}

/// The moment of a selection with the words round it, and the place behind them.
pub fn moment(bytes: &[u8], at: usize) -> Result<(u64, usize), Missing>
    requires { at ≤ length bytes.now }
    ensures { IsReading moment_text IsNumber Any bytes.now at result }
{
    if !follows(bytes, at, b" now ") {
        return Err(Missing::Absent);
    }
    match number(bytes, at + 5, 0, u64::MAX) {
        Err(missing) => Err(missing),
        Ok((now, end)) => {
            if follows(bytes, end, b" takes ") {
                Ok((now, end + 7))
            } else {
                Err(Missing::Absent)
            }
        }
    }
}

// ---- names

/// A name, and the place behind it.
pub fn name(alloc: Global, bytes: &[u8], at: usize) -> Result<(Word, usize), Missing>
    requires { at ≤ length bytes.now }
    ensures { IsReading name_text IsName EndsWord bytes.now at result }
{
    let end = run_end(bytes, at);
    let run = &bytes[at..end];
    if !begins_with_letter(run) {
        return Err(Missing::Absent);
    }
    match Word::of(alloc, run) {
        Err(_) => Err(Missing::Memory),
        Ok(word) => {
            if is_name(&word, run) {
                Ok((word, end))
            } else {
                Err(Missing::Absent)
            }
        }
    }
}

fn begins_with_letter(run: &[u8]) -> bool
    ensures { result ≡ first_is is_ascii_alphabetic run.now }
{
    match run {
        [] => false,
        [first, ..] => first.is_ascii_alphabetic(),
    }
}

/// Whether the run is the word in lower case, and no reserved word.
fn is_name(word: &Word, run: &[u8]) -> bool
    ensures { MatchBool result ((word.now ≡ run.now) × (is_identifier word.now ≡ true)) ((word.now ≡ run.now) → (is_identifier word.now ≡ true) → ⊥) }
{
    word.items() == run && is_identifier(word)
}

/// An interaction point of an instance with a space behind it, and the place behind that.
pub fn point(alloc: Global, bytes: &[u8], at: usize) -> Result<((Path, Word), usize), Missing>
    ensures { IsReading (both (closed 46 trace.path_text) (closed 32 name_text)) (Both IsPath IsName) Any bytes.now at result }
{
    match path(alloc, bytes, at) {
        Err(missing) => Err(missing),
        Ok((path, mid)) => pointed(alloc, bytes, at, path, mid),
    }
}

fn pointed(
    alloc: Global,
    bytes: &[u8],
    at: usize,
    path: Path,
    mid: usize,
) -> Result<((Path, Word), usize), Missing>
    requires { Stands trace.path_text IsPath EndsPath bytes.now at path mid }
    ensures { IsReading (both (closed 46 trace.path_text) (closed 32 name_text)) (Both IsPath IsName) Any bytes.now at result }
{
    if !stands(bytes, mid, b'.') {
        return Err(Missing::Absent);
    }
    match closed_name(alloc, bytes, mid + 1) {
        Err(missing) => Err(missing),
        Ok((ip, end)) => Ok(((path, ip), end)),
    }
}

fn closed_name(alloc: Global, bytes: &[u8], at: usize) -> Result<(Word, usize), Missing>
    requires { at ≤ length bytes.now }
    ensures { IsReading (closed 32 name_text) IsName Any bytes.now at result }
{
    match name(alloc, bytes, at) {
        Err(missing) => Err(missing),
        Ok((name, end)) => {
            if stands(bytes, end, b' ') {
                Ok((name, end + 1))
            } else {
                Err(Missing::Absent)
            }
        }
    }
}

// ---- faults

fn is_kind(name: &[u8], kind: Fault) -> bool
    ensures { MatchBool result (trace.kind_text kind ≡ name.now) (¬ (trace.kind_text kind ≡ name.now)) }
{
    kind_text(kind) == name
}

/// The fault of a name.
fn kind_named(name: &[u8]) -> Option<Fault>
    ensures { MatchOption result ((kind : fault.Fault) → ¬ (trace.kind_text kind ≡ name.now)) (λ kind. trace.kind_text kind ≡ name.now) }
{
    if is_kind(name, Fault::DivideByZero) {
        return Some(Fault::DivideByZero);
    }
    if is_kind(name, Fault::ModNotPositive) {
        return Some(Fault::ModNotPositive);
    }
    if is_kind(name, Fault::Overflow) {
        return Some(Fault::Overflow);
    }
    if is_kind(name, Fault::Range) {
        return Some(Fault::Range);
    }
    if is_kind(name, Fault::Index) {
        return Some(Fault::Index);
    }
    if is_kind(name, Fault::Unset) {
        return Some(Fault::Unset);
    }
    if is_kind(name, Fault::NoCase) {
        return Some(Fault::NoCase);
    }
    if is_kind(name, Fault::StepLimit) {
        return Some(Fault::StepLimit);
    }
    if is_kind(name, Fault::CallDepth) {
        return Some(Fault::CallDepth);
    }
    if is_kind(name, Fault::NoModule) {
        return Some(Fault::NoModule);
    }
    if is_kind(name, Fault::ModuleTaken) {
        return Some(Fault::ModuleTaken);
    }
    if is_kind(name, Fault::LinkTaken) {
        return Some(Fault::LinkTaken);
    }
    if is_kind(name, Fault::LinkAbsent) {
        return Some(Fault::LinkAbsent);
    }
    if is_kind(name, Fault::DelayRange) {
        return Some(Fault::DelayRange);
    }
    None
}

/// The name of a fault that ends the line, and the place behind the line.
pub fn kind_line(bytes: &[u8], at: usize) -> Result<(Fault, usize), Missing>
    requires { at ≤ length bytes.now }
    ensures { IsReading (closed 10 trace.kind_text) Anything Any bytes.now at result }
{
    let end = run_end(bytes, at);
    match kind_named(&bytes[at..end]) {
        None => Err(Missing::Absent),
        Some(kind) => {
            if stands(bytes, end, b'\n') {
                Ok((kind, end + 1))
            } else {
                Err(Missing::Absent)
            }
        }
    }
}
