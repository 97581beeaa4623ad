//! The bounds of a delay, from its values (ISO/IEC 9074).

ghost use Rattle.std.specs.Prelude.{◌≡◌, ◌-◌, ◌^◌, ◌&&◌, true, nat_abs, pos};
ghost use Rattle.std.specs.Int.RustNames.{int_le};
ghost use Rattle.pascal_values.specs.Integers.{is_between};
ghost use Rattle.estelle_model.specs.States.{Logged, on_log};
ghost use Rattle.estelle_model.specs.Subject.{Subject};
ghost use Rattle.estelle_model.specs.Clauses as clauses;
ghost use Rattle.body_values.specs.Gives.{Gives};

use body_values::{Stop, int_of};
use estelle_model::Guard;
use pascal_values::{Fault, Value};

/// Whether a number is a moment of a delay.
fn is_moment(n: i64) -> bool
    ensures { result ≡ is_between (pos 0) (pos (2 ^ 31 - 1)) n }
{
    0 <= n && n <= 0x7fff_ffff
}

fn moment(n: i64) -> u32
    requires { is_between (pos 0) (pos (2 ^ 31 - 1)) n ≡ true }
    ensures { result ≡ nat_abs n }
{
    n.unsigned_abs() as u32
}

/// Whether two numbers are moments of a delay, the first no later than the second.
fn are_moments(low: i64, high: i64) -> bool
    ensures { result ≡ (is_between (pos 0) (pos (2 ^ 31 - 1)) low && (is_between (pos 0) (pos (2 ^ 31 - 1)) high && int_le low high)) }
{
    is_moment(low) && is_moment(high) && low <= high
}

fn between(low: i64, high: i64) -> Result<Guard, Stop>
    ensures { (s : Subject) → Gives (clauses.between Logged on_log s low high) result }
{
    if !are_moments(low, high) {
        return Err(Stop::Fault(Fault::DelayRange));
    }
    Ok(Guard::On {
        low: moment(low),
        high: Some(moment(high)),
    })
}

fn from_on(low: i64) -> Result<Guard, Stop>
    ensures { (s : Subject) → Gives (clauses.from_on Logged on_log s low) result }
{
    if !is_moment(low) {
        return Err(Stop::Fault(Fault::DelayRange));
    }
    Ok(Guard::On {
        low: moment(low),
        high: None,
    })
}

pub fn from_one(low: &Value) -> Result<Guard, Stop>
    ensures { (s : Subject) → Gives (clauses.from_one Logged on_log s low.now) result }
{
    match int_of(low) {
        Ok(low) => from_on(low),
        Err(stop) => Err(stop),
    }
}

pub fn from_both(low: &Value, high: &Value) -> Result<Guard, Stop>
    ensures { (s : Subject) → Gives (clauses.from_both Logged on_log s low.now high.now) result }
{
    match int_of(low) {
        Ok(low) => match int_of(high) {
            Ok(high) => between(low, high),
            Err(stop) => Err(stop),
        },
        Err(stop) => Err(stop),
    }
}

/// The guard of a transition that may fire at once.
pub fn at_once() -> Guard
    ensures { (s : Subject) → result ≡ clauses.at_once Logged on_log s }
{
    Guard::On {
        low: 0,
        high: Some(0),
    }
}
