//! Reading decimal numbers.

ghost use Rattle.std.specs.Prelude.{◌≡◌, ◌<◌, ◌≤◌, ◌^◌, ℕ, true, length, slice_index, MatchBool, MatchOption};
ghost use Rattle.std.specs.Fmt.{decimal};
ghost use Rattle.std.specs.List.{list_all};
ghost use Rattle.estelle_tree.specs.Lexed.{is_word_byte};
ghost use Rattle.trace_text.specs.Fields.{IsReading, EndsWord};
ghost use Rattle.trace_text.specs.Forms.{IsBetween};

use crate::error::Missing;
use crate::words::run_end;
use std::str;

fn has_leading_zero(run: &[u8]) -> bool
    ensures { MatchBool result ((slice_index run.now 0 ≡ 48) × (1 < length run.now)) (slice_index run.now 0 ≡ 48 → length run.now ≤ 1) }
{
    run.len() > 1 && run[0] == b'0'
}

/// The number whose digits these are, if they are a number's.
fn natural(run: &[u8]) -> Option<u64>
    requires { list_all is_word_byte run.now ≡ true }
    ensures { MatchOption result ((n : ℕ) → n < 2 ^ 64 → ¬ (decimal n ≡ run.now)) (λ n. (n < 2 ^ 64) × (decimal n ≡ run.now)) }
{
    if has_leading_zero(run) {
        return None;
    }
    match str::from_utf8(run) {
        Err(_) => None,
        Ok(text) => match text.parse::<u64>() {
            Err(_) => None,
            Ok(n) => Some(n),
        },
    }
}

/// The number in these bounds at a place, and the place behind it.
pub fn number(bytes: &[u8], at: usize, least: u64, greatest: u64) -> Result<(u64, usize), Missing>
    requires { at ≤ length bytes.now }
    ensures { IsReading decimal (IsBetween least greatest) EndsWord bytes.now at result }
{
    let end = run_end(bytes, at);
    match natural(&bytes[at..end]) {
        None => Err(Missing::Absent),
        Some(n) => {
            if n < least {
                return Err(Missing::Absent);
            }
            if greatest < n {
                return Err(Missing::Absent);
            }
            Ok((n, end))
        }
    }
}
