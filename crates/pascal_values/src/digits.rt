//! Reading decimal numbers.

ghost use Rattle.std.specs.Prelude.{◌≤◌, ◌<◌, ◌+◌, ◌*◌, MatchOption, drop};
ghost use Rattle.std.specs.Option.{SomeIff};
ghost use Rattle.pascal_values.specs.Texts.{NoDigit};
ghost use Rattle.pascal_values.specs.Steps.{StandsDigit, IsFull, TakesDigit, IsNumber};

/// The digit at a place.
fn digit(bytes: &[u8], at: usize) -> Option<u64>
    ensures { MatchOption result (NoDigit (drop at bytes.now)) (λ d. StandsDigit bytes.now at d) }
{
    if at >= bytes.len() {
        return None;
    }
    let byte = bytes[at];
    if byte < b'0' || b'9' < byte {
        return None;
    }
    Some(u64::from(byte - b'0'))
}

/// The number with the digit at a place behind it, if there is one, the number does not begin with a
/// zero, and the result does not pass the greatest.
fn further(bytes: &[u8], at: usize, n: u64, greatest: u64) -> Option<u64>
    ensures { MatchOption result (IsFull greatest n (drop at bytes.now)) (λ m. TakesDigit greatest n bytes.now at m) }
{
    if n == 0 {
        return None;
    }
    match digit(bytes, at) {
        None => None,
        Some(d) => with_digit(n, d, greatest),
    }
}

fn with_digit(n: u64, d: u64, greatest: u64) -> Option<u64>
    requires { d < 10 }
    ensures { SomeIff result (n * 10 + d ≤ greatest) (n * 10 + d) }
{
    if d <= greatest && n <= (greatest - d) / 10 {
        Some(n * 10 + d)
    } else {
        None
    }
}

/// The longest decimal number at a place that has no leading zeros and does not pass the greatest,
/// and the place after it.
pub(crate) fn number(bytes: &[u8], at: usize, greatest: u64) -> Option<(u64, usize)>
    requires { 9 ≤ greatest }
    ensures { MatchOption result (NoDigit (drop at bytes.now)) (λ r. IsNumber greatest bytes.now at r.0 r.1) }
{
    match digit(bytes, at) {
        None => None,
        Some(first) => Some(longest(bytes, at, first, greatest)),
    }
}

/// The longest number that begins with a digit.
fn longest(bytes: &[u8], at: usize, first: u64, greatest: u64) -> (u64, usize)
    requires fits { 9 ≤ greatest }
    requires digit { StandsDigit bytes.now at first }
    ensures { IsNumber greatest bytes.now at result.0 result.1 }
{
    let mut n = first;
    let mut end = at + 1;
    while let Some(more) = further(bytes, end, n, greatest) {
        n = more;
        end += 1;
    }
    (n, end)
}
