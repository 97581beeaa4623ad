//! What an input is to be.

ghost use Rattle.std.specs.Prelude.{◌≡◌, ◌<◌, ◌^◌};
ghost use Rattle.estelle_cli.specs.Input.{input_limit};

/// What an input is to be.
#[derive(Clone, Copy, Debug, PartialEq, Eq)]
pub enum Contents {
    /// A specification.
    Alone,
    /// A specification, the end of its line, and then the trace of a run of it with this budget.
    Traced { budget: u32 },
}

/// The longest input, in bytes.
pub fn input_limit(contents: Contents) -> usize
    ensures limit { result ≡ input_limit contents }
    ensures small { result < 2 ^ 30 }
{
    match contents {
        Contents::Alone => 1_048_576,
        Contents::Traced { .. } => 67_108_864,
    }
}
