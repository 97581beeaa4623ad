//! What a board passes round.
ghost use Rattle.std.specs.Prelude.{◌≡◌, ℕ, List, length};

/// A value with a fixed part and a list of entries, each with the number of its writer.
pub trait Recorded {
    /// The fixed part. No value of it need be made.
    type Base;

    /// What is appended.
    type Entry;

    // The fixed part of a value.
    ghost base: { Self → Self.Base };

    // Its entries, in order.
    ghost entries: { Self → List Self.Entry };

    // The number of an entry's writer: 0 before there is a board, later that of a pass.
    ghost writer: { Self.Entry → ℕ };

    /// How many entries there are.
    fn count(&self) -> u64
        ensures { result ≡ length (entries self.now) };
}
