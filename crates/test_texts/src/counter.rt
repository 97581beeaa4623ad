//! The counter, and the counter with other parts.

use std::alloc::{AllocError, Global};

/// It counts to three. It has 169 bytes.
pub const COUNTER: &str = "specification count systemprocess;
var n: integer;
state go;
initialize to go begin n := 0 end;
trans
from go to go provided n < 3 name tick: begin n := n + 1 end;
end.
";

/// The counter with more declarations, and another guard and block.
pub fn counter_with(
    alloc: Global,
    declared: &str,
    guard: &str,
    block: &str,
) -> Result<String, AllocError> {
    let heading = format!(in alloc; "state go;\n{declared}")?;
    COUNTER
        .replace(alloc, "n := n + 1", block)?
        .replace(alloc, "n < 3", guard)?
        .replace(alloc, "state go;", &heading)
}
