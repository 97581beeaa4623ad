//! The traces that runs are to write, and a counter that overflows.

/// The counter's trace. It has 160 bytes.
pub const COUNTER_TRACE: &str = "estelle trace 1
start
select / now 0 takes /:1
fire / 1
select / now 0 takes /:1
fire / 1
select / now 0 takes /:1
fire / 1
select / now 0 takes -
end deadlock
";

/// It adds 1 to the greatest integer.
pub const OVERFLOWING: &str = "specification count systemprocess;
var n: integer;
state go;
initialize to go begin n := maxint end;
trans
from go to go name tick: begin n := n + 1 end;
end.
";

pub const OVERFLOW_TRACE: &str = "estelle trace 1
start
select / now 0 takes /:1
fault / 1 Overflow
end fault Overflow
";

/// The last lines of a run that deadlocks.
pub const DEADLOCK: &str = "select / now 0 takes -\nend deadlock\n";

/// The last line of a run that reaches the limit of firings.
pub const TURNS: &str = "end turns\n";

/// The last lines of a run whose firing overflows.
pub const FIRING_OVERFLOWS: &str =
    "select / now 0 takes /:1\nfault / 1 Overflow\nend fault Overflow\n";

/// The last lines of a run whose guard overflows.
pub const GUARD_OVERFLOWS: &str = "fault / 1 Overflow\nend fault Overflow\n";

/// The last lines of a run whose guard reads a variable that has no value.
pub const GUARD_UNSET: &str = "fault / 1 Unset\nend fault Unset\n";

/// The last lines of a run whose second transition fires once more.
pub const SECOND_FIRES: &str =
    "select / now 0 takes /:2\nfire / 2\nselect / now 0 takes -\nend deadlock\n";
