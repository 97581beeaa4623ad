//! Forms of one specification, that run and that do not.

use crate::traces::{
    DEADLOCK, FIRING_OVERFLOWS, GUARD_OVERFLOWS, GUARD_UNSET, SECOND_FIRES, TURNS,
};

/// Each of its words stands in so few places that a row can name the place by a few words.
pub const TOTAL: &str = "specification adder systemprocess;
var total: integer;
state go;
initialize to go begin total := 0 end;
trans
from go to go provided total < 3 name tick: begin total := total + 1 end;
end.
";

/// Texts that run: what is replaced and by what, how often the transition then fires, and the last lines.
pub const FORMS_THAT_RUN: [(&str, &str, u32, &str); 92] = [
    ("go", "go", 3, DEADLOCK),
    ("go", "went", 3, DEADLOCK),
    // no guard, no label, both forms of a label
    ("provided total < 3 ", "", 10_000, TURNS),
    ("name tick: ", "", 3, DEADLOCK),
    ("to go begin", "to go name first: begin", 3, DEADLOCK),
    ("tick", "go", 3, DEADLOCK),
    ("tick", "maxint", 3, DEADLOCK),
    // more of each declaration, and what else may stand in it
    ("var total", "var other, total", 3, DEADLOCK),
    ("state go", "state go, went", 3, DEADLOCK),
    ("var", "timescale second;\nvar", 3, DEADLOCK),
    ("systemprocess", "systemactivity", 3, DEADLOCK),
    ("var", "default individual queue;\nvar", 3, DEADLOCK),
    ("var", "channel c(a, b); by a: m;\nvar", 3, DEADLOCK),
    ("var", "module m; end;\nvar", 3, DEADLOCK),
    (
        "initialize",
        "stateset always = [go];\ninitialize",
        3,
        DEADLOCK,
    ),
    // no statement, and more than one
    ("begin total := 0 end", "begin end", 0, GUARD_UNSET),
    ("0 end", "0; total := 1 end", 2, DEADLOCK),
    // other clauses, and in another order
    ("from go ", "", 3, DEADLOCK),
    ("to go provided", "provided", 3, DEADLOCK),
    ("to go provided", "to same provided", 3, DEADLOCK),
    ("from go to go", "to go from go", 3, DEADLOCK),
    ("from go", "any i: 1..2 do from go", 3, DEADLOCK),
    ("from go", "priority 1 from go", 3, DEADLOCK),
    (
        "end;\nend.",
        "end;\ntrans\nfrom go to go provided total = 3 begin total := 5 end;\nend.",
        3,
        SECOND_FIRES,
    ),
    (
        "end;\nend.",
        "end;\nprovided total = 3 begin total := 5 end;\nend.",
        3,
        SECOND_FIRES,
    ),
    // sums of one, two and more operands, numbers and names, on both sides
    ("total < 3", "total + 1 < 2 + 2", 3, DEADLOCK),
    ("total < 3", "total < total", 0, DEADLOCK),
    ("total < 3", "3 < total", 0, DEADLOCK),
    ("total < 3", "total < 3 + 4 + 5", 12, DEADLOCK),
    ("total < 3", "total + total < maxint", 10_000, TURNS),
    ("total + 1", "5", 1, DEADLOCK),
    ("total + 1", "1 + total", 3, DEADLOCK),
    ("total + 1", "total + total", 10_000, TURNS),
    ("total + 1", "maxint", 1, DEADLOCK),
    ("total + 1", "maxint + 0", 1, DEADLOCK),
    ("total + 1", "+ 1", 10_000, TURNS),
    ("total + 1", "total + 1 + 1", 2, DEADLOCK),
    ("total + 1", "(total + 1)", 3, DEADLOCK),
    // other operators
    ("<", "<=", 4, DEADLOCK),
    ("<", "<>", 3, DEADLOCK),
    ("<", ">", 0, DEADLOCK),
    ("<", "=", 0, DEADLOCK),
    ("+", "-", 10_000, TURNS),
    ("+", "*", 10_000, TURNS),
    // results beyond maxint
    ("total + 1", "maxint + 1", 0, FIRING_OVERFLOWS),
    ("total < 3", "total + maxint < 3", 0, DEADLOCK),
    ("total < 3", "1 + maxint < 3", 0, GUARD_OVERFLOWS),
    ("total < 3", "3 < maxint + 1", 0, GUARD_OVERFLOWS),
    // numbers
    (":= 0", ":= -1", 4, DEADLOCK),
    (":= 0", ":= +1", 2, DEADLOCK),
    (":= 0", ":= 9223372036854775807", 0, DEADLOCK),
    ("< 3", "< 9223372036854775807", 10_000, TURNS),
    (":= 0", ":= 00000000000000000000000000002", 1, DEADLOCK),
    // blanks, and none where tokens end without them
    (" ", "\t\r\n ", 3, DEADLOCK),
    (";\n", ";", 3, DEADLOCK),
    (" := 0 end", ":=0end", 3, DEADLOCK),
    ("total < 3 name tick: ", "total<3name tick:", 3, DEADLOCK),
    ("end.", "end \n . \t\r\n", 3, DEADLOCK),
    // comments
    ("end.", "end. {the end}", 3, DEADLOCK),
    ("trans", "{the only one} trans", 3, DEADLOCK),
    ("trans", "(* one } trans", 3, DEADLOCK),
    ("state", "{ a\n (* comment *) state", 3, DEADLOCK),
    (" ", " { } ", 3, DEADLOCK),
    ("end.", "end.\n(* two\nlines *) {}\n", 3, DEADLOCK),
    // letter case
    ("total <", "TOTAL <", 3, DEADLOCK),
    ("specification", "SpecificatioN", 3, DEADLOCK),
    ("integer", "INTEGER", 3, DEADLOCK),
    ("< 3", "< MaxInt", 10_000, TURNS),
    // names with digits and underscores, and names that differ from reserved words
    ("total", "t_1_", 3, DEADLOCK),
    ("total", "begin_1", 3, DEADLOCK),
    ("total", "ending", 3, DEADLOCK),
    // names that are the specification's, and specifications with the name of a required identifier
    ("adder", "integer", 3, DEADLOCK),
    ("go", "adder", 3, DEADLOCK),
    ("total", "adder", 3, DEADLOCK),
    ("total", "Adder", 3, DEADLOCK),
    // names that hide required identifiers
    ("go", "integer", 3, DEADLOCK),
    ("go", "boolean", 3, DEADLOCK),
    ("go", "char", 3, DEADLOCK),
    ("go", "true", 3, DEADLOCK),
    ("go", "false", 3, DEADLOCK),
    ("go", "maxint", 3, DEADLOCK),
    ("go", "abs", 3, DEADLOCK),
    ("go", "sqr", 3, DEADLOCK),
    ("go", "odd", 3, DEADLOCK),
    ("go", "succ", 3, DEADLOCK),
    ("go", "pred", 3, DEADLOCK),
    ("go", "ord", 3, DEADLOCK),
    ("go", "chr", 3, DEADLOCK),
    ("total", "boolean", 3, DEADLOCK),
    ("total", "Maxint", 3, DEADLOCK),
    ("total", "abs", 3, DEADLOCK),
    ("total", "chr", 3, DEADLOCK),
];

/// Texts that are refused: what is replaced, by what, and the line on err behind `estelle: `. The places of errors of
/// syntax are those of a recognizer of the grammar that was written for this table alone.
pub const FORMS_THAT_ARE_REFUSED: [(&str, &str, &str); 96] = [
    // the heading
    ("specification ", "", "syntax 1:1"),
    ("adder ", "", "syntax 1:15"),
    ("adder", "begin", "syntax 1:15"),
    ("systemprocess", "", "rule 10 5:1"),
    ("systemprocess;", "systemprocess", "syntax 2:1"),
    // the declarations
    ("var total: integer;\n", "", "rule 2 3:24"),
    ("var ", "", "syntax 2:1"),
    ("var total", "var", "syntax 2:4"),
    ("total: integer", "total integer", "syntax 2:11"),
    ("integer", "", "syntax 2:12"),
    ("integer", "boolean", "rule 40 4:33"),
    ("integer;", "integer", "syntax 3:1"),
    ("state go;\n", "", "rule 2 3:15"),
    ("state ", "", "syntax 3:3"),
    ("state go", "state", "syntax 3:6"),
    ("state go;", "state go", "syntax 4:1"),
    // the initialization
    ("initialize to go begin total := 0 end;\n", "", "rule 4 1:1"),
    ("initialize ", "", "syntax 4:1"),
    ("initialize to go", "initialize go", "syntax 4:12"),
    ("initialize to go", "initialize to", "syntax 4:15"),
    ("initialize to go", "initialize", "rule 4 1:1"),
    ("begin total := 0", "total := 0", "syntax 4:18"),
    ("begin total := 0", "begin := 0", "syntax 4:24"),
    (":= 0", "0", "syntax 4:30"),
    (":= 0", ":=", "syntax 4:33"),
    (":= 0", "= 0", "syntax 4:30"),
    (":= 0", ": = 0", "syntax 4:30"),
    ("0 end;", "0;", "syntax 5:1"),
    ("0 end;", "0 end", "syntax 5:1"),
    // the transition
    ("trans\n", "", "syntax 5:1"),
    ("from go", "from", "syntax 6:6"),
    ("to go provided", "to provided", "syntax 6:12"),
    ("provided total < 3", "provided", "syntax 6:24"),
    ("provided total < 3", "total < 3", "syntax 6:15"),
    ("total < 3", "total", "rule 40 6:24"),
    ("total < 3", "< 3", "syntax 6:24"),
    ("total < 3", "total <", "syntax 6:32"),
    ("total < 3", "total < 3 < 4", "syntax 6:34"),
    ("tick:", ":", "syntax 6:39"),
    ("tick:", "tick", "syntax 6:44"),
    ("name tick:", "tick:", "syntax 6:34"),
    ("name tick:", "name begin:", "syntax 6:39"),
    ("name tick:", "name tick: name tock:", "syntax 6:45"),
    ("total + 1", "", "syntax 6:61"),
    ("total + 1", "total +", "syntax 6:68"),
    ("total + 1 end;", "total + 1 end", "syntax 7:1"),
    // the end, and what stands behind it
    ("end;\nend.", "end;\n.", "syntax 7:1"),
    ("end.", "end", "syntax 8:1"),
    ("end.", "end;", "syntax 7:4"),
    ("end.", "end..", "syntax 7:4"),
    ("end.", "end.)", "syntax 7:4"),
    ("end.", "end.x", "text after end 7:5"),
    ("end.", "end.\nend.", "text after end 8:1"),
    ("end.", "end.\n\n1", "text after end 9:1"),
    // symbols, numbers and bytes
    ("<", "< >", "syntax 6:32"),
    ("+", "or", "rule 40 6:60"),
    (":= 0", ":= 0.5", "syntax 4:34"),
    (":= 0", ":= 0..5", "syntax 4:34"),
    (":= 0", ":= 'a'", "rule 40 4:33"),
    (":= 0", ":= 9223372036854775808", "bytes 4:33"),
    (
        ":= 0",
        ":= 99999999999999999999999999999999999999999999999999",
        "bytes 4:33",
    ),
    ("trans", "$trans", "bytes 5:1"),
    ("total", "to tal", "syntax 2:5"),
    ("total", "_total", "bytes 2:5"),
    ("total", "totäl", "bytes 2:8"),
    ("specification", "\u{0}specification", "bytes 1:1"),
    // names that are not declared
    ("total + 1", "other + 1", "rule 2 6:60"),
    ("total + 1", "total + other", "rule 2 6:68"),
    ("total < 3", "other < 3", "rule 2 6:24"),
    ("total < 3", "total < go", "rule 3 6:32"),
    ("total := 0", "other := 0", "rule 2 4:24"),
    ("total := 0", "maxint := 0", "rule 3 4:24"),
    ("total := total", "adder := total", "rule 2 6:51"),
    (":= 0", ":= go", "rule 3 4:33"),
    ("initialize to go", "initialize to went", "rule 2 4:15"),
    ("from go", "from went", "rule 2 6:6"),
    ("to go provided", "to went provided", "rule 2 6:12"),
    // names that clash
    ("go", "total", "rule 1 3:7"),
    ("go", "TOTAL", "rule 1 3:7"),
    // reserved words
    ("total", "queue", "syntax 2:5"),
    ("go", "nil", "syntax 3:7"),
    ("tick", "queue", "syntax 6:39"),
    // what other forms name is not declared
    ("var", "body b for m; end;\nvar", "rule 2 2:12"),
    ("var", "ip p: c(a);\nvar", "rule 2 2:7"),
    ("var", "modvar x: m;\nvar", "rule 2 2:11"),
    ("from go", "when p.m from go", "rule 2 6:6"),
    ("total + 1", "total; init x with b", "rule 2 6:72"),
    ("total + 1", "total; begin release x end", "rule 2 6:81"),
    (
        "total + 1",
        "total; if true then else connect p to q",
        "rule 2 6:93",
    ),
    (
        "total + 1",
        "total; while true do disconnect p",
        "rule 2 6:92",
    ),
    (
        "total + 1",
        "total; repeat attach p to x.q until true",
        "rule 2 6:81",
    ),
    (
        "total + 1",
        "total; for total := 1 to 2 do detach p",
        "rule 2 6:97",
    ),
    (
        "total + 1",
        "total; case 1 of 1: output p.m end",
        "rule 2 6:87",
    ),
    ("total := 0", "release x", "rule 2 4:32"),
    (
        "state",
        "procedure p; begin release x end;\nstate",
        "rule 2 3:28",
    ),
    // a delay whose names mean nothing
    ("from go", "delay(k, *) from go", "rule 2 6:7"),
];
