//! What Pascal in the counter comes to.

/// Counts down, so many calls deep.
const DOWN: &str = "procedure down(k: integer); begin if k > 1 then down(k - 1) end;";

/// Two functions that are evaluated to faults.
const FAULTY: &str = "var a: array [0..1] of integer;
function f: integer; begin f := 1 mod 0 end;
function g: integer; begin g := 1 div 0 end;";

/// What is declared, what is done where the counter stands at 0, and what then holds.
pub const HOLDS: [(&str, &str, &str); 44] = [
    // integers: a sign is that of the whole term
    ("", "", "-7 div 2 = -3"),
    ("", "", "(-7) div 2 = -3"),
    ("", "", "7 div (-2) = -3"),
    ("", "", "-7 mod 2 = -1"),
    ("", "", "(-7) mod 2 = 1"),
    ("", "", "2 + 3 * 4 - 10 div 3 = 11"),
    ("", "", "-maxint = -9223372036854775807"),
    ("", "", "abs(-5) + sqr(-3) = 14"),
    ("", "", "odd(7) and not odd(8)"),
    ("", "", "(succ(n) = 1) and (pred(n) = -1)"),
    ("", "", "(ord('a') = 97) and (chr(98) = 'b')"),
    (
        "const two = 2; minus = -two; letter = 'c';",
        "",
        "(minus = -2) and (letter > 'b')",
    ),
    (
        "type digit = 0..9; var d: digit;",
        "d := 4; d := d + 5",
        "d = 9",
    ),
    // the right side of `and` and `or` is evaluated only where it decides
    ("", "", "not ((n = 1) and (1 div n = 1))"),
    ("", "", "(n = 0) or (1 div n = 1)"),
    // sets
    (
        "var s: set of 0..9;",
        "s := [1, 3..4] * [1..4] + [9] - [3]",
        "s = [1, 4, 9]",
    ),
    ("var s: set of 0..9;", "s := [5..2]", "s = []"),
    ("", "", "(3 in [1..4]) and not (300 in [1..4])"),
    (
        "",
        "",
        "([1] <= [1, 2]) and not ([1, 2] <= [1]) and ([1, 2] >= [2])",
    ),
    // enumerations, arrays and records
    (
        "type color = (red, green, blue); var c: color;",
        "c := succ(red)",
        "(c = green) and (pred(blue) = c) and (ord(blue) = 2)",
    ),
    (
        "type t = array [1..2, boolean] of char; var a, b: t;",
        "a[1, true] := 'x'; a[2][false] := 'y'; b := a",
        "(b[1][true] = 'x') and (b[2, false] = 'y')",
    ),
    (
        "var r, q: record a, b: integer; c: record d: char end end;",
        "r.a := 1; r.c.d := 'z'; q := r",
        "(q.a = 1) and (q.c.d = 'z')",
    ),
    // if, case and loops
    (
        "var m: integer;",
        "m := 0; if n = 0 then if n = 1 then m := 5 else m := 7",
        "m = 7",
    ),
    (
        "var m: integer;",
        "case n + 1 of 0, 2: m := 1; 1: m := 2; end",
        "m = 2",
    ),
    (
        "var m: integer;",
        "m := 0; while m < 5 do m := m + 1; repeat m := m * 2 until m > 10",
        "m = 20",
    ),
    (
        "var m: integer;",
        "m := 0; repeat m := m + 1 until true",
        "m = 1",
    ),
    (
        "var i, m: integer;",
        "m := 0; for i := 3 downto 1 do m := m * 10 + i",
        "m = 321",
    ),
    (
        "var i, m: integer;",
        "m := 0; for i := 2 to 1 do m := 1",
        "m = 0",
    ),
    // the loop counts by itself, and its bounds are evaluated once
    (
        "var i, m: integer;",
        "m := 0; for i := 1 to 3 do begin m := m + i; i := 7 end",
        "m = 6",
    ),
    (
        "var i, m, last: integer;",
        "m := 0; last := 3; for i := 1 to last do begin last := 9; m := m + 1 end",
        "m = 3",
    ),
    (
        "var i, m: integer;",
        "m := 0; i := 2; for i := i to i + 1 do m := m + i",
        "m = 5",
    ),
    // parameters
    (
        "procedure change(x: integer); begin x := 9 end;",
        "change(n)",
        "n = 0",
    ),
    (
        "procedure change(var x: integer); begin x := 9 end;",
        "change(n)",
        "n = 9",
    ),
    (
        "procedure both(var x: integer; var y: integer); begin x := 1; y := 2 end;",
        "both(n, n)",
        "n = 2",
    ),
    (
        "var m: integer; procedure both(var x: integer; var y: integer); begin x := 1; y := 2; m := x end;",
        "both(n, n)",
        "m = 2",
    ),
    (
        "var i: integer; a: array [0..1] of integer; procedure put(var x: integer); begin i := 1; x := 5 end;",
        "i := 0; a[0] := 7; a[1] := 8; put(a[i])",
        "(a[0] = 5) and (a[1] = 8)",
    ),
    (
        "var r: record a: integer end; procedure outer(var x: integer); begin inner(x) end; procedure inner(var y: integer); begin y := 4 end;",
        "outer(r.a)",
        "r.a = 4",
    ),
    // calls
    (DOWN, "down(200)", "true"),
    (
        "function factorial(k: integer): integer; begin if k < 2 then factorial := 1 else factorial := k * factorial(k - 1) end;",
        "",
        "factorial(20) = 2432902008176640000",
    ),
    (
        "function even(k: integer): boolean; begin if k = 0 then even := true else even := uneven(k - 1) end; function uneven(k: integer): boolean; begin if k = 0 then uneven := false else uneven := even(k - 1) end;",
        "",
        "even(10) and not even(7)",
    ),
    (
        "function two: integer; begin two := 1; two := 2 end;",
        "",
        "two = 2",
    ),
    (
        "procedure hides; var n: integer; begin n := 9 end;",
        "hides",
        "n = 0",
    ),
    (
        "var m: integer; function reads: integer; begin reads := m end;",
        "m := 6; n := reads",
        "n = 6",
    ),
    (
        "procedure local; var k: integer; begin k := 1 end; procedure again; var k: integer; begin local; k := 2; local; n := k end;",
        "again",
        "n = 2",
    ),
];

/// What is declared, what is done where the counter stands at 0, and the fault that comes first.
pub const FAULTS: [(&str, &str, &str); 36] = [
    ("", "n := 1 div n", "DivideByZero"),
    ("", "n := 1 mod n", "ModNotPositive"),
    ("", "n := 1 mod (-2)", "ModNotPositive"),
    ("", "n := maxint + 1", "Overflow"),
    ("", "n := -maxint - 1", "Overflow"),
    ("", "n := maxint * 2", "Overflow"),
    ("", "n := sqr(maxint)", "Overflow"),
    ("", "n := succ(maxint)", "Overflow"),
    ("", "n := pred(-maxint)", "Overflow"),
    ("var t: 0..1;", "t := n + 2", "Range"),
    (
        "type color = (red, green); var c: color;",
        "c := succ(green)",
        "Range",
    ),
    ("var c: char;", "c := chr(n + 256)", "Range"),
    ("var s: set of 0..9;", "s := [n + 10]", "Range"),
    ("var s: set of 0..255;", "s := [n + 256]", "Range"),
    ("var a: array [1..2] of integer;", "a[n] := 1", "Index"),
    ("", "case n of 1: end", "NoCase"),
    ("", "while true do", "StepLimit"),
    ("procedure p; begin p end;", "p", "CallDepth"),
    (DOWN, "down(201)", "CallDepth"),
    // what has no value
    ("var u: integer;", "n := u", "Unset"),
    ("var u: array [0..1] of integer;", "n := u[n]", "Unset"),
    (
        "var r, q: record a, b: integer end;",
        "r.a := 1; q := r; n := q.b",
        "Unset",
    ),
    ("var s: set of 0..9;", "if n in s then n := 3", "Unset"),
    ("function none: integer; begin end;", "n := none", "Unset"),
    (
        "var i: integer;",
        "i := 5; for i := 2 to 1 do; n := i",
        "Unset",
    ),
    ("var i: integer;", "for i := 1 to 2 do; n := i", "Unset"),
    (
        "procedure p; var k: integer; begin n := k end;",
        "p",
        "Unset",
    ),
    // a right side that decides is evaluated, and a left side always
    (
        "",
        "if (n = 0) and (1 div n = 1) then n := 3",
        "DivideByZero",
    ),
    (
        "",
        "if (n = 1) or (1 div n = 1) then n := 3",
        "DivideByZero",
    ),
    (
        "",
        "if (1 div n = 1) and (n = 1) then n := 3",
        "DivideByZero",
    ),
    (
        "",
        "if (1 div n = 1) or (n = 0) then n := 3",
        "DivideByZero",
    ),
    // indices of the left side before the right side, each tested at once; arguments from left to right
    (FAULTY, "a[f] := g", "ModNotPositive"),
    (FAULTY, "a[7] := g", "Index"),
    (FAULTY, "n := g + f", "DivideByZero"),
    (
        "procedure p(a, b: integer); begin end;",
        "p(1 mod n, 1 div n)",
        "ModNotPositive",
    ),
    (
        "type bit = 0..1; procedure p(a: bit; b: integer); begin end;",
        "p(n + 2, 1 div n)",
        "Range",
    ),
];
