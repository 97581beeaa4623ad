//! Blocks of one process, by what is declared before its states.

use crate::compiled::is_compiled_to;
use std::alloc::{AllocError, Global};
use std::test::Fail;

/// What is declared, the statements of the block, and the lines of the routines and of the block.
type Row = (&'static str, &'static str, &'static str, &'static str);

const ROWS: [Row; 14] = [
    // A loop enters its test first; the unit is taken directly before the jump back.
    (
        "var n: integer;",
        "while n < 2 do n := n + 1",
        "",
        "0 jump 7
1 var 0
2 var 0
3 load
4 push 1
5 add
6 store 0
7 var 0
8 load
9 push 2
10 lt
11 jfalse 14
12 turn
13 jump 1
14 ret
",
    ),
    (
        "var n: integer;",
        "repeat n := 1 until n > 0",
        "",
        "0 turn
1 var 0
2 push 1
3 store 0
4 var 0
5 load
6 push 0
7 gt
8 jtrue 11
9 turn
10 jump 1
11 ret
",
    ),
    // The right operand of `or` and of `and` stands behind a jump.
    (
        "var n: integer; b: boolean;",
        "b := (n < 1) or (n > 2) and b",
        "",
        "0 var 1
1 var 0
2 load
3 push 1
4 lt
5 jfalse 8
6 push true
7 jump 25
8 var 0
9 load
10 push 2
11 gt
12 jfalse 20
13 var 1
14 load
15 jfalse 18
16 push true
17 jump 19
18 push false
19 jump 21
20 push false
21 jfalse 24
22 push true
23 jump 25
24 push false
25 store 1
26 ret
",
    ),
    (
        "var n: integer;",
        "if n < 1 then n := 1 else n := 2",
        "",
        "0 var 0
1 load
2 push 1
3 lt
4 jfalse 9
5 var 0
6 push 1
7 store 0
8 jump 12
9 var 0
10 push 2
11 store 0
12 ret
",
    ),
    // The selector is kept in a temporary; the last alternative faults.
    (
        "var n: integer;",
        "case n of 1: n := 2; 3, 4: n := 5 end",
        "",
        "0 loc 0
1 var 0
2 load
3 ord
4 store 0
5 loc 0
6 load
7 push 1
8 eq
9 jfalse 14
10 var 0
11 push 2
12 store 0
13 jump 31
14 loc 0
15 load
16 push 3
17 eq
18 jfalse 21
19 push true
20 jump 25
21 loc 0
22 load
23 push 4
24 eq
25 jfalse 30
26 var 0
27 push 5
28 store 0
29 jump 31
30 fail NoCase
31 ret
",
    ),
    // The value of the turn and the last one are temporaries; the limit is tested before the next value.
    (
        "var n, m: integer;",
        "for n := 1 to 3 do m := n",
        "",
        "0 loc 0
1 push 1
2 store 0
3 loc 1
4 push 3
5 store 0
6 loc 0
7 load
8 loc 1
9 load
10 le
11 jfalse 34
12 turn
13 var 0
14 loc 0
15 load
16 store 0
17 var 1
18 var 0
19 load
20 store 0
21 loc 0
22 load
23 loc 1
24 load
25 lt
26 jfalse 34
27 loc 0
28 loc 0
29 load
30 succ
31 store 0
32 turn
33 jump 13
34 var 0
35 blank
36 ret
",
    ),
    // Members are united one after another. The set's type has the number 3, behind the required ones.
    (
        "var s: set of 0..9; b: boolean;",
        "s := [1, 3..5]; b := 4 in s",
        "",
        "0 var 0
1 empty
2 push 1
3 one
4 unite
5 push 3
6 ord
7 push 5
8 span
9 unite
10 store 3
11 var 1
12 push 4
13 var 0
14 load
15 has
16 store 1
17 ret
",
    ),
    // The left side's index comes before the right side. The array has the number 3, its index 4, the item 5.
    (
        "var a: array [1..3] of 0..7;",
        "a[2] := a[1]",
        "",
        "0 var 0
1 push 2
2 ord
3 index 1 3
4 var 0
5 push 1
6 ord
7 index 1 3
8 load
9 store 5
10 ret
",
    ),
    (
        "type p = record x, y: integer end; var v, w: p;",
        "v.y := w.x; v := w",
        "",
        "0 var 0
1 field 1
2 var 1
3 field 0
4 load
5 store 0
6 var 0
7 var 1
8 load
9 store 3
10 ret
",
    ),
    // A value of an enumeration is tested against its type.
    (
        "var c: (red, green, blue);",
        "c := succ(c)",
        "",
        "0 var 0
1 var 0
2 load
3 succ
4 fit 3
5 store 3
6 ret
",
    ),
    (
        "var n: integer;",
        "n := -n div 2 - abs(n) * 3 mod sqr(2)",
        "",
        "0 var 0
1 var 0
2 load
3 push 2
4 div
5 neg
6 var 0
7 load
8 abs
9 push 3
10 mul
11 push 2
12 sqr
13 mod
14 sub
15 store 0
16 ret
",
    ),
    // A `var` parameter is given a place; a value is tested before the next argument.
    (
        "var n: integer; procedure p(var a: integer; b: integer); begin a := b end;",
        "p(n, 3)",
        "routine 0 p
0 ref 0
1 loc 1
2 load
3 store 0
4 ret
",
        "0 var 0
1 push 3
2 fit 0
3 call 0 0 2
4 ret
",
    ),
    // A function loads its result at last.
    (
        "var n: integer; function f(x: integer): integer; var y: integer; begin y := x; f := y + 1 end;",
        "n := f(n)",
        "routine 0 f
0 loc 1
1 loc 0
2 load
3 store 0
4 loc 2
5 loc 1
6 load
7 push 1
8 add
9 store 0
10 loc 2
11 load
12 ret
",
        "0 var 0
1 var 0
2 load
3 fit 0
4 call 0 0 1
5 store 0
6 ret
",
    ),
    (
        "",
        "",
        "",
        "0 ret
",
    ),
];

/// The text of a process with such a block, and the listing that is wanted of it.
fn whole(alloc: Global, row: &Row) -> Result<(Vec<u8>, Vec<u8>), AllocError> {
    let (declared, block, routines, lines) = *row;
    let text = format!(in alloc;
        "specification t systemprocess; {declared} state go; initialize to go begin end; trans from go to go begin {block} end; end."
    )?;
    let wanted = format!(in alloc;
        "body 0 t\n{routines}initialize 0\n0 ret\nguard 1\n0 push true\n1 ret\nblock 1\n{lines}"
    )?;
    Ok((text.into_bytes(), wanted.into_bytes()))
}

fn is_so(alloc: Global, row: &Row) -> Result<bool, AllocError> {
    let (text, wanted) = whole(alloc, row)?;
    Ok(is_compiled_to(alloc, &text, &wanted))
}

// Each statement and kind of operand.
#[test]
fn blocks_are_compiled(rt: HostRuntime) -> Result<(), Fail> {
    for row in &ROWS {
        let same = is_so(rt.alloc(), row)?;
        assert!(rt; same);
    }
    Ok(())
}
