//! Listings against texts.

use crate::units::{Table, body, instrs, one, unit};
use body_code::{Code, CodeUnit, Heading, Instr, Instrs, Local, Shared, listing};
use estelle_tree::{Items, Word};
use pascal_values::{Shape, Value, span};
use std::alloc::{AllocError, Global};
use std::test::Fail;

/// A local, which no listing shows.
fn temporary(alloc: Global) -> Result<Shared<Local>, AllocError> {
    let mut locals = Items::new(alloc);
    locals.push(Local {
        shape: Shape::Int { low: 0, high: 9 },
        by_ref: true,
    })?;
    Shared::of(alloc, locals)
}

/// The block of the counter, with a local, and an end that it may share.
fn counted(alloc: Global) -> Result<CodeUnit, AllocError> {
    let end = Shared::of(alloc, one(alloc, Instr::Ret)?)?;
    Ok(CodeUnit {
        heading: Heading::Block { trans: 1 },
        locals: temporary(alloc)?,
        instrs: Instrs::before(instrs(alloc, Table::OneMore)?, end.share()?),
    })
}

const COUNTER: &str = "body 0 count
initialize 0
0 var 0
1 push 0
2 store 0
3 ret
guard 1
0 var 0
1 load
2 push 3
3 lt
4 ret
block 1
0 var 0
1 var 0
2 load
3 push 1
4 add
5 store 0
6 ret
";

// The headings of the counter, with addresses that count from 0 in each unit and go on where the end is shared.
#[test]
fn listing_of_the_counter(rt: HostRuntime) -> Result<(), Fail> {
    let alloc = rt.alloc();
    let mut code = Code::none(alloc);
    code.push(body(alloc, 0, b"count")?)?;
    code.push(unit(Heading::Initialize, instrs(alloc, Table::Zeroed)?))?;
    code.push(unit(
        Heading::Guard { trans: 1 },
        instrs(alloc, Table::BelowThree)?,
    ))?;
    code.push(counted(alloc)?)?;
    let text = listing(alloc, &code)?;
    assert!(rt; text.items() == COUNTER.as_bytes());
    Ok(())
}

/// Each opcode, and each form of an operand.
fn all(alloc: Global) -> Result<Items<Instr>, AllocError> {
    let mut all = instrs(alloc, Table::All)?;
    all.push(Instr::Push(Value::Set(span(alloc, 3, 5)?)))?;
    Ok(all)
}

const ALL: &str = "routine 2 swap
0 push -5
1 push true
2 push 'x'
3 push #2
4 var 7
5 loc 10
6 ref 2
7 exp 1 0
8 field 3
9 index -1 7
10 load
11 store 4
12 fit 5
13 neg
14 add
15 sub
16 mul
17 div
18 mod
19 abs
20 sqr
21 odd
22 eq
23 ne
24 lt
25 le
26 gt
27 ge
28 not
29 empty
30 one
31 span
32 unite
33 meet
34 minus
35 has
36 succ
37 pred
38 ord
39 chr
40 jump 1
41 jfalse 2
42 jtrue 3
43 turn
44 call 1 0 2
45 ret
46 fail NoCase
47 blank
48 init 0 2 1
49 release 3
50 connect 0 1.2
51 disconnect 4
52 disconnect 1.2
53 disconnect 5
54 attach 3 1.2
55 detach 3
56 output 0 4 2
57 push [3,4,5]
delay 2
0 ret
";

// The words of all opcodes, and each form of an operand.
#[test]
fn listing_of_all_opcodes(rt: HostRuntime) -> Result<(), Fail> {
    let alloc = rt.alloc();
    let name = Word::of(alloc, b"swap")?;
    let mut code = Code::none(alloc);
    code.push(unit(Heading::Routine { routine: 2, name }, all(alloc)?))?;
    code.push(unit(Heading::Delay { trans: 2 }, one(alloc, Instr::Ret)?))?;
    let text = listing(alloc, &code)?;
    assert!(rt; text.items() == ALL.as_bytes());
    Ok(())
}
