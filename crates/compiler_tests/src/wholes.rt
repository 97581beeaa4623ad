//! Whole specifications: headings in order, clauses, modules and their links.

use crate::compiled::is_compiled_to;
use std::test::Fail;

/// A text, and the listing of its code.
type Row = (&'static str, &'static str);

const ROWS: [Row; 3] = [
    // The two values of a delay are left one above the other; a name of `any` is a constant in each transition.
    (
        "specification w systemprocess; var n: integer; state go;
initialize to go begin n := 0 end;
trans
from go to go provided n < 3 delay(n, n + 1) begin end;
trans
any i: 1..2 do from go to go provided n = i begin n := i end;
end.",
        "body 0 w
initialize 0
0 var 0
1 push 0
2 store 0
3 ret
guard 1
0 var 0
1 load
2 push 3
3 lt
4 ret
delay 1
0 var 0
1 load
2 var 0
3 load
4 push 1
5 add
6 ret
block 1
0 ret
guard 2
0 var 0
1 load
2 push 1
3 eq
4 ret
block 2
0 var 0
1 push 1
2 store 0
3 ret
guard 3
0 var 0
1 load
2 push 2
3 eq
4 ret
block 3
0 var 0
1 push 2
2 store 0
3 ret
",
    ),
    // A client and a server: modules are made and connected, and interactions have their numbers in the channel.
    (
        "specification request;
default individual queue;
channel line(client, server);
by client: ask(n: integer);
by server: answer(n: integer);
module asker systemprocess; ip l: line(client); end;
module answerer systemprocess; ip l: line(server); end;
body asking for asker;
var asked: integer;
state idle, waiting, done;
initialize to idle begin asked := 0 end;
trans
from idle to waiting name first:
  begin asked := 1; output l.ask(asked) end;
from waiting
  to done when l.answer name got: begin end;
  to same delay(2) name again:
    begin asked := asked + 1; output l.ask(asked) end;
end;
body answering for answerer;
var heard: integer;
initialize begin heard := 0 end;
trans
when l.ask name reply:
  begin
    heard := heard + 1;
    if heard > 1 then output l.answer(n)
  end;
end;
modvar a: asker; b: answerer;
initialize begin
  init a with asking; init b with answering;
  connect a.l to b.l
end;
end.",
        "body 0 request
initialize 0
0 init 0 1 0
1 init 1 2 0
2 connect 0.0 1.0
3 ret
body 1 asking
initialize 0
0 var 0
1 push 0
2 store 0
3 ret
guard 1
0 push true
1 ret
block 1
0 var 0
1 push 1
2 store 0
3 var 0
4 load
5 fit 0
6 output 0 0 1
7 ret
guard 2
0 push true
1 ret
block 2
0 ret
guard 3
0 push true
1 ret
delay 3
0 push 2
1 ret
block 3
0 var 0
1 var 0
2 load
3 push 1
4 add
5 store 0
6 var 0
7 load
8 fit 0
9 output 0 0 1
10 ret
body 2 answering
initialize 0
0 var 0
1 push 0
2 store 0
3 ret
guard 1
0 push true
1 ret
block 1
0 var 0
1 var 0
2 load
3 push 1
4 add
5 store 0
6 var 0
7 load
8 push 1
9 gt
10 jfalse 16
11 loc 0
12 load
13 fit 0
14 output 0 1 1
15 jump 16
16 ret
",
    ),
    // A child with a parameter and an export, attached and released; a body without a part `initialize`.
    (
        "specification m;
channel c(one, other);
by one: note(v: boolean);
module child process (size: integer); ip p: c(one); export seen, most: integer; end;
module outer systemprocess; ip up: c(one); end;
body inner for child;
end;
body mid for outer;
modvar k: child;
state go;
initialize to go begin init k with inner(7) end;
trans
from go to go provided k.most > 0
begin
  attach up to k.p; detach up; disconnect k; disconnect k.p;
  k.most := 1; release k
end;
end;
modvar o: outer;
initialize begin init o with mid end;
end.",
        "body 0 m
initialize 0
0 init 0 2 0
1 ret
body 1 inner
initialize 0
0 ret
body 2 mid
initialize 0
0 push 7
1 fit 0
2 init 0 1 1
3 ret
guard 1
0 exp 0 1
1 load
2 push 0
3 gt
4 ret
block 1
0 attach 0 0.0
1 detach 0
2 disconnect 0
3 disconnect 0.0
4 exp 0 1
5 push 1
6 store 0
7 release 0
8 ret
",
    ),
];

// Headings, clauses, and the statements of Estelle.
#[test]
fn specifications_are_compiled(rt: HostRuntime) -> Result<(), Fail> {
    for (text, wanted) in &ROWS {
        let same = is_compiled_to(rt.alloc(), text.as_bytes(), wanted.as_bytes());
        assert!(rt; same);
    }
    Ok(())
}
