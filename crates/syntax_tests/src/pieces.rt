//! Pieces of Pascal: where expressions, types, statements and routines end, and where they are refused.

use Form::{Expression, Routine, Statements, Type};
use Place::{At, Behind};
use pascal_parser::{SyntaxError, expression, routine, statements, type_expr};
use std::alloc::Global;
use std::test::Fail;
use test_texts::tokens_of;

/// The calls.
#[derive(Clone, Copy)]
enum Form {
    Expression,
    Type,
    Statements,
    Routine,
}

/// The place that is answered, in tokens.
#[derive(Clone, Copy, PartialEq)]
enum Place {
    /// Behind the node.
    Behind(u32),
    /// No node is answered.
    At(u32),
}

fn place_of<T: Drop>(answer: Result<(T, u32), SyntaxError>) -> Option<Place> {
    match answer {
        Ok((_, to)) => Some(Behind(to)),
        Err(SyntaxError::At(at)) => Some(At(at)),
        Err(SyntaxError::Memory) => None,
    }
}

#[tactic(auto, unfolding(estelle_tree::specs::Spells::max_nesting))]
fn answer(alloc: Global, form: Form, text: &[u8], at: u32, depth: u32) -> Option<Place> {
    let found = tokens_of(alloc, text)?;
    let tokens = found.items();
    if tokens.len() > 4_000_000 || at as usize > tokens.len() || depth > 200 {
        return None;
    }
    match form {
        Expression => place_of(expression(alloc, tokens, at, depth)),
        Type => place_of(type_expr(alloc, tokens, at, depth)),
        Statements => place_of(statements(alloc, tokens, at, depth)),
        Routine => place_of(routine(alloc, tokens, at, depth)),
    }
}

/// A form; a text, and the token at which the piece begins; how many levels of nesting are open there; and what
/// is answered.
const PIECES: [(Form, &str, u32, u32, Place); 117] = [
    // expressions
    (Expression, "a-b*c", 0, 200, Behind(5)),
    (Expression, "a=b=c", 0, 200, Behind(3)),
    (Expression, "a..b", 0, 200, Behind(1)),
    (Expression, "ab", 0, 200, Behind(1)),
    (Expression, "-a in b;", 0, 200, Behind(4)),
    (Expression, "not a=b", 0, 199, Behind(4)),
    (Expression, "not not (a)", 0, 197, Behind(5)),
    (Expression, "[]", 0, 199, Behind(2)),
    (Expression, "[a..b,'!']", 0, 199, Behind(7)),
    (Expression, "a[1,2].b[3]", 0, 199, Behind(11)),
    (Expression, "f(a,b)(c)", 0, 199, Behind(6)),
    (Expression, "f(a).b", 0, 199, Behind(4)),
    (Expression, ";a", 0, 200, At(0)),
    (Expression, "*a", 0, 200, At(0)),
    (Expression, "a+-b", 0, 200, At(2)),
    (Expression, "a+;", 0, 200, At(2)),
    (Expression, "not -a", 0, 199, At(1)),
    (Expression, "f()", 0, 199, At(2)),
    (Expression, "f(a;b)", 0, 199, At(3)),
    (Expression, "(a", 0, 199, At(2)),
    (Expression, "(a,b)", 0, 199, At(2)),
    (Expression, "a[]", 0, 199, At(2)),
    (Expression, "a.1", 0, 200, At(2)),
    (Expression, "[a,]", 0, 199, At(3)),
    (Expression, "[a..b..c]", 0, 199, At(4)),
    (Expression, "1+f(a)", 0, 200, Behind(3)),
    (Expression, "1+a.b[2]", 0, 200, Behind(5)),
    (Expression, "(f(a))", 0, 199, At(2)),
    (Expression, "(not [a])", 0, 198, At(2)),
    (Expression, "a + b )", 0, 0, Behind(3)),
    (Expression, "( a + b )", 1, 1, Behind(4)),
    (Expression, "a + )", 0, 0, At(2)),
    (Expression, "a", 1, 0, At(1)),
    (Expression, "a [ 1 ]", 0, 199, Behind(4)),
    (Expression, "a [ 1 ]", 0, 200, Behind(1)),
    (Expression, "not f ( 1 )", 0, 199, Behind(2)),
    (Expression, "( a )", 0, 200, At(0)),
    // types
    (Type, "end", 0, 191, At(0)),
    (Type, "packed a", 0, 191, At(1)),
    (Type, "- a end", 0, 191, At(2)),
    (Type, "1 , 2", 0, 191, At(1)),
    (Type, "+ 'x' .. 'y'", 0, 191, At(1)),
    (Type, "( a , )", 0, 191, At(3)),
    (Type, "array [ ] of a", 0, 191, At(2)),
    (Type, "array [ 1 .. 2 , ] of a", 0, 191, At(6)),
    (Type, "set of set of a", 0, 191, At(2)),
    (Type, "record end", 0, 191, At(1)),
    (Type, "record a : b ; ; end", 0, 191, At(5)),
    (Type, "set of a", 0, 200, At(0)),
    (Type, "packed array [ a ] of b", 0, 200, At(1)),
    (
        Type,
        "record a : packed record b : c end end",
        0,
        199,
        At(4),
    ),
    (Type, "set of a .. b ;", 0, 199, Behind(5)),
    (Type, "a .. ;", 0, 0, At(2)),
    (Type, "packed array", 0, 200, At(1)),
    // statements
    (Statements, "end", 0, 200, Behind(0)),
    (Statements, "; ; until", 0, 200, Behind(2)),
    (Statements, "a := 1", 0, 200, Behind(3)),
    (Statements, "a . b := 1 ; c [ 1 ] := d", 0, 199, Behind(12)),
    (Statements, "c [ 1 ] := d", 0, 200, Behind(1)),
    (Statements, "p ; p ( 1 ) ; p ( 1 , 2 )", 0, 200, Behind(13)),
    (Statements, "p ( )", 0, 200, At(2)),
    (Statements, "p q", 0, 200, Behind(1)),
    (Statements, "a := ;", 0, 200, At(2)),
    (Statements, "begin p ; end ;", 0, 199, Behind(5)),
    (Statements, "begin end", 0, 200, Behind(0)),
    (Statements, "begin begin end end", 0, 199, At(1)),
    (Statements, "if a then", 0, 199, Behind(3)),
    (Statements, "if a then end", 0, 199, Behind(3)),
    (Statements, "if a then else else", 0, 199, Behind(4)),
    (Statements, "if a then p else q ; r", 0, 199, Behind(8)),
    (Statements, "if ( a ) then p", 0, 199, At(1)),
    (Statements, "if ( a ) then p", 0, 198, Behind(6)),
    (Statements, "if a do p", 0, 199, At(2)),
    (Statements, "while a do while b do p", 0, 198, Behind(7)),
    (Statements, "while a do while b do p", 0, 199, Behind(3)),
    (Statements, "while a then", 0, 199, At(2)),
    (Statements, "repeat p ; until a", 0, 199, Behind(5)),
    (Statements, "repeat repeat until a until b", 0, 199, At(1)),
    (Statements, "repeat end", 0, 199, At(1)),
    (Statements, "for i := 1 to 2 do p", 0, 199, Behind(8)),
    (Statements, "for i := 2 downto 1 do p", 0, 199, Behind(8)),
    (Statements, "for i := 1 do p", 0, 199, At(4)),
    (Statements, "for i . j := 1 to 2 do p", 0, 199, At(2)),
    (Statements, "case a of 1 : p end", 0, 199, Behind(7)),
    (
        Statements,
        "case a of 1 , 2 : p ; b : ; end",
        0,
        199,
        Behind(13),
    ),
    (Statements, "case a of 1 : p ; ; end", 0, 199, At(7)),
    (Statements, "case a of end", 0, 199, At(3)),
    (Statements, "case a of 1 : begin end end", 0, 199, At(5)),
    (
        Statements,
        "init x with b ; init x with b ( 1 , 2 )",
        0,
        200,
        Behind(14),
    ),
    (Statements, "init x b", 0, 200, At(2)),
    (
        Statements,
        "release x ; detach p ; disconnect p ; disconnect x . p",
        0,
        200,
        Behind(13),
    ),
    (
        Statements,
        "connect p to x . q ; attach p to x . q",
        0,
        200,
        Behind(13),
    ),
    (Statements, "attach p to x", 0, 200, At(4)),
    (
        Statements,
        "output p . m ; output p . m ( f ( 1 ) )",
        0,
        199,
        Behind(15),
    ),
    (Statements, "output p . m ( f ( 1 ) )", 0, 200, At(6)),
    (Statements, "output p", 0, 200, At(2)),
    (Statements, "a := 1 ; end", 0, 0, Behind(4)),
    (Statements, "end", 0, 0, Behind(0)),
    (Statements, "a := ;", 0, 0, At(2)),
    (Statements, "x ; begin end", 0, 200, Behind(2)),
    (Statements, "if a then begin end", 0, 199, Behind(3)),
    (Statements, "a [ 1 ] := 2", 0, 200, Behind(1)),
    (Statements, "a . b [ 1 ] := 2", 0, 200, At(3)),
    // routines
    (Routine, "procedure p ; begin end ; x", 0, 199, Behind(6)),
    (Routine, "procedure p ; begin end ;", 0, 200, At(3)),
    (Routine, "procedure p : t ; begin end ;", 0, 199, At(2)),
    (
        Routine,
        "procedure p ( a : t ; var b : t ) ; begin end ;",
        0,
        199,
        Behind(16),
    ),
    (
        Routine,
        "function f : t ; begin f := 1 end ;",
        0,
        199,
        Behind(11),
    ),
    (Routine, "function f ; begin end ;", 0, 199, At(2)),
    (
        Routine,
        "function f ( a : t ) : t ; const c = 1 ; d = 2 ; var e : t ; begin end ;",
        0,
        199,
        Behind(27),
    ),
    (
        Routine,
        "function f : t ; var a : array [ t ] of t ; begin end ;",
        0,
        199,
        Behind(18),
    ),
    (Routine, "function f : t ; begin end", 0, 199, At(7)),
    (Routine, "procedure p ; procedure q ;", 0, 199, At(3)),
    (
        Routine,
        "procedure p ; begin begin end end ;",
        0,
        199,
        At(4),
    ),
    (Routine, "begin end ;", 0, 199, At(0)),
    (Routine, "x function f : t ; begin end", 1, 0, At(8)),
    (Routine, "x", 1, 0, At(1)),
];

// Where a piece ends that a node spells, and which token is refused where none goes on: also where a shorter one is
// a node, and where what comes next would open a level too many.
#[test]
fn ends_and_refusals(rt: HostRuntime) -> Result<(), Fail> {
    for (form, text, at, depth, wanted) in &PIECES {
        let found = answer(rt.alloc(), *form, text.as_bytes(), *at, *depth);
        assert!(rt; found == Some(*wanted), "{text}");
    }
    Ok(())
}

/// So many of these texts, one behind the other, and one more text.
fn many(alloc: Global, count: u32, text: &str, last: &str) -> Result<Vec<u8>, Fail> {
    let mut all = Vec::new(alloc);
    for _ in 0..count {
        all.extend_from_slice(text.as_bytes())?;
    }
    all.extend_from_slice(last.as_bytes())?;
    Ok(all)
}

/// What opens a level and what stands behind all of them; the answer where 200 levels open; and the answer where one more
/// would, or so many.
const LEVELS: [(Form, &str, &str, Place, Place, u32); 13] = [
    (Expression, "(", ";", At(200), At(200), 131_072),
    (Expression, "not ", ";", At(200), At(200), 65_536),
    (Expression, "[", ";", At(200), At(200), 1_000),
    (Expression, "f(", ";", At(400), At(401), 1_000),
    (Expression, "f[", ";", At(400), At(401), 1_000),
    (Type, "record a: ", "b", At(601), At(600), 1_000),
    (
        Type,
        "packed array [a] of ",
        "b",
        Behind(1201),
        At(1201),
        1_000,
    ),
    (Statements, "begin ", "x 1", At(201), At(200), 174_763),
    (
        Statements,
        "if a then ",
        "x 1",
        Behind(601),
        Behind(600),
        1_000,
    ),
    (
        Statements,
        "while a do ",
        "x 1",
        Behind(601),
        Behind(600),
        1_000,
    ),
    (Statements, "repeat ", "x 1", At(201), At(200), 1_000),
    (
        Statements,
        "for i := 1 to 2 do ",
        "x 1",
        Behind(1401),
        Behind(1400),
        1_000,
    ),
    (
        Statements,
        "case a of 1: ",
        "x 1",
        At(1001),
        At(1000),
        1_000,
    ),
];

/// The answer to so many openings and what stands behind them.
fn answer_to_many(
    alloc: Global,
    form: Form,
    count: u32,
    text: &str,
    last: &str,
) -> Result<Option<Place>, Fail> {
    let all = many(alloc, count, text, last)?;
    Ok(answer(alloc, form, &all, 0, 0))
}

// 200 levels may open, and what would open the 201st is left or refused; a long text of openings uses no more of the
// stack.
#[test]
fn nesting(rt: HostRuntime) -> Result<(), Fail> {
    for (form, opening, last, deepest, deeper, count) in &LEVELS {
        for (levels, wanted) in [(200, *deepest), (201, *deeper), (*count, *deeper)] {
            let found = answer_to_many(rt.alloc(), *form, levels, opening, last)?;
            assert!(rt; found == Some(wanted), "{opening} {levels}");
        }
    }
    Ok(())
}

/// A text in 200 openings with their ends.
fn enclosed(alloc: Global, opening: &str, inside: &str, ending: &str) -> Result<Vec<u8>, Fail> {
    let mut text = many(alloc, 200, opening, inside)?;
    for _ in 0..200 {
        text.extend_from_slice(ending.as_bytes())?;
    }
    Ok(text)
}

#[test]
fn parentheses(rt: HostRuntime) -> Result<(), Fail> {
    let alloc = rt.alloc();
    let text = enclosed(alloc, "(", "a", ")")?;
    assert!(rt; answer(alloc, Expression, &text, 0, 0) == Some(Behind(401)));
    assert!(rt; answer(alloc, Expression, &text, 0, 1) == Some(At(199)));
    Ok(())
}

#[test]
fn records(rt: HostRuntime) -> Result<(), Fail> {
    let alloc = rt.alloc();
    let text = enclosed(alloc, "record a: ", "b", " end")?;
    assert!(rt; answer(alloc, Type, &text, 0, 0) == Some(Behind(801)));
    Ok(())
}

// What opens levels one behind the other is no deeper.
#[test]
fn a_flat_expression(rt: HostRuntime) -> Result<(), Fail> {
    let found = answer_to_many(rt.alloc(), Expression, 10_000, "a+b[1]*", "c")?;
    assert!(rt; found == Some(Behind(70_001)));
    Ok(())
}
