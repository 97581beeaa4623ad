//! Pieces of Pascal: the nodes that are read.

use estelle_tree::{
    Adding, Const, Direction, Expr, Factor, Formal, Formals, Multiplying, Name, NameList, Ordinal,
    Relation, Routine, RoutineForm, Sequence, Sign, Simple, Span, Stmt, Stmts, Term, TypeExpr,
    TypedNames,
};
use pascal_parser::{expression, routine, statements, type_expr};
use std::alloc::Global;
use std::test::Fail;
use test_texts::tokens_of;

fn expression_of(alloc: Global, text: &str) -> Result<Expr, Fail> {
    let Some(found) = tokens_of(alloc, text.as_bytes()) else {
        return Err(Fail::new("no tokens"));
    };
    if found.items().len() > 100 {
        return Err(Fail::new("a long text"));
    }
    match expression(alloc, found.items(), 0, 0) {
        Ok((read, _)) => Ok(read),
        Err(_) => Err(Fail::new("no expression")),
    }
}

fn type_of(alloc: Global, text: &str) -> Result<TypeExpr, Fail> {
    let Some(found) = tokens_of(alloc, text.as_bytes()) else {
        return Err(Fail::new("no tokens"));
    };
    if found.items().len() > 100 {
        return Err(Fail::new("a long text"));
    }
    match type_expr(alloc, found.items(), 0, 0) {
        Ok((read, _)) => Ok(read),
        Err(_) => Err(Fail::new("no type")),
    }
}

fn statements_of(alloc: Global, text: &str) -> Result<Stmts, Fail> {
    let Some(found) = tokens_of(alloc, text.as_bytes()) else {
        return Err(Fail::new("no tokens"));
    };
    if found.items().len() > 100 {
        return Err(Fail::new("a long text"));
    }
    match statements(alloc, found.items(), 0, 0) {
        Ok((read, _)) => Ok(read),
        Err(_) => Err(Fail::new("no statements")),
    }
}

fn routine_of(alloc: Global, text: &str) -> Result<Routine, Fail> {
    let Some(found) = tokens_of(alloc, text.as_bytes()) else {
        return Err(Fail::new("no tokens"));
    };
    if found.items().len() > 100 {
        return Err(Fail::new("a long text"));
    }
    match routine(alloc, found.items(), 0, 0) {
        Ok((read, _)) => Ok(read),
        Err(_) => Err(Fail::new("no routine")),
    }
}

fn is(name: &Name, word: &[u8]) -> bool {
    name.word.items() == word
}

fn are(list: &NameList, first: &[u8], second: &[u8]) -> bool {
    matches!(list.names.items(), [a, b] if is(a, first) && is(b, second))
}

fn word_of(factor: &Factor) -> &[u8] {
    match factor {
        Factor::Variable(variable) => variable.name.word.items(),
        _ => b"",
    }
}

/// `a * b`, behind one byte.
fn is_product(term: &Term) -> bool {
    term.span == Span { start: 1, end: 4 }
        && term.first.span() == Span { start: 1, end: 2 }
        && word_of(&term.first) == b"a".as_slice()
        && match term.others.items() {
            [(Multiplying::Star, factor)] => word_of(factor) == b"b".as_slice(),
            _ => false,
        }
}

/// `- c + d`
fn are_terms(others: &[(Adding, Term)]) -> bool {
    match others {
        [(Adding::Minus, third), (Adding::Plus, fourth)] => word_of(&third.first) == b"c".as_slice()
            && word_of(&fourth.first) == b"d".as_slice(),
        _ => false,
    }
}

/// `-a*b-c+d`
fn is_sum(left: &Simple) -> bool {
    left.span == Span { start: 0, end: 8 }
        && matches!(left.sign, Some(Sign::Minus))
        && is_product(&left.first)
        && are_terms(left.others.items())
}

/// `< e`
fn is_less(right: &Option<(Relation, Simple)>) -> bool {
    match right {
        Some((relation, right)) => *relation == Relation::Less
            && word_of(&right.first.first) == b"e".as_slice(),
        None => false,
    }
}

/// `-a*b-c+d<e`
fn is_whole(found: &Expr) -> bool {
    found.span == Span { start: 0, end: 10 } && is_sum(&found.left) && is_less(&found.right)
}

// A sign belongs to the first term, and operators of one rank apply from left to right.
#[test]
fn operators(rt: HostRuntime) -> Result<(), Fail> {
    let whole = expression_of(rt.alloc(), "-a*b-c+d<e")?;
    assert!(rt; is_whole(&whole));
    Ok(())
}

/// `b , c` in parentheses, at these bytes.
fn is_enumeration(found: &TypeExpr, start: u32, end: u32) -> bool {
    match found {
        TypeExpr::Ordinal(Ordinal::Enumeration { names, span }) => are(names, b"b", b"c")
            && *span == Span { start, end },
        _ => false,
    }
}

/// `d .. - 1`, at these bytes.
fn is_subrange(found: &TypeExpr, start: u32, end: u32) -> bool {
    match found {
        TypeExpr::Ordinal(
            Ordinal::Subrange {
                low: Const::Name {
                    sign: None,
                    name,
                    ..
                },
                high: Const::Number {
                    sign: Some(Sign::Minus),
                    value: 1,
                    ..
                },
                span,
            },
        ) => is(name, b"d") && *span == Span { start, end },
        _ => false,
    }
}

/// `b , c : set of d`
fn is_section(section: &TypedNames) -> bool {
    match &section.type_expr {
        TypeExpr::Set { packed: false, .. } => are(&section.names, b"b", b"c"),
        _ => false,
    }
}

/// One such section with a semicolon behind it, at these bytes.
fn is_record(found: &TypeExpr, start: u32, end: u32) -> bool {
    match found {
        TypeExpr::Fields {
            packed: false,
            fields,
            span,
        } => match fields.sections.items() {
            [section] => is_section(section) && fields.semicolon && *span == Span { start, end },
            _ => false,
        },
        _ => false,
    }
}

#[test]
fn names_of_types(rt: HostRuntime) -> Result<(), Fail> {
    let name = type_of(rt.alloc(), "a")?;
    assert!(rt; name.span() == Span { start: 0, end: 1 });
    Ok(())
}

#[test]
fn enumerations(rt: HostRuntime) -> Result<(), Fail> {
    assert!(rt; is_enumeration(&type_of(rt.alloc(), "  ( b , c )")?, 2, 11));
    Ok(())
}

#[test]
fn subranges(rt: HostRuntime) -> Result<(), Fail> {
    assert!(rt; is_subrange(&type_of(rt.alloc(), "            d .. - 1")?, 12, 20));
    Ok(())
}

/// A packed array with two indices, of records.
fn is_array(found: &TypeExpr) -> bool {
    match found {
        TypeExpr::Array {
            packed,
            indices,
            component,
            span,
        } => *packed
            && indices.items().len() == 2
            && is_record(component.get(), 31, 60)
            && *span == Span { start: 0, end: 60 },
        _ => false,
    }
}

#[test]
fn arrays(rt: HostRuntime) -> Result<(), Fail> {
    let array = type_of(
        rt.alloc(),
        "packed array [ a , 1 .. 2 ] of record b , c : set of d ; end ;",
    )?;
    assert!(rt; is_array(&array));
    Ok(())
}

fn called(statement: &Stmt) -> &[u8] {
    match statement {
        Stmt::Call { name, .. } => name.word.items(),
        _ => b"",
    }
}

/// What the two branches of the inner `if` call.
fn nearest(all: &Stmts) -> (&[u8], &[u8]) {
    match all.stmts.items() {
        [
            Stmt::If {
                then_part,
                else_part: None,
                ..
            },
        ] => match then_part.get() {
            Stmt::If {
                then_part,
                else_part: Some(other),
                ..
            } => (called(then_part.get()), called(other.get())),
            _ => (b"", b""),
        },
        _ => (b"", b""),
    }
}

/// Which way a `for` counts, and whether a semicolon stands after the last case.
fn are_choices(all: &Stmts) -> bool {
    matches!(
        all.stmts.items(),
        [
            Stmt::Count {
                direction: Direction::To,
                ..
            },
            Stmt::Count {
                direction: Direction::Downto,
                ..
            },
            Stmt::Case {
                semicolon: false,
                ..
            },
            Stmt::Case {
                semicolon: true,
                ..
            },
        ]
    )
}

/// `p(1,f(2,3))`, from byte 0 on.
fn is_call(found: &Stmt) -> bool {
    match found {
        Stmt::Call {
            name,
            args: Some(given),
            ..
        } => is(name, b"p")
            && given.exprs.items().len() == 2
            && given.span == Span { start: 2, end: 10 },
        _ => false,
    }
}

/// `a.b[1,2]:=0`, from byte 12 on.
fn is_assignment(found: &Stmt) -> bool {
    match found {
        Stmt::Assign { variable, .. } => is(&variable.name, b"a")
            && variable.selectors.items().len() == 2
            && variable.span == Span { start: 12, end: 20 },
        _ => false,
    }
}

/// `p(1,f(2,3));a.b[1,2]:=0`
fn are_lists(all: &Stmts) -> bool {
    match all.stmts.items() {
        [first, second] => is_call(first)
            && is_assignment(second)
            && second.span() == Span { start: 12, end: 23 },
        _ => false,
    }
}

// To which `if` an `else` belongs.
#[test]
fn nearest_else(rt: HostRuntime) -> Result<(), Fail> {
    let nested = statements_of(rt.alloc(), "if a then if b then x else y")?;
    assert!(rt; nearest(&nested) == (b"x".as_slice(), b"y".as_slice()));
    Ok(())
}

// What is told of choices.
#[test]
fn choices(rt: HostRuntime) -> Result<(), Fail> {
    let choices = statements_of(
        rt.alloc(),
        "for i := 1 to 2 do ; for i := 1 downto 2 do ; case a of 1 : end ; case a of 1 : ; end",
    )?;
    assert!(rt; are_choices(&choices));
    Ok(())
}

// What stands in lists.
#[test]
fn arguments_and_indices(rt: HostRuntime) -> Result<(), Fail> {
    assert!(rt; are_lists(&statements_of(rt.alloc(), "p(1,f(2,3));a.b[1,2]:=0")?));
    Ok(())
}

/// `var d , e : f ; g , h : k` in parentheses, at these bytes.
fn are_formals(found: &Formals, start: u32, end: u32) -> bool {
    match found.formals.items() {
        [
            Formal {
                is_var: true,
                names,
                type_name,
                ..
            },
            Formal {
                is_var: false,
                names: others,
                type_name: other,
                ..
            },
        ] => are(names, b"d", b"e")
            && is(type_name, b"f")
            && are(others, b"g", b"h")
            && is(other, b"k")
            && found.span == Span { start, end },
        _ => false,
    }
}

/// A function with all parts that may be missing.
fn is_function(function: &Routine) -> bool {
    let is_result = match &function.form {
        RoutineForm::Function { result } => is(result, b"u"),
        RoutineForm::Procedure => false,
    };
    is_result
        && is(&function.name, b"f")
        && function.formals.is_some()
        && function.decls.items().len() == 1
        && function.body.stmts.items().len() == 2
        && function.span == Span { start: 0, end: 56 }
}

#[test]
fn functions(rt: HostRuntime) -> Result<(), Fail> {
    let text = "function f ( a : t ) : u ; var b : t ; begin x ; y end ; begin z end ;";
    let function = routine_of(rt.alloc(), text)?;
    assert!(rt; is_function(&function));
    Ok(())
}

fn is_procedure(procedure: &Routine) -> bool {
    let has_formals = match &procedure.formals {
        Some(found) => are_formals(found, 23, 52),
        None => false,
    };
    has_formals && matches!(procedure.form, RoutineForm::Procedure)
}

#[test]
fn procedures(rt: HostRuntime) -> Result<(), Fail> {
    let procedure = routine_of(
        rt.alloc(),
        "procedure p            ( var d , e : f ; g , h : k ) ; begin end ;",
    )?;
    assert!(rt; is_procedure(&procedure));
    Ok(())
}
