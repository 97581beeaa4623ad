//! The values of Pascal: worked values, and texts of values.

use estelle_lists::{Boxed, Items, Sequence};
use pascal_values::{
    Fault, MAXINT, Relation, Shape, Value, add, blank, compare, copy, divide, find, fits, has,
    meet, minus, modulo, mul, position, read_value, replace, span, sub, unite, write_value,
};
use std::test::Fail;

#[test]
fn division_and_overflow(rt: HostRuntime) {
    assert_eq!(rt; divide(-7, 2), Ok(-3));
    assert_eq!(rt; modulo(-7, 2), Ok(1));
    assert_eq!(rt; divide(7, 0), Err(Fault::DivideByZero));
    assert_eq!(rt; modulo(7, 0), Err(Fault::ModNotPositive));
    assert_eq!(rt; modulo(7, -1), Err(Fault::ModNotPositive));
    assert_eq!(rt; add(MAXINT, 1), Err(Fault::Overflow));
    assert_eq!(rt; sub(-MAXINT, 1), Err(Fault::Overflow));
    assert_eq!(rt; mul(MAXINT, -1), Ok(-MAXINT));
    assert_eq!(rt; position(-1, 3, 3), Ok(4));
    assert_eq!(rt; position(-1, 3, 4), Err(Fault::Index));
}

#[test]
fn sets(rt: HostRuntime) -> Result<(), Fail> {
    let low = span(rt.alloc(), 1, 3)?;
    let high = span(rt.alloc(), 3, 4)?;
    assert_eq!(rt;
        unite(rt.alloc(), &low, &high)?.items(),
        [1, 2, 3, 4].as_slice()
    );
    assert_eq!(rt; meet(rt.alloc(), &low, &high)?.items(), [3].as_slice());
    assert_eq!(rt; minus(rt.alloc(), &low, &high)?.items(), [1, 2].as_slice());
    assert_eq!(rt; span(rt.alloc(), 2, 1)?.items().len(), 0);
    assert!(rt; has(&low, 2));
    assert!(rt;
        compare(
            Relation::Le,
            &Value::Set(span(rt.alloc(), 2, 2)?),
            &Value::Set(low)
        )
    );
    Ok(())
}

#[test]
fn parts_of_a_value(rt: HostRuntime) -> Result<(), Fail> {
    let item = Boxed::new(rt.alloc(), Shape::Int { low: 0, high: 9 })?;
    let shape = Shape::Array {
        low: 1,
        high: 2,
        item,
    };
    let mut value = blank(rt.alloc(), &shape)?;
    assert_eq!(rt; fits(&shape, &value), Ok(()));
    let way = [1];
    if find(&value, &way).is_some() {
        replace(&mut value, &way, Value::Int(10));
    }
    assert_eq!(rt; fits(&shape, &copy(rt.alloc(), &value)?), Err(Fault::Range));
    assert_eq!(rt; fits(&shape, &Value::Unset), Err(Fault::Unset));
    let mut text = Vec::new(rt.alloc());
    write_value(&value, &mut text)?;
    assert_eq!(rt; text.as_slice(), b"(?,10)".as_slice());
    Ok(())
}

/// Reads a value, writes it again, and compares the text with the first bytes, as many as wanted.
fn reads(rt: &HostRuntime, bytes: &[u8], wanted: usize) -> Result<bool, Fail> {
    match read_value(rt.alloc(), bytes, 0) {
        Err(_) => Ok(wanted == 0),
        Ok((value, end)) => {
            let mut text = Vec::new(rt.alloc());
            write_value(&value, &mut text)?;
            Ok(end == wanted && bytes.starts_with(&text) && text.len() == wanted)
        }
    }
}

#[test]
fn texts(rt: HostRuntime) -> Result<(), Fail> {
    let whole: [&[u8]; 13] = [
        b"[1,3,4]",
        b"[]",
        b"''''",
        b"'x'",
        b"chr(7)",
        b"#3",
        b"?",
        b"(1,(2,3))",
        b"{true,'x'}",
        b"false",
        b"-9223372036854775807",
        b"#4294967295",
        b"9223372036854775807",
    ];
    for text in whole {
        assert!(rt; reads(&rt, text, text.len())?);
    }
    let parts: [(&[u8], usize); 5] = [
        (b"007", 1),
        (b"#4294967296", 10),
        (b"9223372036854775808", 18),
        (b"12,3", 2),
        (b"''''x", 4),
    ];
    for (text, wanted) in parts {
        assert!(rt; reads(&rt, text, wanted)?);
    }
    let none: [&[u8]; 12] = [
        b"-0", b"[2,1]", b"[1,1]", b"[256]", b"()", b"{}", b"(1", b"(1,)", b"chr(65)", b"'''",
        b"tru", b"",
    ];
    for text in none {
        assert!(rt; reads(&rt, text, 0)?);
    }

    // Values of 200 levels are read, and no deeper ones.
    let mut text = Vec::new(rt.alloc());
    for _ in 0..201 {
        text.push(b'(')?;
    }
    text.push(b'?')?;
    for _ in 0..201 {
        text.push(b')')?;
    }
    assert!(rt; reads(&rt, &text, 0)?);
    assert_eq!(rt; text.len(), 403);
    assert!(rt; reads(&rt, &text[1..402], 401)?);
    Ok(())
}
