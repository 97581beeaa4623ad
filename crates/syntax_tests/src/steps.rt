//! The steps that parsers are made of, and lists that are read by them.

ghost use Rattle.std.specs.Prelude.{⊤};
ghost use denote.Enum.Bare.{sameb};
ghost use Rattle.estelle_tree.specs.contracts.kind.Kind.{the_type};
ghost use Rattle.estelle_tree.specs.declared.kind.Kind.TheVariants.{Number};
ghost use Rattle.token_reader.specs.Reader as spec;

use estelle_tree::{Items, Kind, Sequence, Span};
use std::alloc::Global;
use std::process::Abort;
use std::test::Fail;
use test_texts::tokens_of;
use token_reader::{
    Begins, Behind, Cursor, Ended, Optional, Read, ReadError, repeated, separated, separated_if,
    several,
};

struct Numeral;

impl Read<i64> for Numeral {
    ghost parser = { λ _. spec.number };

    ghost can = { λ _. ⊤ };

    fn read(&self, _alloc: Global, tokens: &mut Cursor<'_>) -> Result<i64, ReadError> {
        tokens.number()
    }
}

impl Begins for Numeral {
    ghost begins = { λ _ kind. sameb the_type kind Number };

    fn begins(&self, kind: Kind) -> bool {
        kind == Kind::Number
    }
}

fn reads_name(alloc: Global, place: &mut Cursor<'_>) -> Result<bool, ReadError> {
    let name = place.name(alloc)?;
    Ok(name.word.items() == b"a".as_slice())
}

/// `a 7 '!'`, before a comma.
fn reads_words(rt: &impl Abort, alloc: Global, place: &mut Cursor<'_>) -> Result<(), ReadError> {
    assert!(rt; place.peek() == Kind::Name && place.peek_second() == Kind::Number);
    assert!(rt; place.start() == 0);
    assert!(rt; reads_name(alloc, place)?);
    assert!(rt; place.number()? == 7);
    assert!(rt; place.char()? == b'!');
    Ok(())
}

/// What is told of the words that were read.
fn tells_places(place: &Cursor<'_>) -> bool {
    place.since(0) == (Span { start: 0, end: 7 })
        && place.since_over(0, 4) == (Span { start: 0, end: 7 })
        && place.since_over(3, 1) == (Span { start: 0, end: 0 })
        && place.left() == 1
        && matches!(place.refuse(), ReadError::Refused { left: 1 })
}

/// The comma is no semicolon, and the last token.
fn reads_comma(place: &mut Cursor<'_>) -> bool {
    let refused = matches!(
        place.expect(Kind::Semicolon),
        Err(ReadError::Refused { left: 1 })
    );
    let seen = place.sees(Kind::Comma);
    let eaten = place.eat(Kind::Comma);
    place.take();
    refused && seen && eaten && place.peek() == Kind::Nothing
}

#[test]
fn single_tokens(rt: HostRuntime) -> Result<(), Fail> {
    let Some(found) = tokens_of(rt.alloc(), b"a 7 '!' ,") else {
        return Err(Fail::new("no tokens"));
    };
    let mut place = Cursor::new(found.items(), 0);
    reads_words(&rt, rt.alloc(), &mut place)?;
    assert!(rt; tells_places(&place));
    assert!(rt; reads_comma(&mut place));
    Ok(())
}

fn reads_separated(alloc: Global, place: &mut Cursor<'_>) -> Result<bool, ReadError> {
    let numerals = separated(alloc, place, Kind::Comma, &Numeral)?;
    Ok(numerals.items() == [1, 2, 3].as_slice())
}

fn reads_several(alloc: Global, place: &mut Cursor<'_>) -> Result<bool, ReadError> {
    let line = Ended {
        kind: Kind::Semicolon,
        item: &Numeral,
    };
    let lines = several(alloc, place, &line)?;
    Ok(lines.items() == [4, 5].as_slice())
}

/// The last comma stands alone.
fn reads_separated_if(alloc: Global, place: &mut Cursor<'_>) -> Result<bool, ReadError> {
    let last = separated_if(alloc, place, Kind::Comma, &Numeral)?;
    Ok(last.items() == [6].as_slice() && place.left() == 2)
}

fn refuses_behind(alloc: Global, place: &mut Cursor<'_>) -> bool {
    let wanted = Behind {
        kind: Kind::Comma,
        item: &Numeral,
    };
    matches!(
        wanted.read(alloc, place),
        Err(ReadError::Refused { left: 1 })
    )
}

fn repeats_none(alloc: Global, place: &mut Cursor<'_>) -> Result<bool, ReadError> {
    let rest = Optional { item: &Numeral };
    let found = repeated(alloc, place, Items::new(alloc), &rest)?;
    Ok(found.items().is_empty())
}

fn reads_lists(rt: &impl Abort, alloc: Global, place: &mut Cursor<'_>) -> Result<(), ReadError> {
    assert!(rt; reads_separated(alloc, place)?);
    assert!(rt; reads_several(alloc, place)?);
    place.take();
    assert!(rt; reads_separated_if(alloc, place)?);
    assert!(rt; refuses_behind(alloc, place));
    assert!(rt; repeats_none(alloc, place)?);
    Ok(())
}

#[test]
fn lists(rt: HostRuntime) -> Result<(), Fail> {
    let Some(found) = tokens_of(rt.alloc(), b"1,2,3 4;5;b 6,a") else {
        return Err(Fail::new("no tokens"));
    };
    let mut place = Cursor::new(found.items(), 0);
    reads_lists(&rt, rt.alloc(), &mut place)?;
    Ok(())
}
