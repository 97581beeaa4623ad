//! What an evaluator of bodies is made of: whether a value fits a type, and variables that are put and loaded.

use body_program::Program;
use body_state::{View, Walk};
use body_values::{Stop, fits};
use estelle_model::{Denoter, Host, Image, Part, Place};
use estelle_tree::{Items, Path, SequenceMut};
use pascal_values::{Fault, Value, Values};
use spec_accept::Checked;
use std::alloc::{AllocError, Global};
use std::test::Fail;
use test_texts::accepted;

#[test]
fn a_char_type(rt: HostRuntime) -> Result<(), Fail> {
    let letters = Denoter::Ordinal {
        host: Host::Char,
        low: 97,
        high: 122,
    };
    assert_eq!(rt; fits(&letters, &Value::Char(97)), Ok(()));
    assert_eq!(rt; fits(&letters, &Value::Char(65)), Err(Fault::Range));
    assert_eq!(rt; fits(&letters, &Value::Int(97)), Err(Fault::Range));
    Ok(())
}

/// The one variable of a specification, unset before anything runs.
fn unset_image(alloc: Global) -> Result<Image, AllocError> {
    let mut vars = Values::none(alloc);
    vars.push(Value::Unset)?;
    let mut parts = Items::new(alloc);
    parts.push(Part {
        path: Path::root(alloc),
        body: 0,
        state: None,
        vars,
        modvars: Items::new(alloc),
        births: 0,
    })?;
    Ok(Image {
        parts,
        links: Items::new(alloc),
    })
}

fn holds(alloc: Global, walk: &Walk, place: &Place, wanted: i64) -> bool {
    matches!(&walk.load(alloc, place), Ok(Value::Int(n)) if *n == wanted)
}

/// Whether the variable is unset, then takes a number, and refuses a value of another type.
fn is_put_and_loaded(alloc: Global, walk: &mut Walk, place: &Place) -> bool {
    let unset = matches!(walk.load(alloc, place), Err(Stop::Fault(Fault::Unset)));
    let put = walk.put(alloc, place, Value::Int(7)).is_ok() && holds(alloc, walk, place, 7);
    let refused = matches!(walk.put(alloc, place, Value::Char(65)), Err(Stop::Broken));
    unset && put && refused && holds(alloc, walk, place, 7)
}

fn is_put_in(alloc: Global, program: &Program, view: &View) -> bool {
    if !view.is_in_order() {
        return false;
    }
    let place = Place::Of {
        path: Path::root(alloc),
        variable: 0,
        way: Items::new(alloc),
    };
    let mut walk = Walk::new(alloc, program.bodies(), view, 5);
    is_put_and_loaded(alloc, &mut walk, &place)
}

fn is_put_into(alloc: Global, program: &Program, image: &Image) -> Result<bool, AllocError> {
    let mut parts = Vec::new(alloc);
    for part in image.parts.as_slice() {
        parts.push(part)?;
    }
    let view = View::of(&parts, image.links.as_slice());
    Ok(is_put_in(alloc, program, &view))
}

fn is_put_of(alloc: Global, program: &Program) -> bool {
    match unset_image(alloc) {
        Ok(image) => matches!(is_put_into(alloc, program, &image), Ok(true)),
        Err(_) => false,
    }
}

fn is_put_by(alloc: Global, checked: &Checked) -> bool {
    match Program::new(alloc, &checked.spec, &checked.names) {
        Ok(program) => is_put_of(alloc, &program),
        Err(_) => false,
    }
}

fn is_put(alloc: Global, text: &str) -> bool {
    match accepted(alloc, text.as_bytes()) {
        Some(checked) => is_put_by(alloc, &checked),
        None => false,
    }
}

#[test]
fn an_unset_variable_and_one_that_is_put(rt: HostRuntime) {
    assert!(rt;
        is_put(
            rt.alloc(),
            "specification s systemprocess; var n: integer; end."
        )
    );
}
