//! The ring's text, and its tree.

ghost use Rattle.std.specs.Prelude.{◌≡◌, ◌≤◌, ◌+◌, ◌++◌, All, IfOk, OnOk, codes, string_bytes};
ghost use Rattle.estelle_tree.specs.Lexed.{IsLexed};
ghost use Rattle.estelle_lexer.specs.Tokens.{IsPlacedToken};
ghost use Rattle.spec_maker.specs.Ring as ring;
ghost use Rattle.spec_maker.specs.Ring.{IsRing, each, station};

use estelle_lexer::{LexError, Tokens, tokens};
use estelle_parser::{SyntaxError, parse};
use estelle_tree::Spec;
use std::alloc::{AllocError, Global};

/// The channel, the module and its body.
const COMMON_PART: &str = "\
specification ring ;
default individual queue ;
channel link ( giver , taker ) ;
by giver : token ( hops : integer ) ;
module station systemprocess ( mark : integer ) ;
ip left : link ( taker ) ;
right : link ( giver ) ;
end ;
body go for station ;
var sum : integer ;
state fresh , here ;
initialize to fresh begin sum := mark end ;
trans from fresh to here begin output right . token ( 0 ) end ;
from here to here when left . token begin sum := hops ;
output right . token ( hops + 1 ) end ;
end ;
";

/// What does not depend on how many stations there are.
#[tactic(auto, unfolding(crate::specs::Ring::common_part))]
fn put_common_part(text: &mut String) -> Result<(), AllocError>
    ensures { OnOk result (string_bytes text.new ≡ string_bytes text.old ++ ring.common_part) }
{
    text.push_str(COMMON_PART)
}

/// The module variable of a station, which is not the last.
fn put_variable(text: &mut String, i: u32) -> Result<(), AllocError>
    ensures { OnOk result (string_bytes text.new ≡ string_bytes text.old ++ (station i ++ codes " , ")) }
{
    write!(text, "s{i} , ")
}

/// The module variables of n stations.
fn put_variables(text: &mut String, n: u32) -> Result<(), AllocError>
    requires { 1 ≤ n }
    ensures { OnOk result (string_bytes text.new ≡ string_bytes text.old ++ ring.variables n) }
{
    text.push_str("modvar ")?;
    for i in 1..n {
        put_variable(text, i)?;
    }
    write!(text, "s{n} : station ;\n")
}

/// A station is started.
fn put_start(text: &mut String, i: u32) -> Result<(), AllocError>
    ensures { OnOk result (string_bytes text.new ≡ string_bytes text.old ++ ring.start i) }
{
    write!(text, "init s{i} with go ( {i} ) ;\n")
}

/// Each of n stations is started.
fn put_starts(text: &mut String, n: u32) -> Result<(), AllocError>
    requires { n ≤ 200 }
    ensures { OnOk result (string_bytes text.new ≡ string_bytes text.old ++ each ring.start n) }
{
    for i in 1..n + 1 {
        put_start(text, i)?;
    }
    Ok(())
}

/// A station is connected to another.
fn put_link(text: &mut String, i: u32, j: u32) -> Result<(), AllocError>
    ensures { OnOk result (string_bytes text.new ≡ string_bytes text.old ++ ring.link i j) }
{
    write!(text, "connect s{i} . right to s{j} . left")
}

/// A station is connected to the next one.
fn put_next(text: &mut String, i: u32) -> Result<(), AllocError>
    requires { i ≤ 200 }
    ensures { OnOk result (string_bytes text.new ≡ string_bytes text.old ++ (ring.link i (i + 1) ++ codes " ;\n")) }
{
    put_link(text, i, i + 1)?;
    text.push_str(" ;\n")
}

/// Each of n stations is connected to the next one, and the last to the first.
fn put_links(text: &mut String, n: u32) -> Result<(), AllocError>
    requires least { 1 ≤ n }
    requires most { n ≤ 200 }
    ensures { OnOk result (string_bytes text.new ≡ string_bytes text.old ++ ring.links n) }
{
    for i in 1..n {
        put_next(text, i)?;
    }
    put_link(text, n, 1)
}

/// The text of the ring.
#[tactic(auto, unfolding(crate::specs::Ring::ring))]
fn ring_text(alloc: Global, n: u32) -> Result<String, AllocError>
    requires least { 1 ≤ n }
    requires most { n ≤ 200 }
    ensures { IfOk result (λ text. string_bytes text ≡ ring.ring n) }
{
    let mut text = String::new(alloc);
    put_common_part(&mut text)?;
    put_variables(&mut text, n)?;
    text.push_str("initialize begin ")?;
    put_starts(&mut text, n)?;
    put_links(&mut text, n)?;
    text.push_str(" end ;\nend .\n")?;
    Ok(text)
}

/// The tokens of this text.
fn ring_tokens(alloc: Global, n: u32) -> Result<Tokens, AllocError>
    requires least { 1 ≤ n }
    requires most { n ≤ 200 }
    ensures lexed { IfOk result (λ found. IsLexed (ring.ring n) found.items found.rest) }
    ensures forms { IfOk result (λ found. All IsPlacedToken found.items) }
{
    let text = ring_text(alloc, n)?;
    match tokens(alloc, text.as_bytes()) {
        Ok(found) => Ok(found),
        Err(LexError::At(_)) => unreachable!(),
        Err(LexError::Memory) => Err(AllocError),
    }
}

/// The ring of n stations: each gives a token to the station on its right, and then passes on each that comes from its left.
/// The spans are the places in its canonical text.
pub fn make(alloc: Global, n: u32) -> Result<Spec, AllocError>
    requires least { 2 ≤ n }
    requires most { n ≤ 200 }
    ensures { IfOk result (IsRing n) }
{
    let found = ring_tokens(alloc, n)?;
    match parse(alloc, &found) {
        Ok(spec) => Ok(spec),
        Err(SyntaxError::At(_)) => unreachable!(),
        Err(SyntaxError::Memory) => Err(AllocError),
    }
}
