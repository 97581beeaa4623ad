//! Whole specifications: the nodes that are read.

use estelle_tree::{
    Attr, Block, BlockDecl, Channel, Clause, Const, Decl, DelayHigh, Disc, Head, Header, Init,
    Kind, Label, Name, NameList, NextState, Parts, Sequence, Sign, Span, Spec, SysAttr, TransBody,
};
use std::alloc::Global;
use std::test::Fail;
use test_texts::tree;

/// The tree of some texts, one behind the other.
fn spec(alloc: Global, heading: &str, text: &str) -> Result<Spec, Fail> {
    let whole = format!(in alloc; "{heading}{text}")?;
    match tree(alloc, whole.as_bytes()) {
        Some(read) => Ok(read),
        None => Err(Fail::new("refused")),
    }
}

/// What stands before declarations. It has 17 bytes.
const HEADING: &str = "specification s; ";

/// What stands before the one transition of a specification. It has 23 bytes.
const TRANSITION: &str = "specification s; trans ";

fn declared(alloc: Global, text: &str) -> Result<Spec, Fail> {
    let ended = format!(in alloc; "{text} end.")?;
    spec(alloc, HEADING, &ended)
}

fn with_transition(alloc: Global, text: &str) -> Result<Spec, Fail> {
    let ended = format!(in alloc; "{text} end.")?;
    spec(alloc, TRANSITION, &ended)
}

/// What stands behind the one `trans`.
fn body_of(read: &Spec) -> Option<&TransBody> {
    match read.parts.trans.items() {
        [only] => Some(&only.body),
        _ => None,
    }
}

/// These bytes behind so many others.
fn behind(heading: u32, (start, end): (u32, u32)) -> Span {
    Span {
        start: heading.wrapping_add(start),
        end: heading.wrapping_add(end),
    }
}

fn is(name: &Name, word: &[u8]) -> bool {
    name.word.items() == word
}

fn are(list: &NameList, first: &[u8], second: &[u8]) -> bool {
    matches!(list.names.items(), [a, b] if is(a, first) && is(b, second))
}

/// How many declarations and transitions there are.
fn counts(parts: &Parts) -> (usize, usize) {
    (parts.decls.items().len(), parts.trans.items().len())
}

const TEXT: &str = "specification s systemprocess; default individual queue; timescale t;
channel c(a, b); by a: m(x: y);
module h process; ip p: c(a); end;
body k for h; state i, j; initialize to i begin end; trans from i to j begin end; end;
modvar v: h;
function f(z: y): y; begin end;
procedure g; begin end;
initialize begin end;
trans when p.m begin end;
trans begin end;
end.
behind";

/// `state i, j; initialize to i begin end; trans from i to j begin end;`
fn is_inner(parts: &Parts) -> bool {
    match (&parts.init, parts.decls.items()) {
        (Some(init), [Decl::State { states, .. }]) => {
            matches!(&init.to, Some(to) if is(to, b"i"))
                && states.names.items().len() == 2
                && parts.trans.items().len() == 1
        }
        _ => false,
    }
}

/// The one body among some declarations.
fn is_body(decl: Option<&Decl>) -> bool {
    match decl {
        Some(Decl::Body(body)) => is(&body.name, b"k")
            && is(&body.header, b"h")
            && is_inner(&body.parts),
        _ => false,
    }
}

fn is_routine(decl: Option<&Decl>) -> bool {
    matches!(decl, Some(Decl::Routine(_)))
}

/// The word with which a declaration begins, where it has no statements.
fn kind_of(decl: Option<&Decl>) -> Kind {
    match decl {
        Some(decl) => part_of(decl).0,
        None => Kind::Nothing,
    }
}

/// A channel, a header, a body, module variables and two routines.
fn are_six(decls: &[Decl]) -> bool {
    kind_of(decls.get(0)) == Kind::Channel
        && kind_of(decls.get(1)) == Kind::Module
        && is_body(decls.get(2))
        && kind_of(decls.get(3)) == Kind::Modvar
        && is_routine(decls.get(4))
        && is_routine(decls.get(5))
}

fn is_default(head: Option<&Head>) -> bool {
    matches!(head, Some(Head::Default { .. }))
}

fn is_timescale(head: Option<&Head>) -> bool {
    matches!(head, Some(Head::Timescale { .. }))
}

fn is_without_state(init: &Option<Init>) -> bool {
    match init {
        Some(init) => init.to.is_none(),
        None => false,
    }
}

/// All of the text, but for what stands behind its end.
fn is_whole(read: &Spec) -> bool {
    is(&read.name, b"s")
        && matches!(read.attr, Some(SysAttr::Systemprocess { .. }))
        && read.heads.items().len() == 2
        && is_default(read.heads.items().get(0))
        && is_timescale(read.heads.items().get(1))
        && counts(&read.parts) == (6, 2)
        && is_without_state(&read.parts.init)
        && are_six(read.parts.decls.items())
        && read.span == Span { start: 0, end: 362 }
        && read.parts.span
            == Span {
                start: 70,
                end: 357,
            }
}

#[test]
fn whole_specification(rt: HostRuntime) -> Result<(), Fail> {
    let read = spec(rt.alloc(), "", TEXT)?;
    assert!(rt; is_whole(&read));
    Ok(())
}

#[test]
fn no_parts(rt: HostRuntime) -> Result<(), Fail> {
    let read = spec(rt.alloc(), "", "specification s; end.")?;
    assert!(rt; read.parts.span == Span { start: 0, end: 0 });
    Ok(())
}

#[test]
fn no_declarations(rt: HostRuntime) -> Result<(), Fail> {
    let read = spec(
        rt.alloc(),
        HEADING,
        "initialize to a begin end; trans begin end; end.",
    )?;
    assert!(rt; counts(&read.parts) == (0, 1));
    Ok(())
}

/// `first , second : c ; e`
fn is_sent(channel: &Channel, first: &[u8], second: &[u8]) -> bool {
    match channel.groups.items() {
        [both, one] => are(&both.roles, first, second)
            && both.inters.items().len() == 2
            && one.inters.items().len() == 1,
        _ => false,
    }
}

/// Each part that may be missing is there, in order.
fn is_full(found: &Header) -> bool {
    is(&found.name, b"a")
        && matches!(
            found.attr,
            Some(Attr::SysAttr(SysAttr::Systemprocess { .. }))
        )
        && matches!(&found.params, Some(params) if params.groups.items().len() == 1)
        && matches!(
            found.ips.items(),
            [one, other] if matches!(one.disc, Some(Disc::Individual { .. })) && matches!(other.disc, None)
        )
        && found.exports.items().len() == 1
}

/// Which part it is, how many items it has, and at which bytes.
fn part_of(decl: &Decl) -> (Kind, usize, Span) {
    match decl {
        Decl::Const { defs, span } => (Kind::Const, defs.items().len(), *span),
        Decl::Types { defs, span } => (Kind::Type, defs.items().len(), *span),
        Decl::Channel(found) => (Kind::Channel, found.groups.items().len(), found.span),
        Decl::Header(found) => (Kind::Module, found.ips.items().len(), found.span),
        Decl::Ip { ips, span } => (Kind::Ip, ips.items().len(), *span),
        Decl::Modvar { modvars, span } => (Kind::Modvar, modvars.items().len(), *span),
        Decl::Var { vars, span } => (Kind::Var, vars.items().len(), *span),
        Decl::State { states, span } => (Kind::State, states.names.items().len(), *span),
        Decl::Stateset { sets, span } => (Kind::Stateset, sets.items().len(), *span),
        Decl::Body(_) | Decl::Routine(_) => (Kind::Nothing, 0, Span { start: 0, end: 0 }),
    }
}

/// Each declaration without statements.
const DECLARATIONS: &str =
    "const a = 1 ; type b = c ; channel d ( e , f ) ; by e : g ; module h ; end ; ip i : d ( e ) ; k : d ( f ) ; modvar l , m : h ; var n : b ; state p , q , r ; stateset s = [ p , q ] ; t = [ r ] ;";

/// Their words, how many items each has, and at which bytes.
const DECLARED: [(Kind, usize, (u32, u32)); 9] = [
    (Kind::Const, 1, (0, 13)),
    (Kind::Type, 1, (14, 26)),
    (Kind::Channel, 1, (27, 59)),
    (Kind::Module, 0, (60, 76)),
    (Kind::Ip, 2, (77, 107)),
    (Kind::Modvar, 1, (108, 126)),
    (Kind::Var, 1, (127, 138)),
    (Kind::State, 3, (139, 156)),
    (Kind::Stateset, 2, (157, 193)),
];

/// The declarations are those.
fn are_declared(decls: &[Decl]) -> bool {
    if decls.len() != DECLARED.len() {
        return false;
    }
    for (decl, (kind, count, place)) in decls.iter().zip(DECLARED) {
        let span = behind(17, place);
        if part_of(decl) != (kind, count, span) || decl.span() != span {
            return false;
        }
    }
    true
}

// Each declaration, its parts and its place.
#[test]
fn declarations(rt: HostRuntime) -> Result<(), Fail> {
    let read = declared(rt.alloc(), DECLARATIONS)?;
    assert!(rt; are_declared(read.parts.decls.items()));
    Ok(())
}

/// `timescale seconds ; default common queue ;`, behind 33 bytes.
fn are_heads(heads: &[Head]) -> bool {
    match heads {
        [first, second] => matches!(first, Head::Timescale { unit, .. } if is(unit, b"seconds"))
            && first.span() == behind(18, (15, 34))
            && matches!(second, Head::Default { disc, .. } if disc.span() == behind(18, (43, 49)))
            && matches!(
                second,
                Head::Default {
                    disc: Disc::Common { .. },
                    ..
                }
            )
            && second.span() == behind(18, (35, 57)),
        _ => false,
    }
}

/// `a ; b , c : d ; e ( f , g : h ; i : k ) ; c : l`
fn is_channel(decl: &Decl) -> bool {
    match decl {
        Decl::Channel(found) => is(&found.name, b"a")
            && is(&found.first_role, b"b")
            && is(&found.second_role, b"c")
            && is_sent(found, b"b", b"c"),
        _ => false,
    }
}

/// A header without any part that may be missing but the attribute.
fn is_bare(found: &Header) -> bool {
    matches!(found.attr, Some(Attr::Activity { .. }))
        && found.params.is_none()
        && found.ips.items().is_empty()
        && found.exports.items().is_empty()
}

/// `a = - 3 ; b = + c ; d = 'x' ;`, behind 17 bytes.
fn are_constants(decl: &Decl) -> bool {
    let Decl::Const { defs, .. } = decl else {
        return false;
    };
    match defs.items() {
        [first, second, third] => matches!(
            first.value,
            Const::Number {
                sign: Some(Sign::Minus),
                value: 3,
                ..
            }
        ) && first.value.span() == behind(17, (10, 13))
            && matches!(&second.value, Const::Name { sign: Some(Sign::Plus), name, .. } if is(name, b"c"))
            && second.value.span() == behind(17, (20, 23))
            && matches!(third.value, Const::Char { value: b'x', .. })
            && third.value.span() == behind(17, (30, 33)),
        _ => false,
    }
}

/// The attribute and the heads of a specification.
fn are_heads_of(read: &Spec) -> bool {
    let is_attribute = match &read.attr {
        Some(attribute) => matches!(attribute, SysAttr::Systemactivity { .. })
            && attribute.span() == behind(16, (0, 14)),
        None => false,
    };
    is_attribute && are_heads(read.heads.items())
}

// What stands in heads.
#[test]
fn heads(rt: HostRuntime) -> Result<(), Fail> {
    let read = spec(
        rt.alloc(),
        "specification s systemactivity ;",
        " timescale seconds ; default common queue ; end.",
    )?;
    assert!(rt; are_heads_of(&read));
    Ok(())
}

fn is_one_channel(decls: &[Decl]) -> bool {
    match decls {
        [only] => is_channel(only) && only.span() == behind(17, (0, 73)),
        _ => false,
    }
}

// What stands in a channel.
#[test]
fn channels(rt: HostRuntime) -> Result<(), Fail> {
    let read = declared(
        rt.alloc(),
        "channel a ( b , c ) ; by b , c : d ; e ( f , g : h ; i : k ) ; by c : l ;",
    )?;
    assert!(rt; is_one_channel(read.parts.decls.items()));
    Ok(())
}

fn is_full_at(decl: Option<&Decl>) -> bool {
    match decl {
        Some(Decl::Header(full)) => is_full(full) && full.span == behind(17, (0, 103)),
        _ => false,
    }
}

fn is_bare_at(decl: Option<&Decl>) -> bool {
    match decl {
        Some(Decl::Header(bare)) => is_bare(bare)
            && matches!(bare.attr, Some(attribute) if attribute.span() == behind(17, (113, 121))),
        _ => false,
    }
}

// What stands in headers.
#[test]
fn headers(rt: HostRuntime) -> Result<(), Fail> {
    let read = declared(
        rt.alloc(),
        "module a systemprocess ( b : c ) ; ip d : e ( f ) individual queue ; g : h ( i ) ; export k : l ; end ; module m activity ; end ;",
    )?;
    let decls = read.parts.decls.items();
    assert!(rt; decls.len() == 2 && is_full_at(decls.get(0)) && is_bare_at(decls.get(1)));
    Ok(())
}

fn is_one_list_of_constants(decls: &[Decl]) -> bool {
    match decls {
        [only] => are_constants(only),
        _ => false,
    }
}

// What stands in constants.
#[test]
fn constants(rt: HostRuntime) -> Result<(), Fail> {
    let read = declared(rt.alloc(), "const a = - 3 ; b = + c ; d = 'x' ;")?;
    assert!(rt; is_one_list_of_constants(read.parts.decls.items()));
    Ok(())
}

/// The kind of a clause, and how many parts it has that can be missing or repeated.
fn parts_of(clause: &Clause) -> (Kind, usize) {
    match clause {
        Clause::From { states, .. } => (Kind::From, states.names.items().len()),
        Clause::To {
            state: NextState::Name(_),
            ..
        } => (Kind::To, 1),
        Clause::To {
            state: NextState::Same,
            ..
        } => (Kind::To, 0),
        Clause::When {
            params: Some(names),
            ..
        } => (Kind::When, names.names.items().len()),
        Clause::When { params: None, .. } => (Kind::When, 0),
        Clause::Provided { .. } => (Kind::Provided, 1),
        Clause::Priority { .. } => (Kind::Priority, 1),
        Clause::Any { domains, .. } => (Kind::Any, domains.items().len()),
        Clause::Delay { high: None, .. } => (Kind::Delay, 0),
        Clause::Delay {
            high: Some(DelayHigh::Expr(_)),
            ..
        } => (Kind::Delay, 1),
        Clause::Delay {
            high: Some(DelayHigh::Star),
            ..
        } => (Kind::Delay, 2),
    }
}

/// Clauses, with what `parts_of` tells of each.
const CLAUSES: [(&str, Kind, usize); 14] = [
    ("from a", Kind::From, 1),
    ("from a , b", Kind::From, 2),
    ("to a", Kind::To, 1),
    ("to same", Kind::To, 0),
    ("when p . m", Kind::When, 0),
    ("when p . m ( x )", Kind::When, 1),
    ("when p . m ( x , y )", Kind::When, 2),
    ("provided a = b", Kind::Provided, 1),
    ("priority 1", Kind::Priority, 1),
    ("any i : 1 .. 2 do", Kind::Any, 1),
    ("any i , j : 1 .. 2 ; k : t do", Kind::Any, 2),
    ("delay ( 1 )", Kind::Delay, 0),
    ("delay ( 1 , a )", Kind::Delay, 1),
    ("delay ( 1 , * )", Kind::Delay, 2),
];

/// The one group of a transition has a clause of this kind, with so many parts, up to this byte.
fn is_one_group(body: Option<&TransBody>, kind: Kind, parts: usize, end: u32) -> bool {
    match body {
        Some(TransBody::Groups { groups, .. }) => match groups.items() {
            [only] => parts_of(&only.clause) == (kind, parts)
                && only.clause.span() == behind(23, (0, end)),
            _ => false,
        },
        _ => false,
    }
}

/// Whether the transition of this text has such a clause.
fn has_clause(alloc: Global, text: &str, kind: Kind, parts: usize) -> Result<bool, Fail> {
    let end = u32::try_from(text.len()).unwrap_or(0);
    let whole = format!(in alloc; "{text} begin end ;")?;
    let read = with_transition(alloc, &whole)?;
    Ok(is_one_group(body_of(&read), kind, parts, end))
}

// Each form of a clause, its optional and repeated parts absent, once and twice.
#[test]
fn clauses(rt: HostRuntime) -> Result<(), Fail> {
    for (text, kind, parts) in &CLAUSES {
        assert!(rt; has_clause(rt.alloc(), text, *kind, *parts)?, "{text}");
    }
    Ok(())
}

fn letter_in(label: &Option<Label>) -> Option<u8> {
    match label {
        Some(label) => label.name.word.items().first().copied(),
        None => None,
    }
}

/// Blocks, the letter of the first label, how many parts of declarations there are, and the letter of the late label.
const BLOCKS: [(&str, Option<u8>, usize, Option<u8>); 8] = [
    ("begin end ;", None, 0, None),
    ("name l : begin p ; q end ;", Some(b'l'), 0, None),
    ("var x : t ; begin end ;", None, 1, None),
    ("var x : t ; name l : begin end ;", None, 1, Some(b'l')),
    ("name l : var x : t ; begin end ;", Some(b'l'), 1, None),
    (
        "const c = 1 ; var x , y : t ; z : t ; begin end ;",
        None,
        2,
        None,
    ),
    (
        "type t = s ; const c = 1 ; name l : begin end ;",
        None,
        2,
        Some(b'l'),
    ),
    (
        "name l : var x : t ; var y : t ; begin end ;",
        Some(b'l'),
        2,
        None,
    ),
];

fn is_block(block: &Block, label: Option<u8>, decls: usize, late: Option<u8>) -> bool {
    letter_in(&block.label) == label
        && block.decls.items().len() == decls
        && letter_in(&block.late_label) == late
}

/// How many definitions or variables there are, of which word, at which bytes.
fn block_part_of(decl: &BlockDecl) -> (Kind, usize, Span) {
    match decl {
        BlockDecl::Const { defs, span } => (Kind::Const, defs.items().len(), *span),
        BlockDecl::Types { defs, span } => (Kind::Type, defs.items().len(), *span),
        BlockDecl::Var { vars, span } => (Kind::Var, vars.items().len(), *span),
    }
}

/// Parts of declarations: their words, how many items each has, and at which bytes.
const BLOCK_PARTS: [(Kind, usize, (u32, u32)); 3] = [
    (Kind::Const, 2, (0, 21)),
    (Kind::Type, 1, (22, 34)),
    (Kind::Var, 2, (35, 63)),
];

/// Whether the transition of this text is a block with these labels, and so many declarations.
fn has_block(
    alloc: Global,
    text: &str,
    label: Option<u8>,
    decls: usize,
    late: Option<u8>,
) -> Result<bool, Fail> {
    let read = with_transition(alloc, text)?;
    match body_of(&read) {
        Some(TransBody::Block(block)) => Ok(is_block(block, label, decls, late)),
        _ => Ok(false),
    }
}

// A label before the declarations, after them, and neither; no, one and two parts of declarations.
#[test]
fn blocks(rt: HostRuntime) -> Result<(), Fail> {
    for (text, label, decls, late) in &BLOCKS {
        assert!(rt;
            has_block(rt.alloc(), text, *label, *decls, *late)?,
            "{text}"
        );
    }
    Ok(())
}

/// The parts of declarations of a block are those.
fn are_block_parts(block: &Block) -> bool {
    let decls = block.decls.items();
    if decls.len() != BLOCK_PARTS.len() {
        return false;
    }
    for (decl, (kind, count, place)) in decls.iter().zip(BLOCK_PARTS) {
        let span = behind(23, place);
        if block_part_of(decl) != (kind, count, span) || decl.span() != span {
            return false;
        }
    }
    true
}

// What stands in the declarations of a block.
#[test]
fn parts_of_blocks(rt: HostRuntime) -> Result<(), Fail> {
    let text = "const a = 1 ; b = 2 ; type c = d ; var e , f : g ; h : 1 .. 2 ; begin end ;";
    let read = with_transition(rt.alloc(), text)?;
    assert!(rt; matches!(body_of(&read), Some(TransBody::Block(block)) if are_block_parts(block)));
    Ok(())
}

/// The label of a block is `name a :`.
fn is_labelled(block: &Block) -> bool {
    match &block.label {
        Some(label) => is(&label.name, b"a") && label.span == behind(23, (0, 8)),
        None => false,
    }
}

// What stands in a label.
#[test]
fn labels(rt: HostRuntime) -> Result<(), Fail> {
    let read = with_transition(rt.alloc(), "name a : begin end ;")?;
    assert!(rt; matches!(body_of(&read), Some(TransBody::Block(block)) if is_labelled(block)));
    Ok(())
}

fn letter_of(clause: &Clause) -> u8 {
    match clause {
        Clause::From { .. } => b'f',
        Clause::To { .. } => b't',
        Clause::When { .. } => b'w',
        Clause::Provided { .. } => b'p',
        Clause::Priority { .. } => b'r',
        Clause::Any { .. } => b'a',
        Clause::Delay { .. } => b'd',
    }
}

/// Writes a dot for a block, and for groups a letter for each clause with what it holds for behind it, in
/// parentheses.
fn write_shape(shape: &mut Vec<u8>, body: &TransBody) -> Result<(), Fail> {
    match body {
        TransBody::Block(_) => shape.push(b'.')?,
        TransBody::Groups { groups, .. } => {
            shape.push(b'(')?;
            for group in groups.items() {
                shape.push(letter_of(&group.clause))?;
                write_shape(shape, &group.body)?;
            }
            shape.push(b')')?;
        }
    }
    Ok(())
}

/// Transitions, and to which group each clause belongs.
const GROUPS: [(&str, &str); 13] = [
    ("name l : var x : t ; begin end ;", "."),
    ("to b begin end ;", "(t.)"),
    // A block closes the group of the clause right before it.
    ("to b begin end ; from a begin end ;", "(t.f.)"),
    ("to b begin end ; to c begin end ;", "(t.t.)"),
    // A group that is still open takes a clause of another kind.
    ("from a to b begin end ; to c begin end ;", "(f(t.t.))"),
    (
        "from a provided p begin end ; to b begin end ; provided q begin end ;",
        "(f(p.t.p.))",
    ),
    (
        "any i : 1 .. 2 do provided p begin end ; provided q begin end ;",
        "(a(p.p.))",
    ),
    // The innermost one takes it.
    (
        "from a to b provided p begin end ; when q . m begin end ;",
        "(f(t(p.w.)))",
    ),
    // A clause whose kind stands on the way of a group is no part of it.
    (
        "from a to b provided p begin end ; to c begin end ;",
        "(f(t(p.)t.))",
    ),
    (
        "from a to b begin end ; from c to d begin end ;",
        "(f(t.)f(t.))",
    ),
    (
        "from a to b provided p begin end ; from c begin end ; to d begin end ;",
        "(f(t(p.))f.t.)",
    ),
    (
        "from a to b when p . m priority 1 begin end ; when q . m begin end ; priority 2 begin end ; provided p begin end ;",
        "(f(t(w(r.)w.r.p.)))",
    ),
    (
        "from a to b when p . m provided c priority 1 any i : t do delay ( 1 , * ) var x : t ; begin end ; delay ( 2 ) begin end ; from c begin end ;",
        "(f(t(w(p(r(a(d.d.))))))f.)",
    ),
];

/// Writes where a body stands, and each group in it, with its clause and its body.
fn write_spans(spans: &mut Vec<Span>, body: &TransBody) -> Result<(), Fail> {
    spans.push(body.span())?;
    if let TransBody::Groups { groups, .. } = body {
        for group in groups.items() {
            spans.push(group.span)?;
            spans.push(group.clause.span())?;
            write_spans(spans, &group.body)?;
        }
    }
    Ok(())
}

/// Where the body, the groups, the clauses and the blocks of a transition stand.
const PLACES: [(u32, u32); 10] = [
    (0, 40),
    (0, 40),
    (0, 6),
    (7, 40),
    (7, 23),
    (7, 11),
    (12, 23),
    (24, 40),
    (24, 28),
    (29, 40),
];

/// The shape of the transition of this text.
fn shape_of(alloc: Global, text: &str) -> Result<Vec<u8>, Fail> {
    let read = with_transition(alloc, text)?;
    let mut shape = Vec::new(alloc);
    if let Some(body) = body_of(&read) {
        write_shape(&mut shape, body)?;
    }
    Ok(shape)
}

// To which group each clause belongs.
#[test]
fn groups(rt: HostRuntime) -> Result<(), Fail> {
    for (text, wanted) in &GROUPS {
        let shape = shape_of(rt.alloc(), text)?;
        assert!(rt; shape.as_slice() == wanted.as_bytes(), "{text}");
    }
    Ok(())
}

/// The places in the transition of this text.
fn spans_of(alloc: Global, text: &str) -> Result<Vec<Span>, Fail> {
    let read = with_transition(alloc, text)?;
    let mut spans = Vec::new(alloc);
    if let Some(body) = body_of(&read) {
        write_spans(&mut spans, body)?;
    }
    Ok(spans)
}

/// The places are those.
fn are_places(spans: &[Span]) -> bool {
    if spans.len() != PLACES.len() {
        return false;
    }
    for (span, place) in spans.iter().zip(PLACES) {
        if *span != behind(23, place) {
            return false;
        }
    }
    true
}

// Where bodies, groups, clauses and blocks stand.
#[test]
fn places_of_groups(rt: HostRuntime) -> Result<(), Fail> {
    let spans = spans_of(rt.alloc(), "from a to b begin end ; to c begin end ;")?;
    assert!(rt; are_places(&spans));
    Ok(())
}
