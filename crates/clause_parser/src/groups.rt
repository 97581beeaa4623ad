//! What stands behind `trans`: a block, or groups of clauses.

ghost use Rattle.std.specs.Prelude.{◌≡◌};
ghost use Rattle.estelle_tree.specs.Input as input;
ghost use Rattle.token_reader.specs.Reader.{Reads};
ghost use Rattle.clause_parser.specs.Block as blocks;
ghost use Rattle.clause_parser.specs.Way.{stands_on};
ghost use Rattle.clause_parser.specs.Place.{group_at, ReadsGroup};
ghost use Rattle.clause_parser.specs.Group as spec;
ghost use Rattle.clause_parser.specs.TransBody.{trans_body};

use crate::blocks::{begins_block, block};
use crate::clauses::{begins_clause, clause};
use crate::ways::Way;
use estelle_tree::{Clause, Group, Kind, TransBody};
use std::alloc::Global;
use token_reader::{Begins, Cursor, Read, ReadError, several};

/// How many kinds of clauses there are.
const KINDS: u8 = 7;

/// Where a group stands.
#[derive(Clone, Copy)]
pub struct Place {
    /// How many levels of nesting may open.
    room: u8,
    /// How many clauses may stand on the way from here on.
    clauses: u8,
    way: Way,
}

/// `Group` at a place, which a function reads.
#[derive(Clone, Copy)]
struct GroupAt<F> {
    place: Place,
    read: F,
}

impl<F: Fn(Global, &mut Cursor<'_>, Place) -> Result<Group, ReadError>> Read<Group> for GroupAt<F> {
    ghost parser = { λ s. group_at s.place };

    ghost can = { λ s. ReadsGroup s.place (F.pre s.read) (F.post s.read) };

    fn read(&self, alloc: Global, tokens: &mut Cursor<'_>) -> Result<Group, ReadError> {
        (self.read)(alloc, tokens, self.place)
    }
}

impl<F> Begins for GroupAt<F> {
    ghost begins = { λ s. spec.begins_group (stands_on s.place.way) };

    fn begins(&self, kind: Kind) -> bool {
        !self.place.way.holds(kind) && begins_clause(kind)
    }
}

#[tactic(auto, unfolding(crate::specs::Group::block_body))]
fn block_body(alloc: Global, tokens: &mut Cursor<'_>, room: u8) -> Result<TransBody, ReadError>
    ensures { Reads (spec.block_body (blocks.block room) tokens.old) result tokens.new }
{
    Ok(TransBody::Block(block(alloc, tokens, room)?))
}

/// `{Group}+`
#[tactic(auto, unfolding(crate::specs::Group::groups_over))]
fn groups<P: Read<Group> + Begins>(
    alloc: Global,
    tokens: &mut Cursor<'_>,
    group: &P,
) -> Result<TransBody, ReadError>
    requires { P.can group.now }
    ensures { Reads (spec.groups_over (P.begins group.now) (P.parser group.now) tokens.old) result tokens.new }
{
    let from = tokens.start();
    let groups = several(alloc, tokens, group)?;
    Ok(TransBody::Groups {
        groups,
        span: tokens.since(from),
    })
}

/// `TransBody = Block | {Group}+`
#[tactic(auto, unfolding(crate::specs::Group::body_over))]
pub fn trans_body_over<P: Read<Group> + Begins>(
    alloc: Global,
    tokens: &mut Cursor<'_>,
    room: u8,
    group: &P,
) -> Result<TransBody, ReadError>
    requires { P.can group.now }
    ensures { Reads (spec.body_over (blocks.block room) (P.begins group.now) (P.parser group.now) tokens.old) result tokens.new }
{
    if begins_block(tokens.peek()) {
        block_body(alloc, tokens, room)
    } else {
        groups(alloc, tokens, group)
    }
}

/// Refuses the next token, where a clause of its kind stands on the way.
pub fn unless_on(tokens: &mut Cursor<'_>, way: Way) -> Result<(), ReadError>
    ensures { Reads (spec.unless (stands_on way (input.kind tokens.old)) tokens.old) result tokens.new }
{
    if way.holds(tokens.peek()) {
        Err(tokens.refuse())
    } else {
        Ok(())
    }
}

/// A group behind its clause, which starts there.
#[tactic(auto, unfolding(crate::specs::Group::group_behind))]
pub fn group_behind<P: Read<Group> + Begins>(
    alloc: Global,
    tokens: &mut Cursor<'_>,
    room: u8,
    from: u32,
    clause: Clause,
    group: &P,
) -> Result<Group, ReadError>
    requires { P.can group.now }
    ensures { Reads (spec.group_behind (blocks.block room) from clause (P.begins group.now) (P.parser group.now) tokens.old) result tokens.new }
{
    let body = trans_body_over(alloc, tokens, room, group)?;
    Ok(Group {
        clause,
        body,
        span: tokens.since(from),
    })
}

/// `Group = Clause (Block | {Group}+)`: refused at its clause, where one of its kind stands on the way.
fn group(alloc: Global, tokens: &mut Cursor<'_>, place: Place) -> Result<Group, ReadError>
    ensures { Reads (group_at place tokens.old) result tokens.new }
{
    if place.clauses == 0 {
        return Err(tokens.refuse());
    }
    let from = tokens.start();
    unless_on(tokens, place.way)?;
    let clause = clause(alloc, tokens, place.room)?;
    let inner = GroupAt {
        place: Place {
            room: place.room,
            clauses: place.clauses - 1,
            way: place.way.behind(&clause),
        },
        read: group,
    };
    group_behind(alloc, tokens, place.room, from, clause, &inner)
}

/// Reads what stands behind `trans` (ISO/IEC 9074: nested transitions), in which at most so many levels
/// of nesting open. A block closes the group of the clause right before it; a group that is still open
/// takes each next clause whose kind does not stand on its way.
#[tactic(auto, unfolding(crate::specs::TransBody::trans_body))]
pub fn trans_body(alloc: Global, tokens: &mut Cursor<'_>, room: u8) -> Result<TransBody, ReadError>
    ensures { Reads (trans_body room tokens.old) result tokens.new }
{
    let groups = GroupAt {
        place: Place {
            room,
            clauses: KINDS,
            way: Way::new(),
        },
        read: group,
    };
    trans_body_over(alloc, tokens, room, &groups)
}
