//! The list of events as it grows, and copies of what stands in the tree.

ghost use Rattle.std.specs.Prelude.{◌≡◌, [], ◌∷◌, OnOk, IfOk};
ghost use Rattle.scope_rules.specs.declared.event.Event.TheVariants as event;
ghost use Rattle.scope_rules.specs.TypeEvents.{use_alone, declare};
ghost use Rattle.scope_rules.specs.StatementEvents.{use_member};
ghost use Rattle.scope_names_events.specs.Writing.{put, write};

use estelle_tree::{Items, Name, Sequence};
use scope_rules::{Denotes, Event, Inside, Need, Step};
use std::alloc::{AllocError, Global};
use std::marker::Model;

/// A list of events to which more are added, seen as that list.
#[derive(Drop)]
pub struct Writer {
    pub alloc: Global,
    events: Items<Event>,
}

impl Model for Writer {
    ghost use Rattle.std.specs.Prelude.{List};
    ghost use Rattle.scope_rules.specs.declared.event.Event.{Event};

    ghost Value = { List Event };

    ghost view = { λ a. a.events };
}

impl Writer {
    pub fn new(alloc: Global) -> Writer
        ensures { result ≡ [] }
    {
        Writer {
            alloc,
            events: Items::new(alloc),
        }
    }

    /// All events.
    pub fn end(self) -> Items<Event>
        ensures { result ≡ self }
    {
        self.events
    }

    #[tactic(auto, unfolding(crate::specs::Writing::put))]
    pub fn push(&mut self, event: Event) -> Result<(), AllocError>
        ensures { OnOk result (self.new ≡ put self.old event) }
    {
        self.events.push(event)
    }

    /// A name in use with nothing behind it.
    pub fn use_alone(&mut self, need: Need, name: &Name) -> Result<(), AllocError>
        ensures { OnOk result (self.new ≡ write self.old (use_alone need name.now)) }
    {
        let name = copy_name(self.alloc, name)?;
        let steps = Items::new(self.alloc);
        self.push(Event::Use { name, need, steps })
    }

    /// A name in use with a name behind a dot.
    pub fn use_member(
        &mut self,
        need: Need,
        name: &Name,
        member_need: Need,
        member: &Name,
    ) -> Result<(), AllocError>
        ensures { OnOk result (self.new ≡ write self.old (use_member need name.now member_need member.now)) }
    {
        let name = copy_name(self.alloc, name)?;
        let step = Step::Member {
            name: copy_name(self.alloc, member)?,
            need: member_need,
        };
        let steps = one(self.alloc, step)?;
        self.push(Event::Use { name, need, steps })
    }

    /// One name is declared.
    pub fn declare(
        &mut self,
        name: &Name,
        denotes: Denotes,
        inside: Inside,
    ) -> Result<(), AllocError>
        ensures { OnOk result (self.new ≡ write self.old (declare name.now denotes inside)) }
    {
        let names = one(self.alloc, copy_name(self.alloc, name)?)?;
        self.push(Event::Declare {
            names,
            denotes,
            inside,
        })
    }

    /// Names are declared.
    pub fn declare_all(
        &mut self,
        names: &[Name],
        denotes: Denotes,
        inside: Inside,
    ) -> Result<(), AllocError>
        ensures { OnOk result (self.new ≡ put self.old (event.Declare names.now denotes inside)) }
    {
        let names = copy_names(self.alloc, names)?;
        self.push(Event::Declare {
            names,
            denotes,
            inside,
        })
    }
}

/// A list of one item.
pub fn one<T: Drop>(alloc: Global, item: T) -> Result<Items<T>, AllocError>
    ensures { IfOk result (λ items. items ≡ item ∷ []) }
{
    let mut items = Items::new(alloc);
    items.push(item)?;
    Ok(items)
}

pub fn copy_name(alloc: Global, name: &Name) -> Result<Name, AllocError>
    ensures { IfOk result (λ copy. copy ≡ name.now) }
{
    Ok(Name {
        word: name.word.copy(alloc)?,
        span: name.span,
    })
}

pub fn copy_names(alloc: Global, names: &[Name]) -> Result<Items<Name>, AllocError>
    ensures { IfOk result (λ copy. copy ≡ names.now) }
{
    let mut copy = Items::new(alloc);
    for name in names {
        copy.push(copy_name(alloc, name)?)?;
    }
    Ok(copy)
}
