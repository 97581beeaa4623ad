//! Attributes, queues, and what a specification sets for all of its modules.

ghost use Rattle.std.specs.Prelude.{◌≡◌, ◌++◌, ⊤, IfOk, IfErr};
ghost use Rattle.token_reader.specs.declared.error.ReadError.TheVariants.{Memory};
ghost use Rattle.token_reader.specs.Reader.{Reads};
ghost use Rattle.declaration_parser.specs.Attributes as spec;

use crate::form::enclosed;
use estelle_tree::{Attr, Disc, Head, Items, Kind, SysAttr};
use std::alloc::Global;
use token_reader::{Begins, Cursor, Ended, Optional, Read, ReadError};
use type_parser::NameForm;

/// `SysAttr = systemprocess | systemactivity` (ISO/IEC 9074)
#[tactic(auto, unfolding(crate::specs::Attributes::sys_attr))]
pub fn sys_attr(tokens: &mut Cursor<'_>) -> Result<SysAttr, ReadError>
    ensures { Reads (spec.sys_attr tokens.old) result tokens.new }
{
    let from = tokens.start();
    match tokens.peek() {
        Kind::Systemprocess => {
            tokens.take();
            Ok(SysAttr::Systemprocess {
                span: tokens.since(from),
            })
        }
        Kind::Systemactivity => {
            tokens.take();
            Ok(SysAttr::Systemactivity {
                span: tokens.since(from),
            })
        }
        _ => Err(tokens.refuse()),
    }
}

/// `SysAttr`
#[derive(Clone, Copy)]
pub struct SysAttrForm;

impl Read<SysAttr> for SysAttrForm {
    ghost parser = { λ _. spec.sys_attr };

    ghost can = { λ _. ⊤ };

    fn read(&self, _alloc: Global, tokens: &mut Cursor<'_>) -> Result<SysAttr, ReadError> {
        sys_attr(tokens)
    }
}

impl Begins for SysAttrForm {
    ghost begins = { λ _. spec.begins_sys_attr };

    fn begins(&self, kind: Kind) -> bool {
        matches!(kind, Kind::Systemprocess | Kind::Systemactivity)
    }
}

#[tactic(auto, unfolding(crate::specs::Attributes::system))]
fn system(tokens: &mut Cursor<'_>) -> Result<Attr, ReadError>
    ensures { Reads (spec.system tokens.old) result tokens.new }
{
    Ok(Attr::SysAttr(sys_attr(tokens)?))
}

/// `Attr = SysAttr | process | activity` (ISO/IEC 9074)
#[tactic(auto, unfolding(crate::specs::Attributes::attr))]
fn attr(tokens: &mut Cursor<'_>) -> Result<Attr, ReadError>
    ensures { Reads (spec.attr tokens.old) result tokens.new }
{
    let from = tokens.start();
    match tokens.peek() {
        Kind::Process => {
            tokens.take();
            Ok(Attr::Process {
                span: tokens.since(from),
            })
        }
        Kind::Activity => {
            tokens.take();
            Ok(Attr::Activity {
                span: tokens.since(from),
            })
        }
        _ => system(tokens),
    }
}

/// `Attr`
#[derive(Clone, Copy)]
pub struct AttrForm;

impl Read<Attr> for AttrForm {
    ghost parser = { λ _. spec.attr };

    ghost can = { λ _. ⊤ };

    fn read(&self, _alloc: Global, tokens: &mut Cursor<'_>) -> Result<Attr, ReadError> {
        attr(tokens)
    }
}

impl Begins for AttrForm {
    ghost begins = { λ _. spec.begins_attr };

    fn begins(&self, kind: Kind) -> bool {
        matches!(
            kind,
            Kind::Systemprocess | Kind::Systemactivity | Kind::Process | Kind::Activity
        )
    }
}

/// `Disc = individual | common` (ISO/IEC 9074)
#[tactic(auto, unfolding(crate::specs::Attributes::disc))]
fn disc(tokens: &mut Cursor<'_>) -> Result<Disc, ReadError>
    ensures { Reads (spec.disc tokens.old) result tokens.new }
{
    let from = tokens.start();
    match tokens.peek() {
        Kind::Individual => {
            tokens.take();
            Ok(Disc::Individual {
                span: tokens.since(from),
            })
        }
        Kind::Common => {
            tokens.take();
            Ok(Disc::Common {
                span: tokens.since(from),
            })
        }
        _ => Err(tokens.refuse()),
    }
}

/// `Disc`
#[derive(Clone, Copy)]
struct DiscForm;

impl Read<Disc> for DiscForm {
    ghost parser = { λ _. spec.disc };

    ghost can = { λ _. ⊤ };

    fn read(&self, _alloc: Global, tokens: &mut Cursor<'_>) -> Result<Disc, ReadError> {
        disc(tokens)
    }
}

/// `Disc queue`
#[derive(Clone, Copy)]
pub struct QueueForm;

impl Read<Disc> for QueueForm {
    ghost parser = { λ _. spec.queue };

    ghost can = { λ _. ⊤ };

    fn read(&self, alloc: Global, tokens: &mut Cursor<'_>) -> Result<Disc, ReadError> {
        Ended {
            kind: Kind::Queue,
            item: &DiscForm,
        }
        .read(alloc, tokens)
    }
}

impl Begins for QueueForm {
    ghost begins = { λ _. spec.begins_disc };

    fn begins(&self, kind: Kind) -> bool {
        matches!(kind, Kind::Individual | Kind::Common)
    }
}

/// `default Disc queue ";"`
#[tactic(auto, unfolding(crate::specs::Attributes::default_head))]
fn default_head(alloc: Global, tokens: &mut Cursor<'_>) -> Result<Head, ReadError>
    ensures { Reads (spec.default_head tokens.old) result tokens.new }
{
    let from = tokens.start();
    let disc = enclosed(alloc, tokens, Kind::Default, Kind::Semicolon, &QueueForm)?;
    Ok(Head::Default {
        disc,
        span: tokens.since(from),
    })
}

/// `timescale NAME ";"`
#[tactic(auto, unfolding(crate::specs::Attributes::timescale_head))]
fn timescale_head(alloc: Global, tokens: &mut Cursor<'_>) -> Result<Head, ReadError>
    ensures { Reads (spec.timescale_head tokens.old) result tokens.new }
{
    let from = tokens.start();
    let unit = enclosed(alloc, tokens, Kind::Timescale, Kind::Semicolon, &NameForm)?;
    Ok(Head::Timescale {
        unit,
        span: tokens.since(from),
    })
}

/// `Head = default Disc queue ";" | timescale NAME ";"` (ISO/IEC 9074)
#[tactic(auto, unfolding(crate::specs::Attributes::head))]
fn head(alloc: Global, tokens: &mut Cursor<'_>) -> Result<Head, ReadError>
    ensures { Reads (spec.head tokens.old) result tokens.new }
{
    match tokens.peek() {
        Kind::Default => default_head(alloc, tokens),
        Kind::Timescale => timescale_head(alloc, tokens),
        _ => Err(tokens.refuse()),
    }
}

/// `Head`
#[derive(Clone, Copy)]
struct HeadForm;

impl Read<Head> for HeadForm {
    ghost parser = { λ _. spec.head };

    ghost can = { λ _. ⊤ };

    fn read(&self, alloc: Global, tokens: &mut Cursor<'_>) -> Result<Head, ReadError> {
        head(alloc, tokens)
    }
}

impl Begins for HeadForm {
    ghost begins = { λ _. spec.begins_head };

    fn begins(&self, kind: Kind) -> bool {
        matches!(kind, Kind::Default | Kind::Timescale)
    }
}

/// `Head`, of another form than the one that begins by this kind.
#[derive(Clone, Copy)]
struct SecondHeadForm {
    first: Kind,
}

impl Read<Head> for SecondHeadForm {
    ghost parser = { λ _. spec.head };

    ghost can = { λ _. ⊤ };

    fn read(&self, alloc: Global, tokens: &mut Cursor<'_>) -> Result<Head, ReadError> {
        head(alloc, tokens)
    }
}

impl Begins for SecondHeadForm {
    ghost begins = { λ s. spec.begins_second s.first };

    fn begins(&self, kind: Kind) -> bool {
        match self.first {
            Kind::Default => matches!(kind, Kind::Timescale),
            Kind::Timescale => matches!(kind, Kind::Default),
            _ => false,
        }
    }
}

/// The items of two parts that may be missing.
fn listed(
    alloc: Global,
    first: Option<Head>,
    second: Option<Head>,
) -> Result<Items<Head>, ReadError>
    ensures all { IfOk result (λ heads. heads ≡ spec.listed first ++ spec.listed second) }
    ensures only_memory { IfErr result (λ error. error ≡ Memory) }
{
    let mut heads = Items::new(alloc);
    if let Some(head) = first {
        heads.push(head)?;
    }
    if let Some(head) = second {
        heads.push(head)?;
    }
    Ok(heads)
}

/// `{Head}`, each form at most once. A second one of the same form is left where it stands.
#[tactic(auto, unfolding(crate::specs::Attributes::heads))]
pub fn heads(alloc: Global, tokens: &mut Cursor<'_>) -> Result<Items<Head>, ReadError>
    ensures { Reads (spec.heads tokens.old) result tokens.new }
{
    let kind = tokens.peek();
    let first = Optional { item: &HeadForm }.read(alloc, tokens)?;
    let second = Optional {
        item: &SecondHeadForm { first: kind },
    }
    .read(alloc, tokens)?;
    listed(alloc, first, second)
}
