//! The private part of an instance, copied, or read where it is.

ghost use Rattle.std.specs.Prelude.{◌≡◌, filter, IfOk};
ghost use Rattle.estelle_model.specs.Subject.{Subject};
ghost use Rattle.estelle_model.specs.Situation.{Situation};
ghost use Rattle.estelle_model.specs.Jobs as jobs;
ghost use Rattle.estelle_model_legality.specs.Choices.{AreTree};
ghost use Rattle.estelle_model_legality.specs.Jobs as legal;
ghost use Rattle.body_state.specs.InOrder.{parts_behind, InOrder};
ghost use Rattle.effect_log.specs.Standing.{Stands};
ghost use Rattle.situation_images.specs.Instances.{IsTreeOf, instances_in, parts_of};

use body_program::Program;
use body_state::{View, copy_parts};
use effect_log::Shared;
use estelle_model::{Image, Part};
use estelle_tree::{IpAddr, Items, Link, LinkKind, Path};
use link_ops::LinkTest;
use module_tree::{Tree, TreeError};
use std::alloc::{AllocError, Global};
use std::marker::Model;

/// The parts of the instances at and below one, where they are, in path order: none where it is not there.
fn parts_below<'t>(
    alloc: Global,
    tree: &'t Tree<Part>,
    path: &Path,
) -> Result<Vec<&'t Part>, AllocError>
    ensures { (s : Subject) (g : Situation) → IsTreeOf tree.now g → AreTree s g.core.instances → IfOk result (λ parts. parts_behind parts.items ≡ parts_of g path.now) }
{
    match tree.below(alloc, path) {
        Ok(parts) => Ok(parts),
        Err(TreeError::NoSuch) => Ok(Vec::new(alloc)),
        Err(TreeError::Memory) => Err(AllocError),
    }
}

/// Whether the body of an instance declares an interaction point of it for itself.
fn is_internal(program: &Program, tree: &Tree<Part>, at: &IpAddr) -> bool
    ensures { result ≡ jobs.is_internal program.now (instances_in tree.now) at.now }
{
    match tree.get(&at.path) {
        None => false,
        Some(part) => program.is_internal(part.body, at.ip),
    }
}

/// Whether it lies below an instance, or is an internal interaction point of it.
fn is_below_or_own(program: &Program, tree: &Tree<Part>, path: &Path, at: &IpAddr) -> bool
    ensures { result ≡ jobs.is_below_or_own program.now (instances_in tree.now) path.now at.now }
{
    if !path.is_at_or_above(&at.path) {
        return false;
    }
    !at.path.is_at_or_above(path) || is_internal(program, tree, at)
}

/// Whether an instance, or one below it, made a link.
#[derive(Drop)]
struct IsPrivate<'a> {
    program: &'a Program<'a>,
    tree: &'a Tree<Part>,
    path: &'a Path,
}

impl LinkTest for IsPrivate<'_> {
    ghost passes = { λ test. jobs.is_private test.program.now (instances_in test.tree.now) test.path.now };

    fn passes(&self, kind: LinkKind, first: &IpAddr, second: &IpAddr) -> bool {
        match kind {
            LinkKind::Connection => {
                is_below_or_own(self.program, self.tree, self.path, first)
                    || is_below_or_own(self.program, self.tree, self.path, second)
            }
            LinkKind::Attachment => self.path.is_at_or_above(&first.path),
        }
    }
}

/// Copies of the links that an instance or one below it made.
fn private_links(
    alloc: Global,
    program: &Program,
    shared: &Shared,
    path: &Path,
) -> Result<Vec<Link>, AllocError>
    ensures { IfOk result (λ own. own.items ≡ filter (jobs.is_private program.now (instances_in shared.now.tree) path.now) shared.now.links.links) }
{
    let test = IsPrivate {
        program: &*program,
        tree: &shared.tree,
        path: &*path,
    };
    shared.links.copies_of(alloc, &test)
}

/// The private part of an instance, copied: the instances at and below it, in path order, with the links that they made. It
/// takes the time of those instances and of all links, and the memory of those instances and their links.
pub fn image_of(
    alloc: Global,
    program: &Program,
    shared: &Shared,
    path: &Path,
) -> Result<Image, AllocError>
    ensures image { (g : Situation) → Stands program.now shared.now g → AreTree program.now g.core.instances → IfOk result (λ image. image ≡ legal.image_of (jobs.private program.now g.core path.now)) }
    ensures in_order { (g : Situation) → Stands program.now shared.now g → AreTree program.now g.core.instances → IfOk result (λ image. InOrder image.parts) }
{
    let parts = parts_below(alloc, &shared.tree, path)?;
    let copies = copy_parts(alloc, &parts)?;
    let links = private_links(alloc, program, shared, path)?;
    Ok(Image {
        parts: Items::from_vec(copies),
        links: Items::from_vec(links),
    })
}

/// The private part of an instance as it is read: its instances where they are, and copies of its links.
#[derive(Drop)]
pub struct Private<'s> {
    parts: Vec<&'s Part>,
    links: Vec<Link>,
}

impl<'s> Model for Private<'s> {
    ghost use Rattle.estelle_model.specs.declared.image.Image.{Image};
    ghost use Rattle.std.specs.Coded.{codes};
    ghost use Rattle.pascal_values.specs.contracts.value.Value as of_value;

    ghost Value = { Image };

    ghost coded = { Prim.hlevel (codes, of_value.the_row.coded) };

    ghost use Rattle.situation_images.specs.Reading.{image_read, HasOrder};

    ghost view = { image_read };

    ghost invariant = { HasOrder };
}

impl<'s> Private<'s> {
    /// Of an instance. It takes the time of the instances at and below it and of all links, and the memory of a reference to
    /// each of those instances and of their links.
    pub fn of(
        alloc: Global,
        program: &Program,
        shared: &'s Shared,
        path: &Path,
    ) -> Result<Private<'s>, AllocError>
        ensures { (g : Situation) → Stands program.now shared.now g → AreTree program.now g.core.instances → IfOk result (λ private. private ≡ legal.image_of (jobs.private program.now g.core path.now)) }
    {
        let parts = parts_below(alloc, &shared.tree, path)?;
        // The instances of a tree stand in path order, so that nothing is refused here.
        if !View::of(&parts, &[]).is_in_order() {
            return Err(AllocError);
        }
        let links = private_links(alloc, program, shared, path)?;
        Ok(Private { parts, links })
    }

    /// As the evaluator reads it. It takes no memory.
    pub fn view(&self) -> View<'_>
        ensures image { result ≡ self.now }
        ensures in_order { InOrder result.parts }
    {
        View::of(&self.parts, &self.links)
    }
}
