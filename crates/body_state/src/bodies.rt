//! What is known of the bodies of a specification before an instance of one is made.

ghost use Rattle.std.specs.Prelude.{◌≡◌, ◌&&◌, ◌||◌, not, is_some, option_map, slice_get};
ghost use Rattle.std.specs.Option.{option_copied};
ghost use Rattle.estelle_model.specs.Subject.{body, types_of_variables, ips_of, child_of};
ghost use Rattle.estelle_model.specs.Attributes.{allows};
ghost use Rattle.estelle_model.specs.Actions.{has_header, may_hold};
ghost use Rattle.body_state.specs.Bodies.{module_body, module_bodies};

use estelle_model::{Attribute, InteractionPoint, Routine, Type};
use estelle_tree::{Items, Names, Spec};
use std::marker::Model;

/// The initialization of a body: the state after it, and its block.
pub struct Initialization<'t> {
    pub to: Option<u32>,
    pub block: Routine<'t>,
}

impl Drop for Initialization<'_> {
    fn drop(self) {
        let Initialization { to: _, block: _ } = self;
    }
}

/// A body of a module (ISO/IEC 9074), without the bodies in it.
pub struct ModuleBody<'t> {
    /// The place where its header is declared.
    pub header: u32,
    pub attribute: Option<Attribute>,
    pub has_transitions: bool,
    /// The types of the header's parameters.
    pub parameters: Items<Type>,
    /// The types of all variables of an instance, the parameters first.
    pub variables: Items<Type>,
    /// How many module variables it has.
    pub module_variables: usize,
    /// The header of each module variable, by the place where it is declared.
    pub module_headers: Items<u32>,
    /// The interaction points of an instance, the external ones first.
    pub ips: Items<InteractionPoint>,
    /// How many of them are external.
    pub external: u32,
    /// None where none is written.
    pub initialization: Option<Initialization<'t>>,
}

impl Drop for ModuleBody<'_> {
    fn drop(self) {
        let ModuleBody {
            header: _,
            attribute: _,
            has_transitions: _,
            parameters: _,
            variables: _,
            module_variables: _,
            module_headers: _,
            ips: _,
            external: _,
            initialization: _,
        } = self;
    }
}

/// The bodies of a specification in the order of their numbers, seen as the specification with what its names mean.
pub struct ModuleBodies<'t> {
    spec: &'t Spec,
    names: &'t Names,
    bodies: Items<ModuleBody<'t>>,
}

impl Drop for ModuleBodies<'_> {
    fn drop(self) {
        let ModuleBodies {
            spec: _,
            names: _,
            bodies: _,
        } = self;
    }
}

impl<'t> Model for ModuleBodies<'t> {
    ghost use Rattle.std.specs.Coded.{codes};
    ghost use Rattle.estelle_tree.specs.contracts.tree.specification.Spec as of_specs;
    ghost use Rattle.estelle_model.specs.Subject.{Subject};

    ghost Value = { Subject };

    ghost coded = { Prim.hlevel (codes, of_specs.the_row.coded) };

    ghost use Rattle.body_state.specs.Known.{subject_of, HasAllBodies};

    ghost view = { subject_of };

    ghost invariant = { HasAllBodies };
}

impl<'t> ModuleBodies<'t> {
    pub fn new(spec: &'t Spec, names: &'t Names, bodies: Items<ModuleBody<'t>>) -> ModuleBodies<'t>
        requires { bodies ≡ module_bodies (record { specification = spec.now; names = names.now.uses }) }
        ensures { result ≡ record { specification = spec.now; names = names.now.uses } }
    {
        ModuleBodies {
            spec,
            names,
            bodies,
        }
    }

    /// The body with a number; the specification has the number 0.
    pub fn get(&self, number: u32) -> Option<&ModuleBody<'t>>
        ensures { option_copied result ≡ option_map (module_body self.now number) (body self.now number) }
    {
        self.bodies.get(number as usize)
    }

    /// The types of the variables of an instance of a body.
    pub fn types(&self, number: u32) -> &[Type]
        ensures { result.now ≡ types_of_variables self.now number }
    {
        match self.get(number) {
            Some(body) => body.variables.as_slice(),
            None => &[],
        }
    }

    /// The interaction points of an instance of a body.
    pub fn ips(&self, number: u32) -> &[InteractionPoint]
        ensures { result.now ≡ ips_of self.now number }
    {
        match self.get(number) {
            Some(body) => body.ips.as_slice(),
            None => &[],
        }
    }

    /// How many of them are external.
    pub fn external(&self, number: u32) -> u32
        ensures { result ≡ (child_of self.now number).external }
    {
        match self.get(number) {
            Some(body) => body.external,
            None => 0,
        }
    }

    /// The types of the parameters of a body.
    pub fn parameters(&self, number: u32) -> &[Type]
        ensures { result.now ≡ (child_of self.now number).parameters }
    {
        match self.get(number) {
            Some(body) => body.parameters.as_slice(),
            None => &[],
        }
    }

    /// Whether a module variable of an instance of one body may hold a child of another body.
    pub fn may_hold(&self, parent: u32, variable: u32, number: u32) -> bool
        ensures { result ≡ may_hold self.now parent variable number }
    {
        match self.get(parent) {
            None => false,
            Some(parent) => match self.get(number) {
                None => false,
                Some(child) => may_be_child(parent, variable, child),
            },
        }
    }
}

/// Whether a module variable has this header.
fn is_headed(headers: &[u32], variable: u32, header: u32) -> bool
    ensures { result ≡ has_header (slice_get headers.now variable) header }
{
    match headers.get(variable as usize) {
        Some(at) => *at == header,
        None => false,
    }
}

fn allows(outer: Option<Attribute>, inner: Option<Attribute>) -> bool
    ensures { result ≡ allows outer inner }
{
    match (outer, inner) {
        (None, None) => true,
        (None, Some(Attribute::Systemprocess)) => true,
        (None, Some(Attribute::Systemactivity)) => true,
        (None, Some(Attribute::Process)) => false,
        (None, Some(Attribute::Activity)) => false,
        (Some(_), None) => false,
        (Some(_), Some(Attribute::Systemprocess)) => false,
        (Some(_), Some(Attribute::Systemactivity)) => false,
        (Some(_), Some(Attribute::Activity)) => true,
        (Some(Attribute::Systemprocess), Some(Attribute::Process)) => true,
        (Some(Attribute::Process), Some(Attribute::Process)) => true,
        (Some(Attribute::Systemactivity), Some(Attribute::Process)) => false,
        (Some(Attribute::Activity), Some(Attribute::Process)) => false,
    }
}

/// Whether a body has an attribute, or no transitions.
fn may_stand(body: &ModuleBody) -> bool
    ensures { result ≡ (is_some body.now.attribute || not body.now.has_transitions) }
{
    body.attribute.is_some() || !body.has_transitions
}

fn may_be_child(parent: &ModuleBody, variable: u32, child: &ModuleBody) -> bool
    ensures { result ≡ (has_header (slice_get parent.now.module_headers variable) child.now.header && (allows parent.now.attribute child.now.attribute && (is_some child.now.attribute || not child.now.has_transitions))) }
{
    is_headed(parent.module_headers.as_slice(), variable, child.header)
        && allows(parent.attribute, child.attribute)
        && may_stand(child)
}
