//! What has which number.

ghost use Rattle.std.specs.Prelude.{◌≡◌, length, map, nat_eq, IfOk};
ghost use Rattle.std.specs.Option.{option_copied};
ghost use Rattle.estelle_model.specs.Types.{shape_of};
ghost use Rattle.estelle_model.specs.Bodies.{bodies};
ghost use Rattle.body_program_numbers.specs.Found.{routines};
ghost use Rattle.body_program_numbers.specs.Numbering as spec;
ghost use Rattle.body_program_numbers.specs.Numbering.{numbers_of, number_of, routine_of, routines_of, export_of, interaction_of, parameters_of, word_of_body};

use crate::kinds::{ChannelInteractions, all_interactions};
use crate::lists::all_routine_places;
use crate::numbers::all_numbers;
use crate::outline::{Outline, Standing, outline_of};
use crate::places::number_lists;
use body_numbers::{IpNumbers, Numbers};
use body_program::Program;
use estelle_model::{Denoter, InteractionKind, Meaning, Type};
use estelle_tree::{Items, Name, Routine, Sequence, Span, Spec, Word};
use place_table::Places;
use std::alloc::{AllocError, Global};
use std::marker::Model;
use type_shapes::{NumberedShapes, shape_of};

/// The numbers of a specification, with the number of each thing that an instruction names. It is seen as the program is: the
/// specification with what its names mean.
pub struct Numbering<'a> {
    program: &'a Program<'a>,
    /// The specification's own name.
    name: &'a Name,
    numbers: Numbers,
    /// The first number of each shape.
    shapes: NumberedShapes,
    bodies: Items<Standing<'a>>,
    /// Of a body that is not there.
    none: Items<&'a Routine>,
    /// By the place of its name, the body and the number of each routine.
    routines: Places<(u32, u32)>,
    /// By the place of its name, the channel and the number of each interaction.
    interactions: Places<(u32, u32)>,
}

impl Drop for Numbering<'_> {
    fn drop(self) {
        let Numbering {
            program: _,
            name: _,
            numbers: _,
            shapes: _,
            bodies: _,
            none: _,
            routines: _,
            interactions: _,
        } = self;
    }
}

impl<'a> Model for Numbering<'a> {
    ghost use Rattle.std.specs.Coded.{codes};
    ghost use Rattle.estelle_tree.specs.contracts.tree.specification.Spec as of_specs;
    ghost use Rattle.estelle_model.specs.Subject.{Subject};

    ghost Value = { Subject };

    ghost coded = { Prim.hlevel (codes, of_specs.the_row.coded) };

    ghost use Rattle.body_program_numbers.specs.Held.{HoldsAll};

    ghost view = { λ n. n.program.now };

    ghost invariant = { HoldsAll };
}

/// Where a declaration stands; nowhere for a required identifier.
fn place_behind(decl: Option<Span>) -> Option<u32>
    ensures { result ≡ spec.place_behind decl }
{
    match decl {
        None => None,
        Some(decl) => {
            if decl.end == 0 {
                return None;
            }
            Some(decl.start)
        }
    }
}

fn if_it_is(number: u32, variable: u32, found: Option<&u32>) -> Option<u32>
    ensures { result ≡ spec.if_it_is number variable (option_copied found.entry) }
{
    match found {
        None => None,
        Some(found) => {
            if *found == variable {
                return Some(number);
            }
            None
        }
    }
}

/// The number of the export that a variable is.
fn export_in(exports: &[u32], variable: u32) -> Option<u32>
    ensures { result ≡ spec.export_in exports.now variable }
{
    match exports {
        [] => None,
        [first, ..] => {
            let number = variable.saturating_sub(*first);
            if_it_is(number, variable, exports.get(number as usize))
        }
    }
}

/// The exports of the header of a module variable.
fn exports_of(numbers: &Numbers, body: u32, modvar: u32) -> Option<&[u32]>
    ensures { option_copied result ≡ spec.exports_of numbers.now body modvar }
{
    let body = numbers.bodies.get(body as usize)?;
    let header = body.module_variables.get(modvar as usize)?;
    match numbers.headers.get(*header as usize) {
        None => None,
        Some(exports) => Some(exports.items()),
    }
}

fn point_numbered(numbers: &Numbers, body: u32, ip: u32) -> Option<&IpNumbers>
    ensures { option_copied result ≡ spec.point_numbered numbers.now body ip }
{
    let body = numbers.bodies.get(body as usize)?;
    body.ips.get(ip as usize)
}

fn has_word(word: &Word, kind: Option<&InteractionKind>) -> bool
    ensures { result ≡ spec.has_word word.now (option_copied kind.entry) }
{
    match kind {
        None => false,
        Some(kind) => kind.word.items() == word.items(),
    }
}

/// The number of an interaction that is of the point's channel and has the word of its name.
fn number_at(
    numbers: &Numbers,
    body: u32,
    interaction: &Name,
    point: &IpNumbers,
    ip: u32,
    number: (u32, u32),
) -> Option<u32>
    ensures { result ≡ spec.number_at numbers.now body interaction.now point.now ip number }
{
    if number.0 != point.channel {
        return None;
    }
    if has_word(&interaction.word, numbers.interaction(body, ip, number.1)) {
        return Some(number.1);
    }
    None
}

impl<'a> Numbering<'a> {
    pub fn new(
        alloc: Global,
        spec: &'a Spec,
        program: &'a Program<'a>,
    ) -> Result<Numbering<'a>, AllocError>
        requires { spec.now ≡ program.now.specification }
        ensures { IfOk result (λ numbering. numbering ≡ program.now) }
    {
        let outline = outline_of(alloc, spec)?;
        let table = program.table();
        let channels = outline.channels.items();
        let all = all_interactions(table, channels)?;
        let ChannelInteractions { places, kinds } = all;
        let numbers = all_numbers(alloc, spec, program, &outline, kinds)?;
        let all_shapes = numbers.shapes.items();
        let shapes = NumberedShapes::of(alloc, all_shapes)?;
        let interaction_places = places.items();
        let interactions = number_lists(alloc, interaction_places)?;
        let Outline { bodies, .. } = outline;
        let found = bodies.items();
        let routine_lists = all_routine_places(alloc, found)?;
        let routine_places = routine_lists.items();
        let routines = number_lists(alloc, routine_places)?;
        Ok(Numbering {
            program,
            name: &spec.name,
            numbers,
            shapes,
            bodies,
            none: Items::new(alloc),
            routines,
            interactions,
        })
    }

    pub fn program(&self) -> &'a Program<'a>
        ensures { result.now ≡ self.now }
    {
        self.program
    }

    pub fn numbers(&self) -> &Numbers
        ensures { result.now ≡ numbers_of self.now }
    {
        &self.numbers
    }

    /// The number of a type's shape.
    pub fn shape(&self, alloc: Global, denoter: &Denoter) -> Result<Option<u32>, AllocError>
        ensures { IfOk result (λ number. number ≡ number_of self.now (shape_of denoter.now)) }
    {
        let shape = shape_of(alloc, denoter)?;
        self.shapes.find(alloc, &shape)
    }

    /// Where the declaration of a name stands.
    fn declared_at(&self, name: &Name) -> Option<u32>
        ensures { result ≡ spec.declared_at self.now name.now }
    {
        place_behind(self.program.table().declaration_of(name))
    }

    /// The body of the routine that a name means, and its number there.
    pub fn routine(&self, name: &Name) -> Option<(u32, u32)>
        ensures { result ≡ routine_of self.now name.now }
    {
        match self.declared_at(name) {
            None => None,
            Some(place) => self.routines.get(place).copied(),
        }
    }

    /// The export that a variable of the child in a module variable of a body is.
    pub fn export(&self, body: u32, modvar: u32, variable: u32) -> Option<u32>
        ensures { result ≡ export_of self.now body modvar variable }
    {
        match exports_of(self.numbers(), body, modvar) {
            None => None,
            Some(exports) => export_in(exports, variable),
        }
    }

    /// The channel and the number of the interaction that is declared where the declaration of a name stands.
    fn interaction_place(&self, interaction: &Name) -> Option<(u32, u32)>
        ensures { result ≡ spec.interaction_place self.now interaction.now }
    {
        match self.declared_at(interaction) {
            None => None,
            Some(place) => self.interactions.get(place).copied(),
        }
    }

    /// Of the interaction that a name means, at a point.
    fn interaction_at(
        &self,
        body: u32,
        interaction: &Name,
        ip: u32,
        point: &IpNumbers,
    ) -> Option<u32>
        ensures { result ≡ spec.interaction_at_point self.now body interaction.now ip point.now }
    {
        match self.interaction_place(interaction) {
            None => None,
            Some(found) => number_at(self.numbers(), body, interaction, point, ip, found),
        }
    }

    fn interaction_by(
        &self,
        body: u32,
        ip: &Name,
        interaction: &Name,
        number: u32,
        point: &IpNumbers,
    ) -> Option<u32>
        ensures { result ≡ spec.interaction_by self.now body ip.now interaction.now number point.now }
    {
        if point.word.items() != ip.word.items() {
            return None;
        }
        self.interaction_at(body, interaction, number, point)
    }

    fn interaction_meant(
        &self,
        body: u32,
        ip: &Name,
        interaction: &Name,
        meaning: &Meaning,
    ) -> Option<u32>
        ensures { result ≡ spec.interaction_meant self.now body ip.now interaction.now meaning.now }
    {
        match meaning {
            Meaning::Ip(number) => match point_numbered(self.numbers(), body, *number) {
                None => None,
                Some(point) => self.interaction_by(body, ip, interaction, *number, point),
            },
            _ => None,
        }
    }

    /// The number of an interaction among those of the channel of an interaction point of a body.
    pub fn interaction(&self, body: u32, ip: &Name, interaction: &Name) -> Option<u32>
        ensures { result ≡ interaction_of self.now body ip.now interaction.now }
    {
        let meaning = self.program.table().meaning(ip);
        self.interaction_meant(body, ip, interaction, meaning)
    }

    /// The types of the parameters of a body.
    pub fn parameters(&self, body: u32) -> Option<&[Type]>
        ensures { option_copied result ≡ parameters_of self.now body }
    {
        match self.program.bodies().get(body) {
            None => None,
            Some(body) => Some(body.parameters.items()),
        }
    }

    /// How many bodies there are, the specification among them.
    pub fn bodies(&self) -> usize
        ensures { result ≡ length (bodies self.now.specification) }
    {
        self.bodies.len()
    }

    /// The word of a body.
    pub fn word(&self, body: u32) -> Option<&Word>
        ensures { option_copied result ≡ word_of_body self.now body }
    {
        match self.bodies.get(body as usize) {
            None => None,
            Some(body) => match body.name {
                None => Some(&self.name.word),
                Some(name) => Some(&name.word),
            },
        }
    }

    /// The routines of a body in the order of their declaration.
    pub fn routines(&self, body: u32) -> &[&'a Routine]
        ensures { routines result.now ≡ routines_of self.now body }
    {
        match self.bodies.get(body as usize) {
            None => self.none.items(),
            Some(body) => body.routines.items(),
        }
    }
}
