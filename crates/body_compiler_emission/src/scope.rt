//! What is known where a unit is written.

ghost use Rattle.std.specs.Prelude.{◌≡◌, ◌++◌, IfOk, OnOk, Some};
ghost use Rattle.std.specs.Option.{option_copied};
ghost use Rattle.std.specs.Result.{result_ok};
ghost use Rattle.estelle_model.specs.Types.{shape_of, ordinal_of};
ghost use Rattle.estelle_model.specs.Operators.{◌>>>◌};
ghost use Rattle.estelle_model.specs.Constants.{constant_of};
ghost use Rattle.body_compiler_pieces.specs.UnitCode as spec;
ghost use Rattle.body_compiler_emission.specs.Scopes as scopes;
ghost use Rattle.body_compiler_emission.specs.Scopes.{scope_of};

use crate::draft;
use crate::draft::behind;
use body_program_numbers::Numbering;
use estelle_model::{Denoter, Meaning, Passing, Type};
use estelle_tree::{Const, Items, Name, Sequence};
use meaning_table::{Table, ordinal_of_const};
use std::alloc::{AllocError, Global};
use std::marker::Model;

/// What names mean and which numbers things have in the body of a unit, and the routine that the unit is of, by its parameters and
/// the number of its own variables with its result.
pub struct Scope<'s> {
    pub(crate) alloc: Global,
    table: &'s Table<'s>,
    numbering: &'s Numbering<'s>,
    body: u32,
    parameters: &'s [Passing],
    /// The locals of parameters by value, and those of var parameters.
    by_value: Items<u32>,
    by_place: Items<u32>,
    own: usize,
}

impl Drop for Scope<'_> {
    fn drop(self) {
        let Scope {
            alloc: _,
            table: _,
            numbering: _,
            body: _,
            parameters: _,
            by_value: _,
            by_place: _,
            own: _,
        } = self;
    }
}

impl<'s> Model for Scope<'s> {
    ghost use Rattle.std.specs.Prelude.{◌≡◌};
    ghost use Rattle.std.specs.Coded.{codes};
    ghost use Rattle.pascal_values.specs.contracts.value.Value as of_values;
    ghost use Rattle.estelle_model.specs.contracts.denoter.Denoter as of_denoters;
    ghost use Rattle.estelle_tree.specs.contracts.tree.statement.Stmts as of_statements;
    ghost use Rattle.estelle_tree.specs.contracts.tree.specification.Spec as of_specs;
    ghost use Rattle.body_compiler_emission.specs.Scopes.{Scoped, value_locals, place_locals};

    ghost Value = { Scoped };

    ghost coded = { Prim.hlevel (codes, of_values.the_row.coded, of_denoters.the_row.coded, of_statements.the_row.coded, of_specs.the_row.coded) };

    ghost view = { λ s. record { named = s.table.now; subject = s.numbering.now; body = s.body; parameters = s.parameters.now; own = s.own } };

    ghost invariant = { λ s. (s.by_value ≡ value_locals 0 s.parameters.now) × (s.by_place ≡ place_locals 0 s.parameters.now) };
}

fn push_value_local(
    locals: &mut Items<u32>,
    local: u32,
    passing: &Passing,
) -> Result<(), AllocError>
    ensures { OnOk result (locals.new ≡ locals.old ++ scopes.value_local local passing.now) }
{
    match passing {
        Passing::ByValue(_) => locals.push(local),
        Passing::ByPlace => Ok(()),
    }
}

/// The locals of parameters by value.
#[tactic(auto, using(crate::proofs::Locals::value_next, crate::proofs::Locals::value_end))]
fn value_locals(alloc: Global, parameters: &[Passing]) -> Result<Items<u32>, AllocError>
    ensures { IfOk result (λ locals. locals ≡ scopes.value_locals 0 parameters.now) }
{
    let mut locals = Items::new(alloc);
    let mut local = 0;
    for passing in parameters {
        push_value_local(&mut locals, local, passing)?;
        local = behind(local, 1)?;
    }
    Ok(locals)
}

fn push_place_local(
    locals: &mut Items<u32>,
    local: u32,
    passing: &Passing,
) -> Result<(), AllocError>
    ensures { OnOk result (locals.new ≡ locals.old ++ scopes.place_local local passing.now) }
{
    match passing {
        Passing::ByValue(_) => Ok(()),
        Passing::ByPlace => locals.push(local),
    }
}

/// The locals of var parameters.
#[tactic(auto, using(crate::proofs::Locals::place_next, crate::proofs::Locals::place_end))]
fn place_locals(alloc: Global, parameters: &[Passing]) -> Result<Items<u32>, AllocError>
    ensures { IfOk result (λ locals. locals ≡ scopes.place_locals 0 parameters.now) }
{
    let mut locals = Items::new(alloc);
    let mut local = 0;
    for passing in parameters {
        push_place_local(&mut locals, local, passing)?;
        local = behind(local, 1)?;
    }
    Ok(locals)
}

/// The local that a variable of the frame is.
fn local_of(
    parameters: &[Passing],
    by_value: &Items<u32>,
    own: usize,
    number: u32,
) -> Result<u32, AllocError>
    requires { by_value.now ≡ scopes.value_locals 0 parameters.now }
    ensures { IfOk result (λ i. spec.local_of parameters.now own number ≡ Some i) }
{
    let at = number as usize;
    match by_value.get(at) {
        Some(local) => Ok(*local),
        None => {
            let left = at.saturating_sub(by_value.len());
            if left >= own {
                return Err(AllocError);
            }
            let local = draft::number(parameters.len())?;
            let local = behind(local, draft::number(left)?)?;
            Ok(local)
        }
    }
}

/// The local that a var parameter is.
fn reference_of(
    parameters: &[Passing],
    by_place: &Items<u32>,
    number: u32,
) -> Result<u32, AllocError>
    requires { by_place.now ≡ scopes.place_locals 0 parameters.now }
    ensures { IfOk result (λ i. spec.reference_of parameters.now number ≡ Some i) }
{
    match by_place.get(number as usize) {
        Some(local) => Ok(*local),
        None => Err(AllocError),
    }
}

impl<'s> Scope<'s> {
    pub fn new(
        alloc: Global,
        table: &'s Table<'s>,
        numbering: &'s Numbering<'s>,
        body: u32,
        parameters: &'s [Passing],
        own: usize,
    ) -> Result<Scope<'s>, AllocError>
        ensures { IfOk result (λ scope. scope ≡ record { named = table.now; subject = numbering.now; body = body; parameters = parameters.now; own = own }) }
    {
        let by_value = value_locals(alloc, parameters)?;
        let by_place = place_locals(alloc, parameters)?;
        Ok(Scope {
            alloc,
            table,
            numbering,
            body,
            parameters,
            by_value,
            by_place,
            own,
        })
    }

    /// What a name means.
    pub fn meaning(&self, name: &Name) -> &Meaning<'s>
        ensures { result.now ≡ (scope_of self.now).meant name.now }
    {
        self.table.meaning(name)
    }

    /// The ordinal of a constant, where it has one.
    pub fn ordinal(&self, constant: &Const) -> Option<i64>
        ensures { result ≡ result_ok (constant_of (scope_of self.now).meant constant.now >>> ordinal_of) }
    {
        ordinal_of_const(self.table, constant)
    }

    pub fn routine(&self, name: &Name) -> Option<(u32, u32)>
        ensures { result ≡ (scope_of self.now).routine name.now }
    {
        self.numbering.routine(name)
    }

    pub fn export(&self, modvar: u32, variable: u32) -> Option<u32>
        ensures { result ≡ (scope_of self.now).export modvar variable }
    {
        self.numbering.export(self.body, modvar, variable)
    }

    pub fn interaction(&self, ip: &Name, interaction: &Name) -> Option<u32>
        ensures { result ≡ (scope_of self.now).interaction ip.now interaction.now }
    {
        self.numbering.interaction(self.body, ip, interaction)
    }

    pub fn parameters(&self, body: u32) -> Option<&[Type]>
        ensures { option_copied result ≡ (scope_of self.now).parameters body }
    {
        self.numbering.parameters(body)
    }

    /// The number of a type's shape.
    pub fn shape(&self, denoter: &Denoter) -> Result<u32, AllocError>
        ensures { IfOk result (λ n. (scope_of self.now).number (shape_of denoter.now) ≡ Some n) }
    {
        match self.numbering.shape(self.alloc, denoter)? {
            None => Err(AllocError),
            Some(number) => Ok(number),
        }
    }

    /// The local that a variable of the frame is.
    pub fn local(&self, number: u32) -> Result<u32, AllocError>
        ensures { IfOk result (λ i. (scope_of self.now).local number ≡ Some i) }
    {
        local_of(self.parameters, &self.by_value, self.own, number)
    }

    /// The local that a var parameter is.
    pub fn reference(&self, number: u32) -> Result<u32, AllocError>
        ensures { IfOk result (λ i. (scope_of self.now).reference number ≡ Some i) }
    {
        reference_of(self.parameters, &self.by_place, number)
    }
}
