//! The sites of one operation, name, index or argument, whose operands are walked already.

ghost use Rattle.std.specs.Prelude.{◌≡◌, [], ◌∷◌, ◌++◌, Some, IfOk, OnOk};
ghost use Rattle.type_rules.specs.declared.sites.Site.TheVariants.{Operation, Wants, RoutineCalled, CallOf, VariableNamed};
ghost use Rattle.type_rules.specs.Meanings.{declaration_of, index_type, component_type, array_of};
ghost use Rattle.type_rules.specs.ExpressionSites as spec;
ghost use Rattle.pascal_check_sites.specs.TakenArguments.{first_or, taken_site, type_in};

use declaration_table::Table;
use estelle_tree::{Items, Name, Sequence, Sign, Span};
use std::alloc::AllocError;
use type_rules::{
    Access, Meaning, Members, Operator, Parameter, PascalType, Required, Site, Typed, Wanted,
    component_type, index_type, negated_typed, next_wanted, operated, required_argument,
    required_result, signed_typed, value_at, variable_type, whole_of, with_member,
};

/// An operation of two operands.
pub fn operation(
    operator: Operator,
    left: Typed,
    right: Typed,
    out: &mut Items<Site>,
) -> Result<Typed, AllocError>
    ensures typed { IfOk result (λ t. t ≡ spec.operated operator left right) }
    ensures sites { OnOk result (out.new ≡ out.old ++ Operation operator left right ∷ []) }
{
    out.push(Site::Operation {
        operator,
        left,
        right,
    })?;
    Ok(operated(operator, left, right))
}

/// The place of an expression wants this of it.
pub fn want(wanted: Wanted, operand: Typed, out: &mut Items<Site>) -> Result<(), AllocError>
    ensures { OnOk result (out.new ≡ out.old ++ Wants wanted operand ∷ []) }
{
    out.push(Site::Wants { wanted, operand })
}

/// The place of an expression wants that it fits a variable of this type, where that has one.
pub fn want_fitting(
    type_: Option<PascalType>,
    operand: Typed,
    out: &mut Items<Site>,
) -> Result<(), AllocError>
    ensures { OnOk result (out.new ≡ out.old ++ spec.wants_fitting type_ operand) }
{
    match type_ {
        None => Ok(()),
        Some(u) => want(Wanted::Fitting(u), operand, out),
    }
}

/// A term, behind a sign where it has one.
pub fn signed(
    at: Span,
    sign: Option<Sign>,
    operand: Typed,
    out: &mut Items<Site>,
) -> Result<Typed, AllocError>
    ensures typed { IfOk result (λ t. t ≡ (spec.signed at sign (record { typed = operand; sites = out.old })).typed) }
    ensures sites { OnOk result (out.new ≡ (spec.signed at sign (record { typed = operand; sites = out.old })).sites) }
{
    match sign {
        None => Ok(operand),
        Some(_) => {
            want(Wanted::AnInteger, operand, out)?;
            Ok(signed_typed(at, operand))
        }
    }
}

/// A factor behind `not`.
pub fn negated(at: Span, operand: Typed, out: &mut Items<Site>) -> Result<Typed, AllocError>
    ensures typed { IfOk result (λ t. t ≡ spec.negated_typed at operand) }
    ensures sites { OnOk result (out.new ≡ out.old ++ Wants (Wanted.ABoolean) operand ∷ []) }
{
    want(Wanted::ABoolean, operand, out)?;
    Ok(negated_typed(at, operand))
}

/// One more member of a set constructor.
pub fn member(
    members: Members,
    operand: Typed,
    out: &mut Items<Site>,
) -> Result<Members, AllocError>
    ensures members { IfOk result (λ m. m ≡ spec.with_member members operand) }
    ensures sites { OnOk result (out.new ≡ out.old ++ Wants (spec.next_wanted members) operand ∷ []) }
{
    want(next_wanted(members), operand, out)?;
    Ok(with_member(members, operand))
}

/// An argument for its parameter, where it has one.
pub fn argument(
    parameter: Option<Parameter>,
    actual: Typed,
    out: &mut Items<Site>,
) -> Result<(), AllocError>
    ensures { OnOk result (out.new ≡ out.old ++ spec.argument parameter actual) }
{
    match parameter {
        None => Ok(()),
        Some(parameter) => {
            if parameter.is_var {
                return out.push(Site::ForVariable {
                    parameter: parameter.type_,
                    actual,
                });
            }
            want_fitting(parameter.type_, actual, out)
        }
    }
}

/// The first parameter, if there is one.
pub fn first_of(parameters: &[Parameter]) -> Option<Parameter>
    ensures { result ≡ spec.first_of parameters.now }
{
    match parameters {
        [] => None,
        [parameter, ..] => Some(*parameter),
    }
}

/// The parameters behind the first.
pub fn rest_of(parameters: &[Parameter]) -> &[Parameter]
    ensures { result.now ≡ spec.rest_of parameters.now }
{
    match parameters {
        [] => parameters,
        [_, rest @ ..] => rest,
    }
}

/// The first argument of a required function, which is the one that it takes, where one more argument stands.
pub fn taken_first(
    required: Required,
    first: Option<Typed>,
    actual: Typed,
    out: &mut Items<Site>,
) -> Result<Option<Typed>, AllocError>
    ensures first { IfOk result (λ e. e ≡ Some (first_or first actual)) }
    ensures sites { OnOk result (out.new ≡ out.old ++ taken_site required first actual) }
{
    match first {
        None => {
            want(required_argument(required), actual, out)?;
            Ok(Some(actual))
        }
        Some(first) => Ok(Some(first)),
    }
}

/// The type of an argument, where there is one.
pub fn type_in(argument: Option<Typed>) -> Option<PascalType>
    ensures { result ≡ type_in argument }
{
    match argument {
        None => None,
        Some(actual) => actual.type_,
    }
}

/// The type that an index of an array must fit.
fn index_wanted(table: &Table, array: Option<PascalType>) -> Option<PascalType>
    ensures { result ≡ spec.given_by (λ u. index_type (array_of table.now u)) array }
{
    match array {
        None => None,
        Some(u) => index_type(table.array_of(u)),
    }
}

/// The type of an array's components.
fn component(table: &Table, array: Option<PascalType>) -> Option<PascalType>
    ensures { result ≡ spec.given_by (λ u. component_type (array_of table.now u)) array }
{
    match array {
        None => None,
        Some(u) => component_type(table.array_of(u)),
    }
}

/// An index on a variable.
pub fn indexed(
    table: &Table,
    array: Typed,
    index: Typed,
    out: &mut Items<Site>,
) -> Result<Typed, AllocError>
    ensures typed { IfOk result (λ t. t ≡ spec.component_of table.now array) }
    ensures sites { OnOk result (out.new ≡ out.old ++ spec.index_sites table.now array index) }
{
    want(Wanted::AnArray, array, out)?;
    want_fitting(index_wanted(table, array.type_), index, out)?;
    Ok(Typed {
        at: array.at,
        type_: component(table, array.type_),
        access: array.access,
    })
}

/// The field of a record, or an exported variable of a child.
pub fn field(table: &Table, of: Typed, name: &Name) -> Typed
    ensures { result ≡ spec.field_typed table.now of name.now }
{
    Typed {
        at: of.at,
        type_: variable_type(table.known(name)),
        access: of.access,
    }
}

/// A routine is called.
pub fn routine_called(
    table: &Table,
    name: &Name,
    body: u32,
    out: &mut Items<Site>,
) -> Result<(), AllocError>
    ensures { OnOk result (out.new ≡ out.old ++ RoutineCalled name.now.span (declaration_of table.now name.now) body ∷ []) }
{
    out.push(Site::RoutineCalled {
        at: name.span,
        declared: table.declaration_of(name),
        body,
    })
}

/// So many arguments for so many parameters.
pub fn call_of(
    at: Span,
    parameters: usize,
    arguments: usize,
    out: &mut Items<Site>,
) -> Result<(), AllocError>
    ensures { OnOk result (out.new ≡ out.old ++ CallOf at parameters arguments ∷ []) }
{
    out.push(Site::CallOf {
        at,
        parameters,
        arguments,
    })
}

/// A variable or a module variable is named.
fn variable_named(
    table: &Table,
    name: &Name,
    type_: Option<PascalType>,
    access: Access,
    out: &mut Items<Site>,
) -> Result<Typed, AllocError>
    ensures typed { IfOk result (λ t. t ≡ record { at = name.now.span; type_ = type_; access = access }) }
    ensures sites { OnOk result (out.new ≡ out.old ++ VariableNamed name.now.span (declaration_of table.now name.now) ∷ []) }
{
    out.push(Site::VariableNamed {
        at: name.span,
        declared: table.declaration_of(name),
    })?;
    Ok(Typed {
        at: name.span,
        type_,
        access,
    })
}

/// A name alone: a variable, a constant, or a function that is called without arguments.
pub fn named(table: &Table, name: &Name, out: &mut Items<Site>) -> Result<Typed, AllocError>
    ensures typed { IfOk result (λ t. t ≡ (spec.named table.now name.now).typed) }
    ensures sites { OnOk result (out.new ≡ out.old ++ (spec.named table.now name.now).sites) }
{
    match table.known(name) {
        Meaning::Constant { host, .. } => Ok(value_at(name.span, whole_of(host))),
        Meaning::Variable(type_) => variable_named(table, name, type_, Access::OwnVariable, out),
        Meaning::ModuleVariable => variable_named(table, name, None, Access::OfChild, out),
        Meaning::Function { type_, body } => {
            routine_called(table, name, body, out)?;
            call_of(name.span, table.parameters(name).len(), 0, out)?;
            Ok(value_at(name.span, type_))
        }
        Meaning::RequiredFunction(required) => {
            call_of(name.span, 1, 0, out)?;
            Ok(value_at(name.span, required_result(required, None)))
        }
        _ => Ok(value_at(name.span, None)),
    }
}
