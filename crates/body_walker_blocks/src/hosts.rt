//! The host types of expressions: no evaluation is needed to tell them.

ghost use Rattle.std.specs.Prelude.{◌≡◌};
ghost use Rattle.estelle_model.specs.declared.place.Environment.{Environment};
ghost use Rattle.std.specs.Option.{option_copied};
ghost use Rattle.estelle_model.specs.Expressions as expressions;
ghost use Rattle.body_walker_blocks.specs.Scopes.{meanings};
ghost use Rattle.body_walker_blocks.specs.Walked as walked;
ghost use Rattle.body_walker_blocks.specs.Hosts as spec;

use crate::places::behind_beginning;
use crate::scope::Scope;
use body_values::{field_of, item_of, required_host};
use estelle_model::{Denoter, Host, Meaning, Type, host_of};
use estelle_tree::{Adding, Expr, Factor, Multiplying, Name, Selector, Sequence, Simple, Term};

/// The host of an expression's type.
#[cycle(hosts)]
pub fn host(scope: &Scope, node: &Expr) -> Host
    ensures { (here : Environment) → result ≡ (walked.expr scope.now here node.now).host }
{
    match node.right {
        None => simple_host(scope, &node.left),
        Some(_) => Host::Boolean,
    }
}

#[cycle(hosts)]
fn simple_host(scope: &Scope, node: &Simple) -> Host
    ensures { (here : Environment) → result ≡ (walked.simple scope.now here node.now).host }
{
    match (node.others.items(), node.sign) {
        ([], None) => term_host(scope, &node.first),
        ([], Some(_)) => Host::Integer,
        ([.., last], _) => added_host(last.0),
    }
}

fn added_host(operator: Adding) -> Host
    ensures { result ≡ expressions.added_host operator }
{
    match operator {
        Adding::Or => Host::Boolean,
        Adding::Plus | Adding::Minus => Host::Integer,
    }
}

#[cycle(hosts)]
fn term_host(scope: &Scope, node: &Term) -> Host
    ensures { (here : Environment) → result ≡ (walked.term scope.now here node.now).host }
{
    match node.others.items() {
        [] => factor_host(scope, &node.first),
        [.., last] => multiplied_host(last.0),
    }
}

fn multiplied_host(operator: Multiplying) -> Host
    ensures { result ≡ expressions.multiplied_host operator }
{
    match operator {
        Multiplying::And => Host::Boolean,
        Multiplying::Star | Multiplying::Div | Multiplying::Mod => Host::Integer,
    }
}

#[cycle(hosts)]
fn factor_host(scope: &Scope, node: &Factor) -> Host
    ensures { (here : Environment) → result ≡ (walked.factor scope.now here node.now).host }
{
    match node {
        Factor::Number { .. } => Host::Integer,
        Factor::Char { .. } => Host::Char,
        Factor::Variable(variable) => {
            named_host(scope, &variable.name, variable.selectors.items())
        }
        Factor::Call { name, args, .. } => call_host(scope, name, args.exprs.items()),
        Factor::Paren { inner, .. } => host(scope, inner.get()),
        Factor::Not { .. } => Host::Boolean,
        Factor::Set { .. } => Host::Integer,
    }
}

/// The host of a function designator's type.
#[cycle(hosts)]
fn call_host(scope: &Scope, name: &Name, exprs: &[Expr]) -> Host
    ensures { (here : Environment) → result ≡ (walked.designated scope.now here name.now exprs.now).host }
{
    match scope.meaning(name) {
        Meaning::Called(routine) => result_host(&routine.result),
        Meaning::RequiredFunction(required) => {
            let [argument] = exprs else {
                return Host::Integer;
            };
            required_host(*required, host(scope, argument))
        }
        _ => Host::Integer,
    }
}

fn result_host(type_: &Option<Type>) -> Host
    ensures { result ≡ expressions.result_host type_.now }
{
    match type_ {
        None => Host::Integer,
        Some(denoter) => host_of(denoter.denoter()),
    }
}

/// The host of the type of a name with selectors.
fn named_host(scope: &Scope, name: &Name, selectors: &[Selector]) -> Host
    ensures { (here : Environment) → result ≡ (walked.valued scope.now here name.now selectors.now).host }
{
    let meaning = scope.meaning(name);
    match meaning {
        Meaning::Constant { host, .. } => *host,
        Meaning::Called(routine) => result_host(&routine.result),
        _ => match accessed_type(scope, meaning, selectors) {
            None => Host::Integer,
            Some(denoter) => host_of(denoter),
        },
    }
}

/// The type of a variable access, where it is one.
fn accessed_type<'t>(
    scope: &'t Scope,
    meaning: &'t Meaning,
    selectors: &[Selector],
) -> Option<&'t Denoter>
    ensures { option_copied result ≡ spec.accessed_type (meanings scope.now) meaning.now selectors.now }
{
    let mut denoter = begun_type(scope, meaning, selectors)?;
    for selector in behind_beginning(meaning, selectors) {
        denoter = component(scope, denoter, selector);
    }
    Some(denoter)
}

/// The type of where an access begins.
fn begun_type<'t>(
    scope: &'t Scope,
    meaning: &'t Meaning,
    selectors: &[Selector],
) -> Option<&'t Denoter>
    ensures { option_copied result ≡ spec.begun_type (meanings scope.now) meaning.now selectors.now }
{
    match meaning {
        Meaning::Own { denoter, .. }
        | Meaning::Exported { denoter, .. }
        | Meaning::Local { denoter, .. }
        | Meaning::Var { denoter, .. } => Some(denoter.denoter()),
        Meaning::Module(_) => exported_type(scope, selectors),
        _ => None,
    }
}

/// The type of a child's exported variable.
fn exported_type<'t>(scope: &'t Scope, selectors: &[Selector]) -> Option<&'t Denoter>
    ensures { option_copied result ≡ spec.exported_type (meanings scope.now) selectors.now }
{
    match selectors {
        [Selector::Field(name), ..] => match scope.meaning(name) {
            Meaning::Exported { denoter, .. } => Some(denoter.denoter()),
            _ => None,
        },
        _ => None,
    }
}

/// The type of a component.
fn component<'t>(scope: &Scope, denoter: &'t Denoter, selector: &Selector) -> &'t Denoter
    ensures { result.now ≡ spec.component (meanings scope.now) denoter.now selector.now }
{
    match selector {
        Selector::Index(exprs) => item_behind(denoter, exprs.items().len()),
        Selector::Field(name) => match scope.meaning(name) {
            Meaning::Field(number) => field_of(denoter, *number),
            _ => denoter,
        },
    }
}

/// The type of the items behind so many indices.
fn item_behind(denoter: &Denoter, indices: usize) -> &Denoter
    ensures { result.now ≡ spec.item_behind denoter.now indices }
{
    let mut item = denoter;
    for _ in 0..indices {
        item = item_of(item);
    }
    item
}
