//! Bodies in one another, and whole specifications.

ghost use Rattle.std.specs.Prelude.{◌≡◌, ◌∷◌, [], fold, OnOk};
ghost use Rattle.std.specs.List.{flat_map};
ghost use Rattle.tree_visits.specs.Nodes.{around};
ghost use Rattle.tree_visits.specs.Taking.{after_visits, after_nodes};
ghost use Rattle.tree_visits.specs.Visit.{RoutineDeclared, BodyDeclared};
ghost use Rattle.tree_visits.specs.Visits as spec;

use crate::clauses::{init, trans};
use crate::node::{Node, Within};
use crate::statements::defined;
use crate::visitor::Visitor;
use estelle_tree::{Body, Decl, Parts, Routine, Sequence, Spec, Trans};
use std::alloc::AllocError;

/// A routine, and what stands in it.
fn routine<V: Visitor>(
    routine: &Routine,
    within: &Within,
    visitor: &mut V,
) -> Result<(), AllocError>
    ensures { OnOk result (visitor.new ≡ after_nodes V.step (spec.in_routine (around within.now) routine.now) (after_nodes V.step (around within.now) visitor.old (RoutineDeclared routine.now ∷ [])) (spec.defined routine.now.decls routine.now.body)) }
{
    visitor.see(within, &Node::Routine(routine))?;
    let inside = Within {
        header: within.header,
        attr: within.attr,
        span: within.span,
        routine: Some(routine),
        received: within.received,
        delayed: within.delayed,
    };
    defined(routine.decls.items(), &routine.body, &inside, visitor)
}

fn transitions<V: Visitor>(
    transitions: &[Trans],
    within: &Within,
    visitor: &mut V,
) -> Result<(), AllocError>
    ensures { OnOk result (visitor.new ≡ after_visits V.step visitor.old (flat_map (spec.trans (around within.now)) transitions.now)) }
{
    for inner in transitions {
        trans(inner, within, visitor)?;
    }
    Ok(())
}

#[cycle(bodies)]
fn parts<V: Visitor>(parts: &Parts, within: &Within, visitor: &mut V) -> Result<(), AllocError>
    ensures { OnOk result (visitor.new ≡ after_visits V.step visitor.old (spec.parts parts.now (around within.now))) }
{
    let begun = parts.decls.items();
    let trans = parts.trans.items();
    visitor.see(
        within,
        &Node::Begins {
            decls: begun,
            trans,
        },
    )?;
    decls(begun, within, visitor)?;
    init(&parts.init, within, visitor)?;
    transitions(trans, within, visitor)
}

#[cycle(bodies)]
fn decls<V: Visitor>(decls: &[Decl], within: &Within, visitor: &mut V) -> Result<(), AllocError>
    ensures { OnOk result (visitor.new ≡ after_visits V.step visitor.old (flat_map (λ d. (spec.decl d).visits (around within.now)) decls.now)) }
{
    for inner in decls {
        decl(inner, within, visitor)?;
    }
    Ok(())
}

#[cycle(bodies)]
fn decl<V: Visitor>(decl: &Decl, within: &Within, visitor: &mut V) -> Result<(), AllocError>
    ensures { OnOk result (visitor.new ≡ after_visits V.step visitor.old ((spec.decl decl.now).visits (around within.now))) }
{
    match decl {
        Decl::Const { defs, .. } => {
            let defs = defs.items();
            visitor.see(within, &Node::Constants { defs })
        }
        Decl::Types { defs, .. } => {
            let defs = defs.items();
            visitor.see(within, &Node::Types { defs })
        }
        Decl::Channel(channel) => visitor.see(within, &Node::Channel(channel)),
        Decl::Header(header) => visitor.see(within, &Node::Header(header)),
        Decl::Body(inner) => body(inner, within, visitor),
        Decl::Ip { ips, .. } => {
            let ips = ips.items();
            visitor.see(within, &Node::Ips { ips })
        }
        Decl::Modvar { modvars, .. } => {
            let modvars = modvars.items();
            visitor.see(within, &Node::ModuleVariables { modvars })
        }
        Decl::Var { vars, .. } => {
            let vars = vars.items();
            visitor.see(within, &Node::Variables { vars })
        }
        Decl::State { states, .. } => visitor.see(within, &Node::States(states)),
        Decl::Stateset { sets, .. } => {
            let sets = sets.items();
            visitor.see(within, &Node::StateSets { sets })
        }
        Decl::Routine(inner) => routine(inner, within, visitor),
    }
}

#[cycle(bodies)]
fn body<V: Visitor>(body: &Body, within: &Within, visitor: &mut V) -> Result<(), AllocError>
    ensures { OnOk result (visitor.new ≡ after_visits V.step visitor.old (spec.body body.now (around within.now))) }
{
    let span = body.span;
    visitor.see(
        within,
        &Node::Body {
            name: &body.name,
            header: &body.header,
            span,
        },
    )?;
    let inside = Within {
        header: Some(&body.header),
        attr: None,
        span,
        routine: None,
        received: false,
        delayed: false,
    };
    parts(&body.parts, &inside, visitor)
}

/// Shows a visitor the nodes of a specification in text order, each with what it stands in. It goes no deeper than the
/// text is nested.
#[tactic(auto, using(crate::proofs::Taken::visits_whole))]
pub fn walk<V: Visitor>(tree: &Spec, visitor: &mut V) -> Result<(), AllocError>
    ensures { OnOk result (visitor.new ≡ fold V.step visitor.old (spec.visits tree.now)) }
{
    let within = Within {
        header: None,
        attr: tree.attr,
        span: tree.span,
        routine: None,
        received: false,
        delayed: false,
    };
    parts(&tree.parts, &within, visitor)
}
