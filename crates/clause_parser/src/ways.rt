//! Which kinds of clauses stand on the way from `trans` down to a place.

ghost use Rattle.std.specs.Prelude.{◌≡◌, false, ◌||◌};
ghost use denote.Enum.Bare.{sameb};
ghost use Rattle.estelle_tree.specs.contracts.kind.Kind.{the_type};
ghost use Rattle.estelle_tree.specs.declared.kind.Kind.{Kind};
ghost use Rattle.estelle_tree.specs.Clauses.{of_clause};
ghost use Rattle.clause_parser.specs.Way as spec;

use estelle_tree::{Clause, Kind};

/// The kinds of clauses that stand on a way: each at most once.
#[derive(Clone, Copy)]
pub struct Way {
    from: bool,
    to: bool,
    when: bool,
    provided: bool,
    priority: bool,
    any: bool,
    delay: bool,
}

impl Way {
    /// The way to the place behind `trans`.
    pub fn new() -> Way
        ensures { (x : Kind) → spec.stands_on result x ≡ false }
    {
        Way {
            from: false,
            to: false,
            when: false,
            provided: false,
            priority: false,
            any: false,
            delay: false,
        }
    }

    /// Whether a clause of this kind stands on the way.
    pub fn holds(&self, kind: Kind) -> bool
        ensures { result ≡ spec.stands_on self.now kind }
    {
        match kind {
            Kind::From => self.from,
            Kind::To => self.to,
            Kind::When => self.when,
            Kind::Provided => self.provided,
            Kind::Priority => self.priority,
            Kind::Any => self.any,
            Kind::Delay => self.delay,
            _ => false,
        }
    }

    /// The way that goes on behind this clause.
    pub fn behind(self, clause: &Clause) -> Way
        ensures { (x : Kind) → spec.stands_on result x ≡ (sameb the_type x (of_clause clause.now) || spec.stands_on self x) }
    {
        match clause {
            Clause::From { .. } => Way { from: true, ..self },
            Clause::To { .. } => Way { to: true, ..self },
            Clause::When { .. } => Way { when: true, ..self },
            Clause::Provided { .. } => Way {
                provided: true,
                ..self
            },
            Clause::Priority { .. } => Way {
                priority: true,
                ..self
            },
            Clause::Any { .. } => Way { any: true, ..self },
            Clause::Delay { .. } => Way {
                delay: true,
                ..self
            },
        }
    }
}
