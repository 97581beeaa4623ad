//! The transitions of a body without nested clauses (ISO/IEC 9074: flat transitions), one for each choice of values for the
//! names of `any`, how many there are, and the list of those of a specification, for its readers.
//!
//! It stands on `meaning_table` and `body_table` for what names mean, and on `indexmap`. A transition refers to the expressions
//! and the block in the tree, and shares the types of its parameters and its chosen values with all transitions under the
//! same clauses, and the state sets of its `from` with all that name them. The list shows each by where it stands in the text.
#![tactic(auto)]

mod any_names;
#[tactic(auto, using(crate::proofs::BodyEquations::bodies, estelle_tree::specs::declared::tree::specification::Decl::the_lemmas))]
mod bodies;
mod choice;
mod choices;
mod clauses;
#[tactic(auto, using(crate::proofs::Counts::counts, estelle_tree::specs::declared::tree::clause::TransBody::the_lemmas))]
mod counting;
mod entries;
mod flat;
mod in_force;
mod list;
mod naming;
#[tactic(auto, using(crate::proofs::ChosenMeanings::means_chosen))]
mod priority;
mod shared;
#[tactic(auto, using(crate::proofs::Members::members))]
mod states;
mod transition;
#[tactic(auto, using(crate::proofs::Walks::groups, estelle_tree::specs::declared::tree::clause::TransBody::the_lemmas))]
mod walk;

pub use choice::Choice;
pub use clauses::{Condition, Delay, Priority, When};
pub use counting::count;
pub use flat::{Flat, FlatTrans, FromStates, Limit};
pub use list::flat_list;
pub use shared::Shared;
pub use states::States;
pub use transition::{Transition, Transitions};
pub use walk::transitions;
