//! What the declarations of a specification say, as tables.
//!
//! It stands on `type_rules`, whose `Env` a `Table` is seen as, and on `indexmap`. `declarations` gives what is known
//! once all has been declared; the look-ups of a `Table` are those of the definitions.
#![tactic(auto, using(crate::proofs::Declaring::declaring))]

#[tactic(auto, using(crate::proofs::Declaring::declaring, type_rules::proofs::Lists::lists))]
mod definitions;
mod node;
#[tactic(auto, using(crate::proofs::Declaring::declaring, crate::proofs::Bodies::bodies, estelle_tree::specs::declared::tree::clause::TransBody::the_lemmas, estelle_tree::specs::declared::tree::specification::Decl::the_lemmas))]
mod specification;
#[tactic(auto, using(crate::proofs::Declaring::declaring), unfolding(type_rules::specs::Meanings::entity_at, type_rules::specs::Meanings::declaration_of, type_rules::specs::Meanings::known, type_rules::specs::Meanings::parameters, type_rules::specs::Meanings::array_of, type_rules::specs::Meanings::const_host, type_rules::specs::Meanings::const_value))]
mod table;
#[tactic(auto, using(crate::proofs::Declaring::declaring, crate::proofs::Typing::types, estelle_tree::specs::declared::tree::type_expr::TypeExpr::the_lemmas))]
mod types;

pub use specification::declarations;
pub use table::Table;
pub use types::{denotes, over_indices, with_fields};
