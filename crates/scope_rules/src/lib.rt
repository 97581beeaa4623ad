//! What scopes and names are, and when the rules on them are broken.
//!
//! It stands on `estelle_tree` alone. `refusal` says what a refusal is, for every crate of rules; `event` has
//! what a tree says of names, one thing at a time; `declaration` what a name is declared as.
//!
//! In `specs/`: `Least` is the least broken rule with its first node in the text. `TypeEvents`,
//! `ExpressionEvents`, `StatementEvents`, `DeclarationEvents`, `ClauseEvents` and `SpecificationEvents` are one
//! fold over the tree: which scopes open and close, which names are declared and as what, which are used and
//! what they may mean. `Visible` says what is visible: what a name means, what stands in a scope and what behind a
//! dot. `Scopes` says how these events change it, and what each name in use means. `NameRules` has one predicate for each of the rules 1 to 5, and `names_of`.
#![tactic(auto)]

mod declaration;
mod event;
mod refusal;

pub use declaration::{Declared, Denotes, Inside, Members, Need, may_be};
pub use event::{Event, ScopeForm, Step};
pub use refusal::{Breach, Refusal, noted, only_if};
