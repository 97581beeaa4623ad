//! The parsers of names, constants, types, definitions and formal parameters (ISO 7185). It stands on
//! the steps of `token_reader` and on the forms of `syntax_forms`. Each function reads what its parser in
//! `specs/` reads; `proofs/` show that those parsers read the forms.
#![tactic(auto)]

mod definition;
mod scalar;
mod structured;

pub use definition::{
    BlockDeclForm, FormalsForm, block_decl, const_def, formal, formals, part, type_def,
};
pub use scalar::{ConstantForm, NameForm, NamesForm, constant, names, ordinal};
pub use structured::{TypeForm, TypedNamesForm, type_expr, typed_names};
