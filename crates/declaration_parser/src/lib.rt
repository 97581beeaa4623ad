//! The parsers of channels, of module headers, and of the other declarations of a specification that hold
//! no statements (ISO/IEC 9074). They stand on the parsers of types and on the steps of `token_reader`.
//! That they are the parsers of the forms is proved in `proofs/`.
#![tactic(auto)]

mod attribute;
mod declaration;
mod form;
mod interaction;

pub use attribute::{SysAttrForm, heads};
pub use declaration::{header, plain_decl};
pub use form::joined;
pub use interaction::channel;
