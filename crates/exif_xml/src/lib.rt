//! XML 1.0 with namespaces, as far as XMP packets need it: tokens, attributes, names and text.
//!
//! The functions work on UTF-8 bytes in memory and need no tree of a document. [`token_at`] is the
//! next token of a document, [`attributes`] lists the attributes of a start tag, [`resolve`] finds
//! the namespace of a name, and [`text_of`] decodes character data and attribute values.
//!
//! The checks are those that a reader of untrusted files needs, and fewer than a validating parser
//! has: a document type is refused, so no entity is ever expanded, and each refusal has its
//! offset. Two tests of their own are beside these: [`invalid_character`], whether all bytes are
//! characters of XML 1.0 in UTF-8, and [`root_fault`], whether there is one root element.
#![tactic(auto)]

pub mod attribute;
pub mod characters;
pub mod fault;
pub mod name;
pub mod prefix;
pub mod root;
pub mod scan;
pub mod span;
pub mod text;
pub mod token;

pub use attribute::{Attribute, attributes};
pub use characters::invalid_character;
pub use fault::{Fault, ReadError, Refusal};
pub use name::{Binding, Name, resolve, with_bindings};
pub use prefix::usual_prefix;
pub use root::root_fault;
pub use span::{Span, slice_of};
pub use text::text_of;
pub use token::{Kind, Token, token_at};
