//! What all JSON forms of records have in common, independent of the records.
//!
//! A form is described once, as a `Codec`: what is written, what is read, and that reading what was written
//! gives the same value (`specs/Codec.antt`). A form is read from a [`JsonValue`]: a reference to a [`JsonTree`], which
//! is a value of `serde_json`, or the tree that [`ParsedJson::read`] makes of a text, which takes less memory. It is
//! written to a [`TokenWriter`]. A value that is not a form has a [`FormError`], the first fault with its path.
#![tactic(auto)]

mod error;
mod json_value;
pub mod reading;
mod token_writer;

pub use error::{FormError, Path, Step};
pub use json_value::JsonValue;
pub use json_value::keys::check_keys;
pub use json_value::parsed_json::{JsonError, ParsedJson};
pub use json_value::tree::JsonTree;
pub use token_writer::TokenWriter;
