//! Telegrams, radio messages and packets as JSON values, and JSON values as these.
//!
//! A [`Form`] has `to_form`, which makes a JSON value, and `of_form`, which reads one or returns a
//! [`FormError`], the first fault with its path. The form of a [`Record`] is an object. Each form is stated
//! once, as a `Codec` of `etcs_schema`: what is written, what is read, and that reading what was written
//! gives the same value. [`WriteJson`] writes a form token by token. Read `form.rt` and `record.rt` first,
//! with `specs/TrackPackets.antt`, then `packets/track_form.rt`.
//!
//! A form is read from a [`JsonValue`]: a value of `serde_json`, or the tree that [`ParsedJson::read`] makes of a
//! text, which takes less memory. Documents of railway lines are in `etcs_document`.
#![tactic(auto)]

mod canonical;
mod form;
pub mod laws;
mod members;
mod messages;
mod packets;
mod reading;
mod record;
mod record_line;

pub use etcs_schema::{
    FormError, JsonError, JsonTree, JsonValue, ParsedJson, Path, Step, check_keys,
};
pub use form::{Form, WriteJson};
pub use record::Record;
pub use record_line::{json_line, message_of_line, telegram_of_line};
