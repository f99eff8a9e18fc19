//! Digits as text, quickly: pairs of hexadecimal digits to bytes, and numbers to decimal digits.
//!
//! [`decode`] and [`decode_to_vec`] decode 32 digits at a time, and the rest by two tables. Any other text
//! goes to `hex`, which reports the error, so their contracts are the contracts of its calls.
//! [`is_hexadecimal`] only tests a text.
//! [`send_decimal`] writes a number as `json`'s writer does. [`JsonLineWriter`] is a line of JSON that is written
//! token by token, a key and its number at once. Read `hexadecimal.rt`, then `decimal.rt` and `json_line_writer.rt`.
//! Nothing in this crate is specific to telegrams or messages.
#![tactic(auto)]

mod decimal;
mod hexadecimal;
mod json_line_writer;
mod text_room;

pub use decimal::send_decimal;
pub use hexadecimal::{decode, decode_to_vec, is_hexadecimal};
pub use json_line_writer::JsonLineWriter;
