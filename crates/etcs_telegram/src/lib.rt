//! Eurobalise telegrams: from hexadecimal text to bits to a record, and back (SUBSET-026, 8.4.2;
//! SUBSET-036, 4.3).
//!
//! [`from_hex`] and [`to_hex`] read and write the text of a [`Telegram`]. [`decode`] and [`encode`]
//! read and write its user bits. They build on the contract of [`etcs_bits::Layout`] for the
//! [`Header`], and on `etcs_packet` for the packets after it. Read `telegram.rt` and `text.rt`
//! first, with `specs/Telegram.antt` and `specs/Text.antt`. [`laws`] states what holds of every
//! telegram and its text. The crate leaves out the channel coding of the user bits.
#![tactic(auto)]

mod decoding;
mod encoding;
mod error;
mod header;
pub mod laws;
mod size;
mod telegram;
mod text;

pub use decoding::decode;
pub use encoding::encode;
pub use error::{EncodeError, TextError};
pub use header::Header;
pub use size::Size;
pub use telegram::Telegram;
pub use text::{from_hex, to_hex};
