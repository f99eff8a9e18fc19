//! Radio messages: message 3, a movement authority, and message 136, a position report of a train
//! (SUBSET-026, 8.4.4, 8.6 and 8.7); and streams of them.
//!
//! [`decode`] and [`encode`] read and write the bytes of a [`Message`]. [`from_hex`] and [`to_hex`]
//! read and write its text. A [`MovementMessage`] holds packets of `etcs_packet`. A
//! [`PositionMessage`] holds [`TrainPacket`]s: a [`Report`], or a [`RawTrainPacket`] whose layout is
//! not known. A [`Splitter`] is fed pieces of a stream, cut anywhere, and holds one message at a
//! time. Read `message.rt` and `decoding.rt` first, with `specs/Head.antt` and `specs/Message.antt`,
//! then `splitter.rt`, with `specs/Splitter.antt` and `specs/Cutting.antt`. [`laws`] states what holds
//! of every message, its text and every stream. The crate leaves out the safety layer, and all other
//! messages.
#![tactic(auto)]

mod decoding;
mod encoding;
mod error;
mod head;
mod integrity;
pub mod laws;
mod lrbg;
mod message;
mod movement;
mod position;
mod raw_train;
mod report;
mod splitter;
mod text;
mod train_packet;

pub use decoding::decode;
pub use encoding::encode;
pub use error::{EncodeError, RadioTextError};
pub use etcs_bits::Train3;
pub use integrity::Integrity;
pub use lrbg::Lrbg;
pub use message::Message;
pub use movement::MovementMessage;
pub use position::PositionMessage;
pub use raw_train::RawTrainPacket;
pub use report::Report;
pub use splitter::{Fed, Splitter, State};
pub use text::{from_hex, to_hex};
pub use train_packet::TrainPacket;
