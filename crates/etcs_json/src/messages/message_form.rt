//! The JSON form of `Message`, a radio message. Its number decides which kind it is.

ghost use Rattle.etcs_bits.specs.layout.Rows.{AreAllowed};
ghost use Rattle.etcs_json.specs.AnyMessage.{message, numbered};

use crate::Form;
use crate::reading::{AllowedNumbers, read_number};
use crate::record::{InRange, ObjectForm};
use etcs_bits::Memory;
use etcs_radio::Message;
use etcs_schema::reading::check_object;
use etcs_schema::{FormError, JsonValue, TokenWriter};
use std::alloc::Global;

impl AllowedNumbers for Message {
    ghost test = { numbered.allows };

    fn has(number: u64) -> bool {
        matches!(number, 3 | 136)
    }
}

/// Only for the proof: each number of a message is allowed.
#[tactic(auto, using(crate::proofs::LawLemmas::movement_in, crate::proofs::LawLemmas::position_in))]
pub(crate) fn prove_message_allowed(value: &Message)
    ensures { AreAllowed (message.rows value.now) }
{
    match value {
        Message::Movement(it) => it.prove_in_range(),
        Message::Position(it) => it.prove_in_range(),
    }
}

#[tactic(auto, unfolding(crate::specs::AnyMessage::message))]
impl ObjectForm for Message {
    ghost form = { message };

    #[tactic(auto, using(crate::proofs::LawLemmas::message_read))]
    fn prove_read_back(&self) {
        prove_message_allowed(self);
    }

    fn write_object<M: TokenWriter>(&self, out: &mut M) -> Result<(), Memory> {
        match self {
            Message::Movement(message) => message.write_object(out),
            Message::Position(message) => message.write_object(out),
        }
    }

    fn read_form<N: JsonValue>(alloc: Global, node: &N) -> Result<Self, FormError> {
        check_object(alloc, node)?;
        match read_number::<Message, N>(alloc, node, "nid_message")? {
            3 => Ok(Message::Movement(Form::read_json(alloc, node)?)),
            136 => Ok(Message::Position(Form::read_json(alloc, node)?)),
            _ => Err(FormError::range_at(alloc, "nid_message")),
        }
    }
}
