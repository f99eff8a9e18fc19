//! `encode`: from a message to bytes.

ghost use Rattle.std.specs.Prelude.{◌≡◌, ◌↔◌, ◌*◌, ◌+◌, ◌<◌, ◌≤◌, ◌++◌, min, true, IfOk, IsErrOf, OnOk};
ghost use Rattle.hex.specs.Hex.{IsBytes};
ghost use Rattle.etcs_bits.specs.layout.Rows.{AreAllowed, join};
ghost use Rattle.etcs_radio.specs.declared.message.Message.TheVariants as messages;
ghost use Rattle.etcs_radio.specs.Message.{IsEncoding, IsTooBig, is_complete, message_rows, used_bits};
ghost use Rattle.etcs_radio.specs.Required.{has_authority, has_report};

use crate::error::EncodeError;
use crate::head::{MovementFields, PositionFields};
use crate::lrbg::Lrbg;
use crate::message::Message;
use crate::movement::MovementMessage;
use crate::position::PositionMessage;
use etcs_bits::{Bits, Layout, Memory, are_allowed, width_of};
use etcs_packet::{write_items, write_packets};
use std::alloc::Global;

// The greatest number of bits of a message: 1,023 bytes.
const MOST_BITS: u64 = 8184;

// The number of bits of the head and the packets; `u64::MAX` if they have more.
fn used_width(message: &Message) -> u64
    ensures { result ≡ min (used_bits message.now) u64.MAX }
{
    match message {
        Message::Movement(message) => width_of(message.packets()).saturating_add(75),
        Message::Position(message) => width_of(message.packets()).saturating_add(74),
    }
}

// Appends message 3 of `count` bytes, without the zeros at its end.
fn put_movement(message: &MovementMessage, count: usize, out: &mut Bits) -> Result<(), Memory>
    requires { count < 1024 }
    ensures bits { OnOk result (out.new
        ≡ out.old ++ join (message_rows count (messages.Movement message.now))) }
    ensures allowed { OnOk result (AreAllowed (message_rows count (messages.Movement message.now))) }
    ensures complete { OnOk result (has_authority message.now.packets ≡ true) }
{
    let fields: MovementFields = (message.time(), (message.ack(), Lrbg::new(message.lrbg())));
    // Only for the proof: the types keep the fields allowed.
    let _allowed = fields.is_allowed();
    out.push_num(8, 3)?;
    out.push_num(10, count as u64)?;
    fields.write(out)?;
    write_packets(message.packets(), out)
}

// Appends message 136 of `count` bytes, without the zeros at its end.
fn put_position(message: &PositionMessage, count: usize, out: &mut Bits) -> Result<(), Memory>
    requires { count < 1024 }
    ensures bits { OnOk result (out.new
        ≡ out.old ++ join (message_rows count (messages.Position message.now))) }
    ensures allowed { OnOk result (AreAllowed (message_rows count (messages.Position message.now))) }
    ensures complete { OnOk result (has_report message.now.packets ≡ true) }
{
    let fields: PositionFields = (message.time(), message.engine());
    // Only for the proof: the types keep the fields and the packets allowed.
    let _allowed = fields.is_allowed();
    let _packets = are_allowed(message.packets());
    out.push_num(8, 136)?;
    out.push_num(10, count as u64)?;
    fields.write(out)?;
    write_items(message.packets(), out)
}

// Appends a message of `count` bytes, without the zeros at its end.
fn put(message: &Message, count: usize, out: &mut Bits) -> Result<(), Memory>
    requires { count < 1024 }
    ensures bits { OnOk result (out.new ≡ out.old ++ join (message_rows count message.now)) }
    ensures allowed { OnOk result (AreAllowed (message_rows count message.now)) }
    ensures complete { OnOk result (is_complete message.now ≡ true) }
{
    match message {
        Message::Movement(message) => put_movement(message, count, out),
        Message::Position(message) => put_position(message, count, out),
    }
}

// Only for the proof: the type of a byte keeps it below 256.
fn keep_range(bytes: &[u8])
    ensures { IsBytes bytes.now }
{
    let _bytes = bytes;
}

// Writes a message; `count` is the least number of bytes that it needs.
fn write(alloc: Global, message: &Message, count: usize) -> Result<Vec<u8>, Memory>
    requires most { count < 1024 }
    requires few { 8 * count < used_bits message.now + 8 }
    requires enough { used_bits message.now ≤ 8 * count }
    ensures { IfOk result (λ v. IsEncoding message.now v.items) }
{
    let mut bits = Bits::new(alloc);
    put(message, count, &mut bits)?;
    let bytes = bits.to_bytes(alloc)?;
    // Only for the proof.
    keep_range(bytes.as_slice());
    Ok(bytes)
}

/// Writes the message's bytes: its head, its packets, and fewer than eight zeros (this project's
/// rule). There are at most 1,023 of them (SUBSET-026, 8.6 and 8.7).
///
/// `TooBig`: the head and the packets have more bits than 1,023 bytes have. This is checked before the
/// call allocates. After an error the record is unchanged, and no byte is returned.
pub fn encode(alloc: Global, message: &Message) -> Result<Vec<u8>, EncodeError>
    ensures ok { IfOk result (λ v. IsEncoding message.now v.items) }
    ensures too_big { IsErrOf result EncodeError.TooBig ↔ IsTooBig message.now }
{
    let used = used_width(message);
    if used > MOST_BITS {
        return Err(EncodeError::TooBig);
    }
    Ok(write(alloc, message, used.div_ceil(8) as usize)?)
}
