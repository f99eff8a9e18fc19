//! `decode`: from bytes to a message.

ghost use Rattle.std.specs.Prelude.{◌≡◌, ◌≤◌, length, Err, IfOk};
ghost use Rattle.std.proofs.Common.{inl, inr};
ghost use Rattle.etcs_bits.specs.declared.layout.fault.Fault.{Fault};
ghost use Rattle.etcs_bits.specs.layout.Fault.{IsFault};
ghost use Rattle.etcs_bits.specs.layout.Results.{IfFault, IfMemory, Means};
ghost use Rattle.etcs_radio.specs.declared.message.Message.TheVariants as messages;
ghost use Rattle.etcs_radio.specs.Head.{head};
ghost use Rattle.etcs_radio.specs.HeadView.{head_value};
ghost use Rattle.etcs_radio.specs.Meaning.{read_message, read_message_packets};
ghost use Rattle.etcs_radio.specs.Message.{beginning, IsMessage, IsMessageFault, IsNoMessage, MessageGrows, PacketsGrow};

use crate::head::{Fields, MovementFields, PositionFields, scan_head};
use crate::message::Message;
use crate::movement::MovementMessage;
use crate::position::PositionMessage;
use etcs_bits::{BitSlice, Cursor, DecodeError, Fault, FaultKind};
use etcs_packet::{Stop, read_items, read_packets};
use std::alloc::Global;

// The fault of packets that end at the cursor without the required one.
#[cold]
fn incomplete(cur: &Cursor<'_>, why: FaultKind) -> DecodeError
    requires { length cur.now.bits ≤ 8192 }
    ensures { result ≡ DecodeError.Fault
        (record { at = cur.now.at; end = length cur.now.bits; why = why }) }
{
    let at = cur.at();
    DecodeError::Fault(Fault {
        at,
        end: at + cur.left(),
        why,
    })
}

// Reads the packets of message 3 and makes the message.
fn movement(
    alloc: Global,
    fields: MovementFields,
    cur: &mut Cursor<'_>,
) -> Result<MovementMessage, DecodeError>
    requires { length cur.old.bits ≤ 8192 }
    ensures means { Means (λ m. messages.Movement m) result (read_message_packets (inl fields) cur.old) }
    ensures memory { IfMemory result (PacketsGrow (inl fields) cur.old) }
{
    let packets = read_packets(alloc, cur, Stop::Message)?;
    let (time, (ack, lrbg)) = fields;
    match MovementMessage::new(time, ack, lrbg.identity(), packets) {
        Ok(message) => Ok(message),
        Err(_packets) => Err(incomplete(cur, FaultKind::NoAuthority)),
    }
}

// Reads the packets of message 136 and makes the message.
fn position(
    alloc: Global,
    fields: PositionFields,
    cur: &mut Cursor<'_>,
) -> Result<PositionMessage, DecodeError>
    requires { length cur.old.bits ≤ 8192 }
    ensures means { Means (λ m. messages.Position m) result (read_message_packets (inr fields) cur.old) }
    ensures memory { IfMemory result (PacketsGrow (inr fields) cur.old) }
{
    let packets = read_items(alloc, cur, Stop::Message)?;
    let (time, engine) = fields;
    match PositionMessage::new(time, engine, packets) {
        Ok(message) => Ok(message),
        Err(_packets) => Err(incomplete(cur, FaultKind::NoReport)),
    }
}

// Reads the packets that follow the head and makes the message.
fn message(alloc: Global, fields: Fields, cur: &mut Cursor<'_>) -> Result<Message, DecodeError>
    requires { length cur.old.bits ≤ 8192 }
    ensures means { Means (λ m. m) result (read_message_packets (head_value fields) cur.old) }
    ensures memory { IfMemory result (PacketsGrow (head_value fields) cur.old) }
{
    match fields {
        Fields::OfMovement(fields) => Ok(Message::Movement(movement(alloc, fields, cur)?)),
        Fields::OfPosition(fields) => Ok(Message::Position(position(alloc, fields, cur)?)),
    }
}

// Reads a message from its bytes, as `decode` does.
fn read(alloc: Global, bytes: &[u8]) -> Result<Message, DecodeError>
    ensures exact { Means (λ m. m) result (read_message bytes.now) }
    ensures memory { IfMemory result (MessageGrows bytes.now) }
{
    // L_MESSAGE counts 1,023 bytes at most. The head of a longer input has a fault.
    let few = bytes.len().min(1024);
    let mut cur = Cursor::over(BitSlice::of_bytes(bytes, 8 * few));
    let fields = scan_head(alloc, bytes.len(), &mut cur)?;
    message(alloc, fields, &mut cur)
}

/// Reads a message from its bytes. What comes after the packets' end is ignored (SUBSET-026, 8.6
/// and 8.7). No copy of the bits is made, except of bodies that are kept as bits.
///
/// A fault that is returned is the first one in the bytes. Then no bytes of the same number with the
/// same first `end` bits are a message. If memory runs out, a fault might be unreported. After an error
/// nothing is returned of what was read.
pub fn decode(alloc: Global, bytes: &[u8]) -> Result<Message, DecodeError>
    ensures ok { IfOk result (λ m. IsMessage m bytes.now) }

    ensures fault { IfFault result (λ f. IsMessageFault bytes.now f) }
    ensures none { IfFault result (λ f. IsNoMessage bytes.now f) }

    // The result, as a function of the bytes.
    ensures exact { Means (λ m. m) result (read_message bytes.now) }

    // The head's fault is always reported: reading the head needs no memory.
    ensures head { (f : Fault) → IsFault (head (length bytes.now)).fields (beginning bytes.now) f
        → result ≡ Err (DecodeError.Fault f) }

    // Allocates only if a packet is due after the head, and the packet has no fault or is read up to a part
    // that needs memory. So `NoAuthority` and `NoReport` are always reported for a message without packets,
    // and so is the fault of a first packet 0 or 1 of message 136.
    ensures memory { IfMemory result (MessageGrows bytes.now) }
{
    read(alloc, bytes)
}
