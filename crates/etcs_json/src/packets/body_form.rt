//! L_PACKET and the body that it counts, in the forms of packets whose layout is not known.

ghost use Rattle.std.specs.Prelude.{◌≡◌, ◌+◌, ◌≤◌, ◌<◌, codes, length, IfOk};
ghost use Rattle.etcs_schema.specs.BodyText.{decoded_body};
ghost use Rattle.etcs_schema.specs.Fault.{Returns};
ghost use Rattle.etcs_schema.specs.CountedBody.{is_length, decoded_counted_body};
ghost use Rattle.etcs_schema.specs.Reading.{required_member};

use crate::packets::body_text::body_in;
use crate::reading::{AllowedNumbers, read_number};
use etcs_bits::Bits;
use etcs_schema::reading::{member, under};
use etcs_schema::{FormError, JsonValue};
use std::alloc::Global;

/// L_PACKET: how many bits a packet has. `head` is the number of bits before the body.
pub(crate) fn packet_length(head: u32, body: &Bits) -> u64
    requires { length body.now ≤ 8170 }
    ensures { result ≡ head + length body.now }
{
    u64::from(head) + body.len() as u64
}

// L_PACKET of a packet with `HEAD` bits before its body. It counts both.
struct PacketLength<const HEAD: u32>;

impl<const HEAD: u32> AllowedNumbers for PacketLength<HEAD> {
    ghost test = { is_length HEAD };

    fn has(number: u64) -> bool {
        number < 8192 && u64::from(HEAD) <= number
    }
}

// Reads a body of `count` bits.
#[tactic(auto, unfolding(etcs_schema::specs::BodyText::decoded_body))]
fn read_text<N: JsonValue>(alloc: Global, node: &N, count: usize) -> Result<Bits, FormError>
    requires { count ≤ 8170 }
    ensures gives { Returns (λ b. b) result (decoded_body count (N.value node.now)) }
    ensures len { IfOk result (λ b. length b ≡ count) }
{
    match node.text() {
        None => Err(FormError::kind(alloc)),
        Some(text) => body_in(alloc, text, count),
    }
}

// Reads the member `body`.
#[tactic(auto, using(etcs_schema::proofs::Objects::member_read, etcs_schema::proofs::Objects::under_keeps))]
fn read_body<N: JsonValue>(alloc: Global, node: &N, count: usize) -> Result<Bits, FormError>
    requires { count ≤ 8170 }
    ensures gives { Returns (λ b. b) result (required_member (decoded_body count) (codes "body") (N.value node.now)) }
    ensures len { IfOk result (λ b. length b ≡ count) }
{
    let found = member(alloc, node, "body")?;
    under("body", read_text(alloc, &found, count))
}

/// Reads the members `l_packet` and `body`. `HEAD` is the number of bits before the body, 21 or
/// more.
pub(crate) fn read_counted_body<const HEAD: u32, N: JsonValue>(
    alloc: Global,
    node: &N,
) -> Result<Bits, FormError>
    requires { 21 ≤ HEAD }
    ensures gives { Returns (λ b. b) result (decoded_counted_body HEAD (N.value node.now)) }
    ensures short { IfOk result (λ b. HEAD + length b < 8192) }
{
    let length = read_number::<PacketLength<HEAD>, N>(alloc, node, "l_packet")?;
    read_body(alloc, node, (length - u64::from(HEAD)) as usize)
}
