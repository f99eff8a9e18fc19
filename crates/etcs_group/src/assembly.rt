//! `assemble`: the message, a list of packets, that a train makes of the telegrams that it read, or why it makes
//! none.

ghost use Rattle.std.specs.Prelude.{◌≡◌, ◌≢◌, ◌++◌, [], Err, Some, IfErr, IfOk, OnErr, OnOk};
ghost use Rattle.std.specs.List.{list_any};
ghost use Rattle.etcs_group.specs.declared.refused.Refused.{Refused};
ghost use Rattle.etcs_group.specs.Places.{pointed};
ghost use Rattle.etcs_group.specs.Assembly.{IsAccepted, names, first_refusal};
ghost use Rattle.etcs_group.specs.Packets.{held_packets, assembled};

use crate::header::{names, position};
use crate::refusal::first_refusal;
use crate::refused::Refused;
use etcs_bits::Memory;
use etcs_packet::{Run, TrackPacket};
use etcs_telegram::Telegram;
use std::alloc::Global;

// Whether the telegram's duplicate flag names the position of a telegram that was read earlier.
fn is_named_before(earlier: &[&Telegram], telegram: &Telegram) -> bool
    ensures { result ≡ list_any (λ u. names telegram.now u.header.position) (pointed earlier.now) }
{
    earlier
        .iter()
        .any(|passed| names(telegram, position(passed)))
}

// Appends the telegram's packets that hold in the running direction.
fn push_held<'a>(
    packets: &mut Vec<&'a TrackPacket>,
    run: Run,
    telegram: &'a Telegram,
) -> Result<(), Memory>
    ensures ok { OnOk result (pointed packets.new.items ≡ pointed packets.old.items ++ held_packets run telegram.now) }
    ensures memory { OnErr result (held_packets run telegram.now ≢ []) }
{
    'packets: for packet in &telegram.packets {
        if packet.holds_in(run) {
            packets.push(packet)?;
        }
    }
    Ok(())
}

// The packets of telegrams, in passing order.
fn packets<'a>(
    alloc: Global,
    run: Run,
    read: &[&'a Telegram],
) -> Result<Vec<&'a TrackPacket>, Memory>
    ensures ok { IfOk result (λ packets. pointed packets.items ≡ assembled run (pointed read.now)) }
    ensures memory { OnErr result (assembled run (pointed read.now) ≢ []) }
{
    let mut packets = Vec::new(alloc);
    'telegrams: for (place, telegram) in read.iter().enumerate() {
        if !is_named_before(&read[..place], telegram) {
            push_held(&mut packets, run, telegram)?;
        }
    }
    Ok(packets)
}

/// The message that a train makes of the telegrams that it read, given in passing order: their packets that
/// hold in the running direction, in that order. A telegram adds no packets if its duplicate flag names the
/// position of an earlier one. The packets are not copied. (This project's rule, after SUBSET-026, 3.16.2.)
///
/// Telegrams that make no message are refused for the first reason of [`Refused`] that holds, even if no
/// memory is left. The call allocates only if there are packets to return. After an error no list is
/// returned.
pub fn assemble<'a>(
    alloc: Global,
    run: Run,
    read: &[&'a Telegram],
) -> Result<Vec<&'a TrackPacket>, Refused>
    ensures ok { IfOk result (λ packets. pointed packets.items ≡ assembled run (pointed read.now)) }
    ensures accepted { IfOk result (λ _. IsAccepted run (pointed read.now)) }

    // Found before allocating.
    ensures refused { (why : Refused) → first_refusal run (pointed read.now) ≡ Some why → result ≡ Err why }

    // The only error of an accepted list is lack of memory, and only if the list has packets.
    ensures memory { IsAccepted run (pointed read.now)
        → IfErr result (λ why. (why ≡ Refused.Memory) × (assembled run (pointed read.now) ≢ [])) }
{
    match first_refusal(run, read) {
        Some(why) => Err(why),
        None => Ok(packets(alloc, run, read)?),
    }
}
