//! `read_packets` and `write_packets`: the packets from track to train of a telegram or of a message. `next_view`
//! reads one of them as a `PacketView`.

ghost use Rattle.std.specs.Prelude.{◌≡◌, ◌⊎◌, ◌+◌, ◌<◌, ◌++◌, length, true, false, Err, IfOk, IsOk, OnOk, OnErr};
ghost use Rattle.std.specs.List.{flat_map};
ghost use Rattle.etcs_bits.specs.layout.Rows.{AreAllowed, join};
ghost use Rattle.etcs_bits.specs.layout.Fault.{IsFault, lack};
ghost use Rattle.etcs_bits.specs.layout.Reading.{read_rows};
ghost use Rattle.etcs_bits.specs.layout.Results.{Gives, IfFault, IfMemory};
ghost use Rattle.etcs_packet.specs.Lists.{IsListFault, NoStep, NoneStand, Stand, ends};
ghost use Rattle.etcs_packet.specs.Reading.{read_list};
ghost use Rattle.etcs_profile.specs.Track.{track_grows, track_packet, view_grows};
ghost use Rattle.etcs_packet.specs.View.{IsViewStep};

use crate::list::{is_end, read_items, write_items};
use crate::stop::Stop;
use etcs_bits::{Bits, Cursor, DecodeError, Memory, are_allowed};
use etcs_profile::{PacketView, TrackPacket};
use std::alloc::Global;

/// Reads a view of the packet at the cursor. The cursor then stands after the packet. The result is
/// `None` where the list ends.
///
/// An answered fault is the first one of the packet that is due. No input of the same length with
/// the same first `end` bits has a packet or the end of the list at this place. Fewer than eight
/// bits in a telegram are a NoEnd fault. If memory runs out, a fault may go unseen. After an error
/// the cursor stands where it stood. See SUBSET-026, 7.4.2 and 8.4.
pub fn next_view<'a>(
    alloc: Global,
    cur: &mut Cursor<'a>,
    stop: Stop,
) -> Result<Option<PacketView<'a>>, DecodeError>
    ensures ok { IfOk result (λ o. IsViewStep stop o cur.old cur.new) }

    ensures fault { IfFault result (λ f. (ends stop cur.old ≡ false) × IsFault track_packet.fields cur.old f) }
    ensures none { IfFault result (λ f. NoStep stop track_packet.rows cur.old f) }
    ensures err { OnErr result (cur.new ≡ cur.old) }

    // This NoEnd fault is always answered: finding it takes no memory.
    ensures no_end { stop ≡ Stop.Telegram → length cur.old.bits < cur.old.at + 8
        → result ≡ Err (DecodeError.Fault (lack true cur.old)) }

    // Memory is asked for only where a known packet has a list that is not empty, and no fault before.
    ensures memory { IfMemory result (view_grows cur.old) }
{
    if is_end(cur, stop) {
        return Ok(None);
    }
    let mut ahead = cur.fork();
    let view = PacketView::scan(alloc, &mut ahead)?;
    *cur = ahead;
    Ok(Some(view))
}

/// Reads the packets from the cursor up to the end of their list. The cursor then stands at that
/// end: at the end mark, or at the bits that are left.
///
/// An answered fault is the first one of the list. No input of the same length with the same first
/// `end` bits has a list at this place. If memory runs out, a fault may go unseen. After an error
/// the cursor stands where it stood. See SUBSET-026, 7.4.2 and 8.4.
pub fn read_packets(
    alloc: Global,
    cur: &mut Cursor<'_>,
    stop: Stop,
) -> Result<Vec<TrackPacket>, DecodeError>
    ensures ok { IfOk result (λ v. Stand stop track_packet.rows v.items cur.old cur.new) }

    ensures fault { IfFault result (λ f. IsListFault stop track_packet.fields cur.old f) }
    ensures none { IfFault result (λ f. NoneStand stop track_packet.rows cur.old f) }
    ensures err { OnErr result (cur.new ≡ cur.old) }

    // The result, as a function of the bits.
    ensures exact { Gives (λ v. v.items) result (read_list stop track_packet.fields track_packet.of cur.old) cur.new }

    // This NoEnd fault is always answered: finding it takes no memory.
    ensures no_end { stop ≡ Stop.Telegram → length cur.old.bits < cur.old.at + 8
        → result ≡ Err (DecodeError.Fault (lack true cur.old)) }

    // An empty list takes no memory.
    ensures memory { IfMemory result (ends stop cur.old ≡ false) }

    // Nor does a fault of the first packet, if the packet does not grow here.
    ensures first { IfMemory result (track_grows cur.old ⊎ IsOk (read_rows track_packet.fields cur.old)) }
{
    read_items(alloc, cur, stop)
}

/// Appends the spellings of the packets, one after the other. No end mark is appended. The types of
/// the packets keep all numbers in range. If memory runs out, nothing is appended.
#[tactic(auto, using(etcs_bits::proofs::FitLemmas::all_fit))]
pub fn write_packets(packets: &[TrackPacket], out: &mut Bits) -> Result<(), Memory>
    ensures ok { OnOk result (out.new ≡ out.old ++ join (flat_map track_packet.rows packets.now)) }
    ensures err { OnErr result (out.new ≡ out.old) }
    ensures allowed { AreAllowed (flat_map track_packet.rows packets.now) }

    // To write no packets takes no memory.
    ensures memory { OnErr result (0 < length packets.now) }
{
    // For the proof alone: the types keep the packets allowed.
    let _allowed = are_allowed(packets);
    write_items(packets, out)
}
