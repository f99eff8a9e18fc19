//! `PacketSummary`: what the packets of a message contain in a running direction. It has the greatest supervised
//! location, and which profiles there are.

ghost use Rattle.std.specs.Prelude.{◌≡◌, ◌<◌, if◌then◌else◌, length, filter, slice_get, Some};
ghost use Rattle.etcs_profile.specs.Track.{holds};
ghost use Rattle.etcs_telegram.specs.Record.{Telegram as SomeTelegram};
ghost use Rattle.etcs_group.specs.Packets.{is_silent, balise_packets, group_message};
ghost use Rattle.etcs_check.specs.PacketSummary.{both, by_one, greater, nothing, packets_summary};

use etcs_bits::Dup;
use etcs_packet::{Run, TrackPacket};
use etcs_telegram::Telegram;

// A summary of packets: the greatest supervised location, and which profiles there are.
#[derive(Clone, Copy)]
pub(crate) struct PacketSummary {
    pub(crate) limit: Option<u64>,
    pub(crate) has_gradient: bool,
    pub(crate) has_speed: bool,
}

// The summary of no packets.
pub(crate) const NOTHING: PacketSummary = PacketSummary {
    limit: None,
    has_gradient: false,
    has_speed: false,
};

// The packets of a telegram.
pub(crate) fn packets(telegram: &Telegram) -> &[TrackPacket]
    ensures { result.now ≡ telegram.now.packets }
{
    &telegram.packets
}

// The greater of two supervised locations.
fn greater(this: Option<u64>, that: Option<u64>) -> Option<u64>
    ensures { result ≡ greater this that }
{
    this.max(that)
}

// Whether a balise of a group of `count` is passed after the balise that its duplicate flag names.
pub(crate) fn is_silent(run: Run, telegram: &Telegram, count: usize, place: usize) -> bool
    requires { place < count }
    ensures { result ≡ is_silent run telegram.now.header.dup count place }
{
    match (run, telegram.header.dup) {
        (Run::Nominal, Dup::Previous) => place > 0,
        (Run::Reverse, Dup::Next) => place + 1 < count,
        _ => false,
    }
}

// The summary with one more packet, if it holds. Only authorities and profiles count, so for most packets the
// direction is not checked.
#[inline(always)]
fn add_packet(so_far: PacketSummary, packet: &TrackPacket, run: Run) -> PacketSummary
    ensures { result ≡ both so_far (if holds run packet.now then by_one packet.now else nothing) }
{
    match packet {
        TrackPacket::Authority(authority) if packet.holds_in(run) => PacketSummary {
            limit: greater(so_far.limit, Some(authority.limit())),
            ..so_far
        },
        TrackPacket::Gradient(_) if packet.holds_in(run) => PacketSummary {
            has_gradient: true,
            ..so_far
        },
        TrackPacket::Speed(_) if packet.holds_in(run) => PacketSummary {
            has_speed: true,
            ..so_far
        },
        _ => so_far,
    }
}

// The summary with more packets, of which those that hold count.
#[inline(always)]
pub(crate) fn add_packets(so_far: PacketSummary, packets: &[TrackPacket], run: Run) -> PacketSummary
    ensures { result ≡ both so_far (packets_summary (filter (holds run) packets.now)) }
{
    let mut said = so_far;
    'packets: for packet in packets {
        said = add_packet(said, packet, run);
    }
    said
}

// The summary with the packets of the balise at this place, unless it is silent.
#[inline(always)]
fn add_balise(so_far: PacketSummary, group: &[Telegram], run: Run, place: usize) -> PacketSummary
    requires { place < length group.now }
    ensures { (t : SomeTelegram) → slice_get group.now place ≡ Some t
        → result ≡ both so_far (packets_summary (balise_packets run (length group.now) place t)) }
{
    let telegram = &group[place];
    if is_silent(run, telegram, group.len(), place) {
        so_far
    } else {
        add_packets(so_far, packets(telegram), run)
    }
}

// The summary of a group's message in a running direction.
pub(crate) fn group_summary(group: &[Telegram], run: Run) -> PacketSummary
    ensures { result ≡ packets_summary (group_message run group.now) }
{
    let mut said = NOTHING;
    'places: for place in 0..group.len() {
        said = add_balise(said, group, run, place);
    }
    said
}
