//! Equality of packets and telegrams, `same_packets` and `same_telegram`, and differences between a balise and its
//! duplicate.

ghost use Rattle.std.specs.Prelude.{◌≡◌, ◌↔◌, ◌≤◌, ◌<◌, ◌+◌, length, drop, filter, slice_get, Some, IsFalse, IsTrue};
ghost use Rattle.std.specs.Cmp.Lexicographic.{pointwise};
ghost use Rattle.etcs_profile.specs.Track.{holds};
ghost use Rattle.etcs_profile.specs.declared.track.TrackPacket.{TrackPacket};
ghost use Rattle.etcs_telegram.specs.Record.{Telegram as SomeTelegram};
ghost use Rattle.etcs_group.specs.Packets.{held_packets};
ghost use Rattle.etcs_check.specs.Duplicates.{same_header, same_packet, same_telegram};
ghost use Rattle.etcs_check.specs.Findings.{are_pair, pair_differs};
ghost use Rattle.etcs_check.specs.Walk.{ArePairsAlike, are_same_pair};

use crate::packet_summary::packets;
use etcs_bits::{Dup, Same, are_same};
use etcs_packet::{Run, TrackPacket};
use etcs_telegram::{Header, Telegram};

// The index of the first packet from `from` on that holds, or the length.
fn next_held(packets: &[TrackPacket], run: Run, from: usize) -> usize
    requires { from ≤ length packets.now }
    ensures behind { from ≤ result }
    ensures within { result ≤ length packets.now }
    ensures same { filter (holds run) (drop from packets.now) ≡ filter (holds run) (drop result packets.now) }
    ensures holds { (p : TrackPacket) → slice_get packets.now result ≡ Some p → IsTrue (holds run p) }
{
    'places: for place in from..packets.len() {
        if packets[place].holds_in(run) {
            return place;
        }
    }
    packets.len()
}

// Whether a packet of one list equals a packet of another list.
fn same_at(these: &[TrackPacket], i: usize, those: &[TrackPacket], j: usize) -> bool
    requires first { i < length these.now }
    requires second { j < length those.now }
    ensures { (p q : TrackPacket) → slice_get these.now i ≡ Some p → slice_get those.now j ≡ Some q
        → result ≡ same_packet p q }
{
    these[i].same(&those[j])
}

// Whether two lists have the same packets that hold in the running direction.
fn same_lists(these: &[TrackPacket], those: &[TrackPacket], run: Run) -> bool
    ensures { result ≡ pointwise same_packet (filter (holds run) these.now) (filter (holds run) those.now) }
{
    let mut i = next_held(these, run, 0);
    let mut j = next_held(those, run, 0);
    'packets: while i < these.len() && j < those.len() {
        if !same_at(these, i, those, j) {
            return false;
        }
        i = next_held(these, run, i + 1);
        j = next_held(those, run, j + 1);
    }
    i == these.len() && j == those.len()
}

// Whether two headers are the same.
fn same_header(this: &Header, that: &Header) -> bool
    ensures { result ≡ same_header this.now that.now }
{
    this.version.same(&that.version)
        && this.position.same(&that.position)
        && this.total.same(&that.total)
        && this.dup.same(&that.dup)
        && this.counter.same(&that.counter)
        && this.identity.same(&that.identity)
        && this.linked.same(&that.linked)
}

// Whether two lists have the same packets.
fn same_content(these: &[TrackPacket], those: &[TrackPacket]) -> bool
    ensures { result ≡ pointwise same_packet these.now those.now }
{
    are_same(these, those)
}

// Whether two telegrams are equal.
pub(crate) fn same_telegram(this: &Telegram, that: &Telegram) -> bool
    ensures { result ≡ same_telegram this.now that.now }
{
    this.size == that.size
        && same_header(&this.header, &that.header)
        && same_content(&this.packets, &that.packets)
}

/// Whether two telegrams have equal lists of packets that hold in the running direction, in the same
/// order, as is required of the two balises of a pair of duplicates (SUBSET-026, 3.16.2). Allocates nothing.
pub fn same_packets(this: &Telegram, that: &Telegram, run: Run) -> bool
    ensures { IsTrue result ↔ (held_packets run this.now ≡ held_packets run that.now) }
{
    same_lists(packets(this), packets(that), run)
}

// Whether the first duplicate flag names the next balise, and the second one the previous balise.
fn are_pair(first: Dup, second: Dup) -> bool
    ensures { result ≡ are_pair first second }
{
    matches!((first, second), (Dup::Next, Dup::Previous))
}

// Whether two neighbours are a pair of duplicates whose packets that hold differ.
fn pair_differs(first: &Telegram, second: &Telegram, run: Run) -> bool
    ensures { result ≡ pair_differs run first.now (Some second.now) }
{
    are_pair(first.header.dup, second.header.dup)
        && !same_lists(packets(first), packets(second), run)
}

// Whether the balise at this place and the next one are a pair of duplicates whose packets that hold differ.
// Packets are compared only if `unlike`: some pair of the group differs.
#[inline(always)]
pub(crate) fn is_pair_unlike(group: &[Telegram], run: Run, unlike: bool, place: usize) -> bool
    requires within { place < length group.now }
    requires alike { IsFalse unlike → ArePairsAlike group.now }
    ensures { (t : SomeTelegram) → slice_get group.now place ≡ Some t
        → result ≡ pair_differs run t (slice_get group.now (place + 1)) }
{
    unlike
        && group
            .get(place + 1)
            .is_some_and(|second| pair_differs(&group[place], second, run))
}

// Whether two neighbours are not a pair of duplicates, or have the same packets.
fn are_same_pair(first: &Telegram, second: &Telegram) -> bool
    ensures { result ≡ are_same_pair first.now (Some second.now) }
{
    !are_pair(first.header.dup, second.header.dup) || same_content(packets(first), packets(second))
}

// Whether the telegram of the balise at this place and the next one are not a pair of duplicates, or have the
// same packets.
fn are_same_pair_at(group: &[Telegram], place: usize, telegram: &Telegram) -> bool
    requires { place < length group.now }
    ensures { result ≡ are_same_pair telegram.now (slice_get group.now (place + 1)) }
{
    group
        .get(place + 1)
        .is_none_or(|second| are_same_pair(telegram, second))
}

// Whether some balise and the next one are a pair of duplicates with different packets.
pub(crate) fn has_unlike_pair(group: &[Telegram]) -> bool
    ensures { IsFalse result → ArePairsAlike group.now }
{
    'places: for place in 0..group.len() {
        if !are_same_pair_at(group, place, &group[place]) {
            return true;
        }
    }
    false
}
