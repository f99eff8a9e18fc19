//! Lists of packets in balise telegrams and radio messages (SUBSET-026, 7.4 and 8.4).
//!
//! [`read_packets`] and [`write_packets`] read and write lists of packets from track to train.
//! [`next_view`] reads one of them without a copy of its body: a [`PacketView`]. The packets themselves
//! are in `etcs_profile`. [`TrackPacket`], [`CoverMarker`], [`Linking`], [`RawPacket`] and
//! [`Transition`] are exported here too.
//!
//! Below them are calls that take any record whose table of fields begins with NID_PACKET.
//! [`read_items`] reads all packets of a list, and [`write_items`] writes packets. [`scan_number`]
//! reads NID_PACKET of one. [`next_whole`] also reads the head before the packets. A [`Stop`] says
//! where a list ends. All these calls rest on the contract of [`etcs_bits::Layout`].
//!
//! Read `packets.rt` first, then `list.rt` with `specs/Lists.antt`, and `whole.rt` with
//! `specs/Whole.antt`. The laws that hold of every list are in [`laws`].
#![tactic(auto)]

pub mod laws;
mod list;
mod packets;
mod stop;
mod whole;

pub use etcs_profile::{
    CoverMarker, LevelOrder, Link, Linking, PacketView, RawPacket, Reaction, Run, TrackPacket,
    Transition, scan_number,
};
pub use list::{read_items, write_items};
pub use packets::{next_view, read_packets, write_packets};
pub use stop::Stop;
pub use whole::next_whole;
