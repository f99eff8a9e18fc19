//! The packets from track to train (SUBSET-026, 7.4.2): movement authorities, linking, profiles of the
//! track, level transition orders, virtual balise cover markers, and any other packet as bits.
//!
//! [`TrackPacket`] is any of them. [`Authority`] is the movement authority, packets 12 and 15.
//! [`Authority::end`] gives how far the train may run. Other packets are a [`Packet`]: [`Linking`],
//! [`Gradient`] and [`SpeedProfile`] of [`Elements`], [`Transition`] of [`LevelOrders`].
//! [`Packet::reach`] gives how far along the track a profile reaches. [`RawPacket`] is a packet whose
//! layout is not known. A [`PacketView`] borrows its body.
//!
//! Read `packet.rt`, `elements.rt` and `track/gradient.rt` first, then `track.rt`, with `specs/Track.antt`,
//! then `authority.rt`. [`laws`] states how far a profile reaches. The crate builds on
//! [`etcs_bits::Layout`]. It does not check whether an authority and the profiles fit together. Packets
//! from train to track are left out.
#![tactic(auto)]

mod authority;
mod danger_point;
mod each;
mod element;
mod elements;
mod end_timer;
mod error;
mod factor;
pub mod laws;
mod number;
mod overlap;
mod packet;
mod profile;
mod raw;
mod reach;
mod run;
mod section;
mod terms;
pub mod track;
mod view;

pub use authority::Authority;
pub use danger_point::DangerPoint;
pub use element::Element;
pub use elements::Elements;
pub use end_timer::EndTimer;
pub use error::BuildError;
pub use etcs_bits::Reaction;
pub use number::{Number, scan_number};
pub use overlap::Overlap;
pub use packet::Packet;
pub use raw::RawPacket;
pub use reach::Reach;
pub use run::Run;
pub use section::{Section, SectionTimer};
pub use track::{
    CoverMarker, Difference, Gradient, GradientElement, LevelOrder, LevelOrders, Link, Linking,
    SpeedElement, SpeedProfile, TrackPacket, Transition,
};
pub use view::PacketView;
