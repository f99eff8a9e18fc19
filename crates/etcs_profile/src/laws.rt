//! Laws for users: how far a profile reaches, and the number of a packet. Each is the contract of a call that
//! does nothing.

ghost use Rattle.std.specs.Prelude.{◌≡◌, ◌↔◌, ◌*◌, ◌∷◌, ℕ, false};
ghost use Rattle.std.specs.List.{AllByRecursion};
ghost use Rattle.etcs_profile.specs.Elements.{elements_reach};
ghost use Rattle.etcs_profile.specs.Laws.{IsWayToMark};
ghost use Rattle.etcs_profile.specs.Profile.{Profile};
ghost use Rattle.etcs_profile.specs.Reach.{scale_factor};
ghost use Rattle.etcs_profile.specs.Track.{track_number, track_numbered, track_parts};
ghost use Rattle.etcs_profile.specs.declared.track.TrackPacket.{TrackPacket};

use crate::element::Element;
use crate::reach::Reach;

/// A profile reaches up to its first element that is marked as the end: as many decimetres as the
/// distances up to and including it sum up to, times the unit of the scale. It is open exactly where no
/// element is marked.
pub fn a_profile_reaches_its_first_mark<T: Element>()
    ensures ends { (e : Profile T) (n : ℕ) → (elements_reach T.distance_of T.marked e ≡ Reach.Ends n)
        ↔ ((way : ℕ) × IsWayToMark T.distance_of T.marked (e.first ∷ e.further) way
        × (n ≡ scale_factor e.scale * way)) }
    ensures unmarked { (e : Profile T) → (elements_reach T.distance_of T.marked e ≡ Reach.Open)
        ↔ AllByRecursion (λ x. T.marked x ≡ false) (e.first ∷ e.further) }
{}

/// The number of a packet, NID_PACKET, is the number that decides how the rest of the packet is laid out
/// (SUBSET-026, 7.4.1).
pub fn a_packet_has_the_number_of_its_layout()
    ensures { (p : TrackPacket) → track_number p ≡ track_numbered.number (track_parts p) }
{}
