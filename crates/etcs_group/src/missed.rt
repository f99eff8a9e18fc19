//! `Missed`: the set of balises that a train misses. `is_covered`: whether the train reads a duplicate of each.

ghost use Rattle.std.specs.Prelude.{◌≡◌, ◌↔◌, ◌≤◌, length, IsFalse, IsSomeAnd, IsTrue};
ghost use Rattle.etcs_group.specs.Group.{partner_place};
ghost use Rattle.etcs_group.specs.Missed.{IsCovered, is_missed};

use crate::group::Group;
use etcs_bits::Dup;
use etcs_telegram::Telegram;

/// A set of missed balises: bit b is set if the balise at index b of the group is missed.
#[derive(Clone, Copy, Debug, PartialEq, Eq)]
pub struct Missed(pub u8);

impl Missed {
    // Whether the balise at this index is missed.
    pub(crate) fn has(self, place: usize) -> bool
        ensures { result ≡ is_missed self.0 place }
    {
        place < 8 && (self.0 >> place) & 1 == 1
    }
}

/// The partner of the balise at this index: the neighbour that its duplicate flag names, by index, if it is
/// in the group (this project's rule, after SUBSET-026, 3.16.2).
pub fn partner(telegrams: &[Telegram], place: usize) -> Option<usize>
    requires { length telegrams.now ≤ 8 }
    ensures { result ≡ partner_place telegrams.now place }
{
    if place >= telegrams.len() {
        return None;
    }
    let telegram = &telegrams[place];
    match telegram.header.dup {
        Dup::Next if place + 1 < telegrams.len() => Some(place + 1),
        Dup::Previous if place > 0 => Some(place - 1),
        _ => None,
    }
}

// Whether the balise at this index is read, or its partner is.
fn is_served(telegrams: &[Telegram], missed: Missed, place: usize) -> bool
    requires { length telegrams.now ≤ 8 }
    ensures { IsTrue result ↔ (IsTrue (is_missed missed.0 place)
        → IsSomeAnd (partner_place telegrams.now place) (λ p. IsFalse (is_missed missed.0 p))) }
{
    if !missed.has(place) {
        return true;
    }
    match partner(telegrams, place) {
        Some(partner) => !missed.has(partner),
        None => false,
    }
}

/// Whether each missed balise has a [`partner`] that is read. A bit past the group's end is never covered.
/// (This project's rule, after SUBSET-026, 3.16.2.)
pub fn is_covered(group: &Group, missed: Missed) -> bool
    ensures { IsTrue result ↔ IsCovered group.now (is_missed missed.0) }
{
    let telegrams = group.telegrams();
    'places: for place in 0..8 {
        if !is_served(telegrams, missed, place) {
            return false;
        }
    }
    true
}
