//! `Mixture`: which aspect each balise shows, if a group is switched while a train passes. `Controlled::mixed` gives
//! what the train reads.

ghost use Rattle.std.specs.Prelude.{◌≡◌, ◌≢◌, ◌↔◌, ℕ, ◌<◌, ◌≤◌, [], length, Some, None, IfOk, IsTrue, MatchOption, OnErr};
ghost use Rattle.etcs_group.specs.Controlled.{IsControlled, balise_count};
ghost use Rattle.etcs_group.specs.Missed.{is_missed};
ghost use Rattle.etcs_group.specs.Mixture.{Covers, Fits, shows_nothing, mixture_reading, shown_telegram, shown_aspect};
ghost use Rattle.etcs_group.specs.Places.{pointed};

use crate::controlled::Controlled;
use crate::missed::{Missed, is_covered};
use etcs_bits::Memory;
use etcs_packet::Run;
use etcs_telegram::Telegram;
use std::alloc::Global;

/// What a train reads of a controlled group that a lineside unit may switch while the train passes: some
/// balises with one aspect, others with another. (This project's rule, after SUBSET-026, 3.16.2.)
#[derive(Clone, Copy, Debug, PartialEq, Eq)]
pub struct Mixture {
    /// The running direction.
    pub run: Run,
    /// For the balise at each index the aspect that it shows, by index; `None` if the balise is missed.
    pub shown: [Option<usize>; 8],
}

impl Controlled {
    // The number of balises of each aspect.
    fn count(&self) -> usize
        ensures value { result ≡ balise_count self.now }
        ensures few { result ≤ 8 }
        ensures controlled { IsControlled self.now }
    {
        self.aspects()[0].telegrams().len()
    }

    // Whether the index may show this: nothing, or an existing aspect if the index is in the group.
    fn may_show(&self, place: usize, shown: Option<usize>) -> bool
        ensures { IsTrue result ↔ ((a : ℕ) → shown ≡ Some a → (place < balise_count self.now) × (a < length self.now)) }
    {
        match shown {
            Some(aspect) => place < self.count() && aspect < self.aspects().len(),
            None => true,
        }
    }

    /// Whether the mixture fits this group: each index shows nothing or an existing aspect, and indexes past
    /// the number of balises show nothing.
    pub fn fits(&self, mixture: &Mixture) -> bool
        ensures { IsTrue result ↔ Fits self.now (shown_aspect mixture.now.shown) }
    {
        'places: for place in 0..8 {
            if !self.may_show(place, mixture.shown[place]) {
                return false;
            }
        }
        true
    }

    // The indexes of the group that show nothing.
    fn missed(&self, mixture: &Mixture) -> Missed
        ensures { (p : ℕ) → is_missed result.0 p ≡ shows_nothing self.now (shown_aspect mixture.now.shown) p }
    {
        let mut bits = 0u8;
        'places: for place in 0..self.count() {
            if mixture.shown[place].is_none() {
                bits |= 1 << place;
            }
        }
        Missed(bits)
    }

    /// Whether each missed balise has a partner that is read, in any aspect. The duplicate flags of the first
    /// aspect decide the partners. The mixture must fit.
    pub fn covers(&self, mixture: &Mixture) -> bool
        requires { Fits self.now (shown_aspect mixture.now.shown) }
        ensures { IsTrue result ↔ Covers self.now (shown_aspect mixture.now.shown) }
    {
        is_covered(&self.aspects()[0], self.missed(mixture))
    }

    // The telegram that an index shows.
    fn shown_telegram(&self, mixture: &Mixture, place: usize) -> Option<&Telegram>
        requires { place < 8 }
        ensures { MatchOption result (shown_telegram self.now (shown_aspect mixture.now.shown) place ≡ None)
            (λ t. shown_telegram self.now (shown_aspect mixture.now.shown) place ≡ Some t.now) }
    {
        let aspect = mixture.shown[place]?;
        let group = self.aspects().get(aspect)?;
        group.telegrams().get(place)
    }

    /// The telegrams that the mixture shows, in the order in which the train passes their balises: by
    /// rising index in nominal running, by falling index in reverse (SUBSET-026, 3.4.2). The mixture must
    /// fit.
    ///
    /// Allocates only if something is shown. The only error is that memory runs out; then no list is
    /// returned.
    pub fn mixed(&self, alloc: Global, mixture: &Mixture) -> Result<Vec<&Telegram>, Memory>
        requires { Fits self.now (shown_aspect mixture.now.shown) }
        ensures ok { IfOk result (λ read. pointed read.items
            ≡ mixture_reading mixture.now.run self.now (shown_aspect mixture.now.shown)) }
        ensures memory { OnErr result (mixture_reading mixture.now.run self.now (shown_aspect mixture.now.shown) ≢ []) }
    {
        let mut read = Vec::new(alloc);
        'places: for place in 0..self.count() {
            if let Some(telegram) = self.shown_telegram(mixture, place) {
                read.push(telegram)?;
            }
        }
        match mixture.run {
            Run::Nominal => Ok(read),
            Run::Reverse => {
                read.reverse();
                Ok(read)
            }
        }
    }
}
