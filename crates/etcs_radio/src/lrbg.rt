//! `Lrbg`, NID_LRBG: the group that a message or a position report refers to.

use etcs_bits::{Bits, Country, Cursor, DecodeError, GroupNumber, Identity, Layout, Memory, Same};
use std::alloc::Global;
use std::marker::Model;

/// NID_LRBG and NID_PRVLRBG, 24 bits: the identity of a balise group as one variable. NID_C is in its
/// first ten bits, NID_BG in the other fourteen. If there are too few bits, the fault Short is at the
/// first of them (SUBSET-026, 7.5.1). Contracts see the identity.
#[derive(Clone, Copy, Debug, PartialEq, Eq)]
pub struct Lrbg {
    identity: Identity,
}

impl Model for Lrbg {
    ghost use Rattle.etcs_bits.specs.declared.variables.identity.Identity.{Identity};

    ghost Value = { Identity };

    ghost view = { λ l. l.identity };

    ghost inverse = { λ i. record { identity = i } };
}

impl Lrbg {
    ghost use Rattle.std.specs.Prelude.{◌≡◌};

    /// The variable of this group.
    #[inline]
    pub fn new(identity: Identity) -> Lrbg
        ensures { result ≡ identity }
    {
        Lrbg { identity }
    }

    /// The group's identity.
    #[inline]
    pub fn identity(self) -> Identity
        ensures { result ≡ self }
    {
        self.identity
    }
}

impl Layout for Lrbg {
    ghost use Rattle.etcs_radio.specs.Lrbg.{nid_lrbg};

    ghost format = { nid_lrbg };

    fn is_allowed(&self) -> bool {
        // Only for the proof: the types keep both numbers in range.
        let _country = self.identity.country.number();
        let _group = self.identity.group.number();
        true
    }

    fn width(&self) -> u64 {
        24
    }

    fn put(&self, out: &mut Bits) -> Result<(), Memory> {
        let country = u64::from(self.identity.country.number());
        let group = u64::from(self.identity.group.number());
        out.push_num(24, country * 16384 + group)
    }

    #[inline(always)]
    fn scan(_alloc: Global, cur: &mut Cursor<'_>) -> Result<Self, DecodeError> {
        let number = cur.take(24)?;
        let country = Country::new((number / 16384) as u32).unwrap();
        let group = GroupNumber::new((number % 16384) as u32).unwrap();
        Ok(Lrbg {
            identity: Identity { country, group },
        })
    }
}

impl Same for Lrbg {
    fn same(&self, other: &Lrbg) -> bool {
        self.identity.same(&other.identity)
    }
}
