//! `Group`: a balise group, one to eight telegrams.

ghost use Rattle.std.specs.Prelude.{◌≡◌, ◌↔◌, ◌<◌, ◌≤◌, length, IfOk, IfErr, IsOk};

use etcs_telegram::Telegram;
use std::marker::Model;

/// A balise group: the telegrams of one to eight balises, in the order given, which a train
/// reads as one message (SUBSET-026, 3.4.1 and 3.16.2). They are not checked against each other.
///
/// Contracts see it as the list of its telegrams.
#[derive(Debug, Drop)]
pub struct Group {
    telegrams: Vec<Telegram>,
}

impl Model for Group {
    ghost use Rattle.std.specs.Prelude.{List, length, ◌<◌, ◌≤◌};
    ghost use Rattle.etcs_telegram.specs.Record.{Telegram};

    ghost Value = { List Telegram };

    ghost view = { λ g. g.telegrams.items };

    ghost invariant = { λ g. (0 < length g.telegrams.items) × (length g.telegrams.items ≤ 8) };
}

impl Group {
    /// The group of these telegrams. The error gives the list back: it is empty, or has more than
    /// eight.
    pub fn new(telegrams: Vec<Telegram>) -> Result<Group, Vec<Telegram>>
        ensures ok { IfOk result (λ g. g ≡ telegrams.items) }
        ensures made { IsOk result ↔ ((0 < length telegrams.items) × (length telegrams.items ≤ 8)) }
        ensures err { IfErr result (λ list. list ≡ telegrams) }
    {
        if telegrams.is_empty() || telegrams.len() > 8 {
            return Err(telegrams);
        }
        Ok(Group { telegrams })
    }

    /// The telegrams, in the order given: one to eight.
    pub fn telegrams(&self) -> &[Telegram]
        ensures value { result.now ≡ self.now }
        ensures some { 0 < length result.now }
        ensures few { length result.now ≤ 8 }
    {
        self.telegrams.as_slice()
    }
}
