//! `Controlled`: a balise group that shows one of several contents, its aspects.

ghost use Rattle.std.specs.Prelude.{◌≡◌, ◌↔◌, IfOk, IfErr, IsOk, IsTrue};
ghost use Rattle.etcs_group.specs.Controlled.{IsControlled};

use crate::group::Group;
use std::marker::Model;

/// A controlled balise group, such as one at a signal: it shows one of several contents, its aspects. Each
/// aspect is a group, and all have the same number of balises. Nothing else about them is required. (This
/// project's rule, after SUBSET-026, 3.16.2.)
///
/// Contracts see it as the list of its aspects.
#[derive(Debug, Drop)]
pub struct Controlled {
    aspects: Vec<Group>,
}

impl Model for Controlled {
    ghost use Rattle.std.specs.Prelude.{List};
    ghost use Rattle.etcs_telegram.specs.Record.{Telegram};
    ghost use Rattle.etcs_group.specs.Controlled.{IsControlled};

    ghost Value = { List (List Telegram) };

    ghost view = { λ c. c.aspects.items };

    ghost invariant = { λ c. IsControlled c.aspects.items };
}

// Whether there are aspects, all with the same number of balises.
fn is_controlled(aspects: &[Group]) -> bool
    ensures { IsTrue result ↔ IsControlled aspects.now }
{
    if aspects.is_empty() {
        return false;
    }
    let count = aspects[0].telegrams().len();
    'aspects: for aspect in aspects {
        if aspect.telegrams().len() != count {
            return false;
        }
    }
    true
}

impl Controlled {
    /// The controlled group of these aspects. The error gives the list back: it is empty, or two of its
    /// groups differ in their number of balises.
    pub fn new(aspects: Vec<Group>) -> Result<Controlled, Vec<Group>>
        ensures ok { IfOk result (λ c. c ≡ aspects.items) }
        ensures made { IsOk result ↔ IsControlled aspects.items }
        ensures err { IfErr result (λ list. list ≡ aspects) }
    {
        if !is_controlled(&aspects) {
            return Err(aspects);
        }
        Ok(Controlled { aspects })
    }

    /// The aspects, in the order given: one or more, all with the same number of balises.
    pub fn aspects(&self) -> &[Group]
        ensures value { result.now ≡ self.now }
        ensures controlled { IsControlled result.now }
    {
        self.aspects.as_slice()
    }
}
