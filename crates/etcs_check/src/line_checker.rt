//! `LineChecker` checks a railway line group by group and message by message, without keeping them. `CheckError`: why
//! it stops.

ghost use Rattle.std.specs.Prelude.{◌≡◌, ◌≢◌, ◌↔◌, ◌∷◌, ◌++◌, [], ℕ, List, length, IfOk, IsErrOf, OnOk, OnErr};
ghost use Rattle.etcs_radio.specs.declared.message.Message.{Message as SomeMessage};
ghost use Rattle.etcs_group.specs.Places.{At};
ghost use Rattle.etcs_group.specs.Group.{Aspects};
ghost use Rattle.etcs_check.specs.Violation.{Violates};
ghost use Rattle.etcs_check.specs.Laws.{NamesTheUnsound};
ghost use Rattle.etcs_check.specs.Line.{findings};
ghost use Rattle.etcs_check.specs.LineChecker.{HasChecked, HasStill, TakesGroups, TakesMessages};
ghost use Rattle.etcs_check.specs.Order.{IsFindings};
ghost use Rattle.etcs_check.specs.Soundness.{IsSoundLine};
ghost use Rattle.etcs_check.specs.declared.finding.Finding.{Finding as SomeFinding};

use crate::finding::{Finding, Site, append};
use crate::identities::{identity_number, is_kept, keep};
use crate::walk::{group_findings, message_findings};
use etcs_bits::Memory;
use etcs_group::Controlled;
use etcs_radio::Message;
use std::alloc::Global;
use std::marker::Model;
use thiserror::Error;

/// Why a group or a message was not taken.
#[derive(Clone, Copy, Debug, PartialEq, Eq, Error)]
pub enum CheckError {
    /// Memory ran out.
    #[error("out of memory")]
    Memory,
    /// `usize::MAX` groups, or messages, were taken before, and no more can be counted.
    #[error("too many to be counted")]
    TooMany,
}

impl From<Memory> for CheckError {
    ghost use Rattle.std.specs.Prelude.{◌≡◌};
    ghost use Rattle.etcs_check.specs.declared.line_checker.CheckError.TheVariants as errors;

    ghost from_gives = { λ _ error. error ≡ errors.Memory };

    fn from(_memory: Memory) -> CheckError {
        CheckError::Memory
    }
}

/// Checks a line whose groups and messages are passed one by one, each kind in its order, and not kept. Its
/// memory grows only with the identities and the findings. A group or message that is refused changes
/// nothing, and may be passed again.
#[derive(Debug, Drop)]
pub struct LineChecker {
    about_groups: Vec<Finding>,
    about_messages: Vec<Finding>,
    groups: usize,
    messages: usize,
    identities: Vec<Vec<u64>>,
}

impl Model for LineChecker {
    ghost use Rattle.etcs_check.specs.LineChecker.{CheckerState};

    ghost Value = { CheckerState };

    ghost view = { λ c. record { about_groups = c.about_groups.items; about_messages = c.about_messages.items; groups = c.groups; messages = c.messages; identities = c.identities.items } };
}

impl LineChecker {
    /// A checker that has taken nothing yet. Allocates nothing.
    pub fn new(alloc: Global) -> LineChecker
        ensures { HasChecked result [] [] }
    {
        LineChecker {
            about_groups: Vec::new(alloc),
            about_messages: Vec::new(alloc),
            groups: 0,
            messages: 0,
            identities: Vec::new(alloc),
        }
    }

    /// Takes the next group. Allocates if its identity is new, and for its findings.
    pub fn group(&mut self, alloc: Global, group: &Controlled) -> Result<(), CheckError>
        ensures ok { OnOk result (TakesGroups self.old (group.now ∷ []) self.new) }

        // Found before allocating.
        ensures too_many { (gs : List Aspects) (ms : List SomeMessage) → HasChecked self.old gs ms
            → IsErrOf result CheckError.TooMany ↔ (length gs ≡ usize.MAX) }

        // A refused group changes nothing. Memory can run out for any group: a new identity must be kept, and
        // a repeated one is a finding.
        ensures kept { OnErr result (HasStill self.old self.new) }
    {
        let Some(groups) = self.groups.checked_add(1) else {
            return Err(CheckError::TooMany);
        };
        let aspects = group.aspects();
        let identity = identity_number(aspects);
        let used = is_kept(&self.identities, identity);
        let found = group_findings(alloc, self.groups, used, aspects)?;
        let before = self.about_groups.len();
        append(&mut self.about_groups, found)?;
        if keep(&mut self.identities, identity).is_err() {
            self.about_groups.truncate(before);
            return Err(CheckError::Memory);
        }
        self.groups = groups;
        Ok(())
    }

    /// Takes the next message. Allocates only if there is a finding about it.
    pub fn message(&mut self, alloc: Global, message: &Message) -> Result<(), CheckError>
        ensures ok { OnOk result (TakesMessages self.old (message.now ∷ []) self.new) }

        // Found before allocating.
        ensures too_many { (gs : List Aspects) (ms : List SomeMessage) → HasChecked self.old gs ms
            → IsErrOf result CheckError.TooMany ↔ (length ms ≡ usize.MAX) }

        // A refused message changes nothing. Memory cannot run out for a message without a finding.
        ensures kept { OnErr result (HasStill self.old self.new) }
        ensures memory { IsErrOf result CheckError.Memory → findings [] (message.now ∷ []) ≢ [] }
    {
        let Some(messages) = self.messages.checked_add(1) else {
            return Err(CheckError::TooMany);
        };
        let found = message_findings(alloc, Site::Message(self.messages), message)?;
        append(&mut self.about_messages, found)?;
        self.messages = messages;
        Ok(())
    }

    /// How many groups were taken.
    pub fn groups(&self) -> usize
        ensures { (gs : List Aspects) (ms : List SomeMessage) → HasChecked self.now gs ms
            → result ≡ length gs }
    {
        self.groups
    }

    /// How many messages were taken.
    pub fn messages(&self) -> usize
        ensures { (gs : List Aspects) (ms : List SomeMessage) → HasChecked self.now gs ms
            → result ≡ length ms }
    {
        self.messages
    }

    /// All facts against the line of the groups and messages that were taken, in the order of
    /// [`check`](crate::check). Allocates only if there are findings both about groups and about messages. If
    /// memory runs out, no finding is returned.
    pub fn finish(self) -> Result<Vec<Finding>, Memory>
        ensures ok { IfOk result (λ found. (gs : List Aspects) (ms : List SomeMessage)
            → HasChecked self gs ms → found.items ≡ findings gs ms) }
        ensures memory { OnErr result ((gs : List Aspects) (ms : List SomeMessage)
            → HasChecked self gs ms → (findings gs [] ≢ []) × (findings [] ms ≢ [])) }

        // No finding means sound.
        ensures sound { IfOk result (λ found. (gs : List Aspects) (ms : List SomeMessage)
            → HasChecked self gs ms → (found.items ≡ []) ↔ IsSoundLine gs ms) }

        // A group or a message is sound if and only if no finding names it, whatever is found elsewhere.
        // Exception: of two groups with the same identity the later one is named.
        ensures unnamed { IfOk result (λ found. (gs : List Aspects) (ms : List SomeMessage)
            → HasChecked self gs ms → NamesTheUnsound gs ms found.items) }

        // Each fact has one finding, each finding states a fact, and the order is strict. So none hides
        // another.
        ensures list { IfOk result (λ found. (gs : List Aspects) (ms : List SomeMessage)
            → HasChecked self gs ms → IsFindings gs ms found.items) }

        // The part of soundness that the rule of a finding requires does not hold at its location.
        ensures violates { IfOk result (λ found. (gs : List Aspects) (ms : List SomeMessage)
            → HasChecked self gs ms → (i : ℕ) (f : SomeFinding) → At found.items i f → Violates gs ms f) }
    {
        let LineChecker {
            mut about_groups,
            about_messages,
            groups: _,
            messages: _,
            identities: _,
        } = self;
        append(&mut about_groups, about_messages)?;
        Ok(about_groups)
    }
}
