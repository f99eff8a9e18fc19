//! `Line`: a railway line, its groups and messages. `check` finds all facts against it.

ghost use Rattle.std.specs.Prelude.{◌≡◌, ◌≢◌, ◌↔◌, ◌<◌, ◌++◌, ◌&&◌, ◌||◌, ◌==◌, [], ℕ, Bool, true, false, length, Option, IfOk, OnOk, OnErr};
ghost use Rattle.etcs_profile.specs.declared.run.Run.{Run};
ghost use Rattle.etcs_group.specs.Places.{At};
ghost use Rattle.etcs_group.specs.Missed.{IsSetOf};
ghost use Rattle.etcs_group.specs.Reading.{group_reading};
ghost use Rattle.etcs_group.specs.Laws.{IsDecided, IsMixtureDecided};
ghost use Rattle.etcs_group.specs.Mixture.{Fits};
ghost use Rattle.etcs_group.specs.Group.{Telegrams, Aspects};
ghost use Rattle.etcs_check.specs.Violation.{Violates};
ghost use Rattle.etcs_check.specs.Identities.{HasIdentity, identity_number, is_kept};
ghost use Rattle.etcs_check.specs.Laws.{AreControlled, NamesTheUnsound};
ghost use Rattle.etcs_check.specs.Line.{findings, group_findings, group_list, message_list};
ghost use Rattle.etcs_check.specs.Order.{IsFindings};
ghost use Rattle.etcs_check.specs.Soundness.{IsSoundControlled, IsSoundGroup, IsSoundLine};
ghost use Rattle.etcs_check.specs.declared.finding.Finding.{Finding};
ghost use Rattle.etcs_check.specs.declared.finding.Site.TheVariants as sites;

use crate::finding::{Finding, Site, append};
use crate::identities::{has_repeat, identity_number, is_kept, keep};
use crate::walk::{group_findings, message_findings};
use etcs_bits::Memory;
use etcs_group::{Controlled, Group};
use etcs_radio::Message;
use std::alloc::Global;

/// The data of a railway line: its balise groups and its radio messages. A group that no lineside unit
/// switches has one aspect.
#[derive(Debug, Drop)]
pub struct Line {
    /// The balise groups.
    pub groups: Vec<Controlled>,
    /// The radio messages.
    pub messages: Vec<Message>,
}

// Appends the findings about the group at this place. With `again`, its identity counts as used if it is in
// `kept`, and is kept. Without, nothing is kept, and the call allocates only if there is a finding.
fn push_next(
    alloc: Global,
    found: &mut Vec<Finding>,
    kept: &mut Vec<Vec<u64>>,
    again: bool,
    place: usize,
    aspects: &[Group],
) -> Result<(), Memory>
    requires some { 0 < length aspects.now }
    ensures ok { OnOk result (found.new.items ≡ found.old.items ++ group_findings (sites.Group place)
        (again && is_kept kept.old.items (identity_number aspects.now)) aspects.now) }
    ensures kept { OnOk result (again ≡ true → (n : ℕ) → is_kept kept.new.items n
        ≡ (identity_number aspects.now == n || is_kept kept.old.items n)) }
    ensures memory { OnErr result (again ≡ false → group_findings (sites.Group place) false aspects.now ≢ []) }
    ensures numbered { HasIdentity aspects.now }
{
    let identity = identity_number(aspects);
    let used = again && is_kept(kept, identity);
    let more = group_findings(alloc, place, used, aspects)?;
    append(found, more)?;
    if again { keep(kept, identity) } else { Ok(()) }
}

// Appends the findings about the groups.
fn push_groups(alloc: Global, found: &mut Vec<Finding>, groups: &[Controlled]) -> Result<(), Memory>
    ensures ok { OnOk result (found.new.items ≡ found.old.items ++ group_list groups.now) }
    ensures memory { OnErr result (group_list groups.now ≢ []) }
    ensures controlled { OnOk result (AreControlled groups.now) }
{
    let again = has_repeat(groups);
    let mut kept = Vec::new(alloc);
    'places: for place in 0..groups.len() {
        let aspects = groups[place].aspects();
        push_next(alloc, found, &mut kept, again, place, aspects)?;
    }
    Ok(())
}

// Appends the findings about the messages.
fn push_messages(
    alloc: Global,
    found: &mut Vec<Finding>,
    messages: &[Message],
) -> Result<(), Memory>
    ensures ok { OnOk result (found.new.items ≡ found.old.items ++ message_list messages.now) }
    ensures memory { OnErr result (message_list messages.now ≢ []) }
{
    'places: for place in 0..messages.len() {
        let more = message_findings(alloc, Site::Message(place), &messages[place])?;
        append(found, more)?;
    }
    Ok(())
}

/// All facts against a line: by group, then by message; within each by rule, then by aspect (facts about
/// the whole group first), by running direction, nominal first, then by balise and packet. No finding
/// hides another.
///
/// The list is empty if and only if the line is sound (this project's rules, after SUBSET-026, 3.16.2):
///
/// - Each aspect of a group is well formed: the positions, totals, versions, identities, link flags and
///   duplicate flags of its balises fit together. No two groups have the same identity. No group and no
///   message 3 has a packet 0, 136 or 254.
/// - For each aspect of every group and each running direction, a train makes the same message for every set
///   of missed balises, provided that it reads the duplicate of each missed balise.
/// - In that message, and in each message 3 for either direction, every movement authority has a gradient
///   and a speed profile, and all such profiles reach its supervised location.
/// - The aspects of a group are contents of one group, and their counters distinguish them. So a train
///   that passes while the group is switched refuses what it reads, unless one aspect has all of it.
///
/// Allocates only if there is a finding. If an identity is repeated, the numbers of all identities are kept
/// as well. The only error is that memory runs out; then no finding is returned.
pub fn check(alloc: Global, line: &Line) -> Result<Vec<Finding>, Memory>
    ensures ok { IfOk result (λ found. found.items ≡ findings line.now.groups.items line.now.messages.items) }
    ensures memory { OnErr result (findings line.now.groups.items line.now.messages.items ≢ []) }

    // No finding means sound.
    ensures sound { IfOk result (λ found. (found.items ≡ [])
        ↔ IsSoundLine line.now.groups.items line.now.messages.items) }

    // A group or a message is sound if and only if no finding names it, whatever is found elsewhere.
    // Exception: of two groups with the same identity the later one is named.
    ensures unnamed { IfOk result
        (λ found. NamesTheUnsound line.now.groups.items line.now.messages.items found.items) }

    // Each fact has one finding, each finding states a fact, and the order is strict. So none hides another.
    ensures list { IfOk result
        (λ found. IsFindings line.now.groups.items line.now.messages.items found.items) }

    // The part of soundness that the rule of a finding requires does not hold at its location.
    ensures violates { IfOk result (λ found. (i : ℕ) (f : Finding) → At found.items i f
        → Violates line.now.groups.items line.now.messages.items f) }

    // Only what was missed decides whether a reading of a sound aspect is accepted. This clause and the
    // next one are laws of the line, whatever is found.
    ensures decided { OnOk result ((g a : ℕ) (aspects : Aspects) (group : Telegrams) (run : Run)
        (missed : ℕ → Bool) → At line.now.groups.items g aspects → At aspects a group → IsSoundGroup group
        → IsSetOf group missed → IsDecided run group missed (group_reading run missed group)) }

    // A mixture of aspects of a sound group is accepted if and only if it is covered and one aspect has all
    // that it shows. Its packets are then the packets of that aspect.
    ensures mixtures { OnOk result ((g : ℕ) (aspects : Aspects) (run : Run) (shown : ℕ → Option ℕ)
        → At line.now.groups.items g aspects → IsSoundControlled aspects → Fits aspects shown
        → IsMixtureDecided run aspects shown) }
{
    let mut found = Vec::new(alloc);
    push_groups(alloc, &mut found, &line.groups)?;
    push_messages(alloc, &mut found, &line.messages)?;
    Ok(found)
}
