//! Laws of findings and soundness, for users. Each law is the contract of a function that does
//! nothing.

ghost use Rattle.etcs_check.specs.Laws.{FactsAreFindings, FindingsAreFacts, FindingsAreTheFactsInOrder, NoFindingMeansSoundGroup, NoFindingMeansSoundLine, ASoundLineHasNoViolation, PacketsAreTheirNumbers, PartsHoldUnlessFound, ProfilesAreTheirPackets, SoundGroupsAreDecided, SoundMixturesAreDecided, TelegramsAreTheirParts, UnnamedMeansSound};

/// Two packets are equal if and only if the numbers in the rows of their tables are equal.
#[tactic(auto, using(crate::proofs::NumberLemmas::packets_are_their_numbers))]
pub fn packets_are_their_numbers()
    ensures { PacketsAreTheirNumbers }
{}

/// Two telegrams are equal if and only if their sizes, their headers and the numbers in the rows of their
/// packets are equal.
#[tactic(auto, using(crate::proofs::NumberLemmas::telegrams_are_their_parts))]
pub fn telegrams_are_their_parts()
    ensures { TelegramsAreTheirParts }
{}

/// A packet that is a gradient profile is packet 21, and one that is a speed profile is packet 27.
pub fn profiles_are_their_packets()
    ensures { ProfilesAreTheirPackets }
{}

/// There is no fact against a group if and only if it is sound and no earlier group has its identity.
pub fn no_finding_means_sound_group()
    ensures { NoFindingMeansSoundGroup }
{}

/// A line has no finding if and only if it is sound: for each aspect of every group, running direction and
/// set of missed balises whose duplicates are read, and for every message.
#[tactic(auto, using(crate::proofs::LineLemmas::no_finding_means_sound_line))]
pub fn no_finding_means_sound_line()
    ensures { NoFindingMeansSoundLine }
{}

/// A group or a message is sound if and only if no finding of its line names it, whatever is found elsewhere.
/// Exception: of two groups with the same identity the later one is named.
pub fn unnamed_means_sound()
    ensures { UnnamedMeansSound }
{}

/// Each finding of a line states a fact at its site, aspect, running direction, balise and packet. The part
/// of soundness that its rule requires does not hold there. If a counter is 254, or two below 254 differ, the
/// reading with nothing missed is refused. In a well-formed aspect, duplicates that differ mean that the
/// packets without the first of the two are different from the packets with nothing missed, and a missing or
/// short profile means that the message of the group does not reach a supervised location.
pub fn findings_are_facts()
    ensures { FindingsAreFacts }
{}

/// If a rule has no finding at a site, aspect, running direction, balise and packet, the part of soundness
/// that the rule requires there holds.
#[tactic(auto, using(crate::proofs::ViolationLemmas::parts_hold_unless_found))]
pub fn parts_hold_unless_found()
    ensures { PartsHoldUnlessFound }
{}

/// In a sound line each part of soundness that a rule requires holds everywhere, so there can be no
/// violation.
pub fn a_sound_line_has_no_violation()
    ensures { ASoundLineHasNoViolation }
{}

/// Each fact against a line has its finding.
#[tactic(auto, using(crate::proofs::CellLemmas::each_fact_is_listed))]
pub fn facts_are_findings()
    ensures { FactsAreFindings }
{}

/// A line has only one list of findings: it has each fact once, and only facts, by group and then by message;
/// within each by rule, then by aspect (facts about the whole group first), by running direction, nominal
/// first, then by balise and packet.
#[tactic(auto, using(crate::proofs::CellLemmas::findings_are_the_facts_in_order))]
pub fn findings_are_the_facts_in_order()
    ensures { FindingsAreTheFactsInOrder }
{}

/// A reading of a sound group is accepted if and only if all missed balises are covered. Otherwise it is
/// refused: as Nothing if all balises are missed, and if not, as Absent at the least missed place that has no
/// partner or whose partner is missed.
pub fn sound_groups_are_decided()
    ensures { SoundGroupsAreDecided }
{}

/// If a sound group is switched while a train passes, the mixture of aspects that the train reads is accepted
/// if and only if all missed balises are covered and one aspect has all that is shown. Its packets are then
/// the packets of this aspect with nothing missed.
pub fn sound_mixtures_are_decided()
    ensures { SoundMixturesAreDecided }
{}
