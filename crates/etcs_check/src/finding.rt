//! `Finding`: a fact against a line, with its `Rule`, its `Site` (group or message) and its `Spot` (balise and
//! packet).

ghost use Rattle.std.specs.Prelude.{◌≡◌, ◌≢◌, ◌++◌, [], OnOk, OnErr};
ghost use Rattle.etcs_check.specs.Findings.{new_finding, noted};

use etcs_bits::Memory;
use etcs_packet::Run;

/// The rules, in the order in which findings are listed (this project's rules, after SUBSET-026,
/// 3.16.2). F9 to F13 are about balise groups and messages 3, the others about groups. F1 to F13 are
/// checked in each aspect of a group.
#[derive(Clone, Copy, Debug, PartialEq, Eq)]
pub enum Rule {
    /// F1: the position of a balise, N_PIG, is not its place in the group.
    PositionWrong,
    /// F2: the number of balises that a balise gives, N_TOTAL plus one, differs from the number in the group.
    TotalWrong,
    /// F3: the version, the identity or the link flag of a balise differs from balise 0 of aspect 0.
    HeaderDiffers,
    /// F4: the duplicate flag of a balise, M_DUP, names a balise outside the group.
    MarkOutside,
    /// F5: the duplicate flag of a balise names a balise of the group whose own flag does not name it.
    MarkUnanswered,
    /// F6: the message counter of a balise, M_MCOUNT, is 254, which fits no message.
    CounterUnfit,
    /// F7: the counter of a balise is below 254, and differs from the first below 254 in the group.
    CountersDiffer,
    /// F8: two balises whose duplicate flags name each other have different packets that hold in a
    /// running direction.
    DuplicatesDiffer,
    /// F9: a packet is 0, 136 or 254, whose meaning is not modelled.
    NotModelled,
    /// F10: in a running direction the message has a movement authority, and no gradient profile.
    NoGradient,
    /// F11: a gradient profile of the message ends before the supervised location of an authority of the
    /// message.
    GradientShort,
    /// F12: in a running direction the message has a movement authority, and no speed profile.
    NoSpeed,
    /// F13: a speed profile of the message ends before the supervised location of an authority of the
    /// message.
    SpeedShort,
    /// F14: an earlier group has the identity of the group, which is the identity of balise 0 of its aspect
    /// 0.
    IdentityUsed,
    /// F15: the duplicate flag of a balise differs from the flag of the same balise in aspect 0.
    MarksDiffer,
    /// F16: a train that reads two aspects could take them for one. A finding without an aspect: the balise
    /// has neither the same telegram with counter 255 in all aspects, nor a counter below 254 in each of
    /// them. A finding with an aspect: the balise's counter is below 254, and an earlier aspect has the same
    /// counter.
    NotToldApart,
}

/// The group or message of a finding. Groups and messages are counted from 0, separately.
#[derive(Clone, Copy, Debug, PartialEq, Eq)]
pub enum Site {
    /// The balise group at this index.
    Group(usize),
    /// The radio message at this index.
    Message(usize),
}

// The location of a finding: its group or message, and its aspect if the group has two or more.
#[derive(Clone, Copy)]
pub(crate) struct Spot {
    pub(crate) site: Site,
    pub(crate) aspect: Option<usize>,
}

/// A fact against a line.
#[derive(Clone, Copy, Debug, PartialEq, Eq)]
pub struct Finding {
    /// The rule that is broken.
    pub rule: Rule,
    /// The group or message.
    pub site: Site,
    /// The aspect, counted from 0, if the group has two or more and the fact is about one of them.
    pub aspect: Option<usize>,
    /// The running direction, for the rules F8 and F10 to F13.
    pub dir: Option<Run>,
    /// The balise, by its index in the group, for all rules about one balise.
    pub balise: Option<usize>,
    /// The packet, counted from 0 in its balise or message, for the rules F9, F11 and F13.
    pub packet: Option<usize>,
}

// Appends the finding of these parts if `fact` holds, and allocates only then. All findings are made here.
pub(crate) fn push_if(
    found: &mut Vec<Finding>,
    fact: bool,
    rule: Rule,
    spot: Spot,
    dir: Option<Run>,
    balise: Option<usize>,
    packet: Option<usize>,
) -> Result<(), Memory>
    ensures ok { OnOk result (found.new.items ≡ found.old.items ++ noted fact (new_finding rule spot dir balise packet)) }
    ensures memory { OnErr result (noted fact (new_finding rule spot dir balise packet) ≢ []) }
{
    if fact {
        let finding = Finding {
            rule,
            site: spot.site,
            aspect: spot.aspect,
            dir,
            balise,
            packet,
        };
        found.push(finding)?;
    }
    Ok(())
}

// Appends the other findings. Allocates only if neither list is empty. If memory runs out, nothing changes.
#[inline(always)]
pub(crate) fn append(found: &mut Vec<Finding>, mut more: Vec<Finding>) -> Result<(), Memory>
    ensures ok { OnOk result (found.new.items ≡ found.old.items ++ more.items) }
    ensures memory { OnErr result ((found.old.items ≢ []) × (more.items ≢ [])) }
    ensures err { OnErr result (found.new.items ≡ found.old.items) }
{
    if more.is_empty() {
        return Ok(());
    }
    if found.is_empty() {
        *found = more;
        return Ok(());
    }
    found.append(&mut more)?;
    Ok(())
}
