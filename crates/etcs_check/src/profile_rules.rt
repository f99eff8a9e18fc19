//! Rules about movement authorities and the profiles that they need: a profile is missing, `push_lacks`, or ends too
//! early, `push_short`.

ghost use Rattle.std.specs.Prelude.{◌≡◌, ◌≢◌, ◌<◌, ◌++◌, [], ℕ, length, Option, Some, OnOk, OnErr};
ghost use Rattle.std.specs.Option.{option_map_or};
ghost use Rattle.etcs_profile.specs.Track.{holds};
ghost use Rattle.etcs_profile.specs.declared.run.Run.{Run as SomeRun};
ghost use Rattle.etcs_check.specs.Findings.{new_finding, falls_short, noted};
ghost use Rattle.etcs_check.specs.Walk.{lacks_found, short_at_packet, short_by_balise, short_found};
ghost use Rattle.etcs_check.specs.declared.finding.Spot.{Spot as SomeSpot};

use crate::finding::{Finding, Rule, Spot, push_if};
use crate::packet_summary::{PacketSummary, is_silent, packets};
use etcs_bits::Memory;
use etcs_packet::{Run, TrackPacket};
use etcs_profile::Reach;
use etcs_telegram::Telegram;

// Appends a finding for each kind of profile that the packets lack, if they have an authority.
pub(crate) fn push_lacks(
    found: &mut Vec<Finding>,
    spot: Spot,
    run: Run,
    said: PacketSummary,
) -> Result<(), Memory>
    ensures ok { OnOk result (found.new.items ≡ found.old.items ++ lacks_found spot run said) }
    ensures memory { OnErr result (lacks_found spot run said ≢ []) }
{
    let fact = said.limit.is_some() && !said.has_gradient;
    push_if(found, fact, Rule::NoGradient, spot, Some(run), None, None)?;
    let fact = said.limit.is_some() && !said.has_speed;
    push_if(found, fact, Rule::NoSpeed, spot, Some(run), None, None)
}

// Whether a profile of this reach ends before the location.
fn ends_before(reach: Reach, limit: u64) -> bool
    ensures { result ≡ falls_short reach limit }
{
    matches!(reach, Reach::Ends(end) if end < limit)
}

// The rule that the packet breaks if it holds, as a profile that ends before the location.
fn early_rule(packet: &TrackPacket, limit: u64) -> Option<Rule>
    ensures { (spot : SomeSpot) (run : SomeRun) (b : Option ℕ) (k : ℕ)
        → short_at_packet spot run (Some limit) b k packet.now ≡ option_map_or
        (λ rule. noted (holds run packet.now) (new_finding rule spot (Some run) b (Some k))) result [] }
{
    match packet {
        TrackPacket::Gradient(it) if ends_before(it.reach(), limit) => Some(Rule::GradientShort),
        TrackPacket::Speed(it) if ends_before(it.reach(), limit) => Some(Rule::SpeedShort),
        _ => None,
    }
}

// Appends the finding about a packet, if it is a profile that holds and ends before the location.
#[inline(always)]
fn push_early(
    found: &mut Vec<Finding>,
    spot: Spot,
    run: Run,
    limit: u64,
    balise: Option<usize>,
    place: usize,
    packet: &TrackPacket,
) -> Result<(), Memory>
    ensures ok { OnOk result (found.new.items ≡ found.old.items ++ short_at_packet spot run (Some limit) balise place packet.now) }
    ensures memory { OnErr result (short_at_packet spot run (Some limit) balise place packet.now ≢ []) }
{
    match early_rule(packet, limit) {
        Some(rule) => {
            let fact = packet.holds_in(run);
            push_if(found, fact, rule, spot, Some(run), balise, Some(place))
        }
        None => Ok(()),
    }
}

// Appends a finding for each profile that holds and ends before the location.
#[inline(always)]
pub(crate) fn push_short(
    found: &mut Vec<Finding>,
    spot: Spot,
    run: Run,
    limit: u64,
    balise: Option<usize>,
    packets: &[TrackPacket],
) -> Result<(), Memory>
    ensures ok { OnOk result (found.new.items ≡ found.old.items ++ short_found spot run (Some limit) balise packets.now) }
    ensures memory { OnErr result (short_found spot run (Some limit) balise packets.now ≢ []) }
{
    'places: for place in 0..packets.len() {
        push_early(found, spot, run, limit, balise, place, &packets[place])?;
    }
    Ok(())
}

// Appends the findings about the profiles of the balise at this place, unless it is silent or there is no
// authority.
#[inline(always)]
pub(crate) fn push_short_by(
    found: &mut Vec<Finding>,
    spot: Spot,
    group: &[Telegram],
    run: Run,
    limit: Option<u64>,
    place: usize,
    telegram: &Telegram,
) -> Result<(), Memory>
    requires within { place < length group.now }
    ensures ok { OnOk result (found.new.items ≡ found.old.items ++ short_by_balise spot group.now run limit place telegram.now) }
    ensures memory { OnErr result (short_by_balise spot group.now run limit place telegram.now ≢ []) }
{
    if is_silent(run, telegram, group.len(), place) {
        return Ok(());
    }
    match limit {
        Some(limit) => push_short(found, spot, run, limit, Some(place), packets(telegram)),
        None => Ok(()),
    }
}
