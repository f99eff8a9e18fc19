//! Rule F16: functions that find aspects of a controlled group which a train cannot distinguish by their counters. No
//! types.

ghost use Rattle.std.specs.Prelude.{◌≡◌, ◌≢◌, ◌<◌, ◌≤◌, ◌++◌, ◌||◌, [], ℕ, length, Some, OnOk, OnErr};
ghost use Rattle.etcs_group.specs.Places.{element_passes};
ghost use Rattle.etcs_telegram.specs.Record.{Telegram};
ghost use Rattle.etcs_check.specs.Aspects.{all_pass, has_aspect_counter, is_steady, is_ambiguous, site_spot};
ghost use Rattle.etcs_check.specs.Findings.{for_each, has_counter};
ghost use Rattle.etcs_check.specs.Identities.{is_marked};
ghost use Rattle.etcs_check.specs.Soundness.{first_aspect};
ghost use Rattle.etcs_check.specs.Walk.{ambiguous_finding, is_taken};

use crate::duplicates::same_telegram;
use crate::finding::{Finding, Rule, Site, Spot, push_if};
use crate::identities::{is_marked, mark};
use etcs_bits::Memory;
use etcs_group::Group;
use etcs_telegram::Telegram;

// The location of facts about a whole group or a message.
pub(crate) fn site_spot(site: Site) -> Spot
    ensures { result ≡ site_spot site }
{
    Spot { site, aspect: None }
}

// The first aspect.
pub(crate) fn first_aspect(aspects: &[Group]) -> &[Telegram]
    requires { 0 < length aspects.now }
    ensures value { result.now ≡ first_aspect aspects.now }
    ensures some { 0 < length result.now }
    ensures few { length result.now ≤ 8 }
{
    aspects[0].telegrams()
}

// Whether an aspect has this telegram at the place, and its counter is 255.
fn is_steady_in(wanted: &Telegram, group: &[Telegram], place: usize) -> bool
    ensures { result ≡ element_passes group.now place (is_steady wanted.now) }
{
    group.get(place).is_some_and(|telegram| {
        telegram.header.counter.number() == 255 && same_telegram(wanted, telegram)
    })
}

// Whether every aspect has this telegram at the place, with counter 255.
fn is_steady(wanted: &Telegram, aspects: &[Group], place: usize) -> bool
    ensures { result ≡ all_pass (is_steady wanted.now) place aspects.now }
{
    aspects
        .iter()
        .all(|aspect| is_steady_in(wanted, aspect.telegrams(), place))
}

// Whether an aspect has a counter below 254 at the place.
fn has_aspect_counter_in(group: &[Telegram], place: usize) -> bool
    ensures { result ≡ element_passes group.now place has_aspect_counter }
{
    group
        .get(place)
        .is_some_and(|telegram| telegram.header.counter.number() < 254)
}

// Whether every aspect has a counter below 254 at the place.
fn has_aspect_counter(aspects: &[Group], place: usize) -> bool
    ensures { result ≡ all_pass has_aspect_counter place aspects.now }
{
    aspects
        .iter()
        .all(|aspect| has_aspect_counter_in(aspect.telegrams(), place))
}

// Whether there are two or more aspects, and the counters at the place do not distinguish them: not all
// aspects have `wanted` there, the telegram of aspect 0, with counter 255, and not all have a counter below
// 254.
fn is_ambiguous(aspects: &[Group], place: usize, wanted: &Telegram) -> bool
    ensures { result ≡ is_ambiguous aspects.now place wanted.now }
{
    aspects.len() > 1 && !(is_steady(wanted, aspects, place) || has_aspect_counter(aspects, place))
}

// Appends a finding for each place whose counters do not distinguish the aspects.
pub(crate) fn push_ambiguous(
    found: &mut Vec<Finding>,
    site: Site,
    aspects: &[Group],
) -> Result<(), Memory>
    requires some { 0 < length aspects.now }
    ensures ok { OnOk result (found.new.items ≡ found.old.items
        ++ for_each (first_aspect aspects.now) (ambiguous_finding (site_spot site) aspects.now)) }
    ensures memory { OnErr result
        (for_each (first_aspect aspects.now) (ambiguous_finding (site_spot site) aspects.now) ≢ []) }
{
    let first = first_aspect(aspects);
    let spot = site_spot(site);
    'places: for place in 0..first.len() {
        let fact = is_ambiguous(aspects, place, &first[place]);
        let here = Some(place);
        push_if(found, fact, Rule::NotToldApart, spot, None, here, None)?;
    }
    Ok(())
}

// Whether a counter is below 254 and marked.
pub(crate) fn is_taken(table: &[u64; 4], telegram: &Telegram) -> bool
    ensures { result ≡ is_taken table.now telegram.now }
{
    let counter = telegram.header.counter.number() as usize;
    counter < 254 && is_marked(table, counter)
}

// Marks the counters of an aspect.
pub(crate) fn mark_counters(table: &mut [u64; 4], group: &[Telegram])
    ensures { (n : ℕ) → is_marked table.new n ≡ (has_counter n group.now || is_marked table.old n) }
{
    'telegrams: for telegram in group {
        mark(table, telegram.header.counter.number() as usize);
    }
}
