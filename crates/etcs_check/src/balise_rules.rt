//! Rules about a single balise: its header, its place in the group, and packets that are not modelled. Functions that
//! push findings: `push_alone`, `push_unmodelled`.

ghost use Rattle.std.specs.Prelude.{◌≡◌, ◌≢◌, ◌<◌, ◌≤◌, ◌++◌, [], length, slice_get, Some, IsFalse, OnOk, OnErr};
ghost use Rattle.etcs_group.specs.Group.{partner_place};
ghost use Rattle.etcs_check.specs.Findings.{balise_fact, counter_differs, first_counter, is_other, is_outside, is_unanswered, header_differs, is_unmodelled, mark_differs};
ghost use Rattle.etcs_check.specs.Walk.{alone_found, balise_test, unmodelled_found};
ghost use Rattle.etcs_check.specs.declared.finding.Spot.{Spot as SomeSpot};

use crate::aspects::is_taken;
use crate::finding::{Finding, Rule, Spot, push_if};
use etcs_bits::{Dup, Memory};
use etcs_group::partner;
use etcs_packet::TrackPacket;
use etcs_telegram::Telegram;

// Whether the number is absent or differs from `wanted`.
fn is_other(number: Option<usize>, wanted: usize) -> bool
    ensures { result ≡ is_other number wanted }
{
    number.is_none_or(|number| number != wanted)
}

// Whether the partner of the balise at this place has another partner, or none.
fn is_unanswered(group: &[Telegram], place: usize) -> bool
    requires { length group.now ≤ 8 }
    ensures { result ≡ is_unanswered group.now (partner_place group.now place) place }
{
    partner(group, place).is_some_and(|named| is_other(partner(group, named), place))
}

// Whether a telegram has another version, identity or link flag than this one.
fn header_differs(first: &Telegram, telegram: &Telegram) -> bool
    ensures { result ≡ header_differs (Some first.now) telegram.now }
{
    let (this, that) = (&telegram.header, &first.header);
    !(this.version == that.version && this.identity == that.identity && this.linked == that.linked)
}

// Whether a telegram has another version, identity or link flag than balise 0 of aspect 0.
fn header_differs_from_first(first: &[Telegram], telegram: &Telegram) -> bool
    ensures { result ≡ header_differs (slice_get first.now 0) telegram.now }
{
    first
        .get(0)
        .is_some_and(|balise| header_differs(balise, telegram))
}

// Whether the duplicate flag of a telegram differs from the flag of the same balise in aspect 0.
fn mark_differs(first: &[Telegram], telegram: &Telegram, place: usize) -> bool
    ensures { result ≡ mark_differs (slice_get first.now place) telegram.now }
{
    let mark = telegram.header.dup.number();
    first
        .get(place)
        .is_some_and(|balise| mark != balise.header.dup.number())
}

// Whether a duplicate flag names a balise outside a group of `count` balises.
fn is_outside(count: usize, mark: Dup, place: usize) -> bool
    requires few { count ≤ 8 }
    requires within { place < count }
    ensures { result ≡ is_outside count mark place }
{
    match mark {
        Dup::Single => false,
        Dup::Next => place + 1 == count,
        Dup::Previous => place == 0,
    }
}

// The first counter below 254.
fn first_counter(group: &[Telegram]) -> Option<u32>
    ensures { result ≡ first_counter group.now }
{
    'telegrams: for telegram in group {
        let counter = telegram.header.counter.number();
        if counter < 254 {
            return Some(counter);
        }
    }
    None
}

// Whether a counter is below 254, and differs from the first one below 254.
fn counter_differs(group: &[Telegram], telegram: &Telegram) -> bool
    ensures { result ≡ counter_differs group.now telegram.now }
{
    let counter = telegram.header.counter.number();
    counter < 254 && first_counter(group).is_none_or(|first| first != counter)
}

// Whether the telegram of the balise at this place breaks the rule. It is compared with `first`, aspect 0.
// Counters of earlier aspects are checked elsewhere. Inlined, because every balise is checked against every
// rule.
#[inline(always)]
fn balise_fact(
    first: &[Telegram],
    group: &[Telegram],
    rule: Rule,
    place: usize,
    telegram: &Telegram,
) -> bool
    requires within { place < length group.now }
    requires few { length group.now ≤ 8 }
    ensures { result ≡ balise_fact first.now [] group.now rule place telegram.now }
{
    let header = &telegram.header;
    match rule {
        Rule::PositionWrong => header.position.number() as usize != place,
        Rule::TotalWrong => header.total.number() as usize + 1 != group.len(),
        Rule::HeaderDiffers => header_differs_from_first(first, telegram),
        Rule::MarkOutside => is_outside(group.len(), header.dup, place),
        Rule::MarkUnanswered => is_unanswered(group, place),
        Rule::CounterUnfit => header.counter.number() == 254,
        Rule::CountersDiffer => counter_differs(group, telegram),
        Rule::MarksDiffer => mark_differs(first, telegram, place),
        _ => false,
    }
}

// The rules about single balises.
const ALONE: [Rule; 9] = [
    Rule::PositionWrong,
    Rule::TotalWrong,
    Rule::HeaderDiffers,
    Rule::MarkOutside,
    Rule::MarkUnanswered,
    Rule::CounterUnfit,
    Rule::CountersDiffer,
    Rule::MarksDiffer,
    Rule::NotToldApart,
];

// Whether the telegram breaks the rule. The table has the counters of earlier aspects.
fn balise_test(
    first: &[Telegram],
    table: &[u64; 4],
    group: &[Telegram],
    rule: Rule,
    place: usize,
    telegram: &Telegram,
) -> bool
    requires within { place < length group.now }
    requires few { length group.now ≤ 8 }
    ensures { result ≡ balise_test first.now table.now group.now rule place telegram.now }
{
    match rule {
        Rule::NotToldApart => is_taken(table, telegram),
        _ => balise_fact(first, group, rule, place, telegram),
    }
}

// Whether the balise breaks a rule about single balises. The rules are listed one by one: a loop is slower.
#[inline(always)]
fn has_alone(
    first: &[Telegram],
    table: &[u64; 4],
    group: &[Telegram],
    place: usize,
    telegram: &Telegram,
) -> bool
    requires within { place < length group.now }
    requires few { length group.now ≤ 8 }
    ensures { IsFalse result → (spot : SomeSpot)
        → alone_found first.now table.now spot group.now place telegram.now ≡ [] }
{
    balise_fact(first, group, Rule::PositionWrong, place, telegram)
        || balise_fact(first, group, Rule::TotalWrong, place, telegram)
        || balise_fact(first, group, Rule::HeaderDiffers, place, telegram)
        || balise_fact(first, group, Rule::MarkOutside, place, telegram)
        || balise_fact(first, group, Rule::MarkUnanswered, place, telegram)
        || balise_fact(first, group, Rule::CounterUnfit, place, telegram)
        || balise_fact(first, group, Rule::CountersDiffer, place, telegram)
        || balise_fact(first, group, Rule::MarksDiffer, place, telegram)
        || is_taken(table, telegram)
}

// Appends a finding for each rule about single balises that the balise breaks.
pub(crate) fn push_alone(
    found: &mut Vec<Finding>,
    spot: Spot,
    first: &[Telegram],
    table: &[u64; 4],
    group: &[Telegram],
    place: usize,
    telegram: &Telegram,
) -> Result<(), Memory>
    requires within { place < length group.now }
    requires few { length group.now ≤ 8 }
    ensures ok { OnOk result (found.new.items
        ≡ found.old.items ++ alone_found first.now table.now spot group.now place telegram.now) }
    ensures memory { OnErr result (alone_found first.now table.now spot group.now place telegram.now ≢ []) }
{
    if !has_alone(first, table, group, place, telegram) {
        return Ok(());
    }
    'rules: for rule in &ALONE {
        let fact = balise_test(first, table, group, *rule, place, telegram);
        push_if(found, fact, *rule, spot, None, Some(place), None)?;
    }
    Ok(())
}

// Whether the meaning of the packet is not modelled.
fn is_unmodelled(packet: &TrackPacket) -> bool
    ensures { result ≡ is_unmodelled packet.now }
{
    match packet {
        TrackPacket::Cover(_) => true,
        TrackPacket::Raw(packet) => matches!(packet.number(), 136 | 254),
        _ => false,
    }
}

// Appends a finding for each packet of a balise, or of a message, that is not modelled.
pub(crate) fn push_unmodelled(
    found: &mut Vec<Finding>,
    spot: Spot,
    balise: Option<usize>,
    packets: &[TrackPacket],
) -> Result<(), Memory>
    ensures ok { OnOk result (found.new.items ≡ found.old.items ++ unmodelled_found spot balise packets.now) }
    ensures memory { OnErr result (unmodelled_found spot balise packets.now ≢ []) }
{
    'places: for place in 0..packets.len() {
        let fact = is_unmodelled(&packets[place]);
        let here = Some(place);
        push_if(found, fact, Rule::NotModelled, spot, None, balise, here)?;
    }
    Ok(())
}
