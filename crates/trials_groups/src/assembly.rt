//! Lists of telegrams and sets of missed balises with results that were worked out by hand, the texts of refusals, and
//! telegrams that are compared.

use crate::halt::Halt;
use crate::shared::{
    ALONE, FIRST, FIRST_7, SECOND, SECOND_8, WITH_GRADIENT, group, message, telegram, telegrams,
};
use etcs_check::same_packets;
use etcs_group::{Missed, Refused, is_covered};
use etcs_packet::Run;
use etcs_packet::Run::{Nominal, Reverse};
use std::alloc::Global;
use std::test::Fail;

/// Four pairs, and the first of them again.
const PAIRS_AND_ONE: [&str; 9] = [
    "a10eff802000",
    "a11f7f802000",
    "a12eff802000",
    "a13f7f802000",
    "a14eff802000",
    "a15f7f802000",
    "a16eff802000",
    "a17f7f802000",
    "a10eff802000",
];

/// Lists of telegrams, and the numbers of their packets or why there is no message.
const ROWS: [(Run, &[&str], &str); 17] = [
    (Nominal, &[], "nothing read"),
    (Reverse, &[SECOND, FIRST], "ok"),
    (Nominal, &[SECOND, FIRST], "place 1 out of order"),
    (Nominal, &[FIRST, FIRST], "place 1 out of order"),
    (Nominal, &[FIRST, ALONE], "place 1 disagrees with place 0"),
    (Nominal, &["a122ff802000"], "place 0 out of order"),
    (Nominal, &["a1157f802000"], "position 2 absent"),
    (Nominal, &["a1127f802000"], "position 0 absent"),
    (Nominal, &[FIRST], "ok"),
    (Reverse, &[ALONE], "ok"),
    (Reverse, &[SECOND, WITH_GRADIENT], "ok"),
    (Reverse, &[WITH_GRADIENT], "ok 21"),
    (
        Nominal,
        &[FIRST_7, SECOND_8],
        "counter of place 1 does not fit",
    ),
    (
        Nominal,
        &["a10403802000", "a1147f802000", "a12404002000"],
        "counter of place 2 does not fit",
    ),
    (
        Nominal,
        &["a1007f002000"],
        "counter of place 0 does not fit",
    ),
    (
        Reverse,
        &["a1007f002000"],
        "counter of place 0 does not fit",
    ),
    (Nominal, &PAIRS_AND_ONE, "place 8 out of order"),
];

/// Groups, and the sets of missed balises that are covered: of one alone, a pair, and three of which the first
/// two name the next one.
const COVERED: [(&[&str], &[u8]); 3] = [
    (&[ALONE], &[0]),
    (&[FIRST, SECOND], &[0, 1, 2]),
    (
        &["a104ff802000", "a114ff802000", "a1257f802000"],
        &[0, 1, 2, 4, 5],
    ),
];

// The message of the telegrams that begin with these digits.
fn message_of(alloc: Global, run: Run, fronts: &[&str]) -> Result<String, Halt> {
    let telegrams = telegrams(alloc, fronts)?;
    let mut read = Vec::new(alloc);
    'telegrams: for telegram in telegrams.iter() {
        read.push(telegram)?;
    }
    message(alloc, run, read.as_slice())
}

#[test]
fn lists_are_accepted_or_refused(rt: HostRuntime) -> Result<(), Fail> {
    'rows: for (run, fronts, answer) in ROWS {
        assert_eq!(rt; message_of(rt.alloc(), run, fronts)?.as_str(), answer);
    }
    let text = Refused::Memory.to_string(rt.alloc())?;
    assert_eq!(rt; text.as_str(), "out of memory");
    Ok(())
}

#[test]
fn a_set_is_covered_by_its_partners(rt: HostRuntime) -> Result<(), Fail> {
    'rows: for (fronts, covered) in COVERED {
        let group = group(rt.alloc(), fronts)?;
        'sets: for missed in 0..=255u8 {
            let is_expected = covered.contains(&missed);
            assert!(rt;
                is_covered(&group, Missed(missed)) == is_expected,
                "{missed}"
            );
        }
    }
    Ok(())
}

#[test]
fn packets_are_compared_in_a_direction(rt: HostRuntime) -> Result<(), Fail> {
    let without = telegram(rt.alloc(), FIRST)?;
    let with_gradient = telegram(rt.alloc(), WITH_GRADIENT)?;
    assert!(rt; same_packets(&without, &with_gradient, Nominal));
    assert!(rt; !same_packets(&without, &with_gradient, Reverse));
    Ok(())
}
