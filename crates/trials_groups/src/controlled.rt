//! A group that shows one of three contents, and what a train reads of it while it is switched: all mixtures, in both
//! directions.

use crate::halt::Halt;
use crate::shared::{controlled, message};
use etcs_group::{Controlled, Mixture};
use etcs_packet::Run;
use etcs_packet::Run::{Nominal, Reverse};
use std::alloc::Global;
use std::test::Fail;

/// Two pairs in three aspects. The first pair has another counter in each aspect, and packet 44, 45 or 46.
/// The second pair is the same in all aspects, with counter 255 and no packet.
const ASPECTS: [&[&str]; 3] = [
    &[
        "a10683802000cb200bf",
        "a11703802000cb200bf",
        "a126ff802000",
        "a1377f802000",
    ],
    &[
        "a10684002000cb600bf",
        "a11704002000cb600bf",
        "a126ff802000",
        "a1377f802000",
    ],
    &[
        "a10684802000cba00bf",
        "a11704802000cba00bf",
        "a126ff802000",
        "a1377f802000",
    ],
];

/// What a balise shows: an aspect, or it is missed.
const SHOWN: [Option<usize>; 4] = [Some(0), Some(1), Some(2), None];

/// The message by what the first balise shows, and then by what the second one shows. `no`: none is promised.
const PROMISED: [[&str; 4]; 4] = [
    ["ok 44", "no", "no", "ok 44"],
    ["no", "ok 45", "no", "ok 45"],
    ["no", "no", "ok 46", "ok 46"],
    ["ok 44", "ok 45", "ok 46", "no"],
];

// What a train makes of a mixture that fits, and whether the mixture is covered.
fn result_of(alloc: Global, group: &Controlled, mixture: &Mixture) -> Result<(String, bool), Halt> {
    if !group.fits(mixture) {
        return Err(Halt::Other);
    }
    let is_covered = group.covers(mixture);
    let read = group.mixed(alloc, mixture)?;
    Ok((message(alloc, mixture.run, read.as_slice())?, is_covered))
}

// Whether the mixture gives what is promised. A digit of `number` to base 4 for each balise says what it shows.
fn is_as_promised(
    alloc: Global,
    group: &Controlled,
    run: Run,
    number: usize,
) -> Result<bool, Halt> {
    let (first, second) = (number % 4, number / 4 % 4);
    let (third, fourth) = (SHOWN[number / 16 % 4], SHOWN[number / 64 % 4]);
    let shown = [
        SHOWN[first],
        SHOWN[second],
        third,
        fourth,
        None,
        None,
        None,
        None,
    ];
    let (text, is_covered) = result_of(alloc, group, &Mixture { run, shown })?;
    let (has_first_pair, has_second_pair) = (number % 16 < 15, number / 16 < 15);
    let wanted = PROMISED[first][second];
    let is_promised = has_second_pair && wanted != "no";
    Ok(
        text.starts_with("ok") == is_promised
            && (!is_promised || text.as_str() == wanted)
            && is_covered == (has_first_pair && has_second_pair),
    )
}

#[test]
fn each_mixture_is_as_promised(rt: HostRuntime) -> Result<(), Fail> {
    let group = controlled(rt.alloc(), &ASPECTS)?;
    'mixtures: for number in 0..256 {
        assert!(rt;
            is_as_promised(rt.alloc(), &group, Nominal, number)?,
            "{number}"
        );
        assert!(rt;
            is_as_promised(rt.alloc(), &group, Reverse, number)?,
            "{number}"
        );
    }
    Ok(())
}
