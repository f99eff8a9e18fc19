//! All readings of a sound group, in both directions and with each set of balises missed.

use crate::halt::Halt;
use crate::shared::{group, message};
use etcs_group::{Group, Missed, is_covered};
use etcs_packet::Run;
use etcs_packet::Run::{Nominal, Reverse};
use std::alloc::Global;
use std::test::Fail;

/// Four pairs. Both balises of each have the same packet, for both directions: 44, 45, 46 or 47.
const PAIRS: [&str; 8] = [
    "a10eff802000cb200bf",
    "a11f7f802000cb200bf",
    "a12eff802000cb600bf",
    "a13f7f802000cb600bf",
    "a14eff802000cba00bf",
    "a15f7f802000cba00bf",
    "a16eff802000cbe00bf",
    "a17f7f802000cbe00bf",
];

/// The two balises of each pair as a set, and why a train that misses both makes no message.
const BOTH: [(u8, &str); 4] = [
    (0x03, "position 0 absent"),
    (0x0c, "position 2 absent"),
    (0x30, "position 4 absent"),
    (0xc0, "position 6 absent"),
];

// What a train makes of the group with these balises missed. `whole` is the message with nothing missed.
fn promised(missed: u8, whole: &'static str) -> &'static str {
    if missed == 255 {
        return "nothing read";
    }
    'pairs: for (both, reason) in BOTH {
        if missed & both == both {
            return reason;
        }
    }
    whole
}

// Whether each reading in this direction is as promised, and covered if it gives the whole message.
fn are_as_promised(
    alloc: Global,
    group: &Group,
    run: Run,
    whole: &'static str,
) -> Result<bool, Halt> {
    'sets: for missed in 0..=255u8 {
        let read = group.reading(alloc, run, Missed(missed))?;
        let text = message(alloc, run, read.as_slice())?;
        let wanted = promised(missed, whole);
        let is_whole = wanted == whole;
        if text.as_str() != wanted || is_covered(group, Missed(missed)) != is_whole {
            return Ok(false);
        }
    }
    Ok(true)
}

#[test]
fn a_sound_group_is_read_whatever_duplicate_is_missed(rt: HostRuntime) -> Result<(), Fail> {
    let group = group(rt.alloc(), &PAIRS)?;
    assert!(rt; are_as_promised(rt.alloc(), &group, Nominal, "ok 44 45 46 47")?);
    assert!(rt; are_as_promised(rt.alloc(), &group, Reverse, "ok 47 46 45 44")?);
    Ok(())
}
