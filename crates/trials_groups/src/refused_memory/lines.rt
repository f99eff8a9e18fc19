//! Lines, groups and messages: what is found, and what a train reads, or memory ran out.

use super::{Answer, expect_answers};
use crate::shared::{FIRST, SECOND, WITH_GRADIENT, controlled, group};
use etcs_check::{Line, LineChecker, check};
use etcs_group::{Controlled, Missed, Mixture, assemble};
use etcs_packet::Run;
use etcs_radio::from_hex;
use std::alloc::Global;

/// A movement authority of 1,000 m for one train, at 1 s, whose message has no profile.
const MESSAGE: &str = "03048000001900080021e810901ff801f400";

// The second balise of a pair without the first one, twice, and the message: three findings about each group,
// one about the identity, and two about the message.
fn line(alloc: Global) -> Answer {
    let mut groups = Vec::new(alloc);
    'groups: for _ in 0..2 {
        groups.push(controlled(alloc, &[&[SECOND]])?)?;
    }
    let mut messages = Vec::new(alloc);
    messages.push(from_hex(alloc, MESSAGE.as_bytes())?)?;
    Ok(check(alloc, &Line { groups, messages })?.len() == 9)
}

// The same by a checker, which is passed a group and the message again after each refusal.
fn checker(alloc: Global) -> Answer {
    let group = controlled(alloc, &[&[SECOND]])?;
    let message = from_hex(alloc, MESSAGE.as_bytes())?;
    let mut checker = LineChecker::new(alloc);
    'groups: for _ in 0..2 {
        if checker.group(alloc, &group).is_err() {
            checker.group(alloc, &group)?;
        }
    }
    if checker.message(alloc, &message).is_err() {
        checker.message(alloc, &message)?;
    }
    Ok(checker.finish()?.len() == 9)
}

// What a train reads of a pair, and its packet.
fn reading(alloc: Global) -> Answer {
    let group = group(alloc, &[WITH_GRADIENT, SECOND])?;
    let read = group.reading(alloc, Run::Reverse, Missed(2))?;
    let packets = assemble(alloc, Run::Reverse, read.as_slice())?;
    Ok(read.len() == 1 && packets.len() == 1)
}

// Whether a train reads two telegrams of a mixture.
fn are_two(alloc: Global, group: &Controlled, mixture: &Mixture) -> Answer {
    if !group.fits(mixture) {
        return Ok(false);
    }
    Ok(group.mixed(alloc, mixture)?.len() == 2)
}

// What a train reads of a pair that is switched while it passes.
fn mixed(alloc: Global) -> Answer {
    let pair = controlled(alloc, &[&[FIRST, SECOND], &[FIRST, SECOND]])?;
    let shown = [Some(0), Some(1), None, None, None, None, None, None];
    let run = Run::Reverse;
    are_two(alloc, &pair, &Mixture { run, shown })
}

pub fn answers(alloc: Global) -> [Answer; 4] {
    [line(alloc), checker(alloc), reading(alloc), mixed(alloc)]
}

#[test]
fn lines_are_checked_and_read_or_memory_ran_out(rt: HostRuntime) {
    expect_answers(&rt, &answers(rt.alloc()));
}
