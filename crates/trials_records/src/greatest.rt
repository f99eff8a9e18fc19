//! How far the limits of a speed profile go, of which hardly a telegram has room for the greatest, and packets that
//! only code makes of their parts.

use crate::spelled::{read_one, times};
use etcs_bits::{Dir, Items, Layout, Scale};
use etcs_profile::BuildError::{TooLong, TooMany};
use etcs_profile::{BuildError, Difference, Gradient, Linking, SpeedElement, SpeedProfile};
use std::alloc::Global;
use std::test::Fail;

// An element of a speed profile with `count` differences.
fn element(alloc: Global, count: usize) -> Result<SpeedElement, Fail> {
    let difference: Difference = read_one(alloc, "00 0011 0010100")?;
    let mut element: SpeedElement = read_one(alloc, "000000000000101 0010100 1 00000")?;
    element.differences = Items::new(times(alloc, &difference, count)?);
    Ok(element)
}

// A speed profile whose first element has `first` differences; `count` elements with `each` follow.
fn speeds(
    alloc: Global,
    first: usize,
    count: usize,
    each: usize,
) -> Result<Result<SpeedProfile, BuildError>, Fail> {
    let mut further = Vec::new(alloc);
    for _ in 0..count {
        further.push(element(alloc, each)?)?;
    }
    let first = element(alloc, first)?;
    Ok(SpeedProfile::new(Dir::Nominal, Scale::Metre, first, further))
}

#[test]
fn a_speed_profile_has_8191_bits_and_lists_of_31_at_most(rt: HostRuntime) -> Result<(), Fail> {
    let longest = speeds(rt.alloc(), 31, 31, 17)??;
    assert_eq!(rt; longest.width(), 8180);
    for (first, count, each, why) in [
        (31, 31, 18, TooLong),
        (0, 32, 0, TooMany),
        (32, 0, 0, TooMany),
        (0, 1, 32, TooMany),
    ] {
        assert!(rt; speeds(rt.alloc(), first, count, each)?.err() == Some(why));
    }
    Ok(())
}

#[test]
fn packets_are_made_of_one_element(rt: HostRuntime) -> Result<(), Fail> {
    let alloc = rt.alloc();
    let link = read_one(
        alloc,
        "000000111110100 1 0110111100 00010011010010 1 10 001100",
    )?;
    let links = Linking::new(Dir::Both, Scale::Metre, link, Vec::new(alloc))?;
    let slope = read_one(alloc, "000000001100100 1 00000101")?;
    let gradient = Gradient::new(Dir::Both, Scale::Metre, slope, Vec::new(alloc))?;
    assert_eq!(rt; (links.width(), gradient.width()), (79, 54));
    Ok(())
}
