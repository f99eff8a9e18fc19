//! Numbers of JSON: flags, and the variables of SUBSET-026, 7.5.

use super::{FromCanonical, Scanner};
use etcs_bits::{Dir, Dup, Plain, Ranged, Scale, Version};
use etcs_radio::Train3;
use etcs_telegram::Size;

impl FromCanonical for u32 {
    #[inline(always)]
    fn parse(line: &mut Scanner<'_>) -> Option<u32> {
        line.number()
    }
}

impl FromCanonical for bool {
    #[inline(always)]
    fn parse(line: &mut Scanner<'_>) -> Option<bool> {
        Some(line.number()? == 1)
    }
}

impl FromCanonical for Size {
    #[inline(always)]
    fn parse(line: &mut Scanner<'_>) -> Option<Size> {
        Some(if line.number()? == 210 {
            Size::Short
        } else {
            Size::Long
        })
    }
}

impl<const W: u32> FromCanonical for Plain<W> {
    #[inline(always)]
    fn parse(line: &mut Scanner<'_>) -> Option<Plain<W>> {
        Plain::new(line.number()?)
    }
}

impl<const W: u32, const LAST: u32, const FROM: u32> FromCanonical for Ranged<W, LAST, FROM> {
    #[inline(always)]
    fn parse(line: &mut Scanner<'_>) -> Option<Ranged<W, LAST, FROM>> {
        Ranged::new(line.number()?)
    }
}

impl FromCanonical for Dir {
    #[inline(always)]
    fn parse(line: &mut Scanner<'_>) -> Option<Dir> {
        Dir::new(line.number()?)
    }
}

impl FromCanonical for Dup {
    #[inline(always)]
    fn parse(line: &mut Scanner<'_>) -> Option<Dup> {
        Dup::new(line.number()?)
    }
}

impl FromCanonical for Scale {
    #[inline(always)]
    fn parse(line: &mut Scanner<'_>) -> Option<Scale> {
        Scale::new(line.number()?)
    }
}

impl FromCanonical for Train3 {
    #[inline(always)]
    fn parse(line: &mut Scanner<'_>) -> Option<Train3> {
        Train3::new(line.number()?)
    }
}

impl FromCanonical for Version {
    #[inline(always)]
    fn parse(line: &mut Scanner<'_>) -> Option<Version> {
        Version::new(line.number()?)
    }
}
