//! Packets from track to train, and their elements.

use super::{FromCanonical, Scanner, parse_record};
use etcs_bits::{Items, Layout, Level, Plain};
use etcs_packet::{CoverMarker, TrackPacket};
use etcs_profile::{
    Difference, Elements, GradientElement, LevelOrder, Link, Packet, SpeedElement, Transition,
};

impl FromCanonical for Link {
    fn parse(line: &mut Scanner<'_>) -> Option<Link> {
        parse_record!(Link, line; distance "d_link", group "nid_bg", country "nid_c", nominal "q_linkorientation",
            reaction "q_linkreaction", accuracy "q_locacc")
    }
}

impl FromCanonical for GradientElement {
    fn parse(line: &mut Scanner<'_>) -> Option<GradientElement> {
        parse_record!(GradientElement, line; distance "d_gradient", gradient "g_a", uphill "q_gdir")
    }
}

impl FromCanonical for Difference {
    fn parse(line: &mut Scanner<'_>) -> Option<Difference> {
        parse_record!(Difference, line; category "nc", kind "q_diff", speed "v_diff")
    }
}

impl FromCanonical for Items<Difference> {
    fn parse(line: &mut Scanner<'_>) -> Option<Items<Difference>> {
        Some(Items::new(Vec::parse(line)?))
    }
}

impl FromCanonical for SpeedElement {
    fn parse(line: &mut Scanner<'_>) -> Option<SpeedElement> {
        parse_record!(SpeedElement, line; distance "d_static", differences "differences", front "q_front",
            speed "v_static")
    }
}

// Parses a packet of elements. `name` is the key of their list.
fn profile<const N: u32, T: FromCanonical + Layout>(
    line: &mut Scanner<'_>,
    name: &str,
) -> Option<Packet<N, Elements<T>>> {
    let (first, further) = line.non_empty(name)?;
    let _number: u32 = line.member("nid_packet")?;
    let dir = line.member("q_dir")?;
    let scale = line.member("q_scale")?;
    line.mark()?;
    Packet::of(dir, Elements::new(scale, first, further).ok()?)
}

/// The level of this number, with the national system of level NTC.
pub(super) fn level_of(number: u32, ntc: Option<Plain<8>>) -> Option<Level> {
    match (number, ntc) {
        (0, None) => Some(Level::L0),
        (1, Some(ntc)) => Some(Level::Ntc(ntc.number() as u8)),
        (2, None) => Some(Level::L1),
        (3, None) => Some(Level::L2),
        (4, None) => Some(Level::L3),
        _ => None,
    }
}

impl FromCanonical for LevelOrder {
    fn parse(line: &mut Scanner<'_>) -> Option<LevelOrder> {
        let acknowledge = line.member("l_ackleveltr")?;
        let number = line.member("m_leveltr")?;
        let level = level_of(number, line.member("nid_ntc")?)?;
        line.mark()?;
        Some(LevelOrder { level, acknowledge })
    }
}

impl FromCanonical for Transition {
    fn parse(line: &mut Scanner<'_>) -> Option<Transition> {
        let d_leveltr = line.member("d_leveltr")?;
        let _number: u32 = line.member("nid_packet")?;
        let dir = line.member("q_dir")?;
        let scale = line.member("q_scale")?;
        let (first, further) = line.non_empty("transitions")?;
        line.mark()?;
        Transition::new(dir, scale, d_leveltr, first, further).ok()
    }
}

impl FromCanonical for CoverMarker {
    fn parse(line: &mut Scanner<'_>) -> Option<CoverMarker> {
        let _number: u32 = line.member("nid_packet")?;
        parse_record!(CoverMarker, line; marker "nid_vbcmk")
    }
}

// The first key says which packet it is, and that of the first element tells gradients from speeds.
impl FromCanonical for TrackPacket {
    fn parse(line: &mut Scanner<'_>) -> Option<TrackPacket> {
        match line.rest {
            [_, _, b'b', ..] => Some(TrackPacket::Raw(FromCanonical::parse(line)?)),
            [_, _, b'd', b'_', ..] => Some(TrackPacket::Transition(FromCanonical::parse(line)?)),
            [_, _, b'e', b'l', ..] => {
                // Byte 17 follows `{"elements":[{"d_`.
                if line.rest.get(17) == Some(&b'g') {
                    Some(TrackPacket::Gradient(profile(line, "elements")?))
                } else {
                    Some(TrackPacket::Speed(profile(line, "elements")?))
                }
            }
            [_, _, b'l', ..] => Some(TrackPacket::Linking(profile(line, "links")?)),
            [_, _, b'n', ..] => Some(TrackPacket::Cover(FromCanonical::parse(line)?)),
            _ => Some(TrackPacket::Authority(FromCanonical::parse(line)?)),
        }
    }
}
