//! Packets from train to track.

use super::track::level_of;
use super::{FromCanonical, Scanner};
use etcs_bits::{Distance, Identity};
use etcs_radio::{Integrity, Report, TrainPacket};

// Q_LENGTH with the length that is confirmed.
fn integrity_of(number: u32, length: Option<Distance>) -> Option<Integrity> {
    match (number, length) {
        (0, None) => Some(Integrity::Q0),
        (1, Some(length)) => Some(Integrity::Q1(length)),
        (2, Some(length)) => Some(Integrity::Q2(length)),
        (3, None) => Some(Integrity::Q3),
        _ => None,
    }
}

// Parses the identity of the previous group, which packet 1 has.
fn previous_of(line: &mut Scanner<'_>) -> Option<Option<Identity>> {
    let group = line.member("prv_nid_bg")?;
    match group {
        Some(group) => {
            let country = line.member("prv_nid_c")?;
            Some(Some(Identity { country, group }))
        }
        None => Some(None),
    }
}

impl FromCanonical for Report {
    fn parse(line: &mut Scanner<'_>) -> Option<Report> {
        let distance = line.member("d_lrbg")?;
        let doubt_over = line.member("l_doubtover")?;
        let doubt_under = line.member("l_doubtunder")?;
        let confirmed = line.member("l_trainint")?;
        let level = line.member("m_level")?;
        let mode = line.member("m_mode")?;
        let group = line.member("nid_bg")?;
        let country = line.member("nid_c")?;
        let ntc = line.member("nid_ntc")?;
        let _number: u32 = line.member("nid_packet")?;
        let previous = previous_of(line)?;
        let orientation = line.member("q_dirlrbg")?;
        let running = line.member("q_dirtrain")?;
        let side = line.member("q_dlrbg")?;
        let length = line.member("q_length")?;
        let scale = line.member("q_scale")?;
        let speed = line.member("v_train")?;
        line.mark()?;
        Some(Report {
            scale,
            lrbg: Identity { country, group },
            previous,
            distance,
            orientation,
            side,
            doubt_over,
            doubt_under,
            length: integrity_of(length, confirmed)?,
            speed,
            running,
            mode,
            level: level_of(level, ntc)?,
        })
    }
}

// The first key says which packet it is.
impl FromCanonical for TrainPacket {
    fn parse(line: &mut Scanner<'_>) -> Option<TrainPacket> {
        match line.rest {
            [_, _, b'b', ..] => Some(TrainPacket::Raw(FromCanonical::parse(line)?)),
            _ => Some(TrainPacket::Report(FromCanonical::parse(line)?)),
        }
    }
}
