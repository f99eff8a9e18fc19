//! Movement authorities, packets 12 and 15, and their parts.

use super::{FromCanonical, Scanner, parse_record};
use etcs_profile::{Authority, DangerPoint, EndTimer, Overlap, Section, SectionTimer};

impl FromCanonical for SectionTimer {
    fn parse(line: &mut Scanner<'_>) -> Option<SectionTimer> {
        parse_record!(SectionTimer, line; stop "d_sectiontimerstoploc", time "t_sectiontimer")
    }
}

impl FromCanonical for Section {
    fn parse(line: &mut Scanner<'_>) -> Option<Section> {
        parse_record!(Section, line; length "l_section", timer "section_timer")
    }
}

impl FromCanonical for EndTimer {
    fn parse(line: &mut Scanner<'_>) -> Option<EndTimer> {
        parse_record!(EndTimer, line; start "d_endtimerstartloc", time "t_endtimer")
    }
}

impl FromCanonical for DangerPoint {
    fn parse(line: &mut Scanner<'_>) -> Option<DangerPoint> {
        parse_record!(DangerPoint, line; distance "d_dp", release_speed "v_releasedp")
    }
}

impl FromCanonical for Overlap {
    fn parse(line: &mut Scanner<'_>) -> Option<Overlap> {
        parse_record!(Overlap, line; length "d_ol", start "d_startol", time "t_ol", release_speed "v_releaseol")
    }
}

impl FromCanonical for Authority {
    fn parse(line: &mut Scanner<'_>) -> Option<Authority> {
        let danger_point = line.member("danger_point")?;
        let end_speed = line.member("end_speed")?;
        let end_timeout = line.member("end_timeout")?;
        let end_timer = line.member("end_timer")?;
        let l_endsection = line.member("l_endsection")?;
        let _number: u32 = line.member("nid_packet")?;
        let overlap = line.member("overlap")?;
        let dir = line.member("q_dir")?;
        let scale = line.member("q_scale")?;
        let section_timer = line.member("section_timer")?;
        let sections = line.member("sections")?;
        let main = line.member("v_main")?;
        line.mark()?;
        let built = Authority::new(
            dir,
            scale,
            main,
            end_speed,
            end_timeout,
            sections,
            l_endsection,
            section_timer,
            end_timer,
            danger_point,
            overlap,
        );
        built.ok()
    }
}
