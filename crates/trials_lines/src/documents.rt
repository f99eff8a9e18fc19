//! The text of findings that no line has.

use etcs_check::{Finding, Rule, Site};
use etcs_form::report_counts;
use etcs_packet::Run;
use std::test::Fail;

// A finding at a place, in an aspect and in nominal running if it has them.
fn finding(
    rule: Rule,
    site: Site,
    aspect: Option<usize>,
    dir: Option<Run>,
    balise: Option<usize>,
) -> Finding {
    Finding {
        rule,
        site,
        aspect,
        dir,
        balise,
        packet: None,
    }
}

#[test]
fn a_finding_that_no_line_has_is_told(rt: HostRuntime) -> Result<(), Fail> {
    let reverse = Some(Run::Reverse);
    let findings = [
        finding(Rule::IdentityUsed, Site::Group(0), None, None, None),
        finding(Rule::NoGradient, Site::Group(0), None, reverse, None),
        finding(Rule::NotToldApart, Site::Group(12), Some(10), None, Some(7)),
        finding(
            Rule::NoSpeed,
            Site::Message(10),
            None,
            Some(Run::Nominal),
            None,
        ),
    ];
    let wanted = "no: findings 4\n\
F14 group 0: identity used before\n\
F10 group 0 reverse: no gradient\n\
F16 group 12 aspect 10 balise 7: aspects not told apart\n\
F12 message 10 nominal: no speed profile\n";
    let text = report_counts(rt.alloc(), 1, 0, &findings)?;
    assert_eq!(rt; text.as_str(), wanted);
    Ok(())
}
