//! `report`: the findings of a line, as text, with their counts.

ghost use Rattle.std.specs.Prelude.{◌≡◌, ◌++◌, length, string_bytes, IfOk, OnOk};
ghost use Rattle.etcs_document.specs.ReportText.{direction_words, finding_words, findings_words, part_words, place_words, report_words, rule_words, site_words};

use etcs_bits::Memory;
use etcs_check::{Finding, Line, Rule, Site};
use etcs_packet::Run;
use std::alloc::{AllocError, Global};

// The number of a rule, and the name of its findings.
#[tactic(auto, unfolding(crate::specs::ReportText::rule_words))]
fn words_of(rule: Rule) -> (&'static str, &'static str)
    ensures { (result.0.now, result.1.now) ≡ rule_words rule }
{
    match rule {
        Rule::PositionWrong => ("F1", "position wrong"),
        Rule::TotalWrong => ("F2", "total wrong"),
        Rule::HeaderDiffers => ("F3", "version, identity or link flag differs"),
        Rule::MarkOutside => ("F4", "mark points outside"),
        Rule::MarkUnanswered => ("F5", "mark not answered"),
        Rule::CounterUnfit => ("F6", "counter 254"),
        Rule::CountersDiffer => ("F7", "counters differ"),
        Rule::DuplicatesDiffer => ("F8", "packets of duplicates differ"),
        Rule::NotModelled => ("F9", "packet not modelled"),
        Rule::NoGradient => ("F10", "no gradient"),
        Rule::GradientShort => ("F11", "gradient short"),
        Rule::NoSpeed => ("F12", "no speed profile"),
        Rule::SpeedShort => ("F13", "speed profile short"),
        Rule::IdentityUsed => ("F14", "identity used before"),
        Rule::MarksDiffer => ("F15", "marks differ between aspects"),
        Rule::NotToldApart => ("F16", "aspects not told apart"),
    }
}

// The group or the message.
#[tactic(auto, unfolding(crate::specs::ReportText::site_words))]
fn site_text(alloc: Global, site: Site) -> Result<String, AllocError>
    ensures { IfOk result (λ s. string_bytes s ≡ site_words site) }
{
    match site {
        Site::Group(place) => format!(in alloc; " group {place}"),
        Site::Message(place) => format!(in alloc; " message {place}"),
    }
}

// The aspect, the balise or the packet, if there is one: its word, and its number.
#[tactic(auto, unfolding(crate::specs::ReportText::part_words))]
fn part_text(alloc: Global, word: &str, part: Option<usize>) -> Result<String, AllocError>
    ensures { IfOk result (λ s. string_bytes s ≡ part_words word.now part) }
{
    match part {
        None => format!(in alloc; ""),
        Some(number) => format!(in alloc; " {word} {number}"),
    }
}

// The running direction, if there is one.
#[tactic(auto, unfolding(crate::specs::ReportText::direction_words))]
fn direction_text(dir: Option<Run>) -> &'static str
    ensures { result.now ≡ direction_words dir }
{
    match dir {
        None => "",
        Some(Run::Nominal) => " nominal",
        Some(Run::Reverse) => " reverse",
    }
}

// The location of a finding in the line, and the running direction.
#[tactic(auto, unfolding(crate::specs::ReportText::place_words))]
fn place_text(alloc: Global, finding: &Finding) -> Result<String, AllocError>
    ensures { IfOk result (λ s. string_bytes s ≡ place_words finding.now) }
{
    let site = site_text(alloc, finding.site)?;
    let aspect = part_text(alloc, "aspect", finding.aspect)?;
    let balise = part_text(alloc, "balise", finding.balise)?;
    let packet = part_text(alloc, "packet", finding.packet)?;
    let direction = direction_text(finding.dir);
    format!(in alloc; "{site}{aspect}{balise}{packet}{direction}")
}

// Appends the line for a finding.
#[tactic(auto, unfolding(crate::specs::ReportText::finding_words))]
fn push_finding(alloc: Global, text: &mut String, finding: &Finding) -> Result<(), AllocError>
    ensures { OnOk result (string_bytes text.new
        ≡ string_bytes text.old ++ finding_words finding.now) }
{
    let (number, name) = words_of(finding.rule);
    let place = place_text(alloc, finding)?;
    let line = format!(in alloc; "{number}{place}: {name}\n")?;
    text.push_str(line.as_str())
}

// The lines for findings, one after the other.
fn findings_text(alloc: Global, findings: &[Finding]) -> Result<String, AllocError>
    ensures { IfOk result (λ s. string_bytes s ≡ findings_words findings.now) }
{
    let mut text = String::new(alloc);
    'findings: for finding in findings {
        push_finding(alloc, &mut text, finding)?;
    }
    Ok(text)
}

/// The text of a report. `groups` and `messages` are the counts of the railway line, `findings` is the result
/// of `check`. The text is `yes` and the two counts, or `no`, the count of findings, and then a line for each
/// finding. Each line ends with `\n`. Fails only if memory runs out; then no text is returned.
#[tactic(auto, unfolding(crate::specs::ReportText::report_words))]
pub fn report_counts(
    alloc: Global,
    groups: usize,
    messages: usize,
    findings: &[Finding],
) -> Result<String, Memory>
    ensures { IfOk result (λ s. string_bytes s ≡ report_words groups messages findings.now) }
{
    if findings.is_empty() {
        return Ok(format!(in alloc; "yes: groups {groups}, messages {messages}\n")?);
    }
    let count = findings.len();
    let lines = findings_text(alloc, findings)?;
    Ok(format!(in alloc; "no: findings {count}\n{lines}")?)
}

/// The report on a line: [`report_counts`] with the counts of its groups and messages. Fails only if memory
/// runs out; then no text is returned.
pub fn report(alloc: Global, line: &Line, findings: &[Finding]) -> Result<String, Memory>
    ensures { IfOk result (λ s. string_bytes s
        ≡ report_words (length line.now.groups.items) (length line.now.messages.items) findings.now) }
{
    report_counts(alloc, line.groups.len(), line.messages.len(), findings)
}
