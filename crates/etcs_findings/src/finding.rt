//! `put_summary`: the verdict on a railway line with its findings, as a JSON object.

ghost use Rattle.std.specs.Prelude.{◌≡◌, OnOk};
ghost use Rattle.json.specs.Tree.{json_tokens};
ghost use Rattle.etcs_digits.specs.JsonLineWriter.{puts};
ghost use Rattle.etcs_document.specs.ReportText.{rule_words};
ghost use Rattle.etcs_findings.specs.Findings.{finding_json, findings_json, summary_json, verdict_word, with_direction, with_place, with_rule, with_site};
ghost use Rattle.etcs_findings.specs.Writing.{AddsMembers};

use crate::members::{put_number, put_option, put_text};
use etcs_check::{Finding, Rule, Site};
use etcs_digits::JsonLineWriter;
use etcs_packet::Run;
use json::Token;
use std::alloc::AllocError;

// The number of a rule, and the name of its findings.
#[tactic(auto, unfolding(etcs_document::specs::ReportText::rule_words))]
fn words_of(rule: Rule) -> (&'static str, &'static str)
    ensures { (result.0.now, result.1.now) ≡ rule_words rule }
{
    match rule {
        Rule::PositionWrong => ("F1", "position wrong"),
        Rule::TotalWrong => ("F2", "total wrong"),
        Rule::HeaderDiffers => ("F3", "version, identity or link flag differs"),
        Rule::MarkOutside => ("F4", "mark points outside"),
        Rule::MarkUnanswered => ("F5", "mark not answered"),
        Rule::CounterUnfit => ("F6", "counter 254"),
        Rule::CountersDiffer => ("F7", "counters differ"),
        Rule::DuplicatesDiffer => ("F8", "packets of duplicates differ"),
        Rule::NotModelled => ("F9", "packet not modelled"),
        Rule::NoGradient => ("F10", "no gradient"),
        Rule::GradientShort => ("F11", "gradient short"),
        Rule::NoSpeed => ("F12", "no speed profile"),
        Rule::SpeedShort => ("F13", "speed profile short"),
        Rule::IdentityUsed => ("F14", "identity used before"),
        Rule::MarksDiffer => ("F15", "marks differ between aspects"),
        Rule::NotToldApart => ("F16", "aspects not told apart"),
    }
}

// Appends the rule of a finding.
fn put_rule(out: &mut JsonLineWriter, rule: Rule) -> Result<(), AllocError>
    ensures { OnOk result (AddsMembers (with_rule rule) out.old out.new) }
{
    let (number, name) = words_of(rule);
    put_text(out, "rule", number)?;
    put_text(out, "name", name)
}

// Appends the group or the message of a finding.
fn put_site(out: &mut JsonLineWriter, site: Site) -> Result<(), AllocError>
    ensures { OnOk result (AddsMembers (with_site site) out.old out.new) }
{
    match site {
        Site::Group(group) => put_number(out, "group", group),
        Site::Message(message) => put_number(out, "message", message),
    }
}

// Appends the running direction of a finding, if it has one.
fn put_direction(out: &mut JsonLineWriter, dir: Option<Run>) -> Result<(), AllocError>
    ensures { OnOk result (AddsMembers (with_direction dir) out.old out.new) }
{
    match dir {
        None => Ok(()),
        Some(Run::Nominal) => put_text(out, "direction", "nominal"),
        Some(Run::Reverse) => put_text(out, "direction", "reverse"),
    }
}

// Appends the location of a finding in the line, and the running direction.
fn put_place(out: &mut JsonLineWriter, finding: &Finding) -> Result<(), AllocError>
    ensures { OnOk result (AddsMembers (with_place finding.now) out.old out.new) }
{
    put_site(out, finding.site)?;
    put_option(out, "aspect", finding.aspect)?;
    put_option(out, "balise", finding.balise)?;
    put_option(out, "packet", finding.packet)?;
    put_direction(out, finding.dir)
}

// Appends a finding.
fn put_finding(out: &mut JsonLineWriter, finding: &Finding) -> Result<(), AllocError>
    ensures { OnOk result (out.new ≡ puts out.old (json_tokens (finding_json finding.now))) }
{
    out.token(Token::BeginObject)?;
    put_rule(out, finding.rule)?;
    put_place(out, finding)?;
    out.token(Token::EndObject)
}

// Appends the list of the findings.
fn put_findings(out: &mut JsonLineWriter, findings: &[Finding]) -> Result<(), AllocError>
    ensures { OnOk result (out.new ≡ puts out.old (json_tokens (findings_json findings.now))) }
{
    out.token(Token::BeginArray)?;
    'findings: for finding in findings {
        put_finding(out, finding)?;
    }
    out.token(Token::EndArray)
}

// The word for a verdict.
fn word_of(findings: &[Finding]) -> &'static str
    ensures { result.now ≡ verdict_word findings.now }
{
    if findings.is_empty() { "yes" } else { "no" }
}

/// Appends the verdict on a line with these counts of groups and messages and these findings. Fails only if memory
/// runs out; part of it might then be appended.
pub(crate) fn put_summary(
    out: &mut JsonLineWriter,
    groups: usize,
    messages: usize,
    findings: &[Finding],
) -> Result<(), AllocError>
    ensures { OnOk result (out.new ≡ puts out.old (json_tokens (summary_json ((groups, messages), findings.now)))) }
{
    out.token(Token::BeginObject)?;
    put_text(out, "verdict", word_of(findings))?;
    put_number(out, "groups", groups)?;
    put_number(out, "messages", messages)?;
    out.token(Token::Key("findings"))?;
    put_findings(out, findings)?;
    out.token(Token::EndObject)
}
