//! `report`: the verdict on a table as text, with the rows of each finding.

ghost use Rattle.std.specs.Prelude.{◌≡◌, ◌++◌, flat_map, string_bytes, IfOk, OnOk};
ghost use Rattle.etcs_document.specs.ReportText.{direction_words, part_words, rule_words};
ghost use Rattle.etcs_table_check.specs.ReportText.{finding_words, findings_words, place_words, report_words, row_words, rows_words, verdict_words};

use crate::finding_rows::RowFinding;
use crate::verdict::TableVerdict;
use etcs_bits::Memory;
use etcs_check::Rule;
use etcs_profile::Run;
use std::alloc::{AllocError, Global};

// The number of a rule, and the name of its findings.
#[tactic(auto, unfolding(etcs_document::specs::ReportText::rule_words))]
fn words_of(rule: Rule) -> (&'static str, &'static str)
    ensures { (result.0.now, result.1.now) ≡ rule_words rule }
{
    match rule {
        Rule::PositionWrong => ("F1", "position wrong"),
        Rule::TotalWrong => ("F2", "total wrong"),
        Rule::HeaderDiffers => ("F3", "version, identity or link flag differs"),
        Rule::MarkOutside => ("F4", "mark points outside"),
        Rule::MarkUnanswered => ("F5", "mark not answered"),
        Rule::CounterUnfit => ("F6", "counter 254"),
        Rule::CountersDiffer => ("F7", "counters differ"),
        Rule::DuplicatesDiffer => ("F8", "packets of duplicates differ"),
        Rule::NotModelled => ("F9", "packet not modelled"),
        Rule::NoGradient => ("F10", "no gradient"),
        Rule::GradientShort => ("F11", "gradient short"),
        Rule::NoSpeed => ("F12", "no speed profile"),
        Rule::SpeedShort => ("F13", "speed profile short"),
        Rule::IdentityUsed => ("F14", "identity used before"),
        Rule::MarksDiffer => ("F15", "marks differ between aspects"),
        Rule::NotToldApart => ("F16", "aspects not told apart"),
    }
}

// The aspect or the packet, if there is one: its word, and its number.
#[tactic(auto, unfolding(etcs_document::specs::ReportText::part_words))]
fn part_text(alloc: Global, word: &str, part: Option<usize>) -> Result<String, AllocError>
    ensures { IfOk result (λ s. string_bytes s ≡ part_words word.now part) }
{
    match part {
        None => format!(in alloc; ""),
        Some(number) => format!(in alloc; " {word} {number}"),
    }
}

// The running direction, if there is one.
#[tactic(auto, unfolding(etcs_document::specs::ReportText::direction_words))]
fn direction_text(dir: Option<Run>) -> &'static str
    ensures { result.now ≡ direction_words dir }
{
    match dir {
        None => "",
        Some(Run::Nominal) => " nominal",
        Some(Run::Reverse) => " reverse",
    }
}

// Appends a row.
fn push_row(alloc: Global, text: &mut String, row: usize) -> Result<(), AllocError>
    ensures { OnOk result (string_bytes text.new ≡ string_bytes text.old ++ row_words row) }
{
    let more = format!(in alloc; ", {row}")?;
    text.push_str(more.as_str())
}

// Rows, each with a comma before it.
fn more_rows_text(alloc: Global, rows: &[usize]) -> Result<String, AllocError>
    ensures { IfOk result (λ s. string_bytes s ≡ flat_map row_words rows.now) }
{
    let mut text = String::new(alloc);
    'rows: for row in rows {
        push_row(alloc, &mut text, *row)?;
    }
    Ok(text)
}

// One row, or several.
fn rows_text(alloc: Global, rows: &[usize]) -> Result<String, AllocError>
    ensures { IfOk result (λ s. string_bytes s ≡ rows_words rows.now) }
{
    match rows {
        [] => format!(in alloc; ""),
        [row] => format!(in alloc; " row {row}"),
        [row, others @ ..] => {
            let more = more_rows_text(alloc, others)?;
            format!(in alloc; " rows {row}{more}")
        }
    }
}

// The rows of a finding, its aspect, its packet and its running direction.
#[tactic(auto, unfolding(crate::specs::ReportText::place_words))]
fn place_text(alloc: Global, found: &RowFinding) -> Result<String, AllocError>
    ensures { IfOk result (λ s. string_bytes s ≡ place_words found.now) }
{
    let finding = found.finding();
    let rows = rows_text(alloc, found.rows())?;
    let aspect = part_text(alloc, "aspect", finding.aspect)?;
    let packet = part_text(alloc, "packet", finding.packet)?;
    let direction = direction_text(finding.dir);
    format!(in alloc; "{rows}{aspect}{packet}{direction}")
}

// Appends the line for a finding.
#[tactic(auto, unfolding(crate::specs::ReportText::finding_words))]
fn push_finding(alloc: Global, text: &mut String, found: &RowFinding) -> Result<(), AllocError>
    ensures { OnOk result (string_bytes text.new ≡ string_bytes text.old ++ finding_words found.now) }
{
    let (number, name) = words_of(found.finding().rule);
    let place = place_text(alloc, found)?;
    let line = format!(in alloc; "{number}{place}: {name}\n")?;
    text.push_str(line.as_str())
}

// The lines for findings, one after the other.
fn findings_text(alloc: Global, findings: &[RowFinding]) -> Result<String, AllocError>
    ensures { IfOk result (λ s. string_bytes s ≡ findings_words findings.now) }
{
    let mut text = String::new(alloc);
    'findings: for finding in findings {
        push_finding(alloc, &mut text, finding)?;
    }
    Ok(text)
}

// The text of a report on a table with these counts of groups and telegrams.
#[tactic(auto, unfolding(crate::specs::ReportText::report_words))]
fn report_counts(
    alloc: Global,
    groups: usize,
    telegrams: usize,
    findings: &[RowFinding],
) -> Result<String, AllocError>
    ensures { IfOk result (λ s. string_bytes s ≡ report_words groups telegrams findings.now) }
{
    if findings.is_empty() {
        return format!(in alloc; "yes: groups {groups}, telegrams {telegrams}\n");
    }
    let count = findings.len();
    let lines = findings_text(alloc, findings)?;
    format!(in alloc; "no: findings {count}\n{lines}")
}

/// The report on a table: `yes`, with the counts of its groups and telegrams, or `no`, with the count of findings, and
/// then a line for each finding, with its rows. Each line ends with `\n`. Fails only if memory runs out.
pub fn report(alloc: Global, verdict: &TableVerdict) -> Result<String, Memory>
    ensures { IfOk result (λ s. string_bytes s ≡ verdict_words verdict.now) }
{
    let text = report_counts(
        alloc,
        verdict.groups(),
        verdict.telegrams(),
        verdict.findings(),
    )?;
    Ok(text)
}
