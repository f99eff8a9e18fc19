//! The rows of findings.

ghost use Rattle.std.specs.Prelude.{◌≡◌, ◌==◌, [], IfOk, OnOk};
ghost use Rattle.std.specs.List.{list_any};
ghost use Rattle.etcs_table.specs.Pointed.{pointed, pointed_lists};
ghost use Rattle.etcs_table_check.specs.FindingRows.{all_with_rows, as_list, aspect_rows, balise_rows, earlier, earlier_in, first_row, group_rows, rows_in, rows_of, with_balise, with_new, with_rows};

use etcs_check::{Finding, Site};
use etcs_table::{BaliseGroup, TelegramRow};
use std::alloc::{AllocError, Global};
use std::marker::Model;

/// A fact against the line of a table, with its rows.
#[derive(Debug, Drop)]
pub struct RowFinding {
    finding: Finding,
    rows: Vec<usize>,
}

impl Model for RowFinding {
    ghost use Rattle.etcs_table_check.specs.FindingRows.{RowFinding};

    ghost Value = { RowFinding };

    ghost view = { λ f. record { finding = f.finding; rows = f.rows.items } };
}

impl RowFinding {
    /// The fact. Its group is counted in the order of the first rows, and its aspect in that of the first rows of the
    /// group.
    pub fn finding(&self) -> &Finding
        ensures { result.now ≡ self.now.finding }
    {
        &self.finding
    }

    /// The rows of its balise, or the first row of its group.
    pub fn rows(&self) -> &[usize]
        ensures { result.now ≡ self.now.rows }
    {
        self.rows.as_slice()
    }
}

// Whether a row is among these.
fn has_row(rows: &[usize], row: usize) -> bool
    ensures { result ≡ list_any (λ other. other == row) rows.now }
{
    rows.iter().any(|other| *other == row)
}

// Appends a row, if it is new.
fn push_new(rows: &mut Vec<usize>, row: usize) -> Result<(), AllocError>
    ensures { OnOk result (rows.new.items ≡ with_new rows.old.items row) }
{
    if has_row(rows, row) {
        Ok(())
    } else {
        rows.push(row)?;
        Ok(())
    }
}

// Appends the row of the balise at this place of an aspect.
fn push_balise(
    rows: &mut Vec<usize>,
    place: usize,
    balises: &[&TelegramRow<'_>],
) -> Result<(), AllocError>
    ensures { OnOk result (rows.new.items ≡ with_balise place rows.old.items (pointed balises.now)) }
{
    match balises.get(place) {
        Some(row) => push_new(rows, row.row()),
        None => Ok(()),
    }
}

// The rows of the balise at this place.
fn balise_rows(
    alloc: Global,
    place: usize,
    aspects: &[Vec<&TelegramRow<'_>>],
) -> Result<Vec<usize>, AllocError>
    ensures { IfOk result (λ rows. rows.items ≡ balise_rows place (pointed_lists aspects.now)) }
{
    let mut rows = Vec::new(alloc);
    'aspects: for balises in aspects {
        push_balise(&mut rows, place, balises)?;
    }
    Ok(rows)
}

// The less of two rows.
fn earlier(row: Option<usize>, e: &TelegramRow<'_>) -> Option<usize>
    ensures { result ≡ earlier row e.now }
{
    match row {
        None => Some(e.row()),
        Some(row) => Some(row.min(e.row())),
    }
}

// The least of a row and those of an aspect.
fn earlier_in(row: Option<usize>, balises: &[&TelegramRow<'_>]) -> Option<usize>
    ensures { result ≡ earlier_in row (pointed balises.now) }
{
    let mut least = row;
    'balises: for e in balises {
        least = earlier(least, e);
    }
    least
}

// The least row of aspects.
fn first_row(aspects: &[Vec<&TelegramRow<'_>>]) -> Option<usize>
    ensures { result ≡ first_row (pointed_lists aspects.now) }
{
    let mut least = None;
    'aspects: for balises in aspects {
        least = earlier_in(least, balises);
    }
    least
}

fn as_list(alloc: Global, row: Option<usize>) -> Result<Vec<usize>, AllocError>
    ensures { IfOk result (λ rows. rows.items ≡ as_list row) }
{
    let mut rows = Vec::new(alloc);
    match row {
        Some(row) => {
            rows.push(row)?;
            Ok(rows)
        }
        None => Ok(rows),
    }
}

// The rows of a balise in all aspects, or the first row of the aspects.
fn group_rows(
    alloc: Global,
    aspects: &[Vec<&TelegramRow<'_>>],
    balise: Option<usize>,
) -> Result<Vec<usize>, AllocError>
    ensures { IfOk result (λ rows. rows.items ≡ group_rows balise (pointed_lists aspects.now)) }
{
    match balise {
        Some(place) => balise_rows(alloc, place, aspects),
        None => as_list(alloc, first_row(aspects)),
    }
}

// The row of a balise in an aspect, or the first row of the aspect.
fn aspect_rows(
    alloc: Global,
    balises: &[&TelegramRow<'_>],
    balise: Option<usize>,
) -> Result<Vec<usize>, AllocError>
    ensures { IfOk result (λ rows. rows.items ≡ aspect_rows balise (pointed balises.now)) }
{
    match balise {
        Some(place) => {
            let mut named = Vec::new(alloc);
            push_balise(&mut named, place, balises)?;
            Ok(named)
        }
        None => as_list(alloc, earlier_in(None, balises)),
    }
}

// The rows in a group with these aspects, or in one of them.
fn rows_in(
    alloc: Global,
    aspects: &[Vec<&TelegramRow<'_>>],
    aspect: Option<usize>,
    balise: Option<usize>,
) -> Result<Vec<usize>, AllocError>
    ensures { IfOk result (λ rows. rows.items ≡ rows_in aspect balise (pointed_lists aspects.now)) }
{
    match aspect {
        Some(place) => match aspects.get(place) {
            Some(balises) => aspect_rows(alloc, balises, balise),
            None => Ok(Vec::new(alloc)),
        },
        None => group_rows(alloc, aspects, balise),
    }
}

// The rows of a finding.
fn rows_of(
    alloc: Global,
    groups: &[BaliseGroup<'_, '_>],
    finding: Finding,
) -> Result<Vec<usize>, AllocError>
    ensures { IfOk result (λ rows. rows.items ≡ rows_of groups.now finding) }
{
    match finding.site {
        Site::Group(place) => match groups.get(place) {
            Some(group) => rows_in(alloc, group.aspects(), finding.aspect, finding.balise),
            None => Ok(Vec::new(alloc)),
        },
        Site::Message(_) => Ok(Vec::new(alloc)),
    }
}

// A finding with its rows.
fn with_rows(
    alloc: Global,
    groups: &[BaliseGroup<'_, '_>],
    finding: Finding,
) -> Result<RowFinding, AllocError>
    ensures { IfOk result (λ f. f ≡ with_rows groups.now finding) }
{
    let rows = rows_of(alloc, groups, finding)?;
    Ok(RowFinding { finding, rows })
}

/// The findings, each with its rows.
pub(crate) fn all_with_rows(
    alloc: Global,
    groups: &[BaliseGroup<'_, '_>],
    found: &[Finding],
) -> Result<Vec<RowFinding>, AllocError>
    ensures { IfOk result (λ all. all.items ≡ all_with_rows groups.now found.now) }
{
    let mut all = Vec::new(alloc);
    'found: for finding in found {
        all.push(with_rows(alloc, groups, *finding)?)?;
    }
    Ok(all)
}
