//! `check_table`: from the bytes of a table to the facts against its line, with their rows.

ghost use Rattle.std.specs.Prelude.{◌≡◌, ◌↔◌, [], IfOk, IsOkAnd};
ghost use Rattle.etcs_check.specs.Soundness.{IsSoundLine};
ghost use Rattle.etcs_table_check.specs.Line.{groups_read};
ghost use Rattle.etcs_table_check.specs.Refusals.{Gives};
ghost use Rattle.etcs_table_check.specs.Shape.{AreShaped};
ghost use Rattle.etcs_table_check.specs.Verdict.{IsSoundTable, verdict_of_groups, verdict_of_table};

use crate::error::CheckTableError;
use crate::finding_rows::{RowFinding, all_with_rows};
use crate::line::check_groups;
use crate::telegrams::{telegram_rows, unread_table};
use etcs_table::{BaliseGroup, Headings, groups_of_entries};
use std::alloc::Global;
use std::marker::Model;

/// How many groups and telegrams a table has, and all facts against its line.
#[derive(Debug, Drop)]
pub struct TableVerdict {
    groups: usize,
    telegrams: usize,
    findings: Vec<RowFinding>,
}

impl Model for TableVerdict {
    ghost use Rattle.etcs_table_check.specs.Shape.{AreShaped};
    ghost use Rattle.etcs_table_check.specs.Verdict.{TableVerdict};

    ghost Value = { TableVerdict };

    ghost view = { λ v. record { groups = v.groups; telegrams = v.telegrams; findings = v.findings.items } };
}

impl TableVerdict {
    /// How many balise groups the table has.
    pub fn groups(&self) -> usize
        ensures { result ≡ self.now.groups }
    {
        self.groups
    }

    /// How many rows of the table have a telegram.
    pub fn telegrams(&self) -> usize
        ensures { result ≡ self.now.telegrams }
    {
        self.telegrams
    }

    /// All facts against the line, each with its rows.
    pub fn findings(&self) -> &[RowFinding]
        ensures { result.now ≡ self.now.findings }
    {
        self.findings.as_slice()
    }
}

// The verdict on these groups of so many rows.
fn judge(
    alloc: Global,
    telegrams: usize,
    groups: &[BaliseGroup<'_, '_>],
) -> Result<TableVerdict, CheckTableError>
    requires { AreShaped groups.now }
    ensures exact { Gives (λ v. v) result (verdict_of_groups telegrams groups.now) }
    ensures yes { IfOk result (λ v. (v.findings ≡ [])
        ↔ IsOkAnd (groups_read groups.now) (λ line. IsSoundLine line [])) }
{
    let checker = match check_groups(alloc, groups) {
        Ok(checker) => checker,
        Err(error) => return Err(error),
    };
    let found = checker.finish()?;
    let findings = all_with_rows(alloc, groups, found.as_slice())?;
    Ok(TableVerdict {
        groups: groups.len(),
        telegrams,
        findings,
    })
}

/// Reads a table, and finds all facts against its line. Without a fact the line is sound.
///
/// The table is refused for its first fault: of its heading and its rows, then for its first row whose digits are no
/// telegram, and then for the first fault of its groups. The only other error is that memory ran out.
pub fn check_table(
    alloc: Global,
    words: &Headings<'_>,
    bytes: &[u8],
) -> Result<TableVerdict, CheckTableError>
    ensures exact { Gives (λ v. v) result (verdict_of_table words.now bytes.now) }

    // No finding means a sound line.
    ensures yes { IfOk result (λ v. (v.findings ≡ []) ↔ IsSoundTable words.now bytes.now) }
{
    let rows = match telegram_rows(alloc, words, bytes) {
        Ok(rows) => rows,
        Err(error) => return Err(error),
    };
    let entries = rows.as_slice();
    let groups = match groups_of_entries(alloc, entries) {
        Ok(groups) => groups,
        Err(error) => return Err(unread_table(error)),
    };
    judge(alloc, entries.len(), groups.as_slice())
}
