//! The groups of a table with their telegrams, as a checker takes them.

ghost use Rattle.std.specs.Prelude.{◌<◌, ◌≤◌, IfErr, IfOk, length};
ghost use Rattle.etcs_table.specs.Pointed.{pointed};
ghost use Rattle.etcs_table_check.specs.Line.{IsCheckedAs, aspect_telegrams, group_aspects, groups_read};
ghost use Rattle.etcs_table_check.specs.Refusals.{FailsAs, Gives};
ghost use Rattle.etcs_table_check.specs.Shape.{AreShaped, IsShaped};

use crate::error::CheckTableError;
use crate::telegrams::telegram_of;
use etcs_check::LineChecker;
use etcs_group::{Controlled, Group};
use etcs_table::{BaliseGroup, TelegramRow};
use std::alloc::Global;

// Reads the balises of an aspect.
fn read_aspect(alloc: Global, balises: &[&TelegramRow<'_>]) -> Result<Group, CheckTableError>
    requires some { 0 < length (pointed balises.now) }
    requires few { length (pointed balises.now) ≤ 8 }
    ensures { Gives (λ g. g) result (aspect_telegrams (pointed balises.now)) }
{
    let mut telegrams = Vec::new(alloc);
    'balises: for row in balises {
        match telegram_of(alloc, row) {
            Ok(telegram) => telegrams.push(telegram)?,
            Err(error) => return Err(error),
        }
    }
    Ok(Group::new(telegrams).unwrap())
}

// Reads the aspects of a group.
fn read_group(alloc: Global, group: &BaliseGroup<'_, '_>) -> Result<Controlled, CheckTableError>
    requires { IsShaped group.now.aspects }
    ensures { Gives (λ c. c) result (group_aspects group.now) }
{
    let lists = group.aspects();
    let mut aspects = Vec::new(alloc);
    'aspects: for balises in lists {
        match read_aspect(alloc, balises) {
            Ok(aspect) => aspects.push(aspect)?,
            Err(error) => return Err(error),
        }
    }
    Ok(Controlled::new(aspects).unwrap())
}

/// Passes the groups to a checker, and returns the checker.
pub(crate) fn check_groups(
    alloc: Global,
    groups: &[BaliseGroup<'_, '_>],
) -> Result<LineChecker, CheckTableError>
    requires { AreShaped groups.now }
    ensures ok { IfOk result (λ checker. IsCheckedAs checker (groups_read groups.now)) }
    ensures err { IfErr result (λ error. FailsAs error (groups_read groups.now)) }
{
    let mut checker = LineChecker::new(alloc);
    'groups: for group in groups {
        match read_group(alloc, group) {
            Ok(controlled) => match checker.group(alloc, &controlled) {
                Ok(()) => {}
                Err(_) => return Err(CheckTableError::Memory),
            },
            Err(error) => return Err(error),
        }
    }
    Ok(checker)
}
