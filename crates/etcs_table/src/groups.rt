//! `groups_of_entries`: the groups of balises that the entries of a table stand for.

ghost use Rattle.std.specs.Prelude.{◌≡◌, [], None, Ok, IfOk, IfErr, map, slice_index_or};
ghost use Rattle.etcs_table.specs.Endings.{IsFirstFault};
ghost use Rattle.etcs_table.specs.Faults.{FailsAs};
ghost use Rattle.etcs_table.specs.Groups.{aspects_of, group_fault, group_names, groups_of_entries, of_group};
ghost use Rattle.etcs_table.specs.Pointed.{pointed, pointed_lists};

use crate::aspects::aspects_of;
use crate::error::TableError;
use crate::lists::push_row;
use crate::telegram_row::TelegramRow;
use indexmap::IndexSet;
use std::alloc::{AllocError, Global};
use std::marker::Model;

/// A balise group: its name, and for each aspect its balises in order.
#[derive(Drop)]
pub struct BaliseGroup<'e, 'a> {
    name: &'e [u8],
    aspects: Vec<Vec<&'e TelegramRow<'a>>>,
}

impl<'e, 'a> Model for BaliseGroup<'e, 'a> {
    ghost use Rattle.etcs_table.specs.Groups.{Group};
    ghost use Rattle.etcs_table.specs.Pointed.{pointed_lists};

    ghost Value = { Group };

    ghost view = { λ g. record { name = g.name.now; aspects = pointed_lists g.aspects.items } };
}

impl<'e, 'a> BaliseGroup<'e, 'a> {
    /// The name of the group.
    pub fn name(&self) -> &'e [u8]
        ensures { result.now ≡ self.now.name }
    {
        self.name
    }

    /// The aspects of the group, each with its balises in order.
    pub fn aspects(&self) -> &[Vec<&'e TelegramRow<'a>>]
        ensures { pointed_lists result.now ≡ self.now.aspects }
    {
        &self.aspects
    }
}

// The names of the groups, and the rows of each.
fn rows_of_groups<'e, 'a>(
    alloc: Global,
    entries: &'e [TelegramRow<'a>],
) -> Result<(IndexSet<&'e [u8]>, Vec<Vec<&'e TelegramRow<'a>>>), AllocError>
    ensures names { IfOk result (λ r. pointed r.0.keys ≡ group_names entries.now) }
    ensures rows { IfOk result (λ r. pointed_lists r.1.items ≡ map (of_group entries.now) (group_names entries.now)) }
{
    let mut names = IndexSet::new(alloc);
    let mut lists = Vec::new(alloc);
    let every = Vec::new(alloc);
    for e in entries {
        push_row(alloc, &mut names, &every, &mut lists, e.group(), e)?;
    }
    Ok((names, lists))
}

// The name at this place: empty past the end.
fn name_at<'e>(names: &IndexSet<&'e [u8]>, place: usize) -> &'e [u8]
    ensures { result.now ≡ slice_index_or (pointed names.now.keys) place [] }
{
    match names.get_index(place) {
        Some(name) => *name,
        None => &[],
    }
}

// The group with these rows, or its first fault.
fn group_of<'e, 'a>(
    alloc: Global,
    name: &'e [u8],
    rows: &[&'e TelegramRow<'a>],
) -> Result<BaliseGroup<'e, 'a>, TableError>
    ensures sound { IfOk result (λ _. group_fault (pointed rows.now) ≡ None) }
    ensures group { IfOk result (λ group. group ≡ record { name = name.now; aspects = aspects_of (pointed rows.now) }) }
    ensures fault { IfErr result (λ error. IsFirstFault (group_fault (pointed rows.now)) error) }
{
    match aspects_of(alloc, rows) {
        Ok(aspects) => Ok(BaliseGroup { name, aspects }),
        Err(error) => Err(error),
    }
}

/// The groups of these entries in the order of their first rows, or the first fault of the first group that has one.
pub fn groups_of_entries<'e, 'a>(
    alloc: Global,
    entries: &'e [TelegramRow<'a>],
) -> Result<Vec<BaliseGroup<'e, 'a>>, TableError>
    ensures groups { IfOk result (λ groups. groups_of_entries entries.now ≡ Ok groups.items) }
    ensures refused { IfErr result (λ error. FailsAs (groups_of_entries entries.now) error) }
{
    let grouped = rows_of_groups(alloc, entries)?;
    let lists = grouped.1.as_slice();
    let mut groups = Vec::new(alloc);
    for (i, rows) in lists.iter().enumerate() {
        let group = match group_of(alloc, name_at(&grouped.0, i), rows) {
            Ok(group) => group,
            Err(error) => return Err(error),
        };
        groups.push(group)?;
    }
    Ok(groups)
}
