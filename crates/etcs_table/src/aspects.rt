//! The aspects of a group: its rows by the names of their aspects, with the rows of every aspect in each.

ghost use Rattle.std.specs.Prelude.{◌≡◌, ◌==◌, ◌++◌, ◌||◌, ◌∷◌, [], List, None, IfOk, IfErr, find, length, map, not, slice_index_or};
ghost use Rattle.std.specs.List.{list_any};
ghost use Rattle.etcs_table.specs.Endings.{IsFirstFault};
ghost use Rattle.etcs_table.specs.Entries.{Entry};
ghost use Rattle.etcs_table.specs.Groups.{aspect_fault, aspect_names, aspects_of, entry_fault, fault_at, first_of, group_fault, has_aspect, in_order, is_every, is_moved, is_numbered, place_fault, place_in, rows_of_aspects, uneven_fault};
ghost use Rattle.etcs_table.specs.Pointed.{pointed, pointed_lists};
ghost use Rattle.etcs_table.specs.RowLists.{AreAspectLists};
ghost use Rattle.etcs_table.specs.Text.{same_text};

use crate::error::{TableError, TableFault};
use crate::lists::{push_each, push_row};
use crate::places::{aspect_fault, in_order, place_in};
use crate::telegram_row::TelegramRow;
use indexmap::IndexSet;
use std::alloc::{AllocError, Global};

// The name of every aspect.
const EVERY: [u8; 1] = *b"*";

// Whether a balise sends its telegram in every aspect.
fn is_every(e: &TelegramRow) -> bool
    ensures { result ≡ is_every e.now }
{
    e.aspect() == EVERY.as_slice()
}

// Whether a balise sends its telegram in the aspect that its row names.
fn has_aspect(e: &TelegramRow) -> bool
    ensures { result ≡ has_aspect e.now }
{
    !e.aspect().is_empty() && !is_every(e)
}

fn is_numbered(e: &TelegramRow) -> bool
    ensures { result ≡ is_numbered e.now }
{
    e.number().is_some()
}

// What is wrong with an entry in a group, of which some have aspects of their own, and some numbers.
fn entry_fault(has_aspects: bool, has_numbers: bool, e: &TelegramRow) -> Option<TableFault>
    ensures { result ≡ entry_fault has_aspects has_numbers e.now }
{
    if has_aspects && e.aspect().is_empty() {
        Some(TableFault::Unnamed(e.row()))
    } else if has_numbers && !is_numbered(e) {
        Some(TableFault::Unnumbered(e.row()))
    } else {
        None
    }
}

// Whether some row names an aspect.
fn some_have_aspect(rows: &[&TelegramRow]) -> bool
    ensures { result ≡ list_any has_aspect (pointed rows.now) }
{
    rows.iter().any(|e| has_aspect(e))
}

// Whether some row has a number.
fn some_are_numbered(rows: &[&TelegramRow]) -> bool
    ensures { result ≡ list_any is_numbered (pointed rows.now) }
{
    rows.iter().any(|e| is_numbered(e))
}

fn first_lacking(has_aspects: bool, has_numbers: bool, rows: &[&TelegramRow]) -> Option<TableFault>
    ensures { result ≡ first_of (entry_fault has_aspects has_numbers) (pointed rows.now) }
{
    for e in rows {
        match entry_fault(has_aspects, has_numbers, e) {
            Some(fault) => return Some(fault),
            None => {}
        }
    }
    None
}

// The first row that lacks an aspect or a number which other rows have.
fn first_entry_fault(rows: &[&TelegramRow]) -> Option<TableFault>
    ensures { result ≡ first_of (entry_fault (list_any has_aspect (pointed rows.now)) (list_any is_numbered (pointed rows.now))) (pointed rows.now) }
{
    first_lacking(some_have_aspect(rows), some_are_numbered(rows), rows)
}

// The name of the first aspect: empty if no row names one.
fn first_name<'e>(rows: &[&'e TelegramRow]) -> &'e [u8]
    ensures { result.now ≡ slice_index_or (aspect_names (pointed rows.now)) 0 [] }
{
    for e in rows {
        if !is_every(e) {
            return e.aspect();
        }
    }
    &[]
}

// Whether a row is of the aspect with this name.
fn is_of(name: &[u8], e: &TelegramRow) -> bool
    ensures { result ≡ (same_text e.now.aspect name.now || is_every e.now) }
{
    e.aspect() == name || is_every(e)
}

// The rows of the first aspect.
fn first_aspect<'e, 'a>(
    alloc: Global,
    rows: &[&'e TelegramRow<'a>],
) -> Result<Vec<&'e TelegramRow<'a>>, AllocError>
    ensures { IfOk result (λ first. pointed first.items ≡ slice_index_or (rows_of_aspects (pointed rows.now)) 0 []) }
{
    let name = first_name(rows);
    let mut first = Vec::new(alloc);
    for e in rows {
        if is_of(name, e) {
            first.push(*e)?;
        }
    }
    Ok(first)
}

// Appends a row to the lists of its aspects.
fn push_entry<'e, 'a>(
    alloc: Global,
    names: &mut IndexSet<&'e [u8]>,
    every: &mut Vec<&'e TelegramRow<'a>>,
    aspects: &mut Vec<Vec<&'e TelegramRow<'a>>>,
    e: &'e TelegramRow<'a>,
) -> Result<(), AllocError>
    requires { length names.old.keys ≡ length aspects.old.items }
    ensures as_many { IfOk result (λ _. length names.new.keys ≡ length aspects.new.items) }
    ensures lists { IfOk result (λ _. (entries : List Entry)
        → AreAspectLists (pointed names.old.keys) (pointed every.old.items) (pointed_lists aspects.old.items) entries
        → AreAspectLists (pointed names.new.keys) (pointed every.new.items) (pointed_lists aspects.new.items) (entries ++ e.now ∷ [])) }
{
    if is_every(e) {
        push_each(aspects, e)?;
        every.push(e)?;
        Ok(())
    } else {
        push_row(alloc, names, every, aspects, e.aspect(), e)?;
        Ok(())
    }
}

// The rows of each aspect.
fn rows_of_aspects<'e, 'a>(
    alloc: Global,
    rows: &[&'e TelegramRow<'a>],
) -> Result<Vec<Vec<&'e TelegramRow<'a>>>, AllocError>
    ensures { IfOk result (λ aspects. pointed_lists aspects.items ≡ rows_of_aspects (pointed rows.now)) }
{
    let mut names = IndexSet::new(alloc);
    let mut every = Vec::new(alloc);
    let mut aspects = Vec::new(alloc);
    for e in rows {
        push_entry(alloc, &mut names, &mut every, &mut aspects, e)?;
    }
    if aspects.as_slice().is_empty() {
        aspects.push(every)?;
        return Ok(aspects);
    }
    Ok(aspects)
}

// The first aspect that is wrong by itself.
fn first_aspect_fault(aspects: &[Vec<&TelegramRow>]) -> Option<TableFault>
    ensures { result ≡ first_of aspect_fault (pointed_lists aspects.now) }
{
    for rows in aspects {
        match aspect_fault(rows) {
            Some(fault) => return Some(fault),
            None => {}
        }
    }
    None
}

// The first row that is not of every aspect.
fn first_own(rows: &[&TelegramRow]) -> Option<TableFault>
    ensures { result ≡ fault_at TableFault.Uneven (find (λ e. not (is_every e)) (pointed rows.now)) }
{
    for e in rows {
        if !is_every(e) {
            return Some(TableFault::Uneven(e.row()));
        }
    }
    None
}

// The first row of an aspect that is not of every aspect, if there are more or fewer rows than this.
fn uneven_fault(count: usize, rows: &[&TelegramRow]) -> Option<TableFault>
    ensures { result ≡ uneven_fault count (pointed rows.now) }
{
    if rows.len() == count {
        None
    } else {
        first_own(rows)
    }
}

fn first_uneven(count: usize, aspects: &[Vec<&TelegramRow>]) -> Option<TableFault>
    ensures { result ≡ first_of (uneven_fault count) (pointed_lists aspects.now) }
{
    for rows in aspects {
        match uneven_fault(count, rows) {
            Some(fault) => return Some(fault),
            None => {}
        }
    }
    None
}

// The rows of each aspect, in the order of their balises.
fn all_in_order<'e, 'a>(
    alloc: Global,
    aspects: &[Vec<&'e TelegramRow<'a>>],
) -> Result<Vec<Vec<&'e TelegramRow<'a>>>, AllocError>
    ensures { IfOk result (λ sorted. pointed_lists sorted.items ≡ map in_order (pointed_lists aspects.now)) }
{
    let mut sorted = Vec::new(alloc);
    for rows in aspects {
        let ordered = in_order(alloc, rows)?;
        sorted.push(ordered)?;
    }
    Ok(sorted)
}

// Whether an entry has this place in an aspect.
fn is_at(e: &TelegramRow, place: usize, balises: &[&TelegramRow]) -> bool
    ensures { result ≡ (place_in e.now (pointed balises.now) == place) }
{
    place_in(e, balises) == place
}

// Whether an entry has another place in some aspect than this one.
fn is_elsewhere(e: &TelegramRow, place: usize, aspects: &[Vec<&TelegramRow>]) -> bool
    ensures { result ≡ list_any (λ balises. not (place_in e.now balises == place)) (pointed_lists aspects.now) }
{
    for balises in aspects {
        if !is_at(e, place, balises) {
            return true;
        }
    }
    false
}

// The place of an entry in the first aspect.
fn first_place(aspects: &[Vec<&TelegramRow>], e: &TelegramRow) -> usize
    ensures { result ≡ place_in e.now (slice_index_or (pointed_lists aspects.now) 0 []) }
{
    match aspects.first() {
        Some(balises) => place_in(e, balises),
        None => 0,
    }
}

// Whether an entry has another place in some aspect than in the first.
fn is_moved(aspects: &[Vec<&TelegramRow>], e: &TelegramRow) -> bool
    ensures { result ≡ is_moved (pointed_lists aspects.now) e.now }
{
    is_elsewhere(e, first_place(aspects, e), aspects)
}

fn place_fault(aspects: &[Vec<&TelegramRow>], e: &TelegramRow) -> Option<TableFault>
    ensures { result ≡ place_fault (pointed_lists aspects.now) e.now }
{
    if is_every(e) && is_moved(aspects, e) {
        Some(TableFault::Moved(e.row()))
    } else {
        None
    }
}

// The first row of every aspect that is not at one place in all of them.
fn first_moved(aspects: &[Vec<&TelegramRow>], rows: &[&TelegramRow]) -> Option<TableFault>
    ensures { result ≡ first_of (place_fault (pointed_lists aspects.now)) (pointed rows.now) }
{
    for e in rows {
        match place_fault(aspects, e) {
            Some(fault) => return Some(fault),
            None => {}
        }
    }
    None
}

/// The aspects of a group with these rows, each with its balises in order, or the first fault of the group. The first
/// aspect is looked at before the others are made: it has at most eight rows, and so each has few rows of every aspect.
pub(crate) fn aspects_of<'e, 'a>(
    alloc: Global,
    rows: &[&'e TelegramRow<'a>],
) -> Result<Vec<Vec<&'e TelegramRow<'a>>>, TableError>
    ensures sound { IfOk result (λ _. group_fault (pointed rows.now) ≡ None) }
    ensures aspects { IfOk result (λ aspects. pointed_lists aspects.items ≡ aspects_of (pointed rows.now)) }
    ensures fault { IfErr result (λ error. IsFirstFault (group_fault (pointed rows.now)) error) }
{
    match first_entry_fault(rows) {
        Some(fault) => return Err(TableError::Fault(fault)),
        None => {}
    }
    let first = first_aspect(alloc, rows)?;
    match aspect_fault(&first) {
        Some(fault) => return Err(TableError::Fault(fault)),
        None => {}
    }
    let unordered = rows_of_aspects(alloc, rows)?;
    let lists = unordered.as_slice();
    match first_aspect_fault(lists) {
        Some(fault) => return Err(TableError::Fault(fault)),
        None => {}
    }
    let count = first.len();
    match first_uneven(count, lists) {
        Some(fault) => return Err(TableError::Fault(fault)),
        None => {}
    }
    let aspects = all_in_order(alloc, lists)?;
    let sorted = aspects.as_slice();
    match first_moved(sorted, rows) {
        Some(fault) => return Err(TableError::Fault(fault)),
        None => {}
    }
    Ok(aspects)
}
