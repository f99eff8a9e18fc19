//! Rows in lists by their names, in the order of the first rows.

ghost use Rattle.std.specs.Prelude.{◌≡◌, IfOk, length, map};
ghost use Rattle.etcs_table.specs.Lists.{with_name, with_row, with_row_each};
ghost use Rattle.etcs_table.specs.Pointed.{pointed, pointed_lists};

use crate::telegram_row::TelegramRow;
use indexmap::IndexSet;
use std::alloc::{AllocError, Global};

/// Appends a row to the list of its name. A new list begins with the rows of every list.
pub(crate) fn push_row<'e, 'a>(
    alloc: Global,
    names: &mut IndexSet<&'e [u8]>,
    every: &[&'e TelegramRow<'a>],
    lists: &mut Vec<Vec<&'e TelegramRow<'a>>>,
    name: &'e [u8],
    row: &'e TelegramRow<'a>,
) -> Result<(), AllocError>
    requires { length names.old.keys ≡ length lists.old.items }
    ensures names { IfOk result (λ _. pointed names.new.keys ≡ with_name (pointed names.old.keys) name.now) }
    ensures lists { IfOk result (λ _. pointed_lists lists.new.items
        ≡ with_row (pointed names.old.keys) (pointed every.now) (pointed_lists lists.old.items) name.now row.now) }
    ensures as_many { IfOk result (λ _. length names.new.keys ≡ length lists.new.items) }
{
    let Ok((place, is_new)) = names.insert_full(name) else {
        return Err(AllocError);
    };
    if is_new {
        let mut list = Vec::from_slice(alloc, every)?;
        list.push(row)?;
        lists.push(list)?;
    } else {
        lists[place].push(row)?;
    }
    Ok(())
}

/// Appends a row to each list.
pub(crate) fn push_each<'e, 'a>(
    lists: &mut Vec<Vec<&'e TelegramRow<'a>>>,
    row: &'e TelegramRow<'a>,
) -> Result<(), AllocError>
    ensures lists { IfOk result (λ _. pointed_lists lists.new.items ≡ with_row_each (pointed_lists lists.old.items) row.now) }
    ensures as_many { length lists.new.items ≡ length lists.old.items }
{
    for i in 0..lists.len() {
        lists[i].push(row)?;
    }
    Ok(())
}
