//! Which groups of balises a CSV table stands for.
//!
//! `specs/Table.antt` defines this from the bytes of the table on, and [`laws`] has tables that are worked out.
//! [`read_telegram_rows`] reads the rows of a table that have a telegram, as `entries_of` of `specs/Entries.antt` defines
//! them, or its first fault. [`groups_of_entries`] makes groups of these rows, as `specs/Groups.antt` defines them, or
//! finds the first fault of a group. Read these two definitions first, and then `telegram_rows.rt` and `groups.rt`. The
//! rows of a table are those of `etcs_rows`.
#![tactic(auto)]

mod aspects;
mod cell;
mod columns;
mod error;
mod faults;
mod groups;
mod heading_search;
mod headings;
pub mod laws;
mod lists;
mod mark;
mod places;
mod telegram_row;
mod telegram_rows;
mod text;

pub use error::{Column, TableError, TableFault};
pub use groups::{BaliseGroup, groups_of_entries};
pub use headings::Headings;
pub use mark::without_mark;
pub use telegram_row::TelegramRow;
pub use telegram_rows::read_telegram_rows;
