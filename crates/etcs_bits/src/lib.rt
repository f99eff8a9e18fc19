//! The bits of balise telegrams, and the records of variables that they spell (SUBSET-026, 7.4 and
//! 7.5).
//!
//! [`Bits`] is a list of bits. [`Cursor`] is a place in such a list. [`Layout`] is a record of
//! variables, such as [`Version`] or [`Identity`]. Pairs, options, [`Items`] and [`Body`] make
//! records of others (`specs/layout/Combined.antt`). [`scan_kept`] and [`put_kept`] read and write a
//! body that is kept as bits. Layers above rely on the contract of [`Layout::scan`]: it reads the
//! record at the cursor, or answers the first [`Fault`] if no record stands there. [`Same`] compares
//! two values. Read `layout.rt` first, with `Rows.antt`, `Fields.antt` and `Fault.antt` of
//! `specs/layout/`. The laws of every record and variable are in [`laws`]. This crate leaves out
//! packets, whole telegrams and their text, and the channel coding of the user bits (SUBSET-036,
//! 4.3).
#![tactic(auto)]

mod bits;
pub mod laws;
mod layout;
mod variables;

pub use bits::Bits;
pub use bits::cursor::Cursor;
pub use bits::memory::Memory;
pub use bits::slice::BitSlice;
pub use layout::Layout;
pub use layout::body::Body;
pub use layout::fault::{DecodeError, Fault, FaultKind, refused};
pub use layout::items::{Items, are_allowed, width_of};
pub use layout::kept::{can_keep, put_kept, scan_kept};
pub use layout::same::{Same, are_same};
pub use variables::direction::Dir;
pub use variables::duplicate::Dup;
pub use variables::identity::Identity;
pub use variables::level::Level;
pub use variables::medium::Medium;
pub use variables::plain::{Counter, Country, Distance, GroupNumber, Plain, Position, Time, Total};
pub use variables::ranged::{DifferenceKind, Ranged, Reaction, ReleaseSpeed, Speed, StaticSpeed};
pub use variables::scale::Scale;
pub use variables::train3::Train3;
pub use variables::transmission::Transmission;
pub use variables::version::Version;
