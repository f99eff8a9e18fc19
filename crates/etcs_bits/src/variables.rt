//! The variables of telegrams and packets (SUBSET-026, 7.5.1), and records of a few of them.

pub(crate) mod direction;
pub(crate) mod duplicate;
pub(crate) mod flag;
pub(crate) mod identity;
pub(crate) mod level;
pub(crate) mod medium;
pub(crate) mod plain;
pub(crate) mod ranged;
pub(crate) mod read_named;
pub(crate) mod scale;
pub(crate) mod train3;
pub(crate) mod transmission;
pub(crate) mod version;
