//! Tests of groups and of checkers of lines, from outside: `etcs_group` and `etcs_check`. They test what only
//! code can reach. Everything that the program can test is a case of `tests/cases/` at the top. Tests of
//! forms and documents are in `trials_lines`, because they depend on the proofs of more crates.
//!
//! `shared.rt` has what several tests use: telegrams, groups and messages. `refused_memory.rt` is on all
//! libraries up to `etcs_check`.
#![tactic(auto)]

#[cfg(test)]
mod ample_memory;
#[cfg(test)]
mod assembly;
#[cfg(test)]
mod controlled;
#[cfg(test)]
mod halt;
#[cfg(test)]
mod readings;
#[cfg(test)]
mod refused_memory;
#[cfg(test)]
mod shared;
