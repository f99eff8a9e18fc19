//! Tests of the crates of forms and of documents of lines, from outside: `etcs_json` and `etcs_form`. They
//! test what only code can reach. Everything that the program can test is a case of `tests/cases/` at the
//! top. Tests of groups and of checkers, which need none of these crates, are in `trials_groups`.
//!
//! `forms.rt` has what several tests use. `refused_memory.rt` is on documents and forms.
#![tactic(auto)]

#[cfg(test)]
mod ample_memory;
#[cfg(test)]
mod documents;
#[cfg(test)]
mod findings;
#[cfg(test)]
mod forms;
#[cfg(test)]
mod records;
#[cfg(test)]
mod refused_memory;
#[cfg(test)]
mod texts;
