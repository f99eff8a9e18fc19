//! Tests of tables, from outside: `etcs_rows`, `etcs_table`, `etcs_table_check` and `etcs_table_run`.
#![tactic(auto)]

#[cfg(test)]
mod rows;
#[cfg(test)]
mod runs;
#[cfg(test)]
mod telegrams;
#[cfg(test)]
mod verdicts;
