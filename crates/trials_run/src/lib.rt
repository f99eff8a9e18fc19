//! Tests of `run` between devices, which only code can make: what is read before what is written, and
//! a device that fails at each call in turn. The outputs for inputs are cases of `tests/` at the top.
#![tactic(auto)]

#[cfg(test)]
mod commands;
#[cfg(test)]
mod devices;
#[cfg(test)]
mod order;
