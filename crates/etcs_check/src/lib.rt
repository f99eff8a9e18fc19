//! Findings: the facts against a railway line, found in its balise groups and radio messages.
//!
//! A [`Line`] is balise groups, each with one or more aspects, and radio messages. A [`Finding`] states
//! a fact against it by its [`Rule`], its [`Site`] and its aspect. [`same_packets`] compares the packets
//! of two balises. Read `finding.rt` first, with `specs/Facts.antt`, which defines each fact by a test, and
//! `specs/Order.antt`, then `specs/Soundness.antt`, which defines a sound line by what trains may read of it.
//! [`laws`] connects the two: a line has no finding if and only if it is sound. Not modelled: how a train
//! reacts to what it reads.
#![tactic(auto)]

mod aspects;
mod balise_rules;
mod duplicates;
mod finding;
mod identities;
pub mod laws;
mod line;
mod line_checker;
mod packet_summary;
mod profile_rules;
mod walk;

pub use duplicates::same_packets;
pub use finding::{Finding, Rule, Site};
pub use line::{Line, check};
pub use line_checker::{CheckError, LineChecker};
