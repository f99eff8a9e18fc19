//! Balise groups: what a train reads of them, and the message that it makes of it (SUBSET-026, 3.16.2).
//!
//! A [`Group`] is one to eight telegrams. A train may miss some of its balises: [`Missed`]. It may
//! miss a balise if it reads the partner ([`is_covered`]). What it reads is [`Group::reading`], and
//! [`assemble`] makes one message of that, or refuses it ([`Refused`]). Read `assembly.rt` first,
//! with `specs/Assembly.antt` and `specs/Packets.antt`, then `missed.rt` with `specs/Missed.antt`. The
//! laws in [`laws`] state when the message does not depend on what was missed. Not modelled: how a
//! train learns its direction, and how it reacts to a refusal.
#![tactic(auto)]

mod assembly;
mod controlled;
mod group;
mod header;
pub mod laws;
mod missed;
mod mixture;
mod reading;
mod refusal;
mod refused;

pub use assembly::assemble;
pub use controlled::Controlled;
pub use group::Group;
pub use missed::{Missed, is_covered, partner};
pub use mixture::Mixture;
pub use refused::Refused;
