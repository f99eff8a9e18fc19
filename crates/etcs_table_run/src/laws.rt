//! What a status says about a table. The law is the contract of a function that does nothing.

ghost use Rattle.etcs_table_run.specs.Laws.{DoneIsSound};

/// The status is `Done` if and only if the bytes are the table of a sound line.
#[tactic(auto, using(crate::proofs::SoundLemmas::done_is_sound))]
pub fn done_is_sound()
    ensures { DoneIsSound }
{}
