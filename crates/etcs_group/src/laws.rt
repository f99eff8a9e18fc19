//! Laws of groups, readings, messages and mixtures, for users. Each law is the contract of a function that
//! does nothing.

ghost use Rattle.etcs_group.specs.Laws.{AcceptedOrRefused, MixturesAreDecided, ReadingsAreDecided, ReadingsSayTheSame};

/// A list of telegrams is accepted if and only if there is no reason to refuse it.
#[tactic(auto, using(crate::proofs::RefusalLemmas::accepted_or_refused))]
pub fn accepted_or_refused()
    ensures { AcceptedOrRefused }
{}

/// In a well-formed group whose counters agree, a reading is accepted if and only if all missed balises are
/// covered. Otherwise it is refused: as Nothing if all balises are missed, and if not, as Absent at the
/// least lost index, whose balise is missed and has no partner that is read.
pub fn readings_are_decided()
    ensures { ReadingsAreDecided }
{}

/// The message of a well-formed group is the message of the reading with nothing missed. If the two balises
/// of each pair have the same packets for the running direction, it is the message of each covered reading.
#[tactic(auto, using(crate::proofs::BlockLemmas::readings_say_the_same))]
pub fn readings_say_the_same()
    ensures { ReadingsSayTheSame }
{}

/// In a controlled group whose aspects make one message each and, if there are two or more, are contents of
/// one group and distinguished by their counters, a mixture is accepted if and only if it is covered and one
/// aspect has, at their indexes, all the telegrams that it shows. Its message is then the message of this
/// aspect with nothing missed.
pub fn mixtures_are_decided()
    ensures { MixturesAreDecided }
{}
