//! The laws of every record and every variable, for users. Each law is the contract of a call that
//! does nothing, over the definitions alone (`specs/Laws.antt`). The laws of every record also hold
//! for the records of other crates, by [`Layout`].

ghost use Rattle.std.specs.Prelude.{◌≡◌, ◌↔◌, ℕ, ◌≤◌, ◌<◌, ◌^◌, ◌⊎◌, Bool, List, length, Ok, Err};
ghost use Rattle.etcs_bits.specs.declared.layout.fault.Fault.{Fault};
ghost use Rattle.etcs_bits.specs.Laws.{SpellsOneRecord, NoSpellingBegins, FaultMeansNone, HasOneFault, HasLayoutLaws};
ghost use Rattle.etcs_bits.specs.layout.Rows.{Variable, Row, Place, IsSpelled, alone};
ghost use Rattle.etcs_bits.specs.layout.Fields.{due};
ghost use Rattle.etcs_bits.specs.layout.Fault.{IsFault, IsDueFault};
ghost use Rattle.etcs_bits.specs.layout.Reading.{taken, read_field, read_rows};
ghost use Rattle.etcs_bits.specs.layout.Values.{HasNumbers, IsNumberOf, HasValues};
ghost use Rattle.etcs_bits.specs.bits.Number.{num, num_of_bits, worth};
ghost use Rattle.etcs_bits.specs.layout.Format.{variable, number, ranges, flag, ◌then◌, if_there, several, behind_length};
ghost use Rattle.etcs_bits.specs.variables.Variables.{plain, free, ranged, transmission_variable, transmission_number, medium_variable, medium_number, version_variable, version_number, duplicate_variable, dup_number, scale_variable, scale_number, dir_variable, dir_number};
ghost use Rattle.etcs_bits.specs.variables.VariableValues.{transmission_value, medium_value, version_value, dup_value, scale_value, dir_value, flag_value};
ghost use Rattle.etcs_bits.specs.variables.VariableFormats.{q_updown, q_media, m_version, m_dup, q_scale, q_dir};
ghost use Rattle.etcs_bits.specs.variables.Identity.{identity};
ghost use Rattle.etcs_bits.specs.variables.Level.{m_level, level_variable, level_number};
ghost use Rattle.etcs_bits.specs.variables.Train3.{train3, train3_variable, train3_number, train3_value};

use crate::layout::Layout;
use crate::layout::body::Body;
use crate::layout::items::Items;
use crate::variables::direction::Dir;
use crate::variables::duplicate::Dup;
use crate::variables::identity::Identity;
use crate::variables::level::Level;
use crate::variables::medium::Medium;
use crate::variables::plain::Plain;
use crate::variables::ranged::Ranged;
use crate::variables::scale::Scale;
use crate::variables::train3::Train3;
use crate::variables::transmission::Transmission;
use crate::variables::version::Version;

// ---- every record

/// A record is spelled at a place exactly if reading, as a function of the bits, gives it there.
/// The spelling ends where reading ends. The rows that are read are the rows of the record.
pub fn a_record_is_read_as_it_is_spelled<T: Layout>()
    ensures spelled { (p q : Place) (v : T) → p.at ≤ length p.bits
        → IsSpelled (T.format.rows v) p q
        ↔ ((r : List Row) × (read_rows T.format.fields p ≡ Ok (r, q)) × (T.format.of r ≡ v)) }
    ensures rows { (p q : Place) (r : List Row) → p.at ≤ length p.bits
        → read_rows T.format.fields p ≡ Ok (r, q) → T.format.rows (T.format.of r) ≡ r }
{}

/// A place has a fault exactly if reading gives that fault there.
pub fn a_fault_is_read_as_it_is_defined<T: Layout>()
    ensures { (p : Place) (f : Fault) → p.at ≤ length p.bits
        → IsFault T.format.fields p f ↔ (read_rows T.format.fields p ≡ Err f) }
{}

/// Reading a single field, as a function of the bits, gives a number exactly if the number is
/// spelled there, and a fault exactly if the field has it. Bits are taken as the number of a
/// variable that allows every number.
pub fn a_field_is_read_as_it_is_spelled()
    ensures number { (x : Variable) (p q : Place) (n : ℕ) → p.at ≤ length p.bits
        → IsSpelled (alone x n) p q ↔ (read_field x p ≡ Ok (n, q)) }
    ensures fault { (x : Variable) (p : Place) (f : Fault) → p.at ≤ length p.bits
        → IsDueFault (due x) p f ↔ (read_field x p ≡ Err f) }
    ensures taken { (w : ℕ) (p : Place) → taken w p ≡ read_field (free w) p }
{}

/// At most one record is spelled at a place, and it has one end.
pub fn a_place_spells_one_record<T: Layout>()
    ensures { SpellsOneRecord T.format }
{}

/// No spelling begins another. What is read is what was written, whatever follows it.
pub fn no_spelling_begins_another<T: Layout>()
    ensures { NoSpellingBegins T.format }
{}

/// If a place has a fault, no record is spelled there, in any input of the same length with the
/// same first `end` bits.
pub fn a_fault_means_no_record<T: Layout>()
    ensures { FaultMeansNone T.format }
{}

/// A place has at most one fault.
pub fn a_place_has_one_fault<T: Layout>()
    ensures { HasOneFault T.format }
{}

/// A record is laid out in its fields: the four laws of spellings and faults hold for it.
pub fn records_are_laid_out<T: Layout>()
    ensures { HasLayoutLaws T.format }
{
    a_place_spells_one_record::<T>();
    no_spelling_begins_another::<T>();
    a_fault_means_no_record::<T>();
    a_place_has_one_fault::<T>();
}

// ---- records that are made of others

/// Two records, one after the other, are laid out in the fields of both.
pub fn pairs_are_laid_out<A: Layout, B: Layout>()
    ensures { HasLayoutLaws (A.format then B.format) }
{
    records_are_laid_out::<(A, B)>();
}

/// An optional record is laid out after the qualifier that says whether it is present.
pub fn options_are_laid_out<T: Layout>()
    ensures { HasLayoutLaws (if_there T.format) }
{
    records_are_laid_out::<Option<T>>();
}

/// Items are laid out after N_ITER, which counts them.
pub fn lists_are_laid_out<T: Layout>()
    ensures { HasLayoutLaws (several T.format) }
{
    records_are_laid_out::<Items<T>>();
}

/// A packet's body is laid out after L_PACKET, which also counts the bits before it.
pub fn bodies_are_laid_out<const BEFORE: u32, T: Layout>()
    ensures { HasLayoutLaws (behind_length BEFORE T.format) }
{}

/// The identity of a balise group is laid out as NID_C and then NID_BG.
pub fn identities_are_laid_out()
    ensures { HasLayoutLaws identity }
{
    records_are_laid_out::<Identity>();
}

// ---- variables

/// A number that fits in `w` bits is the number that its `w` bits spell. Bits are the bits of the
/// number that they spell.
pub fn numbers_are_their_bits()
    ensures count { (w n : ℕ) → length (num w n) ≡ w }
    ensures number { (w n : ℕ) → n < 2 ^ w → num_of_bits (num w n) ≡ n }
    ensures bits { (xs : List Bool) → num (length xs) (num_of_bits xs) ≡ xs }
{}

/// A variable without a spare number has all numbers that fit in its `W` bits, if `W` is 1 to 32.
#[tactic(auto, using(crate::proofs::ValueLemmas::plain_has_numbers))]
pub fn plain_variables_have_all_numbers<const W: u32>()
    ensures numbers { HasNumbers (plain W) W (λ n. (1 ≤ W) × (W ≤ 32) × (n < 2 ^ W)) }
    ensures laid_out { HasLayoutLaws (number W) }
{
    records_are_laid_out::<Plain<W>>();
}

/// A variable with two ranges has the numbers up to `LAST`, and the numbers from `FROM` on that its `W`
/// bits hold, if `W` is 1 to 32.
#[tactic(auto, using(crate::proofs::ValueLemmas::ranged_has_numbers))]
pub fn ranged_variables_have_two_ranges<const W: u32, const LAST: u32, const FROM: u32>()
    ensures numbers { HasNumbers (ranged W LAST FROM) W
        (λ n. (1 ≤ W) × (W ≤ 32) × (n < 2 ^ W) × ((n ≤ LAST) ⊎ (FROM ≤ n))) }
    ensures laid_out { HasLayoutLaws (ranges W LAST FROM) }
{
    records_are_laid_out::<Ranged<W, LAST, FROM>>();
}

/// Bits that are kept as they are have every number of their width.
pub fn free_bits_have_all_numbers()
    ensures numbers { (w : ℕ) → HasNumbers (free w) w (λ n. n < 2 ^ w) }
    ensures laid_out { (w : ℕ) → HasLayoutLaws (variable (free w)) }
{}

/// A flag has one bit. Its two numbers are its two values.
#[tactic(auto, using(crate::specs::lemmas::VariableLemmas::flags_have_values))]
pub fn flags_have_their_numbers()
    ensures numbers { HasValues (plain 1) 1 worth flag_value }
    ensures laid_out { HasLayoutLaws flag }
{
    records_are_laid_out::<bool>();
}

/// Q_UPDOWN has one bit. The direction that is read has its number.
#[tactic(auto, using(crate::specs::lemmas::VariableLemmas::names_have_values, crate::specs::lemmas::VariableLemmas::transmission_names))]
pub fn transmissions_have_their_numbers()
    ensures numbers { HasValues transmission_variable 1 transmission_number transmission_value }
    ensures laid_out { HasLayoutLaws q_updown }
{
    records_are_laid_out::<Transmission>();
}

/// Q_MEDIA has one bit. The medium that is read has its number.
#[tactic(auto, using(crate::specs::lemmas::VariableLemmas::names_have_values, crate::specs::lemmas::VariableLemmas::medium_names))]
pub fn media_have_their_numbers()
    ensures numbers { HasValues medium_variable 1 medium_number medium_value }
    ensures laid_out { HasLayoutLaws q_media }
{
    records_are_laid_out::<Medium>();
}

/// M_VERSION has seven bits. The versions that are read have their numbers.
#[tactic(auto, using(crate::specs::lemmas::VariableLemmas::names_have_values, crate::specs::lemmas::VariableLemmas::version_names))]
pub fn versions_have_their_numbers()
    ensures numbers { HasValues version_variable 7 version_number version_value }
    ensures laid_out { HasLayoutLaws m_version }
{
    records_are_laid_out::<Version>();
}

/// M_DUP has two bits. Each mark has its number, and no other number is allowed.
#[tactic(auto, using(crate::specs::lemmas::VariableLemmas::names_have_values, crate::specs::lemmas::VariableLemmas::dup_names))]
pub fn marks_have_their_numbers()
    ensures numbers { HasValues duplicate_variable 2 dup_number dup_value }
    ensures laid_out { HasLayoutLaws m_dup }
{
    records_are_laid_out::<Dup>();
}

/// Q_SCALE has two bits. Each unit has its number, and no other number is allowed.
#[tactic(auto, using(crate::specs::lemmas::VariableLemmas::names_have_values, crate::specs::lemmas::VariableLemmas::scale_names))]
pub fn scales_have_their_numbers()
    ensures numbers { HasValues scale_variable 2 scale_number scale_value }
    ensures laid_out { HasLayoutLaws q_scale }
{
    records_are_laid_out::<Scale>();
}

/// Q_DIR has two bits. Each direction has its number, and no other number is allowed.
#[tactic(auto, using(crate::specs::lemmas::VariableLemmas::names_have_values, crate::specs::lemmas::VariableLemmas::dir_names))]
pub fn directions_have_their_numbers()
    ensures numbers { HasValues dir_variable 2 dir_number dir_value }
    ensures laid_out { HasLayoutLaws q_dir }
{
    records_are_laid_out::<Dir>();
}

/// Q_DIRLRBG, Q_DLRBG and Q_DIRTRAIN have two bits. Each value has its number, and no other number is
/// allowed.
#[tactic(auto, using(crate::specs::lemmas::VariableLemmas::names_have_values, crate::specs::variables::Train3::train3_names))]
pub fn sides_have_their_numbers()
    ensures numbers { HasValues train3_variable 2 train3_number train3_value }
    ensures laid_out { HasLayoutLaws train3 }
{
    records_are_laid_out::<Train3>();
}

/// M_LEVEL and M_LEVELTR have three bits. Each level has its number, and no other number is
/// allowed. NID_NTC has eight bits and follows only level NTC.
#[tactic(auto, using(crate::proofs::ValueLemmas::levels_have_numbers, crate::proofs::ValueLemmas::ntcs_have_numbers))]
pub fn levels_have_their_numbers()
    ensures numbers { HasNumbers level_variable 3 (IsNumberOf level_number) }
    ensures ntc { HasNumbers (plain 8) 8 (λ n. n < 256) }
    ensures laid_out { HasLayoutLaws m_level }
{
    records_are_laid_out::<Level>();
}
