//! Laws of documents, for users. Each law is the contract of a function that does nothing.

ghost use Rattle.etcs_document.specs.Laws.{NoFindingMeansSoundText, NoFindingSaysYes};

use etcs_check::laws::no_finding_means_sound_line;

/// Bytes are read as a line without a finding if and only if they are the document of a sound line.
/// [`check_text`](crate::check_text) and [`check_in_order`](crate::check_in_order) return the result of this
/// reading, unless memory runs out.
pub fn no_finding_means_sound_text()
    ensures { NoFindingMeansSoundText }
{
    no_finding_means_sound_line();
}

/// If bytes are read as a line without a finding, all is true that a yes says: every telegram and message of
/// the line has exactly one record, and for each aspect of every group, running direction and set of missed
/// balises whose declared duplicates are read, the assembled message is accepted and equals that with
/// nothing missed, every other set being refused; there, as in each radio message, every movement authority
/// has gradient and speed profiles, all reaching at least its supervised location.
pub fn no_finding_says_yes()
    ensures { NoFindingSaysYes }
{}
