//! `check_text`: reads the document of a railway line and checks the line, with a `Verdict` as its result.

ghost use Rattle.std.specs.Prelude.{◌≡◌, ◌≢◌, ◌↔◌, ℕ, Bool, false, [], Option, IfOk, IsTrue};
ghost use Rattle.std.specs.Str.{is_utf8};
ghost use Rattle.etcs_profile.specs.declared.run.Run.{Run};
ghost use Rattle.etcs_group.specs.Laws.{IsDecided, IsMixtureDecided};
ghost use Rattle.etcs_group.specs.Missed.{IsSetOf};
ghost use Rattle.etcs_group.specs.Mixture.{Fits};
ghost use Rattle.etcs_group.specs.Places.{At};
ghost use Rattle.etcs_group.specs.Reading.{group_reading};
ghost use Rattle.etcs_group.specs.Group.{Telegrams, Aspects};
ghost use Rattle.etcs_check.specs.Soundness.{IsSoundControlled, IsSoundGroup};
ghost use Rattle.etcs_document.specs.DocumentFault.{Gives};
ghost use Rattle.etcs_document.specs.Verdict.{IsSoundText, IsYes, NamesUnsoundParts, SaysYes, verdict_of_text};

use crate::document::read_line;
use crate::line_error::LineError;
use etcs_check::{Finding, Line, check};
use std::alloc::Global;

/// The verdict on a line: the line that was read, and all facts against it.
#[derive(Debug, Drop)]
pub struct Verdict {
    /// The line.
    pub line: Line,
    /// All facts against it: by group, then by message; within each by rule, then by aspect, none
    /// first, then by running direction, nominal first, then by balise and packet.
    pub findings: Vec<Finding>,
}

impl Verdict {
    /// Whether there is no fact against the line.
    pub fn is_yes(&self) -> bool
        ensures { IsTrue result ↔ (self.now.findings.items ≡ []) }
    {
        self.findings.is_empty()
    }
}

/// Reads the document of a railway line, and finds all facts against the line. Without findings the answer is
/// yes:
///
/// - Every telegram and message of the line has exactly one record.
/// - For each aspect of every group, running direction and set of missed balises whose declared duplicates are read,
///   the assembled message is accepted and equals the message with nothing missed. Every other set is refused.
/// - In these messages and in each radio message, every movement authority has gradient and speed profiles, and all
///   of them reach its supervised location.
/// - If a lineside unit switches a group while a train passes, the train reads a mixture of aspects. A mixture is
///   accepted if and only if it is covered and one aspect has, at their indexes, all the telegrams that it shows. Its
///   packets are then the packets of that aspect with nothing missed.
///
/// The errors are the same as for [`read_line`]. Findings need memory too. After an error neither line nor
/// findings are returned.
pub fn check_text(alloc: Global, bytes: &[u8]) -> Result<Verdict, LineError>
    ensures exact { Gives (λ v. ((v.line.groups.items, v.line.messages.items), v.findings.items)) result
        (verdict_of_text bytes.now) }

    // Yes means a sound line, and a sound line means yes.
    ensures yes { result ≢ Err LineError.Memory → IsYes result ↔ IsSoundText bytes.now }
    ensures says { IfOk result (λ v. v.findings.items ≡ []
        → SaysYes bytes.now v.line.groups.items v.line.messages.items) }

    // A group or a message is sound if and only if no finding names it, whatever is found elsewhere.
    // Exception: of two groups with the same identity the later one is named.
    ensures unnamed { IfOk result (λ v. NamesUnsoundParts bytes.now v.findings.items) }

    // Only what was missed decides whether a reading of a sound aspect is accepted, whatever else is found.
    ensures decided { IfOk result (λ v. (g a : ℕ) (aspects : Aspects) (group : Telegrams)
        (run : Run) (missed : ℕ → Bool) → At v.line.groups.items g aspects → At aspects a group
        → IsSoundGroup group → IsSetOf group missed → IsDecided run group missed (group_reading run missed group)) }

    // A mixture of a sound group's aspects is accepted if and only if it is covered and one aspect has all
    // that it shows, whatever else is found. Its packets are then the packets of that aspect.
    ensures mixtures { IfOk result (λ v. (g : ℕ) (aspects : Aspects) (run : Run)
        (shown : ℕ → Option ℕ) → At v.line.groups.items g aspects → IsSoundControlled aspects
        → Fits aspects shown → IsMixtureDecided run aspects shown) }

    // An empty input and an input that is not UTF-8 are not JSON, even if memory is short.
    ensures empty { bytes.now ≡ [] → result ≡ Err LineError.NotJson }
    ensures unreadable { is_utf8 bytes.now ≡ false → result ≡ Err LineError.NotJson }
{
    let line = read_line(alloc, bytes)?;
    let findings = check(alloc, &line)?;
    Ok(Verdict { line, findings })
}
