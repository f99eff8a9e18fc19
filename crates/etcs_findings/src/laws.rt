//! Laws of answers, for users. Each law is the contract of a function that does nothing. A number in an answer has at
//! most 64 bits there, as every number has that the program counts.

ghost use Rattle.etcs_findings.specs.Laws.{AnswersAreJson, AnswersHaveTextsOfTheirOwn, YesMeansSoundText};

use etcs_document::laws::no_finding_means_sound_text;

/// The text of each answer is JSON: a reader of JSON gets the members and the lists that `specs/Answer.antt` defines.
pub fn answers_are_json()
    ensures { AnswersAreJson }
{}

/// Two answers with the same text are equal. So the text determines the verdict, the counts and each finding, or each
/// part of the refusal.
pub fn answers_have_texts_of_their_own()
    ensures { AnswersHaveTextsOfTheirOwn }
{}

/// The verdict is yes if and only if the bytes are the document of a sound line, so if and only if the report of `check`
/// is a yes.
pub fn yes_means_sound_text()
    ensures { YesMeansSoundText }
{
    no_finding_means_sound_text();
}
