//! Laws of forms, for users. They hold for any reader and any writer. Each law is the contract of a function
//! that does nothing.

ghost use Rattle.etcs_json.specs.Laws.{MessagesAreReadAgain, MessagesHaveFormsOfTheirOwn, TelegramsAreReadAgain, TelegramsHaveFormsOfTheirOwn};

/// The form of a telegram is read as that telegram, if none of its numbers is spare. The text of the form
/// is read as the form. Each value of `etcs_telegram::Telegram` is such a telegram.
pub fn telegrams_are_read_again()
    ensures { TelegramsAreReadAgain }
{}

/// Two telegrams with one form are equal, if none of their numbers is spare.
pub fn telegrams_have_forms_of_their_own()
    ensures { TelegramsHaveFormsOfTheirOwn }
{}

/// The form of a radio message is read as that message, if none of its numbers is spare and it
/// contains the packet that it must contain. The text of the form is read as the form. Each value of
/// `etcs_radio::Message` is such a message.
pub fn messages_are_read_again()
    ensures { MessagesAreReadAgain }
{}

/// Two radio messages with one form are equal, if none of their numbers is spare and each contains
/// the packet that it must contain.
pub fn messages_have_forms_of_their_own()
    ensures { MessagesHaveFormsOfTheirOwn }
{}
