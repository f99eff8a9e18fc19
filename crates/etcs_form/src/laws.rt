//! Laws of forms and of documents, for users. They hold for any reader and any writer. Each law is the
//! contract of a function that does nothing.

pub use etcs_document::laws::{no_finding_means_sound_text, no_finding_says_yes};
pub use etcs_json::laws::{
    messages_are_read_again, messages_have_forms_of_their_own, telegrams_are_read_again,
    telegrams_have_forms_of_their_own,
};
