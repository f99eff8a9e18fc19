//! The JSON forms of packets, and of the variables and parts that they are made of.

pub(crate) mod authority_form;
pub(crate) mod authority_parts;
pub(crate) mod body_form;
pub(crate) mod body_text;
pub(crate) mod cover_form;
pub(crate) mod integrity_form;
pub(crate) mod level_form;
pub(crate) mod number_forms;
pub(crate) mod raw_form;
pub(crate) mod raw_train_form;
pub(crate) mod report_form;
pub(crate) mod terms_form;
pub(crate) mod track_form;
pub(crate) mod train_form;
pub(crate) mod transition_form;
