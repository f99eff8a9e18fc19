//! The JSON forms of telegrams and of radio messages: `Form` for `Telegram`, `Message` and their parts.

pub(crate) mod message_form;
pub(crate) mod movement_form;
pub(crate) mod position_form;
pub(crate) mod telegram_form;
