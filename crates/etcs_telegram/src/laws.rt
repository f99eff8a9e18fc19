//! Laws of telegrams, their bits and their texts, for users. They hold for any reader and any
//! writer. Each law is the contract of a function that does nothing.

ghost use Rattle.std.specs.Prelude.{◌≡◌, ◌≢◌, ◌↔◌, ℕ, List, Bool, Ok, Err};
ghost use Rattle.etcs_bits.specs.declared.layout.fault.Fault.{Fault};
ghost use Rattle.etcs_telegram.specs.Laws.{IsCompleteSpelling};
ghost use Rattle.etcs_telegram.specs.Meaning.{read_telegram};
ghost use Rattle.etcs_telegram.specs.Record.{Telegram};
ghost use Rattle.etcs_telegram.specs.Telegram.{AreUserBits, IsTelegram, IsTelegramFault, IsNoTelegram, IsEncoding, canonical_bits};
ghost use Rattle.etcs_telegram.specs.Text.{IsTelegramText, IsCanonicalText, IsReason};
ghost use Rattle.etcs_telegram.specs.TextMeaning.{telegram_of_text};

use crate::error::TextError;

/// Bits are a telegram if and only if they mean that telegram and there are as many of them as some
/// telegram has. So they are one telegram at most.
pub fn telegrams_are_decoded()
    ensures { (t : Telegram) (bits : List Bool)
        → IsTelegram t bits ↔ (AreUserBits bits × (read_telegram bits ≡ Ok t)) }
{}

/// Bits have a fault if and only if they mean that fault. So they have one at most. Then they are not
/// a telegram, and no bits of the same number with the same first `end` bits are one.
pub fn faults_are_meant()
    ensures fault { (bits : List Bool) (f : Fault)
        → IsTelegramFault bits f ↔ (read_telegram bits ≡ Err f) }
    ensures none { (bits : List Bool) (f : Fault) → IsTelegramFault bits f → IsNoTelegram bits f }
{}

/// Bits are a telegram if and only if they are its header, its packets, the end mark and a fill, there
/// are as many of them as its size has, and none of its numbers is spare.
pub fn telegrams_are_spelled_out()
    ensures { (t : Telegram) (bits : List Bool) → IsTelegram t bits ↔ IsCompleteSpelling t bits }
{}

/// A decoded telegram is never too big. It has an encoding: the same bits with ones as the fill.
pub fn what_is_decoded_is_encoded()
    ensures { (t : Telegram) (bits : List Bool)
        → IsTelegram t bits → IsEncoding t (canonical_bits t) }
{}

/// The encoding of a telegram is that telegram.
pub fn encodings_are_telegrams()
    ensures { (t : Telegram) (bits : List Bool) → IsEncoding t bits → IsTelegram t bits }
{}

/// An encoding is decoded to the telegram that was encoded.
pub fn what_is_encoded_is_decoded()
    ensures { (t : Telegram) (bits : List Bool) → IsEncoding t bits → read_telegram bits ≡ Ok t }
{}

/// Two telegrams have equal encodings if and only if they are equal.
pub fn encodings_are_one_to_one()
    ensures telegrams { (t u : Telegram) (bits : List Bool)
        → IsEncoding t bits → IsEncoding u bits → t ≡ u }
    ensures encodings { (t : Telegram) (a b : List Bool)
        → IsEncoding t a → IsEncoding t b → a ≡ b }
{}

/// A text is a telegram if and only if it means that telegram. So it is one telegram at most.
pub fn texts_are_read()
    ensures { (t : Telegram) (text : List ℕ)
        → IsTelegramText t text ↔ (telegram_of_text text ≡ Ok t) }
{}

/// A text is refused for a reason, other than lack of memory, if and only if it means that reason. So
/// it has one reason at most.
pub fn reasons_are_read()
    ensures { (e : TextError) (text : List ℕ) → e ≢ TextError.Memory
        → IsReason e text ↔ (telegram_of_text text ≡ Err e) }
{}

/// The canonical text of a telegram is read as that telegram.
pub fn what_is_written_is_read()
    ensures { (t : Telegram) (text : List ℕ)
        → IsCanonicalText t text → telegram_of_text text ≡ Ok t }
{}

/// Two telegrams have equal canonical texts if and only if they are equal.
pub fn texts_are_one_to_one()
    ensures telegrams { (t u : Telegram) (text : List ℕ)
        → IsCanonicalText t text → IsCanonicalText u text → t ≡ u }
    ensures texts { (t : Telegram) (a b : List ℕ)
        → IsCanonicalText t a → IsCanonicalText t b → a ≡ b }
{}
