//! `decode`: from bits to a telegram.

ghost use Rattle.std.specs.Prelude.{◌≡◌, Err, IfOk};
ghost use Rattle.etcs_bits.specs.declared.layout.fault.Fault.{Fault};
ghost use Rattle.etcs_bits.specs.layout.Fault.{IsFault};
ghost use Rattle.etcs_bits.specs.layout.Results.{IfFault, IfMemory, Means};
ghost use Rattle.etcs_packet.specs.Whole.{IsFollowed, start};
ghost use Rattle.etcs_telegram.specs.Header.{header};
ghost use Rattle.etcs_telegram.specs.Telegram.{AreUserBits, IsNoTelegram, IsTelegram, IsTelegramFault};
ghost use Rattle.etcs_telegram.specs.Meaning.{read_telegram};

use crate::size::Size;
use crate::telegram::Telegram;
use etcs_bits::{BitSlice, Bits, Cursor, DecodeError};
use etcs_packet::{Stop, next_whole};
use std::alloc::Global;

// The telegram that borrowed bits spell, as `decode` reads it.
pub(crate) fn decode_slice(alloc: Global, bits: BitSlice<'_>) -> Result<Telegram, DecodeError>
    requires { AreUserBits bits }
    ensures ok { IfOk result (λ t. IsTelegram t bits.entry) }

    ensures fault { IfFault result (λ f. IsTelegramFault bits.entry f) }
    ensures none { IfFault result (λ f. IsNoTelegram bits.entry f) }

    // The result, as a function of the bits.
    ensures exact { Means (λ t. t) result (read_telegram bits.entry) }

    // The header's fault is always reported: reading the header needs no memory.
    ensures header { (f : Fault) → IsFault header.fields (start bits.entry) f
        → result ≡ Err (DecodeError.Fault f) }

    // Allocates only if a packet is due after the header.
    ensures memory { IfMemory result (IsFollowed Stop.Telegram header.rows (start bits.entry)) }
{
    let size = Size::of_len(bits.len()).unwrap();
    let mut cur = Cursor::over(bits);
    let (header, packets) = next_whole(alloc, &mut cur, Stop::Telegram)?;
    Ok(Telegram {
        size,
        header,
        packets,
    })
}

/// Reads the telegram that 210 or 830 user bits spell (SUBSET-026, 8.4.2). Bits after the end mark
/// are ignored.
///
/// A fault that is returned is the first one in the bits. Then no input of the same length with the
/// same first `end` bits spells a telegram. Only packets allocate. If memory runs out, a fault after
/// the header might be unreported. After an error nothing is returned of what was read.
pub fn decode(alloc: Global, bits: &Bits) -> Result<Telegram, DecodeError>
    requires { AreUserBits bits.now }
    ensures ok { IfOk result (λ t. IsTelegram t bits.now) }

    ensures fault { IfFault result (λ f. IsTelegramFault bits.now f) }
    ensures none { IfFault result (λ f. IsNoTelegram bits.now f) }

    // The result, as a function of the bits.
    ensures exact { Means (λ t. t) result (read_telegram bits.now) }

    // The header's fault is always reported: reading the header needs no memory.
    ensures header { (f : Fault) → IsFault header.fields (start bits.now) f
        → result ≡ Err (DecodeError.Fault f) }

    // Allocates only if a packet is due after the header. So a telegram without
    // packets is always read.
    ensures memory { IfMemory result (IsFollowed Stop.Telegram header.rows (start bits.now)) }
{
    decode_slice(alloc, bits.slice())
}
