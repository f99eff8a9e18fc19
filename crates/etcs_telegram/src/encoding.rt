//! `encode`: from a telegram to bits.

ghost use Rattle.std.specs.Prelude.{◌≡◌, ◌↔◌, ◌-◌, ◌≤◌, ◌++◌, min, true, length, replicate, IfOk, IsErrOf, OnOk};
ghost use Rattle.etcs_telegram.specs.Sizes.{user_bits};
ghost use Rattle.etcs_telegram.specs.Telegram.{IsEncoding, IsTooBig, used_bits};

use crate::error::EncodeError;
use crate::telegram::Telegram;
use etcs_bits::{Bits, Layout, Memory, width_of};
use etcs_packet::write_packets;
use std::alloc::Global;

// Fills the bits up with ones, to `len` bits.
fn fill(bits: &mut Bits, len: usize) -> Result<(), Memory>
    requires { length bits.old ≤ len }
    ensures { OnOk result (bits.new ≡ bits.old ++ replicate (len - length bits.old) true) }
{
    'filling: while bits.len() < len {
        let width = (len - bits.len()).min(32) as u32;
        bits.push_num(width, (1 << width) - 1)?;
    }
    Ok(())
}

// The number of bits of the header, the packets and the end mark; `u64::MAX` if they have more.
fn used_width(telegram: &Telegram) -> u64
    ensures { result ≡ min (used_bits telegram.now) u64.MAX }
{
    width_of(telegram.packets.as_slice()).saturating_add(58)
}

// Writes the header, the packets and the end mark, and fills up with ones.
fn write(alloc: Global, telegram: &Telegram) -> Result<Bits, Memory>
    requires { used_bits telegram.now ≤ user_bits telegram.now.size }
    ensures { IfOk result (λ b. IsEncoding telegram.now b) }
{
    let allowed = telegram.header.is_allowed();
    prove!(allowed);
    let mut bits = Bits::new(alloc);
    telegram.header.write(&mut bits)?;
    write_packets(telegram.packets.as_slice(), &mut bits)?;
    bits.push_num(8, 255)?;
    fill(&mut bits, telegram.size.user_bits())?;
    Ok(bits)
}

/// Writes the telegram's user bits: 210 or 830, by its size. Ones fill them up after the end mark
/// (this project's rule).
///
/// `TooBig`: the header, the packets and the end mark have more bits than the telegram's size. This
/// is checked before the call allocates. After an error the record is unchanged, and no bit is
/// returned.
pub fn encode(alloc: Global, telegram: &Telegram) -> Result<Bits, EncodeError>
    ensures ok { IfOk result (λ b. IsEncoding telegram.now b) }
    ensures too_big { IsErrOf result EncodeError.TooBig ↔ IsTooBig telegram.now }
{
    if used_width(telegram) > telegram.size.user_bits() as u64 {
        return Err(EncodeError::TooBig);
    }
    Ok(write(alloc, telegram)?)
}
