//! `Number`: NID_PACKET of a packet whose number is fixed. `scan_number` reads any packet's number.

ghost use Rattle.std.specs.Prelude.{◌≡◌, ◌==◌, ◌<◌, true, not, IfOk};
ghost use Rattle.etcs_bits.specs.layout.Reading.{read_field};
ghost use Rattle.etcs_bits.specs.layout.Results.{Gives, IfMemory};
ghost use Rattle.etcs_profile.specs.PacketNumbers.{nid_track};

use etcs_bits::{Bits, Cursor, DecodeError, Fault, FaultKind, Layout, Memory, refused};
use std::alloc::Global;

/// NID_PACKET, 8 bits, where it must be `N`. Any other number is a Spare fault (SUBSET-026, 7.5.1).
#[derive(Clone, Copy, Debug, PartialEq, Eq)]
pub struct Number<const N: u32>;

/// The fault where the number is that of another packet.
#[cold]
pub(crate) fn other_packet(at: usize, end: usize) -> DecodeError
    ensures { result ≡ DecodeError.Fault (record { at = at; end = end; why = FaultKind.Spare }) }
{
    DecodeError::Fault(Fault {
        at,
        end,
        why: FaultKind::Spare,
    })
}

#[tactic(auto, unfolding(etcs_bits::specs::layout::Rows::alone))]
impl<const N: u32> Layout for Number<N> {
    ghost use Rattle.std.specs.Prelude.{refl};
    ghost use Rattle.etcs_bits.specs.layout.Format.{named};
    ghost use Rattle.etcs_profile.specs.Packet.{nid_packet};

    ghost format = { named (nid_packet N) (λ _. record {}) (λ _. tt) (λ _. refl) (λ _. refl) };

    ghost fit = { λ _. N < 256 };

    fn is_allowed(&self) -> bool {
        N < 256
    }

    fn width(&self) -> u64 {
        8
    }

    fn put(&self, out: &mut Bits) -> Result<(), Memory> {
        out.push_num(8, u64::from(N))
    }

    #[inline]
    fn scan(_alloc: Global, cur: &mut Cursor<'_>) -> Result<Self, DecodeError> {
        let at = cur.at();
        if cur.take(8)? == u64::from(N) {
            Ok(Number)
        } else {
            Err(other_packet(at, cur.at()))
        }
    }
}

/// Reads NID_PACKET of a packet in a list. 255, the end mark, is spare here. Fewer than eight bits are
/// a NoEnd fault. After an error the cursor may stand anywhere.
#[inline]
pub fn scan_number(cur: &mut Cursor<'_>) -> Result<u64, DecodeError>
    ensures gives { Gives (λ n. n) result (read_field nid_track cur.old) cur.new }
    ensures number { IfOk result (λ n. (n < 256) × (not (n == 255) ≡ true)) }

    // Looking at the number takes no memory.
    ensures memory { IfMemory result ⊥ }
{
    let at = cur.at();
    match cur.take(8) {
        Ok(255) => Err(refused(at, cur, FaultKind::Spare)),
        Ok(number) => Ok(number),
        // No end mark fits in the bits that are left.
        Err(_) => Err(DecodeError::Fault(Fault {
            at,
            end: at,
            why: FaultKind::NoEnd,
        })),
    }
}
