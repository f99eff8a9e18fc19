//! `Fault`: why a record is refused, and the place of its first fault.

ghost use Rattle.std.specs.Prelude.{◌≡◌};
ghost use Rattle.balisecheck_c.specs.Fault.{bit_fault, kind_number, text_fault};

use etcs_bits::FaultKind;

/// Why a record is refused, as C reads it.
#[repr(C)]
#[derive(Clone, Copy)]
pub struct Fault {
    /// The number of the reason: 0 if the record is not refused.
    pub reason: u32,
    /// The first bit of the field with the fault, or 0 if the text spells no bits.
    pub at: usize,
    /// How many bits of the record decide the fault, or 0 if the text spells no bits.
    pub end: usize,
}

// The number of the reason.
fn number(why: FaultKind) -> u32
    ensures { result ≡ kind_number why }
{
    match why {
        FaultKind::Short => 10,
        FaultKind::Spare => 11,
        FaultKind::Length => 12,
        FaultKind::NoEnd => 13,
        FaultKind::Version => 14,
        FaultKind::Loop => 15,
        FaultKind::Downlink => 16,
        FaultKind::MessageKind => 17,
        FaultKind::NoAuthority => 18,
        FaultKind::NoReport => 19,
    }
}

impl Fault {
    /// A fault of the text, which has no place among the bits.
    pub fn of_text(reason: u32) -> Fault
        ensures { result ≡ text_fault reason }
    {
        Fault {
            reason,
            at: 0,
            end: 0,
        }
    }

    /// A fault of the bits.
    pub fn of_bits(fault: etcs_bits::Fault) -> Fault
        ensures { result ≡ bit_fault fault }
    {
        Fault {
            reason: number(fault.why),
            at: fault.at,
            end: fault.end,
        }
    }
}
