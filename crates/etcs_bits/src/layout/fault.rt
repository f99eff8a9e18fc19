//! `FaultKind`, `Fault` and `DecodeError`: why bits spell no record, and the texts of these errors.

ghost use Rattle.std.specs.Prelude.{◌≡◌, Some};
ghost use Rattle.etcs_bits.specs.declared.layout.fault.DecodeError.TheVariants as errors;

use crate::bits::cursor::Cursor;
use crate::bits::memory::Memory;
use std::alloc::AllocFailed;
use std::error::Error;
use std::fmt;

/// What is wrong at the place of a field, by the standard's tables of variables, packets and
/// messages (SUBSET-026, 7.4, 7.5 and 8.4 to 8.7) and this project's rules. The program prints the
/// same words.
#[derive(Clone, Copy, Debug, PartialEq, Eq)]
pub enum FaultKind {
    /// The field does not fit in the bits that are left.
    Short,
    /// The field holds a spare value, one that the standard gives no meaning.
    Spare,
    /// L_PACKET is not the width of its packet, or L_MESSAGE not the count of bytes.
    Length,
    /// Fewer than eight bits are left where the next packet or the end mark (packet 255) is due.
    NoEnd,
    /// M_VERSION is neither 32 nor 33: it is a system version other than 2.0 and 2.1.
    Version,
    /// Q_MEDIA is 1: the telegram is for a loop.
    Loop,
    /// Q_UPDOWN is 0: the telegram goes from train to track.
    Downlink,
    /// NID_MESSAGE is neither 3 nor 136.
    MessageKind,
    /// A movement authority message holds no packet 15.
    NoAuthority,
    /// A position report message holds neither packet 0 nor packet 1.
    NoReport,
}

impl fmt::Display for FaultKind {
    ghost use Rattle.etcs_bits.specs.layout.FaultWords.{kind_words};

    ghost output = { λ kind. Some (kind_words kind) };

    fn fmt<W: fmt::Write>(&self, f: &mut fmt::Formatter<W>) -> fmt::Result {
        let words = match self {
            FaultKind::Short => "short",
            FaultKind::Spare => "spare",
            FaultKind::Length => "length",
            FaultKind::NoEnd => "no end",
            FaultKind::Version => "version",
            FaultKind::Loop => "loop",
            FaultKind::Downlink => "down-link",
            FaultKind::MessageKind => "message kind",
            FaultKind::NoAuthority => "no authority",
            FaultKind::NoReport => "no report",
        };
        write!(f, "{words}")
    }
}

impl Error for FaultKind {}

/// The first fault of an input, printed as `spare at 15 end 17`.
///
/// No input of the same length that begins with the same first `end` bits is accepted. Places count
/// bits from 0 at the start of the input.
#[derive(Clone, Copy, Debug, PartialEq, Eq)]
pub struct Fault {
    /// The first bit of the field at whose place the fault is found.
    pub at: usize,
    /// The number of bits of the input, from its start, that decide the fault.
    pub end: usize,
    /// What is wrong there.
    pub why: FaultKind,
}

impl fmt::Display for Fault {
    ghost use Rattle.etcs_bits.specs.layout.FaultWords.{fault_words};

    ghost output = { λ fault. Some (fault_words fault) };

    fn fmt<W: fmt::Write>(&self, f: &mut fmt::Formatter<W>) -> fmt::Result {
        let Fault { at, end, why } = *self;
        write!(f, "{why} at {at} end {end}")
    }
}

impl Error for Fault {}

/// Why bits were not decoded.
#[derive(Clone, Copy, Debug, PartialEq, Eq, thiserror::Error)]
pub enum DecodeError {
    /// Memory ran out. A later fault may then go unseen.
    #[error("out of memory")]
    Memory,
    /// The bits spell no record; this is their first fault.
    #[error("{0}")]
    Fault(Fault),
}

impl From<Fault> for DecodeError {
    ghost from_gives = { λ fault error. error ≡ errors.Fault fault };

    fn from(fault: Fault) -> DecodeError {
        DecodeError::Fault(fault)
    }
}

impl From<Memory> for DecodeError {
    ghost from_gives = { λ _ error. error ≡ errors.Memory };

    fn from(_memory: Memory) -> DecodeError {
        DecodeError::Memory
    }
}

impl<T: Drop> From<AllocFailed<T>> for DecodeError {
    ghost from_gives = { λ _ error. error ≡ errors.Memory };

    fn from(_failed: AllocFailed<T>) -> DecodeError {
        DecodeError::Memory
    }
}

/// The fault `why` of the field that begins at `at` and ends at the cursor, as a reader's error.
#[cold]
pub fn refused(at: usize, cur: &Cursor<'_>, why: FaultKind) -> DecodeError
    ensures { result ≡ DecodeError.Fault (record { at = at; end = cur.now.at; why = why }) }
{
    DecodeError::Fault(Fault {
        at,
        end: cur.at(),
        why,
    })
}
