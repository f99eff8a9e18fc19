//! `Fields`, the head of a message of either kind, and `scan_head`, which reads it.

ghost use Rattle.std.specs.Prelude.{◌≡◌, ◌<◌, IsTrue, OnOk};
ghost use Rattle.etcs_bits.specs.layout.Choice.{read_chosen, numbered_rows};
ghost use Rattle.etcs_bits.specs.layout.Reading.{read_rows};
ghost use Rattle.etcs_bits.specs.layout.Results.{Gives, IfMemory};
ghost use Rattle.etcs_radio.specs.Head.{head, l_message, head_numbered};
ghost use Rattle.etcs_radio.specs.HeadView.{head_value};

use crate::lrbg::Lrbg;
use etcs_bits::{Cursor, DecodeError, FaultKind, Layout, Plain, refused};
use std::alloc::Global;

// T_TRAIN, M_ACK and NID_LRBG of message 3.
pub(crate) type MovementFields = (Plain<32>, (bool, Lrbg));

// T_TRAIN and NID_ENGINE of message 136.
pub(crate) type PositionFields = (Plain<32>, Plain<24>);

// The fields of a head after NID_MESSAGE and L_MESSAGE.
#[derive(Debug, Drop)]
pub(crate) enum Fields {
    OfMovement(MovementFields),
    OfPosition(PositionFields),
}

// Reads L_MESSAGE, which must be `count`.
#[tactic(auto, unfolding(etcs_bits::specs::layout::Rows::alone))]
fn scan_length(cur: &mut Cursor<'_>, count: usize) -> Result<(), DecodeError>
    ensures gives { Gives (λ _. (l_message count).rows tt) result
        (read_rows (l_message count).fields cur.old) cur.new }
    ensures small { OnOk result (count < 1024) }
    ensures memory { IfMemory result ⊥ }
{
    let at = cur.at();
    if cur.take(10)? == count as u64 {
        Ok(())
    } else {
        Err(refused(at, cur, FaultKind::Length))
    }
}

// Reads what follows NID_MESSAGE in a message of `count` bytes. After an error the cursor is at an
// unspecified position.
fn scan_rest(
    alloc: Global,
    number: u64,
    count: usize,
    cur: &mut Cursor<'_>,
) -> Result<Fields, DecodeError>
    requires { IsTrue ((head_numbered count).allows number) }
    ensures gives { Gives (λ h. numbered_rows (head_numbered count) (head_value h)) result
        (read_chosen (head_numbered count) number cur.old) cur.new }
    ensures small { OnOk result (count < 1024) }
    ensures memory { IfMemory result ⊥ }
{
    scan_length(cur, count)?;
    if number == 3 {
        Ok(Fields::OfMovement(Layout::scan(alloc, cur)?))
    } else {
        Ok(Fields::OfPosition(Layout::scan(alloc, cur)?))
    }
}

// Reads the head of a message of `count` bytes. After an error the cursor is at an unspecified position.
#[tactic(auto, unfolding(etcs_bits::specs::layout::Rows::alone))]
pub(crate) fn scan_head(
    alloc: Global,
    count: usize,
    cur: &mut Cursor<'_>,
) -> Result<Fields, DecodeError>
    ensures gives { Gives (λ h. (head count).rows (head_value h)) result
        (read_rows (head count).fields cur.old) cur.new }
    ensures small { OnOk result (count < 1024) }
    ensures same { OnOk result (cur.new.bits ≡ cur.old.bits) }

    // A head contains no list.
    ensures memory { IfMemory result ⊥ }
{
    let at = cur.at();
    let number = cur.take(8)?;
    if number != 3 && number != 136 {
        return Err(refused(at, cur, FaultKind::MessageKind));
    }
    scan_rest(alloc, number, count, cur)
}
