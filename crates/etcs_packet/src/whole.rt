//! `next_whole`: reads a head and the packets after it, as telegrams and messages have them.

ghost use Rattle.std.specs.Prelude.{◌≡◌, Err, IfOk, OnErr};
ghost use Rattle.etcs_bits.specs.declared.layout.fault.Fault.{Fault};
ghost use Rattle.etcs_bits.specs.layout.Fault.{IsFault};
ghost use Rattle.etcs_bits.specs.layout.Results.{Gives, IfFault, IfMemory};
ghost use Rattle.etcs_packet.specs.Lists.{IsHeaded};
ghost use Rattle.etcs_packet.specs.Whole.{IsFollowed, HeadAndListStand, IsWholeFault, NoHeadAndListStands};
ghost use Rattle.etcs_packet.specs.Reading.{read_whole};

use crate::list::read_items;
use crate::stop::Stop;
use etcs_bits::{Cursor, DecodeError, Layout};
use std::alloc::Global;

/// Reads the head at the cursor and the packets after it. The cursor then stands where the packets
/// end: at the end mark, or at the bits that are left.
///
/// An answered fault is the first one of the head and the packets. No input of the same length with
/// the same first `end` bits has such a head and packets at this place. If memory runs out, a fault
/// may go unseen. After an error the cursor stands where it stood.
pub fn next_whole<H: Layout, T: Layout>(
    alloc: Global,
    cur: &mut Cursor<'_>,
    stop: Stop,
) -> Result<(H, Vec<T>), DecodeError>
    requires { IsHeaded T.format.fields }
    ensures ok { IfOk result (λ w. HeadAndListStand stop H.format.rows T.format.rows w.0 w.1.items cur.old cur.new) }

    ensures fault { IfFault result (λ f. IsWholeFault stop H.format.fields T.format.fields cur.old f) }
    ensures none { IfFault result (λ f. NoHeadAndListStands stop H.format.rows T.format.rows cur.old f) }
    ensures err { OnErr result (cur.new ≡ cur.old) }

    // The result, as a function of the bits.
    ensures exact { Gives (λ w. (w.0, w.1.items)) result
        (read_whole stop H.format.fields H.format.of T.format.fields T.format.of cur.old) cur.new }

    // A fault of a head that does not grow here is always answered: reading such a head takes no memory.
    ensures head { (H.grows cur.old → ⊥) → (f : Fault) → IsFault H.format.fields cur.old f
        → result ≡ Err (DecodeError.Fault f) }

    // Behind such a head memory is asked for only where a packet is due.
    ensures memory { (H.grows cur.old → ⊥) → IfMemory result (IsFollowed stop H.format.rows cur.old) }
{
    let mut ahead = cur.fork();
    let head = H::read(alloc, &mut ahead)?;
    let items = read_items(alloc, &mut ahead, stop)?;
    *cur = ahead;
    Ok((head, items))
}
