//! `read_items` and `write_items`: lists of packets of any kind, as telegrams and messages have them.

ghost use Rattle.std.specs.Prelude.{◌≡◌, ◌⊎◌, ◌+◌, ◌<◌, ◌≤◌, ◌++◌, ◌∷◌, [], length, true, false, Err, IfOk, IsOk, OnOk, OnErr};
ghost use Rattle.std.specs.List.{flat_map};
ghost use Rattle.etcs_bits.specs.layout.Rows.{AreAllowed, join};
ghost use Rattle.etcs_bits.specs.layout.Fault.{IsFault, lack};
ghost use Rattle.etcs_bits.specs.layout.Reading.{read_rows};
ghost use Rattle.etcs_bits.specs.layout.Results.{Gives, IfFault, IfMemory};
ghost use Rattle.etcs_packet.specs.Lists.{IsHeaded, IsListFault, IsStep, NoStep, NoneStand, Stand, ends};
ghost use Rattle.etcs_packet.specs.Reading.{read_list};

use crate::stop::Stop;
use etcs_bits::{Bits, Cursor, DecodeError, FaultKind, Layout, Memory, refused};
use std::alloc::Global;

// How many packets have room made for them at once.
const FEW: usize = 7;

/// Whether the list ends at the cursor. Takes no memory.
#[inline]
pub(crate) fn is_end(cur: &Cursor<'_>, stop: Stop) -> bool
    ensures value { result ≡ ends stop cur.now }
    ensures inside { cur.now.at ≤ length cur.now.bits }
{
    match cur.fork().take(8) {
        Ok(number) => number == 255,
        Err(_) => match stop {
            Stop::Telegram => false,
            Stop::Message => true,
        },
    }
}

// Reads the packet at the cursor. The cursor then stands after the packet. The result is `None`
// where the list ends.
//
// An answered fault is the first one of the packet that is due. No input of the same length with
// the same first `end` bits has a packet or the end of the list at this place. Fewer than eight
// bits in a telegram are a NoEnd fault. If memory runs out, a fault may go unseen. After an error
// the cursor stands where it stood.
fn next_item<T: Layout>(
    alloc: Global,
    cur: &mut Cursor<'_>,
    stop: Stop,
) -> Result<Option<T>, DecodeError>
    requires { IsHeaded T.format.fields }
    ensures ok { IfOk result (λ o. IsStep stop T.format.rows o cur.old cur.new) }

    ensures fault { IfFault result (λ f. (ends stop cur.old ≡ false) × IsFault T.format.fields cur.old f) }
    ensures none { IfFault result (λ f. NoStep stop T.format.rows cur.old f) }
    ensures err { OnErr result (cur.new ≡ cur.old) }

    // This NoEnd fault is always answered: finding it takes no memory.
    ensures no_end { stop ≡ Stop.Telegram → length cur.old.bits < cur.old.at + 8
        → result ≡ Err (DecodeError.Fault (lack true cur.old)) }

    // Neither the end of the list nor a record that does not grow here takes memory.
    ensures memory { IfMemory result ((ends stop cur.old ≡ false) × T.grows cur.old) }
{
    if is_end(cur, stop) {
        return Ok(None);
    }
    if cur.left() < 8 {
        return Err(refused(cur.at(), cur, FaultKind::NoEnd));
    }
    let item = T::read(alloc, cur)?;
    Ok(Some(item))
}

// Appends an item. Room is made for a few at once: most lists have fewer, and are not moved then.
fn append<T: Drop>(found: &mut Vec<T>, item: T) -> Result<(), Memory>
    ensures items { OnOk result (found.new.items ≡ found.old.items ++ item ∷ []) }
{
    if found.is_empty() {
        found.reserve(FEW)?;
    }
    found.push(item)?;
    Ok(())
}

/// Reads the packets from the cursor up to the end of the list. The cursor then stands at that end:
/// at the end mark, or at the bits that are left.
///
/// An answered fault is the first one of the list. No input of the same length with the same first
/// `end` bits has a list at this place. If memory runs out, a fault may go unseen. After an error
/// the cursor stands where it stood.
pub fn read_items<T: Layout>(
    alloc: Global,
    cur: &mut Cursor<'_>,
    stop: Stop,
) -> Result<Vec<T>, DecodeError>
    requires { IsHeaded T.format.fields }
    ensures ok { IfOk result (λ v. Stand stop T.format.rows v.items cur.old cur.new) }

    ensures fault { IfFault result (λ f. IsListFault stop T.format.fields cur.old f) }
    ensures none { IfFault result (λ f. NoneStand stop T.format.rows cur.old f) }
    ensures err { OnErr result (cur.new ≡ cur.old) }

    // The result, as a function of the bits.
    ensures exact { Gives (λ v. v.items) result
        (read_list stop T.format.fields T.format.of cur.old) cur.new }

    // This NoEnd fault is always answered: finding it takes no memory.
    ensures no_end { stop ≡ Stop.Telegram → length cur.old.bits < cur.old.at + 8
        → result ≡ Err (DecodeError.Fault (lack true cur.old)) }

    // An empty list takes no memory.
    ensures memory { IfMemory result (ends stop cur.old ≡ false) }

    // Nor does a fault of the first packet, if the packet does not grow here.
    ensures first { IfMemory result (T.grows cur.old ⊎ IsOk (read_rows T.format.fields cur.old)) }
{
    let mut ahead = cur.fork();
    let mut found = Vec::new(alloc);
    while let Some(item) = next_item(alloc, &mut ahead, stop)? {
        append(&mut found, item)?;
    }
    *cur = ahead;
    Ok(found)
}

/// Appends the spellings of allowed packets, one after the other. No end mark is appended. If
/// memory runs out, nothing is appended.
pub fn write_items<T: Layout>(items: &[T], out: &mut Bits) -> Result<(), Memory>
    requires { AreAllowed (flat_map T.format.rows items.now) }
    ensures ok { OnOk result (out.new ≡ out.old ++ join (flat_map T.format.rows items.now)) }
    ensures err { OnErr result (out.new ≡ out.old) }

    // To write no packets takes no memory.
    ensures memory { OnErr result (0 < length items.now) }
{
    let len = out.len();
    'items: for item in items {
        let done = item.write(out);
        if done.is_err() {
            out.truncate(len);
            return done;
        }
    }
    Ok(())
}
