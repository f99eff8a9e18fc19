//! `Items`: a list of at most 31 records after N_ITER, its count.

ghost use Rattle.std.specs.Prelude.{◌≡◌, ◌↔◌, ◌<◌, ◌≤◌, min, length, IsTrue, IfOk};
ghost use Rattle.std.specs.List.{AllByRecursion, flat_map};
ghost use Rattle.etcs_bits.specs.layout.Rows.{AreAllowed, join, width};
ghost use Rattle.etcs_bits.specs.layout.Fields.{times};
ghost use Rattle.etcs_bits.specs.layout.Reading.{read_rows};
ghost use Rattle.etcs_bits.specs.layout.Results.{Gives, IfMemory, Puts};

use crate::bits::Bits;
use crate::bits::cursor::Cursor;
use crate::bits::memory::Memory;
use crate::layout::Layout;
use crate::layout::fault::DecodeError;
use crate::layout::same::{Same, are_same};
use std::alloc::Global;
use std::marker::Model;

/// The items after N_ITER, such as the sections of a packet. N_ITER has 5 bits and is the number of
/// items (SUBSET-026, 7.4 and 7.5.1). A list of more than 31 is not allowed. Contracts see it as a
/// list.
#[derive(Debug, Drop)]
pub struct Items<T> {
    items: Vec<T>,
}

impl<T> Model for Items<T> {
    ghost use Rattle.std.specs.Prelude.{List};

    ghost Value = { List T };

    ghost view = { λ l. l.items.items };
}

impl<T> Items<T> {
    /// The list of these items, in this order. A list of more than 31 is not allowed.
    #[inline]
    pub fn new(items: Vec<T>) -> Items<T>
        ensures { result ≡ items.items }
    {
        // More than 31 make a list too: `is_allowed` refuses it.
        Items { items }
    }

    /// The items, in order, without their count.
    #[inline]
    pub fn as_slice(&self) -> &[T]
        ensures { result.now ≡ self.now }
    {
        // Their count, N_ITER, is not one of them.
        self.items.as_slice()
    }
}

/// Whether each item is allowed. Takes no memory.
pub fn are_allowed<T: Layout>(items: &[T]) -> bool
    ensures allowed { IsTrue result ↔ AreAllowed (flat_map T.format.rows items.now) }
    ensures fit { IsTrue result ↔ AllByRecursion T.fit items.now }
{
    'items: for item in items {
        if !item.is_allowed() {
            return false;
        }
    }
    true
}

/// The number of bits of the items, one after the other; `u64::MAX` if they have more.
pub fn width_of<T: Layout>(items: &[T]) -> u64
    ensures { result ≡ min (width (flat_map T.format.rows items.now)) u64.MAX }
{
    let mut sum = 0u64;
    'items: for item in items {
        sum = sum.saturating_add(item.width());
    }
    sum
}

// Appends the spelling of each item.
fn put_items<T: Layout>(items: &[T], out: &mut Bits) -> Result<(), Memory>
    requires { AreAllowed (flat_map T.format.rows items.now) }
    ensures { Puts (join (flat_map T.format.rows items.now)) result out.old out.new }
{
    'items: for item in items {
        item.put(out)?;
    }
    Ok(())
}

// Reads `count` items.
fn scan_items<T: Layout>(
    alloc: Global,
    count: u64,
    cur: &mut Cursor<'_>,
) -> Result<Vec<T>, DecodeError>
    ensures gives { Gives (λ v. flat_map T.format.rows v.items) result
        (read_rows (times count T.format.fields) cur.old) cur.new }
    ensures count { IfOk result (λ v. length v.items ≡ count) }

    // If `count` is 0, no memory is asked for.
    ensures memory { IfMemory result (0 < count) }
{
    let Ok(mut items) = Vec::with_capacity(alloc, count as usize) else {
        return Err(DecodeError::Memory);
    };
    'items: for _ in 0..count {
        let item = T::scan(alloc, cur)?;
        items.push(item)?;
    }
    Ok(items)
}

#[tactic(auto, using(crate::proofs::PutLemmas::puts_bits), unfolding(crate::specs::layout::Rows::alone))]
impl<T: Layout> Layout for Items<T> {
    ghost use Rattle.std.specs.Prelude.{◌≡◌, ◌≢◌, ◌+◌, ◌<◌, length, Ok, Err, IfOk};
    ghost use Rattle.etcs_bits.specs.layout.Fault.{short};
    ghost use Rattle.etcs_bits.specs.layout.Fields.{counted};
    ghost use Rattle.etcs_bits.specs.layout.Growth.{HasItems};
    ghost use Rattle.etcs_bits.specs.layout.Reading.{forward, read_rows, taken};
    ghost use Rattle.etcs_bits.specs.layout.Results.{Gives, IfMemory};
    ghost use Rattle.etcs_bits.specs.layout.Combined.{n_iter, counted_rows};
    ghost use Rattle.etcs_bits.specs.layout.Format.{several};

    ghost format = { several T.format };

    ghost fit = { λ l. (length l ≤ 31) × AllByRecursion T.fit l };

    ghost grows = { HasItems };

    fn is_allowed(&self) -> bool {
        self.items.len() < 32 && are_allowed(self.items.as_slice())
    }

    fn width(&self) -> u64 {
        width_of(self.items.as_slice()).saturating_add(5)
    }

    fn put(&self, out: &mut Bits) -> Result<(), Memory> {
        out.push_num(5, self.items.len() as u64)?;
        put_items(self.items.as_slice(), out)
    }

    #[inline(always)]
    fn scan(alloc: Global, cur: &mut Cursor<'_>) -> Result<Self, DecodeError>
        ensures gives { Gives (several T.format).rows result
            (read_rows (several T.format).fields cur.old) cur.new }

        // The count has five bits.
        ensures few { IfOk result (λ l. length l < 32) }

        // Memory is asked for only after the count, and not if the count is 0.
        ensures short { length cur.old.bits < cur.old.at + 5
            → result ≡ Err (DecodeError.Fault (short cur.old)) }
        ensures memory { IfMemory result (HasItems cur.old) }
    {
        let count = cur.take(5)?;
        let items = scan_items(alloc, count, cur)?;
        Ok(Items { items })
    }
}

impl<T: Same> Same for Items<T> {
    fn same(&self, other: &Self) -> bool {
        are_same(self.as_slice(), other.as_slice())
    }
}
