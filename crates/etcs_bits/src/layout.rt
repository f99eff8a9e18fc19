//! The trait `Layout`: a record of variables, how it is written as bits and read from them. The modules below it make
//! records of other records.

pub(crate) mod body;
pub(crate) mod fault;
pub(crate) mod items;
pub(crate) mod kept;
pub(crate) mod option;
pub(crate) mod pair;
pub(crate) mod same;

ghost use Rattle.std.specs.Prelude.{◌≡◌, ◌↔◌, ◌++◌, min, IsTrue, IfOk, OnOk, OnErr};
ghost use Rattle.etcs_bits.specs.layout.Rows.{AreAllowed, Place, join, width, IsSpelled};
ghost use Rattle.etcs_bits.specs.layout.Fault.{IsFault, NoneBegins};
ghost use Rattle.etcs_bits.specs.layout.Reading.{read_rows};
ghost use Rattle.etcs_bits.specs.layout.Format.{Format};
ghost use Rattle.etcs_bits.specs.layout.Results.{Gives, IfFault, IfMemory, Puts};

use crate::bits::Bits;
use crate::bits::cursor::Cursor;
use crate::bits::memory::Memory;
use crate::layout::fault::DecodeError;
use std::alloc::Global;

/// A record of variables that is spelled field after field, without a gap (SUBSET-026, 7.4).
///
/// Users call [`is_allowed`](Layout::is_allowed), [`write`](Layout::write) and
/// [`read`](Layout::read). A record's type gives the rest: its format and the plain steps `width`,
/// `put` and `scan`.
pub trait Layout: Drop {
    /// The layout of a record, as one value. It has the table of fields, the rows of a record, the
    /// record of rows, and the proof that these agree. Each record therefore has one spelling.
    ghost format: { Format Self };

    /// The condition, in the record's own terms, that each of its numbers is allowed. It always
    /// holds if the record's types keep the numbers in range.
    ghost fit: { Self → Type 0 } = { λ _. Unit {0} };

    /// Whether reading a record at a place may ask for memory: only if it comes there to a list that is
    /// not empty, or to bits that it copies.
    ghost grows: { Place → Type 0 } = { λ _. ⊥ };

    /// Whether the number of each variable fits in its bits and is allowed. Takes no memory.
    fn is_allowed(&self) -> bool
        ensures allowed { IsTrue result ↔ AreAllowed (format.rows self.now) }
        ensures fit { IsTrue result ↔ fit self.now };

    /// The number of bits of the spelling; `u64::MAX` if it has more.
    fn width(&self) -> u64
        ensures { result ≡ min (width (format.rows self.now)) u64.MAX };

    /// Appends the spelling. If memory runs out, the bits still begin with what they held, and no
    /// more is promised of them. So users call `write`.
    fn put(&self, out: &mut Bits) -> Result<(), Memory>
        requires { AreAllowed (format.rows self.now) }
        ensures { Puts (join (format.rows self.now)) result out.old out.new };

    /// Reads a record at the cursor. After an error nothing is promised of the cursor. So users call
    /// `read`.
    fn scan(alloc: Global, cur: &mut Cursor<'_>) -> Result<Self, DecodeError>
        ensures gives { Gives format.rows result (read_rows format.fields cur.old) cur.new }
        ensures memory { IfMemory result (grows cur.old) };

    /// Appends the spelling of a record that is allowed. If memory runs out, nothing is appended.
    final fn write(&self, out: &mut Bits) -> Result<(), Memory>
        requires { AreAllowed (format.rows self.now) }
        ensures ok { OnOk result (out.new ≡ out.old ++ join (format.rows self.now)) }
        ensures err { OnErr result (out.new ≡ out.old) }
    {
        let len = out.len();
        let done = self.put(out);
        if done.is_err() {
            out.truncate(len);
        }
        done
    }

    /// Reads the record that is spelled at the cursor. The cursor then stands after it.
    ///
    /// A fault is the first one of the fields at the cursor. No record is then spelled there, in
    /// any input of the same length with the same first `end` bits. If memory runs out, a fault may
    /// go unseen. After an error the cursor has not moved.
    final fn read(alloc: Global, cur: &mut Cursor<'_>) -> Result<Self, DecodeError>
        ensures ok { IfOk result (λ v. IsSpelled (format.rows v) cur.old cur.new) }

        ensures fault { IfFault result (λ f. IsFault format.fields cur.old f) }
        ensures none { IfFault result (λ f. NoneBegins format.rows cur.old f) }
        ensures err { OnErr result (cur.new ≡ cur.old) }

        // Where the record does not grow, the answer is never that memory ran out.
        ensures memory { IfMemory result (grows cur.old) }
    {
        let mut ahead = cur.fork();
        let value = Self::scan(alloc, &mut ahead)?;
        *cur = ahead;
        Ok(value)
    }
}
