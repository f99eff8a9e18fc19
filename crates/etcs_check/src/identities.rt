//! Repeated identities: identities kept in pages of bits while groups are read one by one, or found in a list of
//! groups by a table of bits without heap memory.

ghost use Rattle.std.specs.Prelude.{◌≡◌, ℕ, ◌+◌, ◌*◌, ◌^◌, ◌<◌, ◌||◌, ◌==◌, false, length, IsTrue, IsFalse, OnOk, OnErr};
ghost use Rattle.etcs_check.specs.Identities.{HaveIdentities, HasNoRepeat, HasRepeat, HasIdentity, identity_number, is_kept, is_marked};

use crate::aspects::first_aspect;
use etcs_bits::Memory;
use etcs_group::{Controlled, Group};

// The number of identities that one pass over the groups considers, 64 to a word of the table.
const PART: u32 = 2_097_152;

// The number of bits to a page, which is made whole: many small ones would grow one by one.
const PAGE: usize = 16_384;

// The number of the identity of a group with these aspects.
pub(crate) fn identity_number(aspects: &[Group]) -> u32
    requires { 0 < length aspects.now }
    ensures value { result ≡ identity_number aspects.now }
    ensures small { result < 16777216 }
    ensures numbered { HasIdentity aspects.now }
{
    let balise = &first_aspect(aspects)[0];
    balise.header.identity.country.number() * 16_384 + balise.header.identity.group.number()
}

// Whether the place is marked.
pub(crate) fn is_marked(table: &[u64], place: usize) -> bool
    ensures { result ≡ is_marked table.now place }
{
    place / 64 < table.len() && (table[place / 64] >> (place % 64)) & 1 == 1
}

// Marks the place, and returns whether it was marked before.
#[tactic(auto, using(crate::proofs::IdentityLemmas::marked_after))]
pub(crate) fn mark(table: &mut [u64], place: usize) -> bool
    requires { place < 64 * length table.old }
    ensures before { result ≡ is_marked table.old place }
    ensures after { (p : ℕ) → is_marked table.new p ≡ (place == p || is_marked table.old p) }
{
    let marked = is_marked(table, place);
    table[place / 64] |= 1 << (place % 64);
    marked
}

// Marks the place in a page, which is made if it is empty. If memory runs out, nothing changes.
fn mark_in(page: &mut Vec<u64>, place: usize) -> Result<(), Memory>
    requires { place < PAGE }
    ensures ok { OnOk result ((p : ℕ) → is_marked page.new.items p ≡ (place == p || is_marked page.old.items p)) }
    ensures err { OnErr result (page.new.items ≡ page.old.items) }
{
    page.resize(page.len().max(PAGE / 64), 0)?;
    mark(page, place);
    Ok(())
}

// Whether the number is kept.
pub(crate) fn is_kept(pages: &[Vec<u64>], number: u32) -> bool
    ensures { result ≡ is_kept pages.now number }
{
    let page = number as usize / PAGE;
    page < pages.len() && is_marked(&pages[page], number as usize % PAGE)
}

// Keeps the number. Memory can run out only for a new number; then the same numbers are kept.
pub(crate) fn keep(pages: &mut Vec<Vec<u64>>, number: u32) -> Result<(), Memory>
    ensures ok { OnOk result ((n : ℕ) → is_kept pages.new.items n ≡ (number == n || is_kept pages.old.items n)) }
    ensures err { OnErr result ((n : ℕ) → is_kept pages.new.items n ≡ is_kept pages.old.items n) }
    ensures memory { OnErr result (is_kept pages.old.items number ≡ false) }
{
    if is_kept(pages, number) {
        return Ok(());
    }
    let page = number as usize / PAGE;
    'pages: while pages.len() <= page {
        pages.push(Vec::new(*pages.allocator()))?;
    }
    mark_in(&mut pages[page], number as usize % PAGE)?;
    Ok(())
}

// Whether a group with one of the `PART` identities from `base` on has the identity of an earlier group.
fn repeats_in(groups: &[Controlled], base: u32) -> bool
    requires { base + PART < 2 ^ 32 }
    ensures found { IsTrue result → HasRepeat groups.now }
    ensures none { IsFalse result → HasNoRepeat base PART groups.now }
    ensures numbered { IsFalse result → HaveIdentities groups.now }
{
    let mut table = [0u64; 32_768];
    'groups: for i in 0..groups.len() {
        let identity = identity_number(groups[i].aspects());
        if base <= identity && identity < base + PART {
            if mark(&mut table, (identity - base) as usize) {
                return true;
            }
        }
    }
    false
}

// Whether a group has the identity of an earlier one. Uses no heap memory.
pub(crate) fn has_repeat(groups: &[Controlled]) -> bool
    ensures found { IsTrue result → HasRepeat groups.now }
    ensures none { IsFalse result → HasNoRepeat 0 16777216 groups.now }
    ensures numbered { IsFalse result → HaveIdentities groups.now }
{
    'parts: for part in 0..8 {
        if repeats_in(groups, part * PART) {
            return true;
        }
    }
    false
}
