//! Numbers as decimal digits. Numbers below 1,000 are copied from a table without a branch on their number of
//! digits, which a processor would often mispredict.

ghost use Rattle.std.specs.Prelude.{◌≡◌, ◌+◌, ◌<◌, ◌≤◌, ◌∷◌, [], decimal, length, slice_index, take};
ghost use Rattle.json.specs.Token.{number};
ghost use Rattle.json.specs.Filled.{Placed};
ghost use Rattle.json.specs.Written.{Writes};

use crate::text_room::{place_byte, place_text};
use itoa::Buffer;
use json::Writer;
use std::alloc::AllocError;

// A row for each number: its digits, filled up to three bytes, and then how many they are. The rows of three digits are
// added for one hundred after the other.
macro_rules! rows {
    ([$($row:tt)*] [$($n:literal)*]) => { [$($row)*] };
    ([$($row:tt)*] [$($n:literal)*] $hundred:literal $($more:literal)*) => {
        rows!([$($row)* $([b'0' + $hundred, b'0' + $n / 10, b'0' + $n % 10, 3],)*] [$($n)*] $($more)*)
    };
    ($($one:literal)*; $($two:literal)*; $($hundred:literal)*) => {
        rows!(
            [$([b'0' + $one, 0, 0, 1],)* $([b'0' + $two / 10, b'0' + $two % 10, 0, 2],)*]
            [$($one)* $($two)*] $($hundred)*
        )
    };
}

// The numbers below 1,000.
static DIGITS: [[u8; 4]; 1000] = rows!(
    0 1 2 3 4 5 6 7 8 9;
    10 11 12 13 14 15 16 17 18 19 20 21 22 23 24 25 26 27 28 29 30 31 32 33 34 35 36 37 38 39 40
    41 42 43 44 45 46 47 48 49 50 51 52 53 54 55 56 57 58 59 60 61 62 63 64 65 66 67 68 69 70 71
    72 73 74 75 76 77 78 79 80 81 82 83 84 85 86 87 88 89 90 91 92 93 94 95 96 97 98 99;
    1 2 3 4 5 6 7 8 9
);

// Writes one digit at an index, and returns the next index.
#[inline(always)]
fn place_digit(buf: &mut [u8], at: usize, n: u64) -> usize
    requires below { n < 10 }
    requires room { at < length buf.old }
    ensures { Placed buf.old buf.new at ((48 + n) ∷ []) result }
{
    place_byte(buf, at, b'0' + n as u8)
}

// The row of a number.
#[inline(always)]
fn row_of(n: u64) -> [u8; 4]
    requires { n < 1000 }
    ensures digits { take (slice_index result 3) result ≡ decimal n }
    ensures few { slice_index result 3 ≤ 3 }
{
    DIGITS[n as usize]
}

// Writes a number of at most three digits. Bytes of `buf` after the digits may change.
#[inline(always)]
fn place_few(buf: &mut [u8], at: usize, n: u64) -> usize
    requires below { n < 1000 }
    requires room { at + 4 ≤ length buf.old }
    ensures placed { Placed buf.old buf.new at (decimal n) result }
    ensures few { result ≤ at + 3 }
{
    let row = row_of(n);
    buf[at..at + 4].copy_from_slice(&row);
    at + row[3] as usize
}

// Writes a number of any length. Out of line: few numbers have seven digits or more.
#[cold]
#[inline(never)]
fn place_long(buf: &mut [u8], at: usize, n: u64) -> usize
    requires { at + length (decimal n) ≤ length buf.old }
    ensures { Placed buf.old buf.new at (decimal n) result }
{
    place_text(buf, at, Buffer::new().format(n).as_bytes())
}

// Writes a number of four digits or more.
#[inline(never)]
fn place_many(buf: &mut [u8], at: usize, n: u64) -> usize
    requires many { 1000 ≤ n }
    requires room { at + 20 ≤ length buf.old }
    ensures { Placed buf.old buf.new at (decimal n) result }
{
    if 1_000_000 <= n {
        return place_long(buf, at, n);
    }
    let at = place_few(buf, at, n / 1000);
    let at = place_digit(buf, at, n / 100 % 10);
    let at = place_digit(buf, at, n / 10 % 10);
    place_digit(buf, at, n % 10)
}

// Writes a number in decimal digits, at most 20, at an index, and returns the index after them.
#[inline(always)]
pub(crate) fn place_decimal(buf: &mut [u8], at: usize, n: u64) -> usize
    requires { at + 20 ≤ length buf.old }
    ensures { Placed buf.old buf.new at (decimal n) result }
{
    if n < 1000 {
        return place_few(buf, at, n);
    }
    place_many(buf, at, n)
}

/// Writes a number in decimal digits. Contract and error are the same as for [`Writer::u64`].
pub fn send_decimal(out: &mut Writer, n: u64) -> Result<(), AllocError>
    ensures { Writes result out.old out.new (number (decimal n)) }
{
    out.u64(n)
}
