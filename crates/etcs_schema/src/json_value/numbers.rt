//! `whole_number` and `is_in_range`: numbers as JSON writes them.

ghost use Rattle.std.specs.Prelude.{◌≡◌, ◌==◌, ◌<◌, ◌^◌, length, slice_index, option_and_then, is_some, true, false, IfSome, IsTrue};
ghost use Rattle.std.specs.Str.Parse.{IsNumeral, digits_value};
ghost use Rattle.serde_json.specs.Find.{as_u64};
ghost use Rattle.serde_json.specs.Read.{float_of, number_from, number_of};

use fast_float::Numeral;

// Whether a text begins with a minus sign.
fn has_minus(text: &[u8]) -> bool
    ensures value { result ≡ (slice_index text.now 0 == 45) }
    ensures longer { IsTrue result → 0 < length text.now }
{
    !text.is_empty() && text[0] == b'-'
}

// The most digits that always fit in 64 bits.
const FEW: usize = 19;

// The number written by a few plain digits. `None` is inconclusive.
fn plain_number(text: &[u8]) -> Option<u64>
    ensures { IfSome result
        (λ n. IsNumeral 10 text.now × (digits_value 10 text.now ≡ n) × (n < 2 ^ 64)) }
{
    if text.is_empty() || FEW < text.len() {
        return None;
    }
    let mut number = 0u64;
    'digits: for byte in text {
        let byte = *byte;
        if byte < b'0' || byte > b'9' {
            return None;
        }
        number = number * 10 + u64::from(byte - b'0');
    }
    Some(number)
}

// The whole number without a sign in any text. Cold path, out of line: its large stack frame would be zeroed
// in the fast path too.
#[cold]
#[inline(never)]
fn whole_number_of(text: &[u8]) -> Option<u64>
    ensures { result ≡ option_and_then as_u64 (number_of text.now) }
{
    if has_minus(text) {
        None
    } else {
        Numeral::scan(text).to_u64()
    }
}

/// The number that a text writes, if it is whole, has no sign and fits in 64 bits.
pub(crate) fn whole_number(text: &str) -> Option<u64>
    ensures { result ≡ option_and_then as_u64 (number_of text.now) }
{
    match plain_number(text.as_bytes()) {
        Some(number) => Some(number),
        None => whole_number_of(text.as_bytes()),
    }
}

// Whether the float nearest to a number is finite.
fn is_finite(negative: bool, numeral: &Numeral<'_>) -> bool
    ensures { result ≡ is_some (float_of negative numeral.now) }
{
    numeral.to_float::<f64>(negative).is_finite()
}

// Whether a number without a sign is in range.
fn is_in_range_above(numeral: &Numeral<'_>) -> bool
    ensures { result ≡ is_some (number_from false numeral.now) }
{
    match numeral.to_u64() {
        Some(_) => true,
        None => is_finite(false, numeral),
    }
}

// Whether minus a number is in range.
fn is_in_range_below(numeral: &Numeral<'_>) -> bool
    ensures { result ≡ is_some (number_from true numeral.now) }
{
    if let Some(number) = numeral.to_i64(true) {
        if number < 0 {
            return true;
        }
    }
    is_finite(true, numeral)
}

// Whether any text is a number in range. Out of line for the reason given at `whole_number_of`.
#[cold]
#[inline(never)]
fn is_number_in_range(text: &[u8]) -> bool
    ensures { result ≡ is_some (number_of text.now) }
{
    if has_minus(text) {
        is_in_range_below(&Numeral::scan(&text[1..]))
    } else {
        is_in_range_above(&Numeral::scan(text))
    }
}

/// Whether a number is in the range of 64-bit floats, as `serde_json` requires.
pub(crate) fn is_in_range(text: &str) -> bool
    ensures { result ≡ is_some (number_of text.now) }
{
    match plain_number(text.as_bytes()) {
        Some(_) => true,
        None => is_number_in_range(text.as_bytes()),
    }
}
