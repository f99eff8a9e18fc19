//! `Scanner` and `FromCanonical`: a parser of the lines that `json_line` writes, without blanks and escapes, with the
//! keys in byte order. Its caller writes the record again and compares the bytes. So it needs no contract, and passes
//! most brackets, commas, colons and quotation marks without looking at them.

mod authority;
mod messages;
mod numbers;
mod raw;
mod report;
mod track;

use std::alloc::Global;

/// The rest of a line that is parsed.
#[derive(Drop)]
pub(crate) struct Scanner<'a> {
    pub(crate) alloc: Global,
    pub(crate) rest: &'a [u8],
}

/// A value that is parsed at the beginning of the rest of a line. `None`: it is not there, or memory ran out. `Some`
/// can be wrong if the line is not as `json_line` writes it.
pub(crate) trait FromCanonical: Drop {
    /// Parses the value.
    fn parse(line: &mut Scanner<'_>) -> Option<Self>;
}

/// A value that is parsed with the key in front of it. An optional member may be absent.
trait FromMember: Drop {
    /// Parses the member with this key.
    fn parse_member(line: &mut Scanner<'_>, name: &str) -> Option<Self>;
}

impl<T: FromCanonical> FromMember for T {
    #[inline(always)]
    fn parse_member(line: &mut Scanner<'_>, name: &str) -> Option<T> {
        line.key(name)?;
        T::parse(line)
    }
}

impl<T: FromCanonical> FromMember for Option<T> {
    #[inline(always)]
    fn parse_member(line: &mut Scanner<'_>, name: &str) -> Option<Option<T>> {
        match line.key(name) {
            Some(()) => Some(Some(T::parse(line)?)),
            None => Some(None),
        }
    }
}

impl<'a> Scanner<'a> {
    /// Passes one mark, such as a bracket.
    #[inline(always)]
    fn mark(&mut self) -> Option<()> {
        self.rest = self.rest.get(1..)?;
        Some(())
    }

    /// Passes a key, with the two marks in front of it and the two behind it. `None` changes nothing.
    #[inline(always)]
    fn key(&mut self, name: &str) -> Option<()> {
        match self.rest.get(2..)?.strip_prefix(name.as_bytes())? {
            [b'"', _, rest @ ..] => {
                self.rest = rest;
                Some(())
            }
            _ => None,
        }
    }

    /// Parses a member of an object.
    #[inline(always)]
    fn member<T: FromMember>(&mut self, name: &str) -> Option<T> {
        T::parse_member(self, name)
    }

    /// Parses a number. One above 2^64 - 1 wraps round, and one without digits is 0: the comparison refuses both.
    #[inline(always)]
    fn number(&mut self) -> Option<u32> {
        let mut number: u64 = 0;
        let mut len: usize = 0;
        'digits: for &byte in self.rest {
            let digit = byte.wrapping_sub(b'0');
            if 9 < digit {
                break;
            }
            number = number.wrapping_mul(10).wrapping_add(u64::from(digit));
            len = len.wrapping_add(1);
        }
        self.rest = self.rest.get(len..)?;
        u32::try_from(number).ok()
    }

    /// Parses a text without escapes.
    fn text(&mut self) -> Option<&'a str> {
        self.mark()?;
        let len = self.rest.iter().position(|byte| *byte == b'"')?;
        let text = self.rest.get(..len)?;
        self.rest = self.rest.get(len..)?;
        self.mark()?;
        str::from_utf8(text).ok()
    }

    /// Parses the items of a list, with the bracket behind them. A mark is in front of each item.
    fn items<T: FromCanonical>(&mut self) -> Option<Vec<T>> {
        let mut items = Vec::new(self.alloc);
        'items: for _ in 0..self.rest.len() {
            if let [b']', ..] = self.rest {
                break;
            }
            self.mark()?;
            items.push(T::parse(self)?).ok()?;
        }
        self.mark()?;
        Some(items)
    }

    /// Parses a member that is a list of one or more items, as the first and the others.
    fn non_empty<T: FromCanonical>(&mut self, name: &str) -> Option<(T, Vec<T>)> {
        self.key(name)?;
        self.mark()?;
        let first = T::parse(self)?;
        Some((first, self.items()?))
    }
}

impl<T: FromCanonical> FromCanonical for Vec<T> {
    fn parse(line: &mut Scanner<'_>) -> Option<Vec<T>> {
        if let [_, b']', rest @ ..] = line.rest {
            line.rest = rest;
            return Some(Vec::new(line.alloc));
        }
        line.items()
    }
}

// Parses an object whose members are the fields of a record, with their keys in byte order.
macro_rules! parse_record {
    ($record:ident, $line:ident; $($field:ident $key:literal),+ $(,)?) => {{
        $(let $field = $line.member($key)?;)+
        $line.mark()?;
        Some($record { $($field),+ })
    }};
}

use parse_record;
