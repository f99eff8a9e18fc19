//! `Size`: how long a telegram is, short or long.

ghost use Rattle.std.specs.Prelude.{◌≡◌};

/// How long a telegram is (SUBSET-036, 4.3).
#[derive(Clone, Copy, Debug, PartialEq, Eq)]
pub enum Size {
    /// 210 user bits, in 27 bytes.
    Short,
    /// 830 user bits, in 104 bytes.
    Long,
}

impl Size {
    ghost use Rattle.etcs_telegram.specs.Sizes.{byte_count, pad_count, size_from_bits, user_bits};
    ghost use Rattle.etcs_telegram.specs.TextMeaning.{size_from_bytes};

    /// The size of a telegram with `n` user bits: 210 or 830. None for any other number.
    pub fn of_len(n: usize) -> Option<Size>
        ensures { result ≡ size_from_bits n }
    {
        match n {
            210 => Some(Size::Short),
            830 => Some(Size::Long),
            _ => None,
        }
    }

    // The size of a telegram in `n` bytes.
    pub(crate) fn in_bytes(n: usize) -> Option<Size>
        ensures { result ≡ size_from_bytes n }
    {
        match n {
            27 => Some(Size::Short),
            104 => Some(Size::Long),
            _ => None,
        }
    }

    // How many user bits a telegram of this size has.
    pub(crate) fn user_bits(self) -> usize
        ensures { result ≡ user_bits self }
    {
        match self {
            Size::Short => 210,
            Size::Long => 830,
        }
    }

    // The number of bytes that hold the user bits.
    pub(crate) fn byte_count(self) -> usize
        ensures { result ≡ byte_count self }
    {
        match self {
            Size::Short => 27,
            Size::Long => 104,
        }
    }

    // The number of bits in the last byte that are not user bits.
    pub(crate) fn pad_count(self) -> u32
        ensures { result ≡ pad_count self }
    {
        match self {
            Size::Short => 6,
            Size::Long => 2,
        }
    }
}
