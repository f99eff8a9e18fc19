//! `Delimiter`: the byte between the fields of a row.

ghost use Rattle.std.specs.Prelude.{◌≡◌};
ghost use Rattle.etcs_rows.specs.Machine.{delimiter_byte};

/// The byte between the fields of a row.
#[derive(Clone, Copy, Debug, PartialEq, Eq)]
pub enum Delimiter {
    /// `,`
    Comma,
    /// `;`
    Semicolon,
    /// The tab.
    Tab,
}

impl Delimiter {
    /// The byte itself.
    pub fn byte(self) -> u8
        ensures { result ≡ delimiter_byte self }
    {
        match self {
            Delimiter::Comma => b',',
            Delimiter::Semicolon => b';',
            Delimiter::Tab => b'\t',
        }
    }
}
