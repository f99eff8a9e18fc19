//! `Headings`: the headings of the columns that are read.

ghost use Rattle.std.specs.Prelude.{◌≡◌, codes};
ghost use Rattle.etcs_table.specs.Heading.{usual_words};

use std::marker::Model;

/// The headings of the columns that are read. A table may have no column of aspects or balises.
#[derive(Drop)]
pub struct Headings<'a> {
    group: &'a [u8],
    telegram: &'a [u8],
    aspect: &'a [u8],
    balise: &'a [u8],
}

impl<'a> Model for Headings<'a> {
    ghost use Rattle.etcs_table.specs.Heading.{Words};

    ghost Value = { Words };

    ghost view = { λ h. record { group = h.group.now; telegram = h.telegram.now; aspect = h.aspect.now; balise = h.balise.now } };
}

impl<'a> Headings<'a> {
    /// Headings of the user's own.
    pub fn new(
        group: &'a [u8],
        telegram: &'a [u8],
        aspect: &'a [u8],
        balise: &'a [u8],
    ) -> Headings<'a>
        ensures { result ≡ record { group = group.now; telegram = telegram.now; aspect = aspect.now; balise = balise.now } }
    {
        Headings {
            group,
            telegram,
            aspect,
            balise,
        }
    }

    /// The headings if the user gives no others: `group`, `telegram`, `aspect` and `balise`.
    pub fn usual() -> Headings<'static>
        ensures { result ≡ usual_words }
    {
        Headings::new(b"group", b"telegram", b"aspect", b"balise")
    }

    /// The heading of the groups' names.
    pub(crate) fn group(&self) -> &[u8]
        ensures { result.now ≡ self.now.group }
    {
        self.group
    }

    /// The heading of the telegrams' digits.
    pub(crate) fn telegram(&self) -> &[u8]
        ensures { result.now ≡ self.now.telegram }
    {
        self.telegram
    }

    /// The heading of the aspects' names.
    pub(crate) fn aspect(&self) -> &[u8]
        ensures { result.now ≡ self.now.aspect }
    {
        self.aspect
    }

    /// The heading of the balises' numbers.
    pub(crate) fn balise(&self) -> &[u8]
        ensures { result.now ≡ self.now.balise }
    {
        self.balise
    }
}
