//! `Status`: how a run ended.

ghost use Rattle.std.specs.Prelude.{◌≡◌};

/// How a run ended.
#[derive(Clone, Copy, Debug, PartialEq, Eq)]
pub enum Status {
    /// Everything was done. For a check, the answer is yes.
    Done,
    /// A check has findings.
    Findings,
    /// The words or the input were refused.
    Refused,
}

impl Status {
    /// The exit status of a program whose run ended with this status. 3 is reserved for a run that
    /// stopped without one.
    pub fn code(self) -> u8
        ensures done { self ≡ Status.Done → result ≡ 0 }
        ensures findings { self ≡ Status.Findings → result ≡ 1 }
        ensures refused { self ≡ Status.Refused → result ≡ 2 }
    {
        self as u8
    }
}
