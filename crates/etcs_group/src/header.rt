//! Functions on the headers of telegrams that were read: position, total, counter, duplicates, and whether the
//! telegrams are in order.

ghost use Rattle.std.specs.Prelude.{◌≡◌, ◌<◌, ◌==◌, ◌||◌};
ghost use Rattle.etcs_group.specs.Assembly.{are_in_order, names};

use etcs_bits::Dup;
use etcs_packet::Run;
use etcs_telegram::{Header, Telegram};

// The header.
pub(crate) fn header(telegram: &Telegram) -> &Header
    ensures { result.now ≡ telegram.now.header }
{
    &telegram.header
}

// N_PIG.
pub(crate) fn position(telegram: &Telegram) -> u32
    ensures value { result ≡ telegram.now.header.position }
    ensures small { result < 8 }
{
    telegram.header.position.number()
}

// N_TOTAL.
pub(crate) fn total(telegram: &Telegram) -> u32
    ensures value { result ≡ telegram.now.header.total }
    ensures small { result < 8 }
{
    telegram.header.total.number()
}

// M_MCOUNT.
pub(crate) fn counter(telegram: &Telegram) -> u32
    ensures { result ≡ telegram.now.header.counter }
{
    telegram.header.counter.number()
}

// Whether a telegram may be passed after another one.
pub(crate) fn are_in_order(run: Run, before: &Telegram, telegram: &Telegram) -> bool
    ensures { result ≡ are_in_order run before.now telegram.now }
{
    match run {
        Run::Nominal => position(before) < position(telegram),
        Run::Reverse => position(telegram) < position(before),
    }
}

// Whether the telegram's duplicate flag names this position.
pub(crate) fn names(telegram: &Telegram, named: u32) -> bool
    requires { named < 8 }
    ensures { result ≡ names telegram.now named }
{
    match telegram.header.dup {
        Dup::Single => false,
        Dup::Next => position(telegram) + 1 == named,
        Dup::Previous => position(telegram) == named + 1,
    }
}

// Whether the telegram has this position, or its duplicate flag names it.
pub(crate) fn stands_for(telegram: &Telegram, wanted: u32) -> bool
    requires { wanted < 8 }
    ensures { result ≡ ((telegram.now.header.position == wanted) || names telegram.now wanted) }
{
    position(telegram) == wanted || names(telegram, wanted)
}
