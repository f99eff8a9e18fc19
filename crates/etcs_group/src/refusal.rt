//! `first_refusal`: the first reason to refuse telegrams that were read, found without allocating.

ghost use Rattle.std.specs.Prelude.{◌≡◌, ◌<◌, length};
ghost use Rattle.etcs_group.specs.Places.{least, pointed};
ghost use Rattle.etcs_group.specs.Assembly.{agree, header_disagrees, is_absent, is_miscounted, is_misplaced, position_count, first_refusal};

use crate::header::{are_in_order, counter, header, position, stands_for, total};
use crate::refused::Refused;
use etcs_packet::Run;
use etcs_telegram::{Header, Telegram};

// Whether two headers have the same version, identity, total and link flag.
fn agree(this: &Header, that: &Header) -> bool
    ensures { result ≡ agree this.now that.now }
{
    this.version == that.version
        && this.identity == that.identity
        && this.total == that.total
        && this.linked == that.linked
}

fn header_disagrees(read: &[&Telegram], place: usize) -> bool
    requires { place < length read.now }
    ensures { result ≡ header_disagrees (pointed read.now) place }
{
    !agree(header(read[0]), header(read[place]))
}

// The least index whose header disagrees with the header at index 0.
fn first_disagreement(read: &[&Telegram]) -> Option<usize>
    ensures { result ≡ least (length (pointed read.now)) (header_disagrees (pointed read.now)) }
{
    (0..read.len()).find(|place| header_disagrees(read, *place))
}

fn is_misplaced(run: Run, read: &[&Telegram], place: usize) -> bool
    requires { place < length read.now }
    ensures { result ≡ is_misplaced run (pointed read.now) place }
{
    let telegram: &Telegram = read[place];
    if total(telegram) < position(telegram) {
        return true;
    }
    place > 0 && !are_in_order(run, read[place - 1], telegram)
}

// The least index that is out of order.
fn first_misplaced(run: Run, read: &[&Telegram]) -> Option<usize>
    ensures { result ≡ least (length (pointed read.now)) (is_misplaced run (pointed read.now)) }
{
    (0..read.len()).find(|place| is_misplaced(run, read, *place))
}

fn is_absent(read: &[&Telegram], wanted: u32) -> bool
    requires { wanted < 8 }
    ensures { result ≡ is_absent (pointed read.now) wanted }
{
    !read.iter().any(|telegram| stands_for(telegram, wanted))
}

// The least position, up to the total at index 0, that no telegram has or names.
fn first_absent(read: &[&Telegram]) -> Option<usize>
    requires { 0 < length read.now }
    ensures { result ≡ least (position_count (pointed read.now)) (is_absent (pointed read.now)) }
{
    let count = total(read[0]) + 1;
    'positions: for wanted in 0..count {
        if is_absent(read, wanted) {
            return Some(wanted as usize);
        }
    }
    None
}

fn is_miscounted(read: &[&Telegram], place: usize) -> bool
    requires { place < length read.now }
    ensures { result ≡ is_miscounted (pointed read.now) place }
{
    let own = counter(read[place]);
    if own >= 254 {
        return own == 254;
    }
    'earlier: for earlier in &read[..place] {
        let other = counter(earlier);
        if other < 254 && other != own {
            return true;
        }
    }
    false
}

// The least index whose counter does not fit.
fn first_miscounted(read: &[&Telegram]) -> Option<usize>
    ensures { result ≡ least (length (pointed read.now)) (is_miscounted (pointed read.now)) }
{
    (0..read.len()).find(|place| is_miscounted(read, *place))
}

// The first reason to refuse the telegrams, if there is one. The order of the reasons keeps this linear:
// if none disagrees and none is out of order, there are at most eight telegrams.
pub(crate) fn first_refusal(run: Run, read: &[&Telegram]) -> Option<Refused>
    ensures { result ≡ first_refusal run (pointed read.now) }
{
    if read.is_empty() {
        return Some(Refused::Nothing);
    }
    if let Some(place) = first_disagreement(read) {
        return Some(Refused::Disagree(place));
    }
    if let Some(place) = first_misplaced(run, read) {
        return Some(Refused::Order(place));
    }
    if let Some(position) = first_absent(read) {
        return Some(Refused::Absent(position));
    }
    match first_miscounted(read) {
        Some(place) => Some(Refused::Counter(place)),
        None => None,
    }
}
