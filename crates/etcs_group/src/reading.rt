//! `Group::reading`: the telegrams that a train reads of a group, in the order in which it passes the balises, if it
//! misses some. No types.

ghost use Rattle.std.specs.Prelude.{◌≡◌, ◌≢◌, [], IfOk, OnErr};
ghost use Rattle.etcs_group.specs.Missed.{is_missed};
ghost use Rattle.etcs_group.specs.Places.{pointed};
ghost use Rattle.etcs_group.specs.Reading.{group_reading};

use crate::group::Group;
use crate::missed::Missed;
use etcs_bits::Memory;
use etcs_packet::Run;
use etcs_telegram::Telegram;
use std::alloc::Global;

impl Group {
    /// The telegrams that a train reads, in the order in which it passes their balises: by rising index
    /// in nominal running, by falling index in reverse (SUBSET-026, 3.4.2). Bits of `missed` past the
    /// group's end are ignored.
    ///
    /// Allocates only if something is read. The only error is that memory runs out; then no list is
    /// returned.
    pub fn reading(&self, alloc: Global, run: Run, missed: Missed) -> Result<Vec<&Telegram>, Memory>
        ensures ok { IfOk result (λ read. pointed read.items ≡ group_reading run (is_missed missed.0) self.now) }
        ensures memory { OnErr result (group_reading run (is_missed missed.0) self.now ≢ []) }
    {
        let telegrams = self.telegrams();
        let mut read = Vec::new(alloc);
        'telegrams: for (place, telegram) in telegrams.iter().enumerate() {
            if !missed.has(place) {
                read.push(telegram)?;
            }
        }
        match run {
            Run::Nominal => Ok(read),
            Run::Reverse => {
                read.reverse();
                Ok(read)
            }
        }
    }
}
