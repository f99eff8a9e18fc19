//! `TrackPacket`: any of the packets from track to train.

ghost use Rattle.std.specs.Prelude.{◌≡◌, true, min, IfOk};
ghost use Rattle.etcs_bits.specs.layout.Results.{Gives, IfMemory, Puts};
ghost use Rattle.etcs_bits.specs.layout.Rows.{AreAllowed, join, width};
ghost use Rattle.etcs_profile.specs.RunningDirection.{is_for_run};
ghost use Rattle.etcs_profile.specs.PacketNumbers.{is_known};

use crate::authority::Authority;
use crate::number::scan_number;
use crate::packet::Packet;
use crate::raw::RawPacket;
use crate::run::Run;
use etcs_bits::{Bits, Cursor, DecodeError, Dir, Layout, Memory, Plain, Same};
use std::alloc::Global;

mod cover;
mod gradient;
mod linking;
mod speed;
mod transition;

pub use cover::CoverMarker;
pub use gradient::{Gradient, GradientElement};
pub use linking::{Link, Linking};
pub use speed::{Difference, SpeedElement, SpeedProfile};
pub use transition::{LevelOrder, LevelOrders, Transition};

// The numbers of the packets whose layout is known. The definition `is_known` reads them.
const KNOWN: [u64; 7] = [0, 5, 12, 15, 21, 27, 41];

/// A packet from track to train (SUBSET-026, 7.4.2).
#[derive(Debug, Drop)]
pub enum TrackPacket {
    /// Packet 0: trains in which this cover is set ignore the telegram.
    Cover(CoverMarker),
    /// Packet 5: which balise groups come next.
    Linking(Linking),
    /// Packets 12 and 15: how far a train may run.
    Authority(Authority),
    /// Packet 21: how steep the track is.
    Gradient(Gradient),
    /// Packet 27: how fast trains may go.
    Speed(SpeedProfile),
    /// Packet 41: in which level a train has to run.
    Transition(Transition),
    /// Any other packet. Its body is kept as bits.
    Raw(RawPacket),
}

/// Whether the layout of the packet of this number is known, so that it is read as one of the kinds.
#[inline]
pub(crate) fn has_layout(number: u64) -> bool
    ensures { result ≡ is_known number }
{
    matches!(number, 0 | 5 | 12 | 15 | 21 | 27 | 41)
}

// What `$value` gives of the packet's own record, whichever kind it is.
macro_rules! of_each {
    ($this:expr, $packet:ident => $value:expr) => {
        match $this {
            TrackPacket::Cover($packet) => $value,
            TrackPacket::Linking($packet) => $value,
            TrackPacket::Authority($packet) => $value,
            TrackPacket::Gradient($packet) => $value,
            TrackPacket::Speed($packet) => $value,
            TrackPacket::Transition($packet) => $value,
            TrackPacket::Raw($packet) => $value,
        }
    };
}

// Appends the spelling of a packet whose type keeps it in range.
fn put_fit<T: Layout>(packet: &T, out: &mut Bits) -> Result<(), Memory>
    requires { T.fit packet.now }
    ensures { Puts (join (T.format.rows packet.now)) result out.old out.new }
{
    // For the proof alone: the type keeps the packet allowed.
    let _allowed = packet.is_allowed();
    packet.put(out)
}

// Whether a packet for direction `dir` is for trains that run in direction `run`.
fn is_for(run: Run, dir: Dir) -> bool
    ensures { result ≡ is_for_run run dir }
{
    match (run, dir) {
        (_, Dir::Both) | (Run::Nominal, Dir::Nominal) | (Run::Reverse, Dir::Reverse) => true,
        _ => false,
    }
}

impl TrackPacket {
    ghost use Rattle.etcs_profile.specs.Track.{holds, track_number};

    /// The number of the packet: NID_PACKET.
    pub fn number(&self) -> u8
        ensures { result ≡ track_number self.now }
    {
        match self {
            TrackPacket::Cover(_) => 0,
            TrackPacket::Linking(_) => 5,
            TrackPacket::Authority(packet) => { if packet.main().is_some() { 12 } else { 15 } }
            TrackPacket::Gradient(_) => 21,
            TrackPacket::Speed(_) => 27,
            TrackPacket::Transition(_) => 41,
            TrackPacket::Raw(packet) => packet.number(),
        }
    }

    /// Whether the packet is for trains that run in direction `run`. Q_DIR decides it: nominal,
    /// reverse or both. Packet 0 is for all trains.
    pub fn holds_in(&self, run: Run) -> bool
        ensures { result ≡ holds run self.now }
    {
        let dir = match self {
            TrackPacket::Cover(_) => return true,
            TrackPacket::Linking(packet) => packet.dir(),
            TrackPacket::Authority(packet) => packet.dir(),
            TrackPacket::Gradient(packet) => packet.dir(),
            TrackPacket::Speed(packet) => packet.dir(),
            TrackPacket::Transition(packet) => packet.dir(),
            TrackPacket::Raw(packet) => packet.dir(),
        };
        is_for(run, dir)
    }
}

impl TrackPacket {
    ghost use Rattle.etcs_profile.specs.Track.{own_rows};

    /// Whether the packet is allowed. The types of the packets keep their numbers in range.
    pub(crate) fn is_sound(&self) -> bool
        ensures allowed { AreAllowed (own_rows self.now) }
        ensures always { result ≡ true }
    {
        of_each!(self, packet => packet.is_allowed())
    }

    /// How many bits the packet has.
    pub(crate) fn own_width(&self) -> u64
        ensures { result ≡ min (width (own_rows self.now)) u64.MAX }
    {
        of_each!(self, packet => packet.width())
    }

    /// Appends the spelling of the packet.
    pub(crate) fn put_own(&self, out: &mut Bits) -> Result<(), Memory>
        ensures { Puts (join (own_rows self.now)) result out.old out.new }
    {
        of_each!(self, packet => put_fit(packet, out))
    }
}

impl TrackPacket {
    ghost use Rattle.etcs_bits.specs.layout.Choice.{read_chosen, numbered_rows};
    ghost use Rattle.etcs_profile.specs.Track.{IsKnown, known_grows, track_numbered, track_parts};

    /// Reads what follows the number of a packet whose layout is known. After an error the cursor
    /// may stand anywhere.
    #[inline(always)]
    pub(crate) fn scan_known(
        alloc: Global,
        number: u64,
        cur: &mut Cursor<'_>,
    ) -> Result<Self, DecodeError>
        requires { is_known number ≡ true }
        ensures gives { Gives (λ p. numbered_rows track_numbered (track_parts p)) result
            (read_chosen track_numbered number cur.old) cur.new }
        ensures known { IfOk result IsKnown }

        // Only a list that is not empty takes memory. Packet 0 has none.
        ensures memory { IfMemory result (known_grows number cur.old) }
    {
        Ok(match number {
            0 => TrackPacket::Cover(CoverMarker {
                marker: Plain::scan(alloc, cur)?,
            }),
            5 => TrackPacket::Linking(Packet::scan_rest(alloc, cur)?),
            12 | 15 => TrackPacket::Authority(Authority::scan_rest(alloc, number, cur)?),
            21 => TrackPacket::Gradient(Packet::scan_rest(alloc, cur)?),
            27 => TrackPacket::Speed(Packet::scan_rest(alloc, cur)?),
            // No other known number is left.
            _ => TrackPacket::Transition(Packet::scan_rest(alloc, cur)?),
        })
    }
}

impl Same for TrackPacket {
    fn same(&self, other: &Self) -> bool {
        match (self, other) {
            (TrackPacket::Cover(this), TrackPacket::Cover(that)) => this.same(that),
            (TrackPacket::Linking(this), TrackPacket::Linking(that)) => this.same(that),
            (TrackPacket::Authority(this), TrackPacket::Authority(that)) => this.same(that),
            (TrackPacket::Gradient(this), TrackPacket::Gradient(that)) => this.same(that),
            (TrackPacket::Speed(this), TrackPacket::Speed(that)) => this.same(that),
            (TrackPacket::Transition(this), TrackPacket::Transition(that)) => this.same(that),
            (TrackPacket::Raw(this), TrackPacket::Raw(that)) => this.same(that),
            _ => false,
        }
    }
}

impl Layout for TrackPacket {
    ghost use Rattle.etcs_profile.specs.Track.{track_grows, track_packet};

    ghost format = { track_packet };

    ghost grows = { track_grows };

    fn is_allowed(&self) -> bool {
        self.is_sound()
    }

    fn width(&self) -> u64 {
        self.own_width()
    }

    fn put(&self, out: &mut Bits) -> Result<(), Memory> {
        self.put_own(out)
    }

    #[inline(always)]
    fn scan(alloc: Global, cur: &mut Cursor<'_>) -> Result<Self, DecodeError> {
        let number = scan_number(cur)?;
        if RawPacket::has_number(number) {
            let (dir, body) = RawPacket::scan_rest(alloc, cur)?;
            let packet = RawPacket::with_copy(alloc, number as u8, dir, body)?;
            return Ok(TrackPacket::Raw(packet));
        }
        TrackPacket::scan_known(alloc, number, cur)
    }
}
