//! `PacketView`: a packet from track to train that borrows its body if it is kept as bits.

ghost use Rattle.etcs_bits.specs.layout.Results.{IfMemory};

use crate::number::scan_number;
use crate::raw::RawPacket;
use crate::track::TrackPacket;
use etcs_bits::{BitSlice, Cursor, DecodeError, Dir};
use std::alloc::Global;

/// A packet from track to train (SUBSET-026, 7.4.2), without a copy of a body that is kept as bits.
#[derive(Debug, Drop)]
pub enum PacketView<'a> {
    /// A packet whose layout is known: any [`TrackPacket`] but a raw one.
    Known(TrackPacket),
    /// A packet whose layout is not known here, as a [`RawPacket`] has it.
    Raw {
        /// The number of the packet: NID_PACKET.
        number: u8,
        /// The running directions that the packet is for: Q_DIR.
        dir: Dir,
        /// The bits after L_PACKET, borrowed from the bits that are read.
        body: BitSlice<'a>,
    },
}

impl<'a> PacketView<'a> {
    ghost use Rattle.etcs_bits.specs.layout.Reading.{read_rows};
    ghost use Rattle.etcs_profile.specs.Track.{track_packet, view_grows};
    ghost use Rattle.etcs_profile.specs.View.{Shows};

    /// Reads a view of the packet at the cursor. After an error the cursor may stand anywhere.
    #[inline]
    pub fn scan(alloc: Global, cur: &mut Cursor<'a>) -> Result<PacketView<'a>, DecodeError>
        ensures gives { Shows result (read_rows track_packet.fields cur.old) cur.new }
        ensures memory { IfMemory result (view_grows cur.old) }
    {
        let number = scan_number(cur)?;
        if RawPacket::has_number(number) {
            let (dir, body) = RawPacket::scan_rest(alloc, cur)?;
            return Ok(PacketView::Raw {
                number: number as u8,
                dir,
                body,
            });
        }
        Ok(PacketView::Known(TrackPacket::scan_known(alloc, number, cur)?))
    }
}
