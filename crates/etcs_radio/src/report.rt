//! `Report`, train packets 0 and 1: where a train is, by its own position report.

ghost use Rattle.std.specs.Prelude.{◌≡◌, IsTrue};

use crate::integrity::Integrity;
use crate::lrbg::Lrbg;
use etcs_bits::{
    Bits, Body, Cursor, DecodeError, Distance, FaultKind, Identity, Layout, Level, Memory, Plain,
    Same, Scale, Train3, refused,
};
use std::alloc::Global;

/// A position report of a train: train packet 0, or 1 if it has the group before the last one too. All
/// distances but L_TRAININT are in the position report's scale (SUBSET-026, 3.6.5 and 7.4.3).
#[derive(Clone, Copy, Debug, PartialEq, Eq)]
pub struct Report {
    /// Q_SCALE, 2 bits: the unit of all distances.
    pub scale: Scale,
    /// NID_LRBG, 24 bits: the group that the position report refers to, the last relevant one.
    pub lrbg: Identity,
    /// NID_PRVLRBG, 24 bits: the group before that one. Packet 1 has it, packet 0 does not.
    pub previous: Option<Identity>,
    /// D_LRBG, 15 bits: from the group to the train's estimated front.
    pub distance: Distance,
    /// Q_DIRLRBG, 2 bits: the orientation of the train, as seen from the group.
    pub orientation: Train3,
    /// Q_DLRBG, 2 bits: on which side of the group the train's front is.
    pub side: Train3,
    /// L_DOUBTOVER, 15 bits: how much nearer to the group the front may be.
    pub doubt_over: Distance,
    /// L_DOUBTUNDER, 15 bits: how much further from the group the front may be.
    pub doubt_under: Distance,
    /// Q_LENGTH, 2 bits, and L_TRAININT, 15 bits: the train's integrity and length.
    pub length: Integrity,
    /// V_TRAIN, 7 bits: the train's speed, in steps of 5 km/h. All 128 numbers are accepted, including the
    /// numbers above 120, which represent no speed up to 600 km/h.
    pub speed: Plain<7>,
    /// Q_DIRTRAIN, 2 bits: in which direction the train runs, as seen from the group.
    pub running: Train3,
    /// M_MODE, 4 bits: the mode of the equipment on board.
    pub mode: Plain<4>,
    /// M_LEVEL, 3 bits, and NID_NTC, 8 bits, at level NTC: the level in which the train runs.
    pub level: Level,
}

// The fields after the groups, in the order of the standard.
type Situation = (
    Distance,
    (
        Train3,
        (
            Train3,
            (
                Distance,
                (
                    Distance,
                    (Integrity, (Plain<7>, (Train3, (Plain<4>, Level)))),
                ),
            ),
        ),
    ),
);

// What follows NID_PACKET in packet 0.
type WithOne = Body<8, (Scale, (Lrbg, Situation))>;

// What follows NID_PACKET in packet 1.
type WithTwo = Body<8, (Scale, (Lrbg, (Lrbg, Situation)))>;

impl Report {
    ghost use Rattle.etcs_bits.specs.declared.variables.identity.Identity.{Identity};
    ghost use Rattle.etcs_radio.specs.Report.{report_value, report_situation, report_number};

    // The position report of these parts.
    fn of(scale: Scale, lrbg: Lrbg, previous: Option<Identity>, situation: Situation) -> Report
        ensures { result ≡ report_value previous scale lrbg situation }
    {
        let (distance, (orientation, (side, (doubt_over, (doubt_under, rest))))) = situation;
        let (length, (speed, (running, (mode, level)))) = rest;
        Report {
            scale,
            lrbg: lrbg.identity(),
            previous,
            distance,
            orientation,
            side,
            doubt_over,
            doubt_under,
            length,
            speed,
            running,
            mode,
            level,
        }
    }

    // The fields after the groups.
    fn situation(&self) -> Situation
        ensures { result ≡ report_situation self.now }
    {
        let rest = (
            self.length,
            (self.speed, (self.running, (self.mode, self.level))),
        );
        let doubts = (self.doubt_over, (self.doubt_under, rest));
        (self.distance, (self.orientation, (self.side, doubts)))
    }

    // What follows NID_PACKET in packet 0.
    fn with_one(&self) -> WithOne
        ensures { result ≡ (self.now.scale, (self.now.lrbg, report_situation self.now)) }
    {
        Body::new((self.scale, (Lrbg::new(self.lrbg), self.situation()))).unwrap()
    }

    // What follows NID_PACKET in packet 1.
    fn with_two(&self, previous: Identity) -> WithTwo
        ensures { result ≡ (self.now.scale, (self.now.lrbg, (previous, report_situation self.now))) }
    {
        let groups = (Lrbg::new(previous), self.situation());
        Body::new((self.scale, (Lrbg::new(self.lrbg), groups))).unwrap()
    }

    /// The number of the packet, NID_PACKET: 1 if the position report has the group before, else 0.
    pub fn number(&self) -> u8
        ensures { result ≡ report_number self.now }
    {
        match self.previous {
            None => 0,
            Some(_) => 1,
        }
    }
}

impl Report {
    ghost use Rattle.etcs_bits.specs.layout.Choice.{read_chosen, numbered_rows};
    ghost use Rattle.etcs_bits.specs.layout.Results.{Gives, IfMemory};
    ghost use Rattle.etcs_radio.specs.Report.{report_numbered, report_parts};

    // Reads what follows NID_PACKET, whose number is 0 or 1. After an error the cursor is at an unspecified
    // position.
    pub(crate) fn scan_rest(
        alloc: Global,
        number: u64,
        cur: &mut Cursor<'_>,
    ) -> Result<Self, DecodeError>
        requires { IsTrue (report_numbered.allows number) }
        ensures gives { Gives (λ r. numbered_rows report_numbered (report_parts r)) result
            (read_chosen report_numbered number cur.old) cur.new }

        // A position report contains no list and no raw bits.
        ensures memory { IfMemory result ⊥ }
    {
        if number == 0 {
            let body: WithOne = Layout::scan(alloc, cur)?;
            let (scale, (lrbg, situation)) = *body.content();
            return Ok(Report::of(scale, lrbg, None, situation));
        }
        let body: WithTwo = Layout::scan(alloc, cur)?;
        let (scale, (lrbg, (previous, situation))) = *body.content();
        Ok(Report::of(scale, lrbg, Some(previous.identity()), situation))
    }
}

#[tactic(auto, using(etcs_bits::proofs::PutLemmas::puts_bits), unfolding(etcs_bits::specs::layout::Rows::alone))]
impl Layout for Report {
    ghost use Rattle.etcs_radio.specs.Report.{report};

    ghost format = { report };

    fn is_allowed(&self) -> bool {
        match self.previous {
            None => self.with_one().is_allowed(),
            Some(previous) => self.with_two(previous).is_allowed(),
        }
    }

    fn width(&self) -> u64 {
        let rest = match self.previous {
            None => self.with_one().width(),
            Some(previous) => self.with_two(previous).width(),
        };
        rest.saturating_add(8)
    }

    fn put(&self, out: &mut Bits) -> Result<(), Memory> {
        match self.previous {
            None => {
                out.push_num(8, 0)?;
                self.with_one().put(out)
            }
            Some(previous) => {
                out.push_num(8, 1)?;
                self.with_two(previous).put(out)
            }
        }
    }

    fn scan(alloc: Global, cur: &mut Cursor<'_>) -> Result<Self, DecodeError> {
        let at = cur.at();
        let number = cur.take(8)?;
        if number != 0 && number != 1 {
            return Err(refused(at, cur, FaultKind::Spare));
        }
        Report::scan_rest(alloc, number, cur)
    }
}

impl Same for Report {
    fn same(&self, other: &Report) -> bool {
        self.scale.same(&other.scale)
            && self.lrbg.same(&other.lrbg)
            && self.previous.same(&other.previous)
            && self.situation().same(&other.situation())
    }
}
