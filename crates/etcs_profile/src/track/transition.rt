//! `Transition`, `LevelOrders` and `LevelOrder`: level transition orders, packet 41.

ghost use Rattle.std.specs.Prelude.{◌≡◌, ◌<◌, length, Ok, IfSome};
ghost use Rattle.etcs_bits.specs.layout.Reading.{forward, read_rows, taken};
ghost use Rattle.etcs_bits.specs.layout.Results.{Gives, IfMemory};
ghost use Rattle.etcs_bits.specs.layout.Rows.{Place};
ghost use Rattle.etcs_bits.specs.variables.Level.{m_level};

use crate::each::{each_allowed, each_same, put_each, scan_each};
use crate::error::BuildError;
use crate::packet::Packet;
use etcs_bits::{
    Bits, Cursor, DecodeError, Dir, Distance, Items, Layout, Level, Memory, Plain, Same, Scale,
};
use std::alloc::Global;
use std::marker::Model;

/// Packet 41, a level transition order: the place from which a train has to run in another level,
/// and the levels by priority (SUBSET-026, 5.10 and 7.4.2).
pub type Transition = Packet<41, LevelOrders>;

impl Packet<41, LevelOrders> {
    ghost use Rattle.etcs_profile.specs.Built.{IsBuilt};
    ghost use Rattle.etcs_profile.specs.Transition.{orders};

    /// Makes the order for these levels. The level of highest priority comes first. The call takes
    /// no memory. After an error the levels are lost.
    ///
    /// `TooMany`: there are more than 31 levels after the first.
    pub fn new(
        dir: Dir,
        scale: Scale,
        d_leveltr: Distance,
        first: LevelOrder,
        further: Vec<LevelOrder>,
    ) -> Result<Transition, BuildError>
        ensures { IsBuilt result (dir, orders scale d_leveltr first further.items)
            (31 < length further.items) ⊥ }
    {
        if 31 < further.len() {
            return Err(BuildError::TooMany);
        }
        let orders = LevelOrders {
            scale,
            d_leveltr,
            first,
            further: Items::new(further),
        };
        // A packet with 32 orders has at most 877 bits, so it is never too long.
        Packet::of(dir, orders).ok_or(BuildError::TooLong)
    }

    /// Q_SCALE: the unit of all distances.
    pub fn scale(&self) -> Scale
        ensures { result ≡ self.now.1.scale }
    {
        self.body().scale
    }

    /// D_LEVELTR: the distance to the place of the change, in the packet's scale. 32,767 means now.
    pub fn d_leveltr(&self) -> Distance
        ensures { result ≡ self.now.1.d_leveltr }
    {
        self.body().d_leveltr
    }

    /// The level of highest priority.
    pub fn first(&self) -> &LevelOrder
        ensures { result.now ≡ self.now.1.first }
    {
        &self.body().first
    }

    /// The other levels, by priority. There are at most 31.
    pub fn further(&self) -> &[LevelOrder]
        ensures levels { result.now ≡ self.now.1.further }
        ensures few { length result.now < 32 }
    {
        self.body().further.as_slice()
    }
}

/// The body of packet 41: a scale, the distance to the place of the change, and the levels by
/// priority (SUBSET-026, 7.4.2).
#[derive(Debug, Drop)]
pub struct LevelOrders {
    scale: Scale,
    d_leveltr: Distance,
    first: LevelOrder,
    further: Items<LevelOrder>,
}

impl Model for LevelOrders {
    ghost use Rattle.std.specs.Prelude.{◌<◌, length};
    ghost use Rattle.etcs_profile.specs.Transition.{Orders, orders};

    ghost Value = { Orders };

    ghost view = { λ o. orders o.scale o.d_leveltr o.first o.further };

    ghost invariant = { λ o. length o.further < 32 };
}

#[tactic(auto, using(etcs_bits::proofs::PutLemmas::puts_then, etcs_bits::proofs::PutLemmas::keeps_front, etcs_bits::proofs::PutLemmas::allowed_both, etcs_bits::proofs::FitLemmas::all_fit))]
impl Layout for LevelOrders {
    ghost use Rattle.etcs_profile.specs.Growth.{orders_grow};
    ghost use Rattle.etcs_profile.specs.Transition.{level_orders};

    ghost format = { level_orders };

    ghost grows = { orders_grow };

    fn is_allowed(&self) -> bool {
        each_allowed!(self; scale, d_leveltr, first, further)
    }

    #[tactic(auto, using(etcs_bits::proofs::WidthLemmas::width_both), unfolding(etcs_bits::specs::layout::Rows::alone))]
    fn width(&self) -> u64 {
        self.first
            .width()
            .saturating_add(self.further.width())
            .saturating_add(17)
    }

    fn put(&self, out: &mut Bits) -> Result<(), Memory> {
        put_each!(self, out; scale, d_leveltr, first, further)
    }

    #[tactic(auto, using(etcs_bits::proofs::GrowthLemmas::never_grows))]
    fn scan(alloc: Global, cur: &mut Cursor<'_>) -> Result<Self, DecodeError> {
        scan_each!(LevelOrders, alloc, cur; scale, d_leveltr, first, further)
    }
}

impl Same for LevelOrders {
    fn same(&self, other: &Self) -> bool {
        each_same!(self, other; scale, d_leveltr, first, further)
    }
}

/// A level of a level transition order. A train goes to the first level of the order that is
/// available on board. The level has 18 bits, and 8 more if it is level NTC (SUBSET-026, 5.10 and
/// 7.4.2).
#[derive(Clone, Copy, Debug, PartialEq, Eq)]
pub struct LevelOrder {
    /// The level: M_LEVELTR, 3 bits, and at level NTC also NID_NTC, 8 bits.
    pub level: Level,
    /// The length of the area in which the driver may acknowledge the change: L_ACKLEVELTR, 15
    /// bits, in the packet's scale. The area ends at the place of the change.
    pub acknowledge: Distance,
}

// The level of this number. None says only that NID_NTC may follow, or that the number is spare.
#[inline(always)]
fn level_alone(number: u64) -> Option<Level>
    ensures { (p : Place) → taken 3 p ≡ Ok (number, forward p 3)
        → IfSome result (λ v. read_rows m_level.fields p ≡ Ok (m_level.rows v, forward p 3)) }
{
    match number {
        0 => Some(Level::L0),
        2 => Some(Level::L1),
        3 => Some(Level::L2),
        4 => Some(Level::L3),
        _ => None,
    }
}

impl LevelOrder {
    ghost use Rattle.etcs_profile.specs.Transition.{level_order};

    // Reads the fields one by one, wherever the bits end. It stands apart so that the way of those far
    // from the end saves fewer registers.
    #[inline(never)]
    fn scan_fields(alloc: Global, cur: &mut Cursor<'_>) -> Result<Self, DecodeError>
        ensures gives { Gives level_order.rows result (read_rows level_order.fields cur.old) cur.new }
        ensures memory { IfMemory result ⊥ }
    {
        scan_each!(LevelOrder, alloc, cur; level, acknowledge)
    }
}

impl Layout for LevelOrder {
    ghost use Rattle.etcs_profile.specs.Transition.{level_order};

    ghost format = { level_order };

    #[tactic(auto, using(etcs_bits::proofs::PutLemmas::allowed_both))]
    fn is_allowed(&self) -> bool {
        each_allowed!(self; level, acknowledge)
    }

    #[tactic(auto, using(etcs_bits::proofs::WidthLemmas::width_both), unfolding(etcs_bits::specs::layout::Rows::alone))]
    fn width(&self) -> u64 {
        self.level.width().saturating_add(15)
    }

    #[tactic(auto, using(etcs_bits::proofs::PutLemmas::puts_then, etcs_bits::proofs::PutLemmas::keeps_front, etcs_bits::proofs::PutLemmas::allowed_both))]
    fn put(&self, out: &mut Bits) -> Result<(), Memory> {
        put_each!(self, out; level, acknowledge)
    }

    #[inline(always)]
    fn scan(alloc: Global, cur: &mut Cursor<'_>) -> Result<Self, DecodeError> {
        // Far from the end all fields are there. NID_NTC comes only at level NTC.
        let mut ahead = cur.fork();
        if let Some(numbers) = ahead.take_two(3, 15) {
            if let Some(level) = level_alone(numbers.0) {
                *cur = ahead;
                return Ok(LevelOrder {
                    level,
                    acknowledge: Plain::of_field(numbers.1),
                });
            }
        }
        LevelOrder::scan_fields(alloc, cur)
    }
}

impl Same for LevelOrder {
    fn same(&self, other: &Self) -> bool {
        each_same!(self, other; level, acknowledge)
    }
}
