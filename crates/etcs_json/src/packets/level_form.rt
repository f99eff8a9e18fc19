//! The JSON form of `Level`: the level, with the national system of level NTC.

ghost use Rattle.std.specs.Prelude.{◌≡◌};
ghost use Rattle.etcs_bits.specs.variables.Level.{m_level};
ghost use Rattle.etcs_schema.specs.KeyedVariables.{row_number};
ghost use Rattle.etcs_json.specs.Transition.{level};

use crate::members::ReadMembers;
use etcs_bits::{Level, Plain, Ranged};
use etcs_schema::reading::check_absent;
use etcs_schema::{FormError, JsonValue};
use std::alloc::Global;

/// The national system of level NTC: NID_NTC, 8 bits.
#[tactic(auto, unfolding(etcs_bits::specs::layout::Rows::alone))]
pub(crate) fn national_system_of(level: Level) -> Option<Plain<8>>
    ensures { result ≡ row_number 1 (m_level.rows level) }
{
    match level {
        Level::Ntc(ntc) => Plain::new(u32::from(ntc)),
        _ => None,
    }
}

// The key of the level's number. NID_NTC is required at level NTC, and must be absent otherwise.
impl ReadMembers for Level {
    type Keys = &'static str;

    ghost reads = { λ name. (level name.now).of };

    #[tactic(auto, using(crate::proofs::KeyedLemmas::level_numbers, crate::proofs::KeyedLemmas::level_ends), unfolding(etcs_schema::specs::Reading::required_member))]
    fn read<N: JsonValue>(alloc: Global, node: &N, name: &'static str) -> Result<Level, FormError> {
        let number: Ranged<3, 4, 8> = ReadMembers::read(alloc, node, name)?;
        if number.number() == 1 {
            let ntc: Plain<8> = ReadMembers::read(alloc, node, "nid_ntc")?;
            return Ok(Level::Ntc(ntc.number() as u8));
        }
        check_absent(alloc, node, "nid_ntc")?;
        match number.number() {
            0 => Ok(Level::L0),
            2 => Ok(Level::L1),
            3 => Ok(Level::L2),
            _ => Ok(Level::L3),
        }
    }
}
