//! The JSON form of `Integrity`: Q_LENGTH, with the length that is confirmed.

ghost use Rattle.std.specs.Prelude.{◌≡◌};
ghost use Rattle.etcs_radio.specs.Integrity.{length_number as number_of_length, q_length};
ghost use Rattle.etcs_schema.specs.KeyedVariables.{row_number};
ghost use Rattle.etcs_json.specs.Report.{integrity};

use crate::members::ReadMembers;
use crate::packets::number_forms::read_number;
use crate::{Form, WriteJson};
use etcs_bits::{Distance, Memory, Plain};
use etcs_radio::{Integrity, Train3};
use etcs_schema::reading::check_absent;
use etcs_schema::{FormError, JsonValue, TokenWriter};
use serde_json::Value;
use std::alloc::Global;

/// The number of Q_LENGTH, 0 to 3.
pub(crate) fn length_number(integrity: Integrity) -> u64
    ensures { result ≡ number_of_length integrity }
{
    match integrity {
        Integrity::Q0 => 0,
        Integrity::Q1(_) => 1,
        Integrity::Q2(_) => 2,
        Integrity::Q3 => 3,
    }
}

/// The length that is confirmed: L_TRAININT, 15 bits, at Q_LENGTH 1 and 2.
#[tactic(auto, unfolding(etcs_bits::specs::layout::Rows::alone))]
pub(crate) fn confirmed_length(integrity: Integrity) -> Option<Distance>
    ensures { result ≡ row_number 1 (q_length.rows integrity) }
{
    match integrity {
        Integrity::Q1(length) => Some(length),
        Integrity::Q2(length) => Some(length),
        Integrity::Q0 => None,
        Integrity::Q3 => None,
    }
}

// L_TRAININT is required at Q_LENGTH 1 and 2, and must be absent otherwise.
impl ReadMembers for Integrity {
    type Keys = ();

    ghost reads = { λ _. integrity.of };

    #[tactic(auto, using(crate::proofs::KeyedLemmas::length_numbers, crate::proofs::KeyedLemmas::length_ends), unfolding(etcs_schema::specs::Reading::required_member, etcs_schema::specs::Reading::absent_member))]
    fn read<N: JsonValue>(alloc: Global, node: &N, _keys: ()) -> Result<Integrity, FormError> {
        let number: Plain<2> = ReadMembers::read(alloc, node, "q_length")?;
        if number.number() == 1 {
            return Ok(Integrity::Q1(ReadMembers::read(alloc, node, "l_trainint")?));
        }
        if number.number() == 2 {
            return Ok(Integrity::Q2(ReadMembers::read(alloc, node, "l_trainint")?));
        }
        check_absent(alloc, node, "l_trainint")?;
        if number.number() == 0 {
            return Ok(Integrity::Q0);
        }
        Ok(Integrity::Q3)
    }
}

#[tactic(auto, unfolding(etcs_schema::specs::Reading::allowed_number))]
impl Form for Train3 {
    ghost use Rattle.etcs_json.specs.Report.{side};

    ghost codec = { side };

    fn to_form(&self, _alloc: Global) -> Result<Value, Memory> {
        Ok(Value::from(u64::from(self.number())))
    }

    fn read_json<N: JsonValue>(alloc: Global, node: &N) -> Result<Self, FormError> {
        read_number!(alloc, node, Train3)
    }
}

impl WriteJson for Train3 {
    #[inline(always)]
    fn write_json<M: TokenWriter>(&self, out: &mut M) -> Result<(), Memory> {
        out.number(u64::from(self.number()))
    }

    #[inline(always)]
    fn write_json_member<M: TokenWriter>(&self, name: &str, out: &mut M) -> Result<(), Memory> {
        out.member(name, u64::from(self.number()))
    }
}
