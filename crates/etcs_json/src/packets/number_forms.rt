//! The JSON forms of variables, whole numbers in JSON: `Plain`, `Ranged`, `bool`, `Dir`, `Scale`, `Dup` and `Version`.
#![tactic(auto, unfolding(etcs_schema::specs::Reading::allowed_number))]

ghost use Rattle.etcs_bits.specs.variables.Variables.{plain, ranged};
ghost use Rattle.etcs_schema.specs.Variables.{direction, duplicate, flag, scale, variable, version};

use crate::{Form, WriteJson};
use etcs_bits::{Dir, Dup, Memory, Plain, Ranged, Scale, Version};
use etcs_schema::{FormError, JsonValue, TokenWriter};
use serde_json::Value;
use std::alloc::Global;

// The variable whose number this is. A number may be too high for `$kind::new` to be asked.
macro_rules! read_number {
    ($alloc:ident, $node:ident, $kind:ident) => {
        match $node.number() {
            None => Err(FormError::kind($alloc)),
            Some(number) => match u32::try_from(number) {
                Err(_) => Err(FormError::range($alloc)),
                Ok(number) => match $kind::new(number) {
                    None => Err(FormError::range($alloc)),
                    Some(variable) => Ok(variable),
                },
            },
        }
    };
}

pub(crate) use read_number;

impl<const W: u32> Form for Plain<W> {
    ghost codec = { variable (plain W) };

    fn to_form(&self, _alloc: Global) -> Result<Value, Memory> {
        Ok(Value::from(u64::from(self.number())))
    }

    fn read_json<N: JsonValue>(alloc: Global, node: &N) -> Result<Self, FormError> {
        read_number!(alloc, node, Plain)
    }
}

impl<const W: u32> WriteJson for Plain<W> {
    #[inline(always)]
    fn write_json<M: TokenWriter>(&self, out: &mut M) -> Result<(), Memory> {
        out.number(u64::from(self.number()))
    }

    #[inline(always)]
    fn write_json_member<M: TokenWriter>(&self, name: &str, out: &mut M) -> Result<(), Memory> {
        out.member(name, u64::from(self.number()))
    }
}

impl<const W: u32, const LAST: u32, const FROM: u32> Form for Ranged<W, LAST, FROM> {
    ghost codec = { variable (ranged W LAST FROM) };

    fn to_form(&self, _alloc: Global) -> Result<Value, Memory> {
        Ok(Value::from(u64::from(self.number())))
    }

    fn read_json<N: JsonValue>(alloc: Global, node: &N) -> Result<Self, FormError> {
        read_number!(alloc, node, Ranged)
    }
}

impl<const W: u32, const LAST: u32, const FROM: u32> WriteJson for Ranged<W, LAST, FROM> {
    #[inline(always)]
    fn write_json<M: TokenWriter>(&self, out: &mut M) -> Result<(), Memory> {
        out.number(u64::from(self.number()))
    }

    #[inline(always)]
    fn write_json_member<M: TokenWriter>(&self, name: &str, out: &mut M) -> Result<(), Memory> {
        out.member(name, u64::from(self.number()))
    }
}

impl Form for bool {
    ghost codec = { flag };

    fn to_form(&self, _alloc: Global) -> Result<Value, Memory> {
        Ok(Value::from(if *self { 1u64 } else { 0u64 }))
    }

    fn read_json<N: JsonValue>(alloc: Global, node: &N) -> Result<Self, FormError> {
        match node.number() {
            None => Err(FormError::kind(alloc)),
            Some(0) => Ok(false),
            Some(1) => Ok(true),
            Some(_) => Err(FormError::range(alloc)),
        }
    }
}

impl WriteJson for bool {
    #[inline(always)]
    fn write_json<M: TokenWriter>(&self, out: &mut M) -> Result<(), Memory> {
        out.number(if *self { 1u64 } else { 0u64 })
    }

    #[inline(always)]
    fn write_json_member<M: TokenWriter>(&self, name: &str, out: &mut M) -> Result<(), Memory> {
        out.member(name, if *self { 1u64 } else { 0u64 })
    }
}

impl Form for Dir {
    ghost codec = { direction };

    fn to_form(&self, _alloc: Global) -> Result<Value, Memory> {
        Ok(Value::from(u64::from(self.number())))
    }

    fn read_json<N: JsonValue>(alloc: Global, node: &N) -> Result<Self, FormError> {
        read_number!(alloc, node, Dir)
    }
}

impl WriteJson for Dir {
    #[inline(always)]
    fn write_json<M: TokenWriter>(&self, out: &mut M) -> Result<(), Memory> {
        out.number(u64::from(self.number()))
    }

    #[inline(always)]
    fn write_json_member<M: TokenWriter>(&self, name: &str, out: &mut M) -> Result<(), Memory> {
        out.member(name, u64::from(self.number()))
    }
}

impl Form for Scale {
    ghost codec = { scale };

    fn to_form(&self, _alloc: Global) -> Result<Value, Memory> {
        Ok(Value::from(u64::from(self.number())))
    }

    fn read_json<N: JsonValue>(alloc: Global, node: &N) -> Result<Self, FormError> {
        read_number!(alloc, node, Scale)
    }
}

impl WriteJson for Scale {
    #[inline(always)]
    fn write_json<M: TokenWriter>(&self, out: &mut M) -> Result<(), Memory> {
        out.number(u64::from(self.number()))
    }

    #[inline(always)]
    fn write_json_member<M: TokenWriter>(&self, name: &str, out: &mut M) -> Result<(), Memory> {
        out.member(name, u64::from(self.number()))
    }
}

impl Form for Dup {
    ghost codec = { duplicate };

    fn to_form(&self, _alloc: Global) -> Result<Value, Memory> {
        Ok(Value::from(u64::from(self.number())))
    }

    fn read_json<N: JsonValue>(alloc: Global, node: &N) -> Result<Self, FormError> {
        read_number!(alloc, node, Dup)
    }
}

impl WriteJson for Dup {
    #[inline(always)]
    fn write_json<M: TokenWriter>(&self, out: &mut M) -> Result<(), Memory> {
        out.number(u64::from(self.number()))
    }

    #[inline(always)]
    fn write_json_member<M: TokenWriter>(&self, name: &str, out: &mut M) -> Result<(), Memory> {
        out.member(name, u64::from(self.number()))
    }
}

impl Form for Version {
    ghost codec = { version };

    fn to_form(&self, _alloc: Global) -> Result<Value, Memory> {
        Ok(Value::from(u64::from(self.number())))
    }

    fn read_json<N: JsonValue>(alloc: Global, node: &N) -> Result<Self, FormError> {
        read_number!(alloc, node, Version)
    }
}

impl WriteJson for Version {
    #[inline(always)]
    fn write_json<M: TokenWriter>(&self, out: &mut M) -> Result<(), Memory> {
        out.number(u64::from(self.number()))
    }

    #[inline(always)]
    fn write_json_member<M: TokenWriter>(&self, name: &str, out: &mut M) -> Result<(), Memory> {
        out.member(name, u64::from(self.number()))
    }
}
