//! The traits `Form`, values with a JSON form that is read and written, and `WriteJson`, which writes a form token by
//! token.

ghost use Rattle.std.specs.Prelude.{◌≡◌, ◌∷◌, [], Some, Ok, IfOk, OnErr, OnOk};
ghost use Rattle.serde_json.specs.Data.{Data};
ghost use Rattle.serde_json.specs.View.{view};
ghost use Rattle.etcs_schema.specs.Fault.{Returns, IfMemory};
ghost use Rattle.etcs_schema.specs.Writing.{entries_tokens, data_tokens};
ghost use Rattle.etcs_schema.specs.Codec.{Codec};

use etcs_bits::Memory;
use etcs_schema::{FormError, JsonValue, TokenWriter};
use serde_json::Value;
use std::alloc::Global;

/// A value with a JSON form.
pub trait Form: Drop {
    /// What a value is written as, and what any JSON value is read as. Reading what was written gives each
    /// value in range again.
    ghost codec: { Codec Self };

    /// The condition, in the value's own terms, that it is in the range of its form. It always holds if the
    /// value's type keeps its numbers and lists in range.
    ghost in_range: { Self → Type 0 } = { λ _. Unit {0} };

    /// Whether making the form can allocate. By default it never does, as for a number.
    ghost builds: { Type 0 } = { ⊥ };

    /// Whether reading this value can allocate. These faults need no memory: any fault of a number, a value that
    /// is not an object, and in a record an object with an unknown key.
    ghost asks: { Data → Type 0 } = { λ _. ⊥ };

    /// The form as a JSON value, which is read as this value again if the value is in range. Fails only if
    /// memory runs out; then no form is returned.
    fn to_form(&self, alloc: Global) -> Result<Value, Memory>
        ensures form { IfOk result (λ v. view v ≡ codec.to self.now) }
        ensures again { in_range self.now
            → IfOk result (λ v. codec.of (view v) ≡ Ok self.now) }

        // A form without allocation never fails.
        ensures memory { OnErr result builds };

    /// Reads a form from any JSON value, with the result of [`Form::of_form`].
    fn read_json<N: JsonValue>(alloc: Global, node: &N) -> Result<Self, FormError>
        ensures gives { Returns (λ x. x) result (codec.of (N.value node.now)) }

        // Reading without allocation never runs out of memory.
        ensures memory { IfMemory result (asks (N.value node.now)) };

    /// Reads a form. The error is its first fault, in the order in which the form is read, with the path to
    /// it.
    fn of_form(alloc: Global, value: &Value) -> Result<Self, FormError>
        ensures gives { Returns (λ x. x) result (codec.of (view value.now)) }

        // Reading without allocation never runs out of memory.
        ensures memory { IfMemory result (asks (view value.now)) }
    {
        Self::read_json(alloc, &value)
    }
}

/// A value whose form can be written token by token, without a JSON value in memory.
pub trait WriteJson: Form {
    /// Writes the form to a writer of JSON, or to a [`JsonLineWriter`](etcs_digits::JsonLineWriter). Fails only if memory
    /// runs out; part of the form might then be written.
    fn write_json<M: TokenWriter>(&self, out: &mut M) -> Result<(), Memory>
        ensures { OnOk result (M.adds (data_tokens (Self.codec.to self.now)) out.old out.new) };

    /// Writes a member: a key, and the form as its value. Fails only if memory runs out; part might then be written.
    fn write_json_member<M: TokenWriter>(&self, name: &str, out: &mut M) -> Result<(), Memory>
        ensures { OnOk result (M.adds
            (entries_tokens ((name.now, Some (Self.codec.to self.now)) ∷ [])) out.old out.new) };
}
