//! The traits of values whose forms are objects: `Record`, `InRange`, `LayoutRecord`, `ObjectCodec` and `ObjectForm`.

ghost use Rattle.std.specs.Prelude.{◌≡◌, map, IsOk, OnOk};
ghost use Rattle.std.specs.List.{flat_map};
ghost use Rattle.etcs_bits.specs.layout.Rows.{AreAllowed};
ghost use Rattle.etcs_schema.specs.Choices.{any_object};
ghost use Rattle.etcs_schema.specs.Fault.{Returns, IfMemory};
ghost use Rattle.etcs_schema.specs.Reading.{only_keys};
ghost use Rattle.etcs_schema.specs.Codec.{Codec, Object, object_codec};
ghost use Rattle.etcs_schema.specs.ReadBack.{IsReadBack};
ghost use Rattle.etcs_schema.specs.Writing.{AddsMembers, data_tokens, sorted, sorted_keys};
ghost use Rattle.serde_json.specs.Data.{Data};
ghost use Rattle.serde_json.specs.Read.{max_depth};

use crate::{Form, WriteJson};
use etcs_bits::{Layout, Memory, are_allowed};
use etcs_schema::{FormError, JsonValue, TokenWriter, check_keys};
use json::{Token, Writer};
use serde_json::Value;
use std::alloc::Global;

/// A record whose form is an object.
pub trait Record: Drop {
    /// The rows of its bits, and its members in the order in which they are read.
    ghost object: { Object Self };

    /// The condition, in the record's own terms, that these rows are allowed. It always holds if the
    /// record's types keep their numbers and lists in range.
    ghost bounded: { Self → Type 0 } = { λ _. Unit {0} };
}

/// A record whose rows can be proved to be allowed, if it is bounded.
pub(crate) trait InRange: Record {
    /// Only for the proof: the rows are allowed if the record is bounded, and the form's text is read as the form.
    fn prove_in_range(&self)
        ensures rows { Self.bounded self.now → AreAllowed (Self.object.rows self.now) }
        ensures text { IsReadBack max_depth ((object_codec Self.object).to self.now) };
}

/// A record whose bits have a layout.
pub(crate) trait LayoutRecord: Record + Layout {
    /// The rows of the record are those of the layout.
    ghost keeps: { (x : Self) → (Self.Layout.fit x → AreAllowed (Self.Layout.format.rows x))
        → AreAllowed (Self.Record.object.rows x) };
}

#[tactic(auto, using(crate::proofs::LawLemmas::record_read))]
impl<T: LayoutRecord> InRange for T {
    fn prove_in_range(&self) {
        prove_allowed(self);
    }
}

/// A record whose members can be written and read.
pub(crate) trait ObjectCodec: InRange {
    /// Writes the members in the byte order of their keys. Fails only if memory runs out; part might then be written.
    fn write_members<M: TokenWriter>(&self, out: &mut M) -> Result<(), Memory>
        ensures { OnOk result (AddsMembers M.adds
            (sorted (Self.object.members.to self.now)) out.old out.new) };

    /// Reads an object with only these members. Refusing its keys allocates nothing.
    fn read_object<N: JsonValue>(alloc: Global, node: &N) -> Result<Self, FormError>
        ensures gives { Returns (λ x. x) result ((object_codec Self.object).of (N.value node.now)) }
        ensures memory { IfMemory result
            (IsOk (only_keys Self.object.members.keys (N.value node.now))) };
}

/// Only for the proof: each number of a record is allowed, if the record's type ensures it.
pub(crate) fn prove_allowed<T: Layout>(value: &T)
    ensures { T.fit value.now → AreAllowed (T.format.rows value.now) }
{
    let _allowed = value.is_allowed();
}

/// Lemma without code: the text of the form is read as the form, if the rows are allowed.
#[tactic(auto, using(crate::proofs::LawLemmas::record_read))]
pub(crate) fn prove_text<T: Record>(value: &T)
    requires { AreAllowed (T.object.rows value.now) }
    ensures { IsReadBack max_depth ((object_codec T.object).to value.now) }
{}

/// Only for the proof: each number of these records is allowed, if their type ensures it.
#[tactic(auto, using(crate::proofs::FitLemmas::each_fits))]
pub(crate) fn prove_all_allowed<T: Layout>(items: &[T])
    requires { (x : T) → T.fit x }
    ensures { AreAllowed (flat_map T.format.rows items.now) }
{
    let _allowed = are_allowed(items);
}

/// Refuses a value that is not an object, and an object with a key that the record does not have. Refusing
/// allocates nothing. The keys are given in byte order.
#[tactic(auto, using(etcs_schema::proofs::Keys::sorted_gives))]
pub(crate) fn check_record<T: Record, N: JsonValue>(
    alloc: Global,
    node: &N,
    keys: &[&str],
) -> Result<(), FormError>
    requires { map (λ l. l.now) keys.now ≡ sorted_keys T.object.members.keys }
    ensures keys { Returns (λ u. u) result (only_keys T.object.members.keys (N.value node.now)) }
    ensures memory { IfMemory result ⊥ }
{
    check_keys(alloc, node, keys)
}

/// A value whose form is an object: a record, or one of several records that a number distinguishes.
pub(crate) trait ObjectForm: Drop {
    /// Its form.
    ghost form: { Codec Self };

    /// The condition that it is in the range of its form.
    ghost in_range: { Self → Type 0 } = { λ _. Unit {0} };

    /// Whether reading can allocate.
    ghost asks: { Data → Type 0 } = { λ d. IsOk (any_object d) };

    /// Only for the proof: the rows are allowed if the value is in range, and the form's text is read as the form.
    fn prove_read_back(&self)
        ensures rows { in_range self.now → AreAllowed (form.rows self.now) }
        ensures text { IsReadBack max_depth (form.to self.now) };

    /// Writes the form. Fails only if memory runs out; part might then be written.
    fn write_object<M: TokenWriter>(&self, out: &mut M) -> Result<(), Memory>
        ensures { OnOk result (M.adds (data_tokens (form.to self.now)) out.old out.new) };

    /// Reads the form.
    fn read_form<N: JsonValue>(alloc: Global, node: &N) -> Result<Self, FormError>
        ensures gives { Returns (λ x. x) result (form.of (N.value node.now)) }
        ensures memory { IfMemory result (asks (N.value node.now)) };
}

impl<T: ObjectCodec> ObjectForm for T {
    ghost form = { object_codec T.object };

    ghost in_range = { T.bounded };

    ghost asks = { λ d. IsOk (only_keys T.object.members.keys d) };

    fn prove_read_back(&self) {
        self.prove_in_range();
    }

    fn write_object<M: TokenWriter>(&self, out: &mut M) -> Result<(), Memory> {
        out.token(Token::BeginObject)?;
        self.write_members(out)?;
        out.token(Token::EndObject)?;
        Ok(())
    }

    fn read_form<N: JsonValue>(alloc: Global, node: &N) -> Result<Self, FormError> {
        T::read_object(alloc, node)
    }
}

impl<T: ObjectForm> Form for T {
    ghost codec = { T.form };

    ghost in_range = { T.ObjectForm.in_range };

    ghost builds = { Unit {0} };

    ghost asks = { T.ObjectForm.asks };

    // The value is read from the text that `write_json` writes, so that a record is written in one way.
    fn to_form(&self, alloc: Global) -> Result<Value, Memory> {
        self.prove_read_back();
        let mut out = Writer::new(Vec::new(alloc));
        self.write_object(&mut out)?;
        let text = out.into_inner();
        match Value::from_slice(alloc, &text) {
            Ok(form) => Ok(form),
            Err(error) => {
                prove!(error.is_memory());
                Err(Memory)
            }
        }
    }

    fn read_json<N: JsonValue>(alloc: Global, node: &N) -> Result<Self, FormError> {
        T::read_form(alloc, node)
    }
}

impl<T: ObjectForm> WriteJson for T {
    #[inline(always)]
    fn write_json<M: TokenWriter>(&self, out: &mut M) -> Result<(), Memory> {
        self.write_object(out)
    }

    // Inlined: the key is then a constant.
    #[inline(always)]
    fn write_json_member<M: TokenWriter>(&self, name: &str, out: &mut M) -> Result<(), Memory> {
        out.token(Token::Key(name))?;
        self.write_object(out)?;
        Ok(())
    }
}
