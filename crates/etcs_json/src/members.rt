//! Members of an object as one value: nested pairs. A chain of members is written or read by one call, and only a
//! pair needs a proof.

ghost use Rattle.std.specs.Prelude.{◌≡◌, ◌∷◌, ◌++◌, [], List, Some, Result, OnOk};
ghost use Rattle.serde_json.specs.Data.{Data, array};
ghost use Rattle.etcs_schema.specs.Entries.{Entry};
ghost use Rattle.etcs_schema.specs.Fault.{Fault, Returns};
ghost use Rattle.etcs_schema.specs.Lists.{unbounded_list};
ghost use Rattle.etcs_schema.specs.Reading.{required_member, optional_member, bounded_list};
ghost use Rattle.etcs_schema.specs.Writing.{AddsMembers, each_tokens};
ghost use Rattle.etcs_schema.specs.Codec.{decoded_pair, first_and_others, encoded_items, number_data, optional as data_if};

use crate::reading::{read_items, read_list, read_non_empty};
use crate::{Form, WriteJson};
use etcs_bits::{Items, Memory};
use etcs_schema::reading::{member, under};
use etcs_schema::{FormError, JsonValue, Step, TokenWriter};
use json::Token;
use std::alloc::Global;
use std::marker::Model;

// ---- writing

/// Members with their values.
pub(crate) trait WriteMembers {
    /// The members.
    ghost entries: { Self → List Entry };

    /// Writes them one after the other. Fails only if memory runs out; part might then be written.
    fn write<M: TokenWriter>(&self, out: &mut M) -> Result<(), Memory>
        ensures { OnOk result (AddsMembers M.adds (entries self.now) out.old out.new) };

    /// The same as `write`, stated for any entries that are equal to these, so that a caller proves only the
    /// equation.
    #[inline(always)]
    final fn write_all<M: TokenWriter>(&self, out: &mut M) -> Result<(), Memory>
        ensures { (es : List Entry) → es ≡ entries self.now
            → OnOk result (AddsMembers M.adds es out.old out.new) }
    {
        self.write(out)
    }
}

/// A member.
#[derive(Drop)]
pub(crate) struct Member<'a, T>(pub(crate) &'static str, pub(crate) &'a T);

#[tactic(auto, unfolding(etcs_schema::specs::Writing::AddsMembers))]
impl<T: WriteJson> WriteMembers for Member<'_, T> {
    ghost entries = { λ m. (m.0.now, Some (T.codec.to m.1.now)) ∷ [] };

    #[inline(always)]
    fn write<M: TokenWriter>(&self, out: &mut M) -> Result<(), Memory> {
        self.1.write_json_member(self.0, out)
    }
}

/// A member that is omitted if there is no value.
#[derive(Drop)]
pub(crate) struct OptionalMember<'a, T>(pub(crate) &'static str, pub(crate) &'a Option<T>);

#[tactic(auto, unfolding(etcs_schema::specs::Writing::AddsMembers))]
impl<T: WriteJson> WriteMembers for OptionalMember<'_, T> {
    ghost entries = { λ m. (m.0.now, data_if T.codec.to m.1.now) ∷ [] };

    #[inline(always)]
    fn write<M: TokenWriter>(&self, out: &mut M) -> Result<(), Memory> {
        match self.1 {
            Some(value) => value.write_json_member(self.0, out),
            None => Ok(()),
        }
    }
}

/// A member that is a number.
#[derive(Drop)]
pub(crate) struct NumberMember(pub(crate) &'static str, pub(crate) u64);

#[tactic(auto, unfolding(etcs_schema::specs::Writing::AddsMembers))]
impl WriteMembers for NumberMember {
    ghost entries = { λ m. (m.0.now, Some (number_data m.1)) ∷ [] };

    #[inline(always)]
    fn write<M: TokenWriter>(&self, out: &mut M) -> Result<(), Memory> {
        out.member(self.0, self.1)
    }
}

// Writes items one after the other, without the brackets of a list.
fn write_items<M: TokenWriter, T: WriteJson>(out: &mut M, items: &[T]) -> Result<(), Memory>
    ensures { OnOk result (M.adds (each_tokens T.codec.to items.now) out.old out.new) }
{
    'items: for item in items {
        item.write_json(out)?;
    }
    Ok(())
}

/// A member that is a list.
#[derive(Drop)]
pub(crate) struct ListMember<'a, T>(pub(crate) &'static str, pub(crate) &'a [T]);

impl<T: WriteJson> WriteMembers for ListMember<'_, T> {
    ghost entries = { λ m. (m.0.now, Some (array (encoded_items T.codec.to m.1.now))) ∷ [] };

    #[inline(always)]
    fn write<M: TokenWriter>(&self, out: &mut M) -> Result<(), Memory> {
        out.token(Token::Key(self.0))?;
        out.token(Token::BeginArray)?;
        write_items(out, self.1)?;
        out.token(Token::EndArray)?;
        Ok(())
    }
}

/// A member that is a list of one or more items.
#[derive(Drop)]
pub(crate) struct NonEmptyMember<'a, T>(
    pub(crate) &'static str,
    pub(crate) &'a T,
    pub(crate) &'a [T],
);

impl<T: WriteJson> WriteMembers for NonEmptyMember<'_, T> {
    ghost entries = { λ m. (m.0.now, Some (array (encoded_items T.codec.to (m.1.now ∷ m.2.now)))) ∷ [] };

    #[inline(always)]
    fn write<M: TokenWriter>(&self, out: &mut M) -> Result<(), Memory> {
        out.token(Token::Key(self.0))?;
        out.token(Token::BeginArray)?;
        self.1.write_json(out)?;
        write_items(out, self.2)?;
        out.token(Token::EndArray)?;
        Ok(())
    }
}

impl<A: WriteMembers, B: WriteMembers> WriteMembers for (A, B) {
    ghost entries = { λ p. A.entries p.0 ++ B.entries p.1 };

    #[inline(always)]
    fn write<M: TokenWriter>(&self, out: &mut M) -> Result<(), Memory> {
        self.0.write(out)?;
        self.1.write(out)?;
        Ok(())
    }
}

// ---- reading

/// A value that is read from a JSON value.
pub(crate) trait FromJson: Drop {
    /// What reading gives.
    ghost reads: { Data → Result Self Fault };

    /// Reads it.
    fn from_json<N: JsonValue>(alloc: Global, node: &N) -> Result<Self, FormError>
        ensures { Returns (λ x. x) result (reads (N.value node.now)) };
}

impl<T: Form> FromJson for T {
    ghost reads = { T.codec.of };

    #[inline(always)]
    fn from_json<N: JsonValue>(alloc: Global, node: &N) -> Result<T, FormError> {
        T::read_json(alloc, node)
    }
}

impl<T: Form> FromJson for Items<T> {
    ghost reads = { bounded_list T.codec.of 0 31 };

    fn from_json<N: JsonValue>(alloc: Global, node: &N) -> Result<Items<T>, FormError> {
        let items = read_list(alloc, node, 0, 31)?;
        Ok(Items::new(items))
    }
}

/// A list of any number of items.
#[derive(Drop)]
pub(crate) struct Listed<T> {
    pub(crate) value: Vec<T>,
}

impl<T> Model for Listed<T> {
    ghost Value = { List T };

    ghost view = { λ m. m.value.items };
}

impl<T: Form> FromJson for Listed<T> {
    ghost reads = { unbounded_list T.codec.of };

    #[tactic(auto, unfolding(etcs_schema::specs::Lists::unbounded_list))]
    fn from_json<N: JsonValue>(alloc: Global, node: &N) -> Result<Listed<T>, FormError> {
        match node.items() {
            None => Err(FormError::kind(alloc)),
            Some(items) => {
                let value = read_items::<T, N>(alloc, items)?;
                Ok(Listed { value })
            }
        }
    }
}

/// A list of 1 to 32 items: the first, and the others.
#[derive(Drop)]
pub(crate) struct NonEmpty<T> {
    pub(crate) first: T,
    pub(crate) further: Vec<T>,
}

impl<T> Model for NonEmpty<T> {
    ghost use Rattle.std.specs.Prelude.{◌<◌, List, length};

    ghost Value = { T × List T };

    ghost view = { λ m. (m.first, m.further.items) };

    ghost invariant = { λ m. length m.further.items < 32 };
}

impl<T: Form> FromJson for NonEmpty<T> {
    ghost reads = { first_and_others T.codec.of 32 };

    #[tactic(auto, using(crate::proofs::ReadLemmas::few_listed))]
    fn from_json<N: JsonValue>(alloc: Global, node: &N) -> Result<NonEmpty<T>, FormError> {
        let (first, further) = read_non_empty(alloc, node, 32)?;
        Ok(NonEmpty { first, further })
    }
}

/// A value that is read from one or more members of an object.
pub(crate) trait ReadMembers: Drop {
    /// The keys of the members.
    type Keys: Copy;

    /// What reading gives.
    ghost reads: { Self.Keys → Data → Result Self Fault };

    /// Reads it.
    fn read<N: JsonValue>(alloc: Global, node: &N, keys: Self::Keys) -> Result<Self, FormError>
        ensures { Returns (λ x. x) result (reads keys (N.value node.now)) };
}

// A required member. Inlined: a constant key is found in less time.
impl<T: FromJson> ReadMembers for T {
    type Keys = &'static str;

    ghost reads = { λ key. required_member T.reads key.now };

    #[inline(always)]
    #[tactic(auto, using(etcs_schema::proofs::Objects::member_read))]
    fn read<N: JsonValue>(alloc: Global, node: &N, key: &'static str) -> Result<T, FormError> {
        let found = member(alloc, node, key)?;
        under(key, T::from_json(alloc, &found))
    }
}

// An optional member.
impl<T: FromJson> ReadMembers for Option<T> {
    type Keys = &'static str;

    ghost reads = { λ key. optional_member T.reads key.now };

    #[inline(always)]
    #[tactic(auto, using(etcs_schema::proofs::Objects::fails_under), unfolding(etcs_schema::specs::Reading::optional_member))]
    fn read<N: JsonValue>(
        alloc: Global,
        node: &N,
        key: &'static str,
    ) -> Result<Option<T>, FormError> {
        match node.member(key) {
            None => Ok(None),
            Some(found) => match T::from_json(alloc, &found) {
                Ok(read) => Ok(Some(read)),
                Err(error) => Err(error.under(Step::Key(key))),
            },
        }
    }
}

// Members one after the other.
impl<A: ReadMembers, B: ReadMembers> ReadMembers for (A, B) {
    type Keys = (A::Keys, B::Keys);

    ghost reads = { λ keys. decoded_pair (A.reads keys.0) (B.reads keys.1) };

    #[inline(always)]
    fn read<N: JsonValue>(
        alloc: Global,
        node: &N,
        keys: (A::Keys, B::Keys),
    ) -> Result<(A, B), FormError> {
        let first = A::read(alloc, node, keys.0)?;
        let second = B::read(alloc, node, keys.1)?;
        Ok((first, second))
    }
}

// ---- nested pairs

// These values as nested pairs.
macro_rules! pairs {
    ($last:expr) => { $last };
    ($first:expr, $($more:expr),+) => { ($first, $crate::members::pairs!($($more),+)) };
}

// Writes members in the byte order of their keys.
macro_rules! write_members {
    ($out:ident; $($member:expr),+ $(,)?) => {
        $crate::members::WriteMembers::write_all(&$crate::members::pairs!($($member),+), $out)
    };
}

// Refuses a value that is not an object, and an object with another key. The keys are in byte order.
macro_rules! check_members {
    ($alloc:ident, $node:ident; $($key:literal),+) => {
        $crate::record::check_record::<Self, N>($alloc, $node, &[$($key),+])?
    };
}

// The record of the fields in brackets and of the members that were read.
macro_rules! make_record {
    ($record:ident, $found:ident; [$($done:tt)*] $field:ident) => {{
        let $field = $found;
        $record { $($done)* $field }
    }};
    ($record:ident, $found:ident; [$($done:tt)*] $field:ident, $($more:ident),+) => {{
        let ($field, rest) = $found;
        $crate::members::make_record!($record, rest; [$($done)* $field,] $($more),+)
    }};
}

// Reads the fields of a record, each at its key, in this order.
macro_rules! read_record {
    ($record:ident, $alloc:ident, $node:ident; $($field:ident $key:expr),+ $(,)?) => {{
        let keys = $crate::members::pairs!($($key),+);
        let found = $crate::members::ReadMembers::read($alloc, $node, keys)?;
        Ok($crate::members::make_record!($record, found; [] $($field),+))
    }};
}

pub(crate) use check_members;
pub(crate) use make_record;
pub(crate) use pairs;
pub(crate) use read_record;
pub(crate) use write_members;
