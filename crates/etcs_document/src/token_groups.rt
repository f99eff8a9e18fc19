//! The trait `FromTokens`: the groups and the messages of a document, read from a `TokenReader`.

ghost use Rattle.std.specs.Prelude.{IfSome};
ghost use Rattle.serde_json.specs.Data.{Data};
ghost use Rattle.etcs_document.specs.DocumentTokens.{HasGroup, IsAspect, IsBalises, IsFirst, IsGroup, IsList, IsMessage, IsTelegram};
ghost use Rattle.etcs_document.specs.Taken.{AreTaken};

use crate::document_groups::as_only_aspect;
use crate::sink::Sink;
use crate::token_reader::{TextKind, TokenReader};
use etcs_group::{Controlled, Group};
use etcs_radio::Message;
use etcs_telegram::Telegram;
use std::alloc::Global;

/// A value that can be read from tokens.
pub(crate) trait FromTokens: Drop {
    /// Whether a JSON value denotes this value.
    ghost is_value: { Data → Self → Type 0 };

    /// Reads the next value. `None` means undecided.
    fn from_tokens(alloc: Global, reader: &mut TokenReader<'_>, depth: usize) -> Option<Self>
        ensures { IfSome result (λ x. IsFirst is_value depth reader.old x reader.new) };
}

/// Reads a list, and passes each item to the sink.
pub(crate) fn items<T: FromTokens, K: Sink<T>>(
    alloc: Global,
    reader: &mut TokenReader<'_>,
    depth: usize,
    sink: &mut K,
) -> Option<()>
    ensures { IfSome result (λ _. AreTaken (λ xs. IsFirst (IsList T.is_value) depth reader.old xs reader.new)
        K.takes sink.old sink.new) }
{
    let inner = reader.pass_open(b'[', depth)?;
    'items: while !reader.pass_close(b']') {
        let item = T::from_tokens(alloc, reader, inner)?;
        sink.take(alloc, item).ok()?;
    }
    Some(())
}

impl FromTokens for Telegram {
    ghost is_value = { IsTelegram };

    fn from_tokens(alloc: Global, reader: &mut TokenReader<'_>, _depth: usize) -> Option<Telegram> {
        let text = reader.text(TextKind::Telegram)?;
        etcs_telegram::from_hex(alloc, text).ok()
    }
}

impl FromTokens for Message {
    ghost is_value = { IsMessage };

    fn from_tokens(alloc: Global, reader: &mut TokenReader<'_>, _depth: usize) -> Option<Message> {
        let text = reader.text(TextKind::Message)?;
        etcs_radio::from_hex(alloc, text).ok()
    }
}

// Reads a list of balises.
fn balises(alloc: Global, reader: &mut TokenReader<'_>, depth: usize) -> Option<Group>
    ensures { IfSome result (λ g. IsFirst IsBalises depth reader.old g reader.new) }
{
    let mut telegrams = Vec::with_capacity(alloc, 8).ok()?;
    items::<Telegram, Vec<Telegram>>(alloc, reader, depth, &mut telegrams)?;
    Group::new(telegrams).ok()
}

// An aspect.
impl FromTokens for Group {
    ghost is_value = { IsAspect };

    fn from_tokens(alloc: Global, reader: &mut TokenReader<'_>, depth: usize) -> Option<Group> {
        let inner = reader.pass_open(b'{', depth)?;
        reader.pass_key("balises").then_some(())?;
        let group = balises(alloc, reader, inner)?;
        reader.pass_close(b'}').then_some(group)
    }
}

// Reads the one member of a group.
fn group_member(alloc: Global, reader: &mut TokenReader<'_>, depth: usize) -> Option<Controlled>
    ensures { IfSome result (λ c. HasGroup depth reader.old c reader.new) }
{
    if reader.pass_key("balises") {
        let group = balises(alloc, reader, depth)?;
        return as_only_aspect(alloc, group).ok();
    }
    if reader.pass_key("aspects") {
        let mut aspects = Vec::new(alloc);
        items::<Group, Vec<Group>>(alloc, reader, depth, &mut aspects)?;
        return Controlled::new(aspects).ok();
    }
    None
}

// A group.
impl FromTokens for Controlled {
    ghost is_value = { IsGroup };

    fn from_tokens(
        alloc: Global,
        reader: &mut TokenReader<'_>,
        depth: usize,
    ) -> Option<Controlled> {
        let inner = reader.pass_open(b'{', depth)?;
        let group = group_member(alloc, reader, inner)?;
        reader.pass_close(b'}').then_some(group)
    }
}
