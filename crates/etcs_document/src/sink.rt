//! The trait `Sink`: what takes the items of a list one after the other.

ghost use Rattle.std.specs.Prelude.{◌≡◌, ◌++◌, ◌∷◌, [], IfErr, OnOk};
ghost use Rattle.etcs_check.specs.LineChecker.{TakesGroups, TakesMessages};
ghost use Rattle.etcs_document.specs.declared.line_error.LineError.TheVariants as errors;

use crate::line_error::LineError;
use etcs_check::LineChecker;
use etcs_group::Controlled;
use etcs_radio::Message;
use std::alloc::Global;

/// A list that keeps the items which it takes, or a checker, which does not keep them.
pub(crate) trait Sink<T> {
    /// How the state changes when an item is taken.
    ghost takes: { Self → T → Self → Type 0 };

    /// Takes the next item. Fails only if memory runs out.
    fn take(&mut self, alloc: Global, item: T) -> Result<(), LineError>
        ensures taken { OnOk result (takes self.old item self.new) }
        ensures memory { IfErr result (λ e. e ≡ errors.Memory) };
}

impl<T: Drop> Sink<T> for Vec<T> {
    ghost takes = { λ old item new. new.items ≡ old.items ++ item ∷ [] };

    #[inline]
    fn take(&mut self, _alloc: Global, item: T) -> Result<(), LineError> {
        Ok(self.push(item)?)
    }
}

impl Sink<Controlled> for LineChecker {
    ghost takes = { λ old group new. TakesGroups old (group ∷ []) new };

    fn take(&mut self, alloc: Global, group: Controlled) -> Result<(), LineError> {
        self.group(alloc, &group).or(Err(LineError::Memory))
    }
}

impl Sink<Message> for LineChecker {
    ghost takes = { λ old message new. TakesMessages old (message ∷ []) new };

    fn take(&mut self, alloc: Global, message: Message) -> Result<(), LineError> {
        self.message(alloc, &message).or(Err(LineError::Memory))
    }
}
