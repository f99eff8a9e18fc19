//! `FormError`: why a JSON value is not the form of a record. Its `Path` of `Step`s names the place.

ghost use Rattle.std.specs.Prelude.{◌≡◌, ◌∷◌, Some, IfOk, map};
ghost use Rattle.etcs_schema.specs.Fault.{IsPrefixedError, IsFault, Kind, Missing, OfMemory, Range, Unknown, at_once, here, key, step_view};

use etcs_bits::Memory;
use std::alloc::Global;
use std::fmt;
use thiserror::Error;

/// One step of the path from a JSON value to a value inside it.
#[derive(Clone, Copy, Debug, PartialEq, Eq)]
pub enum Step {
    /// To the value at this key of an object.
    Key(&'static str),
    /// To the item at this index of a list, counted from 0.
    Place(usize),
}

/// Why a JSON value is not the form of a record: its first fault, with its path from the whole value inwards.
/// The path of `Missing` ends with the missing key.
#[derive(Debug, Drop, Error)]
pub enum FormError {
    /// Memory ran out. A fault might then be unreported.
    #[error("out of memory")]
    Memory,
    /// The object lacks a key.
    #[error("form missing key at {path}", path = Path(.0.as_slice()))]
    Missing(Vec<Step>),
    /// The object has a key that its form does not have. The path leads to the object.
    #[error("form unknown key at {path}", path = Path(.0.as_slice()))]
    Unknown(Vec<Step>),
    /// The value is of the wrong kind, such as a text for a number. A number with a sign, a point or an
    /// exponent, and a number above 2^64 - 1, are of the wrong kind for a variable. A body that is not hexadecimal
    /// is of the wrong kind too.
    #[error("form kind at {path}", path = Path(.0.as_slice()))]
    Kind(Vec<Step>),
    /// The value is of the right kind, but not allowed: a number that its variable does not have, a list with too
    /// few or too many items, a body of another length or with pad bits set, a packet that is too long, a message
    /// without the packet that it must contain, or a key that must be absent.
    #[error("form range at {path}", path = Path(.0.as_slice()))]
    Range(Vec<Step>),
}

impl fmt::Display for Step {
    ghost use Rattle.etcs_schema.specs.Path.{step_words};

    ghost output = { λ step. Some (step_words (step_view step)) };

    fn fmt<W: fmt::Write>(&self, f: &mut fmt::Formatter<W>) -> fmt::Result {
        match self {
            Step::Key(name) => write!(f, "/{name}"),
            Step::Place(place) => write!(f, "/{place}"),
        }
    }
}

/// The path to a value, printed as `/packets/0`. A single slash is the whole value.
#[derive(Clone, Copy)]
pub struct Path<'a>(pub &'a [Step]);

impl fmt::Display for Path<'_> {
    ghost use Rattle.etcs_schema.specs.Path.{path_words};

    ghost output = { λ path. Some (path_words (map step_view path.0.now)) };

    fn fmt<W: fmt::Write>(&self, f: &mut fmt::Formatter<W>) -> fmt::Result {
        if self.0.is_empty() {
            return write!(f, "/");
        }
        'steps: for step in self.0 {
            write!(f, "{step}")?;
        }
        Ok(())
    }
}

impl From<Memory> for FormError {
    ghost use Rattle.etcs_schema.specs.declared.error.FormError.TheVariants as errors;

    ghost from_gives = { λ _ error. error ≡ errors.Memory };

    fn from(_memory: Memory) -> FormError {
        FormError::Memory
    }
}

// The path with one more step in front.
fn longer(path: Vec<Step>, step: Step) -> Result<Vec<Step>, Memory>
    ensures { IfOk result (λ p. p.items ≡ step ∷ path.items) }
{
    let mut path = path;
    path.insert(0, step)?;
    Ok(path)
}

impl FormError {
    /// The value itself is of another kind.
    pub fn kind(alloc: Global) -> FormError
        ensures fault { IsFault result (here Kind) }
        ensures memory { OfMemory result ⊥ }
    {
        FormError::Kind(Vec::new(alloc))
    }

    /// The value itself is not allowed.
    pub fn range(alloc: Global) -> FormError
        ensures fault { IsFault result (here Range) }
        ensures memory { OfMemory result ⊥ }
    {
        FormError::Range(Vec::new(alloc))
    }

    /// The value is an object with a key that its form does not have.
    pub fn unknown(alloc: Global) -> FormError
        ensures fault { IsFault result (here Unknown) }
        ensures memory { OfMemory result ⊥ }
    {
        FormError::Unknown(Vec::new(alloc))
    }

    /// The value is an object that lacks this key. `Memory` if the path does not fit in memory.
    pub fn missing(alloc: Global, name: &'static str) -> FormError
        ensures { IsFault result (at_once Missing (key name.now)) }
    {
        FormError::Missing(Vec::new(alloc)).under(Step::Key(name))
    }

    /// The value at this key is not allowed. `Memory` if the path does not fit in memory.
    pub fn range_at(alloc: Global, name: &'static str) -> FormError
        ensures { IsFault result (at_once Range (key name.now)) }
    {
        let here = FormError::Range(Vec::new(alloc));
        here.under(Step::Key(name))
    }

    // The same fault with this step in front of its path, as the enclosing value reports it.
    fn moved(self, step: Step) -> Result<FormError, Memory>
        ensures { IfOk result (λ e. IsPrefixedError (step_view step) self e) }
    {
        match self {
            FormError::Memory => Ok(FormError::Memory),
            FormError::Missing(path) => Ok(FormError::Missing(longer(path, step)?)),
            FormError::Unknown(path) => Ok(FormError::Unknown(longer(path, step)?)),
            FormError::Kind(path) => Ok(FormError::Kind(longer(path, step)?)),
            FormError::Range(path) => Ok(FormError::Range(longer(path, step)?)),
        }
    }

    /// The same fault with this step in front of its path, for the enclosing value. `Memory` if it does not fit.
    pub fn under(self, step: Step) -> FormError
        ensures { IsPrefixedError (step_view step) self result }
    {
        match self.moved(step) {
            Ok(error) => error,
            Err(Memory) => FormError::Memory,
        }
    }
}
