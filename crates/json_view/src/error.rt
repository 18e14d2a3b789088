// Why a text does not read, or what it holds is not what is wanted.
ghost use Rattle.std.specs.Prelude.{◌≡◌};
ghost use Rattle.json_view.specs.declared.error.JsonErr.TheVariants.{OutOfMemory};
ghost use Rattle.json_view.specs.Shape.{word_of};

use rel_path::Text;
use std::alloc::{AllocError, AllocFailed};

/// What is wanted of a value.
#[derive(Clone, Copy, Debug, PartialEq, Eq)]
pub enum Shape {
    /// A string.
    Text,
    /// An array of strings.
    Texts,
    /// `true` or `false`.
    Flag,
    /// A whole number from 0 to 2^64 - 1, written without point and exponent.
    Whole,
    /// An object.
    Object,
    /// A string that is one of some words. No look-up of this crate asks for it: it serves the crates
    /// that read such words.
    Choice,
}

impl Shape {
    /// The word by which messages name the shape.
    pub fn word(self) -> &'static str
        ensures { result.now ≡ word_of self }
    {
        match self {
            Shape::Text => "text",
            Shape::Texts => "texts",
            Shape::Flag => "flag",
            Shape::Whole => "whole",
            Shape::Object => "object",
            Shape::Choice => "choice",
        }
    }
}

/// Why a call of this crate gives no value. Memory may be wanting at any call that takes some.
#[derive(Debug, Drop)]
pub enum JsonErr {
    /// The bytes are no JSON text.
    NotJson,
    /// At the pointer stands something else than what is wanted.
    WrongKind { pointer: Text, wanted: Shape },
    /// The block comment whose `/` is the byte `at` has no end. Bytes count from 0.
    OpenComment { at: u64 },
    OutOfMemory,
}

impl From<AllocError> for JsonErr {
    ghost from_gives = { λ _ e. e ≡ OutOfMemory };

    fn from(_error: AllocError) -> JsonErr {
        JsonErr::OutOfMemory
    }
}

impl<T: Drop> From<AllocFailed<T>> for JsonErr {
    ghost from_gives = { λ _ e. e ≡ OutOfMemory };

    fn from(_error: AllocFailed<T>) -> JsonErr {
        JsonErr::OutOfMemory
    }
}
