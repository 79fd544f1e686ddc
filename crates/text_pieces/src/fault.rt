ghost use Rattle.std.specs.Prelude.{◌≡◌, Some};
ghost use Rattle.text_pieces.specs.Faults.{narrow_text, fault_text};
ghost use Rattle.text_pieces.specs.declared.fault.BlockError.TheVariants as errors;

use std::alloc::{AllocError, AllocFailed};
use std::error::Error;
use std::fmt;

/// The text has a part that no line of the width can hold.
#[derive(Clone, Copy, Debug, PartialEq, Eq)]
pub struct TooNarrow;

impl fmt::Display for TooNarrow {
    ghost output = { λ _. Some narrow_text };

    fn fmt<W: fmt::Write>(&self, f: &mut fmt::Formatter<W>) -> fmt::Result {
        f.write_str("output width not wide enough")
    }
}

impl Error for TooNarrow {}

/// Why a block refused a call.
#[derive(Clone, Copy, Debug)]
pub enum BlockError {
    /// A character is wider than the block's lines.
    TooNarrow,
    /// A growth was refused since allocation fails.
    Memory,
    /// An earlier call was refused, so the block answers no more.
    Failed,
}

impl fmt::Display for BlockError {
    ghost output = { λ e. Some (fault_text e) };

    fn fmt<W: fmt::Write>(&self, f: &mut fmt::Formatter<W>) -> fmt::Result {
        f.write_str(match self {
            BlockError::TooNarrow => "output width not wide enough",
            BlockError::Memory => "out of memory",
            BlockError::Failed => "refused after an earlier refusal",
        })
    }
}

impl Error for BlockError {}

impl From<TooNarrow> for BlockError {
    ghost from_gives = { λ _ e. e ≡ errors.TooNarrow };

    fn from(_error: TooNarrow) -> BlockError {
        BlockError::TooNarrow
    }
}

impl From<AllocError> for BlockError {
    ghost from_gives = { λ _ e. e ≡ errors.Memory };

    fn from(_error: AllocError) -> BlockError {
        BlockError::Memory
    }
}

impl<T: Drop> From<AllocFailed<T>> for BlockError {
    ghost from_gives = { λ _ e. e ≡ errors.Memory };

    fn from(_error: AllocFailed<T>) -> BlockError {
        BlockError::Memory
    }
}
