ghost use Rattle.std.specs.Prelude.{◌≡◌};
ghost use Rattle.tree_serializer.specs.declared.fault.SerializeFault.TheVariants.{Memory, Write};

use html_lexemes::DeviceFault;
use std::alloc::{AllocError, AllocFailed};
use std::error::Error;
use std::fmt;

/// Why a serializer refused a call.
#[derive(Clone, Copy, Debug, PartialEq, Eq)]
pub enum SerializeFault {
    /// The writer refused.
    Write,
    /// An end tag, a start tag or a text came where no element is open, and none is made up.
    NoParent,
    /// A growth was refused since allocation fails.
    Memory,
}

impl fmt::Display for SerializeFault {
    fn fmt<W: fmt::Write>(&self, f: &mut fmt::Formatter<W>) -> fmt::Result {
        f.write_str(match self {
            SerializeFault::Write => "write failed",
            SerializeFault::NoParent => "no element is open",
            SerializeFault::Memory => "out of memory",
        })
    }
}

impl Error for SerializeFault {}

impl From<AllocError> for SerializeFault {
    ghost from_gives = { λ _ e. e ≡ Memory };

    fn from(_error: AllocError) -> SerializeFault {
        SerializeFault::Memory
    }
}

impl<T: Drop> From<AllocFailed<T>> for SerializeFault {
    ghost from_gives = { λ _ e. e ≡ Memory };

    fn from(_error: AllocFailed<T>) -> SerializeFault {
        SerializeFault::Memory
    }
}

impl From<DeviceFault> for SerializeFault {
    ghost from_gives = { λ _ e. e ≡ Write };

    fn from(_fault: DeviceFault) -> SerializeFault {
        SerializeFault::Write
    }
}
