//! Why a page has no tree.
ghost use Rattle.std.specs.Prelude.{◌≡◌, ◌⊎◌};
ghost use Rattle.page_reading.specs.declared.fault.ReadFault.TheVariants as reading;

use html_lexemes::{DeviceFault, ParseFault};
use thiserror::Error;

/// Why a reader of a page refused a call.
#[derive(Clone, Copy, Debug, PartialEq, Eq, Error)]
pub enum PageFault {
    /// The page has more bytes than were allowed.
    #[error("page too long")]
    TooLong,
    /// A growth was refused since allocation fails.
    #[error("out of memory")]
    Memory,
    /// An earlier call was refused, so the reader answers no more.
    #[error("refused after an earlier refusal")]
    Failed,
}

impl From<ParseFault> for PageFault {
    ghost use Rattle.page_reading.specs.Faults.{fault_of};

    ghost from_gives = { λ fault e. e ≡ fault_of fault };

    fn from(fault: ParseFault) -> PageFault {
        match fault {
            ParseFault::Memory => PageFault::Memory,
            ParseFault::Failed => PageFault::Failed,
        }
    }
}

/// Why the bytes of a device have no tree.
#[derive(Clone, Copy, Debug, PartialEq, Eq, Error)]
pub enum ReadFault {
    /// The device failed.
    #[error("read failed")]
    IoError,
    /// It has more bytes than were allowed.
    #[error("page too long")]
    TooLong,
    /// A growth was refused since allocation fails.
    #[error("out of memory")]
    Memory,
}

impl ReadFault {
    // what a reader of a page answered that was never refused before
    pub(crate) fn of(fault: PageFault) -> ReadFault
        requires { (fault ≡ PageFault.TooLong) ⊎ (fault ≡ PageFault.Memory) }
        ensures long { result ≡ ReadFault.TooLong → fault ≡ PageFault.TooLong }
        ensures kinds { (result ≡ ReadFault.TooLong) ⊎ (result ≡ ReadFault.Memory) }
    {
        match fault {
            PageFault::TooLong => ReadFault::TooLong,
            PageFault::Memory => ReadFault::Memory,
            PageFault::Failed => unreachable!(),
        }
    }
}

impl From<DeviceFault> for ReadFault {
    ghost from_gives = { λ _ e. e ≡ reading.IoError };

    fn from(_error: DeviceFault) -> ReadFault {
        ReadFault::IoError
    }
}
