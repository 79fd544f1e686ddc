//! Why a page has no lines.
ghost use Rattle.std.specs.Prelude.{◌≡◌};
ghost use Rattle.page_config.specs.declared.error.Error.TheVariants as errors;

use html_lexemes::DeviceFault;
use html_render_tree::RenderError;
use page_reading::{PageFault, ReadFault};
use std::alloc::{AllocError, AllocFailed};
use text_pieces::TooNarrow;
use thiserror::Error;

const TOO_NARROW: &str = "output width not wide enough";

const FAIL: &str = "nothing to render";

const IO_ERROR: &str = "read or write failed";

const TOO_LONG: &str = "page too long";

const MEMORY: &str = "out of memory";

/// Why a page has no lines.
#[derive(Clone, Copy, Debug, PartialEq, Eq, Error)]
pub enum Error {
    /// The width is 0, or too narrow for a part of the page or for a character.
    #[error("{text}", text = TOO_NARROW)]
    TooNarrow,
    /// There is nothing to render; or an earlier call was refused.
    #[error("{text}", text = FAIL)]
    Fail,
    /// The reader or the writer failed.
    #[error("{text}", text = IO_ERROR)]
    IoError,
    /// The page has more bytes than were allowed.
    #[error("{text}", text = TOO_LONG)]
    TooLong,
    /// Allocation failed.
    #[error("{text}", text = MEMORY)]
    Memory,
}

impl Error {
    ghost use Rattle.page_config.specs.Errors.{error_text};

    /// What is wrong, in words; it is what `Display` writes.
    pub fn text(self) -> &'static str
        ensures { result.now ≡ error_text self }
    {
        match self {
            Error::TooNarrow => TOO_NARROW,
            Error::Fail => FAIL,
            Error::IoError => IO_ERROR,
            Error::TooLong => TOO_LONG,
            Error::Memory => MEMORY,
        }
    }
}

impl From<TooNarrow> for Error {
    ghost from_gives = { λ _ e. e ≡ errors.TooNarrow };

    fn from(_error: TooNarrow) -> Error {
        Error::TooNarrow
    }
}

impl From<AllocError> for Error {
    ghost from_gives = { λ _ e. e ≡ errors.Memory };

    fn from(_error: AllocError) -> Error {
        Error::Memory
    }
}

impl<T: Drop> From<AllocFailed<T>> for Error {
    ghost from_gives = { λ _ e. e ≡ errors.Memory };

    fn from(_error: AllocFailed<T>) -> Error {
        Error::Memory
    }
}

impl From<DeviceFault> for Error {
    ghost from_gives = { λ _ e. e ≡ errors.IoError };

    fn from(_error: DeviceFault) -> Error {
        Error::IoError
    }
}

impl From<ReadFault> for Error {
    ghost use Rattle.page_config.specs.Errors.{error_of_read};

    ghost from_gives = { λ fault e. e ≡ error_of_read fault };

    fn from(fault: ReadFault) -> Error {
        match fault {
            ReadFault::IoError => Error::IoError,
            ReadFault::TooLong => Error::TooLong,
            ReadFault::Memory => Error::Memory,
        }
    }
}

impl From<PageFault> for Error {
    ghost use Rattle.page_config.specs.Errors.{error_of_page};

    ghost from_gives = { λ fault e. e ≡ error_of_page fault };

    fn from(fault: PageFault) -> Error {
        match fault {
            PageFault::TooLong => Error::TooLong,
            PageFault::Memory => Error::Memory,
            PageFault::Failed => Error::Fail,
        }
    }
}

impl From<RenderError> for Error {
    ghost use Rattle.page_config.specs.Errors.{error_of_render};

    ghost from_gives = { λ error e. e ≡ error_of_render error };

    fn from(error: RenderError) -> Error {
        match error {
            RenderError::TooNarrow => Error::TooNarrow,
            RenderError::Fail => Error::Fail,
            RenderError::Memory => Error::Memory,
        }
    }
}
