//! Why pages are not rendered.
use std::alloc::AllocError;
use std::error::Error;
use std::fmt;

/// Why a page is not rendered.
#[derive(Clone, Copy, Debug, PartialEq, Eq)]
pub enum RenderError {
    /// A part of the page is wider than the width.
    TooNarrow,
    /// The page converts to nothing.
    Fail,
    /// A growth was refused since allocation fails.
    Memory,
}

impl fmt::Display for RenderError {
    ghost use Rattle.std.specs.Prelude.{Some};
    ghost use Rattle.render_conversion.specs.Errors.{error_text};

    ghost output = { λ e. Some (error_text e) };

    fn fmt<W: fmt::Write>(&self, f: &mut fmt::Formatter<W>) -> fmt::Result {
        f.write_str(match self {
            RenderError::TooNarrow => "output width not wide enough",
            RenderError::Fail => "nothing to render",
            RenderError::Memory => "out of memory",
        })
    }
}

impl Error for RenderError {}

impl From<AllocError> for RenderError {
    ghost use Rattle.std.specs.Prelude.{◌≡◌};
    ghost use Rattle.render_conversion.specs.declared.error.RenderError.TheVariants.{Memory};

    ghost from_gives = { λ _ e. e ≡ Memory };

    fn from(_error: AllocError) -> RenderError {
        RenderError::Memory
    }
}
