//! How lines are laid out, and the columns that they have.
ghost use Rattle.std.specs.Prelude.{◌≡◌, IfOk, Err, None, Some};
ghost use Rattle.article_definitions.specs.Calls.{measure};
ghost use Rattle.article_definitions.specs.Layouts.{room, wrap_at};
ghost use Rattle.article_layout.specs.Settings.{options_of};
ghost use Rattle.text_pieces.specs.declared.fault.BlockError.TheVariants as errors;

use block_layout::Measure;
use text_pieces::BlockError;

/// How an article's lines are laid out.
#[derive(Clone, Copy)]
pub struct LineOptions {
    /// So wide, in columns, may text be wrapped, also where its block has more.
    pub wrap_width: Option<usize>,
    /// Whether every line is filled with spaces to its block's width.
    pub pads: bool,
    /// Whether marks stand around bold, emphasised and code contents.
    pub decorates: bool,
    /// Whether the targets of links stand after the article, and a number after each link.
    pub footnotes: bool,
    /// Whether links to equal targets share one number and one footnote.
    pub shares_footnotes: bool,
    /// Whether the unprintable characters of these targets are percent-encoded.
    pub prints_targets: bool,
    /// Whether these targets are cut at the width.
    pub wraps_links: bool,
    /// So narrow, in columns, may text be wrapped.
    pub min_wrap_width: usize,
}

/// The columns that a part of an article has, and how its lines are laid out.
#[derive(Clone, Copy)]
pub(crate) struct Room {
    pub(crate) options: LineOptions,
    /// In columns.
    pub(crate) width: usize,
}

impl Room {
    /// The columns at which text wraps.
    pub(crate) fn wrap_width(self) -> usize
        ensures { result ≡ wrap_at (options_of self.options) self.width }
    {
        match self.options.wrap_width {
            Some(columns) => self.width.min(columns),
            None => self.width,
        }
    }

    /// How wide the lines of text are.
    pub(crate) fn measure(self) -> Measure
        ensures { result ≡ measure (options_of self.options) self.width }
    {
        Measure {
            width: self.width,
            wrap_width: self.wrap_width(),
            overflow: false,
            pads: self.options.pads,
        }
    }

    /// The room after a prefix of so many columns, of what asks for so many with it. It is `TooNarrow` where fewer are
    /// left, or none.
    pub(crate) fn trailing(self, prefix: usize, least: usize) -> Result<Room, BlockError>
        ensures room { IfOk result (λ r. room self.width prefix least ≡ Some r.width) }
        ensures options { IfOk result (λ r. r.options ≡ self.options) }
        ensures narrow { result ≡ Err errors.TooNarrow → room self.width prefix least ≡ None }
        ensures memory { result ≡ Err errors.Memory → ⊥ }
        ensures failed { result ≡ Err errors.Failed → ⊥ }
    {
        let width = self.width.saturating_sub(prefix);
        if least.saturating_sub(prefix).max(1) > width {
            return Err(BlockError::TooNarrow);
        }
        Ok(Room {
            options: self.options,
            width,
        })
    }
}
