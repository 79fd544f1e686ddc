//! Calls that lay out the parts of a page.
ghost use Rattle.std.specs.Prelude.{◌≡◌, ℕ, List, Bool, false, ◌||◌, chars, string_bytes, IfOk};
ghost use Rattle.std.specs.List.{list_any};
ghost use Rattle.text_decorators.specs.Marks.{Mark, background_end, background_start, code_end, code_start, colour_end};
ghost use Rattle.text_decorators.specs.Marks.{colour_start, emphasis_end, emphasis_start, header, link_start};
ghost use Rattle.text_decorators.specs.Marks.{ordered_item, quote, strong_end, strong_start, superscript_end};
ghost use Rattle.text_decorators.specs.Marks.{superscript_start, unordered_item};
ghost use Rattle.block_trait.specs.Calls.{Call, adds_block, adds_border, adds_border_of, adds_cells, adds_empty_line};
ghost use Rattle.block_trait.specs.Calls.{adds_image, adds_rows_below, adds_text, breaks_line, ends_block, ends_colour};
ghost use Rattle.block_trait.specs.Calls.{ends_line, ends_link, ends_mark, ends_mode, ends_preformat, ends_strikeout};
ghost use Rattle.block_trait.specs.Calls.{starts_block, starts_colour, starts_fragment, starts_link, starts_mark};
ghost use Rattle.block_trait.specs.Calls.{starts_mode, starts_preformat, starts_strikeout, starts_table};
ghost use Rattle.block_trait.specs.Outcomes.{IsOutcome, IsAnswered};

use text_decorators::Colour;
use text_pieces::{BlockError, WhiteSpace};

/// A renderer of a block. Contracts say of each call what it makes of the renderer (`does`), and when no lines hold its
/// text (`never`). A renderer whose texts are joined (`is_joined`), none empty or beside one with an equal tag, keeps
/// them so in each call, refused or not. A call is refused as `TooNarrow`, where a character is wider than the lines at
/// which its text wraps and may not stand alone, or as `Memory`; after a refusal every call that can be refused is
/// refused as `Failed`.
pub trait Renderer {
    ghost has_failed: { Self → Bool };

    ghost does: { Call Self → Self → Self → Type 0 };

    ghost never: { Call Self → Self → Type 0 };

    ghost columns: { Self → ℕ };

    ghost holds_nothing: { Self → Bool };

    ghost prefix: { Self → Mark → List ℕ };

    ghost is_part: { Self → ℕ → Self → Type 0 };

    ghost stays: { Self → Self → Type 0 };

    ghost is_joined: { Self → Type 0 };

    /// The columns of the block.
    fn width(&self) -> usize
        ensures { result ≡ columns self.now };

    /// Whether the block has no line, and no text that would take a column of one.
    fn empty(&self) -> bool
        ensures { result ≡ holds_nothing self.now };

    /// An empty renderer of so many columns for a part of the block: with its options, a decorator for the part, and
    /// the annotations that stand. The error is `Failed` after a refusal, else `Memory`.
    fn new_sub_renderer(&mut self, width: usize) -> Result<Self, BlockError>
    where
        Self: Sized,
        ensures part { IsAnswered result (has_failed self.old) (has_failed self.new) (stays self.old self.new)
            (is_part self.old width) }
        ensures joined { is_joined self.old → is_joined self.new }
        ensures part_joined { IfOk result is_joined }
        ensures works { IfOk result (λ sub. has_failed sub ≡ false) };

    /// Adds a border of so many columns.
    fn add_horizontal_border_width(&mut self, width: usize) -> Result<(), BlockError>
        ensures outcome { IsOutcome result (has_failed self.old) (has_failed self.new)
            (does (adds_border_of width) self.old self.new) (never (adds_border_of width) self.old) }
        ensures joined { is_joined self.old → is_joined self.new };

    /// Makes the text that runs lines, and adds an empty line after them.
    fn add_empty_line(&mut self) -> Result<(), BlockError>
        ensures outcome { IsOutcome result (has_failed self.old) (has_failed self.new)
            (does adds_empty_line self.old self.new) (never adds_empty_line self.old) }
        ensures joined { is_joined self.old → is_joined self.new };

    /// Starts a block: an empty line parts it from lines with content before it.
    fn start_block(&mut self) -> Result<(), BlockError>
        ensures outcome { IsOutcome result (has_failed self.old) (has_failed self.new)
            (does starts_block self.old self.new) (never starts_block self.old) }
        ensures joined { is_joined self.old → is_joined self.new };

    /// Starts a table as a block; no cell goes on into it from a row before.
    fn start_table(&mut self) -> Result<(), BlockError>
        ensures outcome { IsOutcome result (has_failed self.old) (has_failed self.new)
            (does starts_table self.old self.new) (never starts_table self.old) }
        ensures joined { is_joined self.old → is_joined self.new };

    /// Makes the text that runs lines.
    fn new_line(&mut self) -> Result<(), BlockError>
        ensures outcome { IsOutcome result (has_failed self.old) (has_failed self.new)
            (does ends_line self.old self.new) (never ends_line self.old) }
        ensures joined { is_joined self.old → is_joined self.new };

    /// A line break: ends a line that has columns, else adds an empty line.
    fn new_line_hard(&mut self) -> Result<(), BlockError>
        ensures outcome { IsOutcome result (has_failed self.old) (has_failed self.new)
            (does breaks_line self.old self.new) (never breaks_line self.old) }
        ensures joined { is_joined self.old → is_joined self.new };

    /// Adds a border of the block's width.
    fn add_horizontal_border(&mut self) -> Result<(), BlockError>
        ensures outcome { IsOutcome result (has_failed self.old) (has_failed self.new)
            (does adds_border self.old self.new) (never adds_border self.old) }
        ensures joined { is_joined self.old → is_joined self.new };

    /// A part begins whose text is preformatted.
    fn push_preformat(&mut self) -> Result<(), BlockError>
        ensures outcome { IsOutcome result (has_failed self.old) (has_failed self.new)
            (does starts_preformat self.old self.new) (never starts_preformat self.old) }
        ensures joined { is_joined self.old → is_joined self.new };

    /// A part begins whose white space is laid out in a mode.
    fn push_ws(&mut self, ws: WhiteSpace) -> Result<(), BlockError>
        ensures outcome { IsOutcome result (has_failed self.old) (has_failed self.new)
            (does (starts_mode ws) self.old self.new) (never (starts_mode ws) self.old) }
        ensures joined { is_joined self.old → is_joined self.new };

    /// Adds text. After a block normal text of white space alone is ignored, and another starts a block.
    fn add_inline_text(&mut self, text: &str) -> Result<(), BlockError>
        ensures outcome { IsOutcome result (has_failed self.old) (has_failed self.new)
            (does (adds_text (chars text.now)) self.old self.new) (never (adds_text (chars text.now)) self.old) }
        ensures joined { is_joined self.old → is_joined self.new };

    /// A link to the target begins.
    fn start_link(&mut self, target: &str) -> Result<(), BlockError>
        ensures outcome { IsOutcome result (has_failed self.old) (has_failed self.new)
            (does (starts_link (link_start (chars target.now))) self.old self.new)
            (never (starts_link (link_start (chars target.now))) self.old) }
        ensures joined { is_joined self.old → is_joined self.new };

    /// A link ends.
    fn end_link(&mut self) -> Result<(), BlockError>
        ensures outcome { IsOutcome result (has_failed self.old) (has_failed self.new)
            (does ends_link self.old self.new) (never ends_link self.old) }
        ensures joined { is_joined self.old → is_joined self.new };

    /// Emphasis begins.
    fn start_emphasis(&mut self) -> Result<(), BlockError>
        ensures outcome { IsOutcome result (has_failed self.old) (has_failed self.new)
            (does (starts_mark emphasis_start) self.old self.new) (never (starts_mark emphasis_start) self.old) }
        ensures joined { is_joined self.old → is_joined self.new };

    /// Emphasis ends.
    fn end_emphasis(&mut self) -> Result<(), BlockError>
        ensures outcome { IsOutcome result (has_failed self.old) (has_failed self.new)
            (does (ends_mark emphasis_end) self.old self.new) (never (ends_mark emphasis_end) self.old) }
        ensures joined { is_joined self.old → is_joined self.new };

    /// Strong text begins.
    fn start_strong(&mut self) -> Result<(), BlockError>
        ensures outcome { IsOutcome result (has_failed self.old) (has_failed self.new)
            (does (starts_mark strong_start) self.old self.new) (never (starts_mark strong_start) self.old) }
        ensures joined { is_joined self.old → is_joined self.new };

    /// Strong text ends.
    fn end_strong(&mut self) -> Result<(), BlockError>
        ensures outcome { IsOutcome result (has_failed self.old) (has_failed self.new)
            (does (ends_mark strong_end) self.old self.new) (never (ends_mark strong_end) self.old) }
        ensures joined { is_joined self.old → is_joined self.new };

    /// Struck text begins.
    fn start_strikeout(&mut self) -> Result<(), BlockError>
        ensures outcome { IsOutcome result (has_failed self.old) (has_failed self.new)
            (does starts_strikeout self.old self.new) (never starts_strikeout self.old) }
        ensures joined { is_joined self.old → is_joined self.new };

    /// Struck text ends.
    fn end_strikeout(&mut self) -> Result<(), BlockError>
        ensures outcome { IsOutcome result (has_failed self.old) (has_failed self.new)
            (does ends_strikeout self.old self.new) (never ends_strikeout self.old) }
        ensures joined { is_joined self.old → is_joined self.new };

    /// Code begins.
    fn start_code(&mut self) -> Result<(), BlockError>
        ensures outcome { IsOutcome result (has_failed self.old) (has_failed self.new)
            (does (starts_mark code_start) self.old self.new) (never (starts_mark code_start) self.old) }
        ensures joined { is_joined self.old → is_joined self.new };

    /// Code ends.
    fn end_code(&mut self) -> Result<(), BlockError>
        ensures outcome { IsOutcome result (has_failed self.old) (has_failed self.new)
            (does (ends_mark code_end) self.old self.new) (never (ends_mark code_end) self.old) }
        ensures joined { is_joined self.old → is_joined self.new };

    /// A superscript begins.
    fn start_superscript(&mut self) -> Result<(), BlockError>
        ensures outcome { IsOutcome result (has_failed self.old) (has_failed self.new)
            (does (starts_mark superscript_start) self.old self.new) (never (starts_mark superscript_start) self.old) }
        ensures joined { is_joined self.old → is_joined self.new };

    /// A superscript ends.
    fn end_superscript(&mut self) -> Result<(), BlockError>
        ensures outcome { IsOutcome result (has_failed self.old) (has_failed self.new)
            (does (ends_mark superscript_end) self.old self.new) (never (ends_mark superscript_end) self.old) }
        ensures joined { is_joined self.old → is_joined self.new };

    /// Adds an image. One with an empty title is rendered by the mode of the options.
    fn add_image(&mut self, src: &str, title: &str) -> Result<(), BlockError>
        ensures outcome { IsOutcome result (has_failed self.old) (has_failed self.new)
            (does (adds_image (chars src.now) (chars title.now)) self.old self.new)
            (never (adds_image (chars src.now) (chars title.now)) self.old) }
        ensures joined { is_joined self.old → is_joined self.new };

    /// The fragment of that name starts at the next word.
    fn record_frag_start(&mut self, name: &str) -> Result<(), BlockError>
        ensures outcome { IsOutcome result (has_failed self.old) (has_failed self.new)
            (does (starts_fragment (chars name.now)) self.old self.new)
            (never (starts_fragment (chars name.now)) self.old) }
        ensures joined { is_joined self.old → is_joined self.new };

    /// A text's colour begins.
    fn push_colour(&mut self, colour: Colour) -> Result<(), BlockError>
        ensures outcome { IsOutcome result (has_failed self.old) (has_failed self.new)
            (does (starts_colour (colour_start colour)) self.old self.new)
            (never (starts_colour (colour_start colour)) self.old) }
        ensures joined { is_joined self.old → is_joined self.new };

    /// A background's colour begins.
    fn push_bgcolour(&mut self, colour: Colour) -> Result<(), BlockError>
        ensures outcome { IsOutcome result (has_failed self.old) (has_failed self.new)
            (does (starts_colour (background_start colour)) self.old self.new)
            (never (starts_colour (background_start colour)) self.old) }
        ensures joined { is_joined self.old → is_joined self.new };

    /// Adds the lines of another renderer after prefixes: the first line's, and the others'. Refused as `Failed`, also
    /// where a call of the other was refused.
    fn append_subrender(
        &mut self,
        other: Self,
        first: &str,
        following: &str,
    ) -> Result<(), BlockError>
    where
        Self: Sized,
        ensures outcome { IsOutcome result (has_failed self.old || has_failed other) (has_failed self.new)
            (does (adds_block other (chars first.now) (chars following.now)) self.old self.new)
            (never (adds_block other (chars first.now) (chars following.now)) self.old) }
        ensures joined { is_joined self.old → is_joined self.new };

    /// Adds cells beside one another, each with the rows that it takes. `collapse` takes the borders that are a cell's
    /// first and last line into those of the row. Refused as `Failed`, also where a call of a cell was refused.
    fn append_columns_with_borders(
        &mut self,
        cells: Vec<(Self, usize)>,
        collapse: bool,
    ) -> Result<(), BlockError>
    where
        Self: Sized,
        ensures outcome { IsOutcome result
            (has_failed self.old || list_any (λ cell. has_failed cell.0) cells.items) (has_failed self.new)
            (does (adds_cells cells.items collapse) self.old self.new)
            (never (adds_cells cells.items collapse) self.old) }
        ensures joined { is_joined self.old → is_joined self.new };

    /// Adds cells below one another. Refused as `Failed`, also where a call of a cell was refused.
    fn append_vert_row(&mut self, cells: Vec<Self>) -> Result<(), BlockError>
    where
        Self: Sized,
        ensures outcome { IsOutcome result (has_failed self.old || list_any has_failed cells.items)
            (has_failed self.new) (does (adds_rows_below cells.items) self.old self.new)
            (never (adds_rows_below cells.items) self.old) }
        ensures joined { is_joined self.old → is_joined self.new };

    /// A text's colour ends.
    fn pop_colour(&mut self)
        ensures done { does (ends_colour colour_end) self.old self.new }
        ensures failed { has_failed self.new ≡ has_failed self.old }
        ensures joined { is_joined self.old → is_joined self.new };

    /// A background's colour ends.
    fn pop_bgcolour(&mut self)
        ensures done { does (ends_colour background_end) self.old self.new }
        ensures failed { has_failed self.new ≡ has_failed self.old }
        ensures joined { is_joined self.old → is_joined self.new };

    /// A block ends: the next text starts another.
    fn end_block(&mut self)
        ensures done { does ends_block self.old self.new }
        ensures failed { has_failed self.new ≡ has_failed self.old }
        ensures joined { is_joined self.old → is_joined self.new };

    /// A preformatted part ends.
    fn pop_preformat(&mut self)
        ensures done { does ends_preformat self.old self.new }
        ensures failed { has_failed self.new ≡ has_failed self.old }
        ensures joined { is_joined self.old → is_joined self.new };

    /// A part with a mode of white space ends.
    fn pop_ws(&mut self)
        ensures done { does ends_mode self.old self.new }
        ensures failed { has_failed self.new ≡ has_failed self.old }
        ensures joined { is_joined self.old → is_joined self.new };

    /// The prefix of a heading's lines. The error is `Failed` after a refusal, else `Memory`.
    fn header_prefix(&mut self, level: usize) -> Result<String, BlockError>
        ensures answer { IsAnswered result (has_failed self.old) (has_failed self.new) (stays self.old self.new)
            (λ s. chars (string_bytes s) ≡ prefix self.old (header level)) }
        ensures joined { is_joined self.old → is_joined self.new };

    /// The prefix of a quote's lines. The error is `Failed` after a refusal, else `Memory`.
    fn quote_prefix(&mut self) -> Result<String, BlockError>
        ensures answer { IsAnswered result (has_failed self.old) (has_failed self.new) (stays self.old self.new)
            (λ s. chars (string_bytes s) ≡ prefix self.old quote) }
        ensures joined { is_joined self.old → is_joined self.new };

    /// The prefix of an item of a list without numbers. The error is `Failed` after a refusal, else `Memory`.
    fn unordered_item_prefix(&mut self) -> Result<String, BlockError>
        ensures answer { IsAnswered result (has_failed self.old) (has_failed self.new) (stays self.old self.new)
            (λ s. chars (string_bytes s) ≡ prefix self.old unordered_item) }
        ensures joined { is_joined self.old → is_joined self.new };

    /// The prefix of the item of that number. The error is `Failed` after a refusal, else `Memory`.
    fn ordered_item_prefix(&mut self, i: i64) -> Result<String, BlockError>
        ensures answer { IsAnswered result (has_failed self.old) (has_failed self.new) (stays self.old self.new)
            (λ s. chars (string_bytes s) ≡ prefix self.old (ordered_item i)) }
        ensures joined { is_joined self.old → is_joined self.new };
}
