//! Pages rendered: from a page's tree to its render tree, and from that to lines or text.
//!
//! # What is proved
//!
//! `page_lines` (`specs/PageLines.antt`) is what a page comes to at a width, lines or none: the values are laid out in
//! a new renderer of so many columns by what a decorator made for the page holds, with the columns of its own prefixes
//! as measure, and with columns of tables fitted to their cells, where that is asked for; what it makes of the targets
//! of links (each once, where links to equal targets share a footnote, and printable, where that is asked for), or of
//! none where they are not wanted, stands after them as a block of its own, where that is not empty; and the lines are
//! those of that renderer. There are none where the layout has no result, or what stands after it, or the last lines.
//! `page_text` is the text of these lines: the characters of each, and a line end.
//!
//! - `RenderConfig::with_decorator`, and each option: `pad_block_width`, `max_wrap_width`, `min_wrap_width`,
//!   `allow_width_overflow`, `raw_mode`, `no_table_borders`, `fence_tables`, `fit_columns`, `no_link_wrapping`,
//!   `unicode_strikeout`, `link_footnotes`, `shared_footnotes`, `printable_targets`, `empty_img_mode`: the options,
//!   the narrowest wrap and the rules of style that a configuration has, and that each call changes its own alone, to
//!   just this; `raw_mode` takes the borders of tables away too, whichever mode is asked for
//! - `RenderConfig::complete`, `skip_hidden`: what is asked of the conversion, and that each changes its own alone
//! - `RenderConfig::do_decorate`, `style_rules`: the ten rules that mark emphasis, strong text, terms and code
//!   stand before all rules that stand; further rules stand after them
//! - `RenderConfig::options`, `narrowest_wrap`: the options and the narrowest wrap of the configuration
//! - `RenderConfig::dom_to_render_tree`: exactly the values of the document by the table, what is asked of the
//!   conversion and the rules, whose lists begin with numbers of 64 bits; `Fail` only where the page converts to
//!   nothing, never `TooNarrow`
//! - `RenderConfig::render_to_lines`: over any decorator: just the lines of `page_lines`, only where the width is
//!   not 0; `TooNarrow` only where the width is 0 or the page has none there; never `Fail`; else the error is
//!   allocation failure. No line passes the width, of two columns or more, where overflow is off, links are wrapped
//!   and prefixes are steady (`within`); where overflow is on, no width but 0 is too narrow (`roomy`)
//! - `RenderConfig::render_to_string`, `render_to_text_lines`: the same: the text is `page_text`, and so is that of
//!   lines without annotations; `within` says that the text is one of lines that keep the width
//!   (`IsTextWithin`)
//! - `RenderConfig::render_coloured`: the text is, of each line of such lines, what calls of the map answered for
//!   its strings in order, each with the string's annotations, and a line end (`AreColouredLines`); refused as
//!   `render_to_lines`, or where the map is
//! - `pages_keep_the_width`, `texts_keep_the_width`, `pages_with_room_are_never_too_narrow`, `pages_are_numbered`:
//!   laws: the same of the definitions alone; the lists of a page begin with numbers of 64 bits
//!
//! Tested (`test_pages`): four pages as text, a refused one among them. The cases `page` of stored_rows are 500 pages
//! without tables, 400 with tables, 600 with options and rules of style, 200 with links, 142 of them with shared
//! footnotes, 400 with what complete pages, `skip_hidden` and `printable_targets` read, and 400 tables whose columns
//! are fitted, of a model of the layout that was written independently: plain with marks and targets, plain alone,
//! rich, and by the trivial decorator, at many widths, with each option, and with rules that set colours, backgrounds,
//! white space, content and what is not shown; 55 of that model, each of which has other lines under a certain
//! misreading of the rules (the mode of white space or the style of what stands around, numbers of links, borders that
//! become text, and the like); and 100 by hand, among them refused ones, tables with row spans and column spans of any
//! number, and fitted ones. Each page comes as a whole and a byte at a time, and its lines, with their tags and
//! markers, are the model's or those written by hand. What is not pinned: that memory is found; what a decorator of
//! another program puts after the page is what its own contract says.
#![tactic(auto)]

mod closing;
mod coloured;
mod config;
mod laws;
mod prefixes;
mod rendering;
mod rules;

pub use config::RenderConfig;
pub use laws::{
    pages_are_numbered, pages_keep_the_width, pages_with_room_are_never_too_narrow,
    texts_keep_the_width,
};
pub use render_conversion::{RenderError, decorating_rules};
pub use render_values::RenderTree;
pub use table_widths::{ColumnShare, column_widths};
