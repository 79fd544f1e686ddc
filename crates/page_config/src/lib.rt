//! Pages in bytes to their lines: what a configuration says, readers of pages, and their answers.
//!
//! # What is proved
//!
//! What a configuration says of a page is a `PageSetting` (`specs/Settings.antt`): the table of references and the
//! options by which it is parsed, what is asked of the conversion, the rules of style, what it is rendered by, and
//! whether `do_decorate` was called.
//!
//! - `Config::with_decorator`, `plain`, `plain_no_decorate`, `rich`: what such a configuration says; `plain` marks
//!   emphasis, strong text, terms and code, and has the targets of links after the page
//! - `Config::max_bytes`, `table`, `parse_opts`, and each option of `RenderConfig`: each changes its own part, to
//!   just this, and leaves the rest
//! - `Config::complete`: the rows of complete pages, and that pages are parsed without scripting
//! - `Config::do_decorate`, `decorates`, `options`, `narrowest_wrap`: the ten rules stand before all others from
//!   the first call on, and it is noted that they were asked for; a further call changes nothing; what the
//!   configuration says
//! - `Config::parse_html`: of the bytes that the reader had, their tree; bounds, faults and counts as
//!   `lines_from_read`; the configuration stays, and parses further pages
//! - `Config::dom_to_render_tree`, `render_to_lines`, `render_to_string`, `render_coloured`: as those of
//!   `RenderConfig`, with the errors of this crate
//! - `Config::lines_from_read`, `text_lines_from_read`, `string_from_read`, `from_read`,
//!   `from_read_with_decorator`: see the theorem of pages
//! - `from_read_rich`: the same for rich text: the answer of the page by the decorator of rich text
//!   (`HasRichAnswer`), no line of which passes a width of two columns or more
//! - `parse`: the render tree is the values of the page's tree, as pages are rendered where nothing else is said;
//!   `Fail` only where it converts to nothing, never `TooNarrow`; bounds, faults and counts as `lines_from_read`
//! - `Page::new`, `push`, `finish`: as `PageReader`: for every rest, what comes of the page then and the rest comes
//!   of the page before, the piece and the rest; a piece with more bytes than may still come is `TooLong`, before
//!   any of it is read; after a refusal every call is `Fail`
//! - `Error::text`: the texts, exactly
//! - `a_page_has_one_answer`, `a_page_has_one_text`: laws: equal bytes, read and rendered by equal configurations
//!   at equal widths, have one answer at most, and one text
//! - `a_page_has_one_plain_answer`, `a_page_has_one_plain_text`: laws: equal bytes have one answer at most as plain
//!   text at a width, and one text, whichever configurations of plain text they are read and rendered by
//! - `a_page_has_an_answer`: a law: bytes have an answer, by every decorator and configuration, at every width
//! - `a_page_keeps_its_width`, `a_text_keeps_its_width`, `a_plain_text_keeps_its_width`,
//!   `a_page_with_room_is_never_too_narrow`: laws: the clauses `within` and `roomy`, of the definition of an answer
//!
//! What is not pinned: that memory is found. A call that answered `Memory` for every page would be proved; the
//! tests call each with ample memory.
#![tactic(auto)]

mod coloured;
mod config;
mod error;
mod laws;
mod page;
mod plain;
mod reading;
mod rich;

pub use config::Config;
pub use error::Error;
pub use laws::{
    a_page_has_an_answer, a_page_has_one_answer, a_page_has_one_plain_answer,
    a_page_has_one_plain_text, a_page_has_one_text, a_page_keeps_its_width,
    a_page_with_room_is_never_too_narrow, a_plain_text_keeps_its_width, a_text_keeps_its_width,
};
pub use page::Page;
pub use plain::{PlainLine, from_read, from_read_with_decorator};
pub use rich::{RichLine, from_read_rich, parse};
