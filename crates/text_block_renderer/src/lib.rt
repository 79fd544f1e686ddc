//! Text laid out in blocks, and the decorators that mark it.
//!
//! # What is proved
//!
//! A renderer of a page is the renderers of the whole and of its parts, and the targets of its links (`parts_of`).
//!
//! - `TextRenderer::new`, `depth`, `current`, `push`, `pop`, `into_inner`: the renderers as they stand; a refused
//!   `push` leaves them as they were (`kept`, `still`); `pop` asks for a part, gives it, and leaves what stood
//!   below it (`below`); `into_inner` asks for none
//! - `current_mut`, `replace_current`: the current renderer is lent, and what is made of it stands in its place;
//!   another stands there, and the one before is given: each tells whether what it lends or gives has failed
//! - `start_link`, `end_link`: the current renderer's link begins, and the target is noted; it ends, and where
//!   targets stand after the page the number of its target's footnote follows in brackets (`last_number` of
//!   text_footnotes, by the option `shared_footnotes`); `Failed` where the current renderer has failed, and after an
//!   `Ok` it has not; what stands below stays
//! - those that may be refused: after a refusal each is `Failed`, and a renderer of a page has failed exactly
//!   where its last such call was refused
//! - `parts_keep_the_width`: a law: where overflow is off, no line of the renderers passes the width of its
//!   renderer: so it is with a new page, and a part that begins or ends, another current renderer, and links with
//!   their numbers keep it so; a link leaves the renderers below as they were, and the current one its width and
//!   options
//! - `parts_with_room_never_refuse`: a law: where overflow is on in each of them, no link and no number is too
//!   narrow, and it stays on
#![tactic(auto)]

mod laws;
mod text_renderer;

pub use block_laws::{
    a_prefix_and_its_room_are_the_width, renderers_keep_the_width, renderers_with_room_never_refuse,
};
pub use block_layout_laws::{calls_keep_the_width, cells_hang_until_a_row, overflow_never_refuses};
pub use block_renderer::SubRenderer;
pub use block_trait::{ImageRenderMode, RenderOptions, Renderer};
pub use laws::{parts_keep_the_width, parts_with_room_never_refuse};
pub use text_borders::{
    BorderHoriz, BorderSegHoriz, RenderLine, borders_of_rows_are_sound, cells_keep_their_places,
    filled_borders_stay_sound, joined_above_where_asked, joined_below_where_asked,
    merges_keep_the_width, punched_borders_stay_sound, rows_keep_their_width,
    shown_borders_have_their_width,
};
pub use text_cells::{LaidLine, LineSet};
pub use text_decorators::{
    Colour, Columns, EqualCopy, LineChars, PlainDecorator, RichAnnotation, RichDecorator,
    SteadyPrefixes, TaggedLine, TaggedLineElement, TaggedString, TaggedStrings, TextDecorator,
    TrivialDecorator, UnicodeColumns, footnotes, superscript_end, superscript_start,
};
pub use text_footnotes::{LinkTargets, footnotes_keep_the_width};
pub use text_lines::columns_of;
pub use text_normal_laws::{
    fewest_lines, letters_of_texts, lines_keep_the_width, markers_change_no_line,
    normal_lines_are_fullest, normal_lines_keep_markers, normal_lines_keep_the_width,
    normal_lines_show_each_character, one_fullest_layout, wide_text_never_fits,
};
pub use text_pieces::{BlockError, TooNarrow, WhiteSpace};
pub use text_preserved::{
    a_line_that_fits_is_itself, preserved_lines_keep_markers, preserved_lines_keep_the_width,
    preserved_lines_show_each_character,
};
pub use text_renderer::TextRenderer;
pub use text_wrapping::{
    WrappedBlock, blocks_keep_the_width, each_line_end_gives_a_line, filled_lines_have_the_width,
    narrow_normal_text, normal_lines_of_a_block, normal_text_is_kept, text_may_be_cut_anywhere,
};
