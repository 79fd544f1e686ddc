//! The calls of a renderer of blocks, how it renders text, and what its calls share.
//!
//! # What is proved
//!
//! Of `block_trait` and `block_renderer`.
//!
//! What a renderer holds is a function of its fields (`sub_of`): its columns and options, what its decorator holds,
//! its block of lines, the modes of white space and preformatted parts around, the annotations that stand and the
//! strikeouts that have begun. Its calls are data (`Call`), and `step` says what each makes of a renderer, for any
//! way to see the decorator's annotations that agrees with what the decorator may give. The trait `Renderer`, these
//! definitions and what needs no renderer stand in `block_trait`, `SubRenderer` in `block_renderer`.
//!
//! - each call of `Renderer` on `SubRenderer` that may be refused: one record (`IsOutcome`): done, it comes to just
//!   what `step` says; refused as `TooNarrow`, `step` has no answer; after a refusal, and where a part that is to
//!   be added has failed, it is `Failed`, and the renderer has failed exactly where a call was refused; no other
//!   error but `Memory`
//! - `end_block`, `pop_preformat`, `pop_ws`, `pop_colour`, `pop_bgcolour`: what `step` says; a pop of none does
//!   nothing
//! - `new_sub_renderer`: an empty renderer with the options, a decorator for the part, and the annotations that
//!   stand, and with no mode, preformatted part or strikeout
//! - `new_part_renderer`: the same, but white space and preformatting go on in it as they stand
//! - `new_sub_renderer`, the prefixes: one record (`IsAnswered`): the renderer stays as it is, but that it has
//!   failed exactly where the call was refused: since allocation fails, or as `Failed` after a refusal
//! - `width`, `empty`, the prefixes: the columns; no line and no running text that has a column; the decorator's
//! - `SubRenderer::new`, `without_annotations`, `into_lines`: an empty renderer; one that keeps no annotations, and
//!   so do those of its parts; the lines, filled where lines are, with each refusal as above
//! - `finalise`, `fmt_links`: the decorator's lines for the targets; the lines that lines after a page give
//!   (`add_footnotes`): each annotation alone, a line end as a space, cut at the width by characters where links
//!   are wrapped, a wider character alone on its line
//! - `into_string`: the characters of the lines, a line end after each
//! - `width_minus`: the columns after a prefix where they are one or more and as many as are asked for after it,
//!   else that least with overflow, else `TooNarrow`; no memory is asked for
//! - `struck`, `shown_title`, `text_of_lines`, `drop_last`: U+0336 after each character that has columns, so many
//!   times; the title of an image by the mode; the characters of lines, a line end after each; all but the last
//! - `RenderOptions::default`: text wraps at the width, borders are drawn, links are wrapped, strikeouts are drawn;
//!   all else is off
//!
//! `block_laws` lifts the laws of blocks to any list of calls: `renderers_keep_the_width` (where overflow is
//! off, no line of a renderer passes its width, if borders, cells, and prefixes with their parts that are added
//! have room in it, and the lines that it gives are within it; so it is with lines after the page where links are
//! wrapped and the width is two columns or more) and `renderers_with_room_never_refuse` (where overflow is on, no
//! call is too narrow, nor are lines after the page). `a_prefix_and_its_room_are_the_width` says that what
//! `width_minus` gives where overflow is off is the width with the prefix, and at least one and what was asked for;
//! and that there is room where it is on. `annotations_change_no_text` says that annotations have no say in a
//! layout: a renderer that keeps none (`bare_of`) is refused just where one that keeps them is, each call makes the
//! same of both but for the annotations, and their lines, those after a page too, have the same characters.
//!
//! Not pinned: that lines of text alone (`render_to_text_lines`, `text_lines_from_read`) have no annotations, and
//! which markers stand in them; a body that gives the lines with all annotations would be proved too. A `lay_line`
//! that finds no line after a marker would be proved, and only be slower.
//!
//! No text of a line that a renderer gives is empty, and none stands next to one with an equal tag (`joined`), so
//! `==` of two such lines tells whether they show the same characters under the same tags: so it is with
//! `SubRenderer::new` and with each part that a renderer makes, every call keeps it so, refused or not, whatever
//! stands in the cells, borders and parts that it takes, and `into_lines` gives such lines. A renderer of a page
//! does not pass it on yet.
#![tactic(auto)]

mod images;
mod options;
mod renderer;
mod stacks;
mod striking;
mod texts;

pub use images::shown_title;
pub use options::{ImageRenderMode, RenderOptions};
pub use renderer::Renderer;
pub use stacks::drop_last;
pub use striking::struck;
pub use texts::text_of_lines;
