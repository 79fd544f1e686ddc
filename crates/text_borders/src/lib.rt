//! Borders: horizontal lines with joins to what stands above and below them, and holes with text.
//!
//! # What is proved
//!
//! A border is its segments, each the arms that it has (or the slash), its tag and the texts that stand in it
//! (`border_of`); it is computed on rows of tables.
//!
//! - `BorderSegHoriz::chop_left`, `chop_right`, `join_above`, `join_below`: the arm is taken off or added
//!   (`without_left` and its three sisters); the horizontal line keeps its arms, what has no horizontal arm left is
//!   the vertical line, and the slash never changes; no memory is asked for
//! - its `joins_above`, `joins_below`, `runs_above`, `glyph`: by the arms
//! - `BorderHoriz::new`, `new_slashes`: so many segments of `─`, or of `/`
//! - `stretch_to`, `join_above`, `join_below`, `merge_from_above`, `merge_from_below`, `punch`: exactly the border
//!   that is defined (`stretched`, `joined_below`, `merged_below`, `punched` and their sisters): `─` up to a column
//!   that lies after the end, and the segments beside a text without the arm that points to it
//! - `into_tagged_line`, `lines_above`: exactly the characters of the segments with the texts in their place
//!   (`shown`); `│` where a line comes down to a segment, else a space
//! - `width`, `has_holes`, `try_clone`: by the border; an equal one
//! - `RenderLine::into_tagged_line`, `width`, `try_clone`: the text of the line, or what is shown of the border;
//!   its columns; an equal line
//! - `fill_to`, `RenderLine::into_text`: spaces after the border up to a width, which take no arm off
//!   (`filled_to`); the line as text, a border under one tag and without its markers (`as_text`)
//! - `RenderLine::into_widened`: the line as text of a width, as a cell of a row has it (`widened`): filled with
//!   spaces, or a border that goes on as `─`, under one tag and without its markers
//! - `joined_below_where_asked`, `joined_above_where_asked`: laws: a border that takes in another has at each
//!   column the segment that it had, joined exactly where the other asks for it
//! - `merges_keep_the_width`, `shown_borders_have_their_width`, `punched_borders_stay_sound`: laws: a border keeps
//!   its width where what it takes in lies within it; what is shown has a column for each segment, where its texts
//!   stand one after the other within it; texts that are put in stand so, since one whose place another takes
//!   stands after that
//! - `borders_of_rows_are_sound`: a law: what is shown of the border below a row has a column for each segment,
//!   whatever the cells hold, and so has the one above, if it had
//! - `rows_heed_no_tags`: laws: a row of cells, a border or line as text, and a border filled to a width are under
//!   other tags what they are, with those tags
//! - `cells_keep_their_places`: laws: where each cell that goes on has the place and the columns of one of the
//!   cells that are handed in, the row is as wide as these with the signs between them; what goes on are the cells
//!   that take more rows, at their places
//!
//! A row of cells beside one another is a definition (`across`): which cells stand in it, what it makes of the
//! border above, its lines, the border below with its holes, and the cells that go on. It is computed on rows of
//! tables, with cells that take two rows and tables in cells, and its law is `rows_keep_their_width`: where each
//! cell's lines are within its width, every line of the row and the border below, with its texts, have just the
//! row's columns, the border above has those or its own where they are more, and the cells that go on are within
//! their width again.
//!
//! A refused call may leave a border stretched, joined in part, or without an arm beside a text that it doesn't
//! have. `rt plant` ran: 40 wrong bodies are refused and none is let through.
#![tactic(auto)]

mod border;
mod laws;
mod render_line;
mod rows;
mod segment;

pub use border::BorderHoriz;
pub use laws::{
    borders_of_rows_are_sound, cells_keep_their_places, filled_borders_stay_sound,
    joined_above_where_asked, joined_below_where_asked, merges_keep_the_width,
    punched_borders_stay_sound, rows_heed_no_tags, rows_keep_their_width,
    shown_borders_have_their_width,
};
pub use render_line::RenderLine;
pub use segment::BorderSegHoriz;
