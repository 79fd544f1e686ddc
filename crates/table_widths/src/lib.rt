//! The widths of a table's columns, shares of its width, and the slots of its rows.
//!
//! # Widths
//!
//! The widths of a table's columns, by their leasts and their shares of the table's width.
//!
//! ## What is proved
//!
//! A separator of one column of text stands between neighbours. The slack of a column is what its share exceeds its
//! least by. Where the shares do not fit, columns are lowered to a level: the least at which what they take over
//! their leasts fills the room (`IsLevel`); of those at the level so many have one less that the room is filled
//! exactly, the widest first, and of equally wide ones the leftmost (`width_at`).
//!
//! - `table_widths`: `IsColumnWidths`: of leasts that fit in the width and are at most the shares, the shares
//!   where these fit, else the shares lowered so (`widths`); in that case the widths with separators are the width
//!   exactly (`filled`). The error is allocation failure
//! - `columns_have_widths`, `columns_have_one_list_of_widths`, `widths_stand_between_least_and_share`,
//!   `widths_fit_the_width`: laws: there are widths, those that a function gives (`widths_of`), and they are
//!   determined; each is at least the least and at most the share; with separators they take no more than the width
//! - `one_at_a_time_comes_to_the_widths`: a law: as long as the columns do not fit, one column of text can be taken
//!   from the column that exceeds its least most, of such ones the widest, of these the leftmost; taken so one at a
//!   time until they fit, the shares come to these widths
//!
//! # Shares
//!
//! Shares of a table's columns in its width, and the widths of its columns where its rows lie across.
//!
//! ## What is proved
//!
//! A column's share of a width is the part that its size is of all sizes, but at least its least and at most its
//! size.
//!
//! - `widths_across`: of columns that have a size, and leasts that are no more: none exactly where the leasts with
//!   separators pass the width, else the widths by leasts and shares (`IsColumnWidths`), which a function gives
//!   (`exact`). The error is allocation failure
//! - `asked_by_table`: the sums of sizes and of leasts, with separators, at most 2^64 - 1
//! - `shares_stand_between_least_and_size`, `shares_pass_the_width_by_at_most_the_width`,
//!   `tables_ask_for_their_least`, `widths_across_fit`: laws: the widths are as many as the columns, and fit in the
//!   width with separators; where the leasts fit, the shares with separators take at most twice the width, so no
//!   more columns of text are taken off than the width has; a table's least is no more than its size where its
//!   columns' are
//!
//! # Rows
//!
//! The rows of a table: in which columns of its grid cells stand, and which places are empty.
//!
//! ## What is proved
//!
//! A row of a table is a list of slots: its cells, in the columns that they take, and its gaps, empty places before
//! one that a cell from above covers (`slots_of`). Where rows lie across, each that is shown has an empty slot
//! besides where a cell of a row above goes on (`across`); one without a cell that has a column is left out, and
//! counted by no row span.
//!
//! - `table_of`: of cells that are given row by row: the columns of their grid, and the slots of each of so many
//!   rows (`table`). The error is allocation failure
//! - `Table::rows_below`, `rows_across`, `RowsLeft::next_row`, `is_shown`: exactly the rows, one after another,
//!   below or across
//! - `rows_across_are_whole`: a law: in each row that is shown across, each slot begins where the one before ends,
//!   from the first column on, and none passes the last
#![tactic(auto)]

mod column;
mod edges;
mod forming;
mod left;
mod levels;
mod lowering;
mod merging;
mod share_laws;
mod share_rows;
mod shares;
mod sharing;
mod slot;
mod slot_laws;
mod table;
mod width_laws;
mod width_rows;

pub use column::ColumnShare;
pub use forming::table_of;
pub use left::RowsLeft;
pub use merging::is_shown;
pub use share_laws::{
    shares_pass_the_width_by_at_most_the_width, shares_stand_between_least_and_size,
    tables_ask_for_their_least, widths_across_fit,
};
pub use shares::{asked_by_table, widths_across};
pub use sharing::column_widths;
pub use slot::Slot;
pub use slot_laws::rows_across_are_whole;
pub use table::Table;
pub use width_laws::{
    columns_have_one_list_of_widths, columns_have_widths, one_at_a_time_comes_to_the_widths,
    widths_fit_the_width, widths_stand_between_least_and_share,
};
