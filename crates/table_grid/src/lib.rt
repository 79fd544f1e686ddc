//! The grid of a table: where cells stand in it, what they ask of columns, and its columns of size 0 taken out.
//!
//! # Places
//!
//! Where the cells of a table stand in its grid. Rows are gone through in order, as HTML does where it forms a table
//! (WHATWG HTML, 4.9.12.1); but here the whole column span of a cell has to be free of row spans from above, so that no
//! two cells share a slot.
//!
//! ## What is proved
//!
//! Columns and rows of the grid are numbered from 0, and edges are numbers of 128 bits, so no sum of spans is too
//! great. A cell may begin in a column (`Fits`) that stands after the cells before it in its row, if its whole
//! column span is free of row spans from above. A gap (`IsGap`) is a stretch of columns of a row in which no cell
//! stands, as long as it can be to its left, that ends where a cell from above stands.
//!
//! - `place_cells`: of cells that are given row by row, with spans of at least 1: each cell stands at the first
//!   column where it may begin (`placed`), no right edge passes 128 bits (`small`), and the gaps are all those of
//!   the rows in which a cell begins, once and in order (`gaps`). The error is allocation failure
//! - `cells_have_places`, `cells_have_one_place`, `cells_share_no_slot`, `cells_begin_after_cells`,
//!   `rows_have_no_hole`: laws over definitions: there are places and gaps, those that two functions give
//!   (`places_of`, `gaps_of`), and they are determined; no slot of the grid is taken twice; a cell begins at the
//!   first column or after a taken one in its own row, and in each row that it stands in at the first column or
//!   where another cell or a gap ends
//!
//! A row without cells takes its place as a number that no cell has. Worked rows (`rows.rt`) have places of five
//! tables, and a gap. No clause says how long it takes: n cells with g gaps take the order of n log n + g steps.
//!
//! # What cells ask for
//!
//! What the cells of a table ask of each of its columns.
//!
//! ## What is proved
//!
//! `greatest_parts`: for each of fewer than 2^63 columns the greatest of what the cells that cover it ask of it, 0
//! where none does. It goes over the cells as often as the logarithm of the number of columns says.
//!
//! # The grid
//!
//! The grid of a table: columns between the edges of its cells, what each asks for, and where cells and gaps stand once
//! the columns of size 0 are taken out.
//!
//! ## What is proved
//!
//! A column lies between neighbouring distinct edges of cells (`AreEdges`); of a cell's size and least each of its
//! columns gets its part, and a column's size and least are the greatest of these. Columns of size 0 are taken out
//! after that: what they say of cells is a count of the columns that are left before an edge (`left_before`). A
//! cell or gap without a column left is skipped; a row in which no cell begins that is left goes, and is counted by
//! no row span.
//!
//! - `grid_of`: `IsGrid`: the columns that have a size, each cell's columns among them and the number of rows that
//!   it reaches, each gap's columns, for cells that are given row by row, with spans of at least 1 and leasts that
//!   are no more than sizes (`grid`); it is the one that a function gives (`grid`: `exact`); each column has a
//!   size, and a least that is no more (`sized`). The error is allocation failure
//! - `cells_have_a_grid`, `one_grid`, `columns_of_a_grid_are_sized`: laws: cells have a grid, that which the
//!   function gives, and one alone; its columns have a size, and a least that is no more
//!
//! Worked rows are computed on the definitions from places on (`rows.rt`): a row span after a column of empty
//! cells, over a row without cells, spans of 10^9 and of 2^64 - 1, a cell over five empty ones.
#![tactic(auto)]

mod asked_columns;
mod cell;
mod column_rows;
mod columns;
mod covers;
mod edges;
mod ends;
mod forming;
mod gaps;
mod grid;
mod grid_laws;
mod grid_rows;
mod kept;
mod next_row;
mod part;
mod place_laws;
mod place_rows;
mod places;
mod walk;
mod windows;
mod without;

pub use asked_columns::greatest_parts;
pub use cell::{Cell, PlacedCell};
pub use columns::Column;
pub use edges::SpannedCell;
pub use forming::grid_of;
pub use gaps::Gap;
pub use grid::{Grid, GridCell, GridGap};
pub use grid_laws::{cells_have_a_grid, columns_of_a_grid_are_sized, one_grid};
pub use part::Part;
pub use place_laws::{
    cells_begin_after_cells, cells_have_one_place, cells_have_places, cells_share_no_slot,
    rows_have_no_hole,
};
pub use places::{Places, place_cells};
