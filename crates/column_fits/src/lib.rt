//! The columns of a table, fitted to what stands in them.
//!
//! # What is proved
//!
//! A cell asks for columns of text: `narrowest`, without which a word of it is cut, and `widest`, with which no line of
//! it is wrapped. `fits_of` gives each column of a table the same, as `low` and `high`: a cell widens the columns that
//! it covers, where they lack something, each by its part of what all of them take at the most; cells over fewer
//! columns come first.
//!
//! - `fits_of`: exactly these (`fits_of` of `Fits.antt`). The error is allocation failure
//! - `fitted_across`: none exactly where the columns' leasts with separators pass the width; else the widths by lows
//!   and highs, where the lows fit, and by leasts and lows, where they do not. The error is allocation failure
//! - `asked_by_fits`: the sums of lows and of highs, with separators, at most 2^64 - 1
//! - `columns_have_fits`, `fitted_widths_fit`, `cells_have_their_narrowest`, `cells_have_their_widest`: laws: a
//!   column's low is its least or more, and no more than its high; fitted widths and their separators are at most the
//!   width, and no column has less than its least; where the lows fit, the columns of each cell have its narrowest
//!   width together, and where the highs fit, its widest
#![tactic(auto)]

mod across;
mod cell;
mod fit;
mod laws;
mod spanning;
mod widening;

pub use across::fitted_across;
pub use cell::CellWidths;
pub use fit::{ColumnFit, asked_by_fits, fits_of};
pub use laws::{
    cells_have_their_narrowest, cells_have_their_widest, columns_have_fits, fitted_widths_fit,
};
