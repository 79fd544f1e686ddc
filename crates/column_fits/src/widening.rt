//! Cells that widen the columns that they cover.
ghost use Rattle.std.specs.Prelude.{◌≡◌, ◌+◌, ◌-◌, ◌*◌, ◌/◌, ◌^◌, ◌<◌, ◌≤◌, All, filter, fold};
ghost use Rattle.std.specs.Prelude.{length, map, sum_by};
ghost use Rattle.column_fits.specs.Fits.{AreWithin, high_of, high_width, is_over, low_width, parts_of, raised};
ghost use Rattle.column_fits.specs.Fits.{widened_by};

use crate::cell::CellWidths;
use crate::fit::ColumnFit;

/// What columns take side by side, at the least and at the most, with a separator between neighbours.
#[derive(Clone, Copy)]
pub(crate) struct Taken {
    pub(crate) low: u128,
    pub(crate) high: u128,
}

pub(crate) fn taken_by(columns: &[ColumnFit]) -> Taken
    ensures low { result.low ≡ low_width columns.now }
    ensures high { result.high ≡ high_width columns.now }
{
    let mut low = columns.len().saturating_sub(1) as u128;
    let mut high = low;
    for column in columns {
        low += column.low as u128;
        high += column.high as u128;
    }
    Taken { low, high }
}

// the part of what is lacking that has this weight
fn part(lack: usize, weight: usize, total: u128) -> usize
    requires some { 0 < total }
    requires within { weight ≤ total }
    ensures { result ≡ lack * weight / total }
{
    (lack as u128 * weight as u128 / total) as usize
}

// Columns get what is lacking by what they take at the most, rounded down, and the last also what is left.
fn raise(columns: &mut [ColumnFit], low_lack: usize, high_lack: usize, total: u128)
    requires some { 0 < total }
    requires total { total ≡ sum_by high_of columns.old }
    requires low { All (λ f. 0 < low_lack → f.low + low_lack < 2 ^ 64) columns.old }
    requires high { All (λ f. 0 < high_lack → f.high + high_lack < 2 ^ 64) columns.old }
    ensures { columns.new ≡ raised columns.old (parts_of low_lack total low_lack (map high_of columns.old))
        (parts_of high_lack total high_lack (map high_of columns.old)) }
{
    let last = columns.len() - 1;
    let mut low_left = low_lack;
    let mut high_left = high_lack;
    for i in 0..last {
        let fit = columns[i];
        let low_part = part(low_lack, fit.high, total);
        let high_part = part(high_lack, fit.high, total);
        columns[i] = ColumnFit {
            low: fit.low + low_part,
            high: fit.high + high_part,
        };
        low_left -= low_part;
        high_left -= high_part;
    }
    let fit = columns[last];
    columns[last] = ColumnFit {
        low: fit.low + low_left,
        high: fit.high + high_left,
    };
}

// what a cell lacks of the columns of text that it asks for
fn lack(wanted: usize, taken: u128) -> usize
    ensures { result ≡ wanted - taken }
{
    (wanted as u128).saturating_sub(taken) as usize
}

fn widen(fits: &mut [ColumnFit], cell: CellWidths)
    requires some { cell.first < cell.last }
    requires within { cell.last ≤ length fits.old }
    requires high { All (λ f. 1 ≤ f.high) fits.old }
    ensures { fits.new ≡ widened_by fits.old cell }
{
    let columns = &mut fits[cell.first..cell.last];
    let taken = taken_by(columns);
    let low_lack = lack(cell.narrowest, taken.low);
    let high_lack = lack(cell.widest, taken.high);
    let total = taken.high - (columns.len() - 1) as u128;
    raise(columns, low_lack, high_lack, total);
}

/// The cells over one column widen it.
pub(crate) fn widen_by_single(fits: &mut [ColumnFit], cells: &[CellWidths])
    requires within { AreWithin (length fits.old) cells.now }
    requires high { All (λ f. 1 ≤ f.high) fits.old }
    ensures widened { fits.new ≡ fold widened_by fits.old (filter (is_over 1) cells.now) }
    ensures same { length fits.new ≡ length fits.old }
    ensures high { All (λ f. 1 ≤ f.high) fits.new }
{
    for cell in cells {
        if cell.span() == 1 {
            widen(fits, *cell);
        }
    }
}

/// Each cell widens its columns, one cell after another.
pub(crate) fn widen_in_turn(fits: &mut [ColumnFit], cells: &[CellWidths])
    requires some { All (λ c. c.first < c.last) cells.now }
    requires within { All (λ c. c.last ≤ length fits.old) cells.now }
    requires high { All (λ f. 1 ≤ f.high) fits.old }
    ensures { fits.new ≡ fold widened_by fits.old cells.now }
{
    for cell in cells {
        widen(fits, *cell);
    }
}
