//! How many columns a text takes on one line.
ghost use Rattle.std.specs.Prelude.{◌≡◌, IsTrue, chars, false};
ghost use Rattle.std.specs.Char.{is_whitespace};
ghost use Rattle.text_lines.specs.Columns.{width_of};
ghost use Rattle.render_sizes.specs.Extents.{capped};
ghost use Rattle.render_sizes.specs.TextSizes.{added, gap_columns, size_after, text_size};

use render_values::is_white_space;
use text_lines::{Columns, UnicodeColumns};

fn width_of(c: char) -> usize
    ensures { result ≡ width_of c }
{
    UnicodeColumns::columns(c).unwrap_or(0)
}

fn gap_columns(gap: bool) -> usize
    ensures { result ≡ gap_columns gap }
{
    if gap {
        return 1;
    }
    0
}

fn size_of_words(text: &str) -> usize
    ensures { result ≡ capped (size_after false (chars text.now)) }
{
    // The common case.
    if text.is_ascii() {
        return size_of_bytes(text.as_bytes());
    }
    size_of_characters(text)
}

// of characters that are a byte each
fn size_of_bytes(bytes: &[u8]) -> usize
    ensures { result ≡ capped (size_after false bytes.now) }
{
    let mut columns: usize = 0;
    let mut gap = false;
    let mut rest = bytes;
    while let Some((byte, others)) = rest.split_first() {
        columns = columns.saturating_add(added_by(gap, *byte));
        gap = is_space(*byte);
        rest = others;
    }
    columns
}

// what a character of one byte adds after white space or none
#[inline(always)]
fn added_by(gap: bool, byte: u8) -> usize
    ensures { result ≡ capped (added gap (is_whitespace byte) byte) }
{
    // The common case.
    if is_graphic(byte) {
        return gap_columns(gap) + 1;
    }
    added(gap, is_space(byte), char::from(byte))
}

#[inline(always)]
fn is_space(byte: u8) -> bool
    ensures { result ≡ is_whitespace byte }
{
    char::from(byte).is_whitespace()
}

#[inline(always)]
fn is_graphic(byte: u8) -> bool
    ensures { IsTrue result → (is_whitespace byte ≡ false) × (width_of byte ≡ 1) }
{
    matches!(byte, b'!'..=b'~')
}

fn size_of_characters(text: &str) -> usize
    ensures { result ≡ capped (size_after false (chars text.now)) }
{
    let mut columns: usize = 0;
    let mut gap = false;
    for c in text.chars() {
        let is_space = c.is_whitespace();
        columns = columns.saturating_add(added(gap, is_space, c));
        gap = is_space;
    }
    columns
}

// what a character adds after white space or none
fn added(gap: bool, is_space: bool, c: char) -> usize
    ensures { result ≡ capped (added gap is_space c) }
{
    if is_space {
        return 0;
    }
    gap_columns(gap).saturating_add(width_of(c))
}

/// The columns of a text whose white space is collapsed: one for it at the start, none at the end after others.
pub fn text_size(text: &str) -> usize
    ensures { result ≡ capped (text_size (chars text.now)) }
{
    if text.is_empty() {
        return 0;
    }
    if is_white_space(text) {
        return 1;
    }
    size_of_words(text)
}
