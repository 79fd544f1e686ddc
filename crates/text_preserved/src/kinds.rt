//! What the characters of a source line are to it.
ghost use Rattle.std.specs.Prelude.{◌≡◌, ◌↔◌, ◌≤◌, ◌==◌, ◌||◌, not, is_some, IsTrue, if◌then◌else◌};
ghost use Rattle.text_lines.specs.Columns.{columns_of};
ghost use Rattle.text_preserved.specs.Preserved.{is_solid, kind_of, solid, white, tab, cut, nothing};
ghost use Rattle.text_preserved.specs.SourceLines.{kind_seen};

use text_lines::{Columns, UnicodeColumns};
use text_pieces::is_white_space;

/// What a character is to a source line.
#[derive(Clone, Copy)]
pub(crate) enum CharacterKind {
    /// It is shown, and stands in a body.
    Solid,
    /// White space of some columns.
    White,
    /// A tab, which goes to the next stop.
    Tab,
    /// It ends a body and leaves nothing.
    Cut,
    /// It is left out.
    Nothing,
}

/// What the character is to a source line on lines of so many columns. Where lines break at white space (`wraps`), so
/// they do at U+200B.
#[tactic(auto, unfolding(crate::specs::Preserved::kind_of))]
pub(crate) fn kind_of(c: char, width: usize, wraps: bool) -> CharacterKind
    ensures { kind_seen result ≡ kind_of width wraps c }
{
    // The common case.
    if is_visible_ascii(c) {
        return CharacterKind::Solid;
    }
    if c == '\t' {
        return tab_kind(width);
    }
    if is_white_space(c) {
        return white_kind(c, width, wraps);
    }
    if c == '\u{200b}' {
        return break_kind(wraps);
    }
    shown_kind(c)
}

fn is_visible_ascii(c: char) -> bool
    ensures { IsTrue result ↔ ((0x21 ≤ c) × (c ≤ 0x7E)) }
{
    matches!(c, '!'..='~')
}

fn tab_kind(width: usize) -> CharacterKind
    ensures { kind_seen result ≡ (if width == 0 then cut else tab) }
{
    if width == 0 {
        CharacterKind::Cut
    } else {
        CharacterKind::Tab
    }
}

fn white_kind(c: char, width: usize, wraps: bool) -> CharacterKind
    ensures { kind_seen result ≡ (if (width == 0) || not (is_some (columns_of c)) then (if wraps then cut else nothing)
        else white) }
{
    if width == 0 || UnicodeColumns::columns(c).is_none() {
        break_kind(wraps)
    } else {
        CharacterKind::White
    }
}

fn break_kind(wraps: bool) -> CharacterKind
    ensures { kind_seen result ≡ (if wraps then cut else nothing) }
{
    if wraps {
        CharacterKind::Cut
    } else {
        CharacterKind::Nothing
    }
}

fn shown_kind(c: char) -> CharacterKind
    ensures { kind_seen result ≡ (if is_some (columns_of c) then solid else nothing) }
{
    if UnicodeColumns::columns(c).is_some() {
        CharacterKind::Solid
    } else {
        CharacterKind::Nothing
    }
}

/// Whether the character is shown.
pub(crate) fn is_solid(c: char, width: usize, wraps: bool) -> bool
    ensures { result ≡ is_solid (kind_of width wraps c) }
{
    match kind_of(c, width, wraps) {
        CharacterKind::Solid => true,
        CharacterKind::White | CharacterKind::Tab | CharacterKind::Cut | CharacterKind::Nothing =>
            false,
    }
}
