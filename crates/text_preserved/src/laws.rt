//! Laws of preserved source lines: each is the contract of a function that does nothing.
ghost use Rattle.std.specs.Prelude.{◌≡◌, ℕ, ◌≤◌, Bool, false, List, ◌++◌, All, filter, flat_map, map};
ghost use Rattle.text_lines.specs.Tagged.{line_columns, characters};
ghost use Rattle.text_pieces.specs.Sources.{Source};
ghost use Rattle.text_pieces.specs.Retagged.{reitem, resource};
ghost use Rattle.text_preserved.specs.Preserved.{is_too_wide, markers_of, names_of, preserved_lines, preserved_waiting};
ghost use Rattle.text_preserved.specs.Preserved.{trimmed};
ghost use Rattle.text_preserved.specs.LawWords.{is_shown, codes_of, ArePlain, source_columns, as_it_stands, one_line};

use text_lines::EqualCopy;

/// Where no body has a character that is wider than the width, no line passes the width.
pub fn preserved_lines_keep_the_width<T: EqualCopy>()
    ensures { (width : ℕ) (wraps : Bool) (line : List (Source T.Seen)) → is_too_wide width wraps line ≡ false
        → All (λ items. line_columns items ≤ width) (preserved_lines width wraps line) }
{}

/// White space aside, the characters of the lines are those of the source line that have a width, in order.
pub fn preserved_lines_show_each_character<T: EqualCopy>()
    ensures { (width : ℕ) (wraps : Bool) (line : List (Source T.Seen))
        → filter is_shown (flat_map (characters {S = T.Seen}) (preserved_lines width wraps line))
        ≡ filter is_shown (codes_of line) }
{}

/// No marker is lost: each stands on a line or waits, in order.
pub fn preserved_lines_keep_markers<T: EqualCopy>()
    ensures { (width : ℕ) (wraps : Bool) (line : List (Source T.Seen))
        → flat_map (markers_of {S = T.Seen}) (preserved_lines width wraps line) ++ preserved_waiting width wraps line
        ≡ names_of line }
{}

/// A source line of shown characters and spaces that fits the width is itself, under its first tags.
pub fn a_line_that_fits_is_itself<T: EqualCopy>()
    ensures { (width : ℕ) (wraps : Bool) (line : List (Source T.Seen)) → ArePlain width wraps line
        → source_columns (trimmed width wraps line) ≤ width
        → preserved_lines width wraps line ≡ one_line (as_it_stands (trimmed width wraps line)) }
{}

/// Tags have no say in a layout: the same source line under other tags stands on the same lines, with those tags.
pub fn preserved_lines_heed_no_tags<T: EqualCopy, U: EqualCopy>()
    ensures lines { (f : T.Seen → U.Seen) (width : ℕ) (wraps : Bool) (line : List (Source T.Seen))
        → preserved_lines width wraps (map (resource f) line)
        ≡ map (map (reitem f)) (preserved_lines width wraps line) }
    ensures waiting { (f : T.Seen → U.Seen) (width : ℕ) (wraps : Bool) (line : List (Source T.Seen))
        → preserved_waiting width wraps (map (resource f) line) ≡ preserved_waiting width wraps line }
    ensures wide { (f : T.Seen → U.Seen) (width : ℕ) (wraps : Bool) (line : List (Source T.Seen))
        → is_too_wide width wraps (map (resource f) line) ≡ is_too_wide width wraps line }
{}
