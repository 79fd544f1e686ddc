//! Laws of texts and their lines: each is the contract of a function that does nothing.
ghost use Rattle.std.specs.Prelude.{◌≡◌, ℕ, ◌≤◌, All, flat_map, filter, map, Bool, true, false, List, ◌++◌, ◌||◌, not};
ghost use Rattle.text_lines.specs.Tagged.{line_columns, characters};
ghost use Rattle.text_pieces.specs.Sources.{Source, names_of, sourced};
ghost use Rattle.text_pieces.specs.Retagged.{reitem, resource};
ghost use Rattle.text_pieces.specs.Items.{markers_of};
ghost use Rattle.text_normal.specs.Units.{lettered};
ghost use Rattle.text_normal.specs.Layout.{AreLinesOf, NeverFits};
ghost use Rattle.text_normal.specs.Riders.{normal_lines, normal_waiting, has_wide_text};
ghost use Rattle.text_normal.specs.Letters.{letters_of, has_marker, is_shown, codes_of, texts_of};

use text_lines::EqualCopy;

/// The lines of normal text without markers are those of its fullest legal layout, where a layout is legal.
pub fn normal_lines_are_fullest<T: EqualCopy>()
    ensures { (width : ℕ) (overflow : Bool) (source : List (Source T.Seen)) → has_marker source ≡ false
        → (overflow || not (has_wide_text width source)) ≡ true
        → AreLinesOf width overflow (letters_of source) (normal_lines width source) }
{}

/// Where normal text has a character that is wider than the width, no text that holds it has a legal layout without
/// overflow.
pub fn wide_text_never_fits<T: EqualCopy>()
    ensures { (width : ℕ) (source : List (Source T.Seen)) → has_wide_text width source ≡ true
        → NeverFits width false (letters_of source) }
{}

/// The letters of texts, one after the other; texts have no markers.
pub fn letters_of_texts<T: EqualCopy>()
    ensures text { (cs : List ℕ) (main further : T.Seen)
        → letters_of (sourced cs main further) ≡ lettered cs main }
    ensures joined { (front back : List (Source T.Seen))
        → letters_of (front ++ back) ≡ letters_of front ++ letters_of back }
    ensures no_marker { (cs : List ℕ) (main further : T.Seen) → has_marker (sourced cs main further) ≡ false }
    ensures no_more { (front back : List (Source T.Seen)) → has_marker front ≡ false → has_marker back ≡ false
        → has_marker (front ++ back) ≡ false }
{}

/// Where no character that a line is to show is wider than the width, no line passes the width, markers or not.
pub fn normal_lines_keep_the_width<T: EqualCopy>()
    ensures { (width : ℕ) (source : List (Source T.Seen)) → has_wide_text width source ≡ false
        → All (λ items. line_columns items ≤ width) (normal_lines width source) }
{}

/// No marker is lost: each stands on a line or waits, in order.
pub fn normal_lines_keep_markers<T: EqualCopy>()
    ensures { (width : ℕ) (source : List (Source T.Seen))
        → flat_map (markers_of {S = T.Seen}) (normal_lines width source) ++ normal_waiting width source
        ≡ names_of source }
{}

/// White space aside, the characters of the lines are those of the text that have a width, in order.
pub fn normal_lines_show_each_character<T: EqualCopy>()
    ensures { (width : ℕ) (source : List (Source T.Seen))
        → filter is_shown (flat_map (characters {S = T.Seen}) (normal_lines width source))
        ≡ filter is_shown (codes_of source) }
{}

/// Where no character that a line is to show is wider than the width, markers change no line: line by line, the
/// characters are those of the text without its markers.
pub fn markers_change_no_line<T: EqualCopy>()
    ensures { (width : ℕ) (source : List (Source T.Seen)) → has_wide_text width source ≡ false
        → map (characters {S = T.Seen}) (normal_lines width source)
        ≡ map (characters {S = T.Seen}) (normal_lines width (texts_of source)) }
{}

/// Tags have no say in a layout: the same text under other tags stands on the same lines, with those tags.
pub fn normal_lines_heed_no_tags<T: EqualCopy, U: EqualCopy>()
    ensures lines { (f : T.Seen → U.Seen) (width : ℕ) (source : List (Source T.Seen))
        → normal_lines width (map (resource f) source) ≡ map (map (reitem f)) (normal_lines width source) }
    ensures waiting { (f : T.Seen → U.Seen) (width : ℕ) (source : List (Source T.Seen))
        → normal_waiting width (map (resource f) source) ≡ normal_waiting width source }
    ensures wide { (f : T.Seen → U.Seen) (width : ℕ) (source : List (Source T.Seen))
        → has_wide_text width (map (resource f) source) ≡ has_wide_text width source }
{}
