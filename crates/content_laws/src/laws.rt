//! Laws of texts that have the columns they ask for: each is the contract of a function that does nothing.
ghost use Rattle.std.specs.Prelude.{ℕ, ◌≡◌, ◌≤◌, All, List, false, length, true};
ghost use Rattle.content_laws.specs.Whole.{IsOneSourceLine, codes, stands_whole};
ghost use Rattle.content_widths.specs.Texts.{narrowest_of, widest_of};
ghost use Rattle.text_normal.specs.Layout.{marks};
ghost use Rattle.text_normal.specs.Letters.{codes_of, has_marker};
ghost use Rattle.text_normal.specs.Units.{Letter, letters_columns, units};
ghost use Rattle.text_pieces.specs.Modes.{is_preserved};
ghost use Rattle.text_pieces.specs.Sources.{Source};
ghost use Rattle.text_pieces.specs.declared.white_space.WhiteSpace.{WhiteSpace};
ghost use Rattle.text_wrapping.specs.Lines.{lines_in};

use text_lines::EqualCopy;

/// On lines of its narrowest columns or more each unit of a normal text fits a line, and is whole on it: no letter but
/// its first may start a line.
pub fn no_unit_is_cut<T: EqualCopy>()
    ensures fits { (width : ℕ) (letters : List (Letter T.Seen)) → narrowest_of (codes letters) ≤ width
        → All (λ unit. letters_columns unit.letters ≤ width) (units letters) }
    ensures whole { (width : ℕ) (letters : List (Letter T.Seen)) → narrowest_of (codes letters) ≤ width
        → All (λ mark. stands_whole mark.joint ≡ true) (marks width letters) }
{}

/// On lines of its widest columns or more a text has one line at most, and the same lines at each such width; where
/// white space is preserved, of a source line.
pub fn text_at_its_widest_is_not_wrapped<T: EqualCopy>()
    ensures one { (mode : WhiteSpace) (width : ℕ) (source : List (Source T.Seen))
        → widest_of mode (codes_of source) ≤ width
        → (is_preserved mode ≡ true → IsOneSourceLine (codes_of source))
        → (is_preserved mode ≡ false → has_marker source ≡ false)
        → length (lines_in mode width source) ≤ 1 }
    ensures same { (mode : WhiteSpace) (width wider : ℕ) (source : List (Source T.Seen))
        → widest_of mode (codes_of source) ≤ width → width ≤ wider
        → (is_preserved mode ≡ true → IsOneSourceLine (codes_of source))
        → (is_preserved mode ≡ false → has_marker source ≡ false)
        → lines_in mode width source ≡ lines_in mode wider source }
{}
