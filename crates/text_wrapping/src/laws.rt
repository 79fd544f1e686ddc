//! Laws of blocks and their lines: each is the contract of a function that does nothing.
ghost use Rattle.std.specs.Prelude.{◌≡◌, ◌+◌, ◌≤◌, [], ◌++◌, All, Bool, List, None, Option, Some, false, length, map};
ghost use Rattle.std.specs.Prelude.{true, ℕ};
ghost use Rattle.std.specs.Option.{option_and_then, option_map};
ghost use Rattle.text_pieces.specs.Modes.{is_preserved};
ghost use Rattle.text_pieces.specs.Sources.{Source, sourced};
ghost use Rattle.text_lines.specs.Tagged.{Item, line_columns};
ghost use Rattle.text_normal.specs.Layout.{AreLinesOf, NeverFits};
ghost use Rattle.text_normal.specs.Letters.{letters_of, has_marker};
ghost use Rattle.text_wrapping.specs.Blocks.{Block, added, broken, empty_block, ended, ended_lines, fragments_taken};
ghost use Rattle.text_wrapping.specs.Blocks.{has_columns, marked_by, padded};
ghost use Rattle.text_wrapping.specs.LawWords.{line_ends, IsWithin};
ghost use Rattle.text_pieces.specs.declared.white_space.WhiteSpace.{WhiteSpace as SeenMode};
ghost use Rattle.text_wrapping.specs.NormalBlocks.{normal_block};
ghost use Rattle.text_wrapping.specs.Retagged.{reitem, reblock, reblocked};

use text_lines::EqualCopy;
use text_normal_laws::{
    normal_lines_are_fullest, normal_lines_keep_the_width, wide_text_never_fits,
};
use text_pieces::WhiteSpace;
use text_preserved::preserved_lines_keep_the_width;

/// A block of normal text goes on after what it holds; an empty block is one without text.
pub fn normal_text_is_kept<T: EqualCopy>()
    ensures empty { (width : ℕ) (overflow : Bool)
        → empty_block {S = T.Seen} width overflow None ≡ normal_block width overflow [] }
    ensures added { (width : ℕ) (overflow : Bool) (source : List (Source T.Seen)) (cs : List ℕ)
        (main further : T.Seen) → added WhiteSpace.Normal cs main further (normal_block width overflow source)
        ≡ Some (normal_block width overflow (source ++ sourced cs main further)) }
{}

/// The lines of a block of normal text without markers are those of its fullest legal layout.
pub fn normal_lines_of_a_block<T: EqualCopy>()
    ensures { (width : ℕ) (overflow : Bool) (source : List (Source T.Seen)) (lines : List (List (Item T.Seen)))
        → has_marker source ≡ false → ended_lines (normal_block width overflow source) ≡ Some lines
        → AreLinesOf width overflow (letters_of source) lines }
{
    normal_lines_are_fullest::<T>();
}

/// Where a block of normal text has no lines, no text that holds its letters has a legal layout, and no character may
/// overflow.
pub fn narrow_normal_text<T: EqualCopy>()
    ensures { (width : ℕ) (overflow : Bool) (source : List (Source T.Seen))
        → ended_lines (normal_block width overflow source) ≡ None
        → (overflow ≡ false) × NeverFits width false (letters_of source) }
{
    wide_text_never_fits::<T>();
}

/// However a text is cut into two, it adds the same.
pub fn text_may_be_cut_anywhere<T: EqualCopy>()
    ensures { (mode : SeenMode) (front back : List ℕ) (main further : T.Seen) (b : Block T.Seen)
        → added mode (front ++ back) main further b
        ≡ option_and_then (added mode back main further) (added mode front main further b) }
{}

/// Each line end of preserved text gives a line at least.
pub fn each_line_end_gives_a_line<T: EqualCopy>()
    ensures { (mode : SeenMode) (cs : List ℕ) (main further : T.Seen) (b new : Block T.Seen)
        → is_preserved mode ≡ true → added mode cs main further b ≡ Some new
        → length b.lines + line_ends cs ≤ length new.lines }
{}

/// A line that is filled has just the width's columns, where it has no more.
pub fn filled_lines_have_the_width<T: EqualCopy>()
    ensures { (width : ℕ) (tag : T.Seen) (line : List (Item T.Seen)) → line_columns line ≤ width
        → line_columns (padded width (Some tag) line) ≡ width }
{}

/// No line of a block passes the block's width where overflow is off: an empty block has none, and text, markers and
/// the block's end keep it so.
pub fn blocks_keep_the_width<T: EqualCopy>()
    ensures empty { (width : ℕ) (padding : Option T.Seen) → IsWithin width (empty_block width false padding) }
    ensures added { (width : ℕ) (mode : SeenMode) (cs : List ℕ) (main further : T.Seen) (b new : Block T.Seen)
        → IsWithin width b → added mode cs main further b ≡ Some new → IsWithin width new }
    ensures marked { (width : ℕ) (name : List ℕ) (b : Block T.Seen) → IsWithin width b
        → IsWithin width (marked_by name b) }
    ensures ended { (width : ℕ) (b new : Block T.Seen) → IsWithin width b → ended b ≡ Some new → IsWithin width new }
    ensures lines { (width : ℕ) (b : Block T.Seen) (lines : List (List (Item T.Seen))) → IsWithin width b
        → ended_lines b ≡ Some lines → All (λ line. line_columns line ≤ width) lines }
{
    preserved_lines_keep_the_width::<T>();
    normal_lines_keep_the_width::<T>();
}

/// Tags have no say in a block: what a call makes of it under other tags is what it makes of it, under those.
pub fn blocks_heed_no_tags<T: EqualCopy, U: EqualCopy>()
    ensures added { (f : T.Seen → U.Seen) (mode : SeenMode) (cs : List ℕ) (main further : T.Seen) (b : Block T.Seen)
        → added mode cs (f main) (f further) (reblock f b) ≡ option_map (reblock f) (added mode cs main further b) }
    ensures marked { (f : T.Seen → U.Seen) (name : List ℕ) (b : Block T.Seen)
        → marked_by name (reblock f b) ≡ reblock f (marked_by name b) }
    ensures ended { (f : T.Seen → U.Seen) (b : Block T.Seen)
        → ended (reblock f b) ≡ option_map (reblock f) (ended b) }
    ensures taken { (f : T.Seen → U.Seen) (b : Block T.Seen)
        → fragments_taken (reblock f b) ≡ option_map (reblocked f) (fragments_taken b) }
    ensures broken { (f : T.Seen → U.Seen) (b : Block T.Seen)
        → broken (reblock f b) ≡ option_map (reblocked f) (broken b) }
    ensures columns { (f : T.Seen → U.Seen) (b : Block T.Seen) → has_columns (reblock f b) ≡ has_columns b }
    ensures lines { (f : T.Seen → U.Seen) (b : Block T.Seen)
        → ended_lines (reblock f b) ≡ option_map (map (map (reitem f))) (ended_lines b) }
{}
