//! Laws of blocks of lines: each is the contract of a function that does nothing.
ghost use Rattle.std.specs.Prelude.{◌≡◌, ℕ, ◌+◌, ◌≤◌, All, Bool, true, List, [], Some, IfSome, IsSome, IsSomeAnd};
ghost use Rattle.text_pieces.specs.declared.white_space.WhiteSpace.{WhiteSpace as SeenMode};
ghost use Rattle.block_layout.specs.declared.measure.Measure.{Measure};
ghost use Rattle.text_lines.specs.Columns.{text_columns};
ghost use Rattle.text_lines.specs.Tagged.{Item, line_columns};
ghost use Rattle.text_borders.specs.Borders.{Border};
ghost use Rattle.text_borders.specs.Lines.{BlockLine, border, line_shown};
ghost use Rattle.text_borders.specs.Across.{CellLine, Cell, across, width_across};
ghost use Rattle.text_borders.specs.AcrossLaws.{LineFits, CellFits};
ghost use Rattle.block_layout.specs.Laid.{Laid, add_block, add_border, add_empty_line, add_horizontal_border, add_text};
ghost use Rattle.block_layout.specs.Laid.{add_text_lines, break_line, end_block, finished_lines, flush, mark};
ghost use Rattle.block_layout.specs.Laid.{nothing_laid, start_awaited, start_block, start_table};
ghost use Rattle.block_layout.specs.LaidRows.{last_border, add_row, add_slashes};
ghost use Rattle.block_layout_laws.specs.LayoutLaws.{IsKept, IsWithin, AllowsOverflow};

use text_borders::{
    filled_borders_stay_sound, rows_keep_their_width, shown_borders_have_their_width,
};
use text_lines::EqualCopy;
use text_wrapping::{blocks_keep_the_width, filled_lines_have_the_width};

/// No line of a block passes its width where no character may overflow: none does where nothing is laid yet, and each
/// call that comes to a block keeps it so.
pub fn calls_keep_the_width<T: EqualCopy>()
    ensures nothing { (m : Measure) → IsWithin {S = T.Seen} m nothing_laid }
    ensures flush { (m : Measure) (tag : T.Seen) (b new : Laid T.Seen) → IsKept m → IsWithin m b
        → flush m tag b ≡ Some new → IsWithin m new }
    ensures add_text_lines { (m : Measure) (tag fill : T.Seen) (lines : List (List (Item T.Seen))) (b : Laid T.Seen)
        → IsKept m → IsWithin m b → All (λ line. line_columns line ≤ m.width) lines
        → IsWithin m (add_text_lines m tag fill lines b) }
    ensures add_empty_line { (m : Measure) (tag : T.Seen) (b new : Laid T.Seen) → IsKept m → IsWithin m b
        → add_empty_line m tag b ≡ Some new → IsWithin m new }
    ensures start_block { (m : Measure) (tag : T.Seen) (b new : Laid T.Seen) → IsKept m → IsWithin m b
        → start_block m tag b ≡ Some new → IsWithin m new }
    ensures start_table { (m : Measure) (tag : T.Seen) (b new : Laid T.Seen) → IsKept m → IsWithin m b
        → start_table m tag b ≡ Some new → IsWithin m new }
    ensures end_block { (m : Measure) (b : Laid T.Seen) → IsWithin m b → IsWithin m (end_block b) }
    ensures start_awaited { (m : Measure) (tag : T.Seen) (b new : Laid T.Seen) → IsKept m → IsWithin m b
        → start_awaited m tag b ≡ Some new → IsWithin m new }
    ensures add_text { (m : Measure) (tag : T.Seen) (mode : SeenMode) (cs : List ℕ) (main further : T.Seen)
        (b new : Laid T.Seen) → IsKept m → IsWithin m b → add_text m tag mode cs main further b ≡ Some new
        → IsWithin m new }
    ensures mark { (m : Measure) (tag : T.Seen) (name : List ℕ) (b : Laid T.Seen) → IsKept m → IsWithin m b
        → IsWithin m (mark m tag name b) }
    ensures break_line { (m : Measure) (tag : T.Seen) (b new : Laid T.Seen) → IsKept m → IsWithin m b
        → break_line m tag b ≡ Some new → IsWithin m new }
    ensures add_horizontal_border { (m : Measure) (tag : T.Seen) (width : ℕ) (b new : Laid T.Seen) → IsKept m
        → IsWithin m b → width ≤ m.width → add_horizontal_border m tag width b ≡ Some new → IsWithin m new }
    ensures add_border { (m : Measure) (new : Border T.Seen) (b : Laid T.Seen) → IsWithin m b
        → LineFits m.width (border new) → IsWithin m (add_border new b) }
    ensures add_slashes { (m : Measure) (tag : T.Seen) (width : ℕ) (b : Laid T.Seen) → IsWithin m b
        → width ≤ m.width → IsWithin m (add_slashes width tag b) }
    ensures add_block { (other m : Measure) (tag : T.Seen) (first following : List ℕ) (lines : List (CellLine T.Seen))
        (b : Laid T.Seen) → IsWithin m b → All (λ l. LineFits other.width l.line) lines
        → text_columns first + other.width ≤ m.width → text_columns following + other.width ≤ m.width
        → IsWithin m (add_block other m tag first following lines b) }
    ensures add_row { (m : Measure) (tag : T.Seen) (draws collapse : Bool) (cells : List (Cell T.Seen))
        (b flushed new : Laid T.Seen) → IsKept m → IsWithin m b → All CellFits cells → flush m tag b ≡ Some flushed
        → width_across collapse tag (last_border flushed.lines) cells flushed.hanging ≤ m.width
        → add_row m tag draws collapse cells b ≡ Some new → IsWithin m new }
    ensures finished_lines { (m : Measure) (tag : T.Seen) (b : Laid T.Seen) (lines : List (BlockLine T.Seen))
        → IsKept m → IsWithin m b → finished_lines m tag b ≡ Some lines
        → All (λ l. line_columns (line_shown l) ≤ m.width) lines }
{
    blocks_keep_the_width::<T>();
    filled_lines_have_the_width::<T>();
    shown_borders_have_their_width::<T>();
    filled_borders_stay_sound::<T>();
    rows_keep_their_width::<T>();
}

/// Where a character that is wider than the lines may stand alone on one, no call is refused, and each keeps it so.
pub fn overflow_never_refuses<T: EqualCopy>()
    ensures nothing { (m : Measure) → m.overflow ≡ true → AllowsOverflow {S = T.Seen} m nothing_laid }
    ensures flush { (m : Measure) (tag : T.Seen) (b : Laid T.Seen) → AllowsOverflow m b
        → IsSomeAnd (flush m tag b) (AllowsOverflow m) }
    ensures add_text_lines { (m : Measure) (tag fill : T.Seen) (lines : List (List (Item T.Seen))) (b : Laid T.Seen)
        → AllowsOverflow m b → AllowsOverflow m (add_text_lines m tag fill lines b) }
    ensures add_empty_line { (m : Measure) (tag : T.Seen) (b : Laid T.Seen) → AllowsOverflow m b
        → IsSomeAnd (add_empty_line m tag b) (AllowsOverflow m) }
    ensures start_block { (m : Measure) (tag : T.Seen) (b : Laid T.Seen) → AllowsOverflow m b
        → IsSomeAnd (start_block m tag b) (AllowsOverflow m) }
    ensures start_table { (m : Measure) (tag : T.Seen) (b : Laid T.Seen) → AllowsOverflow m b
        → IsSomeAnd (start_table m tag b) (AllowsOverflow m) }
    ensures end_block { (m : Measure) (b : Laid T.Seen) → AllowsOverflow m b → AllowsOverflow m (end_block b) }
    ensures start_awaited { (m : Measure) (tag : T.Seen) (b : Laid T.Seen) → AllowsOverflow m b
        → IsSomeAnd (start_awaited m tag b) (AllowsOverflow m) }
    ensures add_text { (m : Measure) (tag : T.Seen) (mode : SeenMode) (cs : List ℕ) (main further : T.Seen)
        (b : Laid T.Seen) → AllowsOverflow m b
        → IsSomeAnd (add_text m tag mode cs main further b) (AllowsOverflow m) }
    ensures mark { (m : Measure) (tag : T.Seen) (name : List ℕ) (b : Laid T.Seen) → AllowsOverflow m b
        → AllowsOverflow m (mark m tag name b) }
    ensures break_line { (m : Measure) (tag : T.Seen) (b : Laid T.Seen) → AllowsOverflow m b
        → IsSomeAnd (break_line m tag b) (AllowsOverflow m) }
    ensures add_horizontal_border { (m : Measure) (tag : T.Seen) (width : ℕ) (b : Laid T.Seen) → AllowsOverflow m b
        → IsSomeAnd (add_horizontal_border m tag width b) (AllowsOverflow m) }
    ensures add_border { (m : Measure) (new : Border T.Seen) (b : Laid T.Seen) → AllowsOverflow m b
        → AllowsOverflow m (add_border new b) }
    ensures add_slashes { (m : Measure) (tag : T.Seen) (width : ℕ) (b : Laid T.Seen) → AllowsOverflow m b
        → AllowsOverflow m (add_slashes width tag b) }
    ensures add_block { (other m : Measure) (tag : T.Seen) (first following : List ℕ) (lines : List (CellLine T.Seen))
        (b : Laid T.Seen) → AllowsOverflow m b → AllowsOverflow m (add_block other m tag first following lines b) }
    ensures add_row { (m : Measure) (tag : T.Seen) (draws collapse : Bool) (cells : List (Cell T.Seen))
        (b : Laid T.Seen) → AllowsOverflow m b → IsSomeAnd (add_row m tag draws collapse cells b) (AllowsOverflow m) }
    ensures finished_lines { (m : Measure) (tag : T.Seen) (b : Laid T.Seen) → AllowsOverflow m b
        → IsSome (finished_lines m tag b) }
{}

/// Cells that go on wait for a row: no other call touches them but the start of a table, which drops them. After a row
/// those hang that go on from it.
pub fn cells_hang_until_a_row<T: EqualCopy>()
    ensures flush { (m : Measure) (tag : T.Seen) (b : Laid T.Seen)
        → IfSome (flush m tag b) (λ new. new.hanging ≡ b.hanging) }
    ensures add_empty_line { (m : Measure) (tag : T.Seen) (b : Laid T.Seen)
        → IfSome (add_empty_line m tag b) (λ new. new.hanging ≡ b.hanging) }
    ensures start_block { (m : Measure) (tag : T.Seen) (b : Laid T.Seen)
        → IfSome (start_block m tag b) (λ new. new.hanging ≡ b.hanging) }
    ensures start_table { (m : Measure) (tag : T.Seen) (b : Laid T.Seen)
        → IfSome (start_table m tag b) (λ new. new.hanging ≡ []) }
    ensures start_awaited { (m : Measure) (tag : T.Seen) (b : Laid T.Seen)
        → IfSome (start_awaited m tag b) (λ new. new.hanging ≡ b.hanging) }
    ensures end_block { (b : Laid T.Seen) → (end_block b).hanging ≡ b.hanging }
    ensures mark { (m : Measure) (tag : T.Seen) (name : List ℕ) (b : Laid T.Seen)
        → (mark m tag name b).hanging ≡ b.hanging }
    ensures add_text { (m : Measure) (tag : T.Seen) (mode : SeenMode) (cs : List ℕ) (main further : T.Seen)
        (b : Laid T.Seen) → IfSome (add_text m tag mode cs main further b) (λ new. new.hanging ≡ b.hanging) }
    ensures break_line { (m : Measure) (tag : T.Seen) (b : Laid T.Seen)
        → IfSome (break_line m tag b) (λ new. new.hanging ≡ b.hanging) }
    ensures add_horizontal_border { (m : Measure) (tag : T.Seen) (width : ℕ) (b : Laid T.Seen)
        → IfSome (add_horizontal_border m tag width b) (λ new. new.hanging ≡ b.hanging) }
    ensures add_block { (other m : Measure) (tag : T.Seen) (first following : List ℕ) (lines : List (CellLine T.Seen))
        (b : Laid T.Seen) → (add_block other m tag first following lines b).hanging ≡ b.hanging }
    ensures add_row { (m : Measure) (tag : T.Seen) (draws collapse : Bool) (cells : List (Cell T.Seen))
        (b flushed new : Laid T.Seen) → flush m tag b ≡ Some flushed → add_row m tag draws collapse cells b ≡ Some new
        → new.hanging ≡ (across draws collapse tag (last_border flushed.lines) cells flushed.hanging).hanging }
{}
