//! Laws of blocks of lines: each is the contract of a function that does nothing.
ghost use Rattle.std.specs.Prelude.{◌≡◌, ℕ, All, Bool, List, Some};
ghost use Rattle.text_pieces.specs.declared.white_space.WhiteSpace.{WhiteSpace as SeenMode};
ghost use Rattle.block_layout.specs.declared.measure.Measure.{Measure};
ghost use Rattle.text_lines.specs.Tagged.{Item};
ghost use Rattle.text_borders.specs.Borders.{Border};
ghost use Rattle.text_borders.specs.Lines.{BlockLine, border, line_shown};
ghost use Rattle.text_borders.specs.Across.{Cell, CellLine};
ghost use Rattle.block_layout.specs.Laid.{Laid, add_block, add_border, add_empty_line, add_horizontal_border, add_text};
ghost use Rattle.block_layout.specs.Laid.{add_text_lines, break_line, end_block, finished_lines, flush, mark};
ghost use Rattle.block_layout.specs.Laid.{nothing_laid, start_awaited, start_block, start_table};
ghost use Rattle.block_layout.specs.LaidRows.{add_row, add_slashes};
ghost use Rattle.printed_block_laws.specs.Printed.{ArePrinted, IsPrinted, IsPrintedBlock, IsPrintedCell, IsPrintedLine};

use text_lines::EqualCopy;

/// No line of a block holds a control character: none does where nothing is laid yet, and each call that comes to a block
/// keeps it so, whatever text it adds.
pub fn blocks_print_no_controls<T: EqualCopy>()
    ensures nothing { IsPrintedBlock {S = T.Seen} nothing_laid }
    ensures flush { (m : Measure) (tag : T.Seen) (b new : Laid T.Seen) → IsPrintedBlock b → flush m tag b ≡ Some new
        → IsPrintedBlock new }
    ensures add_text_lines { (m : Measure) (tag fill : T.Seen) (lines : List (List (Item T.Seen))) (b : Laid T.Seen)
        → IsPrintedBlock b → All ArePrinted lines → IsPrintedBlock (add_text_lines m tag fill lines b) }
    ensures add_empty_line { (m : Measure) (tag : T.Seen) (b new : Laid T.Seen) → IsPrintedBlock b
        → add_empty_line m tag b ≡ Some new → IsPrintedBlock new }
    ensures start_block { (m : Measure) (tag : T.Seen) (b new : Laid T.Seen) → IsPrintedBlock b
        → start_block m tag b ≡ Some new → IsPrintedBlock new }
    ensures start_table { (m : Measure) (tag : T.Seen) (b new : Laid T.Seen) → IsPrintedBlock b
        → start_table m tag b ≡ Some new → IsPrintedBlock new }
    ensures end_block { (b : Laid T.Seen) → IsPrintedBlock b → IsPrintedBlock (end_block b) }
    ensures start_awaited { (m : Measure) (tag : T.Seen) (b new : Laid T.Seen) → IsPrintedBlock b
        → start_awaited m tag b ≡ Some new → IsPrintedBlock new }
    ensures add_text { (m : Measure) (tag : T.Seen) (mode : SeenMode) (cs : List ℕ) (main further : T.Seen)
        (b new : Laid T.Seen) → IsPrintedBlock b → add_text m tag mode cs main further b ≡ Some new
        → IsPrintedBlock new }
    ensures mark { (m : Measure) (tag : T.Seen) (name : List ℕ) (b : Laid T.Seen) → IsPrintedBlock b
        → IsPrintedBlock (mark m tag name b) }
    ensures break_line { (m : Measure) (tag : T.Seen) (b new : Laid T.Seen) → IsPrintedBlock b
        → break_line m tag b ≡ Some new → IsPrintedBlock new }
    ensures add_horizontal_border { (m : Measure) (tag : T.Seen) (width : ℕ) (b new : Laid T.Seen) → IsPrintedBlock b
        → add_horizontal_border m tag width b ≡ Some new → IsPrintedBlock new }
    ensures add_border { (new : Border T.Seen) (b : Laid T.Seen) → IsPrintedBlock b → IsPrintedLine (border new)
        → IsPrintedBlock (add_border new b) }
    ensures add_slashes { (tag : T.Seen) (width : ℕ) (b : Laid T.Seen) → IsPrintedBlock b
        → IsPrintedBlock (add_slashes width tag b) }
    ensures add_block { (other m : Measure) (tag : T.Seen) (first following : List ℕ) (lines : List (CellLine T.Seen))
        (b : Laid T.Seen) → IsPrintedBlock b → All (λ l. IsPrintedLine l.line) lines → All IsPrinted first
        → All IsPrinted following → IsPrintedBlock (add_block other m tag first following lines b) }
    ensures add_row { (m : Measure) (tag : T.Seen) (draws collapse : Bool) (cells : List (Cell T.Seen))
        (b new : Laid T.Seen) → IsPrintedBlock b → All IsPrintedCell cells
        → add_row m tag draws collapse cells b ≡ Some new → IsPrintedBlock new }
    ensures finished_lines { (m : Measure) (tag : T.Seen) (b : Laid T.Seen) (lines : List (BlockLine T.Seen))
        → IsPrintedBlock b → finished_lines m tag b ≡ Some lines → All (λ l. ArePrinted (line_shown l)) lines }
{}
