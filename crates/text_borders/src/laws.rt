//! Laws of borders: each is the contract of a function that does nothing.
ghost use Rattle.std.specs.Prelude.{◌≡◌, ℕ, ◌+◌, ◌≤◌, Bool, Option, Some, IfSome, List, All, length, map, max};
ghost use Rattle.std.specs.Option.{option_map};
ghost use Rattle.text_lines.specs.Tagged.{Item, line_columns};
ghost use Rattle.text_borders.specs.Segments.{Segment, with_up, with_down, joins_above, joins_below};
ghost use Rattle.text_borders.specs.Borders.{Border, merged_above, merged_below, punched_at, punched, filled_to, shown};
ghost use Rattle.text_borders.specs.BorderLaws.{IsChangedWhereAsked, AreInOrder, IsSound};
ghost use Rattle.text_borders.specs.Across.{Cell, Hanging, across, as_text, seated, width_across};
ghost use Rattle.text_borders.specs.AcrossLaws.{CellFits, cells_width, AreSeatedIn, seat_of, seats_after};
ghost use Rattle.text_borders.specs.Lines.{BlockLine, line_shown};
ghost use Rattle.text_borders.specs.Retagged.{reitem, reborder, reline, recell, rehanging, rerow};

use text_lines::EqualCopy;

/// A border that takes in another from below has the segments that it had, joined to a line below exactly where the
/// other has `┴ ┬ ┼ └ ┘`.
pub fn joined_below_where_asked<T: EqualCopy>()
    ensures { (other : List Segment) (place : ℕ) (b : Border T.Seen) → IsChangedWhereAsked joins_below
        (option_map with_down) place other b.segments (merged_below other place b).segments }
{}

/// A border that takes in another from above has the segments that it had, joined to a line above exactly where the
/// other has `┴ ┬ ┼ ┌ ┐`.
pub fn joined_above_where_asked<T: EqualCopy>()
    ensures { (other : List Segment) (place : ℕ) (b : Border T.Seen) → IsChangedWhereAsked joins_above
        (option_map with_up) place other b.segments (merged_above other place b).segments }
{}

/// A border keeps its width where what it takes in lies within it.
pub fn merges_keep_the_width<T: EqualCopy>()
    ensures below { (other : List Segment) (place : ℕ) (b : Border T.Seen) → place + length other ≤ length b.segments
        → length (merged_below other place b).segments ≡ length b.segments }
    ensures above { (other : List Segment) (place : ℕ) (b : Border T.Seen) → place + length other ≤ length b.segments
        → length (merged_above other place b).segments ≡ length b.segments }
{}

/// What is shown of a border has a column for each segment, where its texts stand one after the other within it.
pub fn shown_borders_have_their_width<T: EqualCopy>()
    ensures { (b : Border T.Seen) → IsSound b → line_columns (shown b) ≡ length b.segments }
{}

/// Texts that are put in stand one after the other within the border, which is stretched to the last one's end. A text
/// stands at its place where those before it end before that.
pub fn punched_borders_stay_sound<T: EqualCopy>()
    ensures place { (place : ℕ) (items : List (Item T.Seen)) (b : Border T.Seen) → AreInOrder 0 place b.holes
        → punched place items b ≡ punched_at place items b }
    ensures order { (place : ℕ) (items : List (Item T.Seen)) (b : Border T.Seen) → AreInOrder 0 place b.holes
        → AreInOrder 0 (place + line_columns items) (punched_at place items b).holes }
    ensures width { (place : ℕ) (items : List (Item T.Seen)) (b : Border T.Seen)
        → length (punched_at place items b).segments ≡ max (length b.segments) (place + line_columns items) }
    ensures sound { (place : ℕ) (items : List (Item T.Seen)) (b : Border T.Seen) → IsSound b
        → IsSound (punched place items b) }
{}

/// The border below a row has a column for each segment whatever the cells hold, and so has the one above where it had.
pub fn borders_of_rows_are_sound<T: EqualCopy>()
    ensures below { (draws collapse : Bool) (tag : T.Seen) (above : Option (Border T.Seen)) (cells : List (Cell T.Seen))
        (hanging : List (Hanging T.Seen)) → IsSound (across draws collapse tag above cells hanging).below }
    ensures above { (draws collapse : Bool) (tag : T.Seen) (above : Border T.Seen) (cells : List (Cell T.Seen))
        (hanging : List (Hanging T.Seen)) → IsSound above
        → IfSome (across draws collapse tag (Some above) cells hanging).above IsSound }
{}

/// A border that is filled up to a width has so many columns, or its own where it is wider, and its texts still stand
/// one after the other within it.
pub fn filled_borders_stay_sound<T: EqualCopy>()
    ensures width { (width : ℕ) (b : Border T.Seen)
        → length (filled_to width b).segments ≡ max (length b.segments) width }
    ensures sound { (width : ℕ) (b : Border T.Seen) → IsSound b → IsSound (filled_to width b) }
{}

/// Where each cell's lines are within its width, every line of a row has just the row's columns, and the border below
/// it too, with its texts. So has the border above, where it is not wider, and the cells that go on keep their widths.
pub fn rows_keep_their_width<T: EqualCopy>()
    ensures lines { (draws collapse : Bool) (tag : T.Seen) (above : Option (Border T.Seen)) (cells : List (Cell T.Seen))
        (hanging : List (Hanging T.Seen)) → All CellFits cells → All (λ h. CellFits h.cell) hanging
        → All (λ l. line_columns l ≡ width_across collapse tag above cells hanging)
        (across draws collapse tag above cells hanging).lines }
    ensures below { (draws collapse : Bool) (tag : T.Seen) (above : Option (Border T.Seen)) (cells : List (Cell T.Seen))
        (hanging : List (Hanging T.Seen)) → All CellFits cells → All (λ h. CellFits h.cell) hanging
        → line_columns (shown (across draws collapse tag above cells hanging).below)
        ≡ width_across collapse tag above cells hanging }
    ensures below_width { (draws collapse : Bool) (tag : T.Seen) (above : Option (Border T.Seen))
        (cells : List (Cell T.Seen)) (hanging : List (Hanging T.Seen)) → All CellFits cells
        → All (λ h. CellFits h.cell) hanging
        → length (across draws collapse tag above cells hanging).below.segments
        ≡ width_across collapse tag above cells hanging }
    ensures below_sound { (draws collapse : Bool) (tag : T.Seen) (above : Option (Border T.Seen))
        (cells : List (Cell T.Seen)) (hanging : List (Hanging T.Seen)) → All CellFits cells
        → All (λ h. CellFits h.cell) hanging → IsSound (across draws collapse tag above cells hanging).below }
    ensures above_width { (draws collapse : Bool) (tag : T.Seen) (above : Border T.Seen) (cells : List (Cell T.Seen))
        (hanging : List (Hanging T.Seen)) → All CellFits cells → All (λ h. CellFits h.cell) hanging
        → IfSome (across draws collapse tag (Some above) cells hanging).above (λ new. length new.segments
        ≡ max (length above.segments) (width_across collapse tag (Some above) cells hanging)) }
    ensures above_sound { (draws collapse : Bool) (tag : T.Seen) (above : Border T.Seen) (cells : List (Cell T.Seen))
        (hanging : List (Hanging T.Seen)) → All CellFits cells → All (λ h. CellFits h.cell) hanging → IsSound above
        → IfSome (across draws collapse tag (Some above) cells hanging).above IsSound }
    ensures hanging { (draws collapse : Bool) (tag : T.Seen) (above : Option (Border T.Seen))
        (cells : List (Cell T.Seen)) (hanging : List (Hanging T.Seen)) → All CellFits cells
        → All (λ h. CellFits h.cell) hanging
        → All (λ h. CellFits h.cell) (across draws collapse tag above cells hanging).hanging }
{}

/// Where each cell that goes on has the place and the columns of a cell that is handed in, a row is as wide as the
/// cells handed in with the signs between them. What goes on from a row are its cells that take more rows, at their
/// places.
pub fn cells_keep_their_places<T: EqualCopy>()
    ensures width { (collapse : Bool) (tag : T.Seen) (above : Option (Border T.Seen)) (cells : List (Cell T.Seen))
        (hanging : List (Hanging T.Seen)) → AreSeatedIn 0 cells hanging
        → width_across collapse tag above cells hanging ≡ cells_width cells }
    ensures seats { (draws collapse : Bool) (tag : T.Seen) (above : Option (Border T.Seen)) (cells : List (Cell T.Seen))
        (hanging : List (Hanging T.Seen)) →
        map (seat_of {S = T.Seen}) (across draws collapse tag above cells hanging).hanging
        ≡ seats_after 0 (seated 0 cells hanging) }
{}

/// Tags have no say in borders and rows: under other tags they are the same, with those tags.
pub fn rows_heed_no_tags<T: EqualCopy, U: EqualCopy>()
    ensures across { (f : T.Seen → U.Seen) (draws collapse : Bool) (tag : T.Seen) (above : Option (Border T.Seen))
        (cells : List (Cell T.Seen)) (hanging : List (Hanging T.Seen))
        → across draws collapse (f tag) (option_map (reborder f) above) (map (recell f) cells)
        (map (rehanging f) hanging) ≡ rerow f (across draws collapse tag above cells hanging) }
    ensures text { (f : T.Seen → U.Seen) (tag : T.Seen) (line : BlockLine T.Seen)
        → as_text (f tag) (reline f line) ≡ map (reitem f) (as_text tag line) }
    ensures shown { (f : T.Seen → U.Seen) (line : BlockLine T.Seen)
        → line_shown (reline f line) ≡ map (reitem f) (line_shown line) }
    ensures filled { (f : T.Seen → U.Seen) (width : ℕ) (b : Border T.Seen)
        → filled_to width (reborder f b) ≡ reborder f (filled_to width b) }
{}
