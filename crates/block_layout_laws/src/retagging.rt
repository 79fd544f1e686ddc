//! Laws of tags in blocks of lines: each is the contract of a function that does nothing.
ghost use Rattle.std.specs.Prelude.{◌≡◌, ℕ, Bool, List, map};
ghost use Rattle.std.specs.Option.{option_map};
ghost use Rattle.text_pieces.specs.declared.white_space.WhiteSpace.{WhiteSpace as SeenMode};
ghost use Rattle.block_layout.specs.declared.measure.Measure.{Measure};
ghost use Rattle.text_lines.specs.Tagged.{Item};
ghost use Rattle.text_borders.specs.Borders.{Border};
ghost use Rattle.text_borders.specs.Across.{CellLine, Cell};
ghost use Rattle.text_borders.specs.Retagged.{reitem, reborder, reline, recell_line, recell};
ghost use Rattle.block_layout.specs.Laid.{Laid, add_block, add_border, add_empty_line, add_horizontal_border, add_text};
ghost use Rattle.block_layout.specs.Laid.{add_text_lines, break_line, finished_lines, flush, is_nothing, mark};
ghost use Rattle.block_layout.specs.Laid.{start_awaited, start_block, start_table};
ghost use Rattle.block_layout.specs.LaidRows.{add_row, add_slashes};
ghost use Rattle.block_layout.specs.Retagged.{relaid};

use text_lines::EqualCopy;

/// Tags have no say in a block of lines: what a call makes of it under other tags is what it makes of it, under those.
pub fn calls_heed_no_tags<T: EqualCopy, U: EqualCopy>()
    ensures flush { (f : T.Seen → U.Seen) (m : Measure) (tag : T.Seen) (b : Laid T.Seen)
        → flush m (f tag) (relaid f b) ≡ option_map (relaid f) (flush m tag b) }
    ensures add_text_lines { (f : T.Seen → U.Seen) (m : Measure) (tag fill : T.Seen) (lines : List (List (Item T.Seen)))
        (b : Laid T.Seen) → add_text_lines m (f tag) (f fill) (map (map (reitem f)) lines) (relaid f b)
        ≡ relaid f (add_text_lines m tag fill lines b) }
    ensures add_empty_line { (f : T.Seen → U.Seen) (m : Measure) (tag : T.Seen) (b : Laid T.Seen)
        → add_empty_line m (f tag) (relaid f b) ≡ option_map (relaid f) (add_empty_line m tag b) }
    ensures start_block { (f : T.Seen → U.Seen) (m : Measure) (tag : T.Seen) (b : Laid T.Seen)
        → start_block m (f tag) (relaid f b) ≡ option_map (relaid f) (start_block m tag b) }
    ensures start_table { (f : T.Seen → U.Seen) (m : Measure) (tag : T.Seen) (b : Laid T.Seen)
        → start_table m (f tag) (relaid f b) ≡ option_map (relaid f) (start_table m tag b) }
    ensures start_awaited { (f : T.Seen → U.Seen) (m : Measure) (tag : T.Seen) (b : Laid T.Seen)
        → start_awaited m (f tag) (relaid f b) ≡ option_map (relaid f) (start_awaited m tag b) }
    ensures add_text { (f : T.Seen → U.Seen) (m : Measure) (tag : T.Seen) (mode : SeenMode) (cs : List ℕ)
        (main further : T.Seen) (b : Laid T.Seen) → add_text m (f tag) mode cs (f main) (f further) (relaid f b)
        ≡ option_map (relaid f) (add_text m tag mode cs main further b) }
    ensures mark { (f : T.Seen → U.Seen) (m : Measure) (tag : T.Seen) (name : List ℕ) (b : Laid T.Seen)
        → mark m (f tag) name (relaid f b) ≡ relaid f (mark m tag name b) }
    ensures break_line { (f : T.Seen → U.Seen) (m : Measure) (tag : T.Seen) (b : Laid T.Seen)
        → break_line m (f tag) (relaid f b) ≡ option_map (relaid f) (break_line m tag b) }
    ensures nothing { (f : T.Seen → U.Seen) (b : Laid T.Seen) → is_nothing (relaid f b) ≡ is_nothing b }
    ensures add_border { (f : T.Seen → U.Seen) (new : Border T.Seen) (b : Laid T.Seen)
        → add_border (reborder f new) (relaid f b) ≡ relaid f (add_border new b) }
    ensures add_horizontal_border { (f : T.Seen → U.Seen) (m : Measure) (tag : T.Seen) (width : ℕ) (b : Laid T.Seen)
        → add_horizontal_border m (f tag) width (relaid f b)
        ≡ option_map (relaid f) (add_horizontal_border m tag width b) }
    ensures add_slashes { (f : T.Seen → U.Seen) (width : ℕ) (tag : T.Seen) (b : Laid T.Seen)
        → add_slashes width (f tag) (relaid f b) ≡ relaid f (add_slashes width tag b) }
    ensures add_block { (f : T.Seen → U.Seen) (other m : Measure) (tag : T.Seen) (first following : List ℕ)
        (lines : List (CellLine T.Seen)) (b : Laid T.Seen)
        → add_block other m (f tag) first following (map (recell_line f) lines) (relaid f b)
        ≡ relaid f (add_block other m tag first following lines b) }
    ensures add_row { (f : T.Seen → U.Seen) (m : Measure) (tag : T.Seen) (draws collapse : Bool)
        (cells : List (Cell T.Seen)) (b : Laid T.Seen)
        → add_row m (f tag) draws collapse (map (recell f) cells) (relaid f b)
        ≡ option_map (relaid f) (add_row m tag draws collapse cells b) }
    ensures finished_lines { (f : T.Seen → U.Seen) (m : Measure) (tag : T.Seen) (b : Laid T.Seen)
        → finished_lines m (f tag) (relaid f b) ≡ option_map (map (reline f)) (finished_lines m tag b) }
{}
