//! Laws of the layout of articles.
ghost use Rattle.std.specs.Prelude.{◌≡◌, ◌≤◌, ◌++◌, [], List, None, Some, filter, flat_map, map, option_and_then};
ghost use Rattle.std.specs.Prelude.{option_map, ℕ};
ghost use Rattle.article_values.specs.Articles.{Blocks, Inlines};
ghost use Rattle.article_definitions.specs.BlockCalls.{noted, run_blocks, run_notes};
ghost use Rattle.article_definitions.specs.Calls.{block_with, cell_of, measure, run_whole};
ghost use Rattle.article_definitions.specs.Exchanges.{Differ, others};
ghost use Rattle.article_definitions.specs.Layouts.{Line, Options, Stretch, Tag, article_lines, lay, layout, notes};
ghost use Rattle.article_definitions.specs.Layouts.{outermost, paragraph_lines, parts_of, stretch_lines, targets_of};
ghost use Rattle.article_definitions.specs.Layouts.{wrap_at};
ghost use Rattle.article_definitions.specs.Paragraphs.{AreParagraphs};
ghost use Rattle.article_definitions.specs.Showing.{is_visible, visible_of};
ghost use Rattle.block_layout.specs.Laid.{Laid, flush, nothing_laid};
ghost use Rattle.text_normal.specs.Letters.{codes_of};
ghost use Rattle.text_borders.specs.Across.{CellLine, Hanging};

use text_normal_laws::{normal_lines_keep_markers, normal_lines_show_each_character};

/// Two articles that differ in one text, where each of the two texts has a visible character, and that are both laid
/// out: all lines that aren't of its paragraph are equal, in order, and so are the footnotes.
pub fn exchange()
    ensures { (o : Options) (width n : ℕ) (a b : Blocks) (ls ms : List Line) → Differ n 0 a b
        → article_lines o width a ≡ Some ls → article_lines o width b ≡ Some ms → others n ls ≡ others n ms }
{
    normal_lines_show_each_character::<Vec<()>>();
}

/// The lines of what a paragraph says between two breaks show its visible characters once, in order.
pub fn visible_characters_once()
    ensures { (o : Options) (width : ℕ) (s : Stretch) → flat_map (visible_of {S = Tag}) (stretch_lines o width s)
        ≡ filter is_visible (codes_of s.source) }
{
    normal_lines_show_each_character::<Vec<()>>();
}

/// An article of paragraphs alone has lines where a line of text may have two columns.
pub fn paragraphs_are_never_refused()
    ensures { (o : Options) (width : ℕ) (a : Blocks) → 2 ≤ wrap_at o width → AreParagraphs a
        → (lines : List Line) × (article_lines o width a ≡ Some lines) }
{}

/// The calls of a paragraph's texts and breaks, on a block of lines whose text has ended, lay just its lines after
/// those of the block; and they are refused just where it has none.
pub fn calls_of_a_paragraph()
    ensures { (o : Options) (width number : ℕ) (links : List (List ℕ)) (is : Inlines) (before : List (CellLine Tag))
        (hanging : List (Hanging Tag)) → run_whole (measure o width) (parts_of o outermost links is)
        (block_with before None hanging)
        ≡ option_map (λ lines. block_with (before ++ map cell_of lines) None hanging)
        (paragraph_lines o width number links is) }
{
    normal_lines_keep_markers::<Vec<()>>();
}

/// The calls of an article's blocks, each prefixed block in a block of lines of its own, lay just its lines but for
/// those of its targets, and are refused just where it has none.
pub fn calls_of_an_article()
    ensures { (o : Options) (width : ℕ) (a : Blocks) → option_map (λ (b : Laid Tag). b.lines)
        (option_and_then (flush (measure o width) outermost) (run_blocks o width [] a nothing_laid))
        ≡ option_map (map cell_of) (lay o width 0 [] a []) }
{
    normal_lines_keep_markers::<Vec<()>>();
}

/// The calls of an article's blocks and of its targets after them lay just its lines, and are refused just where it
/// has none.
pub fn calls_of_a_whole_article()
    ensures { (o : Options) (width : ℕ) (a : Blocks) → option_map (λ (b : Laid Tag). b.lines)
        (option_and_then (flush (measure o width) outermost) (option_and_then (run_notes o width
        (noted o (targets_of o a))) (run_blocks o width [] a nothing_laid)))
        ≡ option_map (map cell_of) (layout o (notes o width) width a) }
{
    normal_lines_keep_markers::<Vec<()>>();
}
