//! The lines of an article.
ghost use Rattle.std.specs.Prelude.{◌≡◌, ◌≢◌, ◌≤◌, Err, IfOk, List, None, Some, false, filter, flat_map, length, map};
ghost use Rattle.std.specs.Prelude.{ℕ};
ghost use Rattle.std.specs.Option.{option_map};
ghost use Rattle.article_layout.specs.Lines.{line_of};
ghost use Rattle.article_layout.specs.Seen.{others_emitted, emitted, emitted_of};
ghost use Rattle.article_layout.specs.Settings.{options_of};
ghost use Rattle.article_definitions.specs.Exchanges.{Differ, others};
ghost use Rattle.article_definitions.specs.Layouts.{Line as SeenLine, Stretch, Tag, article_lines, stretch_lines};
ghost use Rattle.article_definitions.specs.Layouts.{wrap_at};
ghost use Rattle.article_definitions.specs.Paragraphs.{AreParagraphs};
ghost use Rattle.article_definitions.specs.Showing.{is_visible, visible_of};
ghost use Rattle.article_values.specs.Articles.{Blocks as SeenBlocks};
ghost use Rattle.text_normal.specs.Layout.{IsLayout, Mark, marks};
ghost use Rattle.text_normal.specs.Letters.{codes_of, has_marker, letters_of};
ghost use Rattle.text_normal.specs.Riders.{has_wide_text};
ghost use Rattle.article_values.specs.Views.{blocks_view};
ghost use Rattle.text_pieces.specs.declared.fault.BlockError.TheVariants as errors;

use crate::blocks::lay_blocks;
use crate::footnotes::add_footnotes;
use crate::line_list::{Line, LineList};
use crate::options::{LineOptions, Room};
use crate::paragraphs::After;
use article_definitions::{exchange, paragraphs_are_never_refused, visible_characters_once};
use article_values::Block;
use std::alloc::{AllocError, Global};
use text_footnotes::LinkTargets;
use text_lines::TaggedLine;
use text_normal_laws::{fewest_lines, normal_lines_are_fullest};
use text_pieces::BlockError;

/// A line of an article that is laid out.
#[derive(Drop)]
pub struct ArticleLine {
    /// Its characters, under the annotations of plain text: one for each span and each link around them.
    pub line: TaggedLine<Vec<()>>,
    /// The number of the paragraph or heading that it is of, counted from 0 on in the order of the article. An empty
    /// line between blocks and a line of a target have none.
    pub paragraph: Option<usize>,
}

/// The lines of blocks at a width, in columns, by recursion on them. It is `TooNarrow` where the width is 0, where a
/// heading or an item has fewer columns after its prefix than it asks for, and where a character is wider than lines;
/// else refused since allocation fails. Paragraphs alone are never refused where a line of text may have two columns.
///
/// What is said between two breaks shows each visible character once, in order, on no more lines than any legal layout
/// of it, in as many columns as are left for it after the prefixes of the blocks around it. Where another article has
/// one text in place of another, and each of the two has a visible character, all lines but those of that paragraph are
/// the same, and the lines of targets too.
pub fn lay_article(
    alloc: Global,
    blocks: &[Block],
    options: LineOptions,
    width: usize,
) -> Result<Vec<ArticleLine>, BlockError>
    ensures lines { IfOk result (λ lines. option_map (map emitted)
        (article_lines (options_of options) width (blocks_view blocks.now)) ≡ Some (map emitted_of lines.items)) }
    ensures narrow { result ≡ Err errors.TooNarrow
        → article_lines (options_of options) width (blocks_view blocks.now) ≡ None }
    ensures failed { result ≡ Err errors.Failed → ⊥ }
    ensures shown { (columns : ℕ) (s : Stretch)
        → flat_map (visible_of {S = Tag}) (stretch_lines (options_of options) columns s)
        ≡ filter is_visible (codes_of s.source) }
    ensures fewest { (columns : ℕ) (s : Stretch) (layout : List (List (Mark Tag))) → has_marker s.source ≡ false
        → has_wide_text (wrap_at (options_of options) columns) s.source ≡ false
        → IsLayout (wrap_at (options_of options) columns) false
        (marks (wrap_at (options_of options) columns) (letters_of s.source)) layout
        → length (stretch_lines (options_of options) columns s) ≤ length layout }
    ensures exchange { (n : ℕ) (changed : SeenBlocks) (ms : List SeenLine) → Differ n 0 (blocks_view blocks.now) changed
        → article_lines (options_of options) width changed ≡ Some ms
        → IfOk result (λ lines. others_emitted n (map emitted_of lines.items) ≡ map emitted (others n ms)) }
    ensures paragraphs { 2 ≤ wrap_at (options_of options) width → AreParagraphs (blocks_view blocks.now)
        → result ≢ Err errors.TooNarrow }
{
    visible_characters_once();
    normal_lines_are_fullest::<Vec<()>>();
    fewest_lines::<Vec<()>>();
    exchange();
    paragraphs_are_never_refused();
    laid_article(alloc, blocks, options, width)
}

fn laid_article(
    alloc: Global,
    blocks: &[Block],
    options: LineOptions,
    width: usize,
) -> Result<Vec<ArticleLine>, BlockError>
    ensures lines { IfOk result (λ lines. option_map (map emitted)
        (article_lines (options_of options) width (blocks_view blocks.now)) ≡ Some (map emitted_of lines.items)) }
    ensures narrow { result ≡ Err errors.TooNarrow
        → article_lines (options_of options) width (blocks_view blocks.now) ≡ None }
    ensures failed { result ≡ Err errors.Failed → ⊥ }
{
    if width == 0 {
        return Err(BlockError::TooNarrow);
    }
    let room = Room { options, width };
    let mut lines = LineList::new(alloc);
    let mut trailing = After {
        paragraphs: 0,
        targets: LinkTargets::new(alloc),
    };
    lay_blocks(alloc, room, blocks, &mut lines, &mut trailing)?;
    add_footnotes(alloc, room, trailing.targets, &mut lines)?;
    let lines = emitted(alloc, lines.into_lines())?;
    Ok(lines)
}

fn emitted(alloc: Global, lines: Vec<Line>) -> Result<Vec<ArticleLine>, AllocError>
    ensures { IfOk result (λ all. map emitted_of all.items ≡ map emitted (map line_of lines.items)) }
{
    let mut all = Vec::with_capacity(alloc, lines.len())?;
    for Line {
        line,
        paragraph,
        ..
    } in lines {
        all.push(ArticleLine { line, paragraph })?;
    }
    Ok(all)
}
