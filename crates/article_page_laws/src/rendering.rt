//! Laws of how articles are rendered: each is the contract of a function that does nothing.
ghost use Rattle.std.specs.Prelude.{◌≡◌, ◌<◌, ℕ, Bool, false};
ghost use Rattle.article_definitions.specs.ArticleValues.{page_values};
ghost use Rattle.article_page_laws.specs.ArticlesLaid.{AreLaidAs, options_by, shown_lines};
ghost use Rattle.article_values.specs.Articles.{Blocks};
ghost use Rattle.article_page_laws.specs.Pages.{AreFilledBlocks};
ghost use Rattle.html_render_tree.specs.PageLines.{Setting};

use crate::walk::values_of_a_page_are_its_calls;
use article_definitions::calls_of_a_whole_article;

/// The values of an article none of whose texts is empty are rendered as the lines of the article, with its targets
/// after them, and a width is too narrow for them only where the article has no lines: where no part may pass the
/// width.
pub fn articles_are_laid()
    ensures { (c : Setting (Unit {0})) (decorates : Bool) (width : ℕ) (blocks : Blocks)
        → c.options.allow_width_overflow ≡ false → 0 < width → AreFilledBlocks blocks
        → AreLaidAs c width (shown_lines (options_by c decorates) width blocks)
        (page_values (options_by c decorates) blocks) }
{
    calls_of_a_whole_article();
    values_of_a_page_are_its_calls();
}
