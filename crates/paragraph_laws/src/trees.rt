//! Laws of pages of paragraphs.
ghost use Rattle.std.specs.Prelude.{ℕ, List};
ghost use Rattle.paragraph_laws.specs.ParagraphPage.{HasOneList};
ghost use Rattle.paragraph_laws.specs.ParagraphTrees.{ParagraphPagesHaveTheirTrees};

use document_laws::{a_planted_tree_is_at_once, blocks_rebuild, the_basic_table_knows_escapes};

/// A page of paragraphs is parsed into their tree, and into no other.
pub fn paragraph_pages_have_their_trees<H>()
    ensures { (handle : ℕ → H) → ParagraphPagesHaveTheirTrees handle }
{
    a_planted_tree_is_at_once();
    blocks_rebuild();
}

/// No page is two lists of paragraphs.
pub fn one_list()
    ensures { (page : List ℕ) → HasOneList page }
{
    the_basic_table_knows_escapes();
}
