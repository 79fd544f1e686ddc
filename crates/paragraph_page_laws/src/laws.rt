//! The law of pages of paragraphs.
ghost use Rattle.paragraph_page_laws.specs.ParagraphAnswers.{ParagraphPages};

use html_render_dom::Handle;
use page_reading::a_page_has_a_tree_of_bytes;
use paragraph_laws::{paragraph_pages_are_laid, paragraph_pages_have_their_trees};

/// A page of paragraphs with nothing between them has the lines of its texts in their fullest layouts, at each width
/// other than 0 at which each text has one; else it is too narrow. So no layout of a paragraph has fewer lines, each
/// visible character is shown once, in order, and no text becomes markup.
pub fn paragraph_pages()
    ensures { ParagraphPages }
{
    a_page_has_a_tree_of_bytes();
    paragraph_pages_have_their_trees::<Handle>();
    paragraph_pages_are_laid();
}
