//! Laws of the lines of paragraphs: each is the contract of a function that does nothing.
ghost use Rattle.std.specs.Prelude.{◌≡◌, ℕ, List};
ghost use Rattle.html_render_tree.specs.PageLines.{Setting};
ghost use Rattle.paragraph_laws.specs.ParagraphPages.{AreLaid, AreQuiet, IsPlain, ParagraphPagesAreLaid};
ghost use Rattle.paragraph_laws.specs.ParagraphValues.{paragraph_values};
ghost use Rattle.paragraph_laws.specs.ParagraphTrees.{paragraph_tree};
ghost use Rattle.render_conversion.specs.Conversion.{document_values};
ghost use Rattle.render_conversion.specs.declared.options.ConversionOptions.{ConversionOptions};
ghost use Rattle.dom_styles.specs.declared.rules.StyleRule.{StyleRule};

use document_laws::a_planted_tree_is_at_once;
use text_block_renderer::{
    letters_of_texts, normal_lines_are_fullest, normal_lines_keep_markers, normal_text_is_kept,
    one_fullest_layout, wide_text_never_fits,
};

/// The values of a page of paragraphs, whatever is asked of its conversion: a block for each, and a text in it unless
/// that is empty.
pub fn paragraphs_have_their_values()
    ensures { (o : ConversionOptions) (rules : List StyleRule) (texts : List (List ℕ)) → AreQuiet rules →
        document_values o rules (paragraph_tree texts) ≡ paragraph_values texts }
{
    a_planted_tree_is_at_once();
}

/// They are laid out as the lines of the paragraphs, and a width is too narrow for them just where it is for one.
pub fn paragraphs_are_laid()
    ensures { (c : Setting (Unit {0})) (width : ℕ) (texts : List (List ℕ)) → IsPlain c →
        AreLaid c width texts (paragraph_values texts) }
{
    letters_of_texts::<Vec<()>>();
    normal_lines_are_fullest::<Vec<()>>();
    normal_lines_keep_markers::<Vec<()>>();
    normal_text_is_kept::<Vec<()>>();
    one_fullest_layout::<Vec<()>>();
    wide_text_never_fits::<Vec<()>>();
}

/// So a page that is a list of paragraphs is laid out as their lines.
pub fn paragraph_pages_are_laid()
    ensures { ParagraphPagesAreLaid }
{
    paragraphs_have_their_values();
    paragraphs_are_laid();
}
