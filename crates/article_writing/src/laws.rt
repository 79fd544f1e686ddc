//! What is written of an article is read back.
ghost use Rattle.std.specs.Prelude.{◌≡◌, ℕ, Bool, List, Option, None, chars, false, IsUtf8};
ghost use Rattle.article_values.specs.Articles.{Blocks};
ghost use Rattle.article_values.specs.Faults.{first_fault};
ghost use Rattle.article_values.specs.Views.{blocks_view};
ghost use Rattle.article_values.specs.declared.values.Block.{Block as SeenBlock};
ghost use Rattle.document_laws.specs.Escaped.{KnowsEscapes};
ghost use Rattle.tree_forest.specs.Forest.{Forest, page_alone};
ghost use Rattle.tree_forest.specs.declared.sink.QuirksMode.{QuirksMode as Quirks};
ghost use Rattle.tree_forest.specs.declared.sink.QuirksMode.TheVariants.{NoQuirks};
ghost use Rattle.lex_base.specs.References.{References};
ghost use Rattle.tree_serializer.specs.Walks.{walk_text};
ghost use Rattle.tree_serializer.specs.declared.options.TraversalScope.TheVariants.{ChildrenOnly};
ghost use Rattle.html_tree_builder.specs.Grown.{IsTreeOfPage, beginning};
ghost use Rattle.page_reading.specs.PageTrees.{IsTreeOfBytes};
ghost use Rattle.document_laws.specs.Contents.{IsBlocks};
ghost use Rattle.page_decoding.specs.ReplacedText.{replaced_text};
ghost use Rattle.article_writing.specs.Contents.{NumbersFit, article_text, article_tree, content_of_blocks};
ghost use Rattle.written_document_laws.specs.Documents.{HoldsNoNul, HoldsNoReturn, scripted_parse};

use html_render_dom::Handle;
use written_document_laws::{
    a_document_is_walked, a_documents_tree_at_once, a_written_page_has_its_tree,
    no_text_is_two_documents,
};

/// What stands in the body for an article's blocks is a document's contents, and neither NUL nor CR stands in its
/// title, its texts and its values: so the laws of written documents hold of it.
pub fn accepted_articles_are_documents()
    ensures blocks { (title : Option (List ℕ)) (blocks : Blocks) → first_fault title blocks ≡ None →
        IsBlocks false (content_of_blocks blocks) }
    ensures no_nul { (title : Option (List ℕ)) (blocks : Blocks) → first_fault title blocks ≡ None →
        HoldsNoNul title (content_of_blocks blocks) }
    ensures no_return { (title : Option (List ℕ)) (blocks : Blocks) → first_fault title blocks ≡ None →
        HoldsNoReturn title (content_of_blocks blocks) }
{}

/// The page that is written of an article is parsed, as any page is, with scripting or without it, into the article's
/// own tree and no other: its elements and its texts, and no text is read as markup.
pub fn a_written_article_has_its_tree<H>()
    ensures { (handle : ℕ → H) (table : References) (scripting : Bool) → KnowsEscapes table →
        (title : Option (List ℕ)) (blocks : Blocks) (forest : Forest) (quirks : Quirks) →
        first_fault title blocks ≡ None →
        IsTreeOfPage handle (beginning table (scripted_parse scripting) page_alone NoQuirks)
        (article_text title blocks) forest quirks → forest ≡ article_tree title blocks }
{
    a_documents_tree_at_once();
    a_written_page_has_its_tree::<H>();
    accepted_articles_are_documents();
}

/// What is written of an article's tree is what is written of the article, whether scripts are run or not.
pub fn an_article_is_written_back()
    ensures { (scripting : Bool) (title : Option (List ℕ)) (blocks : Blocks) → first_fault title blocks ≡ None →
        walk_text scripting (ChildrenOnly None) 0 (article_tree title blocks) ≡ article_text title blocks }
{
    a_document_is_walked();
    a_documents_tree_at_once();
    accepted_articles_are_documents();
}

/// Bytes that are UTF-8 are read as their text.
pub fn utf8_is_read_as_its_text()
    ensures { (bytes : List ℕ) → IsUtf8 bytes → replaced_text bytes ≡ chars bytes }
{}

/// So the tree of the bytes of a written article is the article's own.
pub fn bytes_of_an_article_have_its_tree()
    ensures { (table : References) (scripting : Bool) → KnowsEscapes table → (title : Option (List ℕ))
        (blocks : Blocks) (bytes : List ℕ) (forest : Forest) (quirks : Quirks) → first_fault title blocks ≡ None →
        IsUtf8 bytes → chars bytes ≡ article_text title blocks →
        IsTreeOfBytes table (scripted_parse scripting) bytes forest quirks → forest ≡ article_tree title blocks }
{
    a_written_article_has_its_tree::<Handle>();
    utf8_is_read_as_its_text();
}

/// The first numbers of lists in blocks, as contracts see them, are numbers of 64 bits: so the law below holds of any
/// two articles that stand in memory.
pub fn first_numbers_fit()
    ensures { (blocks : List SeenBlock) → NumbersFit (blocks_view blocks) }
{}

/// Two articles of which the same text is written are equal.
pub fn no_text_is_two_articles()
    ensures { (title another : Option (List ℕ)) (blocks others : Blocks) → first_fault title blocks ≡ None →
        first_fault another others ≡ None → NumbersFit blocks → NumbersFit others →
        article_text title blocks ≡ article_text another others → (title ≡ another) × (blocks ≡ others) }
{
    accepted_articles_are_documents();
    no_text_is_two_documents();
}
