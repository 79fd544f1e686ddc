//! The written form of an article.
ghost use Rattle.std.specs.Prelude.{◌≡◌, ◌≢◌, ℕ, List, None, Option, true, Err, OnErr, OnOk};
ghost use Rattle.tree_serializer.specs.Writing.{Grows, GrowsPart};
ghost use Rattle.article_values.specs.Articles.{Blocks as SeenBlocks};
ghost use Rattle.article_values.specs.Faults.{first_fault};
ghost use Rattle.article_writing.specs.Contents.{NumbersFit, article_text};

use crate::elements::emit_element;
use crate::inner::Inner;
use crate::laws::{an_article_is_written_back, first_numbers_fit, no_text_is_two_articles};
use article_values::Article;
use html_lexemes::ByteWriter;
use std::alloc::Global;
use tree_serializer::{
    Serialize, SerializeFault, SerializeOpts, Serializer, TraversalScope, serialize,
};
use written_document_laws::a_document_is_emitted;

/// An article, which can be emitted to a serializer as the page that is written of it (WHATWG HTML, 13.3).
#[derive(Drop)]
pub struct SerializableArticle<'a> {
    /// The article.
    pub article: &'a Article,
}

impl Serialize for SerializableArticle<'_> {
    ghost use Rattle.article_values.specs.Views.{blocks_view};
    ghost use Rattle.article_writing.specs.Contents.{article_tree};

    ghost forest = { λ a. article_tree a.article.now.title (blocks_view a.article.now.blocks) };

    ghost node = { λ a. 0 };

    fn serialize<S: Serializer>(
        &self,
        alloc: Global,
        serializer: &mut S,
        _scope: &TraversalScope,
    ) -> Result<(), SerializeFault> {
        a_document_is_emitted();
        serializer.write_doctype("html")?;
        let root = Inner::Root(self.article.title(), self.article.blocks());
        emit_element(alloc, serializer, "html", &[], root)
    }
}

/// Articles that are written. It stands for a method of `Article`, whose crate knows no serializer.
pub trait WriteArticle {
    /// The characters of the title, where there is one.
    ghost title: { Self → Option (List ℕ) };

    /// The blocks of the body.
    ghost blocks: { Self → SeenBlocks };

    /// Writes the article's page (WHATWG HTML, 13.3), which is that of no other article. It doesn't flush the writer.
    /// The error is the writer's refusal, or allocation failure; then a beginning is written.
    fn write_html<W: ByteWriter>(&self, alloc: Global, writer: &mut W) -> Result<(), SerializeFault>
        ensures ok { OnOk result (Grows (article_text (title self.now) (blocks self.now)) (W.contents writer.old)
            (W.contents writer.new)) }
        ensures alone { (another : Option (List ℕ)) (others : SeenBlocks) → first_fault another others ≡ None
            → NumbersFit others → article_text (title self.now) (blocks self.now) ≡ article_text another others
            → (title self.now ≡ another) × (blocks self.now ≡ others) }
        ensures part { OnErr result (GrowsPart (article_text (title self.now) (blocks self.now))
            (W.contents writer.old) (W.contents writer.new)) }
        ensures stays { W.has_failed writer.old ≡ true → W.has_failed writer.new ≡ true }
        ensures failed { result ≡ Err SerializeFault.Write → W.has_failed writer.new ≡ true }
        ensures kinds { result ≢ Err SerializeFault.NoParent };
}

impl WriteArticle for Article {
    ghost use Rattle.article_values.specs.Views.{blocks_view};

    ghost title = { λ a. a.title };

    ghost blocks = { λ a. blocks_view a.blocks };

    fn write_html<W: ByteWriter>(
        &self,
        alloc: Global,
        writer: &mut W,
    ) -> Result<(), SerializeFault> {
        an_article_is_written_back();
        no_text_is_two_articles();
        first_numbers_fit();
        // That an article has no fault is shown by the call that lends its blocks.
        self.blocks();
        let page = SerializableArticle { article: self };
        serialize(alloc, writer, &page, SerializeOpts::default())
    }
}
