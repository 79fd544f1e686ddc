//! What is written is read back.
ghost use Rattle.std.specs.Prelude.{◌≡◌, ◌++◌, ℕ, Bool, List, Option, None, false, fold};
ghost use Rattle.document_laws.specs.Escaped.{KnowsEscapes};
ghost use Rattle.tree_forest.specs.Forest.{Forest, page_alone};
ghost use Rattle.tree_forest.specs.declared.sink.QuirksMode.{QuirksMode as Quirks};
ghost use Rattle.tree_forest.specs.declared.sink.QuirksMode.TheVariants.{NoQuirks};
ghost use Rattle.token_grammar.specs.Items.{Item};
ghost use Rattle.token_grammar.specs.PageText.{page_text};
ghost use Rattle.token_grammar.specs.Reading.{Reading};
ghost use Rattle.token_grammar.specs.declared.modes.Mode.{Mode as SeenMode};
ghost use Rattle.lex_base.specs.References.{References};
ghost use Rattle.tree_serializer.specs.Walks.{calls_of, walk_text};
ghost use Rattle.tree_serializer.specs.declared.options.TraversalScope.{TraversalScope as Scope};
ghost use Rattle.tree_serializer.specs.declared.options.TraversalScope.TheVariants.{ChildrenOnly};
ghost use Rattle.html_tree_builder.specs.Grown.{IsTreeOfPage, beginning};
ghost use Rattle.page_tree_laws.specs.KeptText.{IsAtBeginning};
ghost use Rattle.document_laws.specs.Contents.{Content, IsBlocks};
ghost use Rattle.document_laws.specs.Rebuilt.{document_tokens, document_tree};
ghost use Rattle.rules_table.specs.Settling.{meaning};
ghost use Rattle.rules_table.specs.State.{State};
ghost use Rattle.written_document_laws.specs.Documents.{AreRepliedTo, HoldsNoNul, HoldsNoReturn, document_text};
ghost use Rattle.written_document_laws.specs.Documents.{scripted_parse};
ghost use Rattle.written_document_laws.specs.Emissions.{document_calls};
ghost use Rattle.written_document_laws.specs.Trees.{whole_tree};
ghost use Rattle.written_document_laws.specs.Written.{AreReadBack, items_text, mode_after_all, ordinary};

use document_laws::{
    a_planted_tree_is_at_once, documents_ask, documents_rebuild, the_basic_table_knows_escapes,
};
use page_laws::a_page_is_at_its_beginning;
use rules_table_laws::tree_construction_is_lawful;
use token_grammar::TokenSink;
use tree_forest::a_page_alone_is_a_forest;

/// The reading of what is written of a page's items, whatever follows it, emits the items.
pub fn written_items_are_read_back<S: TokenSink>()
    ensures { (table : References) (mode : SeenMode) (state : S.Abstract) (items : List Item) (rest : List ℕ)
        (final : S.Abstract) → KnowsEscapes table → AreReadBack S.means mode state items →
        Reading table S.means (mode_after_all S.means mode state items) (fold S.means.step state items) rest final →
        Reading table S.means mode state (items_text items ++ rest) final }
{}

/// The reading of a written document emits its tokens, whatever the sink that replies to its tags as tree construction
/// does.
pub fn a_written_document_is_read_back<S: TokenSink>()
    ensures { (table : References) (last : Option (List ℕ)) (state : S.Abstract) (title : Option (List ℕ))
        (content : Content) → KnowsEscapes table → HoldsNoNul title content → IsBlocks false content →
        AreRepliedTo S.means state (document_tokens title content) →
        Reading table S.means (ordinary last) state (document_text title content)
        (fold S.means.step state (document_tokens title content)) }
{}

/// A written document is a page's text as it stands: no byte order mark stands before it, and no line ends in a CR.
pub fn a_written_document_is_a_page_text()
    ensures { (discard : Bool) (title : Option (List ℕ)) (content : Content) → HoldsNoReturn title content →
        IsBlocks false content → page_text discard (document_text title content) ≡ document_text title content }
{}

/// What is written of a document has the document's tree and no other, whatever reads it by the rules of tree
/// construction.
pub fn a_written_document_has_its_tree<H>()
    ensures { (handle : ℕ → H) (table : References) → KnowsEscapes table →
        (last : Option (List ℕ)) (s : State) (title : Option (List ℕ)) (content : Content) (final : State) →
        IsAtBeginning s → s.tree.forest ≡ page_alone → s.options.drop_doctype ≡ false →
        HoldsNoNul title content → IsBlocks false content →
        Reading table (meaning handle) (ordinary last) s (document_text title content) final →
        final.tree.forest ≡ document_tree title content }
{
    documents_ask();
    documents_rebuild();
    tree_construction_is_lawful::<H>();
}

/// The tree of a document, all nodes of it at once.
pub fn a_documents_tree_at_once()
    ensures { (title : Option (List ℕ)) (content : Content) → document_tree title content ≡ whole_tree title content }
{
    a_planted_tree_is_at_once();
}

/// The walk of a document's tree writes the document.
pub fn a_document_is_walked()
    ensures { (scripting : Bool) (title : Option (List ℕ)) (content : Content) → IsBlocks false content →
        walk_text scripting (ChildrenOnly None) 0 (document_tree title content) ≡ document_text title content }
{
    a_documents_tree_at_once();
}

/// The walk of a document's tree gives a serializer the document.
pub fn a_document_is_emitted()
    ensures { (scope : Scope) (title : Option (List ℕ)) (content : Content) →
        calls_of scope 0 (whole_tree title content) ≡ document_calls title content }
{}

/// What is written of a document is written again of the tree that it is read to.
pub fn a_written_document_is_written_back<H>()
    ensures { (handle : ℕ → H) (scripting : Bool) (table : References) → KnowsEscapes table →
        (last : Option (List ℕ)) (s : State) (title : Option (List ℕ)) (content : Content) (final : State) →
        IsAtBeginning s → s.tree.forest ≡ page_alone → s.options.drop_doctype ≡ false →
        HoldsNoNul title content → IsBlocks false content →
        Reading table (meaning handle) (ordinary last) s (document_text title content) final →
        walk_text scripting (ChildrenOnly None) 0 final.tree.forest ≡ document_text title content }
{
    a_document_is_walked();
    a_written_document_has_its_tree::<H>();
}

/// The page that is written of a document has the document's tree and no other, where it is parsed as any page is, with
/// scripting or without it.
pub fn a_written_page_has_its_tree<H>()
    ensures { (handle : ℕ → H) (table : References) (scripting : Bool) → KnowsEscapes table →
        (title : Option (List ℕ)) (content : Content) (forest : Forest) (quirks : Quirks) →
        HoldsNoNul title content → HoldsNoReturn title content → IsBlocks false content →
        IsTreeOfPage handle (beginning table (scripted_parse scripting) page_alone NoQuirks)
        (document_text title content) forest quirks → forest ≡ document_tree title content }
{
    a_page_alone_is_a_forest();
    a_page_is_at_its_beginning();
    a_written_document_has_its_tree::<H>();
    a_written_document_is_a_page_text();
}

/// Two documents of which the same text is written are equal.
pub fn no_text_is_two_documents()
    ensures { (title another : Option (List ℕ)) (content other : Content) → HoldsNoNul title content →
        HoldsNoNul another other → IsBlocks false content → IsBlocks false other →
        document_text title content ≡ document_text another other → (title ≡ another) × (content ≡ other) }
{
    a_documents_tree_at_once();
    a_page_alone_is_a_forest();
    a_page_is_at_its_beginning();
    a_written_document_has_its_tree::<u64>();
    the_basic_table_knows_escapes();
}
