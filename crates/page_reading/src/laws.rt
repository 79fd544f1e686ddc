//! Laws of the trees of pages that come in bytes.
ghost use Rattle.std.specs.Prelude.{◌≡◌, ℕ, List};
ghost use Rattle.tree_forest.specs.Forest.{Forest};
ghost use Rattle.tree_forest.specs.declared.sink.QuirksMode.{QuirksMode as Quirks};
ghost use Rattle.lex_base.specs.References.{References};
ghost use Rattle.html_tree_builder.specs.Grown.{Beginning, IsTreeOfPage};
ghost use Rattle.html_tree_builder.specs.declared.options.ParseOpts.{ParseOpts as Options};
ghost use Rattle.page_reading.specs.PageTrees.{IsTreeOfBytes};

use html_render_dom::RcDom;
use html_tree_builder::{TreeBuilder, a_page_has_one_tree};
use token_grammar::laws::some_reading;
use tree_forest::TreeSink;

/// Bytes have one tree: equal bytes, read by equal tables and options, in whatever pieces, have equal forests and equal
/// quirks modes.
pub fn a_page_has_one_tree_of_bytes()
    ensures forest { (table : References) (options : Options) (bytes : List ℕ) (one other : Forest)
        (mode second : Quirks) → IsTreeOfBytes table options bytes one mode →
        IsTreeOfBytes table options bytes other second → one ≡ other }
    ensures quirks { (table : References) (options : Options) (bytes : List ℕ) (one other : Forest)
        (mode second : Quirks) → IsTreeOfBytes table options bytes one mode →
        IsTreeOfBytes table options bytes other second → mode ≡ second }
{
    a_page_has_one_tree::<RcDom>();
}

/// Bytes have a tree, whatever they are.
pub fn a_page_has_a_tree_of_bytes()
    ensures { (table : References) (options : Options) (bytes : List ℕ) →
        (forest : Forest) × (mode : Quirks) × IsTreeOfBytes table options bytes forest mode }
{
    a_page_has_a_tree::<RcDom>();
}

// a page has a tree, whatever its text
fn a_page_has_a_tree<S: TreeSink>()
    ensures { (from : Beginning) (text : List ℕ) → (forest : Forest) × (mode : Quirks) × IsTreeOfPage S.view.handle
        from text forest mode }
{
    some_reading::<TreeBuilder<S>>();
}
