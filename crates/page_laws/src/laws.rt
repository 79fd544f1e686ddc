//! Laws of the trees of pages.
ghost use Rattle.tree_forest.specs.Forest.{Forest};
ghost use Rattle.tree_forest.specs.Orders.{IsForest};
ghost use Rattle.tree_forest.specs.declared.sink.QuirksMode.{QuirksMode as Quirks};
ghost use Rattle.page_tree_laws.specs.KeptText.{IsAtBeginning};
ghost use Rattle.page_laws.specs.Trees.{HasSkeletonOfBytes, HasSkeletonOfTree, KeepsTextOfBytes, KeepsTextOfTree};
ghost use Rattle.html_tree_builder.specs.Begun.{begun};
ghost use Rattle.rules_table.specs.declared.options.TreeBuilderOpts.{TreeBuilderOpts as Options};

use html_render_dom::RcDom;
use page_tree_laws::{a_page_has_its_skeleton, the_text_of_a_page_is_kept};
use tree_forest::TreeSink;

/// A tree builder that has just begun on a forest is where laws of whole pages ask it to be, whatever its options are.
pub fn a_page_is_at_its_beginning()
    ensures { (options : Options) (forest : Forest) (quirks : Quirks) → IsForest forest →
        IsAtBeginning (begun options forest quirks) }
{}

/// Where a page emits no start tag of a template or a frameset, each character that it emits as text, but white space
/// and U+FFFD, stands in its tree as often as it was emitted.
pub fn a_tree_keeps_the_text_of_its_page<S: TreeSink>()
    ensures { KeepsTextOfTree S.view.handle }
{
    the_text_of_a_page_is_kept::<S::Handle>();
}

/// Where a page begins on a document without elements, the document's one child element is `html`, whose first two are
/// `head`, and then `body` or, where the page emitted a start tag `frameset`, `frameset` (WHATWG HTML, 4.1.1).
pub fn a_tree_has_its_skeleton<S: TreeSink>()
    ensures { HasSkeletonOfTree S.view.handle }
{
    a_page_has_its_skeleton::<S::Handle>();
}

/// Where no token of a page that comes in bytes is a start tag of a template or a frameset, each character of its
/// character tokens, but white space and U+FFFD, stands in its tree as often as in these tokens.
pub fn the_text_of_bytes_is_kept()
    ensures { KeepsTextOfBytes }
{
    a_tree_keeps_the_text_of_its_page::<RcDom>();
}

/// The document of a page that comes in bytes has one child element, `html`, whose first two are `head`, and then
/// `body` or, where a start tag `frameset` is among the tokens, `frameset` (WHATWG HTML, 4.1.1).
pub fn bytes_have_the_skeleton_of_a_page()
    ensures { HasSkeletonOfBytes }
{
    a_tree_has_its_skeleton::<RcDom>();
}
