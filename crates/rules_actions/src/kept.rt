//! What is kept beside the tree.

use html_lexemes::Text;
use rules_table::TreeBuilderOpts;
use tree_forest::QuirksMode;
use tree_predicates::InsertionMode;

/// What is kept while a page's tree is built, beside the tree (WHATWG HTML, 13.2.4).
#[derive(Drop)]
pub struct Kept<H> {
    /// How the tree is built.
    pub options: TreeBuilderOpts,
    /// The insertion mode, by whose rules the next token is taken.
    pub mode: InsertionMode,
    /// The mode that the modes of text go back to.
    pub original: InsertionMode,
    /// The modes of the open templates, the last one at the end.
    pub template_modes: Vec<InsertionMode>,
    /// The head, once it is known.
    pub head: Option<H>,
    /// The form that was opened last, until it is closed.
    pub form: Option<H>,
    /// A fragment's context.
    pub context: Option<H>,
    /// Whether a frameset may still take the body's place.
    pub frameset_ok: bool,
    /// Whether a line feed that comes next is left out.
    pub skip_lf: bool,
    /// The pending characters of a table.
    pub pending: Text,
    /// The quirks mode by which tags are taken.
    pub quirks: QuirksMode,
    /// Whether nothing more is taken: the end was emitted, or a call was refused.
    pub is_over: bool,
    /// Whether a call was refused.
    pub has_failed: bool,
}
