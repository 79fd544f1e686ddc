//! Laws of trees of documents.
ghost use Rattle.std.specs.Prelude.{◌≡◌, ℕ, ◌<◌};
ghost use Rattle.tree_forest.specs.Forest.{Forest, nodes};
ghost use Rattle.document_laws.specs.Contents.{Content};
ghost use Rattle.document_laws.specs.Parts.{BlocksRebuild, InlinesRebuild};
ghost use Rattle.document_laws.specs.Planted.{planted, standing};
ghost use Rattle.document_laws.specs.Asked.{DocumentsAsk};
ghost use Rattle.document_laws.specs.Rebuilt.{DocumentsRebuild};

/// The rule table over the tokens of a document's tree gives that tree.
pub fn documents_rebuild()
    ensures { DocumentsRebuild }
{}

/// A tree that is planted node by node stands as at once: the outer nodes after the children that a node had, and all
/// nodes after those that there were.
pub fn a_planted_tree_is_at_once()
    ensures { (p : ℕ) (content : Content) (f : Forest) → p < nodes f → planted p content f ≡ standing p content f }
{}

/// Inline contents rebuild below the current node; of the list of active formatting elements some are left.
pub fn inlines_rebuild()
    ensures { InlinesRebuild }
{}

/// Blocks rebuild below the current node; nothing is listed before and after them.
pub fn blocks_rebuild()
    ensures { BlocksRebuild }
{}

/// Along a document tree construction asks the tokenizer to read the text of its title as such, and asks nothing else.
pub fn documents_ask()
    ensures { DocumentsAsk }
{}
