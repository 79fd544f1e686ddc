//! A tree builder.
ghost use Rattle.std.specs.Prelude.{◌≡◌, is_some};
ghost use Rattle.tree_forest.specs.Orders.{IsForest};
ghost use Rattle.html_tree_builder.specs.Begun.{begun};
ghost use Rattle.rules_actions.specs.Parsed.{state_of};
ghost use Rattle.rules_table.specs.Welcome.{IsReady};

use html_lexemes::Text;
use html_tree_state::{Construction, Held};
use rules_actions::{Kept, Parse};
use rules_table::{TreeBuilderOpts, actions_keep_what_is_ready};
use std::alloc::Global;
use tree_forest::TreeSink;
use tree_predicates::InsertionMode;

/// Builds the tree of a page in a sink of trees, from the tokens that it is given (WHATWG HTML, 13.2.6).
pub struct TreeBuilder<S: TreeSink> {
    /// The page: its tree, and what is kept beside it. Nobody else is to change it before the end.
    pub page: Parse<S>,
}

impl<S: TreeSink> TreeBuilder<S> {
    /// Before the first token of a page. The sink's nodes are a forest, whose document has no children yet.
    pub fn new(alloc: Global, sink: S, opts: TreeBuilderOpts) -> TreeBuilder<S>
        requires { IsForest (S.view.forest sink) }
        ensures begun { state_of S.view result.page ≡ begun opts (S.view.forest sink) (S.view.quirks sink) }
        ensures ready { IsReady (state_of S.view result.page) }
    {
        actions_keep_what_is_ready();
        let quirks = opts.quirks_mode;
        let kept = Kept {
            options: opts,
            mode: InsertionMode::Initial,
            original: InsertionMode::Initial,
            template_modes: Vec::new(alloc),
            head: None,
            form: None,
            context: None,
            frameset_ok: true,
            skip_lf: false,
            pending: Text::from(String::new(alloc)),
            quirks,
            is_over: false,
            has_failed: false,
        };
        let tree = Construction {
            held: Held::new(alloc),
            sink,
        };
        TreeBuilder {
            page: Parse { kept, tree },
        }
    }

    /// Whether a call was refused. Then every later one is.
    pub fn has_failed(&self) -> bool
        ensures { result ≡ self.now.page.kept.has_failed }
    {
        self.page.kept.has_failed
    }

    /// Whether a fragment is parsed (WHATWG HTML, 13.4).
    pub fn is_fragment(&self) -> bool
        ensures { result ≡ is_some self.now.page.kept.context }
    {
        self.page.kept.context.is_some()
    }
}
