//! How a tree is built.
ghost use Rattle.std.specs.Prelude.{◌≡◌};

use tree_forest::QuirksMode;

/// How a tree is built from the tokens of a page.
#[derive(Clone, Copy)]
pub struct TreeBuilderOpts {
    /// Whether errors are emitted with what stood there.
    pub exact_errors: bool,
    /// Whether scripts would run, so that the contents of `noscript` are text (WHATWG HTML, 13.2.4.5, scripting flag).
    pub scripting_enabled: bool,
    /// Whether the page is the `srcdoc` of an `iframe`: without a doctype it is then not in quirks mode.
    pub iframe_srcdoc: bool,
    /// Whether a doctype is left out of the tree.
    pub drop_doctype: bool,
    /// The quirks mode by which tags are taken until a doctype, or the want of one, sets it.
    pub quirks_mode: QuirksMode,
}

impl Default for TreeBuilderOpts {
    ghost use Rattle.rules_table.specs.Defaults.{default_options};

    ghost is_default = { λ opts. opts ≡ default_options };

    fn default() -> TreeBuilderOpts {
        TreeBuilderOpts {
            exact_errors: false,
            scripting_enabled: true,
            iframe_srcdoc: false,
            drop_doctype: false,
            quirks_mode: QuirksMode::NoQuirks,
        }
    }
}
