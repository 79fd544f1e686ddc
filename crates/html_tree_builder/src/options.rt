//! How a page is parsed.
ghost use Rattle.std.specs.Prelude.{◌≡◌, IfOk};

use html_tokenizer::TokenizerOpts;
use rules_table::TreeBuilderOpts;
use std::alloc::AllocError;

/// How a page is parsed.
#[derive(Drop)]
pub struct ParseOpts {
    /// How its text is read.
    pub tokenizer: TokenizerOpts,
    /// How its tree is built.
    pub tree_builder: TreeBuilderOpts,
}

impl ParseOpts {
    /// Equal options: one configuration parses many pages. The error is allocation failure alone.
    pub fn try_clone(&self) -> Result<ParseOpts, AllocError>
        ensures { IfOk result (λ copy. copy ≡ self.now) }
    {
        Ok(ParseOpts {
            tokenizer: self.tokenizer.try_clone()?,
            tree_builder: self.tree_builder,
        })
    }
}

impl Default for ParseOpts {
    ghost use Rattle.html_tree_builder.specs.Defaults.{default_parse};

    ghost is_default = { λ opts. opts ≡ default_parse };

    fn default() -> ParseOpts {
        ParseOpts {
            tokenizer: TokenizerOpts::default(),
            tree_builder: TreeBuilderOpts::default(),
        }
    }
}
