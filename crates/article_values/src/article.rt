//! Articles.
ghost use Rattle.std.specs.Prelude.{◌≡◌, chars, IfOk, None, Some, option_map};
ghost use Rattle.article_values.specs.Faults.{fault_of_title};
ghost use Rattle.article_values.specs.Outcomes.{fault_met, fault_of_article};
ghost use Rattle.article_values.specs.Views.{ArticleParts, parts_of, title_view};

use crate::block_checks::check_blocks;
use crate::error::ArticleError;
use crate::inline_checks::has_forbidden;
use crate::values::Block;
use std::marker::Model;

/// A title, where there is one, and blocks, without a fault of [`ArticleError`].
#[derive(Drop)]
pub struct Article {
    title: Option<String>,
    blocks: Vec<Block>,
}

impl Model for Article {
    ghost use Rattle.std.specs.Prelude.{◌≡◌, None};
    ghost use Rattle.std.specs.Coded.{codes};
    ghost use Rattle.article_values.specs.Outcomes.{fault_of_article};
    ghost use Rattle.article_values.specs.Views.{ArticleParts, parts_of};
    ghost use Rattle.article_values.specs.contracts.values.Block as block_codes;

    ghost Value = { ArticleParts };

    ghost coded = { Prim.hlevel (codes, block_codes.the_row.coded) };

    ghost view = { λ a. parts_of a.title a.blocks.items };

    ghost invariant = { λ a. fault_of_article (parts_of a.title a.blocks.items) ≡ None };
}

fn check_title(title: &Option<String>) -> Result<(), ArticleError>
    ensures { fault_met result ≡ fault_of_title (title_view title.now) }
{
    if let Some(title) = title {
        if has_forbidden(title.as_str()) {
            return Err(ArticleError::ForbiddenCharacter);
        }
    }
    Ok(())
}

impl Article {
    /// The article of a title and blocks. The error is their first fault, so what has none is an article. It takes no
    /// memory.
    pub fn new(title: Option<String>, blocks: Vec<Block>) -> Result<Article, ArticleError>
        ensures fault { fault_met result ≡ fault_of_article (parts_of title blocks.items) }
        ensures never_memory { fault_met result ≡ Some ArticleError.Memory → ⊥ }
        ensures kept { IfOk result (λ article. article ≡ parts_of title blocks.items) }
    {
        check_title(&title)?;
        check_blocks(blocks.as_slice(), 1)?;
        Ok(Article { title, blocks })
    }

    /// What stands in the title, where there is one. It may be empty.
    pub fn title(&self) -> Option<&str>
        ensures { option_map (λ title. chars title.now) result ≡ self.now.title }
    {
        match &self.title {
            Some(title) => Some(title.as_str()),
            None => None,
        }
    }

    /// What stands in the body, in order.
    pub fn blocks(&self) -> &[Block]
        ensures blocks { result.now ≡ self.now.blocks }
        ensures faultless { fault_of_article self.now ≡ None }
    {
        self.blocks.as_slice()
    }
}
