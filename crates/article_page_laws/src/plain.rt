//! Laws of articles without quotes and strong text: each is the contract of a function that does nothing.
ghost use Rattle.std.specs.Prelude.{◌≡◌, ℕ, List, Option, false};
ghost use Rattle.article_definitions.specs.Layouts.{Options, article_lines};
ghost use Rattle.article_page_laws.specs.PlainArticles.{PlainBlocks, wide_blocks};
ghost use Rattle.article_page_laws.specs.PlainContents.{plain_text};
ghost use Rattle.article_page_laws.specs.PlainLayouts.{plain_lines};
ghost use Rattle.article_writing.specs.Contents.{article_text};

/// What is written of an article without quotes and strong text is what the definition that knows neither gives.
pub fn written_text_stays()
    ensures { (title : Option (List ℕ)) (blocks : PlainBlocks) → article_text title (wide_blocks blocks)
        ≡ plain_text title blocks }
{}

/// Its lines, where no links share a footnote and targets stand as they are, are those that the definition which knows
/// neither quotes nor strong text nor these options gives, and it has none just where that gives none.
pub fn lines_stay()
    ensures { (o : Options) (width : ℕ) (blocks : PlainBlocks) → o.shares_footnotes ≡ false
        → o.prints_targets ≡ false → article_lines o width (wide_blocks blocks) ≡ plain_lines o width blocks }
{}
