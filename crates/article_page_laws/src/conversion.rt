//! Laws of the values of articles: each is the contract of a function that does nothing.
ghost use Rattle.std.specs.Prelude.{◌≡◌, ℕ, List, Option, None};
ghost use Rattle.article_page_laws.specs.ArticleValues.{AreRulesOf, page_values};
ghost use Rattle.article_definitions.specs.Layouts.{Options};
ghost use Rattle.article_values.specs.Articles.{Blocks};
ghost use Rattle.article_values.specs.Faults.{first_fault};
ghost use Rattle.render_conversion.specs.Conversion.{document_values};
ghost use Rattle.render_conversion.specs.declared.options.ConversionOptions.{ConversionOptions};
ghost use Rattle.dom_styles.specs.declared.rules.StyleRule.{StyleRule};
ghost use Rattle.article_writing.specs.Contents.{NumbersFit, article_tree};

/// An article's tree is converted to the article's values and no others, whatever is asked of the conversion, where no
/// rule of style stands but those that mark emphasis, strong text, terms and code, or none.
pub fn articles_have_their_values()
    ensures { (conversion : ConversionOptions) (o : Options) (rules : List StyleRule) (title : Option (List ℕ))
        (blocks : Blocks) → AreRulesOf o.decorates rules → first_fault title blocks ≡ None → NumbersFit blocks
        → document_values conversion rules (article_tree title blocks) ≡ page_values o blocks }
{}
