//! The law of articles and their pages.
ghost use Rattle.std.specs.Prelude.{◌≡◌, ℕ, Bool, List, Option};
ghost use Rattle.article_answers.specs.ArticleAnswers.{IsForArticles, IsWritten, article_answer};
ghost use Rattle.article_values.specs.Articles.{Blocks};
ghost use Rattle.document_laws.specs.Escaped.{KnowsEscapes};
ghost use Rattle.lex_base.specs.References.{References};
ghost use Rattle.page_config.specs.PageAnswers.{HasAnswer, PageAnswer};
ghost use Rattle.page_config.specs.PlainPages.{IsPlain};
ghost use Rattle.page_config.specs.Settings.{PageSetting, scripted};
ghost use Rattle.render_conversion.specs.declared.options.ConversionOptions.{ConversionOptions};
ghost use Rattle.text_block_renderer.specs.PlainText.{plain_closes, plain_marking};

use article_page_laws::{articles_are_laid, articles_have_their_values};
use article_writing::bytes_of_an_article_have_its_tree;

/// What is written of an article, read however it is cut, built into a tree, converted and rendered as plain text, has
/// the lines of the article at each width, or is too narrow just where the article has none: no text of it is markup,
/// and none reaches another paragraph.
pub fn an_article_is_laid_out_as_itself()
    ensures { (c : PageSetting (Unit {0})) (width : ℕ) (title : Option (List ℕ)) (blocks : Blocks)
        (bytes : List ℕ) (answer : PageAnswer (Unit {0})) → IsForArticles c → IsWritten title blocks bytes
        → HasAnswer plain_marking (λ _. tt) plain_closes c width bytes answer
        → answer ≡ article_answer c width blocks }
{
    bytes_of_an_article_have_its_tree();
    articles_have_their_values();
    articles_are_laid();
}

/// As plain text is rendered where nothing else is said, articles and their pages are laid out alike, by a table that
/// knows the names of escaped text (`plain`). Where they are, they are so whatever is asked of the conversion, and parsed
/// with scripting or without it (`asked`): so after `complete` and `skip_hidden`.
pub fn plain_configurations_are_for_articles()
    ensures plain { (table : References) (c : PageSetting (Unit {0})) → KnowsEscapes table → IsPlain table c
        → IsForArticles c }
    ensures asked { (c : PageSetting (Unit {0})) (scripting : Bool) (conversion : ConversionOptions)
        → IsForArticles c
        → IsForArticles (record c { parsing = scripted scripting c.parsing; conversion = conversion }) }
{}
