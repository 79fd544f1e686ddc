//! The lines of an article, by what pages are read and rendered by.
ghost use Rattle.std.specs.Prelude.{◌≡◌, ◌≢◌, ◌⊎◌, ◌≤◌, Err, IfErr, IfOk, List, None, Option, Some, false, filter};
ghost use Rattle.std.specs.Prelude.{flat_map, length, map, ℕ};
ghost use Rattle.std.specs.Option.{option_map};
ghost use Rattle.article_answers.specs.ArticleAnswers.{IsAnswerToPage, options_for, shown_of};
ghost use Rattle.article_layout.specs.Seen.{others_emitted, emitted, emitted_of};
ghost use Rattle.article_layout.specs.Settings.{options_of};
ghost use Rattle.article_definitions.specs.Exchanges.{Differ, others};
ghost use Rattle.article_definitions.specs.Layouts.{Line as SeenLine, Stretch, Tag, article_lines, stretch_lines};
ghost use Rattle.article_definitions.specs.Layouts.{wrap_at};
ghost use Rattle.article_definitions.specs.Paragraphs.{AreParagraphs};
ghost use Rattle.article_definitions.specs.Showing.{is_visible, visible_of};
ghost use Rattle.article_values.specs.Articles.{Blocks as SeenBlocks};
ghost use Rattle.text_normal.specs.Layout.{IsLayout, Mark, marks};
ghost use Rattle.text_normal.specs.Letters.{codes_of, has_marker, letters_of};
ghost use Rattle.text_normal.specs.Riders.{has_wide_text};
ghost use Rattle.page_config.specs.PageAnswers.{lines, too_narrow};
ghost use Rattle.page_config.specs.Settings.{bare_setting};
ghost use Rattle.page_config.specs.declared.error.Error.TheVariants as errors;

use crate::laws::an_article_is_laid_out_as_itself;
use article_layout::{ArticleLine, LineOptions, lay_article};
use article_values::Article;
use article_writing::first_numbers_fit;
use page_config::{Config, Error};
use std::alloc::Global;
use text_decorators::PlainDecorator;
use text_pieces::BlockError;

/// Articles that are laid out. It stands for a method of `Article`, whose crate knows nothing of pages.
pub trait LayArticle {
    /// The characters of the title, where there is one.
    ghost title: { Self → Option (List ℕ) };

    /// The blocks of the body.
    ghost blocks: { Self → SeenBlocks };

    /// The lines of the article at a width, in columns, each with its paragraph's number: just those of the page that
    /// `write_html` writes, as `config` reads and renders it (`page`), where pages are parsed as by default, by a table
    /// that knows the five names of escaped text, without rules of style and without parts that may pass the width. It
    /// knows nothing of pages, so what `config` says of these changes no line here.
    ///
    /// It is `TooNarrow` just where the page is: where the width is 0, where a heading or an item has fewer columns
    /// after its prefix than it asks for, and where a character is wider than lines; else where allocation fails.
    /// Paragraphs alone are never refused where a line of text may have two columns (`paragraphs`).
    ///
    /// What is said between two breaks shows each visible character once, in order (`shown`), on no more lines than any
    /// legal layout of it (`fewest`), in as many columns as are left for it after the prefixes of the blocks around
    /// it. Where another article has one text in place of another, and each of the two has a visible character, all
    /// lines but those of that paragraph are the same, those of targets too (`exchange`).
    fn layout(
        &self,
        alloc: Global,
        config: &Config<PlainDecorator>,
        width: usize,
    ) -> Result<Vec<ArticleLine>, Error>
        ensures lines { IfOk result (λ shown. option_map (map emitted)
            (article_lines (options_for (bare_setting config.now)) width (blocks self.now))
            ≡ Some (map emitted_of shown.items)) }
        ensures narrow { result ≡ Err errors.TooNarrow
            → article_lines (options_for (bare_setting config.now)) width (blocks self.now) ≡ None }
        ensures page { IfOk result (λ shown. IsAnswerToPage (bare_setting config.now) width (title self.now)
            (blocks self.now) (lines (shown_of shown.items))) }
        ensures narrow_page { result ≡ Err errors.TooNarrow → IsAnswerToPage (bare_setting config.now) width
            (title self.now) (blocks self.now) too_narrow }
        ensures shown { (columns : ℕ) (s : Stretch)
            → flat_map (visible_of {S = Tag}) (stretch_lines (options_for (bare_setting config.now)) columns s)
            ≡ filter is_visible (codes_of s.source) }
        ensures fewest { (columns : ℕ) (s : Stretch) (legal : List (List (Mark Tag))) → has_marker s.source ≡ false
            → has_wide_text (wrap_at (options_for (bare_setting config.now)) columns) s.source ≡ false
            → IsLayout (wrap_at (options_for (bare_setting config.now)) columns) false
            (marks (wrap_at (options_for (bare_setting config.now)) columns) (letters_of s.source)) legal
            → length (stretch_lines (options_for (bare_setting config.now)) columns s) ≤ length legal }
        ensures exchange { (n : ℕ) (changed : SeenBlocks) (ms : List SeenLine) → Differ n 0 (blocks self.now) changed
            → article_lines (options_for (bare_setting config.now)) width changed ≡ Some ms
            → IfOk result (λ shown. others_emitted n (map emitted_of shown.items) ≡ map emitted (others n ms)) }
        ensures paragraphs { 2 ≤ wrap_at (options_for (bare_setting config.now)) width
            → AreParagraphs (blocks self.now) → result ≢ Err errors.TooNarrow }
        ensures kinds { IfErr result (λ e. (e ≡ errors.TooNarrow) ⊎ (e ≡ errors.Memory)) };
}

impl LayArticle for Article {
    ghost use Rattle.article_values.specs.Views.{blocks_view};

    ghost title = { λ a. a.title };

    ghost blocks = { λ a. blocks_view a.blocks };

    fn layout(
        &self,
        alloc: Global,
        config: &Config<PlainDecorator>,
        width: usize,
    ) -> Result<Vec<ArticleLine>, Error> {
        an_article_is_laid_out_as_itself();
        first_numbers_fit();
        let options = line_options(config);
        match lay_article(alloc, self.blocks(), options, width) {
            Ok(lines) => Ok(lines),
            Err(error) => Err(refusal(error)),
        }
    }
}

/// What matters to an article of how pages are read and rendered.
fn line_options(config: &Config<PlainDecorator>) -> LineOptions
    ensures { options_of result ≡ options_for (bare_setting config.now) }
{
    let options = config.options();
    LineOptions {
        wrap_width: options.wrap_width,
        pads: options.pad_block_width,
        decorates: config.decorates(),
        footnotes: options.include_link_footnotes,
        shares_footnotes: options.shared_footnotes,
        prints_targets: options.printable_targets,
        wraps_links: options.wrap_links,
        min_wrap_width: config.narrowest_wrap(),
    }
}

// after an allocation failure nothing is laid out
fn refusal(error: BlockError) -> Error
    ensures narrow { result ≡ errors.TooNarrow → error ≡ BlockError.TooNarrow }
    ensures kinds { (result ≡ errors.TooNarrow) ⊎ (result ≡ errors.Memory) }
{
    match error {
        BlockError::TooNarrow => Error::TooNarrow,
        BlockError::Memory | BlockError::Failed => Error::Memory,
    }
}
