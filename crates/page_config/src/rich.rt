//! Pages as rich text, and as render trees.
ghost use Rattle.std.specs.Prelude.{◌≡◌, ◌≢◌, ◌≤◌, true, false, Err, IfOk, IfSome, map};
ghost use Rattle.std.specs.Io.KnownBytes.{IsAtEnd};
ghost use Rattle.block_renderer.specs.Seen.{tags_seen};
ghost use Rattle.html_render_tree.specs.PageLaws.{AreWithin};
ghost use Rattle.page_config.specs.Errors.{IsAnswer};
ghost use Rattle.page_config.specs.PageAnswers.{ArePageValues, fail, lines, too_narrow};
ghost use Rattle.page_config.specs.RichPages.{HasRichAnswer};
ghost use Rattle.page_config.specs.Settings.{bare_default, bare_setting, by_default, max_bytes_of};
ghost use Rattle.render_values.specs.Values.{none};
ghost use Rattle.text_lines.specs.Tagged.{line_items};
ghost use Rattle.text_decorators.specs.Annotations.{rich_tag};
ghost use Rattle.html_render_tree.specs.WalkLaws.{AreNumbered};

use crate::config::Config;
use crate::error::Error;
use html_lexemes::{ByteReader, ReferenceTable};
use html_render_tree::RenderTree;
use std::alloc::Global;
use text_decorators::{RichAnnotation, RichDecorator, TrivialDecorator};
use text_lines::TaggedLine;

/// A line of rich text.
pub type RichLine = TaggedLine<Vec<RichAnnotation>>;

impl Config<RichDecorator> {
    /// Rich text: no marks, but annotations of links, images, emphasis and the like beside the text.
    pub fn rich(alloc: Global, table: ReferenceTable) -> Config<RichDecorator>
        ensures setting { bare_setting result ≡ by_default table tt }
        ensures bytes { max_bytes_of result ≡ usize.MAX }
    {
        Config::with_decorator(alloc, RichDecorator::new(), table)
    }
}

/// The lines of the page that `input` gives, wrapped to `width` columns, as rich text. Refused as
/// `Config::lines_from_read`.
pub fn from_read_rich<R: ByteReader>(
    alloc: Global,
    input: &mut R,
    width: usize,
    table: ReferenceTable,
) -> Result<Vec<RichLine>, Error>
    ensures lines { IfOk result (λ shown. IfSome (R.remaining input.old) (λ bytes. HasRichAnswer
        (bare_default table) width bytes (lines (map (line_items (tags_seen rich_tag)) shown.items)))) }
    ensures narrow { result ≡ Err Error.TooNarrow → IfSome (R.remaining input.old)
        (λ bytes. HasRichAnswer (bare_default table) width bytes too_narrow) }
    ensures fail { result ≡ Err Error.Fail → IfSome (R.remaining input.old)
        (λ bytes. HasRichAnswer (bare_default table) width bytes fail) }
    ensures within { IfOk result
        (λ shown. 2 ≤ width → AreWithin width (map (line_items (tags_seen rich_tag)) shown.items)) }
    ensures io { result ≡ Err Error.IoError → R.has_failed input.new ≡ true }
    ensures stays { R.has_failed input.old ≡ true → R.has_failed input.new ≡ true }
    ensures works { IsAnswer result → R.has_failed input.new ≡ false }
    ensures end { IsAnswer result → IsAtEnd (R.remaining input.new) }
{
    Config::rich(alloc, table).lines_from_read(alloc, input, width)
}

/// The render tree of the page that `input` gives, as pages are rendered where nothing else is said. Refused as
/// `Config::lines_from_read`, but never as too narrow.
pub fn parse<R: ByteReader>(
    alloc: Global,
    input: &mut R,
    table: ReferenceTable,
) -> Result<RenderTree, Error>
    ensures tree { IfOk result (λ tree. IfSome (R.remaining input.old)
        (λ bytes. ArePageValues (bare_default table) bytes tree)) }
    ensures some { IfOk result (λ tree. tree ≢ none) }
    ensures numbered { IfOk result (λ tree. AreNumbered tree) }
    ensures fail { result ≡ Err Error.Fail → IfSome (R.remaining input.old)
        (λ bytes. ArePageValues (bare_default table) bytes none) }
    ensures kinds { result ≢ Err Error.TooNarrow }
    ensures io { result ≡ Err Error.IoError → R.has_failed input.new ≡ true }
    ensures stays { R.has_failed input.old ≡ true → R.has_failed input.new ≡ true }
    ensures works { IsAnswer result → R.has_failed input.new ≡ false }
    ensures end { IsAnswer result → IsAtEnd (R.remaining input.new) }
{
    let config = Config::with_decorator(alloc, TrivialDecorator::new(), table);
    let (_rendering, tree) = config.tree_from_read(alloc, input)?;
    Ok(tree)
}
