//! Pages as plain text.
ghost use Rattle.std.specs.Prelude.{◌≡◌, ◌≤◌, Err, IfErr, IfOk, IfSome, chars, false, string_bytes, true};
ghost use Rattle.std.specs.Io.KnownBytes.{IsAtEnd};
ghost use Rattle.block_renderer.specs.Seen.{IsTagging};
ghost use Rattle.html_render_tree.specs.PageLaws.{IsTextWithin};
ghost use Rattle.page_config.specs.Errors.{IsAnswer};
ghost use Rattle.page_config.specs.PageAnswers.{Answers, IsEmitted, fail, too_narrow};
ghost use Rattle.page_config.specs.PlainPages.{HasPlainAnswer, HasPlainText, IsPlain};
ghost use Rattle.page_config.specs.Settings.{bare_setting, by_default, max_bytes_of};
ghost use Rattle.text_decorators.specs.Marks.{IsSteady};

use crate::config::Config;
use crate::error::Error;
use html_lexemes::{ByteReader, ReferenceTable};
use std::alloc::Global;
use text_decorators::{PlainDecorator, TextDecorator};
use text_lines::TaggedLine;

/// A line of plain text.
pub type PlainLine = TaggedLine<Vec<()>>;

impl Config<PlainDecorator> {
    /// Plain text: emphasis, strong text, terms and code are marked by characters, and the targets of links stand
    /// after the page. The error is allocation failure.
    pub fn plain(alloc: Global, table: ReferenceTable) -> Result<Config<PlainDecorator>, Error>
        ensures plain { IfOk result (λ c. IsPlain table (bare_setting c)) }
        ensures bytes { IfOk result (λ c. max_bytes_of c ≡ usize.MAX) }
        ensures memory { IfErr result (λ e. e ≡ Error.Memory) }
    {
        Config::with_decorator(alloc, PlainDecorator::new(), table)
            .link_footnotes(true)
            .do_decorate(alloc)
    }

    /// Plain text without these marks and without the targets of links.
    pub fn plain_no_decorate(alloc: Global, table: ReferenceTable) -> Config<PlainDecorator>
        ensures setting { bare_setting result ≡ by_default table tt }
        ensures bytes { max_bytes_of result ≡ usize.MAX }
    {
        Config::with_decorator(alloc, PlainDecorator::new(), table)
    }
}

/// The text of the page that `input` gives, wrapped to `width` columns, as plain text. Refused as
/// `Config::lines_from_read`.
pub fn from_read<R: ByteReader>(
    alloc: Global,
    input: &mut R,
    width: usize,
    table: ReferenceTable,
) -> Result<String, Error>
    ensures text { IfOk result (λ text. IfSome (R.remaining input.old)
        (λ bytes. HasPlainText table width bytes (chars (string_bytes text)))) }
    ensures narrow { result ≡ Err Error.TooNarrow → IfSome (R.remaining input.old)
        (λ bytes. HasPlainAnswer table width bytes too_narrow) }
    ensures fail { result ≡ Err Error.Fail → IfSome (R.remaining input.old)
        (λ bytes. HasPlainAnswer table width bytes fail) }
    ensures within { IfOk result (λ text. 2 ≤ width → IsTextWithin width (chars (string_bytes text))) }
    ensures io { result ≡ Err Error.IoError → R.has_failed input.new ≡ true }
    ensures stays { R.has_failed input.old ≡ true → R.has_failed input.new ≡ true }
    ensures works { IsAnswer result → R.has_failed input.new ≡ false }
    ensures end { IsAnswer result → IsAtEnd (R.remaining input.new) }
{
    Config::plain(alloc, table)?.string_from_read(alloc, input, width)
}

/// The same by another decorator, and as pages are rendered where nothing else is said.
pub fn from_read_with_decorator<R: ByteReader, D: TextDecorator + Drop>(
    alloc: Global,
    input: &mut R,
    width: usize,
    decorator: D,
    table: ReferenceTable,
) -> Result<String, Error>
    ensures text { IfOk result (λ text. IfSome (R.remaining input.old) (λ bytes. IsEmitted D.Annotation.seen D.view
        (by_default table (D.view.sub (D.view.held decorator))) width bytes (chars (string_bytes text)))) }
    ensures narrow { result ≡ Err Error.TooNarrow → IfSome (R.remaining input.old) (λ bytes. Answers D.Annotation.seen
        D.view (by_default table (D.view.sub (D.view.held decorator))) width bytes too_narrow) }
    ensures fail { result ≡ Err Error.Fail → IfSome (R.remaining input.old) (λ bytes. Answers D.Annotation.seen D.view
        (by_default table (D.view.sub (D.view.held decorator))) width bytes fail) }
    ensures within { IfOk result (λ text. (tag : _) → IsTagging D.Annotation.seen D.view tag → IsSteady D.view.text
        → 2 ≤ width → IsTextWithin width (chars (string_bytes text))) }
    ensures io { result ≡ Err Error.IoError → R.has_failed input.new ≡ true }
    ensures stays { R.has_failed input.old ≡ true → R.has_failed input.new ≡ true }
    ensures works { IsAnswer result → R.has_failed input.new ≡ false }
    ensures end { IsAnswer result → IsAtEnd (R.remaining input.new) }
{
    Config::with_decorator(alloc, decorator, table).string_from_read(alloc, input, width)
}
