//! Pages that readers give.
ghost use Rattle.std.specs.Prelude.{◌≡◌, ◌≢◌, ◌⊎◌, ◌+◌, ◌<◌, ◌≤◌, Err, IfErr, IfOk, IfSome, OnOk, chars, false, length};
ghost use Rattle.std.specs.Prelude.{map, string_bytes, true};
ghost use Rattle.std.specs.Io.KnownBytes.{IsAtEnd};
ghost use Rattle.page_config.specs.Errors.{IsAnswer};
ghost use Rattle.page_config.specs.declared.error.Error.TheVariants as errors;

use crate::config::Config;
use crate::error::Error;
use html_lexemes::ByteReader;
use html_render_dom::RcDom;
use html_render_tree::{RenderConfig, RenderTree};
use page_reading::read_page;
use std::alloc::Global;
use text_decorators::TextDecorator;
use text_lines::TaggedLine;

impl<D: TextDecorator + Drop> Config<D> {
    ghost use Rattle.html_render_tree.specs.Settings.{setting_of};
    ghost use Rattle.page_config.specs.PageAnswers.{Answers, ArePageValues, IsEmitted, fail, lines, lines_text};
    ghost use Rattle.page_config.specs.PageAnswers.{too_narrow};
    ghost use Rattle.page_config.specs.Settings.{max_bytes_of, page_setting};
    ghost use Rattle.page_reading.specs.PageTrees.{IsTreeOfBytes};
    ghost use Rattle.render_values.specs.Values.{none};
    ghost use Rattle.text_lines.specs.Tagged.{line_items};
    ghost use Rattle.block_renderer.specs.Seen.{IsTagging, tags_seen};
    ghost use Rattle.html_render_tree.specs.PageLaws.{AreWithin, IsTextWithin};
    ghost use Rattle.text_decorators.specs.Marks.{IsSteady};
    ghost use Rattle.html_render_tree.specs.WalkLaws.{AreNumbered};

    /// Reads a page to its end, and gives its tree: that of all the bytes that the reader had. It asks for one byte
    /// more than the page may have at most. The error is `IoError` where the reader failed, `TooLong` where more bytes
    /// came than it may have, and else allocation failure.
    pub fn parse_html<R: ByteReader>(&self, alloc: Global, input: &mut R) -> Result<RcDom, Error>
        ensures tree { IfOk result (λ dom. IfSome (R.remaining input.old)
            (λ bytes. IsTreeOfBytes (page_setting D.view self.now).table (page_setting D.view self.now).parsing bytes
            dom.forest dom.quirks)) }
        ensures kinds { IfErr result (λ e. (e ≡ errors.IoError) ⊎ (e ≡ errors.TooLong) ⊎ (e ≡ errors.Memory)) }
        ensures short { OnOk result (IfSome (R.remaining input.old) (λ bytes. length bytes ≤ max_bytes_of self.now)) }
        ensures at_most { R.count input.new ≤ R.count input.old + max_bytes_of self.now + 1 }
        ensures io { result ≡ Err Error.IoError → R.has_failed input.new ≡ true }
        ensures too_long { result ≡ Err Error.TooLong → R.count input.old + max_bytes_of self.now < R.count input.new }
        ensures long { result ≡ Err Error.TooLong → IfSome (R.remaining input.old)
            (λ bytes. max_bytes_of self.now < length bytes) }
        ensures stays { R.has_failed input.old ≡ true → R.has_failed input.new ≡ true }
        ensures works { OnOk result (R.has_failed input.new ≡ false) }
        ensures end { OnOk result (IsAtEnd (R.remaining input.new)) }
    {
        let table = self.table.try_clone()?;
        let parsing = self.parsing.try_clone()?;
        Ok(read_page(alloc, input, table, parsing, self.max_bytes)?)
    }

    // Reads a page to its end, and gives its render tree, with what it is rendered by.
    pub(crate) fn tree_from_read<R: ByteReader>(
        self,
        alloc: Global,
        input: &mut R,
    ) -> Result<(RenderConfig<D>, RenderTree), Error>
        ensures rendering { IfOk result (λ read. setting_of D.view read.0 ≡ (page_setting D.view self).rendering) }
        ensures tree { IfOk result (λ read. IfSome (R.remaining input.old)
            (λ bytes. ArePageValues (page_setting D.view self) bytes read.1)) }
        ensures some { IfOk result (λ read. read.1 ≢ none) }
        ensures numbered { IfOk result (λ read. AreNumbered read.1) }
        ensures fail { result ≡ Err errors.Fail → IfSome (R.remaining input.old)
            (λ bytes. ArePageValues (page_setting D.view self) bytes none) }
        ensures kinds { result ≢ Err errors.TooNarrow }
        ensures short { IsAnswer result → IfSome (R.remaining input.old) (λ bytes. length bytes ≤ max_bytes_of self) }
        ensures at_most { R.count input.new ≤ R.count input.old + max_bytes_of self + 1 }
        ensures io { result ≡ Err Error.IoError → R.has_failed input.new ≡ true }
        ensures too_long { result ≡ Err Error.TooLong → R.count input.old + max_bytes_of self < R.count input.new }
        ensures long { result ≡ Err Error.TooLong → IfSome (R.remaining input.old)
            (λ bytes. max_bytes_of self < length bytes) }
        ensures stays { R.has_failed input.old ≡ true → R.has_failed input.new ≡ true }
        ensures works { IsAnswer result → R.has_failed input.new ≡ false }
        ensures end { IsAnswer result → IsAtEnd (R.remaining input.new) }
    {
        let Config {
            rendering,
            table,
            parsing,
            max_bytes,
            ..
        } = self;
        let dom = read_page(alloc, input, table, parsing, max_bytes)?;
        let tree = rendering.dom_to_render_tree(alloc, &dom)?;
        Ok((rendering, tree))
    }

    /// The lines of the page that `input` gives, wrapped to `width` columns: those of all the bytes that it has. It is
    /// refused as `TooLong` where more bytes came than it may have; as `TooNarrow` where the width is 0, or too narrow
    /// for a part of the page or a character; as `Fail` where the page converts to nothing; as `IoError` where the
    /// reader failed; else since allocation fails.
    pub fn lines_from_read<R: ByteReader>(
        self,
        alloc: Global,
        input: &mut R,
        width: usize,
    ) -> Result<Vec<TaggedLine<Vec<D::Annotation>>>, Error>
        ensures lines { IfOk result (λ shown. IfSome (R.remaining input.old) (λ bytes. Answers D.Annotation.seen D.view
            (page_setting D.view self) width bytes (lines (map (line_items (tags_seen D.Annotation.seen))
            shown.items)))) }
        ensures narrow { result ≡ Err Error.TooNarrow → IfSome (R.remaining input.old)
            (λ bytes. Answers D.Annotation.seen D.view (page_setting D.view self) width bytes too_narrow) }
        ensures fail { result ≡ Err Error.Fail → IfSome (R.remaining input.old) (λ bytes. Answers D.Annotation.seen
            D.view (page_setting D.view self) width bytes fail) }
        // No line passes the width, where no part may and prefixes are steady; where parts may, no width is too narrow.
        ensures within { IfOk result (λ shown. (tag : _) → IsTagging D.Annotation.seen D.view tag → IsSteady
            D.view.text → (page_setting D.view self).rendering.options.allow_width_overflow ≡ false
            → (page_setting D.view self).rendering.options.wrap_links ≡ true → 2 ≤ width → AreWithin width
            (map (line_items (tags_seen D.Annotation.seen)) shown.items)) }
        ensures roomy { (tag : _) → IsTagging D.Annotation.seen D.view tag
            → (page_setting D.view self).rendering.options.allow_width_overflow ≡ true → 0 < width → result ≢ Err
            Error.TooNarrow }
        ensures short { IsAnswer result → IfSome (R.remaining input.old) (λ bytes. length bytes ≤ max_bytes_of self) }
        ensures at_most { R.count input.new ≤ R.count input.old + max_bytes_of self + 1 }
        ensures io { result ≡ Err Error.IoError → R.has_failed input.new ≡ true }
        ensures too_long { result ≡ Err Error.TooLong → R.count input.old + max_bytes_of self < R.count input.new }
        ensures long { result ≡ Err Error.TooLong → IfSome (R.remaining input.old)
            (λ bytes. max_bytes_of self < length bytes) }
        ensures stays { R.has_failed input.old ≡ true → R.has_failed input.new ≡ true }
        ensures works { IsAnswer result → R.has_failed input.new ≡ false }
        ensures end { IsAnswer result → IsAtEnd (R.remaining input.new) }
    {
        let (rendering, tree) = self.tree_from_read(alloc, input)?;
        Ok(rendering.render_to_lines(alloc, tree, width)?)
    }

    /// Lines with the text of those lines, without annotations but for those of lines after the page, which takes fewer
    /// requests for memory. Refused as `lines_from_read`.
    pub fn text_lines_from_read<R: ByteReader>(
        self,
        alloc: Global,
        input: &mut R,
        width: usize,
    ) -> Result<Vec<TaggedLine<Vec<D::Annotation>>>, Error>
        ensures text { IfOk result (λ shown. IfSome (R.remaining input.old) (λ bytes. IsEmitted D.Annotation.seen D.view
            (page_setting D.view self) width bytes (lines_text (map (line_items (tags_seen D.Annotation.seen))
            shown.items)))) }
        ensures narrow { result ≡ Err Error.TooNarrow → IfSome (R.remaining input.old)
            (λ bytes. Answers D.Annotation.seen D.view (page_setting D.view self) width bytes too_narrow) }
        ensures fail { result ≡ Err Error.Fail → IfSome (R.remaining input.old) (λ bytes. Answers D.Annotation.seen
            D.view (page_setting D.view self) width bytes fail) }
        ensures within { IfOk result (λ shown. (tag : _) → IsTagging D.Annotation.seen D.view tag → IsSteady
            D.view.text → (page_setting D.view self).rendering.options.allow_width_overflow ≡ false
            → (page_setting D.view self).rendering.options.wrap_links ≡ true → 2 ≤ width → IsTextWithin width
            (lines_text (map (line_items (tags_seen D.Annotation.seen)) shown.items))) }
        ensures roomy { (tag : _) → IsTagging D.Annotation.seen D.view tag
            → (page_setting D.view self).rendering.options.allow_width_overflow ≡ true → 0 < width → result ≢ Err
            Error.TooNarrow }
        ensures short { IsAnswer result → IfSome (R.remaining input.old) (λ bytes. length bytes ≤ max_bytes_of self) }
        ensures at_most { R.count input.new ≤ R.count input.old + max_bytes_of self + 1 }
        ensures io { result ≡ Err Error.IoError → R.has_failed input.new ≡ true }
        ensures too_long { result ≡ Err Error.TooLong → R.count input.old + max_bytes_of self < R.count input.new }
        ensures long { result ≡ Err Error.TooLong → IfSome (R.remaining input.old)
            (λ bytes. max_bytes_of self < length bytes) }
        ensures stays { R.has_failed input.old ≡ true → R.has_failed input.new ≡ true }
        ensures works { IsAnswer result → R.has_failed input.new ≡ false }
        ensures end { IsAnswer result → IsAtEnd (R.remaining input.new) }
    {
        let (rendering, tree) = self.tree_from_read(alloc, input)?;
        Ok(rendering.render_to_text_lines(alloc, tree, width)?)
    }

    /// The text of those lines: the characters of each, and a newline. Refused as `lines_from_read`.
    pub fn string_from_read<R: ByteReader>(
        self,
        alloc: Global,
        input: &mut R,
        width: usize,
    ) -> Result<String, Error>
        ensures text { IfOk result (λ text. IfSome (R.remaining input.old) (λ bytes. IsEmitted D.Annotation.seen D.view
            (page_setting D.view self) width bytes (chars (string_bytes text)))) }
        ensures narrow { result ≡ Err Error.TooNarrow → IfSome (R.remaining input.old)
            (λ bytes. Answers D.Annotation.seen D.view (page_setting D.view self) width bytes too_narrow) }
        ensures fail { result ≡ Err Error.Fail → IfSome (R.remaining input.old) (λ bytes. Answers D.Annotation.seen
            D.view (page_setting D.view self) width bytes fail) }
        ensures within { IfOk result (λ text. (tag : _) → IsTagging D.Annotation.seen D.view tag → IsSteady D.view.text
            → (page_setting D.view self).rendering.options.allow_width_overflow ≡ false
            → (page_setting D.view self).rendering.options.wrap_links ≡ true → 2 ≤ width → IsTextWithin width
            (chars (string_bytes text))) }
        ensures roomy { (tag : _) → IsTagging D.Annotation.seen D.view tag
            → (page_setting D.view self).rendering.options.allow_width_overflow ≡ true → 0 < width → result ≢ Err
            Error.TooNarrow }
        ensures short { IsAnswer result → IfSome (R.remaining input.old) (λ bytes. length bytes ≤ max_bytes_of self) }
        ensures at_most { R.count input.new ≤ R.count input.old + max_bytes_of self + 1 }
        ensures io { result ≡ Err Error.IoError → R.has_failed input.new ≡ true }
        ensures too_long { result ≡ Err Error.TooLong → R.count input.old + max_bytes_of self < R.count input.new }
        ensures long { result ≡ Err Error.TooLong → IfSome (R.remaining input.old)
            (λ bytes. max_bytes_of self < length bytes) }
        ensures stays { R.has_failed input.old ≡ true → R.has_failed input.new ≡ true }
        ensures works { IsAnswer result → R.has_failed input.new ≡ false }
        ensures end { IsAnswer result → IsAtEnd (R.remaining input.new) }
    {
        let (rendering, tree) = self.tree_from_read(alloc, input)?;
        Ok(rendering.render_to_string(alloc, tree, width)?)
    }
}
