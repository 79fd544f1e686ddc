//! A reader of a page.
ghost use Rattle.std.specs.Prelude.{◌≡◌, ◌+◌, ◌<◌, ◌≤◌, ◌++◌, ◌⊎◌, [], Err, IfErr, IfOk, List, OnOk, false, is_err};
ghost use Rattle.std.specs.Prelude.{length, true, ℕ};
ghost use Rattle.page_reading.specs.PageTrees.{IsTreeOfBytes};
ghost use Rattle.tree_forest.specs.Forest.{Forest};
ghost use Rattle.tree_forest.specs.declared.sink.QuirksMode.{QuirksMode as Quirks};
ghost use Rattle.page_reading.specs.declared.fault.PageFault.TheVariants.{Failed, Memory, TooLong};

use crate::fault::PageFault;
use crate::feeding::{end, feed};
use html_lexemes::ReferenceTable;
use html_render_dom::RcDom;
use html_tree_builder::{ParseOpts, Parser, parse_document};
use page_decoding::Utf8LossyDecoder;
use std::alloc::Global;
use std::marker::Model;
use tree_forest::a_page_alone_is_a_forest;

/// Reads a page that comes in bytes, however cut, into its tree: the bytes as UTF-8 with each ill-formed part as U+FFFD
/// (Unicode Standard, 3.9), and the text as HTML (WHATWG HTML, 13.2). Contracts see the trees that may come of it, how
/// many bytes may still come, and whether a call was refused. Then every later one is, as `Failed`.
pub struct PageReader {
    decoder: Utf8LossyDecoder,
    parser: Parser<RcDom>,
    // how many bytes may still come
    left: usize,
    // a call was refused
    failed: bool,
    alloc: Global,
}

impl Model for PageReader {
    ghost use Rattle.std.specs.Coded.{codes};
    ghost use Rattle.html_render_dom.specs.contracts.dom.RcDom as doms;
    ghost use Rattle.html_render_dom.specs.contracts.node.Handle as handles;
    ghost use Rattle.html_tree_builder.specs.contracts.parser.Parser as parsers;
    ghost use Rattle.page_reading.specs.Readers.{IsWorking, Paging, paging};

    ghost Value = { Paging };

    ghost coded = { Prim.hlevel (codes, (parsers.the_row doms.the_row handles.the_row doms.the_row).coded) };

    ghost view = { λ p. paging p.decoder p.parser p.left p.failed };

    ghost invariant = { λ p. IsWorking (paging p.decoder p.parser p.left p.failed) };
}

impl Drop for PageReader {
    fn drop(self) {
        let PageReader {
            decoder: _,
            parser: _,
            left: _,
            failed: _,
            alloc: _,
        } = self;
    }
}

impl PageReader {
    ghost use Rattle.page_reading.specs.Readers.{Comes};

    /// A reader of a page of which nothing has come, and at most `max_bytes` bytes may. The error is allocation
    /// failure.
    pub fn new(
        alloc: Global,
        table: ReferenceTable,
        options: ParseOpts,
        max_bytes: usize,
    ) -> Result<PageReader, PageFault>
        ensures begins { IfOk result (λ page. (bytes : List ℕ) (forest : Forest) (quirks : Quirks) →
            Comes page bytes forest quirks → IsTreeOfBytes table options bytes forest quirks) }
        ensures works { IfOk result (λ page. page.has_failed ≡ false) }
        ensures left { IfOk result (λ page. page.left ≡ max_bytes) }
        ensures memory { IfErr result (λ e. e ≡ Memory) }
    {
        a_page_alone_is_a_forest();
        let sink = RcDom::new(alloc)?;
        Ok(PageReader {
            decoder: Utf8LossyDecoder::new(),
            parser: parse_document(alloc, sink, options, table),
            left: max_bytes,
            failed: false,
            alloc,
        })
    }

    /// Whether a call was refused.
    pub fn has_failed(&self) -> bool
        ensures { result ≡ self.now.has_failed }
    {
        self.failed
    }

    /// How many bytes may still come.
    pub fn left(&self) -> usize
        ensures { result ≡ self.now.left }
    {
        self.left
    }

    /// Reads the next piece of the page. It is refused as `TooLong`, before any of it is read, where it has more bytes
    /// than may still come; as `Failed` after a refusal; and else only if allocation fails.
    pub fn push(&mut self, piece: &[u8]) -> Result<(), PageFault>
        // What was pushed, the piece and any rest come to what all of it now and the rest come to.
        ensures reads { OnOk result ((rest : List ℕ) (forest : Forest) (quirks : Quirks) →
            Comes self.new rest forest quirks → Comes self.old (piece.now ++ rest) forest quirks) }
        ensures left { OnOk result (self.new.left + length piece.now ≡ self.old.left) }
        ensures refused { self.new.has_failed ≡ is_err result }
        ensures failed { self.old.has_failed ≡ true → result ≡ Err Failed }
        ensures too_long { self.old.has_failed ≡ false → self.old.left < length piece.now → result ≡ Err TooLong }
        ensures is_long { result ≡ Err TooLong → self.old.left < length piece.now }
        ensures memory { self.old.has_failed ≡ false → length piece.now ≤ self.old.left →
            IfErr result (λ e. e ≡ Memory) }
        ensures kinds { self.old.has_failed ≡ false → IfErr result (λ e. (e ≡ TooLong) ⊎ (e ≡ Memory)) }
    {
        if self.failed {
            return Err(PageFault::Failed);
        }
        // a refused call leaves it so
        self.failed = true;
        if self.left < piece.len() {
            return Err(PageFault::TooLong);
        }
        feed(self.alloc, &mut self.decoder, &mut self.parser, piece)?;
        self.left -= piece.len();
        self.failed = false;
        Ok(())
    }

    /// Reads the end of the page, and gives its finished tree. The error is `Failed` after a refusal, and else
    /// allocation failure.
    pub fn finish(self) -> Result<RcDom, PageFault>
        ensures tree { IfOk result (λ dom. Comes self [] dom.forest dom.quirks) }
        ensures failed { self.has_failed ≡ true → result ≡ Err Failed }
        ensures memory { self.has_failed ≡ false → IfErr result (λ e. e ≡ Memory) }
    {
        let PageReader {
            decoder,
            parser,
            left: _,
            failed,
            alloc,
        } = self;
        if failed {
            return Err(PageFault::Failed);
        }
        Ok(end(alloc, decoder, parser)?)
    }
}
