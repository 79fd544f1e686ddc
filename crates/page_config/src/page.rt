//! A page piece by piece.
ghost use Rattle.std.specs.Prelude.{◌≡◌, ◌+◌, ◌<◌, ◌++◌, ◌⊎◌, [], Err, IfErr, IfOk, List, OnOk, false, is_err, length};
ghost use Rattle.std.specs.Prelude.{true, ℕ};
ghost use Rattle.tree_forest.specs.Forest.{Forest};
ghost use Rattle.tree_forest.specs.declared.sink.QuirksMode.{QuirksMode as Quirks};
ghost use Rattle.page_config.specs.declared.error.Error.TheVariants.{Fail, Memory, TooLong};

use crate::config::Config;
use crate::error::Error;
use html_render_dom::RcDom;
use page_reading::PageReader;
use std::alloc::Global;
use std::marker::Model;
use text_decorators::TextDecorator;

/// A page that comes piece by piece, however cut, read as a configuration says. Contracts see the trees that may come
/// of it, how many bytes may still come, and whether a call was refused. Then every later one is, as `Fail`.
#[derive(Drop)]
pub struct Page {
    reader: PageReader,
}

impl Model for Page {
    ghost use Rattle.page_reading.specs.Readers.{Paging};
    ghost use Rattle.page_reading.specs.contracts.reader.PageReader as readers;

    ghost Value = { Paging };

    ghost coded = { readers.the_row.coded };

    ghost view = { λ p. p.reader };
}

impl Page {
    ghost use Rattle.page_config.specs.Settings.{max_bytes_of, page_setting};
    ghost use Rattle.page_reading.specs.PageTrees.{IsTreeOfBytes};
    ghost use Rattle.page_reading.specs.Readers.{Comes};

    /// A page of which nothing has come. The error is allocation failure.
    pub fn new<D: TextDecorator + Drop>(alloc: Global, config: &Config<D>) -> Result<Page, Error>
        ensures begins { IfOk result (λ page. (bytes : List ℕ) (forest : Forest) (quirks : Quirks) → Comes page bytes
            forest quirks → IsTreeOfBytes (page_setting D.view config.now).table
            (page_setting D.view config.now).parsing bytes forest quirks) }
        ensures works { IfOk result (λ page. page.has_failed ≡ false) }
        ensures left { IfOk result (λ page. page.left ≡ max_bytes_of config.now) }
        ensures memory { IfErr result (λ e. e ≡ Memory) }
    {
        let table = config.table.try_clone()?;
        let parsing = config.parsing.try_clone()?;
        Ok(Page {
            reader: PageReader::new(alloc, table, parsing, config.max_bytes)?,
        })
    }

    /// Reads the next piece of the page. It is refused as `TooLong`, before any of it is read, where it has more bytes
    /// than may still come; as `Fail` after a refusal; and else only since allocation fails.
    pub fn push(&mut self, piece: &[u8]) -> Result<(), Error>
        // What was pushed, the piece and any rest come to what all of it now and the rest come to.
        ensures reads { OnOk result ((rest : List ℕ) (forest : Forest) (quirks : Quirks) →
            Comes self.new rest forest quirks → Comes self.old (piece.now ++ rest) forest quirks) }
        ensures left { OnOk result (self.new.left + length piece.now ≡ self.old.left) }
        ensures refused { self.new.has_failed ≡ is_err result }
        ensures failed { self.old.has_failed ≡ true → result ≡ Err Fail }
        ensures too_long { self.old.has_failed ≡ false → self.old.left < length piece.now → result ≡ Err TooLong }
        ensures is_long { result ≡ Err TooLong → self.old.left < length piece.now }
        ensures kinds { self.old.has_failed ≡ false → IfErr result (λ e. (e ≡ TooLong) ⊎ (e ≡ Memory)) }
    {
        Ok(self.reader.push(piece)?)
    }

    /// Reads the end of the page, and gives its finished tree. The error is `Fail` after a refusal, and else
    /// allocation failure.
    pub fn finish(self) -> Result<RcDom, Error>
        ensures tree { IfOk result (λ dom. Comes self [] dom.forest dom.quirks) }
        ensures failed { self.has_failed ≡ true → result ≡ Err Fail }
        ensures memory { self.has_failed ≡ false → IfErr result (λ e. e ≡ Memory) }
    {
        let Page { reader } = self;
        Ok(reader.finish()?)
    }
}
