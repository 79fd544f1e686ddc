//! A page as a request asks for it.

ghost use Rattle.std.specs.Prelude.{◌≡◌, true, false};
ghost use Rattle.command_line.specs.Requests.{asked_of};
ghost use Rattle.html2text.specs.Endings.{EndsBy};
ghost use Rattle.html2text.specs.Written.{HasAskedText, IsOtherPage, IsTooNarrowPage, most_bytes};
ghost use Rattle.page_config.specs.PageAnswers.{Answers, IsEmitted, fail, too_narrow};
ghost use Rattle.page_config.specs.Settings.{max_bytes_of, page_setting};

use crate::writing::run;
use command_line::Request;
use html_lexemes::{ByteReader, ByteWriter, ReferenceTable};
use page_config::{Config, Error};
use std::alloc::Global;
use text_decorators::TextDecorator;

/// Writes the text of the page that a device gives, as a request asks for it, and passes it on.
pub(crate) fn write_page<R: ByteReader, W: ByteWriter>(
    alloc: Global,
    request: &Request,
    table: ReferenceTable,
    input: &mut R,
    output: &mut W,
) -> Result<(), Error>
    ensures { EndsBy (HasAskedText (asked_of request.now) table) (IsTooNarrowPage (asked_of request.now) table)
        (IsOtherPage (asked_of request.now) table) (most_bytes (asked_of request.now)) (R.remaining input.old)
        (R.has_failed input.new) (W.has_failed output.new) (W.was_flushed output.new) (R.count input.old)
        (R.count input.new) (W.contents output.old) (W.contents output.new) (output.new ≡ output.old) result }
{
    if request.rich {
        write_rich(alloc, request, table, input, output)
    } else if request.decorate {
        write_decorated(alloc, request, table, input, output)
    } else {
        write_plain(alloc, request, table, input, output)
    }
}

fn write_rich<R: ByteReader, W: ByteWriter>(
    alloc: Global,
    request: &Request,
    table: ReferenceTable,
    input: &mut R,
    output: &mut W,
) -> Result<(), Error>
    requires { request.now.rich ≡ true }
    ensures { EndsBy (HasAskedText (asked_of request.now) table) (IsTooNarrowPage (asked_of request.now) table)
        (IsOtherPage (asked_of request.now) table) (most_bytes (asked_of request.now)) (R.remaining input.old)
        (R.has_failed input.new) (W.has_failed output.new) (W.was_flushed output.new) (R.count input.old)
        (R.count input.new) (W.contents output.old) (W.contents output.new) (output.new ≡ output.old) result }
{
    let config = Config::rich(alloc, table)
        .link_footnotes(request.footnotes)
        .shared_footnotes(request.shared_footnotes)
        .max_bytes(request.max_bytes.unwrap_or(usize::MAX));
    write_by(alloc, input, output, config, request.width)
}

/// Plain text with marks, and with the targets of links.
fn write_decorated<R: ByteReader, W: ByteWriter>(
    alloc: Global,
    request: &Request,
    table: ReferenceTable,
    input: &mut R,
    output: &mut W,
) -> Result<(), Error>
    requires rich { request.now.rich ≡ false }
    requires decorated { request.now.decorate ≡ true }
    ensures { EndsBy (HasAskedText (asked_of request.now) table) (IsTooNarrowPage (asked_of request.now) table)
        (IsOtherPage (asked_of request.now) table) (most_bytes (asked_of request.now)) (R.remaining input.old)
        (R.has_failed input.new) (W.has_failed output.new) (W.was_flushed output.new) (R.count input.old)
        (R.count input.new) (W.contents output.old) (W.contents output.new) (output.new ≡ output.old) result }
{
    let config = Config::plain(alloc, table)?.max_bytes(request.max_bytes.unwrap_or(usize::MAX));
    let config = config.shared_footnotes(request.shared_footnotes);
    write_by(alloc, input, output, config, request.width)
}

/// Plain text without marks.
fn write_plain<R: ByteReader, W: ByteWriter>(
    alloc: Global,
    request: &Request,
    table: ReferenceTable,
    input: &mut R,
    output: &mut W,
) -> Result<(), Error>
    requires rich { request.now.rich ≡ false }
    requires decorated { request.now.decorate ≡ false }
    ensures { EndsBy (HasAskedText (asked_of request.now) table) (IsTooNarrowPage (asked_of request.now) table)
        (IsOtherPage (asked_of request.now) table) (most_bytes (asked_of request.now)) (R.remaining input.old)
        (R.has_failed input.new) (W.has_failed output.new) (W.was_flushed output.new) (R.count input.old)
        (R.count input.new) (W.contents output.old) (W.contents output.new) (output.new ≡ output.old) result }
{
    let config = Config::plain_no_decorate(alloc, table)
        .link_footnotes(request.footnotes)
        .shared_footnotes(request.shared_footnotes)
        .max_bytes(request.max_bytes.unwrap_or(usize::MAX));
    write_by(alloc, input, output, config, request.width)
}

/// Writes the text of the page that a device gives, by a configuration, and passes it on.
fn write_by<R: ByteReader, W: ByteWriter, D: TextDecorator + Drop>(
    alloc: Global,
    input: &mut R,
    output: &mut W,
    config: Config<D>,
    width: usize,
) -> Result<(), Error>
    ensures { EndsBy (IsEmitted D.Annotation.seen D.view (page_setting D.view config) width)
        (λ bytes. Answers D.Annotation.seen D.view (page_setting D.view config) width bytes too_narrow)
        (λ bytes. Answers D.Annotation.seen D.view (page_setting D.view config) width bytes fail) (max_bytes_of config)
        (R.remaining input.old) (R.has_failed input.new) (W.has_failed output.new) (W.was_flushed output.new)
        (R.count input.old) (R.count input.new) (W.contents output.old) (W.contents output.new)
        (output.new ≡ output.old) result }
{
    run(alloc, input, output, config, width)?;
    output.flush()?;
    Ok(())
}
