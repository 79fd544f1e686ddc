//! What the program answers to a command line: which text goes where, and its exit status.

ghost use Rattle.std.specs.Prelude.{◌≡◌, ◌⊎◌, ◌||◌, Err, IfErr, IfOk, IsOk, List, OnErr, OnOk, Option, Some, false};
ghost use Rattle.std.specs.Prelude.{map, string_bytes, true, ℕ};
ghost use Rattle.std.specs.Io.KnownBytes.{Appends};
ghost use Rattle.command_line.specs.CommandWords.{words_after_name};
ghost use Rattle.command_line.specs.FaultTexts.{fault_text};
ghost use Rattle.command_line.specs.Requests.{asked_of};
ghost use Rattle.command_line.specs.WordFaults.{IsRefusedWith};
ghost use Rattle.lex_base.specs.KnownPart.{AppendsPart};
ghost use Rattle.html2text.specs.Endings.{IsAnswered};
ghost use Rattle.html2text.specs.Responses.{Complains, IsAskedRefusal, IsAskedTableRefusal, IsOutcomeOf, IsRefusal};
ghost use Rattle.html2text.specs.Responses.{IsTableOf, IsTableRefusal, WritesAnswer, WritesAnswerPart, WritesAsked};
ghost use Rattle.html2text.specs.Responses.{WritesAskedPart, complaint};
ghost use Rattle.command_line.specs.TableFiles.{fault_text as table_text};
ghost use Rattle.page_config.specs.Errors.{error_text};

use crate::outcome::{Outcome, exit_status};
use crate::showing::write_page;
use crate::writing::write_all;
use command_line::{FileOpener, Request, TableFault, WordFault, request_of, table_in_file};
use html_lexemes::{ByteReader, ByteWriter, DeviceFault, ReferenceTable};
use page_config::Error;
use std::alloc::Global;
use std::io;

/// Answers a command line, the program's name first, and gives the exit status: 0 where the text of the page was
/// written to `output` and passed on, or the help was; 1 where the page was refused or its file not opened, or a device
/// failed; 2 where the words were refused; 3 where no table of references was had from the file that they name. The
/// page is that of the file that they name, or of `input`. Each fault is one text on `errors`, after `html2text: `;
/// where `errors` fails there is nobody left to notify.
pub fn respond<F: FileOpener, R: ByteReader, W: ByteWriter, E: ByteWriter>(
    alloc: Global,
    words: io::Result<Vec<String>>,
    files: &F,
    input: &mut R,
    output: &mut W,
    errors: &mut E,
) -> u8
    ensures statuses { (result ≡ 0) ⊎ (result ≡ 1) ⊎ (result ≡ 2) ⊎ (result ≡ 3) }

    // All that was asked for was written and passed on, and nothing is wrong.
    ensures done { result ≡ 0 → IfOk words (λ all. WritesAsked (words_after_name (map string_bytes all.items))
        (F.bytes_of files.now) (R.remaining input.old) (W.contents output.old) (W.contents output.new)) }
    ensures had { result ≡ 0 → IsOk words }
    ensures passed_on { result ≡ 0 → (W.has_failed output.new ≡ false) × (W.was_flushed output.new ≡ true) }
    ensures silent { result ≡ 0 → errors.new ≡ errors.old }

    // The page was refused or its file not opened, or a device failed: for this error, which is reported.
    ensures refused { result ≡ 1 → (error : Error)
        × Complains (E.has_failed errors.new) (E.contents errors.old) (E.contents errors.new) (error_text error)
        × IfOk words (λ all. IsAskedRefusal (words_after_name (map string_bytes all.items)) (F.bytes_of files.now)
        (R.remaining input.old) (R.has_failed input.new || W.has_failed output.new) (W.has_failed output.new)
        (R.count input.old) (R.count input.new) error) }
    ensures read { result ≡ 1 → IsOk words }
    ensures unwritten { result ≡ 1 → (output.new ≡ output.old) ⊎ ((W.has_failed output.new ≡ true)
        × IfOk words (λ all. WritesAskedPart (words_after_name (map string_bytes all.items)) (F.bytes_of files.now)
        (R.remaining input.old) (W.contents output.old) (W.contents output.new))) }

    // The words were refused: for this fault, which is reported; nothing was read and nothing written.
    ensures words { result ≡ 2 → (fault : WordFault)
        × Complains (E.has_failed errors.new) (E.contents errors.old) (E.contents errors.new) (fault_text fault)
        × IsRefusedWith words fault }
    ensures unread { result ≡ 2 → (input.new ≡ input.old) × (output.new ≡ output.old) }

    // There was no table: for this fault, which is reported; no page was read and nothing written.
    ensures table { result ≡ 3 → (fault : TableFault)
        × Complains (E.has_failed errors.new) (E.contents errors.old) (E.contents errors.new) (table_text fault)
        × IfOk words (λ all. IsAskedTableRefusal (words_after_name (map string_bytes all.items))
        (F.bytes_of files.now) fault) }
    ensures tabled { result ≡ 3 → IsOk words }
    ensures tableless { result ≡ 3 → (input.new ≡ input.old) × (output.new ≡ output.old) }
{
    let request = request_of(alloc, words);
    let outcome = carry_out(alloc, request, files, input, output, errors);
    exit_status(&outcome)
}

/// Does what words ask for, or says what is wrong with them: writes the text of the page of the file that is named, or
/// of `input`, or the help, to `output`, and each fault to `errors`, after `html2text: `.
pub fn carry_out<F: FileOpener, R: ByteReader, W: ByteWriter, E: ByteWriter>(
    alloc: Global,
    request: Result<Request, WordFault>,
    files: &F,
    input: &mut R,
    output: &mut W,
    errors: &mut E,
) -> Outcome
    ensures outcomes { IsOutcomeOf request result }

    // What was asked for was written and passed on, and nothing is wrong.
    ensures done { result ≡ Outcome.Done → WritesAnswer request (F.bytes_of files.now) (R.remaining input.old)
        (W.contents output.old) (W.contents output.new) }
    ensures passed_on { result ≡ Outcome.Done → (W.has_failed output.new ≡ false) × (W.was_flushed output.new ≡ true) }
    ensures silent { result ≡ Outcome.Done → errors.new ≡ errors.old }

    // The page was refused for this error, or a device failed.
    ensures reported { (error : Error) → result ≡ Outcome.Page error
        → Complains (E.has_failed errors.new) (E.contents errors.old) (E.contents errors.new) (error_text error) }
    ensures reason { (error : Error) → result ≡ Outcome.Page error → IfOk request (λ asked.
        IsRefusal (asked_of asked) (F.bytes_of files.now) (R.remaining input.old)
        (R.has_failed input.new || W.has_failed output.new) (R.count input.old) (R.count input.new) error) }
    ensures unwritten { (error : Error) → result ≡ Outcome.Page error → (output.new ≡ output.old)
        ⊎ ((W.has_failed output.new ≡ true)
        × WritesAnswerPart request (F.bytes_of files.now) (R.remaining input.old) (W.contents output.old)
        (W.contents output.new)) }
    ensures unhelped { (error : Error) → result ≡ Outcome.Page error
        → IfErr request (λ _. W.has_failed output.new ≡ true) }

    // The page's file was not opened.
    ensures unopened { result ≡ Outcome.NotOpened
        → Complains (E.has_failed errors.new) (E.contents errors.old) (E.contents errors.new) (error_text Error.IoError)
        × (output.new ≡ output.old)
        × IfOk request (λ asked. (name : List ℕ) × ((asked_of asked).file ≡ Some name)) }

    // The words were refused.
    ensures words { result ≡ Outcome.Words → IfErr request (λ fault.
        Complains (E.has_failed errors.new) (E.contents errors.old) (E.contents errors.new) (fault_text fault)) }
    ensures unread { result ≡ Outcome.Words → (input.new ≡ input.old) × (output.new ≡ output.old) }

    // There was no table.
    ensures table { result ≡ Outcome.Table → (fault : TableFault)
        × Complains (E.has_failed errors.new) (E.contents errors.old) (E.contents errors.new) (table_text fault)
        × IfOk request (λ asked. IsTableRefusal (F.bytes_of files.now) (asked_of asked).references fault) }
    ensures tableless { result ≡ Outcome.Table → (input.new ≡ input.old) × (output.new ≡ output.old) }
{
    match request {
        Ok(request) => answer(alloc, &request, files, input, output, errors),
        Err(fault) => report_fault(&fault, output, errors),
    }
}

/// Writes the text of the page that is asked for, or says why there is none.
fn answer<F: FileOpener, R: ByteReader, W: ByteWriter, E: ByteWriter>(
    alloc: Global,
    request: &Request,
    files: &F,
    input: &mut R,
    output: &mut W,
    errors: &mut E,
) -> Outcome
    ensures { IsAnswered (asked_of request.now) (F.bytes_of files.now) (R.remaining input.old) (R.has_failed input.new)
        (W.has_failed output.new) (W.was_flushed output.new) (R.count input.old) (R.count input.new)
        (W.contents output.old) (W.contents output.new) (input.new ≡ input.old) (output.new ≡ output.old)
        (errors.new ≡ errors.old)
        (Complains (E.has_failed errors.new) (E.contents errors.old) (E.contents errors.new)) result }
{
    match &request.references {
        None => match ReferenceTable::basic(alloc) {
            Ok(table) => show_page(alloc, request, table, files, input, output, errors),
            Err(_) => refuse(errors, Error::Memory),
        },
        Some(name) => match table_in_file(alloc, files, name.as_str()) {
            Ok(table) => show_page(alloc, request, table, files, input, output, errors),
            Err(fault) => {
                complain(errors, fault.text());
                Outcome::Table
            }
        },
    }
}

/// The same, with a table of references.
fn show_page<F: FileOpener, R: ByteReader, W: ByteWriter, E: ByteWriter>(
    alloc: Global,
    request: &Request,
    table: ReferenceTable,
    files: &F,
    input: &mut R,
    output: &mut W,
    errors: &mut E,
) -> Outcome
    requires { IsTableOf (F.bytes_of files.now) (asked_of request.now).references table }
    ensures { IsAnswered (asked_of request.now) (F.bytes_of files.now) (R.remaining input.old) (R.has_failed input.new)
        (W.has_failed output.new) (W.was_flushed output.new) (R.count input.old) (R.count input.new)
        (W.contents output.old) (W.contents output.new) (input.new ≡ input.old) (output.new ≡ output.old)
        (errors.new ≡ errors.old)
        (Complains (E.has_failed errors.new) (E.contents errors.old) (E.contents errors.new)) result }
{
    match &request.file {
        None => match write_page(alloc, request, table, input, output) {
            Ok(()) => Outcome::Done,
            Err(error) => refuse(errors, error),
        },
        Some(name) => match files.open(name.as_str()) {
            Ok(mut file) => match write_page(alloc, request, table, &mut file, output) {
                Ok(()) => Outcome::Done,
                Err(error) => refuse(errors, error),
            },
            Err(DeviceFault) => {
                complain(errors, Error::IoError.text());
                Outcome::NotOpened
            }
        },
    }
}

/// Reports why a page was refused.
fn refuse<E: ByteWriter>(errors: &mut E, error: Error) -> Outcome
    ensures outcome { result ≡ Outcome.Page error }
    ensures reported { Complains (E.has_failed errors.new) (E.contents errors.old) (E.contents errors.new)
        (error_text error) }
{
    complain(errors, error.text());
    Outcome::Page(error)
}

/// Writes the help that was asked for, or says what is wrong with the words.
fn report_fault<W: ByteWriter, E: ByteWriter>(
    fault: &WordFault,
    output: &mut W,
    errors: &mut E,
) -> Outcome
    ensures outcomes { IsOutcomeOf (Err fault.now) result }
    ensures done { (files : List ℕ → Option (List ℕ)) (bytes : Option (List ℕ)) → result ≡ Outcome.Done
        → WritesAnswer (Err fault.now) files bytes (W.contents output.old) (W.contents output.new) }
    ensures passed_on { result ≡ Outcome.Done → (W.has_failed output.new ≡ false) × (W.was_flushed output.new ≡ true) }
    ensures silent { result ≡ Outcome.Done → errors.new ≡ errors.old }
    ensures reported { (error : Error) → result ≡ Outcome.Page error
        → Complains (E.has_failed errors.new) (E.contents errors.old) (E.contents errors.new) (error_text error) }
    ensures unwritten { (error : Error) (files : List ℕ → Option (List ℕ)) (bytes : Option (List ℕ))
        → result ≡ Outcome.Page error → (W.has_failed output.new ≡ true)
        × WritesAnswerPart (Err fault.now) files bytes (W.contents output.old) (W.contents output.new) }
    ensures words { result ≡ Outcome.Words
        → Complains (E.has_failed errors.new) (E.contents errors.old) (E.contents errors.new) (fault_text fault.now) }
    ensures unread { result ≡ Outcome.Words → output.new ≡ output.old }
{
    match fault {
        WordFault::Help(text) => show_help(text.as_str(), output, errors),
        WordFault::Words(_) | WordFault::NotUtf8 | WordFault::Memory => {
            complain(errors, fault.text());
            Outcome::Words
        }
    }
}

/// Writes the help, or says that its writer failed.
fn show_help<W: ByteWriter, E: ByteWriter>(text: &str, output: &mut W, errors: &mut E) -> Outcome
    ensures outcomes { (result ≡ Outcome.Done) ⊎ (result ≡ Outcome.Page Error.IoError) }
    ensures done { result ≡ Outcome.Done → Appends (W.contents output.old) (W.contents output.new) text.now }
    ensures passed_on { result ≡ Outcome.Done → (W.has_failed output.new ≡ false) × (W.was_flushed output.new ≡ true) }
    ensures silent { result ≡ Outcome.Done → errors.new ≡ errors.old }
    ensures reported { (error : Error) → result ≡ Outcome.Page error
        → Complains (E.has_failed errors.new) (E.contents errors.old) (E.contents errors.new) (error_text error) }
    ensures unwritten { (error : Error) → result ≡ Outcome.Page error → (W.has_failed output.new ≡ true)
        × AppendsPart (W.contents output.old) (W.contents output.new) text.now }
{
    match write_through(output, text.as_bytes()) {
        Ok(()) => Outcome::Done,
        Err(DeviceFault) => {
            complain(errors, Error::IoError.text());
            Outcome::Page(Error::IoError)
        }
    }
}

/// Writes the bytes, and passes them on.
fn write_through<W: ByteWriter>(output: &mut W, bytes: &[u8]) -> Result<(), DeviceFault>
    ensures ok { OnOk result (Appends (W.contents output.old) (W.contents output.new) bytes.now) }
    ensures passed_on { OnOk result ((W.has_failed output.new ≡ false) × (W.was_flushed output.new ≡ true)) }
    ensures part { OnErr result (AppendsPart (W.contents output.old) (W.contents output.new) bytes.now) }
    ensures failed { OnErr result (W.has_failed output.new ≡ true) }
{
    write_all(output, bytes)?;
    output.flush()
}

/// Reports what is wrong.
fn complain<E: ByteWriter>(errors: &mut E, text: &str)
    ensures { Complains (E.has_failed errors.new) (E.contents errors.old) (E.contents errors.new) text.now }
{
    // Where it can't be reported there is nobody left to notify.
    let _ = write_complaint(errors, text);
}

fn write_complaint<E: ByteWriter>(errors: &mut E, text: &str) -> Result<(), DeviceFault>
    ensures ok { OnOk result (Appends (E.contents errors.old) (E.contents errors.new) (complaint text.now)) }
    ensures part { OnErr result (AppendsPart (E.contents errors.old) (E.contents errors.new) (complaint text.now)) }
    ensures failed { OnErr result (E.has_failed errors.new ≡ true) }
{
    write_all(errors, b"html2text: ")?;
    write_all(errors, text.as_bytes())?;
    write_through(errors, b"\n")
}
