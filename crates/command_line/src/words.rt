//! What the words of a command line ask for.

ghost use Rattle.std.specs.Prelude.{◌≡◌, Err, IfErr, IfOk, IsErrAnd, map, option_map, string_bytes};
ghost use Rattle.std.specs.IoError.{error_kind};
ghost use Rattle.clap.specs.Words.{found_of, kind_of};
ghost use Rattle.clap.specs.Matches.{first_value, one_text};
ghost use Rattle.command_line.specs.CommandWords.{Asked, Asks, AsksHelp, words_after_name};
ghost use Rattle.command_line.specs.FoundWords.{IsFound, EmitsNumber};
ghost use Rattle.command_line.specs.Requests.{asked_of};
ghost use Rattle.command_line.specs.WordFaults.{Explains, IsFaultOf, IsHelpOrMemory, fault_of_kind};
ghost use Rattle.command_line.specs.declared.words.WordFault.TheVariants as faults;

use crate::rules::command;
use clap::ArgMatches;
use clap::error::ErrorKind;
use std::alloc::{AllocError, Global};
use std::io;

/// What the words of a command line ask for.
#[derive(Drop)]
pub struct Request {
    /// The columns of a line of the page's text.
    pub width: usize,
    /// Rich text: no marks.
    pub rich: bool,
    /// Marks of emphasis, strong text, terms and code.
    pub decorate: bool,
    /// The targets of links after the page, also where the text is one that goes without them.
    pub footnotes: bool,
    /// One number and one footnote for links to equal targets, where targets stand after the page.
    pub shared_footnotes: bool,
    /// The file of a table of references; else the basic ones are known.
    pub references: Option<String>,
    /// The most bytes that the page may have; else any number.
    pub max_bytes: Option<usize>,
    /// The file of the page; else it is read on standard input.
    pub file: Option<String>,
}

/// Why words are no request.
#[derive(Drop)]
pub enum WordFault {
    /// They ask for help: its text.
    Help(String),
    /// They are no words of this program: what is wrong.
    Words(String),
    /// One of them is not UTF-8.
    NotUtf8,
    /// There was no memory to read them.
    Memory,
}

const NOT_UTF8: &str = "a word of the command line is not UTF-8";

const MEMORY: &str = "out of memory";

impl From<AllocError> for WordFault {
    ghost from_gives = { λ _ fault. fault ≡ faults.Memory };

    fn from(_error: AllocError) -> WordFault {
        WordFault::Memory
    }
}

impl WordFault {
    ghost use Rattle.command_line.specs.FaultTexts.{fault_text};

    /// What is wrong, in words, or the help.
    pub fn text(&self) -> &str
        ensures { result.now ≡ fault_text self.now }
    {
        match self {
            WordFault::Help(text) => text.as_str(),
            WordFault::Words(text) => text.as_str().trim_end(),
            WordFault::NotUtf8 => NOT_UTF8,
            WordFault::Memory => MEMORY,
        }
    }
}

/// The width where the words name none.
const DEFAULT_WIDTH: usize = 80;

/// Reads the words after the program's name.
pub fn read_words(alloc: Global, words: &[String]) -> Result<Request, WordFault>
    ensures asked { IfOk result (λ request. Asks (map string_bytes words.now) (asked_of request)) }
    ensures explained { IfErr result (Explains (map string_bytes words.now)) }
    ensures answered { (asked : Asked) → Asks (map string_bytes words.now) asked
        → IfErr result (λ fault. fault ≡ faults.Memory) }
    ensures helped { AsksHelp (map string_bytes words.now) → IsErrAnd result IsHelpOrMemory }
{
    let Ok(command) = command(alloc) else {
        return Err(WordFault::Memory);
    };
    match command.try_get_matches_from(words) {
        Ok(matches) => Ok(request_in(alloc, &matches)?),
        Err(error) => Err(word_fault(alloc, &error)),
    }
}

/// Reads the words of a command line, the program's name first, as `std::env::args` gives them or refuses to: since
/// allocation fails, or because one is not UTF-8.
pub fn request_of(alloc: Global, words: io::Result<Vec<String>>) -> Result<Request, WordFault>
    ensures asked { IfOk result (λ request. IfOk words
        (λ all. Asks (words_after_name (map string_bytes all.items)) (asked_of request))) }
    ensures explained { IfOk words (λ all. IfErr result (Explains (words_after_name (map string_bytes all.items)))) }
    ensures answered { IfOk words (λ all. (asked : Asked) → Asks (words_after_name (map string_bytes all.items)) asked
        → IfErr result (λ fault. fault ≡ faults.Memory)) }
    ensures helped { IfOk words (λ all. AsksHelp (words_after_name (map string_bytes all.items))
        → IsErrAnd result IsHelpOrMemory) }
    ensures unread { IfErr words (λ error. result ≡ Err (fault_of_kind (error_kind error))) }
{
    match words {
        Ok(words) => match words.as_slice() {
            [] => read_words(alloc, &[]),
            [_name, trailing @ ..] => read_words(alloc, trailing),
        },
        Err(error) => match error.kind() {
            io::ErrorKind::OutOfMemory => Err(WordFault::Memory),
            _ => Err(WordFault::NotUtf8),
        },
    }
}

/// What was found. The error is allocation failure.
fn request_in(alloc: Global, matches: &ArgMatches) -> Result<Request, AllocError>
    ensures { IfOk result (λ request. IsFound (found_of matches.now) (asked_of request)) }
{
    Ok(Request {
        width: number_in(matches, "width").unwrap_or(DEFAULT_WIDTH),
        rich: matches.get_flag("rich"),
        decorate: !matches.get_flag("no-decorate"),
        footnotes: matches.get_flag("footnotes"),
        shared_footnotes: matches.get_flag("shared-footnotes"),
        references: text_in(alloc, matches, "references")?,
        max_bytes: number_in(matches, "max-bytes"),
        file: text_in(alloc, matches, "file")?,
    })
}

fn number_in(matches: &ArgMatches, name: &str) -> Option<usize>
    ensures { EmitsNumber (one_text (found_of matches.now) name.now) result }
{
    match matches.get_one::<u32>(name) {
        Some(number) => Some(number as usize),
        None => None,
    }
}

fn text_in(alloc: Global, matches: &ArgMatches, name: &str) -> Result<Option<String>, AllocError>
    ensures { IfOk result (λ text. option_map string_bytes text ≡ first_value (found_of matches.now) name.now) }
{
    match matches.get_str(name) {
        Some(text) => Ok(Some(String::from_str(alloc, text)?)),
        None => Ok(None),
    }
}

fn word_fault(alloc: Global, error: &clap::Error) -> WordFault
    ensures { IsFaultOf (kind_of error.now) result }
{
    let Ok(text) = error.to_string(alloc) else {
        return WordFault::Memory;
    };
    match error.kind() {
        ErrorKind::DisplayHelp => WordFault::Help(text),
        ErrorKind::OutOfMemory => WordFault::Memory,
        _ => WordFault::Words(text),
    }
}
