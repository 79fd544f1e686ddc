//! The command as clap reads it.

ghost use Rattle.std.specs.Prelude.{◌≡◌, false, IfOk};
ghost use Rattle.clap.specs.Words.{app_of, rule_of};
ghost use Rattle.command_line.specs.CommandRules.{file_rule, flag_rule, number_rule, program, text_rule, without_rules};

use clap::{Arg, ArgAction, Command, value_parser};
use std::alloc::{AllocError, Global};

const AFTER_HELP: &str = "\
The page is read as UTF-8. Each fault is one text on standard error. The status
is 0 where the text was written, 1 where the page was refused, 2 where the words
of the command line were, and 3 where the table of references was.";

/// An option with a number of 32 bits.
fn number<'a>(alloc: Global, name: &'a str, value_name: &'a str, help: &'a str) -> Arg<'a>
    ensures rule { rule_of result ≡ number_rule name.entry.now }
    ensures local { result.global ≡ false }
{
    Arg::new(alloc, name)
        .long(name)
        .value_name(value_name)
        .help(help)
        .action(ArgAction::Set)
        .value_parser(value_parser!(u32))
}

/// An option with a text.
fn text<'a>(alloc: Global, name: &'a str, value_name: &'a str, help: &'a str) -> Arg<'a>
    ensures rule { rule_of result ≡ text_rule name.entry.now }
    ensures local { result.global ≡ false }
{
    Arg::new(alloc, name)
        .long(name)
        .value_name(value_name)
        .help(help)
        .action(ArgAction::Set)
}

/// An option without a value.
fn flag<'a>(alloc: Global, name: &'a str, help: &'a str) -> Arg<'a>
    ensures rule { rule_of result ≡ flag_rule name.entry.now }
    ensures local { result.global ≡ false }
{
    Arg::new(alloc, name)
        .long(name)
        .help(help)
        .action(ArgAction::SetTrue)
}

/// The page's file.
fn file<'a>(alloc: Global) -> Arg<'a>
    ensures rule { rule_of result ≡ file_rule }
    ensures local { result.global ≡ false }
{
    Arg::new(alloc, "file")
        .value_name("FILE")
        .help("The page; standard input where none is named")
        .action(ArgAction::Set)
}

fn without_options<'a>(alloc: Global) -> Command<'a>
    ensures { app_of result ≡ without_rules }
{
    Command::new(alloc, "html2text")
        .about("Writes the text of an HTML page, wrapped to a width")
        .after_help(AFTER_HELP)
        .no_binary_name(true)
}

/// The command with its options, in the order in which the help lists them.
pub(crate) fn command<'a>(alloc: Global) -> Result<Command<'a>, AllocError>
    ensures { IfOk result (λ command. app_of command ≡ program) }
{
    without_options(alloc)
        .arg(number(alloc, "width", "N", "The columns of a line, 80 without it"))?
        .arg(number(
            alloc,
            "max-bytes",
            "N",
            "The most bytes that the page may have",
        ))?
        .arg(flag(
            alloc,
            "rich",
            "No marks in the text: neither * and ** nor links after it",
        ))?
        .arg(flag(
            alloc,
            "no-decorate",
            "No * round emphasis, ** round strong text, ` round code",
        ))?
        .arg(flag(
            alloc,
            "footnotes",
            "The targets of links after the page, numbered",
        ))?
        .arg(flag(
            alloc,
            "shared-footnotes",
            "Each target once after the page, with one number",
        ))?
        .arg(text(
            alloc,
            "references",
            "FILE",
            "Named references, as the JSON file of the HTML standard",
        ))?
        .arg(file(alloc))
}
