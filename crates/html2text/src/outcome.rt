//! How a run of the program ends.

ghost use Rattle.std.specs.Prelude.{◌≡◌};
ghost use Rattle.html2text.specs.Statuses.{status_of};

use page_config::Error;

/// How a run of the program ended.
#[derive(Clone, Copy, PartialEq, Eq)]
pub enum Outcome {
    /// The page was written, or help was asked for.
    Done,
    /// The page was refused.
    Page(Error),
    /// The page's file was not opened.
    NotOpened,
    /// The words were refused.
    Words,
    /// The reference table was not opened, or refused.
    Table,
}

/// The exit status of the program: 0 done, 1 page refused or not opened, 2 words, 3 reference table.
pub fn exit_status(outcome: &Outcome) -> u8
    ensures { result ≡ status_of outcome.now }
{
    match outcome {
        Outcome::Done => 0,
        Outcome::Page(_) | Outcome::NotOpened => 1,
        Outcome::Words => 2,
        Outcome::Table => 3,
    }
}
