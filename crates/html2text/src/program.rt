//! The program `html2text` over a runtime: the words of its command line, its standard streams, and how it ends.

ghost use Rattle.std.specs.Prelude.{◌≡◌, ◌⊎◌};
ghost use Rattle.html2text.specs.Endings.{ending};

use crate::response::respond;
use command_line::HostFiles;
use html_lexemes::Device;
use std::io::{BufWriter, Eprint};
use std::process::{ExitCode, Termination};
use std::rt::Env;
use std::{env, io};

/// How the program ended, with the exit status that `respond` gave. Only `serve` makes one, so a `main` with this
/// answer ends with no other status.
#[derive(Drop)]
pub struct Served {
    status: u8,
}

impl Termination for Served {
    fn report<R: Eprint>(self, _rt: &R) -> ExitCode {
        ExitCode::from(self.status)
    }
}

/// Answers the command line of a runtime: opens the standard streams and what files it names, and writes the lines of
/// the page to standard output or what is wrong to standard error, as `respond` does.
pub fn serve(rt: &HostRuntime) -> Served
    ensures { (ending result ≡ 0) ⊎ (ending result ≡ 1) ⊎ (ending result ≡ 2) ⊎ (ending result ≡ 3) }
{
    let alloc = rt.alloc();
    let words = words_of(rt);
    let files = HostFiles::new(rt);
    let mut input = Device::new(rt.reader());
    let mut errors = Device::new(rt.stderr());
    let status = match BufWriter::new(alloc, io::writer(rt)) {
        Ok(buffered) => {
            let mut output = Device::new(buffered);
            respond(alloc, words, &files, &mut input, &mut output, &mut errors)
        }
        // Without memory for a buffer each text is written by itself.
        Err(_) => {
            let mut output = Device::new(io::writer(rt));
            respond(alloc, words, &files, &mut input, &mut output, &mut errors)
        }
    };
    Served { status }
}

/// The words of the command line, the program's name first.
fn words_of<R: Env + AllocGlobal>(rt: &R) -> io::Result<Vec<String>> {
    Ok(env::args(rt)?.collect(rt.alloc())?)
}
