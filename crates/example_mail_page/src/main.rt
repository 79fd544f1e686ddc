//! A small program over the library `html2text`, as a mail reader has it: shows the page on standard input in a
//! terminal, and below it the answer that quotes the page. Nothing is written of a page that is refused.
#![tactic(auto)]

mod quoting;
mod showing;

use html2text::{Config, Device, Error, ReferenceTable};
use std::io;
use std::process::ExitCode;

fn main(rt: HostRuntime) -> ExitCode {
    match answer(&rt) {
        Ok(()) => ExitCode::from(0),
        Err(error) => {
            let _ = eprintln!(&rt; "mail_page: {error}");
            ExitCode::from(1)
        }
    }
}

/// Reads the page once, and lays it out twice: as rich text, and as plain text in narrower lines.
fn answer<R: Input + Print + AllocGlobal>(rt: &R) -> Result<(), Error> {
    let alloc = rt.alloc();
    let rich = Config::rich(alloc, ReferenceTable::basic(alloc)?);
    let plain = Config::plain(alloc, ReferenceTable::basic(alloc)?)?;
    let mut input = Device::new(rt.reader());
    let dom = rich.parse_html(alloc, &mut input)?;
    let shown = showing::shown(alloc, &rich, &dom)?;
    let tree = plain.dom_to_render_tree(alloc, &dom)?;
    let lines = plain.render_to_lines(alloc, tree, quoting::WIDTH)?;
    let mut output = io::writer(rt);
    quoting::write_answer(&mut output, shown.as_str(), &lines).map_err(|_| Error::IoError)
}
