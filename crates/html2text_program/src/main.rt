//! The program `html2text`: reads a page on standard input, and writes its lines on standard output.
#![tactic(auto)]

use html2text::{Served, serve};

/// Answers the command line.
fn main(rt: HostRuntime) -> Served {
    serve(&rt)
}
