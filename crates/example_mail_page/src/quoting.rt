use html2text::PlainLine;
use std::io;
use std::io::Write;

/// The columns of a quoted line, without what stands before it.
pub(crate) const WIDTH: usize = 20;

/// Writes the page as it is shown, an empty line, and each of its lines after `> `.
pub(crate) fn write_answer<W: Write>(
    output: &mut W,
    shown: &str,
    lines: &[PlainLine],
) -> io::Result<()> {
    output.write_all(shown.as_bytes())?;
    output.write_all(b"\n")?;
    for line in lines {
        write_quoted(output, line)?;
    }
    Ok(())
}

fn write_quoted<W: Write>(output: &mut W, line: &PlainLine) -> io::Result<()> {
    output.write_all(b"> ")?;
    for element in line.iter() {
        output.write_all(element.as_str().as_bytes())?;
    }
    output.write_all(b"\n")
}
