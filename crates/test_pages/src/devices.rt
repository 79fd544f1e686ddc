//! A reader and a writer in memory that give and take little at a time, or fail, and files in memory.

ghost use Rattle.std.specs.Prelude.{None};

use html2text::{Device, DeviceFault, FileOpener, OpenedFile};
use std::alloc::{AllocError, Global};
use std::io;
use std::io::{ErrorKind, Read, Write};

/// Gives its bytes a few at a time, and fails where the count of reads is used up.
#[derive(Drop)]
pub(crate) struct Pieces<'a> {
    pub(crate) bytes: &'a [u8],
    pub(crate) most: usize,
    pub(crate) reads: usize,
}

impl Read for Pieces<'_> {
    fn read(&mut self, buf: &mut [u8]) -> io::Result<usize> {
        if self.reads == 0 {
            return Err(io::Error::from(ErrorKind::Interrupted));
        }
        self.reads -= 1;
        let most = buf.len().min(self.most);
        (&mut self.bytes).read(&mut buf[..most])
    }
}

/// A device that gives a page, up to so many bytes at a time.
pub(crate) fn page_by(bytes: &[u8], most: usize) -> Device<Pieces<'_>> {
    let reads = usize::MAX;
    Device::new(Pieces { bytes, most, reads })
}

/// Takes bytes while the count of writes lasts, and then fails, or takes none; it may refuse to pass them on.
#[derive(Drop)]
pub(crate) struct Taker {
    pub(crate) taken: Vec<u8>,
    pub(crate) most: usize,
    pub(crate) writes: usize,
    pub(crate) takes_none: bool,
    pub(crate) is_stuck: bool,
}

impl Taker {
    /// A writer that takes all and never fails, and asks for no memory for the first bytes.
    pub(crate) fn new(alloc: Global) -> Result<Taker, AllocError> {
        Ok(Taker {
            taken: Vec::with_capacity(alloc, 64)?,
            most: usize::MAX,
            writes: usize::MAX,
            takes_none: false,
            is_stuck: false,
        })
    }
}

impl Write for Taker {
    fn write(&mut self, buf: &[u8]) -> io::Result<usize> {
        if self.writes == 0 {
            if self.takes_none {
                return Ok(0);
            }
            return Err(io::Error::from(ErrorKind::WriteZero));
        }
        self.writes -= 1;
        let taken = buf.len().min(self.most);
        self.taken.extend_from_slice(&buf[..taken])?;
        Ok(taken)
    }

    fn flush(&mut self) -> io::Result<()> {
        if self.is_stuck {
            return Err(io::Error::from(ErrorKind::BrokenPipe));
        }
        Ok(())
    }
}

/// Files in memory: a page, a table of references, and a text that is none.
pub(crate) struct Shelf;

impl FileOpener for Shelf {
    type File = OpenedFile<&'static [u8]>;

    ghost bytes_of = { λ _ _. None };

    fn open(&self, name: &str) -> Result<OpenedFile<&'static [u8]>, DeviceFault> {
        match name {
            "page" => Ok(OpenedFile::new(b"<p>a &notin; <b>b</b> <a href=x>c</a>")),
            "table" => Ok(OpenedFile::new(b"{\"&notin;\":{\"codepoints\":[8713]}}")),
            "none" => Ok(OpenedFile::new(b"[]")),
            "bytes" => Ok(OpenedFile::new(b"\xFF")),
            _ => Err(DeviceFault),
        }
    }
}
