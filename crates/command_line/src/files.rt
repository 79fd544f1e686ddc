//! Files by their names.
ghost use Rattle.std.specs.Prelude.{◌≡◌, ℕ, List, Option, None, IfOk};

use html_lexemes::{ByteReader, Device, DeviceFault};
use std::fs;
use std::io::Read;
use std::rt::Files;

/// What opens files by their names, to be read. Contracts see the bytes of each, where they are known.
pub trait FileOpener {
    /// A file that was opened.
    type File: ByteReader + Drop;

    ghost bytes_of: { Self → List ℕ → Option (List ℕ) };

    /// Opens the file of that name. The error says that it can't be opened.
    fn open(&self, name: &str) -> Result<Self::File, DeviceFault>
        ensures { IfOk result (λ file. Self.File.remaining file ≡ bytes_of self.now name.now) };
}

/// A file that was opened, whose bytes contracts don't know before they are read.
#[derive(Drop)]
pub struct OpenedFile<T> {
    device: Device<T>,
}

impl<T> OpenedFile<T> {
    /// The file that std's `Read` reads.
    pub fn new(inner: T) -> OpenedFile<T> {
        OpenedFile {
            device: Device::new(inner),
        }
    }
}

impl<T: Read> ByteReader for OpenedFile<T> {
    ghost use Rattle.command_line.specs.OpenedFiles.{device_of};
    ghost use Rattle.lex_base.specs.Device.{count_of, is_failed};

    ghost has_failed = { λ file. is_failed (device_of file) };

    ghost count = { λ file. count_of (device_of file) };

    ghost remaining = { λ _. None };

    fn read(&mut self, buf: &mut [u8]) -> Result<usize, DeviceFault> {
        self.device.read(buf)
    }
}

/// The files of a runtime.
#[derive(Drop)]
pub struct HostFiles<'a, R> {
    rt: &'a R,
}

impl<'a, R: Files> HostFiles<'a, R> {
    /// The files of that runtime.
    pub fn new(rt: &'a R) -> HostFiles<'a, R> {
        HostFiles { rt }
    }
}

impl<'a, R: Files> FileOpener for HostFiles<'a, R> {
    type File = OpenedFile<R::File>;

    ghost bytes_of = { λ _ _. None };

    fn open(&self, name: &str) -> Result<OpenedFile<R::File>, DeviceFault> {
        match fs::open(self.rt, name) {
            Ok(file) => Ok(OpenedFile::new(file)),
            Err(_) => Err(DeviceFault),
        }
    }
}
