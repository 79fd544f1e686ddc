ghost use Rattle.std.specs.Prelude.{◌≡◌, ◌+◌, ◌<◌, ◌≤◌, Bool, IfOk, List, OnErr, OnOk, Option, false, is_err, length};
ghost use Rattle.std.specs.Prelude.{take, true, ℕ};
ghost use Rattle.std.specs.Io.KnownBytes.{Appends, Consumes, IsAtEnd, Keeps};
ghost use Rattle.lex_base.specs.KnownPart.{AppendsPart};

use std::error::Error;
use std::fmt;
use std::io::{Read, Write};

/// A device refused a read or a write. It has failed, and refuses every later call.
#[derive(Clone, Copy, Debug)]
pub struct DeviceFault;

impl fmt::Display for DeviceFault {
    fn fmt<W: fmt::Write>(&self, f: &mut fmt::Formatter<W>) -> fmt::Result {
        f.write_str("read or write failed")
    }
}

impl Error for DeviceFault {}

/// What gives bytes. Contracts see whether it has failed, how many bytes it has given, and the bytes
/// that it has left, where those are known.
pub trait ByteReader {
    ghost has_failed: { Self → Bool };

    ghost count: { Self → ℕ };

    ghost remaining: { Self → Option (List ℕ) };

    /// Writes the next bytes to the front of `buf`, and says how many. For a buffer that isn't empty 0
    /// is the end of the bytes.
    fn read(&mut self, buf: &mut [u8]) -> Result<usize, DeviceFault>
        ensures refused { is_err result ≡ has_failed self.new }
        ensures stays { has_failed self.old ≡ true → has_failed self.new ≡ true }
        ensures bound { IfOk result (λ n. n ≤ length buf.new) }
        ensures counted { IfOk result (λ n. count self.new ≡ count self.old + n) }
        ensures none_lost { OnErr result (count self.new ≡ count self.old) }
        ensures bytes { IfOk result
            (λ n. Consumes (remaining self.old) (remaining self.new) (take n buf.new)) }
        ensures end { IfOk result (λ n. n ≡ 0 → 0 < length buf.new → IsAtEnd (remaining self.new)) };
}

/// What takes bytes. Contracts see whether it has failed, whether it was flushed since its last write, and
/// the bytes that it holds, where those are known.
pub trait ByteWriter {
    ghost has_failed: { Self → Bool };

    ghost was_flushed: { Self → Bool };

    ghost contents: { Self → Option (List ℕ) };

    /// Takes bytes from the front of `bytes`, and says how many: at least one, where there is one. After
    /// a refusal the writer may hold a part of them.
    fn write(&mut self, bytes: &[u8]) -> Result<usize, DeviceFault>
        ensures refused { is_err result ≡ has_failed self.new }
        ensures stays { has_failed self.old ≡ true → has_failed self.new ≡ true }
        ensures bound { IfOk result (λ n. n ≤ length bytes.now) }
        ensures progress { IfOk result (λ n. 0 < length bytes.now → 0 < n) }
        ensures waits { was_flushed self.new ≡ false }
        ensures bytes { IfOk result
            (λ n. Appends (contents self.old) (contents self.new) (take n bytes.now)) }
        ensures part { OnErr result
            (AppendsPart (contents self.old) (contents self.new) bytes.now) };

    /// Passes on what waits in a buffer of the writer's own.
    fn flush(&mut self) -> Result<(), DeviceFault>
        ensures refused { is_err result ≡ has_failed self.new }
        ensures stays { has_failed self.old ≡ true → has_failed self.new ≡ true }
        ensures flushed { OnOk result (was_flushed self.new ≡ true) }
        ensures bytes { Keeps (contents self.old) (contents self.new) };
}

/// A reader or a writer of std's as a device: its first fault, an interruption too, is its failure, and
/// so is a write that takes nothing of some bytes.
#[derive(Drop)]
pub struct Device<T> {
    inner: T,
    failed: bool,
    given: u64,
    flushed: bool,
}

impl<T> Device<T> {
    ghost use Rattle.lex_base.specs.Device.{inner_of, is_failed, is_flushed, count_of};

    /// A device over std's `Read` or `Write`.
    pub fn new(inner: T) -> Device<T>
        ensures inner { inner_of result ≡ inner }
        ensures works { is_failed result ≡ false }
        ensures fresh { count_of result ≡ 0 }
        ensures waits { is_flushed result ≡ false }
    {
        Device {
            inner,
            failed: false,
            given: 0,
            flushed: false,
        }
    }

    /// What the device was made of.
    pub fn into_inner(self) -> T
        ensures { result ≡ inner_of self }
    {
        let Device {
            inner,
            failed: _,
            given: _,
            flushed: _,
        } = self;
        inner
    }
}

impl<R: Read> ByteReader for Device<R> {
    ghost use Rattle.lex_base.specs.Device.{inner_of, is_failed, count_of};

    ghost has_failed = { λ d. is_failed d };

    ghost count = { λ d. count_of d };

    ghost remaining = { λ d. R.remaining (inner_of d) };

    fn read(&mut self, buf: &mut [u8]) -> Result<usize, DeviceFault> {
        let room = u64::MAX - self.given;
        if self.failed || room < buf.len() as u64 {
            self.failed = true;
            return Err(DeviceFault);
        }
        match self.inner.read(buf) {
            Ok(n) => {
                self.given += n as u64;
                Ok(n)
            }
            Err(_) => {
                self.failed = true;
                Err(DeviceFault)
            }
        }
    }
}

impl<W: Write> ByteWriter for Device<W> {
    ghost use Rattle.lex_base.specs.Device.{inner_of, is_failed, is_flushed};

    ghost has_failed = { λ d. is_failed d };

    ghost was_flushed = { λ d. is_flushed d };

    ghost contents = { λ d. W.contents (inner_of d) };

    fn write(&mut self, bytes: &[u8]) -> Result<usize, DeviceFault> {
        self.flushed = false;
        if self.failed {
            return Err(DeviceFault);
        }
        match self.inner.write(bytes) {
            Ok(0) if !bytes.is_empty() => {
                self.failed = true;
                Err(DeviceFault)
            }
            Ok(n) => Ok(n),
            Err(_) => {
                self.failed = true;
                Err(DeviceFault)
            }
        }
    }

    fn flush(&mut self) -> Result<(), DeviceFault> {
        if self.failed || self.inner.flush().is_err() {
            self.failed = true;
            return Err(DeviceFault);
        }
        self.flushed = true;
        Ok(())
    }
}
