//! Readers and writers that fail, and the texts of faults.
use crate::checks::{holds, passes};
use html_lexemes::{ByteReader, ByteWriter, Device, DeviceFault, ParseFault};
use std::alloc::{AllocError, Global};
use std::fmt::Display;
use std::io;
use std::io::{ErrorKind, Read, Write};

/// Gives some bytes in reads of at most two, and then fails, once.
#[derive(Drop)]
struct Faltering<'a> {
    bytes: &'a [u8],
    has_failed: bool,
}

impl Read for Faltering<'_> {
    fn read(&mut self, buf: &mut [u8]) -> io::Result<usize> {
        if self.bytes.is_empty() && !self.has_failed {
            self.has_failed = true;
            return Err(io::Error::from(ErrorKind::Interrupted));
        }
        let most = buf.len().min(2);
        (&mut self.bytes).read(&mut buf[..most])
    }
}

// whether the device reads just this
fn reads<R: Read>(device: &mut Device<R>, bytes: &[u8]) -> bool {
    let mut buf = [0; 4];
    match device.read(&mut buf) {
        Ok(count) => buf.get(..count) == Some(bytes),
        Err(_) => false,
    }
}

#[test]
fn a_reader_ends_or_stays_failed(rt: HostRuntime) {
    let mut reader = Device::new(Faltering {
        bytes: b"abc",
        has_failed: false,
    });
    holds(&rt, reads(&mut reader, b"ab"), "ab");
    holds(&rt, reads(&mut reader, b"c"), "c");
    holds(&rt, reader.read(&mut [0; 4]).is_err(), "the fault");
    // What it was made of would go on.
    holds(&rt, reader.read(&mut [0; 4]).is_err(), "the call after it");
    holds(
        &rt,
        reader.into_inner().bytes.is_empty(),
        "what it was made of",
    );
    let mut reader = Device::new(b"a".as_slice());
    holds(&rt, reads(&mut reader, b"a"), "a");
    holds(&rt, reads(&mut reader, b""), "the end");
}

/// Takes so many bytes, and then none. Its first flush is refused where it is stuck.
#[derive(Drop)]
struct Narrow {
    room: usize,
    is_stuck: bool,
}

impl Write for Narrow {
    fn write(&mut self, buf: &[u8]) -> io::Result<usize> {
        let taken = buf.len().min(self.room);
        self.room -= taken;
        Ok(taken)
    }

    fn flush(&mut self) -> io::Result<()> {
        if self.is_stuck {
            self.is_stuck = false;
            return Err(io::Error::from(ErrorKind::Interrupted));
        }
        Ok(())
    }
}

// whether the device takes so many of the bytes
fn takes<W: Write>(device: &mut Device<W>, bytes: &[u8], count: usize) -> bool {
    device.write(bytes).ok() == Some(count)
}

#[test]
fn a_writer_that_takes_nothing_has_failed(rt: HostRuntime) {
    let mut writer = Device::new(Narrow {
        room: 3,
        is_stuck: false,
    });
    holds(&rt, takes(&mut writer, b"ab", 2), "ab");
    holds(&rt, takes(&mut writer, b"", 0), "nothing");
    holds(&rt, writer.flush().is_ok(), "a flush");
    holds(&rt, takes(&mut writer, b"cd", 1), "cd");
    holds(&rt, writer.write(b"d").is_err(), "d");
    holds(&rt, writer.write(b"").is_err(), "nothing after the fault");
    holds(&rt, writer.flush().is_err(), "a flush after the fault");
}

#[test]
fn a_writer_that_is_not_flushed_has_failed(rt: HostRuntime) {
    let mut writer = Device::new(Narrow {
        room: 3,
        is_stuck: true,
    });
    holds(&rt, takes(&mut writer, b"a", 1), "a");
    holds(&rt, writer.flush().is_err(), "the fault");
    // What it was made of would go on.
    holds(&rt, writer.flush().is_err(), "a flush after it");
    holds(&rt, writer.write(b"a").is_err(), "a write after it");
    holds(&rt, writer.into_inner().room == 2, "what it was made of");
}

#[test]
fn a_writer_in_memory_holds_what_it_took(rt: HostRuntime) {
    let mut writer = Device::new(Vec::new(rt.alloc()));
    holds(&rt, takes(&mut writer, b"ab", 2), "ab");
    holds(&rt, writer.flush().is_ok(), "a flush");
    holds(&rt, takes(&mut writer, b"c", 1), "c");
    holds(
        &rt,
        writer.into_inner().as_slice() == b"abc".as_slice(),
        "abc",
    );
}

// whether this is how a fault is displayed
fn is_displayed<F: Display>(alloc: Global, fault: &F, expected: &str) -> Result<bool, AllocError> {
    Ok(fault.to_string(alloc)?.as_str() == expected)
}

#[test]
fn faults_are_reported(rt: HostRuntime) {
    let alloc = rt.alloc();
    passes(
        &rt,
        is_displayed(alloc, &DeviceFault, "read or write failed"),
        "a device",
    );
    passes(
        &rt,
        is_displayed(alloc, &ParseFault::Memory, "out of memory"),
        "memory",
    );
    let earlier = "refused after an earlier refusal";
    passes(
        &rt,
        is_displayed(alloc, &ParseFault::Failed, earlier),
        "a refusal",
    );
}
