//! Tables of references in files.
ghost use Rattle.std.specs.Prelude.{◌≡◌, ◌⊎◌, true, Err, IfErr, IfOk, IfSome};
ghost use Rattle.command_line.specs.TableFiles.{IsNoTable, IsTableText};

use crate::files::FileOpener;
use crate::table_fault::TableFault;
use html_lexemes::{ByteReader, ReferenceTable};
use std::alloc::Global;
use std::str;

/// How many bytes are asked for at once.
const PIECE: usize = 8192;

/// The table of references in the file of a name, in the form in which the standard publishes it (WHATWG HTML, 13.5).
/// The error is `NotRead` where the file can't be opened or read, `Refused` where it is no such table, and else
/// allocation failure.
pub fn table_in_file<F: FileOpener>(
    alloc: Global,
    files: &F,
    name: &str,
) -> Result<ReferenceTable, TableFault>
    ensures table { IfOk result (λ table. IfSome (F.bytes_of files.now name.now) (λ bytes. IsTableText bytes table)) }
    ensures refused { result ≡ Err TableFault.Refused → IfSome (F.bytes_of files.now name.now) IsNoTable }
{
    let mut file = files.open(name)?;
    read_table(alloc, &mut file)
}

/// The table in what a device has left. The error is `NotRead` where the device failed, `Refused` where the bytes are
/// no table, and else allocation failure.
pub fn read_table<R: ByteReader>(alloc: Global, input: &mut R) -> Result<ReferenceTable, TableFault>
    ensures table { IfOk result (λ table. IfSome (R.remaining input.old) (λ bytes. IsTableText bytes table)) }
    ensures refused { result ≡ Err TableFault.Refused → IfSome (R.remaining input.old) IsNoTable }
    ensures failed { result ≡ Err TableFault.NotRead → R.has_failed input.new ≡ true }
{
    let bytes = read_all(alloc, input)?;
    match str::from_utf8(bytes.as_slice()) {
        Ok(text) => Ok(ReferenceTable::from_json(alloc, text)?),
        Err(_) => Err(TableFault::Refused),
    }
}

/// All bytes that a device has left.
fn read_all<R: ByteReader>(alloc: Global, input: &mut R) -> Result<Vec<u8>, TableFault>
    ensures bytes { IfOk result (λ bytes. IfSome (R.remaining input.old) (λ all. all ≡ bytes.items)) }
    ensures failed { result ≡ Err TableFault.NotRead → R.has_failed input.new ≡ true }
    ensures kinds { IfErr result (λ fault. (fault ≡ TableFault.NotRead) ⊎ (fault ≡ TableFault.Memory)) }
{
    let mut bytes = Vec::new(alloc);
    let mut buffer = [0; PIECE];
    let mut left = usize::MAX;
    'pieces: loop {
        let count = input.read(&mut buffer)?;
        if count == 0 {
            return Ok(bytes);
        }
        // No memory holds more bytes than a number counts.
        let Some(fewer) = left.checked_sub(count) else {
            return Err(TableFault::Memory);
        };
        left = fewer;
        bytes.extend_from_slice(&buffer[..count])?;
    }
}
