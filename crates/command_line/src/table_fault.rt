//! Why a file gives no table of references.
ghost use Rattle.std.specs.Prelude.{◌≡◌};
ghost use Rattle.command_line.specs.declared.table_fault.TableFault.TheVariants as faults;

use html_lexemes::{DeviceFault, TableError};
use std::alloc::AllocError;

const BAD_TABLE: &str = "bad reference table";

const MEMORY: &str = "out of memory";

/// Why a file gives no table of references.
#[derive(Clone, Copy, PartialEq, Eq)]
pub enum TableFault {
    /// It can't be opened, or a read failed.
    NotRead,
    /// What it holds is no table.
    Refused,
    /// A growth was refused since allocation fails.
    Memory,
}

impl TableFault {
    ghost use Rattle.command_line.specs.TableFiles.{fault_text};

    /// What is wrong, in words.
    pub fn text(self) -> &'static str
        ensures { result.now ≡ fault_text self }
    {
        match self {
            TableFault::NotRead | TableFault::Refused => BAD_TABLE,
            TableFault::Memory => MEMORY,
        }
    }
}

impl From<DeviceFault> for TableFault {
    ghost from_gives = { λ _ fault. fault ≡ faults.NotRead };

    fn from(_fault: DeviceFault) -> TableFault {
        TableFault::NotRead
    }
}

impl From<AllocError> for TableFault {
    ghost from_gives = { λ _ fault. fault ≡ faults.Memory };

    fn from(_fault: AllocError) -> TableFault {
        TableFault::Memory
    }
}

impl From<TableError> for TableFault {
    ghost use Rattle.command_line.specs.TableFiles.{fault_of_table};

    ghost from_gives = { λ error fault. fault ≡ fault_of_table error };

    fn from(error: TableError) -> TableFault {
        match error {
            TableError::Memory => TableFault::Memory,
            TableError::NotJson
            | TableError::NotAnObject
            | TableError::BadName(_)
            | TableError::BadCodePoints(_) => TableFault::Refused,
        }
    }
}
