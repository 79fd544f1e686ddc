use std::alloc::AllocError;

/// Why a field stands for no text.
#[derive(Clone, Copy, Debug, Drop, thiserror::Error)]
pub enum FieldFault {
    /// A backslash before what is no escape.
    #[error("a bad escape")]
    Escape,
    /// A backslash before nothing.
    #[error("a backslash at the end")]
    End,
    /// A growth was refused since allocation fails.
    #[error("out of memory")]
    Memory,
}

impl From<AllocError> for FieldFault {
    fn from(_error: AllocError) -> FieldFault {
        FieldFault::Memory
    }
}
