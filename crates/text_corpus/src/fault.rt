// Why a corpus cannot be read, or its answers not be written.
use std::alloc::{AllocError, AllocFailed};
use thiserror::Error;

#[derive(Debug, Drop, Error)]
pub enum CorpusFault {
    #[error("no line `= NAME LENGTH` where an entry begins")]
    NoHeader,
    #[error("the corpus ends within a text")]
    TextCutOff,
    #[error("no byte 10 behind a text")]
    TextUnended,
    #[error("out of memory")]
    OutOfMemory,
}

impl From<AllocError> for CorpusFault {
    fn from(_error: AllocError) -> CorpusFault {
        Self::OutOfMemory
    }
}

impl<T: Drop> From<AllocFailed<T>> for CorpusFault {
    fn from(_failed: AllocFailed<T>) -> CorpusFault {
        Self::OutOfMemory
    }
}
