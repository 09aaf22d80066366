//! Why a report ends early, or isn't whole.

use std::alloc::{AllocError, AllocFailed};
use std::io;
use std::io::ErrorKind;
use thiserror::Error;

/// Why a report ends early, or isn't whole.
#[derive(Clone, Copy, Debug, PartialEq, Eq, Error)]
pub enum ReportFault {
    /// A path couldn't be read, and was told, or the report couldn't be written.
    #[error("input or output failed")]
    Device,
    /// No class was there to be reported.
    #[error("nothing to report")]
    Nothing,
    /// The page would be written over class files, and this was told.
    #[error("bad words")]
    BadWords,
    /// Whoever read the report closed the pipe.
    #[error("closed pipe")]
    Closed,
    /// Want of memory.
    #[error("out of memory")]
    Memory,
}

impl From<AllocError> for ReportFault {
    fn from(_e: AllocError) -> ReportFault {
        ReportFault::Memory
    }
}

impl<T: Drop> From<AllocFailed<T>> for ReportFault {
    fn from(_e: AllocFailed<T>) -> ReportFault {
        ReportFault::Memory
    }
}

impl From<io::Error> for ReportFault {
    fn from(error: io::Error) -> ReportFault {
        match error.kind() {
            ErrorKind::OutOfMemory => ReportFault::Memory,
            ErrorKind::BrokenPipe => ReportFault::Closed,
            _ => ReportFault::Device,
        }
    }
}
