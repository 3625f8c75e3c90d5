// What ends a job or the program early, and how that is said.
use answers::Refused;
use std::alloc::{AllocError, AllocFailed, Global};
use std::io;
use thiserror::Error;

#[derive(Debug, Drop, Error)]
pub(crate) enum Stop {
    // A head that is refused ends its job, and no other.
    #[error("refused {0}")]
    Refused(#[from] Refused),
    // A line that breaks a rule: the message on it.
    #[error("{0}")]
    Wrong(String),
    // A job that cannot be read: its name.
    #[error("cannot read {0}: {1}")]
    Unreadable(String, io::Error),
    // The answers cannot be written.
    #[error("cannot write: {0}")]
    Io(#[from] io::Error),
    #[error("out of memory")]
    Memory(#[from(alloc)] AllocError),
}

impl Stop {
    pub(crate) fn unreadable(heap: Global, name: &str, error: io::Error) -> Stop {
        String::from_str(heap, name).map_or_else(Stop::Memory, |name| Stop::Unreadable(name, error))
    }
}
