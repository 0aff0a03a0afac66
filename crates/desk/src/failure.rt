use std::alloc::{AllocError, AllocFailed, Global};
use std::fmt;
use std::fmt::{Display, Formatter, Write};

// Why nothing is settled: what the desk is told, or want of memory.
#[derive(Drop)]
pub enum Failure {
    Said(String),
    NoMemory,
}

impl Failure {
    // What the desk is told, or want of memory where there is none for this text.
    pub(crate) fn said(heap: Global, message: impl Display + Drop) -> Failure {
        message
            .to_string(heap)
            .map_or(Failure::NoMemory, Failure::Said)
    }
}

impl Display for Failure {
    fn fmt<W: Write>(&self, f: &mut Formatter<W>) -> fmt::Result {
        match self {
            Failure::Said(message) => write!(f, "{message}"),
            Failure::NoMemory => write!(f, "there is not enough memory"),
        }
    }
}

impl From<AllocError> for Failure {
    fn from(_: AllocError) -> Failure {
        Failure::NoMemory
    }
}

impl<T: Drop> From<AllocFailed<T>> for Failure {
    fn from(_: AllocFailed<T>) -> Failure {
        Failure::NoMemory
    }
}

// A program that has said on standard error why it stops.
#[derive(Clone, Copy)]
pub struct Stopped;
