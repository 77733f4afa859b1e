use std::alloc::AllocError;
use std::io;
use thiserror::Error;

// Why a line was not taken.
#[derive(Debug, Drop, Error)]
pub(crate) enum Trouble {
    #[error("{0}")]
    Line(&'static str),
    #[error("out of memory")]
    Memory(#[from(alloc)] AllocError),
    #[error("{0}")]
    Output(#[from] io::Error),
}
