//! Why no case goes on.

use flash_core::FlashFailed;
use std::alloc::{AllocError, AllocFailed};
use thiserror::Error;

#[derive(Debug, Drop, Error)]
pub enum CaseError {
    #[error("out of memory")]
    Memory(#[from] AllocError),
    #[error("no line of the language")]
    NoForm,
    #[error("the registry names what is not there, or has no room")]
    NoRegistry,
    #[error("the file with the pages can't be read, or has too many")]
    NoImage,
    #[error("the device does not take the pages")]
    Device,
}

impl<T: Drop> From<AllocFailed<T>> for CaseError {
    fn from(failed: AllocFailed<T>) -> CaseError {
        CaseError::Memory(failed.into())
    }
}

impl From<FlashFailed> for CaseError {
    fn from(_failed: FlashFailed) -> CaseError {
        CaseError::Device
    }
}
