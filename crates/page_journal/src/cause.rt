//! Why a device is not mounted.

ghost use Rattle.std.specs.Prelude.{◌≡◌};
ghost use Rattle.page_journal.specs.declared.cause.MountCause.TheVariants.{FlashFailed as Failed};

use flash_core::FlashFailed;
use std::alloc::AllocError;
use thiserror::Error;

#[derive(Debug, Drop, Error)]
pub enum MountCause {
    #[error("out of memory")]
    Memory(AllocError),
    #[error("the device failed")]
    FlashFailed,
    #[error("the journal has no valid form")]
    BadJournal,
}

impl From<FlashFailed> for MountCause {
    ghost from_gives = { λ _ cause. cause ≡ Failed };

    fn from(_: FlashFailed) -> Self {
        MountCause::FlashFailed
    }
}

/// Why a device is not mounted, and the device.
#[derive(Drop)]
pub struct MountError<F> {
    pub cause: MountCause,
    pub flash: F,
}
