//! Why a device is not mounted.

ghost use Rattle.std.specs.Prelude.{◌≡◌};
ghost use Rattle.rec_store.specs.declared.open.OpenCause.TheVariants.{FlashFailed as Failed, NotACard as NoCard};

use crate::slot::BadSlot;
use flash_core::FlashFailed;
use std::alloc::AllocError;
use thiserror::Error;

#[derive(Debug, Drop, Error)]
pub enum OpenCause {
    #[error("out of memory")]
    Memory(AllocError),
    #[error("flash failed")]
    FlashFailed,
    #[error("not a card")]
    NotACard,
}

impl From<FlashFailed> for OpenCause {
    ghost from_gives = { λ _ cause. cause ≡ Failed };

    fn from(_: FlashFailed) -> Self {
        OpenCause::FlashFailed
    }
}

impl From<BadSlot> for OpenCause {
    ghost from_gives = { λ _ cause. cause ≡ NoCard };

    fn from(_: BadSlot) -> Self {
        OpenCause::NotACard
    }
}

/// Why a device is not mounted, and the device.
#[derive(Drop)]
pub struct OpenError<F> {
    pub cause: OpenCause,
    pub flash: F,
}
