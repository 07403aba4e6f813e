//! Why a card is not powered on (this profile's own).

ghost use Rattle.std.specs.Prelude.{◌≡◌};
ghost use Rattle.card_core.specs.PowerOn.{power_cause};

use rec_store::OpenCause;
use std::alloc::AllocError;
use thiserror::Error;

#[derive(Debug, Drop, Error)]
pub enum PowerCause {
    #[error("out of memory")]
    Memory(AllocError),
    #[error("flash failed")]
    FlashFailed,
    #[error("not a card")]
    NotACard,
}

impl PowerCause {
    /// The cause of a device that is not mounted, as that of a card.
    pub(crate) fn of(cause: OpenCause) -> PowerCause
        ensures { result ≡ power_cause cause }
    {
        match cause {
            OpenCause::Memory(refused) => PowerCause::Memory(refused),
            OpenCause::FlashFailed => PowerCause::FlashFailed,
            OpenCause::NotACard => PowerCause::NotACard,
        }
    }
}

/// Why a card is not powered on, and the device.
#[derive(Drop)]
pub struct PowerError<F> {
    pub cause: PowerCause,
    pub flash: F,
}
