//! What ends the writing of a registry.

use flash_core::FlashFailed;
use io_edge::WriteFailed;

/// What ended the writing of a registry.
#[derive(Clone, Copy, Debug, PartialEq, Eq)]
pub enum ShowFault {
    /// The device failed.
    Flash,

    /// The sink refused a write.
    Write,
}

impl From<FlashFailed> for ShowFault {
    ghost use Rattle.std.specs.Prelude.{◌≡◌};
    ghost use Rattle.gp_tool.specs.declared.show.fault.ShowFault.TheVariants.{Flash};

    ghost from_gives = { λ _ fault. fault ≡ Flash };

    fn from(_failed: FlashFailed) -> ShowFault {
        ShowFault::Flash
    }
}

impl From<WriteFailed> for ShowFault {
    ghost use Rattle.std.specs.Prelude.{◌≡◌};
    ghost use Rattle.gp_tool.specs.declared.show.fault.ShowFault.TheVariants.{Write};

    ghost from_gives = { λ _ fault. fault ≡ Write };

    fn from(_failed: WriteFailed) -> ShowFault {
        ShowFault::Write
    }
}
