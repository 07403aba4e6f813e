//! A device that records its calls, and holds nothing.

ghost use Rattle.std.specs.Prelude.{[]};

use arrayvec::ArrayVec;
use flash_core::{Flash, FlashFailed, Page};

#[derive(Clone, Copy, Debug, Default, PartialEq, Eq)]
pub enum Call {
    Read(u16),
    Write(u16),
    #[default]
    Sync,
}

/// A device that records its first sixteen calls, of which none fails.
#[derive(Drop)]
pub struct RecordedFlash {
    calls: ArrayVec<Call, 16>,
}

impl RecordedFlash {
    pub fn new() -> RecordedFlash {
        RecordedFlash {
            calls: ArrayVec::new(),
        }
    }

    pub fn calls(&self) -> &[Call] {
        &self.calls
    }
}

impl Flash for RecordedFlash {
    ghost tells = { ⊥ };

    ghost pages = { λ _. [] };

    ghost moment = { λ _. 0 };

    ghost may_leave = { λ _ _. ⊥ };

    ghost left_since = { λ _ _ _. ⊥ };

    ghost faults = { λ _. 0 };

    ghost as_read = { λ _ told. absurd told };

    ghost counts_now = { λ _ _ _ told. absurd told };

    ghost only_now = { λ _ _ told. absurd told };

    fn read(&mut self, page: u16, _into: &mut Page) -> Result<(), FlashFailed> {
        let _fits = self.calls.try_push(Call::Read(page));
        Ok(())
    }

    fn write(&mut self, page: u16, _from: &Page) -> Result<(), FlashFailed> {
        let _fits = self.calls.try_push(Call::Write(page));
        Ok(())
    }

    fn sync(&mut self) -> Result<(), FlashFailed> {
        let _fits = self.calls.try_push(Call::Sync);
        Ok(())
    }
}
