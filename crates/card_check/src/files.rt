//! What is asked of an Executable Load File.

ghost use Rattle.card_check.specs.CardSlots.{IsCardFile};
ghost use Rattle.card_types.specs.Represents.{HasSlots};

use crate::domains::is_domain;
use crate::names::is_alone;
use crate::room::FACTORY_SLOT;
use crate::slots::Asks;
use card_types::{Found, LoadFile, Tables};

impl Asks<LoadFile> for Tables {
    ghost ready = { HasSlots };

    ghost admits = { IsCardFile };

    fn admits(&self, slot: u8, file: &LoadFile) -> bool {
        is_alone(self, Found::File(slot), file.aid.as_bytes())
            && is_domain(&self.entries, file.domain)
            && (slot == FACTORY_SLOT || file.len >= 1)
    }
}
