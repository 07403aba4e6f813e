//! The key slots of a card in memory.

ghost use Rattle.std.specs.Prelude.{◌≡◌, List, Option, None, All, IfOk, length, replicate};
ghost use Rattle.rec_store.specs.Prelude.{IsRoomyKey, things_in};
ghost use Rattle.card_types.specs.declared.limits.TheConstants.{KEYS};
ghost use Rattle.card_types.specs.declared.tables.KeyRec.{KeyRec as KeyOf};

use crate::keeper::RecordKeeper;
use card_types::{KEYS, KeyRec};
use std::alloc::{AllocError, Global};
use std::marker::Model;

/// The key slots of a card in memory. It holds nothing else, and has room for each change.
#[derive(Drop)]
pub struct MemKeeper {
    keys: Vec<Option<KeyRec>>,
}

// Contracts see the key slots.
impl Model for MemKeeper {
    ghost Value = { List (Option KeyOf) };

    ghost view = { λ keeper. keeper.keys.items };

    ghost invariant = { λ keeper. (length keeper.keys.items ≡ KEYS) × All IsRoomyKey (things_in keeper.keys.items) };
}

impl MemKeeper {
    /// Free slots. An error is want of memory.
    pub fn new(alloc: Global) -> Result<MemKeeper, AllocError>
        ensures free { IfOk result (λ keeper. keeper ≡ replicate KEYS None) }
    {
        let mut keys = Vec::new(alloc);
        for slot in 0..KEYS {
            keys.push(None)?;
        }
        Ok(MemKeeper { keys })
    }
}

impl RecordKeeper for MemKeeper {
    ghost slots = { λ keeper. keeper };

    ghost same_else = { λ _ _. Unit {0} };

    ghost roomy = { λ _. Unit {0} };

    fn keys(&self) -> &[Option<KeyRec>] {
        &self.keys
    }

    fn set_key(&mut self, slot: u8, value: Option<KeyRec>) {
        self.keys[usize::from(slot)] = value;
    }

    ghost same_self = { λ _. tt };

    ghost same_on = { λ _ _ _ _ _. tt };
}
