//! A session of the secure channel.

ghost use Rattle.std.specs.Prelude.{◌≡◌};
ghost use Rattle.scp03_card.specs.Kept.{RepresentsSession};
ghost use Rattle.scp03_card.specs.Session as model;

use crate::session_keys::SessionKeys;
use aes_block::BlockKey;
use card_types::Level;
use std::marker::Model;

/// A session that has begun with EXTERNAL AUTHENTICATE.
///
/// Of the messages that it has accepted the MAC chaining value is kept, and the number of the last
/// one.
#[derive(Drop)]
pub struct Session<K: BlockKey> {
    pub(crate) keys: SessionKeys<K>,
    pub(crate) level: Level,
    pub(crate) chain: [u8; 16],
    pub(crate) number: u128,
}

impl<K: BlockKey> Model for Session<K> {
    ghost use Rattle.scp03_card.specs.Kept.{KeptSession};

    ghost Value = { KeptSession };

    ghost view = { λ s. record {
      keys = s.keys;
      level = s.level;
      chain = s.chain;
      number = s.number;
    } };
}

impl<K: BlockKey> Session<K> {
    /// The static key for sensitive data, Key-DEK.
    pub fn dek(&self) -> &K
        ensures { (session : model.Session) → RepresentsSession self.now session → K.key_bytes result.now ≡ session.offer.dek }
    {
        self.keys.dek()
    }

    /// Its security level.
    pub fn level(&self) -> Level
        ensures { (session : model.Session) → RepresentsSession self.now session → result ≡ session.level }
    {
        self.level
    }
}
