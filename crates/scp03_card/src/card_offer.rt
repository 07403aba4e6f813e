//! What the card has offered, once it has answered INITIALIZE UPDATE.

ghost use Rattle.std.specs.Prelude.{◌≡◌};
ghost use Rattle.scp03_card.specs.Kept.{RepresentsOffer};
ghost use Rattle.scp03_card.specs.Offer as model;
ghost use Rattle.scp03_card.specs.Offer.{card_cryptogram};

use crate::session_keys::SessionKeys;
use aes_block::BlockKey;
use std::marker::Model;

/// The session keys and the challenges of a session that the host has still to answer.
#[derive(Drop)]
pub struct Offer<K: BlockKey> {
    pub(crate) keys: SessionKeys<K>,
    pub(crate) host: [u8; 8],
    pub(crate) card: [u8; 8],
}

impl<K: BlockKey> Model for Offer<K> {
    ghost use Rattle.scp03_card.specs.Kept.{KeptOffer};

    ghost Value = { KeptOffer };

    ghost view = { λ o. record { keys = o.keys; host = o.host; card = o.card } };
}

impl<K: BlockKey> Offer<K> {
    /// The card challenge.
    pub fn challenge(&self) -> [u8; 8]
        ensures { (offer : model.Offer) → RepresentsOffer self.now offer → result ≡ offer.card }
    {
        self.card
    }

    /// The card cryptogram.
    pub fn cryptogram(&self) -> [u8; 8]
        ensures { (offer : model.Offer) → RepresentsOffer self.now offer → result ≡ card_cryptogram offer }
    {
        self.keys.card_cryptogram(&self.host, &self.card)
    }
}
