//! EXTERNAL AUTHENTICATE (GlobalPlatform Amendment D, 7.1.2).

ghost use Rattle.std.specs.Prelude.{◌≡◌, IfOk, IsOk, OnOk};
ghost use Rattle.scp03_card.specs.Kept.{RepresentsSession, RepresentsOffer};
ghost use Rattle.scp03_card.specs.Offer as model;
ghost use Rattle.scp03_card.specs.Session.{HasCryptogram, HasMac, session_from};

use crate::card_offer::Offer;
use crate::eight_bytes::same;
use crate::refusals::AuthRefusal;
use crate::session::Session;
use aes_block::BlockKey;
use card_types::Level;

impl<K: BlockKey> Offer<K> {
    /// Judges the host's answer at this level: `body` is that of EXTERNAL AUTHENTICATE. The offer is
    /// spent.
    pub fn authenticate(self, level: Level, body: &[u8; 16]) -> Result<Session<K>, AuthRefusal>
        ensures ok { (offer : model.Offer) → RepresentsOffer self offer → IfOk result (λ kept. RepresentsSession kept (session_from offer level)) }
        ensures cryptogram_right { (offer : model.Offer) → RepresentsOffer self offer → OnOk result (HasCryptogram offer body.now) }
        ensures mac_right { (offer : model.Offer) → RepresentsOffer self offer → OnOk result (HasMac offer level body.now) }
        ensures back { (offer : model.Offer) → RepresentsOffer self offer → HasCryptogram offer body.now → HasMac offer level body.now → IsOk result }
        ensures cryptogram { (offer : model.Offer) → RepresentsOffer self offer → result ≡ Err AuthRefusal.Cryptogram → HasCryptogram offer body.now → ⊥ }
        ensures mac { (offer : model.Offer) → RepresentsOffer self offer → result ≡ Err AuthRefusal.Mac → HasMac offer level body.now → ⊥ }
        ensures mac_alone { (offer : model.Offer) → RepresentsOffer self offer → result ≡ Err AuthRefusal.Mac → HasCryptogram offer body.now }
    {
        let cryptogram = self.keys.host_cryptogram(&self.host, &self.card);
        if !same(&body[..8], &cryptogram) {
            return Err(AuthRefusal::Cryptogram);
        }
        let chain = self.keys.first_chain(level, &cryptogram);
        if !same(&body[8..], &chain[..8]) {
            return Err(AuthRefusal::Mac);
        }
        Ok(Session {
            keys: self.keys,
            level,
            chain,
            number: 0,
        })
    }
}
