//! An offer under keys of any length (GlobalPlatform Amendment D, 7.1.1).

ghost use Rattle.std.specs.Prelude.{◌≡◌, ◌≤◌, IfOk, IsOk, OnOk, length};
ghost use Rattle.card_core.specs.Prelude.{HasCryptogram, HasMac, HaveKeyLength, RepresentsOffer, RepresentsSession, card_cryptogram, new_offer, session_from};
ghost use Rattle.card_types.specs.declared.limits.TheConstants.{COUNTER_LIMIT};
ghost use Rattle.scp03_card.specs.Offer as model;

use crate::aes_kind::AesKind;
use crate::aes_session::AesSession;
use aes_block::{Aes128, Aes192, Aes256, BlockKey};
use card_types::{Aid, KeySet, Level};
use scp03_card::{AuthRefusal, Offer, StaticKeys, offer};
use std::marker::Model;

/// An offer under the keys of a key set, whichever length these have.
#[derive(Drop)]
pub struct AesOffer {
    kind: AesKind<Offer<Aes128>, Offer<Aes192>, Offer<Aes256>>,
}

// Contracts see the offer, and not the kind.
impl Model for AesOffer {
    ghost use Rattle.scp03_card.specs.Kept.{KeptOffer};
    ghost use Rattle.card_core.specs.AesKinds.{kept_under};

    ghost Value = { KeptOffer };

    ghost view = { λ o. kept_under o.kind };
}

// The offer that keys of one length make.
fn offer_with<K: BlockKey>(set: &KeySet<'_>, aid: &Aid, host: &[u8; 8]) -> Offer<K>
    requires length { length set.now.enc.now.bytes.items ≡ K.LEN }
    requires lengths { HaveKeyLength set.now }
    requires counter { set.now.enc.now.counter ≤ COUNTER_LIMIT }
    ensures made { RepresentsOffer result
        (new_offer set.now.enc.now.bytes.items set.now.mac.now.bytes.items set.now.dek.now.bytes.items set.now.enc.now.counter aid.now host.now) }
{
    let keys = StaticKeys {
        enc: K::from_key(&set.enc.bytes),
        mac: K::from_key(&set.mac.bytes),
        dek: K::from_key(&set.dek.bytes),
    };
    offer(keys, set.enc.counter, aid, host)
}

impl AesOffer {
    /// The offer that the keys of a key set make, with the AID that is selected and the challenge of the host.
    pub fn of_set(set: &KeySet<'_>, aid: &Aid, host: &[u8; 8]) -> AesOffer
        requires lengths { HaveKeyLength set.now }
        requires counter { set.now.enc.now.counter ≤ COUNTER_LIMIT }
        ensures made { RepresentsOffer result
            (new_offer set.now.enc.now.bytes.items set.now.mac.now.bytes.items set.now.dek.now.bytes.items set.now.enc.now.counter aid.now host.now) }
    {
        let kind = match set.enc.bytes.len() {
            16 => AesKind::Aes128(offer_with(set, aid, host)),
            24 => AesKind::Aes192(offer_with(set, aid, host)),
            _ => AesKind::Aes256(offer_with(set, aid, host)),
        };
        AesOffer { kind }
    }

    /// The card challenge.
    pub fn challenge(&self) -> [u8; 8]
        ensures { (offer : model.Offer) → RepresentsOffer self.now offer → result ≡ offer.card }
    {
        match &self.kind {
            AesKind::Aes128(offer) => offer.challenge(),
            AesKind::Aes192(offer) => offer.challenge(),
            AesKind::Aes256(offer) => offer.challenge(),
        }
    }

    /// The card cryptogram.
    pub fn cryptogram(&self) -> [u8; 8]
        ensures { (offer : model.Offer) → RepresentsOffer self.now offer → result ≡ card_cryptogram offer }
    {
        match &self.kind {
            AesKind::Aes128(offer) => offer.cryptogram(),
            AesKind::Aes192(offer) => offer.cryptogram(),
            AesKind::Aes256(offer) => offer.cryptogram(),
        }
    }

    /// Judges the host's answer at this level, as `Offer::authenticate` does.
    pub fn authenticate(self, level: Level, body: &[u8; 16]) -> Result<AesSession, AuthRefusal>
        ensures ok { (offer : model.Offer) → RepresentsOffer self offer → IfOk result (λ kept. RepresentsSession kept (session_from offer level)) }
        ensures cryptogram_right { (offer : model.Offer) → RepresentsOffer self offer → OnOk result (HasCryptogram offer body.now) }
        ensures mac_right { (offer : model.Offer) → RepresentsOffer self offer → OnOk result (HasMac offer level body.now) }
        ensures back { (offer : model.Offer) → RepresentsOffer self offer → HasCryptogram offer body.now → HasMac offer level body.now → IsOk result }
        ensures cryptogram { (offer : model.Offer) → RepresentsOffer self offer → result ≡ Err AuthRefusal.Cryptogram → HasCryptogram offer body.now → ⊥ }
        ensures mac { (offer : model.Offer) → RepresentsOffer self offer → result ≡ Err AuthRefusal.Mac → HasMac offer level body.now → ⊥ }
        ensures mac_alone { (offer : model.Offer) → RepresentsOffer self offer → result ≡ Err AuthRefusal.Mac → HasCryptogram offer body.now }
    {
        let kind = match self.kind {
            AesKind::Aes128(offer) => AesKind::Aes128(offer.authenticate(level, body)?),
            AesKind::Aes192(offer) => AesKind::Aes192(offer.authenticate(level, body)?),
            AesKind::Aes256(offer) => AesKind::Aes256(offer.authenticate(level, body)?),
        };
        Ok(AesSession { kind })
    }
}
