//! The keys of a session, and the cryptograms (GlobalPlatform Amendment D, 6.2.1, 6.2.2).

ghost use Rattle.std.specs.Prelude.{◌≡◌, ◌*◌, length};
ghost use Rattle.cmac_kdf.specs.Derivation.{kdf};
ghost use Rattle.scp03_card.specs.Kept.{HasSessionKeys};
ghost use Rattle.scp03_card.specs.Offer as standard;

use crate::eight_bytes::{derived_eight, joined};
use aes_block::BlockKey;
use cmac_kdf::CmacKey;
use std::marker::Model;

// The derivation constants (4.1.5).
const CARD_CRYPTOGRAM: u8 = 0x00;

const HOST_CRYPTOGRAM: u8 = 0x01;

const S_ENC: u8 = 0x04;

const S_MAC: u8 = 0x06;

const S_RMAC: u8 = 0x07;

/// S-ENC, S-MAC and S-RMAC, and the static Key-DEK: what card and host compute alike is computed under
/// these. Contracts see their bytes.
#[derive(Drop)]
pub struct SessionKeys<K: BlockKey> {
    pub(crate) enc: K,
    pub(crate) mac: CmacKey<K>,
    pub(crate) rmac: CmacKey<K>,
    pub(crate) dek: K,
}

impl<K: BlockKey> Model for SessionKeys<K> {
    ghost use Rattle.scp03_card.specs.Kept.{Keys};

    ghost Value = { Keys };

    ghost view = { λ k. record {
      enc = K.key_bytes k.enc;
      mac = k.mac;
      rmac = k.rmac;
      dek = K.key_bytes k.dek;
    } };
}

impl<K: BlockKey> SessionKeys<K> {
    /// The keys of the session between these challenges, from the static Key-ENC, Key-MAC and Key-DEK.
    pub fn derive(
        enc: &CmacKey<K>,
        mac: &CmacKey<K>,
        dek: K,
        host: &[u8; 8],
        card: &[u8; 8],
    ) -> SessionKeys<K>
        requires enc { length enc.now ≡ K.LEN }
        requires mac { length mac.now ≡ K.LEN }
        ensures { HasSessionKeys result (record { enc = enc.now; mac = mac.now; dek = K.key_bytes dek; host = host.now; card = card.now }) }
    {
        let context = joined(host, card);
        SessionKeys {
            enc: session_key(enc, S_ENC, &context),
            mac: CmacKey::new(session_key(mac, S_MAC, &context)),
            rmac: CmacKey::new(session_key(mac, S_RMAC, &context)),
            dek,
        }
    }

    /// The card cryptogram between these challenges.
    pub fn card_cryptogram(&self, host: &[u8; 8], card: &[u8; 8]) -> [u8; 8]
        ensures { (offer : standard.Offer) → HasSessionKeys self.now offer → host.now ≡ offer.host → card.now ≡ offer.card
            → result ≡ standard.card_cryptogram offer }
    {
        derived_eight(&self.mac, CARD_CRYPTOGRAM, &joined(host, card))
    }

    /// The host cryptogram between these challenges.
    pub fn host_cryptogram(&self, host: &[u8; 8], card: &[u8; 8]) -> [u8; 8]
        ensures { (offer : standard.Offer) → HasSessionKeys self.now offer → host.now ≡ offer.host → card.now ≡ offer.card
            → result ≡ standard.host_cryptogram offer }
    {
        derived_eight(&self.mac, HOST_CRYPTOGRAM, &joined(host, card))
    }

    /// The static key for sensitive data, Key-DEK.
    pub fn dek(&self) -> &K
        ensures { K.key_bytes result.now ≡ self.now.dek }
    {
        &self.dek
    }
}

// The key for the derivation constant and the context, of the length of its type.
fn session_key<K: BlockKey>(key: &CmacKey<K>, constant: u8, context: &[u8; 16]) -> K
    ensures { K.key_bytes result ≡ kdf key.now constant (8 * K.LEN) context.now }
{
    let mut bytes = [0; 32];
    let bytes = &mut bytes[..K::LEN];
    key.derive(constant, context, bytes);
    K::from_key(bytes)
}
