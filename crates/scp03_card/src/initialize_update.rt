//! INITIALIZE UPDATE (GlobalPlatform Amendment D, 7.1.1).

ghost use Rattle.std.specs.Prelude.{◌≡◌, ◌≤◌};
ghost use Rattle.scp03_card.specs.Kept.{RepresentsOffer};
ghost use Rattle.scp03_card.specs.Offer.{new_offer};
ghost use Rattle.scp03_card.specs.Offer as standard;

use crate::card_offer::Offer;
use crate::eight_bytes::derived_eight;
use crate::session_keys::SessionKeys;
use crate::static_keys::StaticKeys;
use aes_block::BlockKey;
use card_types::Aid;
use cmac_kdf::CmacKey;

// The derivation constant of the card challenge (4.1.5).
const CARD_CHALLENGE: u8 = 0x02;

/// Offers a session to the host that sent this challenge. `counter` is the sequence counter of the
/// key set, and `aid` is selected.
pub fn offer<K: BlockKey>(keys: StaticKeys<K>, counter: u32, aid: &Aid, host: &[u8; 8]) -> Offer<K>
    requires { counter ≤ 0xFFFFFF }
    ensures { RepresentsOffer result (new_offer (K.key_bytes keys.enc) (K.key_bytes keys.mac) (K.key_bytes keys.dek) counter aid.now host.now) }
{
    let StaticKeys { enc, mac, dek } = keys;
    let enc = CmacKey::new(enc);
    let mac = CmacKey::new(mac);
    let card = card_challenge(&enc, counter, aid);
    Offer {
        keys: SessionKeys::derive(&enc, &mac, dek, host, &card),
        host: *host,
        card,
    }
}

fn card_challenge<K: BlockKey>(enc: &CmacKey<K>, counter: u32, aid: &Aid) -> [u8; 8]
    requires { counter ≤ 0xFFFFFF }
    ensures { result ≡ standard.card_challenge enc.now counter aid.now }
{
    let [_, high, middle, low] = counter.to_be_bytes();
    let aid = aid.as_bytes();
    let mut context = [0; 19];
    context[..3].copy_from_slice(&[high, middle, low]);
    context[3..3 + aid.len()].copy_from_slice(aid);
    derived_eight(enc, CARD_CHALLENGE, &context[..3 + aid.len()])
}
