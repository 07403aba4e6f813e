//! What a card computes to open a session: five keys and five derivations.

ghost use Rattle.std.specs.Prelude.{◌≡◌};

use aes_block::BlockKey;
use cmac_kdf::CmacKey;

// The derivation constants of GlobalPlatform Amendment D, 4.1.5.
const CARD_CRYPTOGRAM: u8 = 0x00;

const HOST_CRYPTOGRAM: u8 = 0x01;

const SESSION_ENC: u8 = 0x04;

const SESSION_MAC: u8 = 0x06;

const SESSION_RMAC: u8 = 0x07;

fn derived<K: BlockKey>(key: &CmacKey<K>, constant: u8, challenges: &[u8; 16]) -> [u8; 16] {
    let mut out = [0; 16];
    key.derive(constant, challenges, &mut out);
    out
}

fn cryptogram<K: BlockKey>(key: &CmacKey<K>, constant: u8, challenges: &[u8; 16]) -> [u8; 8] {
    let mut out = [0; 8];
    key.derive(constant, challenges, &mut out);
    out
}

/// The static keys ENC and MAC are both these bytes. The answer is the two cryptograms, sealed by
/// the session's key ENC and authenticated by its key RMAC.
pub fn session_code<K: BlockKey>(static_key: &[u8; 16], challenges: &[u8; 16]) -> [u8; 16]
    requires { K.LEN ≡ 16 }
{
    let enc = CmacKey::new(K::from_key(static_key));
    let mac = CmacKey::new(K::from_key(static_key));
    let session_enc = K::from_key(&derived(&enc, SESSION_ENC, challenges));
    let session_mac = CmacKey::new(K::from_key(&derived(&mac, SESSION_MAC, challenges)));
    let session_rmac = CmacKey::new(K::from_key(&derived(&mac, SESSION_RMAC, challenges)));
    let mut block = [0; 16];
    block[..8].copy_from_slice(&cryptogram(&session_mac, CARD_CRYPTOGRAM, challenges));
    block[8..].copy_from_slice(&cryptogram(&session_mac, HOST_CRYPTOGRAM, challenges));
    session_enc.seal(&mut block);
    session_rmac.cmac(&block)
}
