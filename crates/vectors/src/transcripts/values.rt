//! What is derived in sessions with keys of one length.

ghost use Rattle.std.specs.Prelude.{◌<◌, ◌≤◌, length};

use crate::known_keys::{AID, HOST, static_key};
use crate::told::{Told, told};
use crate::transcripts::table::{Bytes, Table};
use aes_block::BlockKey;
use cmac_kdf::derive;

/// The first lines of a table.
#[derive(Drop)]
pub struct Values {
    /// A block of zeros, enciphered by Key-DEK.
    pub zeros: Bytes,

    /// The data field of the reply to INITIALIZE UPDATE.
    pub update: Bytes,
    host_cryptogram: Bytes,
    s_enc: Bytes,
    s_mac: Bytes,
    s_rmac: Bytes,
}

impl Values {
    pub(super) fn read(table: &mut Table<'_>) -> Told<Values> {
        Ok(Values {
            zeros: table.next()?,
            update: table.next()?,
            host_cryptogram: table.next()?,
            s_enc: table.next()?,
            s_mac: table.next()?,
            s_rmac: table.next()?,
        })
    }

    fn card_challenge(&self) -> &[u8] {
        self.update.get(13..21).unwrap_or(b"")
    }

    fn card_cryptogram(&self) -> &[u8] {
        self.update.get(21..29).unwrap_or(b"")
    }

    /// The challenges of host and card.
    fn challenges(&self) -> Told<[u8; 16]> {
        let card = self.card_challenge();
        if card.len() != 8 {
            return Err("the challenge of the card");
        }
        let mut challenges = [0; 16];
        challenges[..8].copy_from_slice(&HOST);
        challenges[8..].copy_from_slice(card);
        Ok(challenges)
    }
}

/// Whether these are the `N` bytes that are derived from a key.
fn is_derived<K: BlockKey, const N: usize>(
    key: &K,
    constant: u8,
    context: &[u8],
    wanted: &[u8],
) -> bool
    requires some { 0 < N }
    requires most { N ≤ 32 }
    requires short_context { length context.now ≤ 32 }
{
    let mut out = [0; N];
    derive(key, constant, context, &mut out);
    out.as_slice() == wanted
}

fn card_challenge_is<K: BlockKey>(key: &K, wanted: &[u8]) -> bool {
    let mut counter_and_aid = [0; 11];
    counter_and_aid[3..].copy_from_slice(&AID);
    is_derived::<K, 8>(key, 0x02, &counter_and_aid, wanted)
}

/// The keys have `N` bytes.
pub fn derivations<K: BlockKey, const N: usize>(values: &Values) -> Told<()>
    requires some { 0 < N }
    requires most { N ≤ 32 }
{
    let static_key: K = static_key();
    let challenge = card_challenge_is(&static_key, values.card_challenge());
    told(challenge, "card challenge")?;
    let both = values.challenges()?;
    let s_enc = is_derived::<K, N>(&static_key, 0x04, &both, &values.s_enc);
    told(s_enc, "S-ENC")?;
    let s_mac = is_derived::<K, N>(&static_key, 0x06, &both, &values.s_mac);
    told(s_mac, "S-MAC")?;
    let s_rmac = is_derived::<K, N>(&static_key, 0x07, &both, &values.s_rmac);
    told(s_rmac, "S-RMAC")?;
    if values.s_mac.len() != K::LEN {
        return Err("S-MAC");
    }
    let s_mac = K::from_key(&values.s_mac);
    let card = is_derived::<K, 8>(&s_mac, 0x00, &both, values.card_cryptogram());
    told(card, "card cryptogram")?;
    let host = is_derived::<K, 8>(&s_mac, 0x01, &both, &values.host_cryptogram);
    told(host, "host cryptogram")
}
