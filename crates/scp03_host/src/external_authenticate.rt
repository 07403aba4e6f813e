//! How a session begins (GlobalPlatform Amendment D, 7.1.1, 7.1.2).

ghost use Rattle.std.specs.Prelude.{◌≡◌, ◌≢◌, ◌↔◌, ◌<◌, ◌++◌, length, take, IfOk, OnOk, OnErr};
ghost use Rattle.apdu_core.specs.Apdu.{Short};
ghost use Rattle.apdu_core.specs.ClassBytes.{IsBasicChannel};
ghost use Rattle.scp03_card.specs.Kept.{RepresentsSession};
ghost use Rattle.scp03_card.specs.Offer.{Offer, host_cryptogram};
ghost use Rattle.scp03_card.specs.Session.{chain_of, session_from};
ghost use Rattle.scp03_host.specs.Begin.{ShowsKeys, answer_to, offer_from_reply};

use crate::host_session::HostSession;
use crate::refusals::BeginRefusal;
use aes_block::BlockKey;
use apdu_core::{Command, on_channel};
use arrayvec::ArrayVec;
use card_types::Level;
use cmac_kdf::CmacKey;
use scp03_card::{SessionKeys, StaticKeys};

// The length of the data field that INITIALIZE UPDATE answers.
const UPDATE_REPLY: usize = 32;

/// Begins a session at a level. `host` is the host challenge, and `reply` the data field that the card
/// answered to INITIALIZE UPDATE. `out` becomes the EXTERNAL AUTHENTICATE to send on the channel.
pub fn begin<K: BlockKey>(
    keys: StaticKeys<K>,
    host: &[u8; 8],
    reply: &[u8],
    level: Level,
    channel: u8,
    out: &mut ArrayVec<u8, 261>,
) -> Result<HostSession<K>, BeginRefusal>
    requires { IsBasicChannel channel }
    ensures session { IfOk result (λ kept. RepresentsSession kept
        (session_from (offer_from_reply (K.key_bytes keys.enc) (K.key_bytes keys.mac) (K.key_bytes keys.dek) host.now reply.now) level)) }
    ensures sent { OnOk result (Short
        (answer_to (offer_from_reply (K.key_bytes keys.enc) (K.key_bytes keys.mac) (K.key_bytes keys.dek) host.now reply.now) level channel) out.new.items) }
    ensures short { (result ≡ Err BeginRefusal.Short) ↔ (length reply.now ≢ 32) }
    ensures cryptogram { (result ≡ Err BeginRefusal.CardCryptogram) ↔ (length reply.now ≡ 32)
        × (ShowsKeys (offer_from_reply (K.key_bytes keys.enc) (K.key_bytes keys.mac) (K.key_bytes keys.dek) host.now reply.now) reply.now → ⊥) }
    ensures unchanged { OnErr result (out.new ≡ out.old) }
{
    if reply.len() != UPDATE_REPLY {
        return Err(BeginRefusal::Short);
    }
    let card = eight(&reply[13..21]);
    let cryptogram = eight(&reply[21..29]);
    let StaticKeys { enc, mac, dek } = keys;
    let enc = CmacKey::new(enc);
    let mac = CmacKey::new(mac);
    let keys = SessionKeys::derive(&enc, &mac, dek, host, &card);
    if keys.card_cryptogram(host, &card) != cryptogram {
        return Err(BeginRefusal::CardCryptogram);
    }
    let answer = keys.host_cryptogram(host, &card);
    let chain = keys.first_chain(level, &answer);
    write_answer(level, channel, &answer, &chain, out);
    Ok(HostSession {
        keys,
        level,
        chain,
        number: 0,
    })
}

// Replaces what `out` holds by EXTERNAL AUTHENTICATE, with this host cryptogram and the C-MAC that the chaining value
// begins with.
fn write_answer(
    level: Level,
    channel: u8,
    cryptogram: &[u8; 8],
    chain: &[u8; 16],
    out: &mut ArrayVec<u8, 261>,
)
    requires { IsBasicChannel channel }
    ensures { (offer : Offer) → cryptogram.now ≡ host_cryptogram offer → chain.now ≡ chain_of (session_from offer level)
        → Short (answer_to offer level channel) out.new.items }
{
    let body = answer_body(cryptogram, chain);
    let command = Command {
        class: on_channel(0x84, channel),
        ins: 0x82,
        p1: level.code(),
        p2: 0x00,
        body: &body,
        le: None,
    };
    command.write(out);
}

// The host cryptogram and the C-MAC.
fn answer_body(cryptogram: &[u8; 8], chain: &[u8; 16]) -> [u8; 16]
    ensures { result ≡ cryptogram.now ++ take 8 chain.now }
{
    let mut body = [0; 16];
    body[..8].copy_from_slice(cryptogram);
    body[8..].copy_from_slice(&chain[..8]);
    body
}

fn eight(bytes: &[u8]) -> [u8; 8]
    requires { length bytes.now ≡ 8 }
    ensures { result ≡ bytes.now }
{
    let mut eight = [0; 8];
    eight.copy_from_slice(bytes);
    eight
}
