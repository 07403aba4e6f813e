//! How a session begins, under keys of any length (GlobalPlatform Amendment D, 7.1.1, 7.1.2).

ghost use Rattle.std.specs.Prelude.{◌≡◌, ◌≢◌, ◌↔◌, ◌<◌, length, IfOk, OnOk, OnErr};
ghost use Rattle.apdu_core.specs.ClassBytes.{IsBasicChannel};
ghost use Rattle.script_tool.specs.Prelude.{RepresentsSession, Short, ShowsKeys, answer_to, offer_from_reply, offer_under, session_from};

use crate::aes_session::AesSession;
use aes_block::BlockKey;
use arrayvec::ArrayVec;
use scp03_card::StaticKeys;
use scp03_host::{BeginRefusal, HostSession, begin};
use script_lines::{Keys, OfSize, Opening, Trio};

impl AesSession {
    /// Begins a session, as `scp03_host::begin` does. `reply` is the data field that the card answered to INITIALIZE
    /// UPDATE, and `out` becomes the EXTERNAL AUTHENTICATE to send on the channel.
    pub fn begin(
        keys: &Keys,
        opening: &Opening,
        reply: &[u8],
        channel: u8,
        out: &mut ArrayVec<u8, 261>,
    ) -> Result<AesSession, BeginRefusal>
        requires { IsBasicChannel channel }
        ensures session { IfOk result (λ kept. RepresentsSession kept (session_from (offer_under keys.now opening.now.challenge reply.now) opening.now.level)) }
        ensures sent { OnOk result (Short (answer_to (offer_under keys.now opening.now.challenge reply.now) opening.now.level channel) out.new.items) }
        ensures short { (result ≡ Err BeginRefusal.Short) ↔ (length reply.now ≢ 32) }
        ensures cryptogram { (result ≡ Err BeginRefusal.CardCryptogram) ↔ (length reply.now ≡ 32)
            × (ShowsKeys (offer_under keys.now opening.now.challenge reply.now) reply.now → ⊥) }
        ensures unchanged { OnErr result (out.new ≡ out.old) }
    {
        let kind = match keys {
            OfSize::Aes128(keys) => OfSize::Aes128(begun(keys, opening, reply, channel, out)?),
            OfSize::Aes192(keys) => OfSize::Aes192(begun(keys, opening, reply, channel, out)?),
            OfSize::Aes256(keys) => OfSize::Aes256(begun(keys, opening, reply, channel, out)?),
        };
        Ok(AesSession { kind })
    }
}

// Begins a session with keys of one length.
fn begun<K: BlockKey, const N: usize>(
    keys: &Trio<N>,
    opening: &Opening,
    reply: &[u8],
    channel: u8,
    out: &mut ArrayVec<u8, 261>,
) -> Result<HostSession<K>, BeginRefusal>
    requires length { N ≡ K.LEN }
    requires channel { IsBasicChannel channel }
    ensures session { IfOk result (λ kept. RepresentsSession kept
        (session_from (offer_from_reply keys.now.enc keys.now.mac keys.now.dek opening.now.challenge reply.now) opening.now.level)) }
    ensures sent { OnOk result (Short
        (answer_to (offer_from_reply keys.now.enc keys.now.mac keys.now.dek opening.now.challenge reply.now) opening.now.level channel) out.new.items) }
    ensures short { (result ≡ Err BeginRefusal.Short) ↔ (length reply.now ≢ 32) }
    ensures cryptogram { (result ≡ Err BeginRefusal.CardCryptogram) ↔ (length reply.now ≡ 32)
        × (ShowsKeys (offer_from_reply keys.now.enc keys.now.mac keys.now.dek opening.now.challenge reply.now) reply.now → ⊥) }
    ensures unchanged { OnErr result (out.new ≡ out.old) }
{
    let keys = StaticKeys {
        enc: K::from_key(&keys.enc),
        mac: K::from_key(&keys.mac),
        dek: K::from_key(&keys.dek),
    };
    begin(keys, &opening.challenge, reply, opening.level, channel, out)
}
