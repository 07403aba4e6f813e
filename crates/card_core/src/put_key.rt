//! PUT KEY: keys of a domain are put (GlobalPlatform Card Specification 2.3.1, 11.8; Amendment D, 7.2).

ghost use Rattle.std.specs.Prelude.{◌≡◌, ◌≤◌, ◌+◌, ◌++◌, ◌&&◌, length, refl};
ghost use Rattle.policy_rules.specs.declared.request.Request.TheVariants.{PutKey};

use crate::channel_session::ChannelSession;
use crate::managed_request::{Acting, ManagedRequest};
use crate::opened_key::OpenedKey;
use crate::reply::{Answer, Reply};
use apdu_core::Status;
use flash_core::Flash;
use key_sets::{place_one, place_set};
use policy_rules::{PutKeys, Rule, RuleG, SealedKey, judge_put_keys, judge_put_versions};
use rec_store::Records;

fn all_fit(enc: &OpenedKey, mac: &OpenedKey, dek: &OpenedKey) -> bool
    ensures { result ≡ (enc.now.fits && mac.now.fits && dek.now.fits) }
{
    enc.fits && mac.fits && dek.fits
}

// A check value joins the reply.
fn write_check(sent: &SealedKey<'_>, reply: &mut Reply)
    requires size { length sent.now.check.now ≡ 3 }
    requires room { length reply.old.items ≤ 200 }
    ensures written { reply.new.items ≡ reply.old.items ++ sent.now.check.now }
    ensures length { length reply.new.items ≡ length reply.old.items + 3 }
{
    reply.try_extend_from_slice(sent.check).unwrap();
}

/// Keys that are put in the place of those with a key version number, or of none for 00.
#[derive(Clone, Copy)]
pub struct PutKeyRequest<'a> {
    pub replaced: u8,
    pub version: u8,
    pub keys: &'a PutKeys<'a>,
}

impl<'a> PutKeyRequest<'a> {
    /// The keys with key version number `version`, in the place of those with `replaced`.
    pub fn new(replaced: u8, version: u8, keys: &'a PutKeys<'a>) -> PutKeyRequest<'a>
        ensures { result ≡ record { replaced = replaced; version = version; keys = keys.entry } }
    {
        PutKeyRequest {
            replaced,
            version,
            keys,
        }
    }
}

impl<F: Flash> ManagedRequest<F> for PutKeyRequest<'_> {
    ghost request = { λ request. PutKey request.replaced request.version request.keys.now };

    #[inline(never)]
    fn manage(&self, records: &mut Records<F>, acting: &Acting<'_>, reply: &mut Reply) -> Answer {
        let ChannelSession::Secured(session) = acting.held else {
            return Err(Rule::G(RuleG::G6));
        };
        let domain = acting.domain;
        judge_put_versions(records.tables(), domain, self.replaced, self.version)?;
        match self.keys {
            PutKeys::One(sent) => {
                let key = session.open_key(sent);
                judge_put_keys(records.tables(), domain, self.replaced, self.keys, key.fits)?;
                reply.push(self.version);
                write_check(sent, reply);
                place_one(records, domain, self.replaced, self.version, &key.bytes);
                Ok(Status(0x9000))
            }
            PutKeys::Three(first, second, third) => {
                let enc = session.open_key(first);
                let mac = session.open_key(second);
                let kek = session.open_key(third);
                let fit = all_fit(&enc, &mac, &kek);
                judge_put_keys(records.tables(), domain, self.replaced, self.keys, fit)?;
                reply.push(self.version);
                write_check(first, reply);
                write_check(second, reply);
                write_check(third, reply);
                place_set(
                    records,
                    domain,
                    self.replaced,
                    self.version,
                    &enc.bytes,
                    &mac.bytes,
                    &kek.bytes,
                );
                Ok(Status(0x9000))
            }
        }
    }

    ghost changes = { λ these. refl };
}
