//! DELETE of a key: the keys of a domain with one key version number go (GlobalPlatform Card Specification 2.3.1, 11.2).

ghost use Rattle.std.specs.Prelude.{◌≡◌, refl};
ghost use Rattle.policy_rules.specs.declared.request.Request.TheVariants.{DeleteKey};

use crate::managed_request::{Acting, ManagedRequest};
use crate::reply::{Answer, Reply};
use apdu_core::Status;
use flash_core::Flash;
use key_sets::delete;
use policy_rules::judge_delete_key;
use rec_store::Records;

/// The keys with a key version number, or the one with this key identifier.
#[derive(Clone, Copy)]
pub struct DeleteKeyRequest {
    pub version: u8,
    pub identifier: Option<u8>,
}

impl DeleteKeyRequest {
    /// The keys with this key version number, or of them the one with this key identifier.
    pub fn new(version: u8, identifier: Option<u8>) -> DeleteKeyRequest
        ensures { result ≡ record { version = version; identifier = identifier } }
    {
        DeleteKeyRequest {
            version,
            identifier,
        }
    }
}

impl<F: Flash> ManagedRequest<F> for DeleteKeyRequest {
    ghost request = { λ request. DeleteKey request.version request.identifier };

    #[inline(never)]
    fn manage(&self, records: &mut Records<F>, acting: &Acting<'_>, reply: &mut Reply) -> Answer {
        let domain = acting.domain;
        judge_delete_key(records.tables(), domain, self.version, self.identifier)?;
        delete(records, domain, self.version);
        reply.push(0x00);
        Ok(Status(0x9000))
    }

    ghost changes = { λ these. refl };
}
