//! INSTALL [for install]: an application or a security domain is made (GlobalPlatform Card Specification 2.3.1, 9.3.2 and 11.5).

ghost use Rattle.std.proofs.Common.{◌≡◌, inl, refl};
ghost use Rattle.card_core.specs.Prelude.{managed_install, of_form, slot_made};

use crate::confirm::Aids;
use crate::confirmed_request::ConfirmedRequest;
use crate::managed_request::Acting;
use card_types::{Entry, Life, LifeMark};
use flash_core::Flash;
use policy_rules::InstallRequest;
use rec_store::Records;
use registry::place_entry;

// The entry that a request asks for, in the domain and from the Executable Load File in these slots.
fn made(request: &InstallRequest<'_>, domain: u8, file: u8) -> Entry
    ensures { result ≡ slot_made request.now domain file }
{
    let life = if request.selectable {
        Life::Selectable
    } else {
        Life::Installed
    };
    Entry {
        aid: request.aid,
        domain,
        file,
        module: request.module,
        life: LifeMark {
            life,
            locked: false,
        },
        privileges: request.privileges,
        receipts: 0,
    }
}

impl ConfirmedRequest for InstallRequest<'_> {
    ghost managed = { managed_install };

    fn change<F: Flash>(&self, records: &mut Records<F>, acting: &Acting<'_>, file: u8) -> Aids {
        place_entry(records, made(self, acting.domain, file));
        Aids::new(self.file, Some(self.aid), None)
    }

    ghost formed = { λ these admitted is. of_form managed_install (λ holds found. inl found) (λ asked. refl) admitted is.form };

    ghost changes = { λ these. refl };
}
